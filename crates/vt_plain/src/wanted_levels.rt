//! Which levels the pictures of a path want.

ghost use Rattle.std.specs.Prelude.{◌≡◌, ℕ, ◌<◌, ◌≤◌, false, length, unsigned_abs, ◌/◌};
ghost use Rattle.vt_camera.specs.declared.surfaces.Surface.{Surface};
ghost use Rattle.vt_camera.specs.Rows.{row_of, row_level};
ghost use Rattle.vt_camera.specs.Paths.{camera_at};

use vt_camera::Path;

// How much ground a pixel spans at least whose row takes its texels from level 1 or a coarser one, in 1/256 texel.
const LEVEL_1_SPAN: u64 = 512;

/// Whether a row of a path's pictures takes its texels from level 0, though the texture has further levels. A row spans the less ground the
/// further down it lies, so the last row of each picture tells.
pub fn wants_level_0(path: &Path) -> bool
    ensures { result ≡ false → (surface : Surface) (picture y : ℕ) → 2 ≤ surface.levels → picture < length path.now.cameras → y < path.now.height
        → 1 ≤ row_level (row_of path.now (camera_at path.now picture) y surface) }
{
    let height = u64::from(path.height());
    for picture in 0..path.pictures() {
        let camera = path.camera(picture);
        if camera.h.unsigned_abs() / height < LEVEL_1_SPAN {
            return true;
        }
    }
    false
}
