//! Shapes of textures and names of pages as C gives them.

ghost use Rattle.std.specs.Prelude.{◌≡◌, MatchOption};
ghost use Rattle.std.specs.Bool.{MatchBool};
ghost use Rattle.vt_pages.specs.Pages.{IsPage};
ghost use Rattle.vt_pages.specs.Laws.{IsInside};
ghost use Rattle.vtex_c.specs.Shapes.{IsShapeRefused, shape_in, name_in, IsGeometryIn};

use vt_pages::{Geometry, PageName};
use vt_residency::level_at;

/// The sides of a texture and of its tiles, in texels.
#[repr(C)]
#[derive(Clone, Copy)]
pub struct VtexShape {
    pub width: u32,
    pub height: u32,
    pub tile: u32,
}

/// The name of a page: its level, the finest first, and its column and row there.
#[repr(C)]
#[derive(Clone, Copy)]
pub struct VtexName {
    pub level: u32,
    pub column: u32,
    pub row: u32,
}

/// The geometry of a shape, unless it is refused.
pub fn geometry_of(shape: &VtexShape) -> Option<Geometry>
    ensures { MatchOption result (IsShapeRefused (shape_in shape.now)) (IsGeometryIn shape.now) }
{
    match Geometry::new(shape.width, shape.height, shape.tile) {
        Ok(geometry) => Some(geometry),
        Err(_) => None,
    }
}

/// Whether a level has a texel at a column and a row.
pub fn is_inside(geometry: &Geometry, level: u32, x: u32, y: u32) -> bool
    ensures { MatchBool result (IsInside geometry.now level x y) (IsInside geometry.now level x y → ⊥) }
{
    if level >= geometry.levels() {
        return false;
    }
    let (width, height) = geometry.level_size(level);
    x < width && y < height
}

/// The name of a page as the geometry has it.
pub fn page_name(name: &VtexName) -> PageName
    ensures { result ≡ name_in name.now }
{
    PageName {
        level: name.level,
        col: name.column,
        row: name.row,
    }
}

/// The name of a page as C has it.
pub fn name_of(name: &PageName) -> VtexName
    ensures { name_in result ≡ name.now }
{
    VtexName {
        level: name.level,
        column: name.col,
        row: name.row,
    }
}

/// Whether a name is that of a page.
pub fn is_page(geometry: &Geometry, name: &PageName) -> bool
    ensures { MatchBool result (IsPage geometry.now name.now) (IsPage geometry.now name.now → ⊥) }
{
    if name.level >= geometry.levels() {
        return false;
    }
    let at = level_at(geometry, name.level);
    name.col < at.columns && name.row < at.rows
}
