//! How large a table of words is.

ghost use Rattle.std.specs.Prelude.{◌≡◌, ◌*◌, ◌≤◌};
ghost use Rattle.vt_journal.specs.Limits.{most_samplers, most_frames, most_frame_texels};
ghost use Rattle.vt_grace.specs.Sizes.{AreWithinLimits, sizes_of};

use vt_journal::Geometry;

/// The sizes of a table of words.
#[derive(Clone, Copy)]
pub struct Sizes {
    /// How many samplers may hold versions.
    pub samplers: u32,
    /// How many pages have entries.
    pub pages: u32,
    /// How many frames there are.
    pub frames: u32,
    /// How many texels a frame has.
    pub texels: u32,
    /// The page that is never unmapped.
    pub root: u32,
}

/// The sizes of a table for the pages of a geometry, with so many frames and samplers.
pub(crate) fn sizes_for(geometry: &Geometry, frames: u32, samplers: u32) -> Sizes
    requires few_frames { frames ≤ most_frames }
    requires few_texels { frames * (geometry.now.tile * geometry.now.tile) ≤ most_frame_texels }
    requires some_sampler { 1 ≤ samplers }
    requires few_samplers { samplers ≤ most_samplers }
    ensures sizes { result ≡ sizes_of geometry.now frames samplers }
    ensures limits { AreWithinLimits result }
{
    let tile = geometry.tile();
    let pages = geometry.page_count();
    Sizes {
        samplers,
        pages,
        frames,
        texels: tile * tile,
        root: pages - 1,
    }
}
