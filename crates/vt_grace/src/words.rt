//! A new table of words.

ghost use Rattle.std.specs.Prelude.{◌≡◌, ◌*◌, ◌≤◌, IfOk};
ghost use Rattle.vt_journal.specs.Limits.{most_samplers, most_frames, most_frame_texels};
ghost use Rattle.vt_grace.specs.Sizes.{sizes_of};
ghost use Rattle.vt_grace.specs.WriterViews.{first_writer};
ghost use Rattle.vt_grace.specs.Sound.{IsSound};
ghost use Rattle.vt_grace.specs.Tokens.{IsWriterOf};

use crate::places::count_words;
use crate::sizes::sizes_for;
use crate::tokens::{Words, WriterSeat};
use atomic_table::Table;
use std::alloc::Global;
use vt_journal::{Geometry, NoMemory};

impl Words {
    /// A table of version 0, which maps nothing, whose words are all 0, and the right to write it. The frames are at most
    /// 65,535 and have at most 8,388,608 texels together; the samplers are from 1 to 64.
    pub fn new(
        alloc: Global,
        geometry: &Geometry,
        frames: u32,
        samplers: u32,
    ) -> Result<(Words, WriterSeat), NoMemory>
        requires few_frames { frames ≤ most_frames }
        requires few_texels { frames * (geometry.now.tile * geometry.now.tile) ≤ most_frame_texels }
        requires some_sampler { 1 ≤ samplers }
        requires few_samplers { samplers ≤ most_samplers }
        ensures of { IfOk result (λ made. IsWriterOf made.0 made.1) }
        ensures sizes { IfOk result (λ made. made.0.sizes ≡ sizes_of geometry.now frames samplers) }
        ensures view { IfOk result (λ made. made.1.view ≡ first_writer (sizes_of geometry.now frames samplers)) }
        ensures sound { IfOk result (λ made. IsSound made.1.view) }
    {
        let sizes = sizes_for(geometry, frames, samplers);
        let words = Vec::from_elem(alloc, 0u64, count_words(&sizes))?;
        let (table, seat) = Table::of_words(alloc, words.as_slice(), &sizes)?;
        Ok((Words { table, sizes }, WriterSeat { seat, version: 0 }))
    }
}
