//! A page table as what a batch is streamed into, which takes the tiles of one depth.

use std::sync::Wait;
use vt_outside::Gate;
use vt_page_table::{PageTable, Planned};
use vt_streaming::Target;

/// A page table with the tiles that it takes.
#[derive(Drop)]
pub(crate) struct TableTiles<'a, T: PageTable> {
    /// What is shared of the table.
    pub table: &'a T::Shared,
    /// How many bytes a sample has.
    pub depth: u32,
    /// How many bytes a tile has.
    pub size: usize,
}

impl<'a, T: PageTable> Target for TableTiles<'a, T> {
    ghost use Rattle.std.specs.Prelude.{ℕ, nat_eq};
    ghost use Rattle.vt_page_table.specs.Format.{tile_length};
    ghost use Rattle.vt_pass_pool.specs.Streamed.{IsBroughtAs, TakesTiles};

    type Writer = T::Writer;

    ghost is_of = { λ tiles w. TakesTiles T.PageTable tiles.table.now tiles.depth tiles.size w };

    ghost shape = { λ w. T.shape w };

    ghost frame_count = { λ w. T.frame_count w };

    ghost journal = { λ w. T.journal w };

    ghost has_room = { λ w n. T.has_room w n };

    ghost is_tile = { λ tiles s n. nat_eq n (tile_length s tiles.depth) };

    ghost has_put = { λ tiles e tile v w. IsBroughtAs T.PageTable tiles.depth e tile v w };

    ghost lasts = { λ v w. (k : ℕ) (r : T.Reader) → T.is_home v k r → T.is_home w k r };

    ghost refuses = { T.refuses };

    fn takes(&self, _writer: &T::Writer, length: usize) -> bool {
        length == self.size
    }

    fn put<R: Wait, G: Gate>(
        &self,
        rt: &R,
        writer: &mut T::Writer,
        planned: &Planned,
        tile: &[u8],
        gate: &G,
    ) -> bool {
        match T::bring::<R, G>(rt, self.table, writer, planned, tile, self.depth, gate) {
            Ok(()) => true,
            Err(_) => false,
        }
    }

    ghost room_less = { T.room_less };

    ghost lasts_none = { λ w k r home. home };

    ghost lasts_twice = { λ u v w one two k r home. two k r (one k r home) };
}
