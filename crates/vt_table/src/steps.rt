//! The steps of a table, on what it keeps.

ghost use Rattle.std.specs.Prelude.{◌≡◌, ◌≢◌, ℕ, ◌+◌, ◌<◌, ◌≤◌, length, slice_range};
ghost use Rattle.vt_journal.specs.Limits.{most_frames};
ghost use Rattle.vt_journal.specs.Changes.{changed};
ghost use Rattle.vt_journal.specs.Lookups.{change_page};
ghost use Rattle.vt_journal.specs.Kept.{entries_of, change_frame};
ghost use Rattle.vt_table.specs.Views.{filled_after};

use vt_journal::Change;

/// Writes a tile at a place of the frames' bytes.
pub(crate) fn put_tile(bytes: &mut [u8], at: usize, tile: &[u8])
    requires { at + length tile.now ≤ length bytes.old }
    ensures written { slice_range bytes.new at (at + length tile.now) ≡ tile.now }
    ensures before { (i j : ℕ) → i ≤ j → j ≤ at → slice_range bytes.new i j ≡ slice_range bytes.old i j }
    ensures behind { (i j : ℕ) → at + length tile.now ≤ i → slice_range bytes.new i j ≡ slice_range bytes.old i j }
{
    bytes[at..at + tile.len()].copy_from_slice(tile);
}

/// The depth of a tile of so many bytes, of which the room of a frame has two for each sample.
pub fn depth_in(length: usize, room: usize) -> u8
    ensures wide { length ≡ room → result ≡ 2 }
    ensures narrow { length ≢ room → result ≡ 1 }
{
    if length == room { 2 } else { 1 }
}

/// Gives the page of a change the number of its new entry.
pub fn put_entry(entries: &mut [u32], change: Change)
    requires page { change_page change < length entries.old }
    requires frame { change_frame change ≤ most_frames }
    ensures { entries_of entries.new ≡ changed (entries_of entries.old) change }
{
    match change {
        Change::Map { page, frame } => entries[page as usize] = frame + 1,
        Change::Unmap { page, frame: _ } => entries[page as usize] = 0,
    }
}

/// Takes its page from a frame that a change unmaps.
pub fn free_owner(owners: &mut [u32], change: Change)
    requires { change_frame change < length owners.old }
    ensures { entries_of owners.new ≡ filled_after (entries_of owners.old) change }
{
    if let Change::Unmap { page: _, frame } = change {
        owners[frame as usize] = 0;
    }
}
