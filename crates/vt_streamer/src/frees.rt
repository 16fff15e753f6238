//! Since when frames are free.

ghost use Rattle.std.specs.Prelude.{◌≡◌, ◌<◌, length};
ghost use Rattle.vt_table.specs.JournalKept.{change_frame};
ghost use Rattle.vt_streamer.specs.Frees.{since_after};

use vt_table::Change;

/// Notes the version that unmaps a frame.
pub(crate) fn note_unmapped(unmapped: &mut [u64], change: Change, version: u64)
    requires { change_frame change < length unmapped.old }
    ensures { unmapped.new ≡ since_after unmapped.old change version }
{
    if let Change::Unmap { page: _, frame } = change {
        unmapped[frame as usize] = version;
    }
}
