//! What is to come of a pass.

use vt_feedback::{Wanted, Wants};
use vt_journal::{Event, RowLine};
use vt_machine::PassReport;
use vt_outside::NoMemory;

/// What is to come of a pass over one row, whose version is one from the least on.
pub struct Expected<'a> {
    pub events: &'a [Event],
    /// Of which entries of the batch the tile is lost.
    pub losses: &'a [bool],
    pub least: u64,
    /// What the picture holds, by the version of its row from the least on.
    pub shown: &'a [&'a [u8]],
    /// The pages that the picture wants.
    pub wanted: &'a [Wanted],
}

// What the picture is to hold whose one row was drawn so.
fn shown_by<'a>(expected: &Expected<'a>, rows: &[RowLine]) -> Option<&'a [u8]> {
    if rows.len() != 1 || rows[0].row != 0 || rows[0].sampler != 0 {
        return None;
    }
    let above = rows[0].version.wrapping_sub(expected.least);
    expected.shown.get(above as usize).copied()
}

// Whether a picture was made, and is that of its row's version.
fn is_shown(expected: &Expected<'_>, rows: &[RowLine], picture: Result<Vec<u8>, NoMemory>) -> bool {
    match picture {
        Ok(picture) => shown_by(expected, rows) == Some(picture.as_slice()),
        Err(_) => false,
    }
}

// Whether these pages are wanted.
fn are_wanted(expected: &Expected<'_>, wanted: Result<Wants, NoMemory>) -> bool {
    match wanted {
        Ok(wanted) => wanted.slice() == expected.wanted,
        Err(_) => false,
    }
}

impl Expected<'_> {
    /// Whether all came: what a pass told, its picture, and the pages that this wants.
    pub fn came(
        &self,
        report: &PassReport,
        picture: Result<Vec<u8>, NoMemory>,
        wanted: Result<Wants, NoMemory>,
    ) -> bool {
        let shown = is_shown(self, report.rows.slice(), picture);
        let asked_for = are_wanted(self, wanted);
        shown
            && asked_for
            && report.events.slice() == self.events
            && report.losses.slice() == self.losses
    }
}
