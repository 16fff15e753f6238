//! Rows that are taken out of their places.

use crate::bag::RowJob;
use std::alloc::Global;
use vt_outside::Items;

/// What is in the place of a row that was taken out.
pub(crate) fn no_row(alloc: Global) -> RowJob {
    RowJob {
        row: 0,
        sampler: 0,
        version: 0,
        samples: Items::new(alloc),
    }
}
