//! Gates at which the workers of a walk meet.

use std::sync::atomic::{AtomicU64, Ordering};
use std::thread;
use vt_outside::{Gate, Point};

// How often a worker looks whether a point was reached, before it goes on all the same.
const TURNS: u32 = 50_000_000;

/// Who waits for whom.
#[derive(Clone, Copy)]
pub enum Meeting {
    /// Nobody waits.
    Nobody,
    /// The read of ticket 0 waits until that of ticket 1 was reached.
    Reads,
    /// The read of this number of the walk, from 0, waits until the row of this number was reached, and that row until this version was
    /// published.
    RowAndStream { read: u64, row: u64, version: u64 },
    /// The first row that is reached waits until so many rows were, which are two or more.
    FirstRow { rows: u64 },
}

/// A gate for a meeting, which notes what was reached.
#[derive(Drop)]
pub struct Meetings {
    meeting: Meeting,
    // How many reads and rows were reached.
    reads: AtomicU64,
    rows: AtomicU64,
    // Whether the points that are waited for were reached, the first and the second: 0 or 1.
    first: AtomicU64,
    second: AtomicU64,
    // Whether somebody waited in vain: 0 or 1.
    late: AtomicU64,
}

// Notes what was reached.
fn reach(flag: &AtomicU64) {
    flag.store(1, Ordering::SeqCst);
}

// Whether it was reached.
fn was_reached(flag: &AtomicU64) -> bool {
    flag.load(Ordering::SeqCst) == 1
}

impl Meetings {
    /// A gate at which nothing was reached.
    pub fn new(meeting: Meeting) -> Meetings {
        Meetings {
            meeting,
            reads: AtomicU64::new(0),
            rows: AtomicU64::new(0),
            first: AtomicU64::new(0),
            second: AtomicU64::new(0),
            late: AtomicU64::new(0),
        }
    }

    // Waits until a point was reached.
    fn wait_for(&self, flag: &AtomicU64) {
        for _ in 0..TURNS {
            if was_reached(flag) {
                return;
            }
            thread::yield_now();
        }
        reach(&self.late);
    }

    // A read by this ticket, where reads meet.
    fn read_meets(&self, ticket: u32) {
        match ticket {
            0 => self.wait_for(&self.first),
            1 => reach(&self.first),
            _ => {}
        }
    }

    // A row, where the first waits for later ones.
    fn row_meets(&self, count: u64) {
        let before = self.rows.fetch_add(1, Ordering::SeqCst);
        if before.wrapping_add(1) == count {
            reach(&self.first);
        }
        if before == 0 {
            self.wait_for(&self.first);
        }
    }

    // A point, where a row and what is streamed meet.
    fn meets(&self, point: Point, read: u64, row: u64, version: u64) {
        match point {
            Point::Read {
                loader: _,
                ticket: _,
            } => {
                if self.reads.fetch_add(1, Ordering::SeqCst) == read {
                    self.wait_for(&self.first);
                }
            }
            Point::Row { sampler: _, row: _ } => {
                if self.rows.fetch_add(1, Ordering::SeqCst) == row {
                    reach(&self.first);
                    self.wait_for(&self.second);
                }
            }
            Point::Published { version: published } => {
                if published == version {
                    reach(&self.second);
                }
            }
        }
    }

    /// Whether all that was waited for was reached in time.
    pub fn came(&self) -> bool {
        let reached = match self.meeting {
            Meeting::Nobody => true,
            Meeting::Reads | Meeting::FirstRow { rows: _ } => was_reached(&self.first),
            Meeting::RowAndStream {
                read: _,
                row: _,
                version: _,
            } => was_reached(&self.first) && was_reached(&self.second),
        };
        reached && !was_reached(&self.late)
    }
}

impl Gate for Meetings {
    fn at(&self, point: Point) {
        match self.meeting {
            Meeting::Nobody => {}
            Meeting::Reads => {
                if let Point::Read { loader: _, ticket } = point {
                    self.read_meets(ticket);
                }
            }
            Meeting::RowAndStream { read, row, version } => self.meets(point, read, row, version),
            Meeting::FirstRow { rows } => {
                if let Point::Row { sampler: _, row: _ } = point {
                    self.row_meets(rows);
                }
            }
        }
    }
}
