//! The rings through which the stages of a round hand rows of tiles on. No stage waits without bound.
ghost use Rattle.std.specs.Prelude.{◌≡◌, ◌<◌, length, vec_len, IfOk, IfSome, IsTrue};
ghost use Rattle.rtrb.specs.Ring.{SameConsumer, SameProducer, known_free, known_items, received, sent};
ghost use Rattle.vt_store.specs.Rings.{AreNewRings};

use rtrb::{Consumer, Producer, RingBuffer};
use std::alloc::Global;
use std::hint::spin_loop;
use std::sync::atomic::AtomicBool;
use std::sync::atomic::Ordering::SeqCst;
use std::thread::yield_now;
use vt_outside::NoMemory;

// How many rows of tiles may be on their way.
const ROOMS: usize = 3;

// How often a stage looks before it lets other threads run each time.
const SPINS: u32 = 200;

// How often it looks for a stage that has not begun, which takes some hundredths of a second. Where no thread can be made, the other one begins only
// after it.
const FEW_LOOKS: u32 = 100_000;

// How often it looks at most, which takes some tenths of a second at least: longer than a row of tiles takes, unless the machine is very busy.
const LOOKS: u32 = 1_000_000;

/// Whether a stage of a round has begun and has ended, as the other one looks it up. No contract speaks of it.
#[derive(Drop)]
pub(crate) struct Stage {
    has_begun: AtomicBool,
    has_ended: AtomicBool,
}

impl Stage {
    /// A stage that has not begun.
    pub(crate) fn new() -> Stage {
        Stage {
            has_begun: AtomicBool::new(false),
            has_ended: AtomicBool::new(false),
        }
    }

    /// Tells the other stage that this one has begun.
    pub(crate) fn begin(&self) {
        self.has_begun.store(true, SeqCst);
    }

    /// Tells the other stage that this one makes or takes nothing more.
    pub(crate) fn end(&self) {
        self.has_ended.store(true, SeqCst);
    }

    // Whether it has ended.
    fn is_over(&self) -> bool {
        self.has_ended.load(SeqCst)
    }

    // Whether it is worth looking again, after so many looks.
    fn is_awaited(&self, looks: u32) -> bool {
        !self.is_over() && (looks < FEW_LOOKS || self.has_begun.load(SeqCst))
    }
}

// Lets other threads work, after some looks with no pause to speak of. It never sleeps: what may sleep may wait without bound.
fn pause(looks: u32) {
    if looks < SPINS {
        spin_loop();
    } else {
        yield_now();
    }
}

/// Whether the ring has a row. It looks until the other stage ends, or its patience does.
pub(crate) fn has_row(ring: &mut Consumer<Vec<u8>>, other: &Stage) -> bool
    ensures ring { SameConsumer ring.old ring.new }
    ensures received { received ring.new ≡ received ring.old }
    ensures some { IsTrue result → 0 < length (known_items ring.new) }
{
    for looks in 0..LOOKS {
        if ring.slots() > 0 {
            return true;
        }
        if !other.is_awaited(looks) {
            return false;
        }
        pause(looks);
    }
    false
}

/// The stage that makes rows of tiles: where it puts them, and where rooms for them come back.
#[derive(Drop)]
pub(crate) struct Making {
    pub(crate) rows: Producer<Vec<u8>>,
    spare: Consumer<Vec<u8>>,
}

/// The stage that adds them to a name.
#[derive(Drop)]
pub(crate) struct Adding {
    pub(crate) rows: Consumer<Vec<u8>>,
    spare: Producer<Vec<u8>>,
}

impl Making {
    /// The next room, of so many bytes, and then there is a place for it among the rows. None where the other stage has ended, or patience.
    pub(crate) fn next_room(&mut self, length: usize, adding: &Stage) -> Option<Vec<u8>>
        ensures ring { SameProducer self.old.rows self.new.rows }
        ensures sent { sent self.new.rows ≡ sent self.old.rows }
        ensures room { IfSome result (λ room. vec_len room ≡ length) }
        ensures place { IfSome result (λ _. 0 < known_free self.new.rows) }
    {
        // There is a place wherever a room is, and each room has the length: to look takes less than to prove it.
        if adding.is_over() || !has_row(&mut self.spare, adding) || self.rows.slots() == 0 {
            return None;
        }
        let room = self.spare.pop_known();
        if room.len() == length {
            Some(room)
        } else {
            None
        }
    }
}

impl Adding {
    /// Gives a room back.
    pub(crate) fn give_back(&mut self, room: Vec<u8>)
        ensures { self.new.rows ≡ self.old.rows }
    {
        if self.spare.slots() > 0 {
            self.spare.push_reserved(room);
        }
    }
}

// Rings with rooms for rows of tiles of so many bytes, of which none was made.
fn make_rings(alloc: Global, length: usize) -> Result<(Making, Adding), NoMemory>
    ensures { IfOk result (λ ends. AreNewRings ends.0.rows ends.1.rows) }
{
    let (made, rows) = RingBuffer::new(alloc, ROOMS)?;
    let (back, spare) = RingBuffer::new(alloc, ROOMS)?;
    let making = Making { rows: made, spare };
    let mut adding = Adding { rows, spare: back };
    for _ in 0..ROOMS {
        adding.give_back(vec![in alloc; 0; length]?);
    }
    Ok((making, adding))
}

/// Such rings where so many threads are enough for a round, three at least.
pub(crate) fn rings_for(
    alloc: Global,
    length: usize,
    threads: usize,
) -> Result<Option<(Making, Adding)>, NoMemory>
    ensures { IfOk result (λ rings. IfSome rings (λ ends. AreNewRings ends.0.rows ends.1.rows)) }
{
    if threads < 3 {
        return Ok(None);
    }
    Ok(Some(make_rings(alloc, length)?))
}
