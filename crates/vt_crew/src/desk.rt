//! The caller's end of a desk.

ghost use Rattle.std.specs.Prelude.{◌≡◌, MatchOption};
ghost use Rattle.std.specs.Arc.{arc_value};
ghost use Rattle.vt_crew.specs.DeskEnds.{HasLeftDesk, IsFreeEnd, IsIdleEnd, WaitsFor, WaitsForSome};
ghost use Rattle.vt_crew.specs.Pendings.{IsJobOf};

use crate::board::{Chair, DONE, DeskTop, HAND, NOBODY, OVER};
use crate::ends::{Desk, Hand, Pending};
use crate::plays::{Begin, Lay, Leave, Pair, Take};
use crate::work::{Work, do_job};
use atomic_table::Table;
use std::alloc::{AllocError, AllocFailed, Global};
use std::hint::spin_loop;
use std::sync::atomic::AtomicBool;
use std::sync::atomic::Ordering::SeqCst;
use std::sync::{Arc, Wait};
use std::thread::{Parker, Threads};

// How often an end looks at the word before it sleeps. That takes some microseconds, about as long as to wake a thread.
const LOOKS: u32 = 200;

/// Looks for a turn to come, and gives up after some microseconds. No clause says whether it came.
pub(crate) fn look_for<J: Work>(top: &DeskTop<J>, turn: u64) -> bool {
    for _ in 0..LOOKS {
        if top.board.shared.peek(0) == turn {
            return true;
        }
        spin_loop();
    }
    false
}

/// A desk on which nothing lies, and its other end.
pub(crate) fn new_desk<J: Work>(alloc: Global) -> Result<(Desk<J>, Hand<J>), AllocError> {
    let (board, mut chair) = Table::vacant(alloc, &[NOBODY], 1, &())?;
    let other = board.shared.split_seat::<Pair>(&mut chair);
    board.shared.load::<Begin>(&mut chair, 0);
    let made = DeskTop {
        board,
        hand_bell: Parker::new(),
        desk_bell: Parker::new(),
        is_served: AtomicBool::new(false),
    };
    match Arc::new(alloc, made) {
        Ok(top) => both_ends(top, chair, other),
        Err(refused) => {
            let AllocFailed { value } = refused;
            leave(&value, &mut chair);
            close(value, chair);
            Err(AllocError)
        }
    }
}

// The two ends of a desk, or none where the count of its owners is full.
fn both_ends<J: Work>(
    top: Arc<DeskTop<J>>,
    chair: Chair<J>,
    other: Chair<J>,
) -> Result<(Desk<J>, Hand<J>), AllocError>
    requires desk { (chair.table_id ≡ (arc_value top).board.shared.table_id) × IsFreeEnd chair.me }
    requires hand { (other.table_id ≡ (arc_value top).board.shared.table_id) × IsIdleEnd other.me }
{
    match Arc::try_clone(&top) {
        Ok(theirs) => Ok((
            Desk { top, chair },
            Hand {
                top: theirs,
                chair: other,
            },
        )),
        Err(refused) => {
            Desk { top, chair }.end();
            Err(refused)
        }
    }
}

// Ends a desk that nobody shares any more, and that one of its ends has left: nothing lies on it then.
fn close<J: Work>(top: DeskTop<J>, chair: Chair<J>)
    requires fits { chair.table_id ≡ top.board.shared.table_id }
    requires left { HasLeftDesk chair.me }
{
    let DeskTop {
        board,
        hand_bell: _,
        desk_bell: _,
        is_served: _,
    } = top;
    let mut closed = board.close_with(chair);
    match closed.take(0) {
        None => {}
        Some(_) => unreachable!(),
    }
    closed.free();
}

/// Gives up an end's part of a desk, once this end has left. The last one ends the desk.
pub(crate) fn give_up<J: Work>(top: Arc<DeskTop<J>>, chair: Chair<J>)
    requires fits { chair.table_id ≡ (arc_value top).board.shared.table_id }
    requires left { HasLeftDesk chair.me }
{
    match Arc::into_inner(top) {
        Some(top) => close(top, chair),
        None => drop(chair),
    }
}

// Takes the job back unless the hand is at it. Where the hand has not begun it, it is done here: so nobody waits for a hand that wakes late.
fn take_job<J: Work, Rt: Threads + Wait>(
    rt: &Rt,
    top: &DeskTop<J>,
    chair: &mut Chair<J>,
) -> Option<J>
    requires fits { chair.old.table_id ≡ top.now.board.shared.table_id }
    requires waits { WaitsForSome chair.old.me }
    ensures fits { chair.new.table_id ≡ chair.old.table_id }
    ensures job { MatchOption result (chair.new.me ≡ chair.old.me)
        (λ back. IsFreeEnd chair.new.me × ((job : J) → WaitsFor job chair.old.me → J.did job back)) }
{
    let board = &top.board.shared;
    let turn = board.compare_exchange::<Take>(chair, 0, HAND, NOBODY);
    if turn == HAND {
        match board.exchange(chair, 0, None) {
            Some(job) => Some(do_job(rt, job)),
            None => unreachable!(),
        }
    } else if turn == DONE {
        board.exchange(chair, 0, None)
    } else {
        None
    }
}

// Takes the job back once it was done, here or by the hand. A hand that has begun mostly ends soon, so it looks a while before it sleeps.
fn wait_for<J: Work, Rt: Threads + Wait>(rt: &Rt, top: &DeskTop<J>, chair: &mut Chair<J>) -> J
    requires fits { chair.old.table_id ≡ top.now.board.shared.table_id }
    requires waits { WaitsForSome chair.old.me }
    ensures fits { chair.new.table_id ≡ chair.old.table_id }
    ensures free { IsFreeEnd chair.new.me }
    ensures did { (job : J) → WaitsFor job chair.old.me → J.did job result }
{
    for _ in rt.forever() {
        match take_job(rt, top, chair) {
            Some(job) => return job,
            None => {
                if !look_for(top, DONE) {
                    top.desk_bell.park(rt);
                }
            }
        }
    }
    unreachable!()
}

// Lays a job down, and wakes the hand.
fn lay<J: Work>(top: &DeskTop<J>, chair: &mut Chair<J>, job: J)
    requires fits { chair.old.table_id ≡ top.now.board.shared.table_id }
    requires free { IsFreeEnd chair.old.me }
    requires ready { J.ready job }
    ensures fits { chair.new.table_id ≡ chair.old.table_id }
    ensures waits { WaitsFor job chair.new.me }
{
    let board = &top.board.shared;
    match board.exchange(chair, 0, Some(job)) {
        None => {}
        Some(_) => unreachable!(),
    }
    board.store::<Lay>(chair, 0, HAND);
    top.hand_bell.unpark();
}

// Tells the hand that no job comes any more.
fn leave<J: Work>(top: &DeskTop<J>, chair: &mut Chair<J>)
    requires fits { chair.old.table_id ≡ top.now.board.shared.table_id }
    requires free { IsFreeEnd chair.old.me }
    ensures fits { chair.new.table_id ≡ chair.old.table_id }
    ensures left { HasLeftDesk chair.new.me }
{
    top.board.shared.store::<Leave>(chair, 0, OVER);
    top.hand_bell.unpark();
}

impl<J: Work> Desk<J> {
    /// Whether its hand has begun to serve. No clause says so.
    pub(crate) fn is_served(&self) -> bool {
        self.top.is_served.load(SeqCst)
    }

    /// Lays a job down, and wakes the hand.
    pub(crate) fn ask(self, job: J) -> Pending<J>
        requires { J.ready job }
        ensures { IsJobOf job result }
    {
        let Desk { top, mut chair } = self;
        lay(&top, &mut chair, job);
        Pending { top, chair }
    }

    /// Leaves the desk, which tells the hand to end.
    pub(crate) fn end(self) {
        let Desk { top, mut chair } = self;
        leave(&top, &mut chair);
        give_up(top, chair);
    }
}

impl<J: Work> Pending<J> {
    /// Takes the job back with the desk once it was done. A job that the hand has not begun is done here.
    pub(crate) fn wait<Rt: Threads + Wait>(self, rt: &Rt) -> (J, Desk<J>)
        ensures { (job : J) → IsJobOf job self → J.did job result.0 }
    {
        let Pending { top, mut chair } = self;
        let job = wait_for(rt, &top, &mut chair);
        (job, Desk { top, chair })
    }
}
