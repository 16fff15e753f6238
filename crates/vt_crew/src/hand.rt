//! The hand's end of a desk.

ghost use Rattle.std.specs.Prelude.{◌≡◌};
ghost use Rattle.std.specs.Thread.{IsSend, IsSync};
ghost use Rattle.vt_crew.specs.DeskEnds.{HasJob, HasLeftDesk, IsIdleEnd};
ghost use Rattle.vt_crew.specs.Finds.{HasFound};

use crate::board::{BEGUN, Chair, DONE, DeskTop, HAND, OVER};
use crate::desk::{give_up, look_for};
use crate::ends::Hand;
use crate::plays::{Look, Tell};
use crate::work::{Work, do_job};
use std::mem;
use std::sync::Wait;
use std::sync::atomic::Ordering::SeqCst;
use std::thread::{Threads, join_mut};

// What a hand finds on its desk.
enum Found<J> {
    // A job.
    Job(J),
    // Nothing yet.
    Nothing,
    // That the caller has left.
    Over,
}

// Looks for a job, and begins it, so that its caller no longer takes it back undone.
fn find_job<J: Work>(top: &DeskTop<J>, chair: &mut Chair<J>) -> Found<J>
    requires fits { chair.old.table_id ≡ top.now.board.shared.table_id }
    requires idle { IsIdleEnd chair.old.me }
    ensures fits { chair.new.table_id ≡ chair.old.table_id }
    ensures found { HasFound J.ready result chair.new.me }
{
    look_for(top, HAND);
    let board = &top.board.shared;
    let turn = board.compare_exchange::<Look>(chair, 0, HAND, BEGUN);
    if turn == HAND {
        match board.exchange(chair, 0, None) {
            Some(job) => Found::Job(job),
            None => unreachable!(),
        }
    } else if turn == OVER {
        Found::Over
    } else {
        Found::Nothing
    }
}

// Does a job, and lays it back.
fn finish<J: Work, Rt: Threads + Wait>(rt: &Rt, top: &DeskTop<J>, chair: &mut Chair<J>, job: J)
    requires fits { chair.old.table_id ≡ top.now.board.shared.table_id }
    requires has { HasJob job chair.old.me }
    requires ready { J.ready job }
    ensures fits { chair.new.table_id ≡ chair.old.table_id }
    ensures idle { IsIdleEnd chair.new.me }
{
    let board = &top.board.shared;
    let done = do_job(rt, job);
    match board.exchange(chair, 0, Some(done)) {
        None => {}
        Some(_) => unreachable!(),
    }
    board.store::<Tell>(chair, 0, DONE);
    top.desk_bell.unpark();
}

// Does the jobs that are laid on a desk, until the caller has left.
fn do_jobs<J: Work, Rt: Threads + Wait>(rt: &Rt, top: &DeskTop<J>, chair: &mut Chair<J>)
    requires fits { chair.old.table_id ≡ top.now.board.shared.table_id }
    requires idle { IsIdleEnd chair.old.me }
    ensures fits { chair.new.table_id ≡ chair.old.table_id }
    ensures left { HasLeftDesk chair.new.me }
{
    for _ in rt.forever() {
        match find_job(top, chair) {
            Found::Job(job) => finish(rt, top, chair, job),
            Found::Nothing => top.hand_bell.park(rt),
            Found::Over => return,
        }
    }
    unreachable!()
}

impl<J: Work> Hand<J> {
    /// Does the jobs that are laid on its desk, until the desk has ended.
    pub(crate) fn serve<Rt: Threads + Wait>(self, rt: &Rt) {
        let Hand { top, mut chair } = self;
        top.is_served.store(true, SeqCst);
        do_jobs(rt, &top, &mut chair);
        give_up(top, chair);
    }
}

/// Lets all hands of a list serve, each in a thread, until their desks have ended. Where no thread can be made they serve one after the other.
pub(crate) fn serve_all<Rt: Threads + Wait + Sync, J: Work + Send>(
    rt: &Rt,
    hands: &mut [Option<Hand<J>>],
) {
    if hands.is_empty() {
        return;
    }
    if hands.len() == 1 {
        if let Some(hand) = mem::replace(&mut hands[0], None) {
            hand.serve(rt);
        }
        return;
    }
    let (low, high) = hands.split_at_mut(hands.len() / 2);
    join_mut(
        rt,
        &mut || -> ()
            requires { IsSync Rt.row × IsSend J.row }
        { serve_all(rt, low) },
        &mut || -> ()
            requires { IsSync Rt.row × IsSend J.row }
        { serve_all(rt, high) },
    );
}

/// Ends a list of hands whose desks have ended.
pub(crate) fn end_hands<Rt: Threads + Wait, J: Work>(rt: &Rt, mut hands: Vec<Option<Hand<J>>>) {
    while let Some(place) = hands.pop() {
        if let Some(hand) = place {
            hand.serve(rt);
        }
    }
    hands.destroy_empty();
}
