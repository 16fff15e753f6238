//! Any sampler draws any row: it takes the next one from a bag when it has drawn the last.

ghost use Rattle.std.specs.Prelude.{◌≡◌, ℕ, ◌<◌, [], ◌∷◌, ◌++◌, List, length, MatchBool, OnOk, IfSome, IfNone};
ghost use Rattle.vt_queue.specs.PassViews.{first_view, pass_view, all_shares};
ghost use Rattle.vt_queue.specs.Orders.{placed};
ghost use Rattle.vt_schedules.specs.Bags.{view_of, IsPassOfBag};
ghost use Rattle.vt_schedules.specs.SharedRows.{FitsRow};
ghost use Rattle.vt_queue.specs.declared.views.PassView.{PassView as View};
ghost use Rattle.vt_schedules.specs.declared.bag.RowJob.{RowJob as Job};
ghost use Rattle.vt_schedules.specs.Sharing.{TookRows, EndedRows};

use crate::bag::{BagPass, RowBag, RowJob};
use crate::jobs::no_row;
use crate::schedule::Schedule;
use std::alloc::Global;
use std::mem;
use std::sync::Wait;
use vt_outside::NoMemory;

/// The schedule by which each sampler takes the next row from a bag.
pub struct Shared;

/// A sampler's pass of the bag, while a pass is run.
#[derive(Drop)]
pub struct BagWay {
    pub(crate) pass: Option<BagPass>,
}

/// The pass of the bag that is left at home.
#[derive(Drop)]
pub struct BagHome {
    pub(crate) pass: BagPass,
}

// Puts a row into a bag.
fn put_row<Rt: Wait>(rt: &Rt, bag: &RowBag, rows: &mut BagPass, job: RowJob) -> Result<(), NoMemory>
    requires of { IsPassOfBag bag.now rows.old }
    requires whole { (view_of rows.old).shares ≡ all_shares }
    ensures of { IsPassOfBag bag.now rows.new }
    ensures put { OnOk result (view_of rows.new ≡ pass_view all_shares (view_of rows.old).known
        ((view_of rows.old).put ++ (length (view_of rows.old).put, job) ∷ []) (view_of rows.old).took) }
{
    match bag.put(rt, rows, job) {
        Ok(()) => Ok(()),
        Err(_) => Err(NoMemory),
    }
}

// Puts rows into a new bag, in their order.
fn put_rows<Rt: Wait>(
    rt: &Rt,
    alloc: Global,
    bag: &RowBag,
    rows: &mut BagPass,
    drawn: &mut [RowJob],
) -> Result<(), NoMemory>
    requires of { IsPassOfBag bag.now rows.old }
    requires new { view_of rows.old ≡ first_view }
    ensures of { IsPassOfBag bag.now rows.new }
    ensures put { OnOk result (view_of rows.new ≡ pass_view all_shares [] (placed 0 drawn.old) []) }
    ensures number { length drawn.new ≡ length drawn.old }
{
    for y in 0..drawn.len() {
        let job = mem::replace(&mut drawn[y], no_row(alloc));
        put_row(rt, bag, rows, job)?;
    }
    Ok(())
}

// Whether it is a row of a picture of so many, with as many bytes as a row has.
fn fits(job: &RowJob, height: u32, line: usize) -> bool
    ensures { MatchBool result (FitsRow height line job.now) (FitsRow height line job.now → ⊥) }
{
    job.row < height && job.samples.len() == line
}

// Takes the next row of a picture, or tells that there was none. A sampler cannot know, while it draws, what was put: so it ends where what
// it took is no row of the picture.
fn take_row<R: Wait>(
    rt: &R,
    rows: &RowBag,
    own: &mut BagPass,
    height: u32,
    line: usize,
) -> Option<RowJob>
    requires of { IsPassOfBag rows.now own.old }
    ensures of { IsPassOfBag rows.now own.new }
    ensures fits { IfSome result (FitsRow height line) }
    ensures some { IfSome result (λ job. (first : View Job) (taken : List ℕ) → TookRows height line first (view_of own.old) taken
        → TookRows height line first (view_of own.new) (taken ++ job.row ∷ [])) }
    ensures none { IfNone result ((first : View Job) (taken : List ℕ) → TookRows height line first (view_of own.old) taken
        → TookRows height line first (view_of own.new) taken × EndedRows height line first (view_of own.new) taken) }
{
    match rows.take(rt, own) {
        Some(job) => {
            if fits(&job, height, line) {
                Some(job)
            } else {
                None
            }
        }
        None => None,
    }
}

impl Schedule for Shared {
    ghost use Rattle.std.specs.Prelude.{false};
    ghost use Rattle.vt_schedules.specs.Bags.{IsPassOfBag};
    ghost use Rattle.vt_schedules.specs.Sharing.{HasBagPass, TookWay, EndedWay, AreSplit, AreBack};
    ghost use Rattle.vt_schedules.specs.SharingLaws.{none_back, took_way_none, all_taken_way};

    const DEALT: bool = false;

    ghost DEALT = { false };

    type Shared = RowBag;

    type Own = BagWay;

    type Home = BagHome;

    ghost is_of = { λ bag height line own. HasBagPass bag own.pass };

    ghost is_home = { λ bag home. IsPassOfBag bag home.pass };

    ghost took = { λ height line first own rows. TookWay height line first.pass own.pass rows };

    ghost ended = { λ height line first own rows. EndedWay height line first.pass own.pass rows };

    ghost has_dealt = { λ bag height line samplers owns home. AreSplit height line owns home.pass };

    ghost has_gathered = { λ bag height line samplers firsts owns home. AreBack height line firsts owns home.pass };

    fn make(alloc: Global) -> Result<(RowBag, BagHome), NoMemory> {
        let (rows, pass) = RowBag::new(alloc)?;
        Ok((rows, BagHome { pass }))
    }

    fn no_way(_alloc: Global) -> BagWay {
        BagWay { pass: None }
    }

    fn begin<R: Wait>(
        rt: &R,
        alloc: Global,
        shared: &mut RowBag,
        home: &mut BagHome,
        jobs: &mut [RowJob],
    ) -> Result<(), NoMemory> {
        let (rows, pass) = RowBag::new(alloc)?;
        *shared = rows;
        home.pass = pass;
        put_rows(rt, alloc, shared, &mut home.pass, jobs)
    }

    fn deal(
        alloc: Global,
        shared: &RowBag,
        home: &mut BagHome,
        _samplers: u32,
        _number: u32,
    ) -> Result<BagWay, NoMemory> {
        let pass = shared.split(alloc, &mut home.pass)?;
        Ok(BagWay { pass: Some(pass) })
    }

    fn next<R: Wait>(
        rt: &R,
        shared: &RowBag,
        own: &mut BagWay,
        height: u32,
        line: usize,
    ) -> Option<RowJob> {
        match &mut own.pass {
            Some(pass) => take_row(rt, shared, pass, height, line),
            None => unreachable!(),
        }
    }

    fn gather(shared: &RowBag, home: &mut BagHome, own: &mut BagWay) {
        let pass = mem::replace(&mut own.pass, None);
        match pass {
            Some(pass) => shared.join(&mut home.pass, pass),
            None => unreachable!(),
        }
    }

    fn finish<R: Wait>(rt: &R, shared: &RowBag, home: &mut BagHome) {
        shared.wait_empty(rt, &mut home.pass);
    }

    ghost none_gathered = { λ bag height line samplers firsts home dealt. none_back height line firsts home.pass dealt };

    ghost took_none = { λ bag height line own of. took_way_none bag height line own.pass of };

    ghost all_taken = { λ height line first own rows took all. all_taken_way height line first.pass own.pass rows took all };
}
