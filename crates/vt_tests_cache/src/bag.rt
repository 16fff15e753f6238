//! A bag of rows.

ghost use Rattle.vt_schedules.specs.Bags.{IsPassOfBag};

use std::alloc::Global;
use std::sync::Wait;
use vt_outside::{Bytes, NoMemory};
use vt_schedules::{BagPass, RowBag, RowJob};

// A row of a picture that is not drawn.
fn row(alloc: Global, number: u32) -> RowJob {
    RowJob {
        row: number,
        sampler: 0,
        version: 0,
        samples: Bytes::new(alloc),
    }
}

// The number of the row that is taken.
fn taken<Rt: Wait>(rt: &Rt, bag: &RowBag, pass: &mut BagPass) -> Option<u32>
    requires { IsPassOfBag bag.now pass.old }
    ensures { IsPassOfBag bag.now pass.new }
{
    match bag.take(rt, pass) {
        Some(job) => Some(job.row),
        None => None,
    }
}

// Whether two rows are taken by two passes in the order in which they were put, and none then.
fn goes_in_order<Rt: Wait>(rt: &Rt, alloc: Global) -> Result<bool, NoMemory> {
    let (bag, mut pass) = RowBag::new(alloc)?;
    if bag.put(rt, &mut pass, row(alloc, 0)).is_err() {
        return Err(NoMemory);
    }
    if bag.put(rt, &mut pass, row(alloc, 1)).is_err() {
        return Err(NoMemory);
    }
    let mut other = bag.split(alloc, &mut pass)?;
    let first = taken(rt, &bag, &mut other);
    let second = taken(rt, &bag, &mut pass);
    let third = taken(rt, &bag, &mut other);
    bag.join(&mut pass, other);
    bag.wait_empty(rt, &mut pass);
    Ok(first == Some(0) && second == Some(1) && third.is_none())
}

#[test]
fn rows_are_taken_in_the_order_in_which_they_were_put(rt: HostRuntime) {
    assert_eq!(&rt; goes_in_order(&rt, rt.alloc()).ok(), Some(true));
}
