//! The samplers and the rows of a machine are made.

ghost use Rattle.std.specs.Prelude.{◌≡◌, ℕ, ◌≤◌, List, length, reverse, IfOk};
ghost use Rattle.vt_definitions.specs.Depths.{IsDepth};
ghost use Rattle.vt_pass_rows.specs.Samplers.{row_length};
ghost use Rattle.vt_pass_rows.specs.Paths.{ArePictureSides};
ghost use Rattle.vt_pass_rows.specs.Readers.{AreHome};
ghost use Rattle.vt_pass_rows.specs.SchedulesRows.{AreRowsInPlace};
ghost use Rattle.vt_pass_pool.specs.Pools.{IsSampler, AreSamplers, AreAtHome};

use std::alloc::Global;
use vt_definitions::texel_length;
use vt_journal::Geometry;
use vt_outside::{Items, NoMemory};
use vt_pass_rows::{PageTable, PassSampler, RowJob, Schedule};

// A list in the other order.
fn turned<I: Drop>(alloc: Global, list: Items<I>) -> Result<Items<I>, NoMemory>
    ensures { IfOk result (λ made. made.elements ≡ reverse list.elements) }
{
    let mut list = list;
    let mut made = Items::new(alloc);
    made.reserve(list.len() as u64)?;
    while let Some(item) = list.pop() {
        made.push(item);
    }
    Ok(made)
}

// The sampler of this number with this reader, for a texture that is cut into pages. It keeps nothing, and has no room for rows yet.
fn new_sampler<T: PageTable, S: Schedule>(
    alloc: Global,
    geometry: &Geometry,
    number: u32,
    reader: T::Reader,
) -> Result<PassSampler<T, S>, NoMemory>
    ensures sampler { IfOk result (IsSampler geometry.now number) }
    ensures reader { IfOk result (λ made. made.reader ≡ reader) }
{
    let counts = Vec::from_elem(alloc, 0, geometry.page_count() as usize)?;
    Ok(PassSampler {
        number,
        reader,
        own: S::no_way(alloc),
        kept: Items::new(alloc),
        counts,
    })
}

/// So many samplers, each at the place of its number and with the reader at that place.
pub(crate) fn new_samplers<T: PageTable, S: Schedule>(
    alloc: Global,
    geometry: &Geometry,
    count: u32,
    readers: Items<T::Reader>,
) -> Result<Items<PassSampler<T, S>>, NoMemory>
    requires { length readers.elements ≡ count }
    ensures samplers { IfOk result (λ made. AreSamplers geometry.now count made.elements) }
    ensures home { IfOk result (λ made. (w : T.Writer) → AreHome (T.is_home w) count readers.elements
        → AreAtHome T.PageTable w made.elements) }
{
    let mut left = turned(alloc, readers)?;
    let mut samplers = Items::new(alloc);
    samplers.reserve(u64::from(count))?;
    for number in 0..count {
        match left.pop() {
            Some(reader) => {
                let sampler = new_sampler::<T, S>(alloc, geometry, number, reader)?;
                samplers.push(sampler);
            }
            None => unreachable!(),
        }
    }
    Ok(samplers)
}

// The rows of a picture of so many, from the top, each with a buffer of as many bytes as this one.
fn new_rows(alloc: Global, height: u32, line: &[u8]) -> Result<Items<RowJob>, NoMemory>
    ensures { IfOk result (λ made. AreRowsInPlace height (length line.now) made.elements) }
{
    let mut rows = Items::new(alloc);
    rows.reserve(u64::from(height))?;
    for row in 0..height {
        let samples = Items::from_slice(alloc, line)?;
        rows.push(RowJob {
            row,
            sampler: 0,
            version: 0,
            samples,
        });
    }
    Ok(rows)
}

/// The rows of pictures of these sides, with buffers of zeros.
pub(crate) fn blank_rows(
    alloc: Global,
    width: u32,
    height: u32,
    depth: u32,
) -> Result<Items<RowJob>, NoMemory>
    requires depth { IsDepth depth }
    requires sides { ArePictureSides width height }
    ensures { IfOk result (λ made. AreRowsInPlace height (row_length depth width) made.elements) }
{
    let line = texel_length(depth) * width as usize;
    let blank = Vec::from_elem(alloc, 0, line)?;
    new_rows(alloc, height, blank.as_slice())
}
