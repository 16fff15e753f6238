//! Readers of the swapped table.

ghost use Rattle.std.specs.Prelude.{◌≡◌, ◌≤◌, ℕ, [], All, IfOk, length};
ghost use Rattle.vt_swap.specs.Caches.{Cache};
ghost use Rattle.vt_swap_table.specs.SwapReaders.{HasSeen, IsReaderFor};

use crate::table::SwapReader;
use std::alloc::Global;
use std::sync::Wait;
use std::thread;
use vt_outside::{Items, NoMemory};
use vt_swap::TableReader;

/// Lets a reader enter until the version that it entered is not before this one. So it waits until that one is published.
pub(crate) fn see<R: Wait>(rt: &R, reader: TableReader, start: u64) -> TableReader
    ensures { HasSeen start reader result }
{
    let mut reader = reader;
    for _ in rt.forever() {
        let (next, version, _entry) = reader.entry(rt, 0);
        reader = next;
        if version >= start {
            return reader;
        }
        thread::yield_now();
    }
    unreachable!()
}

/// So many lists of counts, each for so many pages.
pub(crate) fn new_spares(alloc: Global, pages: u32, count: u32) -> Result<Items<Vec<u32>>, NoMemory>
    ensures number { IfOk result (λ made. length made.elements ≡ count) }
    ensures pages { IfOk result (λ made. All (λ spare. length spare.items ≡ pages) made.elements) }
{
    let mut spares = Items::new(alloc);
    spares.reserve(u64::from(count))?;
    for _ in 0..count {
        spares.push(Vec::from_elem(alloc, 0, pages as usize)?);
    }
    Ok(spares)
}

/// Makes `count` readers, each with a list of counts.
pub(crate) fn join_readers(
    made: &mut Items<TableReader>,
    spares: &mut Items<Vec<u32>>,
    readers: &mut Items<SwapReader>,
    count: u32,
)
    requires made { length made.old.elements ≡ count }
    requires spares { length spares.old.elements ≡ count }
    requires none { readers.old.elements ≡ [] }
    requires room { count ≤ readers.old.spare }
    ensures number { length readers.new.elements ≡ count }
    ensures each { (cache : Cache) (pages : ℕ) → All (λ r. r.cache ≡ cache) made.old.elements
        → All (λ spare. length spare.items ≡ pages) spares.old.elements
        → All (IsReaderFor cache pages) readers.new.elements }
{
    for _ in 0..count {
        let Some(reader) = made.pop() else {
            unreachable!()
        };
        let Some(spare) = spares.pop() else {
            unreachable!()
        };
        readers.push(SwapReader {
            reader: Some(reader),
            spare,
            start: 0,
        });
    }
}
