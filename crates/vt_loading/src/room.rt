//! Room that a pass needs, so that it takes no memory while it runs.

ghost use Rattle.std.specs.Prelude.{◌≡◌, ◌≤◌, [], All, IfOk, OnOk};
ghost use Rattle.vt_loading.specs.SameStores.{AreSameStores};

use std::alloc::Global;
use vt_outside::{File, Items, NoMemory};
use vt_tiles::Store;

/// An empty list with room for so many elements.
pub(crate) fn with_room<I>(alloc: Global, n: u64) -> Result<Items<I>, NoMemory>
where
    I: Drop,
    ensures empty { IfOk result (λ list. list.elements ≡ []) }
    ensures room { IfOk result (λ list. n ≤ list.spare) }
{
    let mut list = Items::new(alloc);
    list.reserve(n)?;
    Ok(list)
}

/// Makes room in each store to note so many more reads.
pub(crate) fn reserve_reads<F: File>(stores: &mut [Store<F>], reads: u64) -> Result<(), NoMemory>
    ensures same { AreSameStores F.File stores.old stores.new }
    ensures room { OnOk result (All (λ store. reads ≤ F.spare store.file) stores.new) }
{
    for i in 0..stores.len() {
        stores[i].reserve(reads)?;
    }
    Ok(())
}
