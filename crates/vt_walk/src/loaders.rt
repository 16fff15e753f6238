//! Opening the store for each loader, and closing.

ghost use Rattle.std.specs.Prelude.{◌≡◌, ◌≤◌, [], length, sum, All, IfOk, OnOk, IsErrOf};
ghost use Rattle.vt_ppm.specs.Depths.{IsDepth};
ghost use Rattle.vt_outside.specs.Counts.{Rose, RoseBy};
ghost use Rattle.vt_outside.specs.Files.{bytes_at, IsThere};
ghost use Rattle.vt_tiles.specs.StoreViews.{IsStoreIfKnown};
ghost use Rattle.vt_walk_decisions.specs.Requests.{counts_of};
ghost use Rattle.vt_walk_decisions.specs.Machines.{files_of};
ghost use Rattle.vt_walk.specs.Closing.{with_closed, AreFresh};
ghost use Rattle.vt_walk.specs.Opening.{IsFresh, KeepsFolder};

use std::alloc::Global;
use vt_outside::{Folder, OutsideError};
use vt_pages::Geometry;
use vt_tiles::{Store, Stores};

/// Opens a store, which is cut as the geometry says and whose samples have `depth` bytes, once for each loader, of
/// which there is at least one. After a refusal none is open.
pub fn open_loaders<D: Folder>(
    alloc: Global,
    folder: &mut D,
    name: &str,
    geometry: &Geometry,
    depth: u32,
    loaders: u32,
) -> Result<Stores<D::File>, OutsideError>
    requires depth { IsDepth depth }
    requires store { IsStoreIfKnown (bytes_at (D.files folder.old) name.now) geometry.now depth }
    requires there { IsThere (D.files folder.old) name.now }
    requires some { 1 ≤ loaders }
    ensures fresh { IfOk result (λ stores. AreFresh D.File.File geometry.now depth loaders name.now (D.asked folder.old)
        (bytes_at (D.files folder.old) name.now) stores.elements) }
    ensures failed { IsErrOf result OutsideError.Failed → Rose (D.faults folder.old) (D.faults folder.new) }
    ensures kept { KeepsFolder D.Folder folder.old folder.new }
{
    let mut stores = Stores::new(alloc);
    match open_into(folder, name, geometry, depth, loaders, &mut stores) {
        Ok(()) => Ok(stores),
        Err(refusal) => {
            close_stores(folder, stores);
            Err(refusal)
        }
    }
}

// Opens a store once for each loader into a list.
fn open_into<D: Folder>(
    folder: &mut D,
    name: &str,
    geometry: &Geometry,
    depth: u32,
    loaders: u32,
    stores: &mut Stores<D::File>,
) -> Result<(), OutsideError>
    requires depth { IsDepth depth }
    requires store { IsStoreIfKnown (bytes_at (D.files folder.old) name.now) geometry.now depth }
    requires there { IsThere (D.files folder.old) name.now }
    requires none { stores.old.elements ≡ [] }
    ensures fresh { All (IsFresh D.File.File geometry.now depth name.now (D.asked folder.old)
        (bytes_at (D.files folder.old) name.now)) stores.new.elements }
    ensures count { OnOk result (length stores.new.elements ≡ loaders) }
    ensures failed { IsErrOf result OutsideError.Failed → Rose (D.faults folder.old) (D.faults folder.new) }
    ensures kept { KeepsFolder D.Folder folder.old folder.new }
{
    stores.reserve(loaders as u64)?;
    for _i in 0..loaders {
        let file = folder.open(name)?;
        stores.push(Store::same(file, geometry, depth));
    }
    Ok(())
}

/// Closes stores.
#[tactic(auto, using(crate::proofs::Opened::closed_last, crate::proofs::Opened::counts_last))]
pub fn close_stores<D: Folder>(folder: &mut D, mut stores: Stores<D::File>)
    ensures asked { D.asked folder.new ≡ with_closed (files_of D.File.File stores.elements) (D.asked folder.old) }
    ensures rose { RoseBy (sum (counts_of (files_of D.File.File stores.elements))) (D.faults folder.old)
        (D.faults folder.new) }
    ensures files { D.files folder.new ≡ D.files folder.old }
    ensures faults { D.faults folder.old ≤ D.faults folder.new }
{
    while let Some(store) = stores.pop() {
        folder.close(store.into_file());
    }
    stores.destroy_empty();
}
