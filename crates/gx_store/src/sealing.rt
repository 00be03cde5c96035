// A database is made of leaves that were prepared.
ghost use Rattle.std.specs.Prelude.{◌≡◌, ℕ, List, length, IsTrue, IfErr};
ghost use Rattle.gx_device.specs.Content.{Silent};
ghost use Rattle.gx_device.specs.Faults.{Counted};
ghost use Rattle.gx_ports.specs.LeafMaps.{LeafMap};
ghost use Rattle.gx_ports.specs.declared.kinds.LeafSpec.{LeafSpec};
ghost use Rattle.gx_store.specs.Store.{machine_of};
ghost use Rattle.gx_store.specs.Making.{IsUnsealed, Seals, has_no_fault};

use crate::store::Store;
use crate::unopened::Unopened;
use gx_device::{Failed, Machine};

/// Makes a database of leaves that were prepared, with the maps that were kept at the last commit:
/// the magic is written. What was changed since is gone. The machine is handed back; after Ok
/// nothing is pending on its device, and each crash leaves the database. A crash within the call
/// leaves none or this one.
///
/// Otherwise it is `Fault`: the count of faults rose, and there is no database, or this one.
pub fn seal<M: Machine + Drop>(store: Store<M>) -> (Result<(), Unopened>, M)
    ensures seals { (schema equation : List ℕ) (specs : List LeafSpec) (maps : List LeafMap) →
        IsUnsealed schema equation specs maps store →
        Seals schema equation specs maps (M.content (machine_of store)) (M.content result.1)
        result.0 }
    ensures fault { IfErr result.0 (λ why. why ≡ Unopened.Fault) }
    ensures count { IsTrue M.tells →
        length (M.content result.1).now.blocks ≡ length (M.content (machine_of store)).now.blocks }
    ensures silent { Silent (M.content (machine_of store)) (M.content result.1) }
    ensures faults { Counted (has_no_fault result.0) (M.faults (machine_of store))
        (M.faults result.1) }
{
    let mut journal = store.into_pages().into_journal();
    match journal.seal() {
        Ok(()) => (Ok(()), journal.into_device()),
        Err(Failed) => (Err(Unopened::Fault), journal.into_device()),
    }
}
