// A database is made.
ghost use Rattle.std.specs.Prelude.{◌≡◌, ◌+◌, ◌≤◌, ℕ, List, length, IsTrue, IfErr, OnOk};
ghost use Rattle.gx_device.specs.Faults.{Counted};
ghost use Rattle.gx_layout.specs.declared.places.TheConstants.{MAX_TEXTS_LEN};
ghost use Rattle.gx_leaves.specs.Kinds.{are_built};
ghost use Rattle.gx_store.specs.Device.{IsSize};
ghost use Rattle.gx_store.specs.Store.{CanAttach, Attaches};
ghost use Rattle.gx_store.specs.Making.{IsUnmade, IsMadeBy, LeavesMaking, has_no_fault};
ghost use Rattle.gx_ports.specs.declared.kinds.TheConstants.{MAX_LEAVES};

use crate::preparing::prepare;
use crate::sealing::seal;
use crate::unopened::Unopened;
use gx_device::Machine;
use gx_ports::LeafSpec;
use std::alloc::Global;

/// Makes a device of that name with so many blocks, and an empty database on it under these two
/// canonical texts. The specs are those of the texts. The magic is written last. After Ok the
/// device is attached, and nothing is pending on it.
///
/// Otherwise, in this order: `Size` of the number, `Exists`; then no device is made or changed.
/// `Fault`: the count of faults rose; with every other answer it stays. `NoMemory`: there was none.
/// After these two there may be a device that wasn't there before: it has so many blocks, and it
/// has no magic, or is opened as an empty database. A device that was there before reads as it did,
/// whatever the answer is.
pub fn make<M: Machine + Drop>(
    alloc: Global,
    machine: M,
    name: &str,
    blocks: u32,
    schema: &[u8],
    equation: &[u8],
    specs: &[LeafSpec],
) -> (Result<(), Unopened>, M)
    requires texts { length schema.now + length equation.now ≤ MAX_TEXTS_LEN }
    requires few { length specs.now ≤ MAX_LEAVES }
    requires built { IsTrue (are_built specs.now) }
    ensures made { CanAttach M.tells (M.content machine) → OnOk result.0
        (IsMadeBy name.now blocks schema.now equation.now specs.now (M.content machine)
        (M.content result.1)) }
    ensures size { OnOk result.0 (IsSize specs.now blocks) }
    ensures unmade { CanAttach M.tells (M.content machine) → IfErr result.0
        (IsUnmade name.now blocks specs.now (M.content machine)) }
    ensures left { CanAttach M.tells (M.content machine) →
        LeavesMaking name.now blocks schema.now equation.now specs.now (M.content machine)
        (M.content result.1) result.0 }
    ensures attaches { CanAttach M.tells (M.content machine) →
        Attaches name.now (M.content machine) (M.content result.1) }
    ensures faults { Counted (has_no_fault result.0) (M.faults machine) (M.faults result.1) }
{
    match prepare(alloc, machine, name, blocks, schema, equation, specs) {
        Ok(store) => seal(store),
        Err((machine, why)) => (Err(why), machine),
    }
}
