// The request to inspect a device.
ghost use Rattle.gx_store.specs.Store.{CanAttach};
ghost use Rattle.gx_play.specs.Endings.{CountsOutside};
ghost use Rattle.gx_requests.specs.Checked.{IsStored};
ghost use Rattle.gx_operations.specs.Given.{Given, IsStoredAs, KeepsOthers};
ghost use Rattle.gx_operations.specs.Inspects.{InspectsOn};

use crate::examine::examine_store;
use gx_device::Machine;
use gx_play::{Status, end, tell};
use gx_requests::{Stored, unopened_ending};
use gx_store::open;
use std::alloc::Global;

/// Recovers the device of that name, examines whole what it holds under these texts, and says of
/// each leaf, file and link what was found, with `sound` last; or says why the device is another
/// than was asked for. One that holds no valid state is damaged, in a block that it has. Whatever
/// the status is, the device reads as it did, and a crash leaves what it could have left when the
/// device was attached, or what reads as the device did then. After `sound` it is settled with its
/// state. No script is heard, no device is made, and the texts and devices of other names stay.
pub fn inspect<M: Machine + Drop>(
    alloc: Global,
    stored: Stored,
    device: &str,
    machine: M,
) -> (Status, M)
    requires { IsStored stored }
    ensures promised { CanAttach M.tells (M.content machine) → (g : Given) → IsStoredAs g stored →
        InspectsOn g device.now (M.content machine) (M.content result.1) result.0 }
    ensures keeps { CanAttach M.tells (M.content machine) →
        KeepsOthers device.now (M.content machine) (M.content result.1) }
    ensures failures { CountsOutside (M.faults machine) (M.faults result.1) result.0 }
{
    let Stored {
        schema,
        built,
        schema_text,
        equation_text,
    } = stored;
    match open(
        alloc,
        machine,
        device,
        schema_text.as_slice(),
        equation_text.as_slice(),
        &built.specs.0,
    ) {
        Ok(store) => {
            let (found, mut machine) = examine_store(alloc, schema, built, store);
            let status = tell(alloc, found, &mut machine);
            (status, machine)
        }
        Err((mut machine, why)) => {
            let status = end(alloc, unopened_ending(why), &mut machine);
            (status, machine)
        }
    }
}
