// The request to play a script on a device.
ghost use Rattle.std.specs.Prelude.{IsTrue};
ghost use Rattle.gx_play.specs.Endings.{CountsOutside};
ghost use Rattle.gx_requests.specs.Words.{running, request_words};
ghost use Rattle.gx_top.specs.Promised.{IsPromised};

use crate::ready::ready_stored;
use gx_device::Machine;
use gx_operations::{ScriptKind, refuse};
use gx_play::Status;
use std::alloc::Global;

/// Plays the script on the device of that name, under the texts of these names, and says its
/// answers; or says the reason where the request is refused or the device is another than was asked
/// for.
pub fn run_script<M: Machine + Drop>(
    alloc: Global,
    schema: &str,
    equation: &str,
    device: &str,
    machine: M,
) -> (Status, M)
    ensures promised { IsTrue M.tells → IsPromised
        (request_words (running device.now) schema.now equation.now) (M.content machine)
        (M.content result.1) result.0 }
    ensures failures { CountsOutside (M.faults machine) (M.faults result.1) result.0 }
{
    let mut machine = machine;
    match ready_stored(alloc, schema, equation, &mut machine) {
        Ok(stored) => gx_operations::run(alloc, ScriptKind::Lines, stored, device, machine),
        Err(ending) => refuse(alloc, ending, machine),
    }
}
