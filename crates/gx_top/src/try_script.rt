// The request to play a script in memory.
ghost use Rattle.std.specs.Prelude.{IsTrue};
ghost use Rattle.gx_play.specs.Endings.{CountsOutside};
ghost use Rattle.gx_requests.specs.Words.{trying, request_words};
ghost use Rattle.gx_top.specs.Promised.{IsPromised};

use gx_device::Machine;
use gx_operations::refuse;
use gx_play::Status;
use gx_requests::prepare_nodes;
use std::alloc::Global;

/// Plays the script over leaves in memory, under the texts of these names, and says its answers; or
/// says the reason where the request is refused.
pub fn try_script<M: Machine + Drop>(
    alloc: Global,
    schema: &str,
    equation: &str,
    machine: M,
) -> (Status, M)
    ensures promised { IsTrue M.tells → IsPromised (request_words trying schema.now equation.now)
        (M.content machine) (M.content result.1) result.0 }
    ensures failures { CountsOutside (M.faults machine) (M.faults result.1) result.0 }
{
    let mut machine = machine;
    match prepare_nodes(alloc, schema, equation, &mut machine) {
        Ok((schema, built)) => gx_operations::try_script(alloc, schema, built, machine),
        Err(ending) => refuse(alloc, ending, machine),
    }
}
