// The request to explain a script.
ghost use Rattle.std.specs.Prelude.{IsTrue};
ghost use Rattle.gx_play.specs.Endings.{CountsOutside};
ghost use Rattle.gx_requests.specs.Words.{explaining, request_words};
ghost use Rattle.gx_top.specs.Promised.{IsPromised};

use gx_device::Machine;
use gx_operations::refuse;
use gx_play::Status;
use gx_requests::prepare_nodes;
use std::alloc::Global;

/// Says the plan of each `find` and the direction of each path of the script, under the texts of
/// these names; or says the reason where the request is refused.
pub fn explain<M: Machine>(alloc: Global, schema: &str, equation: &str, machine: M) -> (Status, M)
    ensures promised { IsTrue M.tells → IsPromised
        (request_words explaining schema.now equation.now) (M.content machine)
        (M.content result.1) result.0 }
    ensures failures { CountsOutside (M.faults machine) (M.faults result.1) result.0 }
{
    let mut machine = machine;
    match prepare_nodes(alloc, schema, equation, &mut machine) {
        Ok((schema, built)) => {
            let status = gx_operations::explain(alloc, &schema, &built, &mut machine);
            (status, machine)
        }
        Err(ending) => refuse(alloc, ending, machine),
    }
}
