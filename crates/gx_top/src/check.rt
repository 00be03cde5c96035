// The request to check two texts.
ghost use Rattle.std.specs.Prelude.{IsTrue};
ghost use Rattle.gx_play.specs.Endings.{CountsOutside};
ghost use Rattle.gx_requests.specs.Words.{checking, request_words};
ghost use Rattle.gx_top.specs.Promised.{IsPromised};

use gx_device::Machine;
use gx_operations::refuse;
use gx_play::Status;
use gx_requests::read_texts;
use std::alloc::Global;

/// Says what leaves the equation has where both texts of these names are accepted, and the reason
/// where they aren't.
pub fn check<M: Machine>(alloc: Global, schema: &str, equation: &str, machine: M) -> (Status, M)
    ensures promised { IsTrue M.tells → IsPromised
        (request_words checking schema.now equation.now) (M.content machine) (M.content result.1)
        result.0 }
    ensures failures { CountsOutside (M.faults machine) (M.faults result.1) result.0 }
{
    let mut machine = machine;
    match read_texts(alloc, schema, equation, &mut machine) {
        Ok(checked) => {
            let status = gx_operations::check(alloc, &checked.typing.specs, &mut machine);
            (status, machine)
        }
        Err(ending) => refuse(alloc, ending, machine),
    }
}
