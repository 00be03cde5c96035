// The request to make a device with an empty database.
ghost use Rattle.std.specs.Prelude.{List, ℕ, IsTrue};
ghost use Rattle.gx_play.specs.Endings.{CountsOutside};
ghost use Rattle.gx_requests.specs.Words.{IsCount, making, request_words};
ghost use Rattle.gx_top.specs.Promised.{IsPromised};

use crate::ready::ready_stored;
use gx_device::Machine;
use gx_operations::refuse;
use gx_play::Status;
use std::alloc::Global;

/// Makes a device of that name with so many blocks, and an empty database on it under the texts of
/// these names, and says what was made; or says the reason where the request is refused, or where
/// the size or the name can't be had.
pub fn make<M: Machine + Drop>(
    alloc: Global,
    schema: &str,
    equation: &str,
    device: &str,
    blocks: u32,
    machine: M,
) -> (Status, M)
    ensures promised { IsTrue M.tells → (digits : List ℕ) → IsCount digits blocks → IsPromised
        (request_words (making device.now digits) schema.now equation.now) (M.content machine)
        (M.content result.1) result.0 }
    ensures failures { CountsOutside (M.faults machine) (M.faults result.1) result.0 }
{
    let mut machine = machine;
    match ready_stored(alloc, schema, equation, &mut machine) {
        Ok(stored) => gx_operations::make(alloc, stored, device, blocks, machine),
        Err(ending) => refuse(alloc, ending, machine),
    }
}
