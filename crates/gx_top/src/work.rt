// The request to play the workload on a device that is made.
ghost use Rattle.std.specs.Prelude.{◌≤◌, ℕ, List, [], IsTrue};
ghost use Rattle.gx_play.specs.Endings.{CountsOutside};
ghost use Rattle.gx_requests.specs.Words.{working, request_words, IsCount, IsRecordCount};
ghost use Rattle.gx_top.specs.Promised.{IsPromised};

use crate::ready::ready_work;
use gx_device::Machine;
use gx_operations::refuse;
use gx_play::Status;
use std::alloc::Global;

/// Makes a device of that name with so many blocks, plays the workload of so many records on it
/// under the equation of this name, and says what was found then; or says the reason where the
/// request is refused, where the size or the name can't be had, or where the device is too small.
pub fn work<M: Machine + Drop>(
    alloc: Global,
    equation: &str,
    device: &str,
    blocks: u32,
    records: u32,
    machine: M,
) -> (Status, M)
    requires { records ≤ 10000 }
    ensures promised { IsTrue M.tells → (digits number : List ℕ) → IsCount digits blocks →
        IsRecordCount number records → IsPromised
        (request_words (working device.now digits number) [] equation.now) (M.content machine)
        (M.content result.1) result.0 }
    ensures failures { CountsOutside (M.faults machine) (M.faults result.1) result.0 }
{
    let mut machine = machine;
    match ready_work(alloc, equation, &mut machine) {
        Ok(stored) => gx_operations::work(alloc, stored, device, blocks, records, machine),
        Err(ending) => refuse(alloc, ending, machine),
    }
}
