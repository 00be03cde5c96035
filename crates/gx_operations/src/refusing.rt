// A request that is refused, or given up before anything was done.
ghost use Rattle.std.specs.Prelude.{◌≡◌, ◌≢◌, ◌≤◌, ◌⊎◌, IsTrue};
ghost use Rattle.gx_device.specs.Faults.{Rose};
ghost use Rattle.gx_play.specs.Endings.{status_of};
ghost use Rattle.gx_operations.specs.Given.{KeepsAll};
ghost use Rattle.gx_operations.specs.GivenUp.{GivesUp};
ghost use Rattle.gx_operations.specs.Promises.{IsKept};
ghost use Rattle.gx_operations.specs.Refuses.{refuses};

use gx_device::Machine;
use gx_play::{Ending, Status, end};
use std::alloc::Global;

/// Says the line of the first reason why a request is refused; or, where a text couldn't be had or
/// there was no memory, that alone. Nothing was done before, and all devices are as they were.
pub fn refuse<M: Machine>(alloc: Global, ending: Ending<'_>, machine: M) -> (Status, M)
    ensures refused { IsTrue M.tells → status_of ending.entry ≡ Status.Refused →
        IsKept (refuses ending.entry (M.content machine)) (M.content machine) (M.content result.1)
        result.0 }
    ensures given_up { IsTrue M.tells →
        (ending.entry ≡ Ending.Fault) ⊎ (ending.entry ≡ Ending.NoMemory) →
        GivesUp (M.content machine) (M.content result.1) result.0 }
    ensures keeps { KeepsAll (M.content machine) (M.content result.1) }
    ensures outside { result.0 ≡ Status.Outside →
        (ending.entry ≡ Ending.Fault) ⊎ Rose (M.faults machine) (M.faults result.1) }
    ensures fault { ending.entry ≡ Ending.Fault → result.0 ≡ Status.Outside }
    ensures counted { result.0 ≢ Status.Outside → M.faults result.1 ≡ M.faults machine }
    ensures later { M.faults machine ≤ M.faults result.1 }
{
    let mut machine = machine;
    let status = end(alloc, ending, &mut machine);
    (status, machine)
}
