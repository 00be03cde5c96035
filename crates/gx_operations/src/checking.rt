// Texts that are accepted are checked.
ghost use Rattle.std.specs.Prelude.{◌≡◌, ◌≤◌, length, IsTrue};
ghost use Rattle.gx_ports.specs.declared.kinds.TheConstants.{MAX_LEAVES};
ghost use Rattle.gx_play.specs.Endings.{CountsOutside};
ghost use Rattle.gx_operations.specs.Given.{Given, KeepsAll};
ghost use Rattle.gx_operations.specs.Promises.{IsKept};
ghost use Rattle.gx_operations.specs.Checks.{checks};

use gx_device::Machine;
use gx_play::{Ending, Status, end, summarize};
use gx_typing::Specs;
use std::alloc::Global;

/// Says what leaves the equation has. No script is heard, and all devices are as they were.
pub fn check<M: Machine>(alloc: Global, specs: &Specs, machine: &mut M) -> Status
    requires { length specs.now ≤ MAX_LEAVES }
    ensures promised { IsTrue M.tells → (g : Given) → g.typing.specs ≡ specs.now →
        IsKept (checks g (M.content machine.old)) (M.content machine.old) (M.content machine.new)
        result }
    ensures keeps { KeepsAll (M.content machine.old) (M.content machine.new) }
    ensures failures { CountsOutside (M.faults machine.old) (M.faults machine.new) result }
{
    let summary = summarize(specs);
    end(alloc, Ending::Accepted(summary), machine)
}
