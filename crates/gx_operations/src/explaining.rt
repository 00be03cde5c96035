// A script is explained.
ghost use Rattle.std.specs.Prelude.{◌≡◌, IsTrue};
ghost use Rattle.gx_states.specs.Built.{IsBuiltOf};
ghost use Rattle.gx_play.specs.Endings.{CountsOutside};
ghost use Rattle.gx_requests.specs.Checked.{CanPlay};
ghost use Rattle.gx_operations.specs.Given.{Given, KeepsAll};
ghost use Rattle.gx_operations.specs.Promises.{IsKept};
ghost use Rattle.gx_operations.specs.Explains.{explains};

use gx_device::Machine;
use gx_explain::explain_script;
use gx_play::Status;
use gx_schema::Schema;
use gx_types::Built;
use std::alloc::Global;

/// Hears the script and says the plan of each `find` and the direction of each path, and the line
/// that ends it. No line of the script is carried out, and all devices are as they were.
pub fn explain<M: Machine>(alloc: Global, schema: &Schema, built: &Built, machine: &mut M) -> Status
    requires { CanPlay (schema.now, built.now) }
    ensures promised { IsTrue M.tells → (g : Given) → schema.now ≡ g.schema →
        IsBuiltOf g.schema g.definitions built.now →
        IsKept (explains g (M.content machine.old)) (M.content machine.old) (M.content machine.new)
        result }
    ensures keeps { KeepsAll (M.content machine.old) (M.content machine.new) }
    ensures failures { CountsOutside (M.faults machine.old) (M.faults machine.new) result }
{
    explain_script(alloc, schema, built, machine)
}
