// A script is played over leaves in memory.
ghost use Rattle.std.specs.Prelude.{◌≡◌, List, ℕ, [], None, Ok, length, IsTrue, IfErr};
ghost use Rattle.gx_schema.specs.WellFormed.{IsWellFormed};
ghost use Rattle.gx_model.specs.States.{empty_state};
ghost use Rattle.gx_states.specs.Internal.{AreFor};
ghost use Rattle.gx_states.specs.Built.{IsBuiltOf};
ghost use Rattle.gx_play.specs.Endings.{IsPlayEnding, CountsFault, CountsOutside};
ghost use Rattle.gx_play.specs.Plays.{IsPlayedAs};
ghost use Rattle.gx_play.specs.Say.{SameDevices};
ghost use Rattle.gx_requests.specs.Checked.{CanPlay};
ghost use Rattle.gx_operations.specs.Given.{Given, KeepsAll};
ghost use Rattle.gx_operations.specs.Promises.{IsKept};
ghost use Rattle.gx_operations.specs.Tries.{tries};

use gx_device::Machine;
use gx_memory_leaves::PlainLeaves;
use gx_play::{Ending, Status, finish, play_over};
use gx_schema::Schema;
use gx_types::Built;
use gx_values::NoMemory;
use std::alloc::Global;

/// Hears the script and plays it on leaves in memory, from the empty state on, and says its answers
/// and the line of its end. All devices are as they were.
pub fn try_script<M: Machine + Drop>(
    alloc: Global,
    schema: Schema,
    built: Built,
    machine: M,
) -> (Status, M)
    requires { CanPlay (schema, built) }
    ensures promised { IsTrue M.tells → (g : Given) → schema ≡ g.schema →
        IsBuiltOf g.schema g.definitions built →
        IsKept (tries g (M.content machine)) (M.content machine) (M.content result.1) result.0 }
    ensures keeps { KeepsAll (M.content machine) (M.content result.1) }
    ensures failures { CountsOutside (M.faults machine) (M.faults result.1) result.0 }
{
    let (played, mut machine) = play_script(alloc, schema, built, machine);
    let status = finish(alloc, played, &mut machine);
    (status, machine)
}

// Hears the script and plays it so, before the line of its end is said.
fn play_script<'a, M: Machine + Drop>(
    alloc: Global,
    schema: Schema,
    built: Built,
    machine: M,
) -> (Result<(), Ending<'a>>, M)
    requires built { AreFor schema built (length built.specs) }
    requires well_formed { IsWellFormed schema }
    ensures answered { IsTrue M.tells →
        IsPlayedAs schema built None (empty_state schema) (λ kept. Unit {0})
        (M.content machine).script (M.content machine).now.said (M.content result.1).now.said
        result.0 }
    ensures heard { IsTrue M.tells → result.0 ≡ Ok tt → (M.content result.1).script ≡ [] }
    ensures devices { SameDevices (M.content machine) (M.content result.1) }
    ensures aside { (M.content result.1).aside ≡ (M.content machine).aside }
    ensures ending { IfErr result.0 IsPlayEnding }
    ensures failures { CountsFault (M.faults machine) (M.faults result.1) result.0 }
{
    let count = built.specs.0.len() as u32;
    match PlainLeaves::make(alloc, machine, count) {
        Ok(leaves) => {
            let (played, leaves) = play_over(alloc, schema, built, leaves);
            (played, leaves.into_device())
        }
        Err((machine, NoMemory)) => (Err(Ending::NoMemory), machine),
    }
}
