// What a script is of, and its play over leaves.
ghost use Rattle.std.specs.Prelude.{◌≡◌, [], Ok, length, IsTrue, IfErr};
ghost use Rattle.gx_device.specs.Content.{Content};
ghost use Rattle.gx_schema.specs.WellFormed.{IsWellFormed};
ghost use Rattle.gx_model.specs.States.{State};
ghost use Rattle.gx_states.specs.Internal.{AreFor};
ghost use Rattle.gx_play.specs.Endings.{IsPlayEnding, CountsFault, is_fault};
ghost use Rattle.gx_play.specs.Overs.{IsPlayedOf, LeavesPlayOf};
ghost use Rattle.gx_play.specs.Plays.{IsHolding, KeepsState, KeepsOver};
ghost use Rattle.gx_play.specs.Readings.{EndsAs};
ghost use Rattle.gx_operations.specs.Kinds.{over_play, IsEndOfKind};

use gx_play::{Ending, play_over};
use gx_ports::Leaves;
use gx_schema::Schema;
use gx_shares::share_over;
use gx_types::Built;
use std::alloc::Global;

/// What the lines of a script are.
#[derive(Clone, Copy, Debug)]
pub enum ScriptKind {
    /// Commands and paths of one session.
    Lines,
    /// Turns of up to eight sessions.
    Turns,
}

// Hears the script and plays it over leaves, which are handed back.
pub(crate) fn play_as<'a, B: Leaves + Drop>(
    alloc: Global,
    kind: ScriptKind,
    schema: Schema,
    built: Built,
    leaves: B,
) -> (Result<(), Ending<'a>>, B)
    requires built { AreFor schema built (length (B.working leaves)) }
    requires well_formed { IsWellFormed schema }
    ensures answered { IsTrue B.tells → (s : State) → IsHolding B.View schema built s leaves →
        IsPlayedOf (over_play kind schema built (B.limit leaves) s (B.content leaves).script)
        (KeepsState B.View schema built result.1) (B.content leaves).now.said
        (B.content result.1).now.said result.0 }
    ensures crash { IsTrue B.tells → (s : State) → IsHolding B.View schema built s leaves →
        (start : Content) → B.calm leaves start → LeavesPlayOf B.View schema built
        (over_play kind schema built (B.limit leaves) s (B.content leaves).script)
        (is_fault result.0) leaves result.1 }
    ensures heard { IsTrue B.tells → result.0 ≡ Ok tt → (B.content result.1).script ≡ [] }
    ensures reads { IsTrue B.tells →
        EndsAs (IsEndOfKind kind schema (B.content leaves).script) result.0 }
    ensures ending { IfErr result.0 IsPlayEnding }
    ensures keeps { KeepsOver B.View leaves result.1 }
    ensures failures { CountsFault (B.faults leaves) (B.faults result.1) result.0 }
{
    match kind {
        ScriptKind::Lines => play_over(alloc, schema, built, leaves),
        ScriptKind::Turns => share_over(alloc, schema, built, leaves),
    }
}
