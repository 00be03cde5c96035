// A script that is heard and played over leaves.
ghost use Rattle.std.specs.Prelude.{◌≡◌, [], Ok, length, IsTrue, IfErr};
ghost use Rattle.gx_schema.specs.WellFormed.{IsWellFormed};
ghost use Rattle.gx_model.specs.States.{State};
ghost use Rattle.gx_engine.specs.Steps.{AreFor};
ghost use Rattle.gx_device.specs.Content.{Content};
ghost use Rattle.gx_commands.specs.Lines.{script_lines};
ghost use Rattle.gx_model.specs.Play.{start_at};
ghost use Rattle.gx_play.specs.Endings.{IsPlayEnding, CountsFault, is_fault};
ghost use Rattle.gx_play.specs.Images.{LeavesPlay};
ghost use Rattle.gx_play.specs.Plays.{IsHolding, KeepsState, KeepsOver, IsPlayedAs, IsEndingOf};
ghost use Rattle.gx_play.specs.Readings.{EndsAs};
ghost use Rattle.gx_play.specs.ScriptEnds.{IsScriptEnd};

use crate::ending::Ending;
use crate::play::{Answers, PlayEnd, play_heard};
use gx_engine::Engine;
use gx_ports::Leaves;
use gx_schema::Schema;
use gx_types::Built;
use gx_values::Octets;
use std::alloc::Global;

/// Hears the script in pieces and plays it over leaves, which are handed back. The answer of each
/// line is said before more is heard. On leaves that hold a state,
/// of a device that tells its content, exactly the answers of the play from that state were said,
/// up to the line that ends it, and the last kept state is in the kept leaves; after a stop the
/// answers of the first lines, and their last kept state. After `Fault` a front of the answers of
/// the first lines, and their last kept state; or all of their answers, where the next line is a
/// commit. `Full` comes only where the pages may be too few for the command of the next line, which
/// changes records or links and isn't refused, or is a `reorganize`, and damage isn't found. A
/// crash within the call leaves the last state that some first lines kept, with their answers said
/// but perhaps for an end of the last one's. On any leaves of such a device what was said before
/// stays, in front, and a line at which the play ends is the first bad one of the script. After
/// `Ok` the script was heard to its end, all its lines are good, and no transaction is open there.
pub fn play_over<'a, B: Leaves + Drop>(
    alloc: Global,
    schema: Schema,
    built: Built,
    leaves: B,
) -> (Result<(), Ending<'a>>, B)
    requires built { AreFor schema built (length (B.working leaves)) }
    requires well_formed { IsWellFormed schema }
    ensures answered { IsTrue B.tells → (s : State) → IsHolding B.View schema built s leaves →
        IsPlayedAs schema built (B.limit leaves) s (KeepsState B.View schema built result.1)
        (B.content leaves).script (B.content leaves).now.said (B.content result.1).now.said
        result.0 }
    ensures crash { IsTrue B.tells → (s : State) → IsHolding B.View schema built s leaves →
        (start : Content) → B.calm leaves start →
        LeavesPlay B.View schema built Answers.Said (start_at s)
        (script_lines (B.content leaves).script).lines (is_fault result.0) leaves result.1 }
    ensures heard { IsTrue B.tells → (s : State) → IsHolding B.View schema built s leaves →
        result.0 ≡ Ok tt → (B.content result.1).script ≡ [] }
    ensures heard_whole { IsTrue B.tells → result.0 ≡ Ok tt → (B.content result.1).script ≡ [] }
    ensures reads { IsTrue B.tells → EndsAs (IsScriptEnd schema (B.content leaves).script) result.0 }
    ensures ending { IfErr result.0 IsPlayEnding }
    ensures keeps { KeepsOver B.View leaves result.1 }
    ensures failures { CountsFault (B.faults leaves) (B.faults result.1) result.0 }
{
    let mut engine = Engine::start(schema, built, leaves);
    let mut answer = Octets(Vec::new(alloc));
    let played = play_heard(alloc, &mut engine, &mut answer);
    (ended(played), engine.into_leaves())
}

// How the request ends where its play does.
fn ended<'a>(played: Result<(), PlayEnd>) -> Result<(), Ending<'a>>
    ensures { IsEndingOf played result }
{
    Ok(played?)
}
