// A script of turns that is heard and played over leaves.
ghost use Rattle.std.specs.Prelude.{◌≡◌, [], None, Ok, length, IsTrue, IfErr};
ghost use Rattle.gx_schema.specs.WellFormed.{IsWellFormed};
ghost use Rattle.gx_device.specs.Content.{Content};
ghost use Rattle.gx_model.specs.States.{State};
ghost use Rattle.gx_engine.specs.Steps.{AreFor};
ghost use Rattle.gx_sessions.specs.Turns.{schema_of, leaves_of, stop_of, IsReady};
ghost use Rattle.gx_play.specs.Endings.{IsPlayEnding, CountsFault, is_fault};
ghost use Rattle.gx_play.specs.Overs.{IsPlayedOf, LeavesPlayOf};
ghost use Rattle.gx_play.specs.Plays.{IsHolding, KeepsState, KeepsOver};
ghost use Rattle.gx_play.specs.Readings.{EndsAs};
ghost use Rattle.gx_shares.specs.Ends.{IsShareEnd};
ghost use Rattle.gx_shares.specs.Player.{share_over_play};
ghost use Rattle.gx_shares.specs.Going.{PlaysOut, KeepsHeard};
ghost use Rattle.gx_shares.specs.Reads.{ReadsOut};

use crate::play::play_heard;
use gx_engine::Engine;
use gx_play::Ending;
use gx_ports::Leaves;
use gx_schema::Schema;
use gx_sessions::Sessions;
use gx_types::Built;
use gx_values::{NoMemory, Octets};
use std::alloc::Global;

/// Hears a script of turns of up to eight sessions in pieces and plays it over leaves, which are
/// handed back. What a turn says is said before more is heard. On leaves that hold a state, of a
/// device that tells its content, exactly what the turns say from that state was said, up to the
/// line that ends it, and the last kept state is in the kept leaves; after a stop what the first
/// turns say, and their last kept state. After `Fault` a front of what the first turns say, and
/// their last kept state; or all that they say, where the next line is a commit. `Full` comes only
/// where the pages may be too few for one of the commands of a session's transaction, the one of
/// the next line with them, and damage isn't found. A crash within the call leaves the last state
/// that some first turns kept, with what they say said but perhaps for an end of the last one's. On
/// any leaves of such a device what was said before stays, in front, and a line at which the play
/// ends is the first bad one of the script, or its last one, where a session is in a transaction
/// behind it. After `Ok` the script was heard to its end, all its lines are good, and no session is
/// in a transaction there.
pub fn share_over<'a, B: Leaves + Drop>(
    alloc: Global,
    schema: Schema,
    built: Built,
    leaves: B,
) -> (Result<(), Ending<'a>>, B)
    requires built { AreFor schema built (length (B.working leaves)) }
    requires well_formed { IsWellFormed schema }
    ensures answered { IsTrue B.tells → (s : State) → IsHolding B.View schema built s leaves →
        IsPlayedOf (share_over_play schema built (B.limit leaves) s (B.content leaves).script)
        (KeepsState B.View schema built result.1) (B.content leaves).now.said
        (B.content result.1).now.said result.0 }
    ensures crash { IsTrue B.tells → (s : State) → IsHolding B.View schema built s leaves →
        (start : Content) → B.calm leaves start →
        LeavesPlayOf B.View schema built
        (share_over_play schema built (B.limit leaves) s (B.content leaves).script)
        (is_fault result.0) leaves result.1 }
    ensures heard { IsTrue B.tells → result.0 ≡ Ok tt → (B.content result.1).script ≡ [] }
    ensures reads { IsTrue B.tells → EndsAs (IsShareEnd schema (B.content leaves).script) result.0 }
    ensures ending { IfErr result.0 IsPlayEnding }
    ensures keeps { KeepsOver B.View leaves result.1 }
    ensures failures { CountsFault (B.faults leaves) (B.faults result.1) result.0 }
{
    let engine = Engine::start(schema, built, leaves);
    match Sessions::start(alloc, engine) {
        Ok(mut sessions) => {
            let played = play_out(alloc, &mut sessions);
            (played, sessions.into_engine().into_leaves())
        }
        Err((engine, NoMemory)) => (Err(Ending::NoMemory), engine.into_leaves()),
    }
}

// Plays the script that is heard, and answers how the request ends.
fn play_out<'a, B: Leaves + Drop>(
    alloc: Global,
    sessions: &mut Sessions<B>,
) -> Result<(), Ending<'a>>
    requires ready { IsReady B.View sessions.old }
    requires well_formed { IsWellFormed (schema_of sessions.old) }
    requires going { stop_of sessions.old ≡ None }
    ensures played { IsTrue B.tells → PlaysOut B.View sessions.old sessions.new result }
    ensures heard { IsTrue B.tells → result ≡ Ok tt →
        (B.content (leaves_of sessions.new)).script ≡ [] }
    ensures reads { IsTrue B.tells → ReadsOut (schema_of sessions.old)
        (B.content (leaves_of sessions.old)).script sessions.old result }
    ensures ending { IfErr result IsPlayEnding }
    ensures keeps { KeepsHeard B.View sessions.old sessions.new }
    ensures failures { CountsFault (B.faults (leaves_of sessions.old))
        (B.faults (leaves_of sessions.new)) result }
{
    let mut answer = Octets(Vec::new(alloc));
    Ok(play_heard(alloc, sessions, &mut answer)?)
}
