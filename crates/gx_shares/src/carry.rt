// Carrying out one line of a script of turns.
ghost use Rattle.std.specs.Prelude.{◌≡◌, ℕ, ◌≤◌, List, None, length, OnOk};
ghost use Rattle.gx_schema.specs.WellFormed.{IsWellFormed};
ghost use Rattle.gx_commands.specs.Commands.{inside_after};
ghost use Rattle.gx_commands.specs.Lines.{longest_line};
ghost use Rattle.gx_sessions.specs.Turns.{schema_of, stop_of, is_in_at, IsReady, IsNumber, IsDue, MovesTo};
ghost use Rattle.gx_shares.specs.Steps.{without_first, IsTurnStep};
ghost use Rattle.gx_shares.specs.Carried.{as_line, IsCommandStep, IsTurnLineStep, IsLineStep, IsReadTurn, IsReadLine};

use crate::say::say_turn;
use gx_commands::{Command, read_turn};
use gx_engine::StepStop;
use gx_play::{LineEnd, line_command};
use gx_ports::{Leaves, Stop};
use gx_sessions::{Sessions, Turn};
use gx_values::Octets;
use std::alloc::Global;

/// Carries out a line: where it is the turn of a session, with a command that may stand where the
/// session is, its turn is played, and what this says is said whole; where it is no turn, nothing
/// happens. After `Bad` nothing happened. After `Stop` nothing of it was said, and what was last
/// committed stays; after `Stop(Fault)` a front of what it says, behind which it was carried out,
/// or nothing of it, where what was last committed stays unless the line is a `commit`. `Full`
/// comes only where the pages may be too few for one of the commands of the session's transaction,
/// the one of this line with them, and damage isn't found where the sessions stand for a moment. A
/// crash within the call leaves the state that was kept before the line, with nothing of it said,
/// or the one that is kept after it, with a front of what it says. `out` is room for an answer.
pub(crate) fn play_line<B: Leaves + Drop>(
    alloc: Global,
    line: &[u8],
    sessions: &mut Sessions<B>,
    out: &mut Octets,
) -> Result<(), LineEnd>
    requires ready { IsReady B.View sessions.old }
    requires well_formed { IsWellFormed (schema_of sessions.old) }
    requires going { stop_of sessions.old ≡ None }
    requires short { length line.now ≤ longest_line }
    ensures step { IsLineStep B.View sessions.old sessions.new line.now result }
    ensures reads { IsReadLine sessions.old sessions.new line.now result }
{
    match read_turn(line) {
        Ok(None) => Ok(()),
        Ok(Some((session, at))) => play_turn(alloc, session, &line[at..], sessions, out),
        Err(why) => Err(LineEnd::Bad(why)),
    }
}

// Carries out the line of a session.
fn play_turn<B: Leaves + Drop>(
    alloc: Global,
    session: u8,
    line: &[u8],
    sessions: &mut Sessions<B>,
    out: &mut Octets,
) -> Result<(), LineEnd>
    requires ready { IsReady B.View sessions.old }
    requires well_formed { IsWellFormed (schema_of sessions.old) }
    requires going { stop_of sessions.old ≡ None }
    requires numbered { IsNumber session }
    requires short { length line.now ≤ longest_line }
    ensures step { IsTurnLineStep B.View sessions.old sessions.new session line.now result }
    ensures reads { IsReadTurn sessions.old sessions.new session line.now result }
{
    let inside = sessions.inside(session);
    let command = line_command(alloc, sessions.schema(), inside, line)?;
    carry_out(alloc, session, command, sessions, out)?;
    Ok(())
}

// Carries out the command of a session, and says what its turn says.
fn carry_out<B: Leaves + Drop>(
    alloc: Global,
    session: u8,
    command: Command,
    sessions: &mut Sessions<B>,
    out: &mut Octets,
) -> Result<(), Stop>
    requires ready { IsReady B.View sessions.old }
    requires going { stop_of sessions.old ≡ None }
    requires numbered { IsNumber session }
    requires due { IsDue sessions.old session command }
    ensures step { (line : List ℕ) →
        IsCommandStep B.View sessions.old sessions.new session command line (as_line result) }
    ensures moves { OnOk result (MovesTo sessions.old sessions.new session
        (inside_after (is_in_at sessions.old session) command)) }
{
    out.0.clear();
    let turn = take_turn(alloc, session, command, sessions, out)?;
    say_turn(session, turn, out.as_slice(), sessions)?;
    Ok(())
}

// Plays the turn of a session and appends its answer.
fn take_turn<B: Leaves + Drop>(
    alloc: Global,
    session: u8,
    command: Command,
    sessions: &mut Sessions<B>,
    out: &mut Octets,
) -> Result<Turn, Stop>
    requires ready { IsReady B.View sessions.old }
    requires going { stop_of sessions.old ≡ None }
    requires numbered { IsNumber session }
    requires due { IsDue sessions.old session command }
    ensures step { IsTurnStep B.View sessions.old sessions.new session command out.old out.new
        result }
    ensures moves { OnOk result (MovesTo sessions.old sessions.new session
        (inside_after (is_in_at sessions.old session) command)) }
{
    without_first(sessions.turn(alloc, session, command, out))
}

// How a turn ended, where its stop is the first one or a later one.
fn without_first(ended: Result<Turn, StepStop>) -> Result<Turn, Stop>
    ensures { result ≡ without_first ended }
{
    match ended {
        Ok(turn) => Ok(turn),
        Err(StepStop::Now(stop) | StepStop::Stopped(stop)) => Err(stop),
    }
}
