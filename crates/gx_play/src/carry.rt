// Carrying out one line of a script on an engine.
ghost use Rattle.std.specs.Prelude.{◌≡◌, ◌≤◌, None, Err, length, IsTrue, IfOk, OnOk, OnErr, false};
ghost use Rattle.gx_device.specs.Content.{Content};
ghost use Rattle.gx_schema.specs.WellFormed.{IsWellFormed};
ghost use Rattle.gx_ports.specs.Stops.{is_fault};
ghost use Rattle.gx_engine.specs.Steps.{IsReady, IsAt, schema_of, built_of, is_open, stop_of, leaves_of};
ghost use Rattle.gx_model.specs.Play.{Playing};
ghost use Rattle.gx_commands.specs.Lines.{longest_line};
ghost use Rattle.gx_play.specs.Asked.{IsAsked, IsBadLine, inside_behind};
ghost use Rattle.gx_play.specs.Carrying.{IsDueAsked, IsAskedStep, without_first};
ghost use Rattle.gx_play.specs.Answering.{are_told, beside, with_answers};
ghost use Rattle.gx_play.specs.Plays.{IsLinePlayed, IsAskedPlayed, IsGivenUp, IsAskedGivenUp, HasPlayCause, KeepsPlayed, CountsFailed, is_line_fault};
ghost use Rattle.gx_play.specs.Images.{LeavesLine, LeavesAsked};
ghost use Rattle.gx_play.specs.Readings.{IsReadLine};

use crate::lines::{Asked, asked_line};
use crate::play::Answers;
use crate::say::answer_all;
use gx_commands::LineWhy;
use gx_engine::{Engine, StepStop};
use gx_ports::{Leaves, Stop};
use gx_values::Octets;
use gx_walks::answer_path;
use std::alloc::Global;

/// Why a line isn't carried out.
#[derive(Clone, Copy, Debug)]
pub enum LineEnd {
    /// It means no path, and no command that may stand there.
    Bad(LineWhy),
    /// It was given up.
    Stop(Stop),
}

impl From<Stop> for LineEnd {
    ghost use Rattle.gx_play.specs.declared.carry.LineEnd.TheVariants as line_end;

    ghost from_gives = { λ s e. e ≡ line_end.Stop s };

    fn from(stop: Stop) -> Self {
        LineEnd::Stop(stop)
    }
}

/// Carries out a line, and says its answer whole or keeps it. After `Bad` nothing happened. After
/// `Stop` none of its answer was said, and what was last committed stays; after `Stop(Fault)` a
/// front of its answer, behind which it was carried out, or none of it, where what was last
/// committed stays unless the line is a `commit`. A crash within the call leaves the state that was
/// kept before the line, with none of its answer said, or the one that is kept after it, with a
/// front of it.
pub fn play_line<B: Leaves + Drop>(
    alloc: Global,
    line: &[u8],
    answers: Answers,
    engine: &mut Engine<B>,
    out: &mut Octets,
) -> Result<(), LineEnd>
    requires ready { IsReady B.View engine.old }
    requires well_formed { IsWellFormed (schema_of engine.old) }
    requires going { stop_of engine.old ≡ None }
    requires short { length line.now ≤ longest_line }
    ensures played { (p : Playing) → IsAt B.View p engine.old → OnOk result
        (IsLinePlayed (beside B.View answers) p line.now (with_answers engine.old out.old)
        (with_answers engine.new out.new)) }
    ensures bad { (why : LineWhy) → result ≡ Err (LineEnd.Bad why) →
        IsBadLine (schema_of engine.old) (is_open engine.old) line.now why
        × (with_answers engine.new out.new ≡ with_answers engine.old out.old) }
    ensures given_up { IsTrue (are_told B.tells answers) → (p : Playing) →
        IsAt B.View p engine.old →
        (stop : Stop) → result ≡ Err (LineEnd.Stop stop) →
        IsGivenUp (beside B.View answers) p line.now (with_answers engine.old out.old)
        (with_answers engine.new out.new) stop }
    ensures cause { (p : Playing) → IsAt B.View p engine.old → (stop : Stop) →
        result ≡ Err (LineEnd.Stop stop) →
        HasPlayCause (B.limit (leaves_of engine.old)) (B.faults (leaves_of engine.old))
        (B.faults (leaves_of engine.new)) stop }
    ensures crash { IsTrue (are_told B.tells answers) → (p : Playing) → IsAt B.View p engine.old →
        (start : Content) → B.calm (leaves_of engine.old) start →
        LeavesLine B.View (schema_of engine.old) (built_of engine.old) answers p line.now
        (is_line_fault result) (leaves_of engine.old) (leaves_of engine.new) }
    ensures keeps { KeepsPlayed B.View answers engine.old engine.new }
    ensures going { OnOk result ((stop_of engine.new ≡ None)
        × IsReadLine (schema_of engine.old) line.now (is_open engine.old) (is_open engine.new)) }
    ensures counts { CountsFailed (B.faults (leaves_of engine.old))
        (B.faults (leaves_of engine.new)) (is_line_fault result) }
{
    let asked = due_line(alloc, line, engine)?;
    carry_out(alloc, asked, answers, engine, out)?;
    Ok(())
}

// What a line asks for, which may stand where the engine is.
fn due_line<B: Leaves + Drop>(
    alloc: Global,
    line: &[u8],
    engine: &Engine<B>,
) -> Result<Asked, LineEnd>
    requires well_formed { IsWellFormed (schema_of engine.now) }
    requires short { length line.now ≤ longest_line }
    ensures read { IfOk result (IsAsked (schema_of engine.now) (is_open engine.now) line.now) }
    ensures due { IfOk result (IsDueAsked engine.now) }
    ensures bad { (why : LineWhy) → result ≡ Err (LineEnd.Bad why) →
        IsBadLine (schema_of engine.now) (is_open engine.now) line.now why }
    ensures unread { (stop : Stop) → result ≡ Err (LineEnd.Stop stop) → stop ≡ Stop.NoMemory }
{
    asked_line(alloc, engine.schema(), engine.inside(), line)
}

// Carries out what is asked for, and says its answer whole or keeps it.
fn carry_out<B: Leaves + Drop>(
    alloc: Global,
    asked: Asked,
    answers: Answers,
    engine: &mut Engine<B>,
    out: &mut Octets,
) -> Result<(), Stop>
    requires ready { IsReady B.View engine.old }
    requires well_formed { IsWellFormed (schema_of engine.old) }
    requires due { IsDueAsked engine.old asked }
    requires going { stop_of engine.old ≡ None }
    ensures answered { (p : Playing) → IsAt B.View p engine.old → OnOk result
        (IsAskedPlayed (beside B.View answers) p asked (with_answers engine.old out.old)
        (with_answers engine.new out.new)) }
    ensures given_up { IsTrue (are_told B.tells answers) → (p : Playing) →
        IsAt B.View p engine.old →
        (stop : Stop) → result ≡ Err stop →
        IsAskedGivenUp (beside B.View answers) p asked (with_answers engine.old out.old)
        (with_answers engine.new out.new) stop }
    ensures cause { (p : Playing) → IsAt B.View p engine.old → (stop : Stop) → result ≡ Err stop →
        HasPlayCause (B.limit (leaves_of engine.old)) (B.faults (leaves_of engine.old))
        (B.faults (leaves_of engine.new)) stop }
    ensures crash { IsTrue (are_told B.tells answers) → (p : Playing) → IsAt B.View p engine.old →
        (start : Content) → B.calm (leaves_of engine.old) start →
        LeavesAsked B.View (schema_of engine.old) (built_of engine.old) answers p asked
        (is_fault result) (leaves_of engine.old) (leaves_of engine.new) }
    ensures keeps { KeepsPlayed B.View answers engine.old engine.new }
    ensures going { OnOk result (stop_of engine.new ≡ None) }
    ensures inside { OnOk result (is_open engine.new ≡ inside_behind (is_open engine.old) asked) }
    ensures counts { CountsFailed (B.faults (leaves_of engine.old))
        (B.faults (leaves_of engine.new)) (is_fault result) }
{
    match answers {
        Answers::Said => {
            out.0.clear();
            step(alloc, asked, engine, out)?;
            answer_all(engine, out.as_slice())?;
            Ok(())
        }
        Answers::Kept => step(alloc, asked, engine, out),
    }
}

// Carries out what is asked for and appends its answer.
fn step<B: Leaves + Drop>(
    alloc: Global,
    asked: Asked,
    engine: &mut Engine<B>,
    out: &mut Octets,
) -> Result<(), Stop>
    requires ready { IsReady B.View engine.old }
    requires well_formed { IsWellFormed (schema_of engine.old) }
    requires due { IsDueAsked engine.old asked }
    requires going { stop_of engine.old ≡ None }
    ensures step { IsAskedStep B.View engine.old engine.new asked out.old out.new result }
{
    match asked {
        Asked::Command(command) => without_first(engine.step(alloc, command, out)),
        Asked::Path(query) => without_first(answer_path(alloc, engine, &query, out)),
    }
}

// How a step ended, where its stop is the first one or a later one.
fn without_first(ended: Result<(), StepStop>) -> Result<(), Stop>
    ensures { result ≡ without_first ended }
{
    match ended {
        Ok(()) => Ok(()),
        Err(StepStop::Now(stop) | StepStop::Stopped(stop)) => Err(stop),
    }
}
