// Playing a script on an engine, line by line.
ghost use Rattle.std.specs.Prelude.{◌≡◌, ◌≤◌, ℕ, [], None, Ok, Err, length, IsTrue, OnOk};
ghost use Rattle.gx_schema.specs.WellFormed.{IsWellFormed};
ghost use Rattle.gx_engine.specs.Steps.{IsReady, IsAt, schema_of, built_of, is_open, stop_of, leaves_of};
ghost use Rattle.gx_model.specs.Play.{Playing};
ghost use Rattle.gx_commands.specs.Lines.{longest_line, script_lines};
ghost use Rattle.gx_play.specs.Answering.{are_told, beside, with_answers};
ghost use Rattle.gx_play.specs.Plays.{IsLinePlayed, IsGivenUp, HasPlayCause, KeepsPlayed, CountsFailed, IsBadAt, IsPlayedTo, is_play_fault};
ghost use Rattle.gx_device.specs.Content.{Content};
ghost use Rattle.gx_play.specs.Images.{LeavesLine, LeavesPlay, LeavesPiece, LeavesRest};
ghost use Rattle.gx_play.specs.Readings.{IsReadLine, IsReadOut, ReadsPiece, ReadsLast, ReadsRest};
ghost use Rattle.gx_reader.specs.Reader.{IsOpen};
ghost use Rattle.gx_play.specs.Pieces.{PlaysPiece, PlaysLast, PlaysRest, GoesOn, KeepsHeard};
ghost use Rattle.gx_reader.specs.Pieces.{IsTaken};

use crate::carry::{LineEnd, play_line};
use crate::lines::{PIECE_LEN, next_line};
use gx_commands::LineWhy;
use gx_engine::Engine;
use gx_ports::{Leaves, Stop};
use gx_reader::LineReader;
use gx_values::Octets;
use std::alloc::Global;

/// What becomes of the answers of a play.
#[derive(Clone, Copy, Debug)]
pub enum Answers {
    /// The machine says each of them, before the next line is carried out.
    Said,
    /// They are kept in memory, and nothing is said.
    Kept,
}

/// Why a script isn't played to its end.
#[derive(Clone, Copy, Debug)]
pub enum PlayEnd {
    /// The line of this number, counted from 1, ends it.
    Line(u32, LineWhy),
    /// A line was given up.
    Stop(Stop),
}

impl From<Stop> for PlayEnd {
    ghost use Rattle.gx_play.specs.declared.play.PlayEnd.TheVariants as play_end;

    ghost from_gives = { λ s e. e ≡ play_end.Stop s };

    fn from(stop: Stop) -> Self {
        PlayEnd::Stop(stop)
    }
}

// Carries out the line of this number, as `play_line` does.
fn play_numbered<B: Leaves + Drop>(
    alloc: Global,
    number: u32,
    line: &[u8],
    answers: Answers,
    engine: &mut Engine<B>,
    out: &mut Octets,
) -> Result<(), PlayEnd>
    requires ready { IsReady B.View engine.old }
    requires well_formed { IsWellFormed (schema_of engine.old) }
    requires going { stop_of engine.old ≡ None }
    requires short { length line.now ≤ longest_line }
    ensures played { (p : Playing) → IsAt B.View p engine.old → OnOk result
        (IsLinePlayed (beside B.View answers) p line.now (with_answers engine.old out.old)
        (with_answers engine.new out.new)) }
    ensures bad { (n : ℕ) (why : LineWhy) → result ≡ Err (PlayEnd.Line n why) →
        IsBadAt (schema_of engine.old) (is_open engine.old) number line.now n why
        × (with_answers engine.new out.new ≡ with_answers engine.old out.old) }
    ensures given_up { IsTrue (are_told B.tells answers) → (p : Playing) →
        IsAt B.View p engine.old →
        (stop : Stop) → result ≡ Err (PlayEnd.Stop stop) →
        IsGivenUp (beside B.View answers) p line.now (with_answers engine.old out.old)
        (with_answers engine.new out.new) stop }
    ensures cause { (p : Playing) → IsAt B.View p engine.old → (stop : Stop) →
        result ≡ Err (PlayEnd.Stop stop) →
        HasPlayCause (B.limit (leaves_of engine.old)) (B.faults (leaves_of engine.old))
        (B.faults (leaves_of engine.new)) stop }
    ensures crash { IsTrue (are_told B.tells answers) → (p : Playing) → IsAt B.View p engine.old →
        (start : Content) → B.calm (leaves_of engine.old) start →
        LeavesLine B.View (schema_of engine.old) (built_of engine.old) answers p line.now
        (is_play_fault result) (leaves_of engine.old) (leaves_of engine.new) }
    ensures keeps { KeepsPlayed B.View answers engine.old engine.new }
    ensures going { OnOk result ((stop_of engine.new ≡ None)
        × IsReadLine (schema_of engine.old) line.now (is_open engine.old) (is_open engine.new)) }
    ensures counts { CountsFailed (B.faults (leaves_of engine.old))
        (B.faults (leaves_of engine.new)) (is_play_fault result) }
{
    match play_line(alloc, line, answers, engine, out) {
        Ok(()) => Ok(()),
        Err(LineEnd::Bad(why)) => Err(PlayEnd::Line(number, why)),
        Err(LineEnd::Stop(stop)) => Err(PlayEnd::Stop(stop)),
    }
}

// Plays the lines that end in a piece of a script. Each answer is said whole before the next line
// is carried out, or all of them are kept.
fn play_piece<B: Leaves + Drop>(
    alloc: Global,
    piece: &[u8],
    answers: Answers,
    reader: &mut LineReader,
    engine: &mut Engine<B>,
    out: &mut Octets,
) -> Result<(), PlayEnd>
    requires ready { IsReady B.View engine.old }
    requires well_formed { IsWellFormed (schema_of engine.old) }
    requires going { stop_of engine.old ≡ None }
    requires open { IsOpen reader.old }
    ensures played { IsTrue (are_told B.tells answers) →
        PlaysPiece (beside B.View answers) piece.now reader.old reader.new
        (with_answers engine.old out.old) (with_answers engine.new out.new) result }
    ensures crash { IsTrue (are_told B.tells answers) →
        LeavesPiece B.View answers piece.now reader.old engine.old engine.new out.old
        (is_play_fault result) }
    ensures stands { OnOk result (GoesOn B.View engine.old engine.new) }
    ensures cause { (p : Playing) → IsAt B.View p engine.old → (stop : Stop) →
        result ≡ Err (PlayEnd.Stop stop) →
        HasPlayCause (B.limit (leaves_of engine.old)) (B.faults (leaves_of engine.old))
        (B.faults (leaves_of engine.new)) stop }
    ensures keeps { KeepsPlayed B.View answers engine.old engine.new }
    ensures going { OnOk result ((stop_of engine.new ≡ None)
        × IsTaken (length piece.now) reader.old reader.new) }
    ensures counts { CountsFailed (B.faults (leaves_of engine.old))
        (B.faults (leaves_of engine.new)) (is_play_fault result) }
    ensures reads { ReadsPiece (schema_of engine.old) piece.now reader.old reader.new
        (is_open engine.old) (is_open engine.new) result }
{
    let mut rest = piece;
    while let Some(count) = next_line(reader, rest)? {
        rest = &rest[count..];
        play_numbered(alloc, reader.number(), reader.line(), answers, engine, out)?;
    }
    Ok(())
}

// Plays the last line of a script, where it has no LF.
fn play_last<B: Leaves + Drop>(
    alloc: Global,
    answers: Answers,
    reader: &mut LineReader,
    engine: &mut Engine<B>,
    out: &mut Octets,
) -> Result<(), PlayEnd>
    requires ready { IsReady B.View engine.old }
    requires well_formed { IsWellFormed (schema_of engine.old) }
    requires going { stop_of engine.old ≡ None }
    requires open { IsOpen reader.old }
    ensures played { IsTrue (are_told B.tells answers) →
        PlaysLast (beside B.View answers) reader.old reader.new
        (with_answers engine.old out.old) (with_answers engine.new out.new) result }
    ensures crash { IsTrue (are_told B.tells answers) →
        LeavesRest B.View answers reader.old engine.old engine.new out.old (is_play_fault result) }
    ensures stands { OnOk result (GoesOn B.View engine.old engine.new) }
    ensures cause { (p : Playing) → IsAt B.View p engine.old → (stop : Stop) →
        result ≡ Err (PlayEnd.Stop stop) →
        HasPlayCause (B.limit (leaves_of engine.old)) (B.faults (leaves_of engine.old))
        (B.faults (leaves_of engine.new)) stop }
    ensures keeps { KeepsPlayed B.View answers engine.old engine.new }
    ensures going { OnOk result (stop_of engine.new ≡ None) }
    ensures counts { CountsFailed (B.faults (leaves_of engine.old))
        (B.faults (leaves_of engine.new)) (is_play_fault result) }
    ensures reads { ReadsLast (schema_of engine.old) reader.old reader.new (is_open engine.old)
        (is_open engine.new) result }
{
    if !reader.last_line() {
        return Ok(());
    }
    play_numbered(alloc, reader.number(), reader.line(), answers, engine, out)
}

// Plays what is left of a script whose last byte was fed, and ends there.
fn play_rest<B: Leaves + Drop>(
    alloc: Global,
    answers: Answers,
    reader: &mut LineReader,
    engine: &mut Engine<B>,
    out: &mut Octets,
) -> Result<(), PlayEnd>
    requires ready { IsReady B.View engine.old }
    requires well_formed { IsWellFormed (schema_of engine.old) }
    requires going { stop_of engine.old ≡ None }
    requires open { IsOpen reader.old }
    ensures played { IsTrue (are_told B.tells answers) →
        PlaysRest (beside B.View answers) reader.old
        (with_answers engine.old out.old) (with_answers engine.new out.new) result }
    ensures crash { IsTrue (are_told B.tells answers) →
        LeavesRest B.View answers reader.old engine.old engine.new out.old (is_play_fault result) }
    ensures cause { (p : Playing) → IsAt B.View p engine.old → (stop : Stop) →
        result ≡ Err (PlayEnd.Stop stop) →
        HasPlayCause (B.limit (leaves_of engine.old)) (B.faults (leaves_of engine.old))
        (B.faults (leaves_of engine.new)) stop }
    ensures keeps { KeepsPlayed B.View answers engine.old engine.new }
    ensures going { OnOk result (stop_of engine.new ≡ None) }
    ensures counts { CountsFailed (B.faults (leaves_of engine.old))
        (B.faults (leaves_of engine.new)) (is_play_fault result) }
    ensures reads { ReadsRest (schema_of engine.old) reader.old (is_open engine.old) result }
{
    play_last(alloc, answers, reader, engine, out)?;
    if engine.inside() {
        return Err(PlayEnd::Line(reader.number(), LineWhy::OpenTransaction));
    }
    Ok(())
}

/// Plays a script line by line, up to its end or the line that ends it. Each answer is said whole
/// before the next line is carried out, and `out` is the room for it; or all of them are appended
/// to `out`, and nothing is said. Where they are kept, or said on a device that tells its content:
/// after `Ok` and `Line` exactly the answers of the play were given, it ends there, and the engine
/// stands for its last moment; after `Stop` exactly the answers of the first lines, and the kept
/// leaves stand for the last state that these kept; after `Stop(Fault)` a front of the answers.
/// After that the engine stands behind the lines whose answers were said; or what they committed
/// last stays, unless the next line is a `commit`, of which nothing was said. Of a stop, `Fault`
/// comes only where the count of faults rose, `Full` only where the pages may be too few for the
/// command of the next line, which changes records or links, isn't refused and is no `delete`, or
/// is a `reorganize`, and `Damaged` never where the leaves hold a state. A crash within the call
/// leaves the last state that some first lines kept, with their answers said but perhaps for an end
/// of the last one's; where they are kept, with nothing said.
pub fn play_script<B: Leaves + Drop>(
    alloc: Global,
    script: &[u8],
    answers: Answers,
    engine: &mut Engine<B>,
    out: &mut Octets,
) -> Result<(), PlayEnd>
    requires ready { IsReady B.View engine.old }
    requires well_formed { IsWellFormed (schema_of engine.old) }
    requires going { stop_of engine.old ≡ None }
    ensures played { IsTrue (are_told B.tells answers) → (p : Playing) → IsAt B.View p engine.old →
        IsPlayedTo (beside B.View answers) p (script_lines script.now)
        (with_answers engine.old out.old) (with_answers engine.new out.new) result }
    ensures crash { IsTrue (are_told B.tells answers) → (p : Playing) → IsAt B.View p engine.old →
        (start : Content) → B.calm (leaves_of engine.old) start →
        LeavesPlay B.View (schema_of engine.old) (built_of engine.old) answers p
        (script_lines script.now).lines (is_play_fault result) (leaves_of engine.old)
        (leaves_of engine.new) }
    ensures cause { (p : Playing) → IsAt B.View p engine.old → (stop : Stop) →
        result ≡ Err (PlayEnd.Stop stop) →
        HasPlayCause (B.limit (leaves_of engine.old)) (B.faults (leaves_of engine.old))
        (B.faults (leaves_of engine.new)) stop }
    ensures keeps { KeepsPlayed B.View answers engine.old engine.new }
    ensures going { OnOk result (stop_of engine.new ≡ None) }
    ensures counts { CountsFailed (B.faults (leaves_of engine.old))
        (B.faults (leaves_of engine.new)) (is_play_fault result) }
{
    let mut reader = LineReader::new();
    play_piece(alloc, script, answers, &mut reader, engine, out)?;
    play_rest(alloc, answers, &mut reader, engine, out)
}

/// Hears a script in pieces and plays it, up to its end or the line that ends it. The answer of
/// each line is said whole before the next line is carried out, and before more is heard; `out` is
/// the room for it. On a device that tells its content it is the play of the script, as of
/// `play_script`, and after `Ok` the script was heard to its end. `Fault` comes also where the
/// script can't be heard, behind whole answers.
pub fn play_heard<B: Leaves + Drop>(
    alloc: Global,
    engine: &mut Engine<B>,
    out: &mut Octets,
) -> Result<(), PlayEnd>
    requires ready { IsReady B.View engine.old }
    requires well_formed { IsWellFormed (schema_of engine.old) }
    requires going { stop_of engine.old ≡ None }
    ensures played { IsTrue B.tells → (p : Playing) → IsAt B.View p engine.old →
        IsPlayedTo (beside B.View Answers.Said) p
        (script_lines (B.content (leaves_of engine.old)).script)
        (with_answers engine.old out.old) (with_answers engine.new out.new) result }
    ensures crash { IsTrue B.tells → (p : Playing) → IsAt B.View p engine.old →
        (start : Content) → B.calm (leaves_of engine.old) start →
        LeavesPlay B.View (schema_of engine.old) (built_of engine.old) Answers.Said p
        (script_lines (B.content (leaves_of engine.old)).script).lines (is_play_fault result)
        (leaves_of engine.old) (leaves_of engine.new) }
    ensures heard { IsTrue B.tells → result ≡ Ok tt →
        (B.content (leaves_of engine.new)).script ≡ [] }
    ensures cause { (p : Playing) → IsAt B.View p engine.old → (stop : Stop) →
        result ≡ Err (PlayEnd.Stop stop) →
        HasPlayCause (B.limit (leaves_of engine.old)) (B.faults (leaves_of engine.old))
        (B.faults (leaves_of engine.new)) stop }
    ensures keeps { KeepsHeard B.View engine.old engine.new }
    ensures counts { CountsFailed (B.faults (leaves_of engine.old))
        (B.faults (leaves_of engine.new)) (is_play_fault result) }
    ensures reads { IsTrue B.tells → IsReadOut (schema_of engine.old) (is_open engine.old)
        (script_lines (B.content (leaves_of engine.old)).script) result }
{
    let mut reader = LineReader::new();
    let mut piece = [0u8; PIECE_LEN];
    loop {
        let Ok(count) = engine.hear(&mut piece) else {
            return Err(PlayEnd::Stop(Stop::Fault));
        };
        if count == 0 {
            return play_rest(alloc, Answers::Said, &mut reader, engine, out);
        }
        let heard = &piece[..count];
        play_piece(alloc, heard, Answers::Said, &mut reader, engine, out)?;
    }
}
