// Playing a script of turns, line by line.
ghost use Rattle.std.specs.Prelude.{◌≡◌, ◌≤◌, [], None, Ok, length, IsTrue, OnOk};
ghost use Rattle.gx_schema.specs.WellFormed.{IsWellFormed};
ghost use Rattle.gx_commands.specs.Lines.{longest_line};
ghost use Rattle.std.specs.List.{list_any};
ghost use Rattle.gx_reader.specs.Reader.{IsOpen};
ghost use Rattle.gx_reader.specs.Pieces.{IsTaken};
ghost use Rattle.gx_sharing.specs.Sharing.{sessions as the_sessions};
ghost use Rattle.gx_sessions.specs.Turns.{schema_of, leaves_of, stop_of, is_in_at, IsReady};
ghost use Rattle.gx_play.specs.Plays.{CountsFailed, is_play_fault};
ghost use Rattle.gx_shares.specs.Steps.{KeepsSessions};
ghost use Rattle.gx_shares.specs.Carried.{as_play};
ghost use Rattle.gx_shares.specs.Going.{PlaysLine, PlaysPiece, PlaysLast, PlaysRest, PlaysHeard, KeepsHeard};
ghost use Rattle.gx_shares.specs.Reads.{ReadsLine, ReadsPiece, ReadsLast, ReadsRest, ReadsHeard};

use crate::carry::play_line;
use gx_commands::LineWhy;
use gx_play::{LineEnd, PIECE_LEN, PlayEnd, next_line};
use gx_ports::{Leaves, Stop};
use gx_reader::LineReader;
use gx_sessions::Sessions;
use gx_values::Octets;
use std::alloc::Global;

/// Hears a script of turns in pieces and plays it, up to its end or the line that ends it. What a
/// turn says is said whole before the next line is carried out, and before more is heard; `out` is
/// room for an answer. On a device that tells its content, from sessions that stand for the start
/// of a play, exactly what the turns say was said, up to the line that ends it, and the last kept
/// state is in the kept leaves; after `Stop` what the first turns say, and their last kept state;
/// after `Stop(Fault)` a front of what they say. A line at which the play ends is the first bad one
/// of the script, or its last one, where a session is in a transaction behind it. After `Ok` the
/// script was heard to its end. `Fault` comes also where the script can't be heard, behind what
/// whole turns say.
pub(crate) fn play_heard<B: Leaves + Drop>(
    alloc: Global,
    sessions: &mut Sessions<B>,
    out: &mut Octets,
) -> Result<(), PlayEnd>
    requires ready { IsReady B.View sessions.old }
    requires well_formed { IsWellFormed (schema_of sessions.old) }
    requires going { stop_of sessions.old ≡ None }
    ensures played { IsTrue B.tells → PlaysHeard B.View sessions.old sessions.new result }
    ensures heard { IsTrue B.tells → result ≡ Ok tt →
        (B.content (leaves_of sessions.new)).script ≡ [] }
    ensures reads { IsTrue B.tells → ReadsHeard (schema_of sessions.old)
        (B.content (leaves_of sessions.old)).script sessions.old result }
    ensures keeps { KeepsHeard B.View sessions.old sessions.new }
    ensures counts { CountsFailed (B.faults (leaves_of sessions.old))
        (B.faults (leaves_of sessions.new)) (is_play_fault result) }
{
    let mut reader = LineReader::new();
    let mut piece = [0u8; PIECE_LEN];
    loop {
        let Ok(count) = sessions.hear(&mut piece) else {
            return Err(PlayEnd::Stop(Stop::Fault));
        };
        if count == 0 {
            return play_rest(alloc, &mut reader, sessions, out);
        }
        play_piece(alloc, &piece[..count], &mut reader, sessions, out)?;
    }
}

// Plays the lines that end in a piece of a script.
fn play_piece<B: Leaves + Drop>(
    alloc: Global,
    piece: &[u8],
    reader: &mut LineReader,
    sessions: &mut Sessions<B>,
    out: &mut Octets,
) -> Result<(), PlayEnd>
    requires ready { IsReady B.View sessions.old }
    requires well_formed { IsWellFormed (schema_of sessions.old) }
    requires going { stop_of sessions.old ≡ None }
    requires open { IsOpen reader.old }
    ensures played { IsTrue B.tells →
        PlaysPiece B.View piece.now reader.old reader.new sessions.old sessions.new result }
    ensures reads { ReadsPiece piece.now reader.old reader.new sessions.old sessions.new result }
    ensures keeps { KeepsSessions B.View sessions.old sessions.new }
    ensures going { OnOk result (stop_of sessions.new ≡ None) }
    ensures taken { OnOk result (IsTaken (length piece.now) reader.old reader.new) }
    ensures counts { CountsFailed (B.faults (leaves_of sessions.old))
        (B.faults (leaves_of sessions.new)) (is_play_fault result) }
{
    let mut rest = piece;
    while let Some(count) = next_line(reader, rest)? {
        rest = &rest[count..];
        play_numbered(alloc, reader.number(), reader.line(), sessions, out)?;
    }
    Ok(())
}

// Plays what is left of a script whose last byte was fed, and ends there.
fn play_rest<B: Leaves + Drop>(
    alloc: Global,
    reader: &mut LineReader,
    sessions: &mut Sessions<B>,
    out: &mut Octets,
) -> Result<(), PlayEnd>
    requires ready { IsReady B.View sessions.old }
    requires well_formed { IsWellFormed (schema_of sessions.old) }
    requires going { stop_of sessions.old ≡ None }
    requires open { IsOpen reader.old }
    ensures played { IsTrue B.tells →
        PlaysRest B.View reader.old sessions.old sessions.new result }
    ensures reads { ReadsRest reader.old sessions.old result }
    ensures keeps { KeepsSessions B.View sessions.old sessions.new }
    ensures counts { CountsFailed (B.faults (leaves_of sessions.old))
        (B.faults (leaves_of sessions.new)) (is_play_fault result) }
{
    play_last(alloc, reader, sessions, out)?;
    if any_inside(sessions) {
        return Err(PlayEnd::Line(reader.number(), LineWhy::OpenTransaction));
    }
    Ok(())
}

// Plays the last line of a script, where it has no LF.
fn play_last<B: Leaves + Drop>(
    alloc: Global,
    reader: &mut LineReader,
    sessions: &mut Sessions<B>,
    out: &mut Octets,
) -> Result<(), PlayEnd>
    requires ready { IsReady B.View sessions.old }
    requires well_formed { IsWellFormed (schema_of sessions.old) }
    requires going { stop_of sessions.old ≡ None }
    requires open { IsOpen reader.old }
    ensures played { IsTrue B.tells →
        PlaysLast B.View reader.old reader.new sessions.old sessions.new result }
    ensures reads { ReadsLast reader.old reader.new sessions.old sessions.new result }
    ensures keeps { KeepsSessions B.View sessions.old sessions.new }
    ensures counts { CountsFailed (B.faults (leaves_of sessions.old))
        (B.faults (leaves_of sessions.new)) (is_play_fault result) }
{
    if !reader.last_line() {
        return Ok(());
    }
    play_numbered(alloc, reader.number(), reader.line(), sessions, out)
}

// Whether one of the eight sessions is in a transaction, also in one that was ended.
fn any_inside<B: Leaves + Drop>(sessions: &Sessions<B>) -> bool
    requires ready { IsReady B.View sessions.now }
    ensures { result ≡ list_any (is_in_at sessions.now) the_sessions }
{
    for session in 1..9 {
        if sessions.inside(session) {
            return true;
        }
    }
    false
}

// Carries out the line of this number.
fn play_numbered<B: Leaves + Drop>(
    alloc: Global,
    number: u32,
    line: &[u8],
    sessions: &mut Sessions<B>,
    out: &mut Octets,
) -> Result<(), PlayEnd>
    requires ready { IsReady B.View sessions.old }
    requires well_formed { IsWellFormed (schema_of sessions.old) }
    requires going { stop_of sessions.old ≡ None }
    requires short { length line.now ≤ longest_line }
    ensures played { IsTrue B.tells →
        PlaysLine B.View number line.now sessions.old sessions.new result }
    ensures reads { ReadsLine number line.now sessions.old sessions.new result }
    ensures keeps { KeepsSessions B.View sessions.old sessions.new }
    ensures going { OnOk result (stop_of sessions.new ≡ None) }
    ensures counts { CountsFailed (B.faults (leaves_of sessions.old))
        (B.faults (leaves_of sessions.new)) (is_play_fault result) }
{
    at_line(number, play_line(alloc, line, sessions, out))
}

// How the play ended where the line of this number ended so.
fn at_line(number: u32, ended: Result<(), LineEnd>) -> Result<(), PlayEnd>
    ensures { result ≡ as_play number ended }
{
    match ended {
        Ok(()) => Ok(()),
        Err(LineEnd::Bad(why)) => Err(PlayEnd::Line(number, why)),
        Err(LineEnd::Stop(stop)) => Err(PlayEnd::Stop(stop)),
    }
}
