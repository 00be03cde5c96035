// The lines of a script that comes in pieces, one after the other, and what they ask for.
ghost use Rattle.std.specs.Prelude.{◌≡◌, ◌^◌, ◌<◌, ◌≤◌, ◌++◌, ℕ, List, None, Ok, Err, length, IfOk, IfErr, IfSome};
ghost use Rattle.gx_schema.specs.WellFormed.{IsWellFormed};
ghost use Rattle.gx_commands.specs.Commands.{IsOfSchema, conds_of, place_reason};
ghost use Rattle.gx_script.specs.Grammar.{IsLineOf};
ghost use Rattle.gx_commands.specs.Lines.{longest_line};
ghost use Rattle.gx_reader.specs.Reader.{meant, number_of, IsOpen};
ghost use Rattle.gx_model.specs.Runs.{IsBadLine as IsBadCommandLine};
ghost use Rattle.gx_script.specs.Paths.{is_path, IsPathLine, IsPathReading};
ghost use Rattle.gx_walks.specs.Directions.{IsDuePath};
ghost use Rattle.gx_play.specs.Asked.{IsAsked, IsAskedOf, IsBadLine};
ghost use Rattle.gx_play.specs.Plays.{IsBadAt, IsLineEnd};
ghost use Rattle.gx_reader.specs.Pieces.{IsNextIn, Passes, taken_of, lines_of};

use crate::carry::LineEnd;
use crate::play::PlayEnd;
use gx_commands::{Command, LineWhy, NoCommand, PathQuery, allowed};
use gx_paths::{is_path, read_path};
use gx_ports::Stop;
use gx_reader::LineReader;
use gx_schema::Schema;
use gx_script::read_command;
use std::alloc::Global;

/// How many bytes of a script are asked for at once.
pub const PIECE_LEN: usize = 4096;

/// Takes bytes of a piece up to the end of the next line, and answers how many. `None`: no line
/// ends in the piece, and all of it was taken. `Line`: the next line can't be had, for a limit of
/// lines or of scripts.
pub fn next_line(reader: &mut LineReader, piece: &[u8]) -> Result<Option<usize>, PlayEnd>
    requires open { IsOpen reader.old }
    ensures next { (rest : List ℕ) → IfOk result
        (λ found. IsNextIn found piece.now rest reader.old reader.new) }
    ensures none { (rest : List ℕ) → IfErr result
        (IsLineEnd (meant reader.old (piece.now ++ rest)) (number_of reader.old)) }
    ensures passes { IfOk result (λ found. Passes reader.old reader.new
        (taken_of found (length piece.now)) (lines_of found)) }
    ensures within { IfOk result (λ found. IfSome found
        (λ count. (0 < count) × (count ≤ length piece.now))) }
{
    match reader.next_line(piece) {
        Ok(found) => Ok(found),
        Err(why) => Err(PlayEnd::Line(reader.number(), why)),
    }
}

/// What a line asks for.
#[derive(Debug, Drop)]
pub enum Asked {
    /// To carry out a command.
    Command(Command),
    /// The records at the end of a path.
    Path(PathQuery),
}

/// What a line asks for: a path where its first word is `path`, which may stand anywhere, else a
/// command, which may stand inside a transaction or outside, as is told. `Bad`: it means neither,
/// or a command that may not stand there. `Stop`: there was no memory for it.
pub fn asked_line(
    alloc: Global,
    schema: &Schema,
    inside: bool,
    line: &[u8],
) -> Result<Asked, LineEnd>
    requires well_formed { IsWellFormed schema.now }
    requires short { length line.now ≤ longest_line }
    ensures read { IfOk result (IsAsked schema.now inside line.now) }
    ensures of_schema { IfOk result (IsAskedOf schema.now) }
    ensures bad { (why : LineWhy) → result ≡ Err (LineEnd.Bad why) →
        IsBadLine schema.now inside line.now why }
    ensures unread { (stop : Stop) → result ≡ Err (LineEnd.Stop stop) → stop ≡ Stop.NoMemory }
{
    if is_path(line) {
        let query = path_line(alloc, schema, line)?;
        return Ok(Asked::Path(query));
    }
    let command = line_command(alloc, schema, inside, line)?;
    Ok(Asked::Command(command))
}

// The path that a line means whose first word is `path`.
fn path_line(alloc: Global, schema: &Schema, line: &[u8]) -> Result<PathQuery, LineEnd>
    requires well_formed { IsWellFormed schema.now }
    requires short { length line.now ≤ longest_line }
    ensures read { IfOk result (IsPathLine schema.now line.now) }
    ensures due { IfOk result (IsDuePath schema.now) }
    ensures bad { (why : LineWhy) → result ≡ Err (LineEnd.Bad why) →
        IsPathReading schema.now line.now (Err why) }
    ensures unread { (stop : Stop) → result ≡ Err (LineEnd.Stop stop) → stop ≡ Stop.NoMemory }
{
    match read_path(alloc, schema, line) {
        Ok(query) => Ok(query),
        Err(NoCommand::Bad(why)) => Err(LineEnd::Bad(why)),
        Err(NoCommand::NoMemory) => Err(LineEnd::Stop(Stop::NoMemory)),
    }
}

/// The command of a line, which may stand inside a transaction or outside, as is told. `Bad`: it
/// means none, or one that may not stand there. `Stop`: there was no memory for it.
#[tactic(auto, unfolding(gx_commands::specs::Lines::longest_line))]
pub fn line_command(
    alloc: Global,
    schema: &Schema,
    inside: bool,
    line: &[u8],
) -> Result<Command, LineEnd>
    requires well_formed { IsWellFormed schema.now }
    requires short { length line.now ≤ longest_line }
    ensures read { IfOk result (IsLineOf schema.now line.now) }
    ensures of_schema { IfOk result (IsOfSchema schema.now) }
    ensures few { IfOk result (λ command. length (conds_of command) < 2 ^ 16) }
    ensures placed { IfOk result (λ command. place_reason inside command ≡ None) }
    ensures bad { (why : LineWhy) → result ≡ Err (LineEnd.Bad why) →
        IsBadCommandLine schema.now inside line.now why }
    ensures unread { (stop : Stop) → result ≡ Err (LineEnd.Stop stop) → stop ≡ Stop.NoMemory }
{
    let command = match read_command(alloc, schema, line) {
        Ok(command) => command,
        Err(NoCommand::Bad(why)) => return Err(LineEnd::Bad(why)),
        Err(NoCommand::NoMemory) => return Err(LineEnd::Stop(Stop::NoMemory)),
    };
    match allowed(inside, &command) {
        Ok(()) => Ok(command),
        Err(why) => Err(LineEnd::Bad(why)),
    }
}

/// What the line of this number asks for, as of `asked_line`.
pub fn asked_at(
    alloc: Global,
    schema: &Schema,
    inside: bool,
    number: u32,
    line: &[u8],
) -> Result<Asked, PlayEnd>
    requires well_formed { IsWellFormed schema.now }
    requires short { length line.now ≤ longest_line }
    ensures read { IfOk result (IsAsked schema.now inside line.now) }
    ensures of_schema { IfOk result (IsAskedOf schema.now) }
    ensures bad { (n : ℕ) (why : LineWhy) → result ≡ Err (PlayEnd.Line n why) →
        IsBadAt schema.now inside number line.now n why }
    ensures unread { (stop : Stop) → result ≡ Err (PlayEnd.Stop stop) → stop ≡ Stop.NoMemory }
{
    match asked_line(alloc, schema, inside, line) {
        Ok(asked) => Ok(asked),
        Err(LineEnd::Bad(why)) => Err(PlayEnd::Line(number, why)),
        Err(LineEnd::Stop(stop)) => Err(PlayEnd::Stop(stop)),
    }
}
