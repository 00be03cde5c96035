// What is said of a script that is explained: how each `find` looks for its records, and from which
// end each path is walked.
ghost use Rattle.std.specs.Prelude.{◌≡◌, ◌≤◌, ◌<◌, ◌^◌, ℕ, Err, length, false, IsTrue, IfOk, IfErr, OnOk};
ghost use Rattle.gx_schema.specs.WellFormed.{IsWellFormed};
ghost use Rattle.gx_commands.specs.Commands.{IsOfSchema, IsFindOf, conds_of, inside_after};
ghost use Rattle.gx_commands.specs.Lines.{longest_line};
ghost use Rattle.gx_types.specs.Nodes.{AreNodes};
ghost use Rattle.gx_planner.specs.Plans.{least_plan};
ghost use Rattle.gx_planner.specs.Texts.{plan_text};
ghost use Rattle.gx_commands.specs.declared.command.LineWhy.{LineWhy};
ghost use Rattle.gx_play.specs.Asked.{IsAskedOf, inside_behind};
ghost use Rattle.gx_play.specs.Plays.{IsBadAt, is_play_fault};
ghost use Rattle.gx_play.specs.Say.{OnlySays, SameDevices};
ghost use Rattle.gx_explain.specs.Explained.{asked_text, command_text};
ghost use Rattle.gx_reader.specs.Reader.{IsOpen};
ghost use Rattle.gx_reader.specs.Pieces.{IsTaken};
ghost use Rattle.gx_explain.specs.Explaining.{fields_in, IsLineExplained, HasEndCause, ExplainsPiece, ExplainsLast, ExplainsLine};

use crate::directions::path_line;
use gx_commands::{Command, Find};
use gx_device::Device;
use gx_finds::indexed_fields;
use gx_planner::{plan, plan_line};
use gx_play::{Asked, PlayEnd, asked_at, next_line, say_all};
use gx_ports::Stop;
use gx_reader::LineReader;
use gx_schema::Schema;
use gx_states::{file_def, file_node};
use gx_types::Built;
use gx_values::{NoMemory, Octets};
use std::alloc::Global;

// What is said of a line, and whether a transaction is open behind it.
#[derive(Drop)]
struct ExplainedLine {
    text: Octets,
    inside: bool,
}

/// Says the plan of each `find` and the direction of each path of the lines that end in a piece of
/// a script of the schema, whose files are stored in these nodes, up to the piece's end or the line
/// that ends it, and answers whether a transaction is open behind them, as is told of before them.
/// No line is carried out, and what a line says is said whole before the next one is read. On a
/// device that tells its content: after `Ok` and `Line` exactly the plans and directions up to
/// there were said; after `Stop` those of the first lines, and after `Stop(Fault)` a front of them. Of a stop, `Fault` comes only where the count of
/// faults rose, and the other one is `NoMemory`. No block is written.
pub fn explain_piece<D: Device>(
    alloc: Global,
    schema: &Schema,
    built: &Built,
    piece: &[u8],
    inside: bool,
    reader: &mut LineReader,
    device: &mut D,
) -> Result<bool, PlayEnd>
    requires well_formed { IsWellFormed schema.now }
    requires nodes { AreNodes schema.now built.now.files (length built.now.specs) }
    requires open { IsOpen reader.old }
    ensures said { IsTrue D.tells →
        ExplainsPiece schema.now (fields_in schema.now built.now.files) piece.now inside reader.old
        reader.new (D.content device.old) (D.content device.new) result }
    ensures taken { OnOk result (IsTaken (length piece.now) reader.old reader.new) }
    ensures cause { IfErr result (HasEndCause (D.faults device.old) (D.faults device.new)) }
    ensures counted { is_play_fault result ≡ false → D.faults device.new ≡ D.faults device.old }
    ensures later { D.faults device.old ≤ D.faults device.new }
    ensures rest { OnlySays (D.content device.old) (D.content device.new) }
    ensures devices { SameDevices (D.content device.old) (D.content device.new) }
{
    let mut rest = piece;
    let mut open = inside;
    while let Some(count) = next_line(reader, rest)? {
        rest = &rest[count..];
        open = explain_line(
            alloc,
            schema,
            built,
            open,
            reader.number(),
            reader.line(),
            device,
        )?;
    }
    Ok(open)
}

/// Says the plan of the last line of a script that ended, where it has no LF, as of
/// `explain_piece`.
pub fn explain_last<D: Device>(
    alloc: Global,
    schema: &Schema,
    built: &Built,
    inside: bool,
    reader: &mut LineReader,
    device: &mut D,
) -> Result<(), PlayEnd>
    requires well_formed { IsWellFormed schema.now }
    requires nodes { AreNodes schema.now built.now.files (length built.now.specs) }
    requires open { IsOpen reader.old }
    ensures said { IsTrue D.tells →
        ExplainsLast schema.now (fields_in schema.now built.now.files) inside reader.old
        (D.content device.old) (D.content device.new) result }
    ensures cause { IfErr result (HasEndCause (D.faults device.old) (D.faults device.new)) }
    ensures counted { is_play_fault result ≡ false → D.faults device.new ≡ D.faults device.old }
    ensures later { D.faults device.old ≤ D.faults device.new }
    ensures rest { OnlySays (D.content device.old) (D.content device.new) }
    ensures devices { SameDevices (D.content device.old) (D.content device.new) }
{
    if !reader.last_line() {
        return Ok(());
    }
    let number = reader.number();
    explain_line(alloc, schema, built, inside, number, reader.line(), device)?;
    Ok(())
}

// Says the plan of the line of this number, and answers whether a transaction is open behind it.
fn explain_line<D: Device>(
    alloc: Global,
    schema: &Schema,
    built: &Built,
    inside: bool,
    number: u32,
    line: &[u8],
    device: &mut D,
) -> Result<bool, PlayEnd>
    requires well_formed { IsWellFormed schema.now }
    requires nodes { AreNodes schema.now built.now.files (length built.now.specs) }
    requires short { length line.now ≤ longest_line }
    ensures said { IsTrue D.tells →
        ExplainsLine schema.now (fields_in schema.now built.now.files) line.now number inside
        (D.content device.old) (D.content device.new) result }
    ensures cause { IfErr result (HasEndCause (D.faults device.old) (D.faults device.new)) }
    ensures counted { is_play_fault result ≡ false → D.faults device.new ≡ D.faults device.old }
    ensures later { D.faults device.old ≤ D.faults device.new }
    ensures rest { OnlySays (D.content device.old) (D.content device.new) }
    ensures devices { SameDevices (D.content device.old) (D.content device.new) }
{
    let explained = explained_line(alloc, schema, built, inside, number, line)?;
    let Ok(()) = say_all(device, explained.text.as_slice()) else {
        return Err(PlayEnd::Stop(Stop::Fault));
    };
    Ok(explained.inside)
}

// What is said of the line of this number, which stands inside a transaction or outside, as is
// told.
fn explained_line(
    alloc: Global,
    schema: &Schema,
    built: &Built,
    inside: bool,
    number: u32,
    line: &[u8],
) -> Result<ExplainedLine, PlayEnd>
    requires well_formed { IsWellFormed schema.now }
    requires nodes { AreNodes schema.now built.now.files (length built.now.specs) }
    requires short { length line.now ≤ longest_line }
    ensures explained { IfOk result
        (IsLineExplained schema.now (fields_in schema.now built.now.files) inside number line.now) }
    ensures bad { (n : ℕ) (why : LineWhy) → result ≡ Err (PlayEnd.Line n why) →
        IsBadAt schema.now inside number line.now n why }
    ensures unread { (stop : Stop) → result ≡ Err (PlayEnd.Stop stop) → stop ≡ Stop.NoMemory }
{
    let asked = asked_at(alloc, schema, inside, number, line)?;
    match asked_text(alloc, schema, built, number, &asked) {
        Ok(text) => Ok(ExplainedLine {
            text,
            inside: inside_behind(inside, &asked),
        }),
        Err(NoMemory) => Err(PlayEnd::Stop(Stop::NoMemory)),
    }
}

// What is said of what the line of this number asks for.
fn asked_text(
    alloc: Global,
    schema: &Schema,
    built: &Built,
    number: u32,
    asked: &Asked,
) -> Result<Octets, NoMemory>
    requires of_schema { IsAskedOf schema.now asked.now }
    requires nodes { AreNodes schema.now built.now.files (length built.now.specs) }
    ensures { IfOk result (λ text.
        text ≡ asked_text schema.now (fields_in schema.now built.now.files) number asked.now) }
{
    match asked {
        Asked::Command(command) => command_text(alloc, schema, built, number, command),
        Asked::Path(query) => path_line(alloc, schema, built, number, query),
    }
}

// What is said of the command of the line of this number: the plan of a `find`.
fn command_text(
    alloc: Global,
    schema: &Schema,
    built: &Built,
    number: u32,
    command: &Command,
) -> Result<Octets, NoMemory>
    requires of_schema { IsOfSchema schema.now command.now }
    requires few { length (conds_of command.now) < 2 ^ 16 }
    requires nodes { AreNodes schema.now built.now.files (length built.now.specs) }
    ensures { IfOk result (λ text.
        text ≡ command_text schema.now (fields_in schema.now built.now.files) number command.now) }
{
    match command {
        Command::Find(find) => find_line(alloc, schema, built, number, find),
        _ => Ok(Octets(Vec::new(alloc))),
    }
}

// The line of the plan of a `find`, which stands in the line of this number.
fn find_line(
    alloc: Global,
    schema: &Schema,
    built: &Built,
    number: u32,
    find: &Find,
) -> Result<Octets, NoMemory>
    requires find { IsFindOf schema.now find.now }
    requires few { length find.now.conds < 2 ^ 16 }
    requires nodes { AreNodes schema.now built.now.files (length built.now.specs) }
    ensures { IfOk result (λ text. text ≡ plan_text schema.now number find.now
        (least_plan find.now (fields_in schema.now built.now.files find.now.file))) }
{
    let file = file_def(schema, find.file);
    let indexed = indexed_fields(alloc, file, file_node(built, find.file))?;
    plan_line(alloc, schema, number, find, plan(find, &indexed))
}

// Whether a transaction is open behind what is asked for.
fn inside_behind(inside: bool, asked: &Asked) -> bool
    ensures { result ≡ inside_behind inside asked.now }
{
    match asked {
        Asked::Command(command) => inside_after(inside, command),
        Asked::Path(_) => inside,
    }
}

// Whether a transaction is open behind the command.
fn inside_after(inside: bool, command: &Command) -> bool
    ensures { result ≡ inside_after inside command.now }
{
    match command {
        Command::Begin => true,
        Command::Commit | Command::Abort => false,
        _ => inside,
    }
}
