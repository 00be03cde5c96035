// The play of a script.
ghost use Rattle.std.specs.Prelude.{◌≡◌, ◌<◌, List, ℕ, ◌++◌, is_some, unwrap_or, IfOk, OnOk, Ok, Err, None, true, false};
ghost use Rattle.gx_schema.specs.WellFormed.{IsWellFormed};
ghost use Rattle.gx_commands.specs.declared.command.LineWhy.{LineWhy};
ghost use Rattle.gx_commands.specs.declared.command.NoCommand.TheVariants.{Bad};
ghost use Rattle.gx_commands.specs.Commands.{IsOfSchema, place_reason};
ghost use Rattle.gx_script.specs.Grammar.{IsLineOf};
ghost use Rattle.gx_script.specs.Paths.{is_path};
ghost use Rattle.gx_model.specs.Commands.{IsAnswer, next_state};
ghost use Rattle.gx_model.specs.Play.{Playing, IsAnswered, end_at, end_text, after_command, seen_state, start_at, with_working};
ghost use Rattle.gx_model.specs.Languages.{IsPlayTextIn};
ghost use Rattle.gx_model.specs.Paths.{with_paths};
ghost use Rattle.gx_model.specs.Runs.{IsBadLine as IsBadCommandLine};
ghost use Rattle.gx_model.specs.States.{empty_state};
ghost use Rattle.gx_plain.specs.Plain.{IsMoment, IsOf, IsBadLine, IsLineDone, IsPlayedOut, end_of};

use crate::changes::carry_out;
use crate::paths::path_text;
use crate::replies::answer;
use gx_commands::{Command, LineWhy, NoCommand, ScriptLines, allowed};
use gx_paths::{is_path, read_path};
use gx_plain_state::PlainState;
use gx_rows::{commit_line, stop_line};
use gx_schema::Schema;
use gx_script::read_command;
use gx_values::{NoMemory, Octets};
use std::alloc::Global;

/// The text of a script's play on the empty state of a schema: the answers of its lines, in their
/// order, and then, where the play ends at a line, the line that says its number and the reason.
/// `NoMemory`: there was no memory.
///
/// It is slow: each transaction copies the state, and each look-up passes the records of its file.
/// It is there to compare other programs with.
pub fn play(alloc: Global, schema: &Schema, script: &[u8]) -> Result<Octets, NoMemory>
    requires { IsWellFormed schema.now }
    ensures played { IfOk result
        (IsPlayTextIn (with_paths schema.now) (start_at (empty_state schema.now)) script.now) }
    // There is one such text.
    ensures only { (text : List ℕ) →
        IsPlayTextIn (with_paths schema.now) (start_at (empty_state schema.now)) script.now text →
        IfOk result (λ given. given ≡ text) }
{
    let (said, end) = play_lines(alloc, schema, script)?;
    with_end(alloc, said, end)
}

// How a play ends: with all of the script, or at the line of this number.
#[derive(Drop)]
enum PlayEnd {
    Good,
    Stopped(u32, LineWhy),
}

// What was said, and what is said of the end.
fn with_end(alloc: Global, said: Octets, end: PlayEnd) -> Result<Octets, NoMemory>
    ensures { IfOk result (λ text. text ≡ said ++ end_text (end_of end)) }
{
    let mut said = said.0;
    if let PlayEnd::Stopped(number, why) = end {
        let line = stop_line(alloc, number, why)?;
        said.extend_from_slice(line.as_slice())?;
    }
    Ok(Octets(said))
}

// Where a play is: the last kept state, that of the open transaction, and how many commits there
// were.
#[derive(Drop)]
struct Moment {
    kept: PlainState,
    working: Option<PlainState>,
    commits: u64,
}

// The answers of the lines, and the end.
fn play_lines(alloc: Global, schema: &Schema, script: &[u8]) -> Result<(Octets, PlayEnd), NoMemory>
    requires { IsWellFormed schema.now }
    ensures { IfOk result (IsPlayedOut schema.now script.now) }
{
    let mut moment = start(alloc, schema)?;
    let mut said = Octets(Vec::new(alloc));
    let mut lines = ScriptLines::new(script);
    let mut number = 0u32;
    'lines: loop {
        match lines.next_line() {
            Ok(Some(line)) => {
                number += 1;
                match play_line(alloc, schema, &mut moment, line) {
                    Ok(text) => said.0.extend_from_slice(text.as_slice())?,
                    Err(NoCommand::Bad(why)) => return Ok((said, PlayEnd::Stopped(number, why))),
                    Err(NoCommand::NoMemory) => return Err(NoMemory),
                }
            }
            Ok(None) => return Ok((said, end_at(number, moment.working.is_some()))),
            Err(why) => return Ok((said, PlayEnd::Stopped(number + 1, why))),
        }
    }
}

fn start(alloc: Global, schema: &Schema) -> Result<Moment, NoMemory>
    ensures at { IfOk result (λ moment. IsMoment moment (start_at (empty_state schema.now))) }
    ensures of_schema { IfOk result (IsOf schema.now) }
{
    Ok(Moment {
        kept: PlainState::empty(alloc, schema)?,
        working: None,
        commits: 0,
    })
}

// The end behind the last line, inside a transaction or outside.
fn end_at(number: u32, inside: bool) -> PlayEnd
    ensures { end_of result ≡ end_at number inside }
{
    if inside {
        PlayEnd::Stopped(number, LineWhy::OpenTransaction)
    } else {
        PlayEnd::Good
    }
}

// Carries one line out, and gives its answer.
fn play_line(
    alloc: Global,
    schema: &Schema,
    moment: &mut Moment,
    line: &[u8],
) -> Result<Octets, NoCommand>
    requires well_formed { IsWellFormed schema.now }
    requires of_schema { IsOf schema.now moment.old }
    ensures done { (p : Playing) → IsMoment moment.old p →
        IfOk result (λ text. IsLineDone schema.now p line.now text moment.new) }
    ensures bad { (why : LineWhy) → result ≡ Err (Bad why) →
        IsBadLine schema.now (is_some moment.old.working) line.now why }
    ensures of_schema { OnOk result (IsOf schema.now moment.new) }
{
    if is_path(line) {
        play_path(alloc, schema, moment, line)
    } else {
        play_command(alloc, schema, moment, line)
    }
}

// The answer of a line whose first word is `path`.
fn play_path(
    alloc: Global,
    schema: &Schema,
    moment: &Moment,
    line: &[u8],
) -> Result<Octets, NoCommand>
    requires well_formed { IsWellFormed schema.now }
    requires of_schema { IsOf schema.now moment.now }
    requires path { is_path line.now ≡ true }
    ensures done { (p : Playing) → IsMoment moment.now p →
        IfOk result (λ text. IsLineDone schema.now p line.now text moment.now) }
    ensures bad { (why : LineWhy) → result ≡ Err (Bad why) →
        IsBadLine schema.now (is_some moment.now.working) line.now why }
{
    let query = read_path(alloc, schema, line)?;
    match path_text(alloc, schema, seen(moment), &query) {
        Ok(text) => Ok(text),
        Err(NoMemory) => Err(NoCommand::NoMemory),
    }
}

// The state of the open transaction, or the last kept one.
fn seen(moment: &Moment) -> &PlainState
    ensures { result.now ≡ unwrap_or moment.now.working moment.now.kept }
{
    match &moment.working {
        None => &moment.kept,
        Some(state) => state,
    }
}

// Carries a line out whose first word isn't `path`, and gives its answer.
fn play_command(
    alloc: Global,
    schema: &Schema,
    moment: &mut Moment,
    line: &[u8],
) -> Result<Octets, NoCommand>
    requires well_formed { IsWellFormed schema.now }
    requires of_schema { IsOf schema.now moment.old }
    requires no_path { is_path line.now ≡ false }
    ensures done { (p : Playing) → IsMoment moment.old p →
        IfOk result (λ text. IsLineDone schema.now p line.now text moment.new) }
    ensures bad { (why : LineWhy) → result ≡ Err (Bad why) →
        IsBadLine schema.now (is_some moment.old.working) line.now why }
    ensures of_schema { OnOk result (IsOf schema.now moment.new) }
{
    let command = placed_command(alloc, schema, moment.working.is_some(), line)?;
    match step(alloc, schema, moment, &command) {
        Ok(text) => Ok(text),
        Err(NoMemory) => Err(NoCommand::NoMemory),
    }
}

// The command of a line, which may stand there.
fn placed_command(
    alloc: Global,
    schema: &Schema,
    inside: bool,
    line: &[u8],
) -> Result<Command, NoCommand>
    requires { IsWellFormed schema.now }
    ensures means { IfOk result (IsLineOf schema.now line.now) }
    ensures placed { IfOk result (λ command. place_reason inside command ≡ None) }
    ensures of_schema { IfOk result (IsOfSchema schema.now) }
    ensures bad { (why : LineWhy) → result ≡ Err (Bad why) →
        IsBadCommandLine schema.now inside line.now why }
{
    let command = read_command(alloc, schema, line)?;
    match allowed(inside, &command) {
        Ok(()) => Ok(command),
        Err(why) => Err(NoCommand::Bad(why)),
    }
}

// Carries a command of the schema out, and gives its answer.
fn step(
    alloc: Global,
    schema: &Schema,
    moment: &mut Moment,
    command: &Command,
) -> Result<Octets, NoMemory>
    requires well_formed { IsWellFormed schema.now }
    requires of_schema { IsOf schema.now moment.old }
    requires command { IsOfSchema schema.now command.now }
    ensures answered { (p : Playing) → IsMoment moment.old p →
        IfOk result (IsAnswered schema.now p command.now) }
    ensures at { (p : Playing) → IsMoment moment.old p →
        OnOk result (IsMoment moment.new (after_command schema.now p command.now)) }
    ensures of_schema { OnOk result (IsOf schema.now moment.new) }
{
    match command {
        Command::Begin => {
            moment.working = Some(moment.kept.copy(alloc)?);
            Octets::from_slice(alloc, b"begun\n")
        }
        Command::Commit => {
            if let Some(state) = moment.working.take() {
                moment.kept = state;
            }
            moment.commits = moment.commits.saturating_add(1);
            commit_line(alloc, moment.commits)
        }
        Command::Abort => {
            moment.working = None;
            Octets::from_slice(alloc, b"dropped\n")
        }
        _ => pass_on(alloc, schema, moment, command),
    }
}

// Carries out a command on records or links, and gives its answer.
fn pass_on(
    alloc: Global,
    schema: &Schema,
    moment: &mut Moment,
    command: &Command,
) -> Result<Octets, NoMemory>
    requires well_formed { IsWellFormed schema.now }
    requires of_schema { IsOf schema.now moment.old }
    requires command { IsOfSchema schema.now command.now }
    ensures answered { (p : Playing) → IsMoment moment.old p →
        IfOk result (IsAnswer schema.now (seen_state p) command.now) }
    ensures at { (p : Playing) → IsMoment moment.old p →
        OnOk result
        (IsMoment moment.new (with_working p (next_state schema.now (seen_state p) command.now))) }
    ensures of_schema { OnOk result (IsOf schema.now moment.new) }
{
    match &mut moment.working {
        None => answer(alloc, schema, &moment.kept, command),
        Some(state) => {
            let text = answer(alloc, schema, state, command)?;
            carry_out(alloc, schema, state, command)?;
            Ok(text)
        }
    }
}
