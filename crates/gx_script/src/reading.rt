// Lines and the commands that they mean.
ghost use Rattle.std.specs.Prelude.{◌≡◌, ◌≤◌, ◌↔◌, Ok, Result, IfOk, IfErr, length};
ghost use Rattle.gx_schema.specs.WellFormed.{IsWellFormed};
ghost use Rattle.gx_commands.specs.Cutting.{words_in};
ghost use Rattle.gx_script.specs.Reading.{Gives, insert_at, update_at, connect_at, members_at, find_at, command_behind, reading, IsReading, AnswersUnlessNoMemory};
ghost use Rattle.gx_script.specs.Faults.{IsBad};
ghost use Rattle.gx_script.specs.Grammar.{IsLineOf};
ghost use Rattle.gx_commands.specs.Commands.{IsOfSchema, conds_of};
ghost use Rattle.gx_commands.specs.declared.command.Command.{Command};
ghost use Rattle.gx_commands.specs.declared.command.LineWhy.{LineWhy};

use crate::keywords::{Verb, read_verb};
use crate::names::{field_kind, file_def, member_file, read_file, read_structure};
use crate::parts::{
    read_changes, read_member, read_of, read_order, read_owner, read_record, read_where,
};
use crate::values::{read_value, read_values};
use gx_commands::{
    Command, Find, LineWhy, NoCommand, are_characters, are_words, is_comment, is_end,
};
use gx_schema::Schema;
use std::alloc::Global;

#[tactic(auto, unfolding(crate::specs::Reading::insert_at))]
fn read_insert<'a>(
    alloc: Global,
    schema: &Schema,
    line: &'a [u8],
) -> Result<(Command, &'a [u8]), NoCommand>
    requires { IsWellFormed schema.now }
    ensures { Gives (λ x. (x.0, words_in x.1.now)) result
        (insert_at schema.now (words_in line.now)) }
{
    let (file, rest) = read_file(schema, line)?;
    let (values, rest) = read_values(alloc, &file_def(schema, file).fields.0, rest)?;
    Ok((Command::Insert(file, values), rest))
}

#[tactic(auto, unfolding(crate::specs::Reading::update_at))]
fn read_update<'a>(
    alloc: Global,
    schema: &Schema,
    line: &'a [u8],
) -> Result<(Command, &'a [u8]), NoCommand>
    requires { IsWellFormed schema.now }
    ensures { Gives (λ x. (x.0, words_in x.1.now)) result
        (update_at schema.now (words_in line.now)) }
{
    let (file, key, rest) = read_record(alloc, schema, line)?;
    let (changes, rest) = read_changes(alloc, file_def(schema, file), rest)?;
    Ok((Command::Update(file, key, changes), rest))
}

#[tactic(auto, unfolding(crate::specs::Reading::connect_at))]
fn read_connect<'a>(
    alloc: Global,
    schema: &Schema,
    line: &'a [u8],
) -> Result<(Command, &'a [u8]), NoCommand>
    requires { IsWellFormed schema.now }
    ensures { Gives (λ x. (x.0, words_in x.1.now)) result
        (connect_at schema.now (words_in line.now)) }
{
    let (link, owner, rest) = read_owner(alloc, schema, line)?;
    let kind = field_kind(member_file(schema, link), 0);
    let (member, rest) = read_value(alloc, kind, rest)?;
    Ok((Command::Connect(link, owner, member), rest))
}

#[tactic(auto, unfolding(crate::specs::Reading::members_at))]
fn read_members<'a>(
    alloc: Global,
    schema: &Schema,
    line: &'a [u8],
) -> Result<(Command, &'a [u8]), NoCommand>
    requires { IsWellFormed schema.now }
    ensures { Gives (λ x. (x.0, words_in x.1.now)) result
        (members_at schema.now (words_in line.now)) }
{
    let (link, owner, rest) = read_owner(alloc, schema, line)?;
    let (order, rest) = read_order(member_file(schema, link), rest)?;
    Ok((Command::Members(link, owner, order), rest))
}

#[tactic(auto, unfolding(crate::specs::Reading::find_at))]
fn read_find<'a>(
    alloc: Global,
    schema: &Schema,
    line: &'a [u8],
) -> Result<(Command, &'a [u8]), NoCommand>
    requires { IsWellFormed schema.now }
    ensures { Gives (λ x. (x.0, words_in x.1.now)) result (find_at schema.now (words_in line.now)) }
{
    let (file, rest) = read_file(schema, line)?;
    let (conds, rest) = read_where(alloc, file_def(schema, file), rest)?;
    let (of, rest) = read_of(alloc, schema, file, rest)?;
    let (order, rest) = read_order(file_def(schema, file), rest)?;
    let find = Find {
        file,
        conds,
        of,
        order,
    };
    Ok((Command::Find(find), rest))
}

// What stands behind the first word of a command, and what follows it.
#[tactic(auto, unfolding(crate::specs::Reading::command_behind))]
fn read_arguments<'a>(
    alloc: Global,
    schema: &Schema,
    verb: Verb,
    line: &'a [u8],
) -> Result<(Command, &'a [u8]), NoCommand>
    requires { IsWellFormed schema.now }
    ensures { Gives (λ x. (x.0, words_in x.1.now)) result
        (command_behind schema.now verb (words_in line.now)) }
{
    match verb {
        Verb::Begin => Ok((Command::Begin, line)),
        Verb::Commit => Ok((Command::Commit, line)),
        Verb::Abort => Ok((Command::Abort, line)),
        Verb::Insert => read_insert(alloc, schema, line),
        Verb::Get => {
            let (file, key, rest) = read_record(alloc, schema, line)?;
            Ok((Command::Get(file, key), rest))
        }
        Verb::Update => read_update(alloc, schema, line),
        Verb::Delete => {
            let (file, key, rest) = read_record(alloc, schema, line)?;
            Ok((Command::Delete(file, key), rest))
        }
        Verb::Connect => read_connect(alloc, schema, line),
        Verb::Disconnect => {
            let (link, member, rest) = read_member(alloc, schema, line)?;
            Ok((Command::Disconnect(link, member), rest))
        }
        Verb::Members => read_members(alloc, schema, line),
        Verb::Owner => {
            let (link, member, rest) = read_member(alloc, schema, line)?;
            Ok((Command::Owner(link, member), rest))
        }
        Verb::Find => read_find(alloc, schema, line),
        Verb::Reorganize => Ok(read_structure(schema, line)?),
    }
}

// The command that the words of a line mean.
#[tactic(auto, unfolding(crate::specs::Reading::reading))]
fn read_words(alloc: Global, schema: &Schema, line: &[u8]) -> Result<Command, NoCommand>
    requires { IsWellFormed schema.now }
    ensures { Gives (λ c. c) result (reading schema.now (words_in line.now)) }
{
    if is_end(line) {
        return Ok(Command::Nothing);
    }
    let (verb, rest) = read_verb(line)?;
    let (command, rest) = read_arguments(alloc, schema, verb, rest)?;
    if is_end(rest) {
        Ok(command)
    } else {
        Err(NoCommand::Bad(LineWhy::Word))
    }
}

fn read_line(alloc: Global, schema: &Schema, line: &[u8]) -> Result<Command, NoCommand>
    requires { IsWellFormed schema.now }
    ensures { AnswersUnlessNoMemory result (IsReading schema.now line.now) }
{
    if is_comment(line) {
        return Ok(Command::Nothing);
    }
    if !are_characters(line) {
        return Err(NoCommand::Bad(LineWhy::Character));
    }
    if !are_words(line) {
        return Err(NoCommand::Bad(LineWhy::Quote));
    }
    read_words(alloc, schema, line)
}

/// The command that a line means. The line is without its LF and without the CR that is dropped
/// before it, and its length isn't looked at.
///
/// A line without words, or whose first word begins with `#`, is `Nothing`. Else the answer is
/// `Bad` with the first reason: `Character` and then `Quote` over the whole line, then the first of
/// its words that fails, from left to right. A missing word and a word too many are `Word`.
/// `NoMemory`: only where there was no memory for what the command holds.
pub fn read_command(alloc: Global, schema: &Schema, line: &[u8]) -> Result<Command, NoCommand>
    requires { IsWellFormed schema.now }
    // What is read is in the grammar, and keeps the rules.
    ensures found { IfOk result (λ c. IsLineOf schema.now line.now c) }
    // What is in the grammar and keeps the rules is read.
    ensures only { (c : Command) → IsLineOf schema.now line.now c →
        AnswersUnlessNoMemory result (λ given. given ≡ Ok c) }
    // The words before the first bad one begin some line of the bare grammar, and no line goes on
    // with it.
    ensures fault { IfErr result (λ error. IsBad schema.now line.now error) }
    // A line is read as a command exactly where it means that command by the grammar.
    ensures means { (c : Command) → IsReading schema.now line.now (Ok c) ↔
        IsLineOf schema.now line.now c }
    // A line that means no command has this first reason.
    ensures exact { AnswersUnlessNoMemory result (IsReading schema.now line.now) }
    // A line means one command at most, or has one first reason.
    ensures one { (given other : Result Command LineWhy) → IsReading schema.now line.now given →
        IsReading schema.now line.now other → given ≡ other }
    ensures of_schema { IfOk result (λ c. IsOfSchema schema.now c) }
    // It has at most as many conditions as the line has bytes.
    ensures few { IfOk result (λ c. length (conds_of c) ≤ length line.now) }
{
    read_line(alloc, schema, line)
}
