// What a command that isn't refused answers.
ghost use Rattle.std.specs.Prelude.{◌≡◌, ◌<◌, length, IfOk};
ghost use Rattle.gx_schema.specs.Lookups.{file_at};
ghost use Rattle.gx_schema.specs.WellFormed.{IsWellFormed};
ghost use Rattle.gx_commands.specs.Commands.{IsOfSchema};
ghost use Rattle.gx_commands.specs.declared.command.Command.TheVariants as command;
ghost use Rattle.gx_model.specs.Commands.{IsReply, IsAnswer, record_text};
ghost use Rattle.gx_plain.specs.Plain.{HasParts};
ghost use Rattle.gx_model.specs.States.{file_in};
ghost use Rattle.std.specs.FinMap as fin;

use crate::listing::list_text;
use crate::refusals::{member_number, owner_number, refusal};
use gx_commands::{Command, Of, OrderBy};
use gx_plain_state::PlainState;
use gx_rows::record_line;
use gx_schema::{FileDef, Schema};
use gx_values::{NoMemory, Octets, Value};
use std::alloc::Global;

/// The answer of a command on records or links, of the schema.
pub(crate) fn answer(
    alloc: Global,
    schema: &Schema,
    state: &PlainState,
    command: &Command,
) -> Result<Octets, NoMemory>
    requires well_formed { IsWellFormed schema.now }
    requires parts { HasParts schema.now state.now }
    requires of_schema { IsOfSchema schema.now command.now }
    ensures { IfOk result (IsAnswer schema.now state.now command.now) }
{
    match refusal(schema, state, command) {
        Some(line) => Octets::from_slice(alloc, line),
        None => reply(alloc, schema, state, command),
    }
}

fn reply(
    alloc: Global,
    schema: &Schema,
    state: &PlainState,
    command: &Command,
) -> Result<Octets, NoMemory>
    requires well_formed { IsWellFormed schema.now }
    requires parts { HasParts schema.now state.now }
    requires of_schema { IsOfSchema schema.now command.now }
    ensures { IfOk result (IsReply schema.now state.now command.now) }
{
    match command {
        Command::Get(file, key) => found_line(alloc, schema, state, *file, key),
        Command::Members(link, owner, order) => {
            members_text(alloc, schema, state, *link, owner, *order)
        }
        Command::Owner(link, member) => owner_line(alloc, schema, state, *link, member),
        Command::Find(find) => list_text(
            alloc,
            state,
            file_def(schema, find.file),
            state.file(find.file),
            &find.conds.0,
            &find.of,
            find.order,
        ),
        Command::Nothing => Octets::from_slice(alloc, b""),
        _ => Octets::from_slice(alloc, b"ok\n"),
    }
}

// The line of the record with this key, or that there is none.
fn found_line(
    alloc: Global,
    schema: &Schema,
    state: &PlainState,
    file: u16,
    key: &Value,
) -> Result<Octets, NoMemory>
    requires parts { HasParts schema.now state.now }
    requires file { file < length schema.now.files }
    ensures { IfOk result
        (λ text. text
        ≡ record_text (file_at schema.now file) key.now
        (fin.get (file_in state.now file) key.now)) }
{
    match state.file(file).get(key) {
        None => Octets::from_slice(alloc, b"none\n"),
        Some(values) => record_line(alloc, file_def(schema, file), key, &values.0),
    }
}

fn members_text(
    alloc: Global,
    schema: &Schema,
    state: &PlainState,
    link: u16,
    owner: &Value,
    order: OrderBy,
) -> Result<Octets, NoMemory>
    requires well_formed { IsWellFormed schema.now }
    requires parts { HasParts schema.now state.now }
    requires link { link < length schema.now.links }
    ensures { IfOk result
        (IsReply schema.now state.now (command.Members link owner.now order)) }
{
    let file = member_number(schema, link);
    let of = Some(Of {
        link,
        owner: owner.copy(alloc)?,
    });
    list_text(
        alloc,
        state,
        file_def(schema, file),
        state.file(file),
        &[],
        &of,
        order,
    )
}

fn owner_line(
    alloc: Global,
    schema: &Schema,
    state: &PlainState,
    link: u16,
    member: &Value,
) -> Result<Octets, NoMemory>
    requires well_formed { IsWellFormed schema.now }
    requires parts { HasParts schema.now state.now }
    requires link { link < length schema.now.links }
    ensures { IfOk result (IsReply schema.now state.now (command.Owner link member.now)) }
{
    match state.link(link).get(member) {
        None => Octets::from_slice(alloc, b"none\n"),
        Some(owner) => found_line(alloc, schema, state, owner_number(schema, link), owner),
    }
}

/// What the schema says of a file.
pub(crate) fn file_def(schema: &Schema, file: u16) -> &FileDef
    requires { file < length schema.now.files }
    ensures { result.now ≡ file_at schema.now file }
{
    &schema.files.0[usize::from(file)]
}
