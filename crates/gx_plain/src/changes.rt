// What a command changes.
ghost use Rattle.std.specs.Prelude.{◌≡◌, ◌-◌, ◌<◌, length, slice_set, OnOk, IfOk};
ghost use Rattle.gx_schema.specs.WellFormed.{IsWellFormed};
ghost use Rattle.gx_commands.specs.Commands.{IsOfSchema};
ghost use Rattle.gx_commands.specs.declared.command.Command.TheVariants as command;
ghost use Rattle.gx_model.specs.Commands.{with_changes, next_state, state_after};
ghost use Rattle.gx_plain.specs.Plain.{HasParts};

use crate::refusals::refusal;
use gx_commands::{Change, Command};
use gx_plain_state::{Pair, PlainState};
use gx_rows::Row;
use gx_schema::Schema;
use gx_values::{NoMemory, Value, Values};
use std::alloc::Global;

/// Carries a command of the schema out, where it isn't refused.
pub(crate) fn carry_out(
    alloc: Global,
    schema: &Schema,
    state: &mut PlainState,
    command: &Command,
) -> Result<(), NoMemory>
    requires well_formed { IsWellFormed schema.now }
    requires parts { HasParts schema.now state.old }
    requires of_schema { IsOfSchema schema.now command.now }
    ensures { OnOk result (state.new ≡ next_state schema.now state.old command.now) }
{
    if refusal(schema, state, command).is_some() {
        return Ok(());
    }
    change(alloc, schema, state, command)
}

fn change(
    alloc: Global,
    schema: &Schema,
    state: &mut PlainState,
    command: &Command,
) -> Result<(), NoMemory>
    requires parts { HasParts schema.now state.old }
    requires of_schema { IsOfSchema schema.now command.now }
    ensures { OnOk result (state.new ≡ state_after state.old command.now) }
{
    let _schema = schema;
    match command {
        Command::Insert(file, values) => insert(alloc, state, *file, values),
        Command::Update(file, key, changes) => update(alloc, state, *file, key, &changes.0),
        Command::Delete(file, key) => {
            state.remove(*file, key);
            Ok(())
        }
        Command::Connect(link, owner, member) => {
            let pair = Pair {
                member: member.copy(alloc)?,
                owner: owner.copy(alloc)?,
            };
            state.connect(*link, pair)
        }
        Command::Disconnect(link, member) => {
            state.disconnect(*link, member);
            Ok(())
        }
        _ => Ok(()),
    }
}

fn insert(alloc: Global, state: &mut PlainState, file: u16, values: &Values) -> Result<(), NoMemory>
    requires { file < length state.old.files }
    ensures { OnOk result (state.new ≡ state_after state.old (command.Insert file values.now)) }
{
    let mut values = values.copy(alloc)?;
    if values.0.is_empty() {
        return Ok(());
    }
    let key = values.0.remove(0);
    state.insert(file, Row { key, values })
}

fn update(
    alloc: Global,
    state: &mut PlainState,
    file: u16,
    key: &Value,
    changes: &[Change],
) -> Result<(), NoMemory>
    requires { file < length state.old.files }
    ensures { OnOk result
        (state.new ≡ state_after state.old (command.Update file key.now changes.now)) }
{
    let values = match state.file(file).get(key) {
        None => Values(Vec::new(alloc)),
        Some(values) => values.copy(alloc)?,
    };
    let row = Row {
        key: key.copy(alloc)?,
        values: changed_values(alloc, values, changes)?,
    };
    state.insert(file, row)
}

// The values after the changes.
fn changed_values(alloc: Global, values: Values, changes: &[Change]) -> Result<Values, NoMemory>
    ensures { IfOk result (λ after. after ≡ with_changes values changes.now) }
{
    let mut values = values.0;
    for change in changes {
        let value = change.value.copy(alloc)?;
        set_value(&mut values, change.field, value);
    }
    Ok(Values(values))
}

// Gives a field other than the key its value.
fn set_value(values: &mut Vec<Value>, field: u16, value: Value)
    ensures { values.new.items ≡ slice_set values.old.items (field - 1) value }
{
    let at = usize::from(field.saturating_sub(1));
    if at < values.len() {
        values[at] = value;
    }
}
