// Edits: commands that change records or links.
ghost use Rattle.std.specs.Prelude.{◌≡◌, ◌∷◌, ◌<◌, length, true};
ghost use Rattle.gx_values.specs.Values.{Fits, AreFit};
ghost use Rattle.gx_schema.specs.Lookups.{key_kind, data_fields};
ghost use Rattle.gx_commands.specs.declared.command.Command.TheVariants as command;
ghost use Rattle.gx_commands.specs.Commands.{IsOfSchema};
ghost use Rattle.gx_edits.specs.Edits.{is_edit, edit_text, Edits, EditsUnlinked};
ghost use Rattle.gx_states.specs.Internal.{AreFor};

use crate::files::{delete_from_file, insert_into_file, update_in_file};
use crate::links::{connect, disconnect, is_linked};
use gx_commands::{Changes, Command};
use gx_pairs::Refused;
use gx_ports::{Leaves, Stop};
use gx_schema::{FileDef, Schema};
use gx_states::{file_def, file_node};
use gx_types::Built;
use gx_values::{Value, Values};
use std::alloc::Global;

/// Carries out a command that changes records or links, as the abstract database does, or answers
/// why it is refused. Where it is refused the leaves hold what they held.
///
/// `Full`: the command isn't a delete and isn't refused, and the pages may not be enough for the
/// entries that there are and those of the state after it. `Damaged`: the leaves stood for no
/// state, which is said of block 0 where each is whole. `Fault`: the count of faults rose; with any
/// other answer it stays.
/// `NoMemory`: an allocation failed. After a stop a part of the change may be made; what was last
/// committed stays, whatever is answered.
pub fn edit<B: Leaves>(
    alloc: Global,
    schema: &Schema,
    built: &Built,
    command: Command,
    leaves: &mut B,
) -> Result<Option<Refused>, Stop>
    requires ready { AreFor schema.now built.now (length (B.working leaves.old)) }
    requires of_schema { IsOfSchema schema.now command }
    requires edit { is_edit command ≡ true }
    ensures { Edits B.View schema.now built.now command leaves.old leaves.new result }
{
    match command {
        Command::Insert(file, values) => insert(alloc, schema, built, file, values, leaves),
        Command::Update(file, key, changes) => {
            update(alloc, schema, built, file, key, changes, leaves)
        }
        Command::Delete(file, key) => delete(alloc, schema, built, file, key, leaves),
        Command::Connect(link, owner, member) => {
            connect(alloc, schema, built, link, &owner, &member, leaves)
        }
        Command::Disconnect(link, member) => {
            disconnect(alloc, schema, built, link, &member, leaves)
        }
        _ => unreachable!(),
    }
}

/// What is said of an edit that was carried out or refused: one line, with its LF.
pub fn edit_answer(refused: Option<Refused>) -> &'static [u8]
    ensures { result.now ≡ edit_text refused }
{
    match refused {
        None => b"ok\n",
        Some(why) => why.text(),
    }
}

fn insert<B: Leaves>(
    alloc: Global,
    schema: &Schema,
    built: &Built,
    file: u16,
    values: Values,
    leaves: &mut B,
) -> Result<Option<Refused>, Stop>
    requires ready { AreFor schema.now built.now (length (B.working leaves.old)) }
    requires of_schema { IsOfSchema schema.now (command.Insert file values) }
    ensures { Edits B.View schema.now built.now (command.Insert file values) leaves.old
        leaves.new result }
{
    let def = file_def(schema, file);
    let node = file_node(built, file);
    let (key, values) = key_and_values(def, values);
    insert_into_file(alloc, def, node, key, values, leaves)
}

fn update<B: Leaves>(
    alloc: Global,
    schema: &Schema,
    built: &Built,
    file: u16,
    key: Value,
    changes: Changes,
    leaves: &mut B,
) -> Result<Option<Refused>, Stop>
    requires ready { AreFor schema.now built.now (length (B.working leaves.old)) }
    requires of_schema { IsOfSchema schema.now (command.Update file key changes) }
    ensures { Edits B.View schema.now built.now (command.Update file key changes)
        leaves.old leaves.new result }
{
    let def = file_def(schema, file);
    let node = file_node(built, file);
    update_in_file(alloc, def, node, key, changes, leaves)
}

// A record that is an end of a pair is there, so the links may be asked first.
fn delete<B: Leaves>(
    alloc: Global,
    schema: &Schema,
    built: &Built,
    file: u16,
    key: Value,
    leaves: &mut B,
) -> Result<Option<Refused>, Stop>
    requires ready { AreFor schema.now built.now (length (B.working leaves.old)) }
    requires of_schema { IsOfSchema schema.now (command.Delete file key) }
    ensures { Edits B.View schema.now built.now (command.Delete file key) leaves.old
        leaves.new result }
{
    if is_linked(alloc, schema, built, file, &key, leaves)? {
        return Ok(Some(Refused::Linked));
    }
    delete_unlinked(alloc, schema, built, file, key, leaves)
}

// Deletes a record that is no end of a pair.
fn delete_unlinked<B: Leaves>(
    alloc: Global,
    schema: &Schema,
    built: &Built,
    file: u16,
    key: Value,
    leaves: &mut B,
) -> Result<Option<Refused>, Stop>
    requires ready { AreFor schema.now built.now (length (B.working leaves.old)) }
    requires of_schema { IsOfSchema schema.now (command.Delete file key) }
    ensures { EditsUnlinked B.View schema.now built.now (command.Delete file key) file key
        leaves.old leaves.new result }
{
    let def = file_def(schema, file);
    let node = file_node(built, file);
    delete_from_file(alloc, def, node, key, leaves)
}

// The key of a new record, and its other values.
#[tactic(auto, using(crate::proofs::RecordLemmas::some_values, crate::proofs::RecordLemmas::first_and_others))]
fn key_and_values(file: &FileDef, values: Values) -> (Value, Values)
    requires storable { 0 < length file.now.fields }
    requires fit { AreFit file.now.fields values }
    ensures parts { values ≡ result.0 ∷ result.1 }
    ensures key { Fits (key_kind file.now) result.0 }
    ensures others { AreFit (data_fields file.now) result.1 }
{
    let _file = file;
    let mut others = values.0;
    let key = others.remove(0);
    (key, Values(others))
}
