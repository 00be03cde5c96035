// Edits of records: each is looked up and changed in the file's node.
ghost use Rattle.std.specs.Prelude.{◌≡◌, length, IfOk};
ghost use Rattle.std.specs.List.{AllByRecursion};
ghost use Rattle.gx_values.specs.Values.{AreFit};
ghost use Rattle.gx_schema.specs.Lookups.{data_fields};
ghost use Rattle.gx_commands.specs.Commands.{IsChangeOf};
ghost use Rattle.gx_mapping.specs.Rule.{IsOf};
ghost use Rattle.gx_stack.specs.Seen.{tree_of};
ghost use Rattle.gx_typing.specs.Dues.{file_form};
ghost use Rattle.gx_model.specs.Commands.{with_changes};
ghost use Rattle.gx_scan.specs.Files.{rec_of};
ghost use Rattle.gx_edits.specs.Records.{CanEdit, Inserts, Deletes, Updates};
ghost use Rattle.gx_entries.specs.Entries.{AreOwnLeaves};

use crate::alone::is_there;
use crate::one_record::{Previous, RecordData, before_changes};
use crate::segments::{put_own, take_own};
use arrayvec::ArrayVec;
use gx_commands::Changes;
use gx_entries::{OwnLeaves, own_leaves};
use gx_pairs::Refused;
use gx_ports::{Leaves, Stop};
use gx_scan::find_values;
use gx_schema::FileDef;
use gx_stack::{Node, whole_span};
use gx_types::AnyMapping;
use gx_values::{KeyBuf, NoMemory, Rec, Value, Values};
use std::alloc::Global;

// The record of a key and other values.
fn new_record(alloc: Global, key: Value, values: Values) -> Result<Rec, NoMemory>
    ensures { IfOk result (λ made. made ≡ rec_of (key, values)) }
{
    let mut keys = Vec::with_capacity(alloc, 1)?;
    keys.push(key)?;
    Ok(Rec {
        key: Values(keys),
        fields: values,
    })
}

/// Puts a new record into the file's node, or answers why it doesn't.
pub(crate) fn insert_record<B: Leaves>(
    alloc: Global,
    file: &FileDef,
    node: &Node<AnyMapping>,
    key: Value,
    values: Values,
    leaves: &mut B,
) -> Result<Option<Refused>, Stop>
    requires can { CanEdit file.now (tree_of node.now) (length (B.working leaves.old)) key }
    requires values { AreFit (data_fields file.now) values }
    ensures { Inserts B.View file.now (tree_of node.now) key values leaves.old leaves.new result }
{
    if let Some(own) = own_leaves(node) {
        return insert_own(alloc, file, node, own, &key, values, leaves);
    }
    if find_values(alloc, file, node, &key, leaves)?.is_some() {
        return Ok(Some(Refused::KeyExists));
    }
    let new = new_record(alloc, key, values)?;
    node.replace(alloc, leaves, None, Some(new))?;
    Ok(None)
}

// The same where each record has its entries in these leaves of the node.
fn insert_own<B: Leaves>(
    alloc: Global,
    file: &FileDef,
    node: &Node<AnyMapping>,
    own: OwnLeaves,
    key: &Value,
    values: Values,
    leaves: &mut B,
) -> Result<Option<Refused>, Stop>
    requires can { CanEdit file.now (tree_of node.now) (length (B.working leaves.old)) key.now }
    requires own { AreOwnLeaves (tree_of node.now) own.first own.second }
    requires values { AreFit (data_fields file.now) values }
    ensures { Inserts B.View file.now (tree_of node.now) key.now values
        leaves.old leaves.new result }
{
    let mut span = whole_span();
    span.lo.set_value(key);
    span.hi.set_value(key);
    if is_there(alloc, file, node, own, key, &span, leaves)? {
        Ok(Some(Refused::KeyExists))
    } else {
        let new = RecordData {
            key,
            bytes: &span.lo,
            fields: values,
        };
        put_own(alloc, node, own, new, Previous::Absent, leaves)?;
        Ok(None)
    }
}

/// Takes the record with this key away, or answers why it doesn't.
pub(crate) fn delete_record<B: Leaves>(
    alloc: Global,
    file: &FileDef,
    node: &Node<AnyMapping>,
    key: Value,
    leaves: &mut B,
) -> Result<Option<Refused>, Stop>
    requires can { CanEdit file.now (tree_of node.now) (length (B.working leaves.old)) key }
    ensures { Deletes B.View file.now (tree_of node.now) key leaves.old leaves.new result }
{
    if let Some(own) = own_leaves(node) {
        return delete_own(alloc, file, node, own, &key, leaves);
    }
    let Some(values) = find_values(alloc, file, node, &key, leaves)? else {
        return Ok(Some(Refused::NoRecord));
    };
    let old = new_record(alloc, key, values)?;
    node.replace(alloc, leaves, Some(old), None)?;
    Ok(None)
}

// The same where each record has its entries in these leaves of the node.
fn delete_own<B: Leaves>(
    alloc: Global,
    file: &FileDef,
    node: &Node<AnyMapping>,
    own: OwnLeaves,
    key: &Value,
    leaves: &mut B,
) -> Result<Option<Refused>, Stop>
    requires can { CanEdit file.now (tree_of node.now) (length (B.working leaves.old)) key.now }
    requires own { AreOwnLeaves (tree_of node.now) own.first own.second }
    ensures { Deletes B.View file.now (tree_of node.now) key.now leaves.old leaves.new result }
{
    let mut span = whole_span();
    span.lo.set_value(key);
    span.hi.set_value(key);
    if !is_there(alloc, file, node, own, key, &span, leaves)? {
        return Ok(Some(Refused::NoRecord));
    }
    take_own(alloc, node, own, key, &span, leaves)?;
    Ok(None)
}

/// Changes the record with this key, or answers why it doesn't.
pub(crate) fn update_record<B: Leaves>(
    alloc: Global,
    file: &FileDef,
    node: &Node<AnyMapping>,
    key: Value,
    changes: Changes,
    leaves: &mut B,
) -> Result<Option<Refused>, Stop>
    requires can { CanEdit file.now (tree_of node.now) (length (B.working leaves.old)) key }
    requires changes { AllByRecursion (IsChangeOf file.now) changes }
    ensures { Updates B.View file.now (tree_of node.now) key changes leaves.old leaves.new result }
{
    let Some(values) = find_values(alloc, file, node, &key, leaves)? else {
        return Ok(Some(Refused::NoRecord));
    };
    if let Some(own) = own_leaves(node) {
        let previous = before_changes(node, &changes);
        let fields = changed_values(file, values, changes);
        let mut bytes = KeyBuf(ArrayVec::new());
        bytes.set_value(&key);
        let new = RecordData {
            key: &key,
            bytes: &bytes,
            fields,
        };
        put_own(alloc, node, own, new, previous, leaves)?;
        return Ok(None);
    }
    let old = new_record(alloc, key, values)?;
    let gone = node.entries_of(alloc, &old)?;
    let new = changed_record(file, old, changes);
    node.replace_entries(alloc, leaves, &gone, Some(new))?;
    Ok(None)
}

// The record after the changes.
fn changed_record(file: &FileDef, old: Rec, changes: Changes) -> Rec
    requires old { IsOf (file_form file.now) old }
    requires changes { AllByRecursion (IsChangeOf file.now) changes }
    ensures key { result.key ≡ old.key }
    ensures fields { result.fields ≡ with_changes old.fields changes }
    ensures fits { IsOf (file_form file.now) result }
{
    Rec {
        key: old.key,
        fields: changed_values(file, old.fields, changes),
    }
}

// The values after the changes.
fn changed_values(file: &FileDef, values: Values, changes: Changes) -> Values
    requires values { AreFit (data_fields file.now) values }
    requires changes { AllByRecursion (IsChangeOf file.now) changes }
    ensures changed { result ≡ with_changes values changes }
    ensures fits { AreFit (data_fields file.now) result }
{
    let _file = file;
    let mut values = values.0;
    for change in changes.0 {
        values[change.field as usize - 1] = change.value;
    }
    Values(values)
}
