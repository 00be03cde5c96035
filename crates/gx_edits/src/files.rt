// Edits of a file: each is made at the node that has all leaf entries of the record.
ghost use Rattle.std.specs.Prelude.{length};
ghost use Rattle.std.specs.List.{AllByRecursion};
ghost use Rattle.gx_values.specs.Values.{AreFit};
ghost use Rattle.gx_schema.specs.Lookups.{data_fields};
ghost use Rattle.gx_commands.specs.Commands.{IsChangeOf};
ghost use Rattle.gx_stack.specs.Seen.{tree_of};
ghost use Rattle.gx_edits.specs.Records.{CanEdit, Inserts, Deletes, Updates};

use crate::home::home_of;
use crate::records::{delete_record, insert_record, update_record};
use gx_commands::Changes;
use gx_pairs::Refused;
use gx_ports::{Leaves, Stop};
use gx_schema::FileDef;
use gx_stack::Node;
use gx_types::AnyMapping;
use gx_values::{Value, Values};
use std::alloc::Global;

/// Puts a new record into the file, or answers why it doesn't.
pub(crate) fn insert_into_file<B: Leaves>(
    alloc: Global,
    file: &FileDef,
    node: &Node<AnyMapping>,
    key: Value,
    values: Values,
    leaves: &mut B,
) -> Result<Option<Refused>, Stop>
    requires can { CanEdit file.now (tree_of node.now) (length (B.working leaves.old)) key }
    requires values { AreFit (data_fields file.now) values }
    ensures { Inserts B.View file.now (tree_of node.now) key values leaves.old leaves.new result }
{
    let home = home_of(file, node, &key);
    insert_record(alloc, file, home, key, values, leaves)
}

/// Takes the record with this key out of the file, or answers why it doesn't.
pub(crate) fn delete_from_file<B: Leaves>(
    alloc: Global,
    file: &FileDef,
    node: &Node<AnyMapping>,
    key: Value,
    leaves: &mut B,
) -> Result<Option<Refused>, Stop>
    requires can { CanEdit file.now (tree_of node.now) (length (B.working leaves.old)) key }
    ensures { Deletes B.View file.now (tree_of node.now) key leaves.old leaves.new result }
{
    let home = home_of(file, node, &key);
    delete_record(alloc, file, home, key, leaves)
}

/// Changes the record with this key in the file, or answers why it doesn't.
pub(crate) fn update_in_file<B: Leaves>(
    alloc: Global,
    file: &FileDef,
    node: &Node<AnyMapping>,
    key: Value,
    changes: Changes,
    leaves: &mut B,
) -> Result<Option<Refused>, Stop>
    requires can { CanEdit file.now (tree_of node.now) (length (B.working leaves.old)) key }
    requires changes { AllByRecursion (IsChangeOf file.now) changes }
    ensures { Updates B.View file.now (tree_of node.now) key changes leaves.old leaves.new result }
{
    let home = home_of(file, node, &key);
    update_record(alloc, file, home, key, changes, leaves)
}
