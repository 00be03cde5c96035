// Finding by the key.
ghost use Rattle.std.specs.Prelude.{◌≡◌, ◌≢◌, ◌<◌, [], length, Some, slice_get};
ghost use Rattle.std.specs.List.{AllByRecursion};
ghost use Rattle.gx_values.specs.declared.values.Op.TheVariants as op;
ghost use Rattle.gx_commands.specs.Commands.{IsCondOf};
ghost use Rattle.gx_mapping.specs.Rule.{In};
ghost use Rattle.gx_stack.specs.Seen.{tree_of};
ghost use Rattle.gx_scan.specs.Files.{IsStorable, IsTreeFor};
ghost use Rattle.gx_finds.specs.Looked.{key_bound, AddsFound};

use crate::spans::span_of_conditions;
use gx_commands::{Cond, Find};
use gx_ports::{Leaves, Stop};
use gx_rows::Row;
use gx_scan::rows_within;
use gx_schema::FileDef;
use gx_stack::Node;
use gx_types::AnyMapping;
use std::alloc::Global;

/// The condition of this number.
pub fn condition_at(find: &Find, number: u16) -> &Cond
    requires { number < length find.now.conds }
    ensures { slice_get find.now.conds number ≡ Some result.now }
{
    &find.conds.0[usize::from(number)]
}

/// Appends the records that meet the conditions to none, in any order. One of the conditions is on
/// the key: the records whose key is inside the span of all conditions on it are looked at, and
/// each of them is tested for all conditions.
pub(crate) fn add_by_key<B: Leaves>(
    alloc: Global,
    file: &FileDef,
    node: &Node<AnyMapping>,
    cond: &Cond,
    conds: &[Cond],
    leaves: &mut B,
    rows: &mut Vec<Row>,
) -> Result<(), Stop>
    requires tree { IsTreeFor file.now (tree_of node.now) (length (B.working leaves.old)) }
    requires storable { IsStorable file.now }
    requires fit { AllByRecursion (IsCondOf file.now) conds.now }
    requires there { In cond.now conds.now }
    requires key { cond.now.field ≡ 0 }
    requires op { cond.now.op ≢ op.Unequal }
    requires none { rows.old.items ≡ [] }
    ensures { AddsFound B.View file.now (tree_of node.now) conds.now
        (key_bound (tree_of node.now) cond.now) leaves.old leaves.new
        rows.old.items rows.new.items result }
{
    match span_of_conditions(file, cond.field, conds) {
        Some(span) => rows_within(alloc, file, node, &span, conds, leaves, rows),
        None => Ok(()),
    }
}
