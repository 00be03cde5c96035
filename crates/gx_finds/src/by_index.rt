// Finding by an indexed field.
ghost use Rattle.std.specs.Prelude.{◌≡◌, ◌≢◌, ◌<◌, [], true, Some, length, IfOk};
ghost use Rattle.std.specs.List.{AllByRecursion};
ghost use Rattle.gx_values.specs.declared.values.Op.TheVariants as op;
ghost use Rattle.gx_schema.specs.Lookups.{field_at};
ghost use Rattle.gx_commands.specs.Commands.{IsCondOf};
ghost use Rattle.gx_mapping.specs.Rule.{In};
ghost use Rattle.gx_stack.specs.Tree.{IsValid};
ghost use Rattle.gx_stack.specs.Seen.{tree_of};
ghost use Rattle.gx_stack.specs.Indexed.{is_indexed};
ghost use Rattle.gx_types.specs.Any.{any_rule};
ghost use Rattle.gx_scan.specs.Files.{IsStorable, IsTreeFor};
ghost use Rattle.gx_scan.specs.Where.{AreNamed};
ghost use Rattle.gx_finds.specs.Planned.{fields_indexed};
ghost use Rattle.gx_finds.specs.Looked.{field_bound, AddsFound};

use crate::spans::span_of_conditions;
use gx_commands::Cond;
use gx_ports::{Leaves, Stop};
use gx_rows::Row;
use gx_scan::rows_where;
use gx_schema::FileDef;
use gx_stack::Node;
use gx_types::AnyMapping;
use gx_values::NoMemory;
use std::alloc::Global;

/// Whether each field of a file is indexed in its node, by the number of the field. `NoMemory`:
/// there was none for it.
pub fn indexed_fields(
    alloc: Global,
    file: &FileDef,
    node: &Node<AnyMapping>,
) -> Result<Vec<bool>, NoMemory>
    requires { IsValid any_rule (tree_of node.now) }
    ensures { IfOk result
        (λ indexed. indexed.items ≡ fields_indexed (tree_of node.now) file.now) }
{
    let mut indexed = Vec::new(alloc);
    for field in &file.fields.0 {
        indexed.push(node.indexed(&field.name))?;
    }
    Ok(indexed)
}

/// Appends the records that meet the conditions to none, in any order. One of the conditions is on
/// an indexed field: the index says whose value is inside the span of all conditions on it, and
/// each of these records is tested for all conditions.
pub(crate) fn add_by_index<B: Leaves>(
    alloc: Global,
    file: &FileDef,
    node: &Node<AnyMapping>,
    cond: &Cond,
    conds: &[Cond],
    leaves: &mut B,
    rows: &mut Vec<Row>,
) -> Result<(), Stop>
    requires tree { IsTreeFor file.now (tree_of node.now) (length (B.working leaves.old)) }
    requires storable { IsStorable file.now }
    requires named { AreNamed file.now }
    requires fit { AllByRecursion (IsCondOf file.now) conds.now }
    requires there { In cond.now conds.now }
    requires past_key { 0 < cond.now.field }
    requires op { cond.now.op ≢ op.Unequal }
    requires indexed { is_indexed any_rule (tree_of node.now)
        (field_at file.now cond.now.field).name ≡ true }
    requires none { rows.old.items ≡ [] }
    ensures { AddsFound B.View file.now (tree_of node.now) conds.now
        (field_bound (tree_of node.now) cond.now) leaves.old leaves.new
        rows.old.items rows.new.items result }
{
    match span_of_conditions(file, cond.field, conds) {
        Some(span) => rows_where(alloc, file, node, cond.field, &span, conds, leaves, rows),
        None => Ok(()),
    }
}
