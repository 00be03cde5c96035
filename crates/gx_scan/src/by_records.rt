// Finding by records: a node gives those within a span, and the ones that meet conditions are kept.
ghost use Rattle.std.specs.Prelude.{◌≡◌, ◌<◌, ◌++◌, length, map, filter, OnOk};
ghost use Rattle.gx_values.specs.declared.records.Rec.{Rec as Record};
ghost use Rattle.gx_ports.specs.LeafMaps.{Extends};
ghost use Rattle.gx_mapping.specs.Rule.{In, IsOf};
ghost use Rattle.gx_stack.specs.Selected.{IsKeySpan};
ghost use Rattle.gx_stack.specs.Seen.{tree_of};
ghost use Rattle.gx_typing.specs.Dues.{file_form};
ghost use Rattle.gx_model.specs.Found.{meets_cond, meets_conds};
ghost use Rattle.gx_scan.specs.Files.{IsStorable, IsTreeFor};
ghost use Rattle.gx_scan.specs.Within.{row_of};
ghost use Rattle.gx_scan.specs.Search.{AddsWithin};

use gx_commands::Cond;
use gx_gather::Recs;
use gx_ports::{Leaves, Stop};
use gx_rows::{Row, field_value};
use gx_schema::FileDef;
use gx_stack::Node;
use gx_types::AnyMapping;
use gx_values::{Rec, Span, Value, meets};
use std::alloc::{AllocError, Global};

/// Appends the records of the file within the span that meet the conditions, in the order of their
/// keys.
pub(crate) fn add_by_records<B: Leaves>(
    alloc: Global,
    file: &FileDef,
    node: &Node<AnyMapping>,
    span: &Span,
    conds: &[Cond],
    leaves: &mut B,
    rows: &mut Vec<Row>,
) -> Result<(), Stop>
    requires tree { IsTreeFor file.now (tree_of node.now) (length (B.working leaves.old)) }
    requires storable { IsStorable file.now }
    requires span { IsKeySpan (file_form file.now) span.now }
    ensures { AddsWithin B.View file.now (tree_of node.now) span.now conds.now leaves.old leaves.new
        rows.old.items rows.new.items result }
{
    let mut found = Recs::new(alloc);
    node.select(alloc, leaves, span, &mut found)?;
    add_met(file, conds, found, rows)?;
    Ok(())
}

// Appends those of the file's records that meet the conditions.
fn add_met(
    file: &FileDef,
    conds: &[Cond],
    found: Recs,
    rows: &mut Vec<Row>,
) -> Result<(), AllocError>
    requires keyed { 0 < length file.now.fields }
    requires fit { (r : Record) → In r found → IsOf (file_form file.now) r }
    ensures kept { OnOk result
        (rows.new.items ≡ rows.old.items ++ filter (meets_conds conds.now) (map row_of found)) }
    ensures front { Extends rows.old.items rows.new.items }
{
    for rec in found.0 {
        let row = into_row(file, rec);
        if meets_all(conds, &row) {
            rows.push(row)?;
        }
    }
    Ok(())
}

/// A record of the file as a row.
pub fn into_row(file: &FileDef, rec: Rec) -> Row
    requires keyed { 0 < length file.now.fields }
    requires fits { IsOf (file_form file.now) rec }
    ensures { result ≡ row_of rec }
{
    let _file = file;
    let mut key = rec.key.0;
    let Some(key) = key.pop() else { unreachable!() };
    Row {
        key,
        values: rec.fields,
    }
}

/// Whether a row meets each of the conditions.
pub fn meets_all(conds: &[Cond], row: &Row) -> bool
    ensures { result ≡ meets_conds conds.now row.now }
{
    conds.iter().all(|cond| meets_one(cond, row))
}

fn meets_one(cond: &Cond, row: &Row) -> bool
    ensures { result ≡ meets_cond row.now cond.now }
{
    let absent = Value::Int(0);
    meets(field_value(cond.field, row, &absent), cond.op, &cond.bound)
}
