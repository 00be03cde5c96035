// Finding by two groups: where a segment splits records in two leaves, the entries of both are
// joined by their keys.
ghost use Rattle.std.specs.Prelude.{length};
ghost use Rattle.std.specs.List.{AllByRecursion};
ghost use Rattle.gx_stack.specs.Seen.{tree_of};
ghost use Rattle.gx_model.specs.States.{IsRowOf};
ghost use Rattle.gx_scan.specs.Files.{IsStorable, IsTreeFor};
ghost use Rattle.gx_scan.specs.Groups.{AreGroups, ArePlain};
ghost use Rattle.gx_scan.specs.Search.{IsKeySearch, FindsValues, AddsWithin};

use crate::both::values_of_both;
use crate::entries::entries_at;
use crate::groups::Groups;
use crate::joined::add_joined_rows;
use gx_commands::Cond;
use gx_gather::NO_BLOCK;
use gx_ports::{Entries, Leaves, Stop};
use gx_rows::Row;
use gx_schema::FileDef;
use gx_stack::Node;
use gx_types::AnyMapping;
use gx_values::{Span, Value, Values};
use std::alloc::Global;

/// Appends the records of the file within the span that meet the conditions, in the order of their
/// keys.
pub(crate) fn add_by_groups<B: Leaves>(
    alloc: Global,
    file: &FileDef,
    node: &Node<AnyMapping>,
    groups: &Groups,
    span: &Span,
    conds: &[Cond],
    leaves: &mut B,
    rows: &mut Vec<Row>,
) -> Result<(), Stop>
    requires groups { AreGroups (tree_of node.now) groups.now }
    requires plain { ArePlain groups.now }
    requires tree { IsTreeFor file.now (tree_of node.now) (length (B.working leaves.old)) }
    requires storable { IsStorable file.now }
    ensures adds { AddsWithin B.View file.now (tree_of node.now) span.now conds.now leaves.old
        leaves.new rows.old.items rows.new.items result }
    ensures fit { AllByRecursion (IsRowOf file.now) rows.old.items →
        AllByRecursion (IsRowOf file.now) rows.new.items }
{
    let _node = node;
    let firsts = entries_at(alloc, &groups.first, span, leaves)?;
    let others = entries_at(alloc, &groups.others, span, leaves)?;
    if add_joined_rows(alloc, file, groups, conds, &firsts, &others, rows)? {
        Ok(())
    } else {
        Err(Stop::Damaged(NO_BLOCK))
    }
}

/// The values of the record at a key, but for the key, where there is one, by the span of the key.
pub(crate) fn values_by_groups<B: Leaves>(
    alloc: Global,
    file: &FileDef,
    node: &Node<AnyMapping>,
    groups: &Groups,
    key: &Value,
    span: &Span,
    leaves: &mut B,
) -> Result<Option<Values>, Stop>
    requires groups { AreGroups (tree_of node.now) groups.now }
    requires asked { IsKeySearch file.now (tree_of node.now) (length (B.working leaves.old))
        key.now span.now }
    ensures { FindsValues B.View file.now (tree_of node.now) key.now leaves.old leaves.new result }
{
    let _key = key;
    let mut entries = Entries::new(alloc);
    leaves.select(alloc, groups.first.leaf, span, &mut entries)?;
    if entries.is_empty() {
        return Ok(None);
    }
    leaves.select(alloc, groups.others.leaf, span, &mut entries)?;
    let Some(values) = values_of_both(alloc, file, groups, &entries)? else {
        return Err(Stop::Damaged(NO_BLOCK));
    };
    Ok(values)
}
