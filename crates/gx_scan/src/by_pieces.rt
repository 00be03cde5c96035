// Finding by pieces: where a layer cuts the bytes of each record into pieces, the entries of a
// record in the one leaf are joined.
ghost use Rattle.std.specs.Prelude.{length};
ghost use Rattle.std.specs.List.{AllByRecursion};
ghost use Rattle.gx_stack.specs.Selected.{IsKeySpan};
ghost use Rattle.gx_stack.specs.Seen.{tree_of};
ghost use Rattle.gx_typing.specs.Dues.{file_form};
ghost use Rattle.gx_model.specs.States.{IsRowOf};
ghost use Rattle.gx_scan.specs.Files.{IsStorable, IsTreeFor};
ghost use Rattle.gx_scan.specs.Pieces.{ArePieces};
ghost use Rattle.gx_scan.specs.Search.{IsKeySearch, FindsValues, AddsWithin};

use crate::pieced::{add_pieced_rows, values_of_pieces};
use crate::pieces::Pieces;
use gx_commands::Cond;
use gx_gather::NO_BLOCK;
use gx_ports::{Entries, Leaves, Stop};
use gx_rows::Row;
use gx_schema::FileDef;
use gx_stack::Node;
use gx_types::AnyMapping;
use gx_values::{Span, Value, Values};
use std::alloc::Global;

/// Appends the records of the file within the span that meet the conditions, in the order of their
/// keys.
pub(crate) fn add_by_pieces<B: Leaves>(
    alloc: Global,
    file: &FileDef,
    node: &Node<AnyMapping>,
    pieces: &Pieces,
    span: &Span,
    conds: &[Cond],
    leaves: &mut B,
    rows: &mut Vec<Row>,
) -> Result<(), Stop>
    requires pieces { ArePieces (tree_of node.now) pieces.now }
    requires tree { IsTreeFor file.now (tree_of node.now) (length (B.working leaves.old)) }
    requires storable { IsStorable file.now }
    requires span { IsKeySpan (file_form file.now) span.now }
    ensures adds { AddsWithin B.View file.now (tree_of node.now) span.now conds.now leaves.old
        leaves.new rows.old.items rows.new.items result }
    ensures fit { AllByRecursion (IsRowOf file.now) rows.old.items →
        AllByRecursion (IsRowOf file.now) rows.new.items }
{
    let _node = node;
    let mut entries = Entries::new(alloc);
    leaves.select(alloc, pieces.leaf, span, &mut entries)?;
    if add_pieced_rows(alloc, file, pieces.size, conds, &entries, rows)? {
        Ok(())
    } else {
        Err(Stop::Damaged(NO_BLOCK))
    }
}

/// The values of the record at a key, but for the key, where there is one, by the span of the key.
pub(crate) fn values_by_pieces<B: Leaves>(
    alloc: Global,
    file: &FileDef,
    node: &Node<AnyMapping>,
    pieces: &Pieces,
    key: &Value,
    span: &Span,
    leaves: &mut B,
) -> Result<Option<Values>, Stop>
    requires pieces { ArePieces (tree_of node.now) pieces.now }
    requires asked { IsKeySearch file.now (tree_of node.now) (length (B.working leaves.old))
        key.now span.now }
    ensures { FindsValues B.View file.now (tree_of node.now) key.now leaves.old leaves.new result }
{
    let (_, _) = (node, key);
    let mut entries = Entries::new(alloc);
    leaves.select(alloc, pieces.leaf, span, &mut entries)?;
    let Some(values) = values_of_pieces(alloc, file, pieces.size, &entries)? else {
        return Err(Stop::Damaged(NO_BLOCK));
    };
    Ok(values)
}
