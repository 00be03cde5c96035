// The records of a file within a span that meet conditions.
ghost use Rattle.std.specs.Prelude.{length};
ghost use Rattle.gx_stack.specs.Selected.{IsKeySpan};
ghost use Rattle.gx_stack.specs.Seen.{tree_of};
ghost use Rattle.gx_typing.specs.Dues.{file_form};
ghost use Rattle.gx_scan.specs.Files.{IsStorable, IsTreeFor};
ghost use Rattle.gx_scan.specs.Search.{AddsWithin};

use crate::by_columns::add_by_columns;
use crate::by_entries::{FEW_PLACES, add_by_entries};
use crate::by_groups::add_by_groups;
use crate::by_pieces::add_by_pieces;
use crate::by_records::add_by_records;
use crate::columns::plain_columns_of;
use crate::groups::plain_groups_of;
use crate::pieces::pieces_of;
use crate::places::places_of;
use gx_commands::Cond;
use gx_ports::{Entries, Leaves, Stop};
use gx_rows::Row;
use gx_schema::FileDef;
use gx_stack::Node;
use gx_types::AnyMapping;
use gx_values::Span;
use std::alloc::Global;

/// Appends the records of the file within the span that meet the conditions, in any order. Where
/// each record stands whole in one leaf, or a segment splits it in two, or a transposition puts
/// each field in a leaf of its own, or each record stands in pieces in one leaf, the conditions are
/// tested on the bytes of leaf entries, and no other record is made, but for a single key that may
/// stand in one of many leaves. It takes a step for each leaf, and one for each leaf entry of a
/// record within the span.
///
/// After an error `rows` may have more at its end. `Damaged`: some leaf's stored form isn't whole,
/// or the leaves hold no file, which is said of block 0. `Fault`: the count of faults rose; with
/// any other answer it stays. `NoMemory`: there was none.
pub fn rows_within<B: Leaves>(
    alloc: Global,
    file: &FileDef,
    node: &Node<AnyMapping>,
    span: &Span,
    conds: &[Cond],
    leaves: &mut B,
    rows: &mut Vec<Row>,
) -> Result<(), Stop>
    requires tree { IsTreeFor file.now (tree_of node.now) (length (B.working leaves.old)) }
    requires storable { IsStorable file.now }
    requires span { IsKeySpan (file_form file.now) span.now }
    ensures { AddsWithin B.View file.now (tree_of node.now) span.now conds.now leaves.old leaves.new
        rows.old.items rows.new.items result }
{
    if let Some(groups) = plain_groups_of(alloc, node)? {
        return add_by_groups(alloc, file, node, &groups, span, conds, leaves, rows);
    }
    if let Some(places) = plain_columns_of(alloc, node)? {
        return add_by_columns(
            alloc,
            file,
            node,
            places.as_slice(),
            span,
            conds,
            leaves,
            rows,
        );
    }
    if let Some(pieces) = pieces_of(node) {
        return add_by_pieces(alloc, file, node, &pieces, span, conds, leaves, rows);
    }
    let most = if is_one_key(span) {
        FEW_PLACES
    } else {
        usize::MAX
    };
    match places_of(alloc, node, most)? {
        Some(places) => {
            let mut entries = Entries::new(alloc);
            add_by_entries(
                alloc,
                file,
                node,
                &places,
                span,
                conds,
                leaves,
                &mut entries,
                rows,
            )
        }
        None => add_by_records(alloc, file, node, span, conds, leaves, rows),
    }
}

// Whether the span is that of one key.
fn is_one_key(span: &Span) -> bool {
    !span.lo.as_slice().is_empty() && span.lo.as_slice() == span.hi.as_slice()
}
