// The values of the record at a key of a file, without the record where an entry has them.
ghost use Rattle.std.specs.Prelude.{◌≡◌, ◌∷◌, [], Option, length, option_map, IfSome};
ghost use Rattle.std.specs.List.{AllByRecursion};
ghost use Rattle.gx_values.specs.Values.{Fits, AreFit};
ghost use Rattle.gx_schema.specs.Lookups.{key_kind, data_fields};
ghost use Rattle.gx_schema.specs.declared.schema.FileDef.{FileDef as TheFile};
ghost use Rattle.gx_stack.specs.Seen.{tree_of};
ghost use Rattle.gx_model.specs.States.{Row as TheRow, IsRowOf};
ghost use Rattle.gx_scan.specs.Files.{IsStorable, IsTreeFor};
ghost use Rattle.gx_scan.specs.Entries.{ArePlaces};
ghost use Rattle.gx_scan.specs.Records.{list_of_one};
ghost use Rattle.gx_scan.specs.Search.{IsKeySearch, FindsValues};

use crate::by_columns::values_by_columns;
use crate::by_entries::{FEW_PLACES, add_by_entries};
use crate::by_groups::values_by_groups;
use crate::by_pieces::values_by_pieces;
use crate::coded::values_at_place;
use crate::columns::columns_of;
use crate::groups::groups_of;
use crate::pieces::pieces_of;
use crate::places::{Place, place_of, places_of};
use crate::records::{record_inside, set_key};
use crate::searched::searched_node;
use gx_gather::NO_BLOCK;
use gx_ports::{Entries, Leaves, Stop};
use gx_rows::Row;
use gx_schema::FileDef;
use gx_stack::{Node, whole_span};
use gx_types::AnyMapping;
use gx_values::{Span, Value, Values};
use std::alloc::Global;

/// The values of the record with this key, but for the key, where there is one. Below layers that
/// pass records whole, only the node that may have the key is asked. Where the records stand whole
/// in few leaves there, or a segment splits them in two, or a transposition puts each field in a
/// leaf of its own, or each stands in pieces in one leaf, the values are read from the bytes of its
/// entries. It takes a step for each leaf, and one for each leaf entry of the record.
///
/// `Damaged`: some leaf's stored form isn't whole, or the leaves hold no file, which is said of
/// block 0. `Fault`: the count of faults rose; with any other answer it stays. `NoMemory`: there
/// was none.
pub fn find_values<B: Leaves>(
    alloc: Global,
    file: &FileDef,
    node: &Node<AnyMapping>,
    key: &Value,
    leaves: &mut B,
) -> Result<Option<Values>, Stop>
    requires tree { IsTreeFor file.now (tree_of node.now) (length (B.working leaves.old)) }
    requires storable { IsStorable file.now }
    requires key { Fits (key_kind file.now) key.now }
    ensures { FindsValues B.View file.now (tree_of node.now) key.now leaves.old leaves.new result }
{
    let mut span = whole_span();
    set_key(&mut span, key);
    let node = searched_node(node, &span);
    values_in(alloc, file, node, key, &span, leaves)
}

// The same of the node that is searched, by the span of the key.
fn values_in<B: Leaves>(
    alloc: Global,
    file: &FileDef,
    node: &Node<AnyMapping>,
    key: &Value,
    span: &Span,
    leaves: &mut B,
) -> Result<Option<Values>, Stop>
    requires asked { IsKeySearch file.now (tree_of node.now) (length (B.working leaves.old))
        key.now span.now }
    ensures { FindsValues B.View file.now (tree_of node.now) key.now leaves.old leaves.new result }
{
    if let Some(groups) = groups_of(alloc, node)? {
        return values_by_groups(alloc, file, node, &groups, key, span, leaves);
    }
    if let Some(places) = columns_of(alloc, node)? {
        return values_by_columns(alloc, file, node, places.as_slice(), key, span, leaves);
    }
    if let Some(pieces) = pieces_of(node) {
        return values_by_pieces(alloc, file, node, &pieces, key, span, leaves);
    }
    if let Some(place) = place_of(alloc, node)? {
        return values_at(alloc, file, node, &place, key, span, leaves);
    }
    match places_of(alloc, node, FEW_PLACES)? {
        Some(places) => values_by_entry(alloc, file, node, &places, key, span, leaves),
        None => values_by_record(alloc, file, node, key, span, leaves),
    }
}

// The same by the bytes of the one entry, where all records stand at this place.
fn values_at<B: Leaves>(
    alloc: Global,
    file: &FileDef,
    node: &Node<AnyMapping>,
    place: &Place,
    key: &Value,
    span: &Span,
    leaves: &mut B,
) -> Result<Option<Values>, Stop>
    requires place { ArePlaces 0 (tree_of node.now) (place.now ∷ []) }
    requires asked { IsKeySearch file.now (tree_of node.now) (length (B.working leaves.old))
        key.now span.now }
    ensures { FindsValues B.View file.now (tree_of node.now) key.now leaves.old leaves.new result }
{
    let _key = key;
    node.internal_is_union();
    let mut entries = Entries::new(alloc);
    leaves.select(alloc, place.leaf, span, &mut entries)?;
    let Some(values) = values_at_place(alloc, file, place, &entries)? else {
        return Err(Stop::Damaged(NO_BLOCK));
    };
    Ok(values)
}

// The same by the bytes of entries, which stand at these places.
fn values_by_entry<B: Leaves>(
    alloc: Global,
    file: &FileDef,
    node: &Node<AnyMapping>,
    places: &[Place],
    key: &Value,
    span: &Span,
    leaves: &mut B,
) -> Result<Option<Values>, Stop>
    requires places { ArePlaces 0 (tree_of node.now) places.now }
    requires asked { IsKeySearch file.now (tree_of node.now) (length (B.working leaves.old))
        key.now span.now }
    ensures { FindsValues B.View file.now (tree_of node.now) key.now leaves.old leaves.new result }
{
    let _key = key;
    let mut entries = Entries::new(alloc);
    let mut rows = Vec::new(alloc);
    add_by_entries(
        alloc,
        file,
        node,
        places,
        span,
        &[],
        leaves,
        &mut entries,
        &mut rows,
    )?;
    Ok(last_values(rows))
}

fn last_values(rows: Vec<Row>) -> Option<Values>
    ensures last { (one : Option TheRow) → rows.items ≡ list_of_one one →
        result ≡ option_map (λ row. row.1) one }
    ensures fits { (file : TheFile) → AllByRecursion (IsRowOf file) rows.items →
        IfSome result (AreFit (data_fields file)) }
{
    let mut rows = rows;
    let row = rows.pop()?;
    Some(row.values)
}

// The same by the record of the node.
fn values_by_record<B: Leaves>(
    alloc: Global,
    file: &FileDef,
    node: &Node<AnyMapping>,
    key: &Value,
    span: &Span,
    leaves: &mut B,
) -> Result<Option<Values>, Stop>
    requires asked { IsKeySearch file.now (tree_of node.now) (length (B.working leaves.old))
        key.now span.now }
    ensures { FindsValues B.View file.now (tree_of node.now) key.now leaves.old leaves.new result }
{
    match record_inside(alloc, file, node, key, span, leaves)? {
        Some(rec) => Ok(Some(rec.fields)),
        None => Ok(None),
    }
}
