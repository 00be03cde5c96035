// Finding by columns: where a transposition puts each data field of a record in a leaf of its own,
// the record has one entry in each of these leaves, under its key.
ghost use Rattle.std.specs.Prelude.{◌≡◌, ◌<◌, ◌≤◌, ◌+◌, ◌++◌, ◌∷◌, [], ℕ, List, length, map, true, Some, slice_get, get_or, IfOk, IfSome, IsSomeAnd};
ghost use Rattle.std.specs.List.{AllByRecursion, sum_by};
ghost use Rattle.gx_values.specs.declared.values.Value.{Value as FieldValue};
ghost use Rattle.gx_values.specs.Values.{Fits, no_value};
ghost use Rattle.gx_values.specs.Keys.{bytes_of};
ghost use Rattle.gx_schema.specs.Lookups.{data_fields};
ghost use Rattle.gx_ports.specs.Calls.{ReadsMaps};
ghost use Rattle.gx_ports.specs.LeafMaps.{entry_of, selected, map_at};
ghost use Rattle.gx_mapping.specs.Rule.{In};
ghost use Rattle.gx_actual.specs.Bodies.{body_of, IsShort};
ghost use Rattle.gx_stack.specs.Seen.{tree_of};
ghost use Rattle.gx_model.specs.States.{Row as TheRow, IsRowOf};
ghost use Rattle.gx_scan.specs.declared.places.Place.{Place as ThePlace};
ghost use Rattle.gx_scan.specs.Files.{IsStorable, IsTreeFor};
ghost use Rattle.gx_scan.specs.Entries.{entry_of_row};
ghost use Rattle.gx_codec.specs.Stored.{HaveCodes};
ghost use Rattle.gx_scan.specs.Columns.{AreColumns, ArePlainColumns, AreColumnEntries, column_entry};
ghost use Rattle.gx_scan.specs.Search.{IsKeySearch, FindsValues, AddsWithin, AddsChosen};

use crate::entries::{PLAIN_ROOM, add_met, entries_at, select_at};
use crate::places::Place;
use crate::records::data_fields;
use gx_codec::{behind_lengths, read_front, split_stored};
use gx_commands::Cond;
use gx_gather::NO_BLOCK;
use gx_ports::{Entries, Leaves, Stop};
use gx_rows::Row;
use gx_schema::FileDef;
use gx_stack::Node;
use gx_types::AnyMapping;
use gx_values::{Kind, NoMemory, Span, Value, Values};
use std::alloc::{AllocError, Global};

/// The values of the record at a key, but for the key, where there is one, by the span of the key.
/// With no entry in the first column there is no record, and the others aren't asked.
pub(crate) fn values_by_columns<B: Leaves>(
    alloc: Global,
    file: &FileDef,
    node: &Node<AnyMapping>,
    places: &[Place],
    key: &Value,
    span: &Span,
    leaves: &mut B,
) -> Result<Option<Values>, Stop>
    requires columns { AreColumns (tree_of node.now) places.now }
    requires asked { IsKeySearch file.now (tree_of node.now) (length (B.working leaves.old))
        key.now span.now }
    ensures { FindsValues B.View file.now (tree_of node.now) key.now leaves.old leaves.new result }
{
    let (_, _) = (node, key);
    let fields = data_fields(file);
    let mut entries = Entries::new(alloc);
    let mut values = Vec::with_capacity(alloc, fields.len())?;
    for (at, field) in fields.iter().enumerate() {
        let place = &places[at];
        select_at(alloc, place, span, leaves, &mut entries)?;
        if entries.is_empty() {
            if at == 0 {
                return Ok(None);
            }
            return Err(Stop::Damaged(NO_BLOCK));
        }
        let body = entries.entry(0).body;
        let Some(value) = read_alone(alloc, field.kind, place, body)? else {
            return Err(Stop::Damaged(NO_BLOCK));
        };
        values.push(value)?;
    }
    Ok(Some(Values(values)))
}

// The value of a column whose entry has this body. `None`: it is that of no value of the kind.
fn read_alone(
    alloc: Global,
    kind: Kind,
    place: &Place,
    body: &[u8],
) -> Result<Option<Value>, NoMemory>
    requires { IsShort kind }
    ensures read { (key v : FieldValue) → Fits kind v → HaveCodes place.now.codes (v ∷ []) →
        body.now ≡ (entry_of_row place.now.lengths place.now.codes (key, v ∷ [])).1 →
        IfOk result (λ found. found ≡ Some v) }
    ensures fits { IfOk result (λ found. IfSome found (Fits kind)) }
{
    let Some(stored) = behind_lengths(body, place.lengths) else {
        return Ok(None);
    };
    let code = place.codes.code_at(0);
    let Some((front, rest)) = split_stored(kind, code, stored) else {
        return Ok(None);
    };
    if !rest.is_empty() {
        return Ok(None);
    }
    read_front(alloc, kind, code, front)
}

/// Appends the records of the file within the span that meet the conditions, in the order of their
/// keys.
pub(crate) fn add_by_columns<B: Leaves>(
    alloc: Global,
    file: &FileDef,
    node: &Node<AnyMapping>,
    places: &[Place],
    span: &Span,
    conds: &[Cond],
    leaves: &mut B,
    rows: &mut Vec<Row>,
) -> Result<(), Stop>
    requires columns { AreColumns (tree_of node.now) places.now }
    requires plain { ArePlainColumns places.now }
    requires tree { IsTreeFor file.now (tree_of node.now) (length (B.working leaves.old)) }
    requires storable { IsStorable file.now }
    ensures adds { AddsWithin B.View file.now (tree_of node.now) span.now conds.now leaves.old
        leaves.new rows.old.items rows.new.items result }
    ensures fit { AllByRecursion (IsRowOf file.now) rows.old.items →
        AllByRecursion (IsRowOf file.now) rows.new.items }
{
    let _node = node;
    let columns = entries_of_each(alloc, places, span, leaves)?;
    if add_rows_of_columns(alloc, file, places, conds, columns.as_slice(), rows)? {
        Ok(())
    } else {
        Err(Stop::Damaged(NO_BLOCK))
    }
}

// The entries of each place within the span, in the order of their keys.
fn entries_of_each<B: Leaves>(
    alloc: Global,
    places: &[Place],
    span: &Span,
    leaves: &mut B,
) -> Result<Vec<Entries>, Stop>
    requires { (p : ThePlace) → In p places.now → p.leaf < length (B.working leaves.old) }
    ensures entries { B.whole leaves.old → IfOk result (λ found. found.items
        ≡ map (λ p. selected span.now.lo span.now.hi (map_at (B.working leaves.old) p.leaf))
        places.now) }
    ensures many { IfOk result (λ found. length found.items ≡ length places.now) }
    ensures steps { IfOk result (λ found. B.work leaves.new
        ≤ B.work leaves.old + (length places.now + sum_by length found.items)) }
    ensures reads { ReadsMaps B.View (B.whole leaves.old) leaves.old leaves.new result }
{
    let mut columns = Vec::with_capacity(alloc, places.len())?;
    for place in places {
        let entries = entries_at(alloc, place, span, leaves)?;
        columns.push(entries)?;
    }
    Ok(columns)
}

// Appends the records that have these entries in their columns and meet the conditions, in the
// order of the entries, and answers whether each entry of the first column is that of a record of
// the file.
fn add_rows_of_columns(
    alloc: Global,
    file: &FileDef,
    places: &[Place],
    conds: &[Cond],
    columns: &[Entries],
    rows: &mut Vec<Row>,
) -> Result<bool, NoMemory>
    requires storable { IsStorable file.now }
    requires plain { ArePlainColumns places.now }
    requires some { 0 < length places.now }
    requires long { length places.now ≡ length (data_fields file.now) }
    requires many { length columns.now ≡ length places.now }
    ensures { AddsChosen file.now
        (λ rs. AllByRecursion (IsRowOf file.now) rs
        × AreColumnEntries places.now columns.now rs)
        conds.now rows.old.items rows.new.items result }
{
    let first = &columns[0];
    let mut body = Vec::with_capacity(alloc, PLAIN_ROOM)?;
    for index in 0..first.len() {
        let key = first.entry(index).key;
        body.clear();
        if !push_columns(places, columns, index, key, &mut body)? {
            return Ok(false);
        }
        if !add_met(alloc, file, conds, key, body.as_slice(), rows)? {
            return Ok(false);
        }
    }
    Ok(true)
}

// Appends the bytes of the values of the record with this key, whose entries have this index, and
// answers whether each column has one.
fn push_columns(
    places: &[Place],
    columns: &[Entries],
    index: usize,
    key: &[u8],
    body: &mut Vec<u8>,
) -> Result<bool, AllocError>
    requires plain { ArePlainColumns places.now }
    requires many { length columns.now ≡ length places.now }
    ensures { (rs : List TheRow) (r : TheRow) → AreColumnEntries places.now columns.now rs →
        slice_get rs index ≡ Some r → key.now ≡ bytes_of r.0 → length r.1 ≡ length places.now →
        IfOk result (λ is. (is ≡ true) × (body.new.items ≡ body.old.items ++ body_of r.1)) }
{
    for (column, place) in places.iter().enumerate() {
        let Some(value) = column_value(place, &columns[column], index, key) else {
            return Ok(false);
        };
        body.extend_from_slice(value)?;
    }
    Ok(true)
}

// The bytes of the value that a column has of the record with this key, whose entry has this index.
// `None`: it has none.
fn column_value<'a>(
    place: &Place,
    entries: &'a Entries,
    index: usize,
    key: &[u8],
) -> Option<&'a [u8]>
    requires { place.now.codes ≡ [] }
    ensures { (column : ℕ) (r : TheRow) →
        slice_get entries.now index ≡ Some (entry_of (column_entry place.now column r)) →
        key.now ≡ bytes_of r.0 →
        IsSomeAnd result (λ value. value.now ≡ body_of (get_or r.1 column no_value ∷ [])) }
{
    if index >= entries.len() {
        return None;
    }
    let entry = entries.entry(index);
    if entry.key != key {
        return None;
    }
    behind_lengths(entry.body, place.lengths)
}
