// The records of a file among the entries of its leaf that meet conditions: the conditions are
// tested on the bytes of an entry, and only a record that meets them all is made.
ghost use Rattle.std.specs.Prelude.{◌≡◌, [], List, pos, map, slice_index_or, Some, IfOk, IfSome, IsSomeAnd};
ghost use Rattle.std.specs.List.{AllByRecursion};
ghost use Rattle.gx_values.specs.declared.values.Value.{Value as FieldValue};
ghost use Rattle.gx_values.specs.declared.values.Value.TheVariants as value;
ghost use Rattle.gx_values.specs.Values.{AreFit};
ghost use Rattle.gx_values.specs.Borrowed.{value_of};
ghost use Rattle.gx_values.specs.Keys.{bytes_of};
ghost use Rattle.gx_ports.specs.LeafMaps.{entry_of};
ghost use Rattle.gx_actual.specs.Bodies.{body_of, AreShort};
ghost use Rattle.gx_model.specs.States.{Row as TheRow, IsRowOf};
ghost use Rattle.gx_model.specs.Found.{value_at, meets_conds};
ghost use Rattle.gx_scan.specs.Files.{IsStorable};
ghost use Rattle.gx_schema.specs.Lookups.{data_fields};
ghost use Rattle.gx_scan.specs.Entries.{entry_of_row};
ghost use Rattle.gx_scan.specs.Search.{AddsChosen};

use crate::records::data_fields;
use gx_actual::read_body;
use gx_codec::{Plain, behind_lengths, front_at};
use gx_commands::Cond;
use gx_ports::Entries;
use gx_rows::Row;
use gx_schema::FileDef;
use gx_values::{Field, NoMemory, ValueRef, Values, key_value, read_value_key};
use std::alloc::Global;

/// Appends the records of entries that meet the conditions, in the order of the entries, and
/// answers whether each entry looked at was that of a record of the file; one that a condition
/// rules out is read no further. So many lengths stand before the values in each body. `NoMemory`:
/// there was none for the records.
pub(crate) fn add_chosen_rows(
    alloc: Global,
    file: &FileDef,
    lengths: u32,
    conds: &[Cond],
    entries: &Entries,
    rows: &mut Vec<Row>,
) -> Result<bool, NoMemory>
    requires { IsStorable file.now }
    ensures { AddsChosen file.now
        (λ rs. AllByRecursion (IsRowOf file.now) rs
        × (entries.now ≡ map (λ r. entry_of (entry_of_row lengths [] r)) rs))
        conds.now rows.old.items rows.new.items result }
{
    for index in 0..entries.len() {
        let entry = entries.entry(index);
        let Some(body) = behind_lengths(entry.body, lengths) else {
            return Ok(false);
        };
        let Some(is_chosen) = meets_all(file, conds, entry.key, body) else {
            return Ok(false);
        };
        if !is_chosen {
            continue;
        }
        let Some(row) = read_row(alloc, file, entry.key, body)? else {
            return Ok(false);
        };
        rows.push(row)?;
    }
    Ok(true)
}

// The record of an entry, if it is one.
pub(crate) fn read_row(
    alloc: Global,
    file: &FileDef,
    key: &[u8],
    body: &[u8],
) -> Result<Option<Row>, NoMemory>
    requires { IsStorable file.now }
    ensures read { (r : TheRow) → IsRowOf file.now r → key.now ≡ bytes_of r.0 →
        body.now ≡ body_of r.1 → IfOk result (λ found. found ≡ Some r) }
    ensures fits { IfOk result (λ found. IfSome found (IsRowOf file.now)) }
{
    let kind = file.fields.0[0].kind;
    let Some(key) = read_value_key(alloc, kind, key)? else {
        return Ok(None);
    };
    let Some(values) = read_body(alloc, data_fields(file), body)? else {
        return Ok(None);
    };
    Ok(Some(Row { key, values }))
}

// The values of the record whose entry has this body, where so many lengths stand before them.
// `None`: it is that of no record.
pub(crate) fn plain_values(
    alloc: Global,
    file: &FileDef,
    lengths: u32,
    body: &[u8],
) -> Result<Option<Values>, NoMemory>
    requires { IsStorable file.now }
    ensures read { (r : TheRow) → IsRowOf file.now r →
        body.now ≡ (entry_of_row lengths [] r).1 → IfOk result (λ found. found ≡ Some r.1) }
    ensures fits { IfOk result (λ found. IfSome found (AreFit (data_fields file.now))) }
{
    match behind_lengths(body, lengths) {
        Some(values) => read_values(alloc, file, values),
        None => Ok(None),
    }
}

// The values of a body. `None`: it is that of no record.
pub(crate) fn read_values(
    alloc: Global,
    file: &FileDef,
    body: &[u8],
) -> Result<Option<Values>, NoMemory>
    requires { IsStorable file.now }
    ensures read { (r : TheRow) → IsRowOf file.now r → body.now ≡ body_of r.1 →
        IfOk result (λ found. found ≡ Some r.1) }
    ensures fits { IfOk result (λ found. IfSome found (AreFit (data_fields file.now))) }
{
    read_body(alloc, data_fields(file), body)
}

// Whether the record of an entry meets every condition. `None`: the entry is that of no record.
pub(crate) fn meets_all(file: &FileDef, conds: &[Cond], key: &[u8], body: &[u8]) -> Option<bool>
    requires { IsStorable file.now }
    ensures { (r : TheRow) → IsRowOf file.now r → key.now ≡ bytes_of r.0 → body.now ≡ body_of r.1 →
        result ≡ Some (meets_conds conds.now r) }
{
    for cond in conds {
        let value = field_value(file, cond.field, key, body)?;
        if !value.meets(cond.op, &cond.bound) {
            return Some(false);
        }
    }
    Some(true)
}

// The value of a field of the record of an entry, the key being field 0, and 0 where the file has
// no such field. `None`: the entry is that of no record.
fn field_value<'a>(
    file: &FileDef,
    field: u16,
    key: &'a [u8],
    body: &'a [u8],
) -> Option<ValueRef<'a>>
    requires { IsStorable file.now }
    ensures { (r : TheRow) → IsRowOf file.now r → key.now ≡ bytes_of r.0 → body.now ≡ body_of r.1 →
        IsSomeAnd result (λ v. value_of v ≡ value_at r field) }
{
    if field == 0 {
        return key_value(file.fields.0[0].kind, key);
    }
    data_value(data_fields(file), field as usize - 1, body)
}

// The value of one of these fields in a body, counted from 0, and 0 where there are fewer.
fn data_value<'a>(fields: &[Field], index: usize, body: &'a [u8]) -> Option<ValueRef<'a>>
    requires { AreShort fields.now }
    ensures { (vs : List FieldValue) → AreFit fields.now vs → body.now ≡ body_of vs →
        IsSomeAnd result (λ v. value_of v ≡ slice_index_or vs index (value.Int (pos 0))) }
{
    if index < fields.len() {
        front_at(fields, &Plain, index, body)
    } else {
        Some(ValueRef::Int(0))
    }
}
