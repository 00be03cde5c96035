// The records of a file whose two groups of data fields stand in entries of two leaves. Conditions
// are tested on their bytes, and only a record that meets them all is made.
ghost use Rattle.std.specs.Prelude.{◌≡◌, ◌≢◌, ◌++◌, ◌∷◌, [], List, ℕ, length, map, filter, not, drop, true, pos, slice_index_or, Some, IfOk, IfSome, IsSomeAnd};
ghost use Rattle.std.specs.List.{AllByRecursion};
ghost use Rattle.std.specs.List.Sorted.{IsStrictlySortedBy};
ghost use Rattle.gx_values.specs.declared.values.Value.{Value as FieldValue};
ghost use Rattle.gx_values.specs.declared.values.Value.TheVariants as value;
ghost use Rattle.gx_values.specs.Values.{AreFit, default_in, value_cmp};
ghost use Rattle.gx_values.specs.Borrowed.{value_of};
ghost use Rattle.gx_values.specs.Keys.{bytes_of};
ghost use Rattle.gx_schema.specs.Lookups.{data_fields};
ghost use Rattle.gx_ports.specs.LeafMaps.{entry_of, Extends};
ghost use Rattle.gx_actual.specs.Bodies.{field_bytes, body_of, AreShort};
ghost use Rattle.gx_split.specs.Groups.{chosen, defaults_of};
ghost use Rattle.gx_model.specs.States.{Row as TheRow, IsRowOf};
ghost use Rattle.gx_model.specs.Found.{value_at, meets_conds};
ghost use Rattle.gx_scan.specs.Files.{IsStorable};
ghost use Rattle.gx_scan.specs.Groups.{has_others, first_entry, other_entry};
ghost use Rattle.gx_scan.specs.Search.{AddsChosen};

use crate::both::{Rest, read_both};
use crate::groups::Groups;
use crate::records::data_fields;
use gx_codec::{Group, behind_lengths, front_at};
use gx_commands::Cond;
use gx_ports::Entries;
use gx_rows::Row;
use gx_schema::FileDef;
use gx_values::{Field, Kind, NoMemory, ValueRef, key_value, read_value_key};
use std::alloc::{AllocError, Global};

/// Appends the records of the entries that meet the conditions, in the order of the entries, and
/// answers whether each pair of entries looked at was that of a record of the file; one that a
/// condition rules out is read no further. `NoMemory`: there was none for the records.
pub(crate) fn add_joined_rows(
    alloc: Global,
    file: &FileDef,
    groups: &Groups,
    conds: &[Cond],
    firsts: &Entries,
    others: &Entries,
    rows: &mut Vec<Row>,
) -> Result<bool, NoMemory>
    requires storable { IsStorable file.now }
    requires long { length groups.now.mask.now ≡ length (data_fields file.now) }
    ensures { AddsChosen file.now
        (λ rs. AllByRecursion (IsRowOf file.now) rs
        × IsStrictlySortedBy (λ a b. value_cmp a.0 b.0) rs
        × (firsts.now ≡ map (λ r. entry_of (first_entry groups.now r)) rs)
        × (others.now ≡ map (λ r. entry_of (other_entry groups.now r))
        (filter (has_others groups.now.mask.now (data_fields file.now)) rs)))
        conds.now rows.old.items rows.new.items result }
{
    let defaults = default_body(alloc, data_fields(file), groups.mask)?;
    let mut at = 0;
    for index in 0..firsts.len() {
        let entry = firsts.entry(index);
        let next = next_others(file, groups, others, at, entry.key, defaults.as_slice());
        let Some((other, after)) = next else {
            return Ok(false);
        };
        at = after;
        if !add_joined(
            alloc, file, groups, conds, entry.key, entry.body, other, rows,
        )? {
            return Ok(false);
        }
    }
    Ok(true)
}

// The bytes of the values outside the first group of the record with this key, and the number of
// the entry that is next. `None`: the entry with the key is that of no record.
fn next_others<'a>(
    file: &FileDef,
    groups: &Groups,
    others: &'a Entries,
    at: usize,
    key: &[u8],
    defaults: &'a [u8],
) -> Option<(&'a [u8], usize)>
    ensures { (r : TheRow) (rs : List TheRow) → IsRowOf file.now r → key.now ≡ bytes_of r.0 →
        AllByRecursion (λ q. bytes_of q.0 ≢ bytes_of r.0) rs →
        defaults.now
        ≡ body_of (defaults_of (chosen (map not groups.now.mask.now) (data_fields file.now))) →
        drop at others.now ≡ map (λ q. entry_of (other_entry groups.now q))
        (filter (has_others groups.now.mask.now (data_fields file.now)) (r ∷ rs)) →
        IsSomeAnd result (λ s. (s.0.now ≡ body_of (chosen (map not groups.now.mask.now) r.1))
        × (drop s.1 others.now ≡ map (λ q. entry_of (other_entry groups.now q))
        (filter (has_others groups.now.mask.now (data_fields file.now)) rs))) }
{
    let _file = file;
    if at < others.len() {
        let entry = others.entry(at);
        if entry.key == key {
            let values = behind_lengths(entry.body, groups.others.lengths)?;
            return Some((values, at + 1));
        }
    }
    Some((defaults, at))
}

// Appends the record with this key and these bytes of its two groups, the first behind its lengths,
// if it meets the conditions, and answers whether it is one.
fn add_joined(
    alloc: Global,
    file: &FileDef,
    groups: &Groups,
    conds: &[Cond],
    key: &[u8],
    first: &[u8],
    others: &[u8],
    rows: &mut Vec<Row>,
) -> Result<bool, NoMemory>
    requires storable { IsStorable file.now }
    requires long { length groups.now.mask.now ≡ length (data_fields file.now) }
    ensures chosen { (r : TheRow) → IsRowOf file.now r → key.now ≡ bytes_of r.0 →
        first.now ≡ (first_entry groups.now r).1 →
        others.now ≡ body_of (chosen (map not groups.now.mask.now) r.1) →
        IfOk result (λ is. (is ≡ true)
        × (rows.new.items ≡ rows.old.items ++ filter (meets_conds conds.now) (r ∷ []))) }
    ensures front { Extends rows.old.items rows.new.items }
    ensures fit { AllByRecursion (IsRowOf file.now) rows.old.items →
        AllByRecursion (IsRowOf file.now) rows.new.items }
{
    let Some(first) = behind_lengths(first, groups.first.lengths) else {
        return Ok(false);
    };
    let Some(is_met) = meets_both(file, groups.mask, conds, key, first, others) else {
        return Ok(false);
    };
    if !is_met {
        return Ok(true);
    }
    let Some(row) = joined_row(alloc, file, groups.mask, key, first, others)? else {
        return Ok(false);
    };
    rows.push(row)?;
    Ok(true)
}

// Whether the record with this key and these bytes of its groups meets every condition. `None`:
// they are those of no record.
fn meets_both(
    file: &FileDef,
    mask: &[bool],
    conds: &[Cond],
    key: &[u8],
    first: &[u8],
    others: &[u8],
) -> Option<bool>
    requires storable { IsStorable file.now }
    requires long { length mask.now ≡ length (data_fields file.now) }
    ensures { (r : TheRow) → IsRowOf file.now r → key.now ≡ bytes_of r.0 →
        first.now ≡ body_of (chosen mask.now r.1) →
        others.now ≡ body_of (chosen (map not mask.now) r.1) →
        result ≡ Some (meets_conds conds.now r) }
{
    for cond in conds {
        let value = field_value(file, mask, cond.field, key, first, others)?;
        if !value.meets(cond.op, &cond.bound) {
            return Some(false);
        }
    }
    Some(true)
}

// The value of a field, the key being field 0, and 0 where the file has no such field. `None`: the
// bytes are those of no record.
fn field_value<'a>(
    file: &FileDef,
    mask: &[bool],
    field: u16,
    key: &'a [u8],
    first: &'a [u8],
    others: &'a [u8],
) -> Option<ValueRef<'a>>
    requires storable { IsStorable file.now }
    requires long { length mask.now ≡ length (data_fields file.now) }
    ensures { (r : TheRow) → IsRowOf file.now r → key.now ≡ bytes_of r.0 →
        first.now ≡ body_of (chosen mask.now r.1) →
        others.now ≡ body_of (chosen (map not mask.now) r.1) →
        IsSomeAnd result (λ v. value_of v ≡ value_at r field) }
{
    if field == 0 {
        return key_value(file.fields.0[0].kind, key);
    }
    data_value(
        data_fields(file),
        mask,
        usize::from(field) - 1,
        first,
        others,
    )
}

// The same of one of these fields, counted from 0.
fn data_value<'a>(
    fields: &[Field],
    mask: &[bool],
    index: usize,
    first: &'a [u8],
    others: &'a [u8],
) -> Option<ValueRef<'a>>
    requires short { AreShort fields.now }
    requires long { length mask.now ≡ length fields.now }
    ensures { (vs : List FieldValue) → AreFit fields.now vs →
        first.now ≡ body_of (chosen mask.now vs) →
        others.now ≡ body_of (chosen (map not mask.now) vs) →
        IsSomeAnd result (λ v. value_of v ≡ slice_index_or vs index (value.Int (pos 0))) }
{
    if index >= fields.len() {
        return Some(ValueRef::Int(0));
    }
    if mask[index] {
        let group = Group {
            mask,
            is_first: true,
        };
        front_at(fields, &group, index, first)
    } else {
        let group = Group {
            mask,
            is_first: false,
        };
        front_at(fields, &group, index, others)
    }
}

// The record with this key and these bytes of its groups, if they are those of one.
fn joined_row(
    alloc: Global,
    file: &FileDef,
    mask: &[bool],
    key: &[u8],
    first: &[u8],
    others: &[u8],
) -> Result<Option<Row>, NoMemory>
    requires storable { IsStorable file.now }
    requires long { length mask.now ≡ length (data_fields file.now) }
    ensures read { (r : TheRow) → IsRowOf file.now r → key.now ≡ bytes_of r.0 →
        first.now ≡ body_of (chosen mask.now r.1) →
        others.now ≡ body_of (chosen (map not mask.now) r.1) →
        IfOk result (λ found. found ≡ Some r) }
    ensures fits { IfOk result (λ found. IfSome found (IsRowOf file.now)) }
{
    let kind = file.fields.0[0].kind;
    let Some(key) = read_value_key(alloc, kind, key)? else {
        return Ok(None);
    };
    let first = Rest {
        codes: &[],
        body: first,
    };
    let others = Rest {
        codes: &[],
        body: others,
    };
    let Some(values) = read_both(alloc, data_fields(file), mask, first, others)? else {
        return Ok(None);
    };
    Ok(Some(Row { key, values }))
}

/// The body of the defaults of the fields outside the first group. `NoMemory`: there was none for
/// it.
pub(crate) fn default_body(
    alloc: Global,
    fields: &[Field],
    mask: &[bool],
) -> Result<Vec<u8>, NoMemory>
    requires { length mask.now ≡ length fields.now }
    ensures { IfOk result (λ body. body.items
        ≡ body_of (defaults_of (chosen (map not mask.now) fields.now))) }
{
    let mut body = Vec::new(alloc);
    for (at, field) in fields.iter().enumerate() {
        if !mask[at] {
            push_default(field.kind, &mut body)?;
        }
    }
    Ok(body)
}

fn push_default(kind: Kind, body: &mut Vec<u8>) -> Result<(), AllocError>
    ensures { IfOk result (λ _. body.new.items ≡ body.old.items ++ field_bytes (default_in kind)) }
{
    match kind {
        Kind::Int => body.extend_from_slice(&[0; 8]),
        Kind::Text(_) => body.extend_from_slice(&[0]),
        Kind::Bytes(_) => body.extend_from_slice(&[0, 0]),
    }
}
