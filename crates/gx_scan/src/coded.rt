// The records of a file among the entries of a leaf where some data fields stand by their codes.
// Only the values of a record that meets the conditions are decoded.
ghost use Rattle.std.specs.Prelude.{◌≡◌, map, Option, Some, option_map, IfOk, IfSome};
ghost use Rattle.std.specs.List.{AllByRecursion};
ghost use Rattle.gx_values.specs.Values.{AreFit};
ghost use Rattle.gx_values.specs.Keys.{bytes_of};
ghost use Rattle.gx_ports.specs.LeafMaps.{entry_of};
ghost use Rattle.gx_schema.specs.Lookups.{data_fields};
ghost use Rattle.gx_model.specs.States.{Row as TheRow, IsRowOf};
ghost use Rattle.gx_scan.specs.Files.{IsStorable};
ghost use Rattle.gx_scan.specs.Entries.{entry_of_row, IsStoredRow};
ghost use Rattle.gx_scan.specs.Records.{list_of_one};
ghost use Rattle.gx_scan.specs.Search.{AddsChosen};

use crate::conditions::is_chosen;
use crate::places::Place;
use crate::records::data_fields;
use crate::scan::{add_chosen_rows, plain_values};
use gx_codec::{behind_lengths, read_stored};
use gx_commands::Cond;
use gx_ports::Entries;
use gx_rows::Row;
use gx_schema::FileDef;
use gx_values::{NoMemory, Values, read_value_key};
use std::alloc::Global;

/// Appends the records of the entries of a place that meet the conditions, in the order of the
/// entries, and answers whether each entry looked at was that of a record of the file; one that a
/// condition rules out is read no further. `NoMemory`: there was none for the records.
pub(crate) fn add_rows_at(
    alloc: Global,
    file: &FileDef,
    place: &Place,
    conds: &[Cond],
    entries: &Entries,
    rows: &mut Vec<Row>,
) -> Result<bool, NoMemory>
    requires { IsStorable file.now }
    ensures { AddsChosen file.now
        (λ rs. AllByRecursion (IsStoredRow file.now place.now.codes) rs
        × (entries.now ≡ map
        (λ r. entry_of (entry_of_row place.now.lengths place.now.codes r)) rs))
        conds.now rows.old.items rows.new.items result }
{
    if place.codes.is_empty() {
        add_chosen_rows(alloc, file, place.lengths, conds, entries, rows)
    } else {
        add_coded_rows(alloc, file, place, conds, entries, rows)
    }
}

fn add_coded_rows(
    alloc: Global,
    file: &FileDef,
    place: &Place,
    conds: &[Cond],
    entries: &Entries,
    rows: &mut Vec<Row>,
) -> Result<bool, NoMemory>
    requires { IsStorable file.now }
    ensures { AddsChosen file.now
        (λ rs. AllByRecursion (IsStoredRow file.now place.now.codes) rs
        × (entries.now ≡ map
        (λ r. entry_of (entry_of_row place.now.lengths place.now.codes r)) rs))
        conds.now rows.old.items rows.new.items result }
{
    for index in 0..entries.len() {
        let entry = entries.entry(index);
        let found = is_chosen(alloc, file, place, conds, entry.key, entry.body)?;
        let Some(is_chosen) = found else {
            return Ok(false);
        };
        if !is_chosen {
            continue;
        }
        let Some(row) = coded_row(alloc, file, place, entry.key, entry.body)? else {
            return Ok(false);
        };
        rows.push(row)?;
    }
    Ok(true)
}

// The record of an entry of a place, if it is one.
fn coded_row(
    alloc: Global,
    file: &FileDef,
    place: &Place,
    key: &[u8],
    body: &[u8],
) -> Result<Option<Row>, NoMemory>
    requires { IsStorable file.now }
    ensures read { (r : TheRow) → IsStoredRow file.now place.now.codes r → key.now ≡ bytes_of r.0 →
        body.now ≡ (entry_of_row place.now.lengths place.now.codes r).1 →
        IfOk result (λ found. found ≡ Some r) }
    ensures fits { IfOk result (λ found. IfSome found (IsRowOf file.now)) }
{
    let kind = file.fields.0[0].kind;
    let Some(key) = read_value_key(alloc, kind, key)? else {
        return Ok(None);
    };
    let Some(values) = coded_values(alloc, file, place, body)? else {
        return Ok(None);
    };
    Ok(Some(Row { key, values }))
}

/// The values of the one record of a place that has an entry among these, if there is one. `None`:
/// the entry is that of no record. `NoMemory`: there was none for the values.
pub(crate) fn values_at_place(
    alloc: Global,
    file: &FileDef,
    place: &Place,
    entries: &Entries,
) -> Result<Option<Option<Values>>, NoMemory>
    requires { IsStorable file.now }
    ensures read { (one : Option TheRow) →
        AllByRecursion (IsStoredRow file.now place.now.codes) (list_of_one one) →
        entries.now ≡ map (λ r. entry_of (entry_of_row place.now.lengths place.now.codes r))
        (list_of_one one) → IfOk result (λ found. found ≡ Some (option_map (λ r. r.1) one)) }
    ensures fits { IfOk result
        (λ found. IfSome found (λ values. IfSome values (AreFit (data_fields file.now)))) }
{
    if entries.is_empty() {
        return Ok(Some(None));
    }
    match values_of_entry(alloc, file, place, entries.entry(0).body)? {
        Some(values) => Ok(Some(Some(values))),
        None => Ok(None),
    }
}

// The values of the record whose entry at a place has this body. `None`: it is that of no record.
fn values_of_entry(
    alloc: Global,
    file: &FileDef,
    place: &Place,
    body: &[u8],
) -> Result<Option<Values>, NoMemory>
    requires { IsStorable file.now }
    ensures read { (r : TheRow) → IsStoredRow file.now place.now.codes r →
        body.now ≡ (entry_of_row place.now.lengths place.now.codes r).1 →
        IfOk result (λ found. found ≡ Some r.1) }
    ensures fits { IfOk result (λ found. IfSome found (AreFit (data_fields file.now))) }
{
    if !place.codes.is_empty() {
        return coded_values(alloc, file, place, body);
    }
    plain_values(alloc, file, place.lengths, body)
}

// The same where some fields have codes.
fn coded_values(
    alloc: Global,
    file: &FileDef,
    place: &Place,
    body: &[u8],
) -> Result<Option<Values>, NoMemory>
    requires { IsStorable file.now }
    ensures read { (r : TheRow) → IsStoredRow file.now place.now.codes r →
        body.now ≡ (entry_of_row place.now.lengths place.now.codes r).1 →
        IfOk result (λ found. found ≡ Some r.1) }
    ensures fits { IfOk result (λ found. IfSome found (AreFit (data_fields file.now))) }
{
    match behind_lengths(body, place.lengths) {
        Some(stored) => read_stored(alloc, data_fields(file), &place.codes, stored),
        None => Ok(None),
    }
}
