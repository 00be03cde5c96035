// The records of a file among entries that are pieces of their bytes. The pieces of a record are
// joined; a record of one piece is read where it stands.
ghost use Rattle.std.specs.Prelude.{◌≡◌, ◌<◌, ◌≤◌, ◌+◌, ◌^◌, ◌++◌, ◌∷◌, [], List, ℕ, pos, length, map, drop, filter, flat_map, true, Option, Some, option_map, IfOk, IfSome, IsSomeAnd};
ghost use Rattle.std.specs.List.{AllByRecursion};
ghost use Rattle.gx_values.specs.declared.values.Value.TheVariants as value;
ghost use Rattle.gx_values.specs.Values.{AreFit};
ghost use Rattle.gx_values.specs.Keys.{bytes_of};
ghost use Rattle.gx_schema.specs.Lookups.{data_fields};
ghost use Rattle.gx_ports.specs.declared.leaves.Entry.{Entry as TheEntry};
ghost use Rattle.gx_ports.specs.LeafMaps.{entry_of, Extends};
ghost use Rattle.gx_divide.specs.Pieces.{pieces};
ghost use Rattle.gx_model.specs.States.{Row as TheRow, IsRowOf};
ghost use Rattle.gx_model.specs.Found.{meets_conds};
ghost use Rattle.gx_scan.specs.Files.{IsStorable};
ghost use Rattle.gx_scan.specs.Pieces.{numbered_entries, piece_entries};
ghost use Rattle.gx_scan.specs.Records.{list_of_one};
ghost use Rattle.gx_scan.specs.Search.{AddsChosen};

use crate::entries::{PLAIN_ROOM, add_met};
use crate::scan::read_values;
use gx_commands::Cond;
use gx_ports::Entries;
use gx_rows::Row;
use gx_schema::FileDef;
use gx_values::{NoMemory, Values, unrank};
use std::alloc::{AllocError, Global};

/// Appends the records whose pieces these entries are and that meet the conditions, in the order of
/// the entries, and answers whether the entries looked at were the pieces of records of the file;
/// a record that a condition rules out is read no further. `NoMemory`: there was none for the
/// records.
pub(crate) fn add_pieced_rows(
    alloc: Global,
    file: &FileDef,
    size: u16,
    conds: &[Cond],
    entries: &Entries,
    rows: &mut Vec<Row>,
) -> Result<bool, NoMemory>
    requires storable { IsStorable file.now }
    requires some { 0 < size }
    ensures { AddsChosen file.now
        (λ rs. AllByRecursion (IsRowOf file.now) rs
        × (entries.now ≡ map entry_of (flat_map (piece_entries size) rs)))
        conds.now rows.old.items rows.new.items result }
{
    let mut bytes = Vec::with_capacity(alloc, PLAIN_ROOM)?;
    let mut at = 0;
    while at < entries.len() {
        let found = add_record(alloc, file, size, conds, entries, at, &mut bytes, rows)?;
        let Some(last) = found else {
            return Ok(false);
        };
        at = last + 1;
    }
    Ok(true)
}

// Appends the record whose first piece is the entry at an index, if it meets the conditions, and
// gives the index of its last piece. The bytes are a buffer: what stood there is gone. `None`: the
// entries from there on begin with the pieces of no record.
fn add_record(
    alloc: Global,
    file: &FileDef,
    size: u16,
    conds: &[Cond],
    entries: &Entries,
    at: usize,
    bytes: &mut Vec<u8>,
    rows: &mut Vec<Row>,
) -> Result<Option<usize>, NoMemory>
    requires storable { IsStorable file.now }
    requires some { 0 < size }
    requires here { at < length entries.now }
    ensures chosen { (r : TheRow) (more : List TheEntry) → IsRowOf file.now r →
        drop at entries.now ≡ map entry_of (piece_entries size r) ++ more →
        IfOk result (λ found. IsSomeAnd found (λ last. (drop (last + 1) entries.now ≡ more)
        × (rows.new.items ≡ rows.old.items ++ filter (meets_conds conds.now) (r ∷ [])))) }
    ensures within { IfOk result
        (λ found. IfSome found (λ last. (at ≤ last) × (last < length entries.now))) }
    ensures front { Extends rows.old.items rows.new.items }
    ensures fit { AllByRecursion (IsRowOf file.now) rows.old.items →
        AllByRecursion (IsRowOf file.now) rows.new.items }
{
    let entry = entries.entry(at);
    let Some((key, number)) = split_number(entry.key) else {
        return Ok(None);
    };
    if number == 0 && entry.body.len() < usize::from(size) {
        let is_one = add_met(alloc, file, conds, key, entry.body, rows)?;
        return Ok(is_one.then_some(at));
    }
    bytes.clear();
    let Some(last) = push_pieces(size, key, entries, at, bytes)? else {
        return Ok(None);
    };
    let is_one = add_met(alloc, file, conds, key, bytes.as_slice(), rows)?;
    Ok(is_one.then_some(last))
}

/// The values of the one record whose pieces these entries are, if there is one. `None`: they are
/// the pieces of no one record. `NoMemory`: there was none for the values.
pub(crate) fn values_of_pieces(
    alloc: Global,
    file: &FileDef,
    size: u16,
    entries: &Entries,
) -> Result<Option<Option<Values>>, NoMemory>
    requires storable { IsStorable file.now }
    requires some { 0 < size }
    ensures read { (one : Option TheRow) → AllByRecursion (IsRowOf file.now) (list_of_one one) →
        entries.now ≡ map entry_of (flat_map (piece_entries size) (list_of_one one)) →
        IfOk result (λ found. found ≡ Some (option_map (λ r. r.1) one)) }
    ensures fits { IfOk result
        (λ found. IfSome found (λ values. IfSome values (AreFit (data_fields file.now)))) }
{
    if entries.is_empty() {
        return Ok(Some(None));
    }
    match values_of_some(alloc, file, size, entries)? {
        Some(values) => Ok(Some(Some(values))),
        None => Ok(None),
    }
}

// The same where there is an entry.
fn values_of_some(
    alloc: Global,
    file: &FileDef,
    size: u16,
    entries: &Entries,
) -> Result<Option<Values>, NoMemory>
    requires storable { IsStorable file.now }
    requires some { 0 < size }
    requires here { 0 < length entries.now }
    ensures read { (r : TheRow) → IsRowOf file.now r →
        entries.now ≡ map entry_of (piece_entries size r) →
        IfOk result (λ found. found ≡ Some r.1) }
    ensures fits { IfOk result (λ found. IfSome found (AreFit (data_fields file.now))) }
{
    let entry = entries.entry(0);
    let Some((key, number)) = split_number(entry.key) else {
        return Ok(None);
    };
    if number == 0 && entries.len() == 1 && entry.body.len() < usize::from(size) {
        return read_values(alloc, file, entry.body);
    }
    let mut bytes = Vec::new(alloc);
    let Some(last) = push_pieces(size, key, entries, 0, &mut bytes)? else {
        return Ok(None);
    };
    if entries.len() > last + 1 {
        return Ok(None);
    }
    read_values(alloc, file, bytes.as_slice())
}

// Appends the bytes of which the entries from an index on are the pieces under the key, and gives
// the index of the last piece. `None`: the entries from there on begin with the pieces of no bytes.
fn push_pieces(
    size: u16,
    key: &[u8],
    entries: &Entries,
    at: usize,
    bytes: &mut Vec<u8>,
) -> Result<Option<usize>, AllocError>
    requires { 0 < size }
    ensures joined { (whole : List ℕ) (more : List TheEntry) →
        drop at entries.now
        ≡ map entry_of (numbered_entries key.now 0 (pieces size whole)) ++ more →
        IfOk result (λ found. IsSomeAnd found (λ last. (drop (last + 1) entries.now ≡ more)
        × (bytes.new.items ≡ bytes.old.items ++ whole))) }
    ensures within { IfOk result
        (λ found. IfSome found (λ last. (at ≤ last) × (last < length entries.now))) }
{
    let full = usize::from(size);
    for index in at..entries.len() {
        let entry = entries.entry(index);
        if !is_piece(key, index - at, entry.key) || entry.body.len() > full {
            return Ok(None);
        }
        bytes.extend_from_slice(entry.body)?;
        if entry.body.len() < full {
            return Ok(Some(index));
        }
    }
    Ok(None)
}

// Whether an entry with this key is that of the piece with a number, of the record with a key.
fn is_piece(key: &[u8], number: usize, piece_key: &[u8]) -> bool
    ensures { piece_key.now ≡ key.now ++ bytes_of (value.Int (pos number)) → result ≡ true }
{
    match split_number(piece_key) {
        Some((front, found)) => found == number as u64 && front == key,
        None => false,
    }
}

// The key of the record and the number of the piece whose entry has this key. `None`: it is too
// short.
fn split_number(piece_key: &[u8]) -> Option<(&[u8], u64)>
    ensures { (key : List ℕ) (number : ℕ) → number < 2 ^ 64 →
        piece_key.now ≡ key ++ bytes_of (value.Int (pos number)) →
        IsSomeAnd result (λ s. (s.0.now ≡ key) × (s.1 ≡ number)) }
{
    let (key, number) = piece_key.split_last_chunk::<8>()?;
    Some((key, unrank(u64::from_be_bytes(*number)).cast_unsigned()))
}
