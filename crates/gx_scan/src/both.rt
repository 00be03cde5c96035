// The values of a record whose two groups of data fields stand in entries of two leaves, each read
// from where it stands.
ghost use Rattle.std.specs.Prelude.{◌≡◌, ◌<◌, ◌++◌, ◌∷◌, [], List, length, map, filter, not, drop, if◌then◌else◌, Option, Some, option_map, IfOk, IfSome, IsSomeAnd};
ghost use Rattle.std.specs.List.{AllByRecursion};
ghost use Rattle.gx_values.specs.declared.values.Value.{Value as FieldValue};
ghost use Rattle.gx_values.specs.Values.{Fits, AreFit};
ghost use Rattle.gx_values.specs.Borrowed.{value_of};
ghost use Rattle.gx_schema.specs.Lookups.{data_fields};
ghost use Rattle.gx_ports.specs.LeafMaps.{entry_of};
ghost use Rattle.gx_actual.specs.Bodies.{IsShort, AreShort};
ghost use Rattle.gx_split.specs.Groups.{chosen};
ghost use Rattle.gx_model.specs.States.{Row as TheRow};
ghost use Rattle.gx_scan.specs.Entries.{entry_of_row};
ghost use Rattle.gx_scan.specs.Files.{IsStorable};
ghost use Rattle.gx_scan.specs.Groups.{has_others, first_stored, other_stored, IsSplitRow, IsLeft};
ghost use Rattle.gx_scan.specs.Records.{list_of_one};
ghost use Rattle.gx_codec.specs.Stored.{code_at, stored_value, HasCode, HaveCodes};

use crate::groups::Groups;
use crate::joined::default_body;
use crate::places::Place;
use crate::records::data_fields;
use gx_codec::{behind_lengths, read_front, split_stored};
use gx_ports::Entries;
use gx_schema::FileDef;
use gx_values::{Code, Field, Kind, NoMemory, ValueRef, Values};
use std::alloc::Global;

/// What is left of a group of values.
#[derive(Clone, Copy)]
pub struct Rest<'a> {
    /// of each of its fields, its code if it has one
    pub codes: &'a [Option<Code>],
    /// the bytes of its values
    pub body: &'a [u8],
}

/// The values of the one record whose entries these are, if there is one: that of its first group,
/// and behind it that of its others, unless each has its default. `None`: they are those of no
/// record. `NoMemory`: there was none for the values.
pub(crate) fn values_of_both(
    alloc: Global,
    file: &FileDef,
    groups: &Groups,
    entries: &Entries,
) -> Result<Option<Option<Values>>, NoMemory>
    requires storable { IsStorable file.now }
    requires long { length groups.now.mask.now ≡ length (data_fields file.now) }
    ensures read { (one : Option TheRow) →
        AllByRecursion (IsSplitRow file.now groups.now) (list_of_one one) →
        entries.now ≡ map (λ r. entry_of (first_stored groups.now r)) (list_of_one one)
        ++ map (λ r. entry_of (other_stored groups.now r))
        (filter (has_others groups.now.mask.now (data_fields file.now)) (list_of_one one)) →
        IfOk result (λ found. found ≡ Some (option_map (λ r. r.1) one)) }
    ensures fits { IfOk result
        (λ found. IfSome found (λ values. IfSome values (AreFit (data_fields file.now)))) }
{
    if entries.is_empty() {
        return Ok(Some(None));
    }
    match values_of_some(alloc, file, groups, entries)? {
        Some(values) => Ok(Some(Some(values))),
        None => Ok(None),
    }
}

// The same where there is an entry.
fn values_of_some(
    alloc: Global,
    file: &FileDef,
    groups: &Groups,
    entries: &Entries,
) -> Result<Option<Values>, NoMemory>
    requires storable { IsStorable file.now }
    requires long { length groups.now.mask.now ≡ length (data_fields file.now) }
    requires some { 0 < length entries.now }
    ensures read { (r : TheRow) → IsSplitRow file.now groups.now r →
        entries.now ≡ entry_of (first_stored groups.now r) ∷ map
        (λ q. entry_of (other_stored groups.now q))
        (filter (has_others groups.now.mask.now (data_fields file.now)) (r ∷ [])) →
        IfOk result (λ found. found ≡ Some r.1) }
    ensures fits { IfOk result (λ found. IfSome found (AreFit (data_fields file.now))) }
{
    let fields = data_fields(file);
    let Some(first) = rest_of(&groups.first, entries.entry(0).body) else {
        return Ok(None);
    };
    if entries.len() == 1 {
        let defaults = default_body(alloc, fields, groups.mask)?;
        let others = Rest {
            codes: &[],
            body: defaults.as_slice(),
        };
        return read_both(alloc, fields, groups.mask, first, others);
    }
    let Some(others) = rest_of(&groups.others, entries.entry(1).body) else {
        return Ok(None);
    };
    read_both(alloc, fields, groups.mask, first, others)
}

// All of the group of a record whose entry at its place has this body. `None`: it is that of no
// record.
fn rest_of<'a>(place: &'a Place, body: &'a [u8]) -> Option<Rest<'a>>
    ensures { (r : TheRow) → HaveCodes place.now.codes r.1 →
        body.now ≡ (entry_of_row place.now.lengths place.now.codes r).1 →
        IsSomeAnd result (λ rest. IsLeft rest r.1) }
{
    let body = behind_lengths(body, place.lengths)?;
    Some(Rest {
        codes: place.codes.as_slice(),
        body,
    })
}

// The values of these fields, of two groups. `None`: they are those of no values that fit.
pub(crate) fn read_both(
    alloc: Global,
    fields: &[Field],
    mask: &[bool],
    first: Rest<'_>,
    others: Rest<'_>,
) -> Result<Option<Values>, NoMemory>
    requires short { AreShort fields.now }
    requires long { length mask.now ≡ length fields.now }
    ensures read { (vs : List FieldValue) → AreFit fields.now vs →
        IsLeft first.entry (chosen mask.now vs) →
        IsLeft others.entry (chosen (map not mask.now) vs) →
        IfOk result (λ found. found ≡ Some vs) }
    ensures fits { IfOk result (λ found. IfSome found (AreFit fields.now)) }
{
    let mut values = Vec::with_capacity(alloc, fields.len())?;
    let mut first = first;
    let mut others = others;
    for (at, field) in fields.iter().enumerate() {
        let next = split_front(mask[at], field.kind, first, others);
        let Some((front, code, more, more_others)) = next else {
            return Ok(None);
        };
        let Some(value) = read_front(alloc, field.kind, code, front)? else {
            return Ok(None);
        };
        values.push(value)?;
        first = more;
        others = more_others;
    }
    if first.body.is_empty() && others.body.is_empty() {
        Ok(Some(Values(values)))
    } else {
        Ok(None)
    }
}

// What stands at the front of its group for a value of the kind, the code of the value if it has
// one, and what is left of both groups. `None`: nothing does.
fn split_front<'a>(
    is_first: bool,
    kind: Kind,
    first: Rest<'a>,
    others: Rest<'a>,
) -> Option<(ValueRef<'a>, Option<Code>, Rest<'a>, Rest<'a>)>
    requires { IsShort kind }
    ensures { (v : FieldValue) (more more_others : List FieldValue) → Fits kind v →
        IsLeft first.entry (if is_first then v ∷ more else more) →
        IsLeft others.entry (if is_first then more_others else v ∷ more_others) →
        IsSomeAnd result (λ s. HasCode s.1 v × (value_of s.0 ≡ stored_value s.1 v)
        × IsLeft s.2 more × IsLeft s.3 more_others) }
{
    if is_first {
        let (front, code, more) = split_rest(kind, first)?;
        return Some((front, code, more, others));
    }
    let (front, code, more) = split_rest(kind, others)?;
    Some((front, code, first, more))
}

// The same of one group.
fn split_rest<'a>(kind: Kind, rest: Rest<'a>) -> Option<(ValueRef<'a>, Option<Code>, Rest<'a>)>
    requires { IsShort kind }
    ensures { (v : FieldValue) (more : List FieldValue) → Fits kind v →
        IsLeft rest.entry (v ∷ more) →
        IsSomeAnd result (λ s. HasCode s.1 v × (value_of s.0 ≡ stored_value s.1 v)
        × IsLeft s.2 more) }
{
    let (code, codes) = split_code(rest.codes);
    let (front, body) = split_stored(kind, code, rest.body)?;
    Some((front, code, Rest { codes, body }))
}

// The code of the first of these fields, if it has one, and those of the others.
fn split_code(codes: &[Option<Code>]) -> (Option<Code>, &[Option<Code>])
    ensures first { result.0 ≡ code_at codes.now 0 }
    ensures others { result.1.now ≡ drop 1 codes.now }
{
    match codes.split_first() {
        Some((code, others)) => (*code, others),
        None => (None, codes),
    }
}
