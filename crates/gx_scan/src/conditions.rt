// Conditions tested on the bytes of an entry where some data fields stand by their codes. Only the
// values that are tested are decoded.
ghost use Rattle.std.specs.Prelude.{◌≡◌, List, pos, slice_index_or, Some, IfOk};
ghost use Rattle.gx_values.specs.declared.values.Value.{Value as FieldValue};
ghost use Rattle.gx_values.specs.declared.values.Value.TheVariants as value;
ghost use Rattle.gx_values.specs.Values.{Fits, AreFit, value_cmp, is_met};
ghost use Rattle.gx_values.specs.Keys.{bytes_of, IsKeyKind};
ghost use Rattle.gx_actual.specs.Bodies.{body_of, AreShort};
ghost use Rattle.gx_model.specs.States.{Row as TheRow};
ghost use Rattle.gx_model.specs.Found.{meets_cond, meets_conds};
ghost use Rattle.gx_scan.specs.Files.{IsStorable};
ghost use Rattle.gx_scan.specs.Entries.{entry_of_row, IsStoredRow};
ghost use Rattle.gx_codec.specs.Stored.{stored_values, HaveCodes};

use crate::places::Place;
use crate::records::data_fields;
use gx_codec::{Codes, behind_lengths, front_at, meets_front};
use gx_commands::Cond;
use gx_schema::FileDef;
use gx_values::{Field, Kind, NoMemory, ValueRef, key_value};
use std::alloc::Global;

/// Whether the record of an entry of a place meets every condition. `None`: the entry is that of no
/// record. `NoMemory`: there was none to decode a value.
pub(crate) fn is_chosen(
    alloc: Global,
    file: &FileDef,
    place: &Place,
    conds: &[Cond],
    key: &[u8],
    body: &[u8],
) -> Result<Option<bool>, NoMemory>
    requires { IsStorable file.now }
    ensures { (r : TheRow) → IsStoredRow file.now place.now.codes r → key.now ≡ bytes_of r.0 →
        body.now ≡ (entry_of_row place.now.lengths place.now.codes r).1 →
        IfOk result (λ found. found ≡ Some (meets_conds conds.now r)) }
{
    let Some(stored) = behind_lengths(body, place.lengths) else {
        return Ok(None);
    };
    for cond in conds {
        let Some(is_met) = meets_one(alloc, file, &place.codes, cond, key, stored)? else {
            return Ok(None);
        };
        if !is_met {
            return Ok(Some(false));
        }
    }
    Ok(Some(true))
}

// The same of one condition, and of a body without its lengths.
fn meets_one(
    alloc: Global,
    file: &FileDef,
    codes: &Codes,
    cond: &Cond,
    key: &[u8],
    stored: &[u8],
) -> Result<Option<bool>, NoMemory>
    requires { IsStorable file.now }
    ensures { (r : TheRow) → IsStoredRow file.now codes.now r → key.now ≡ bytes_of r.0 →
        stored.now ≡ body_of (stored_values codes.now r.1) →
        IfOk result (λ found. found ≡ Some (meets_cond r cond.now)) }
{
    if cond.field == 0 {
        return Ok(meets_key(file.fields.0[0].kind, cond, key));
    }
    let index = usize::from(cond.field) - 1;
    meets_data(alloc, data_fields(file), codes, index, cond, stored)
}

fn meets_key(kind: Kind, cond: &Cond, key: &[u8]) -> Option<bool>
    requires { IsKeyKind kind }
    ensures { (v : FieldValue) → Fits kind v → key.now ≡ bytes_of v →
        result ≡ Some (is_met cond.now.op (value_cmp v cond.now.bound)) }
{
    Some(key_value(kind, key)?.meets(cond.op, &cond.bound))
}

// Whether the value of one of these fields, counted from 0, meets the condition, and 0 where there
// are fewer. `None`: the body is that of no values of the fields.
fn meets_data(
    alloc: Global,
    fields: &[Field],
    codes: &Codes,
    index: usize,
    cond: &Cond,
    stored: &[u8],
) -> Result<Option<bool>, NoMemory>
    requires { AreShort fields.now }
    ensures { (vs : List FieldValue) → AreFit fields.now vs → HaveCodes codes.now vs →
        stored.now ≡ body_of (stored_values codes.now vs) → IfOk result (λ found. found
        ≡ Some (is_met cond.now.op
        (value_cmp (slice_index_or vs index (value.Int (pos 0))) cond.now.bound))) }
{
    if index >= fields.len() {
        return Ok(Some(ValueRef::Int(0).meets(cond.op, &cond.bound)));
    }
    let Some(front) = front_at(fields, codes, index, stored) else {
        return Ok(None);
    };
    let code = codes.code_at(index);
    meets_front(alloc, fields[index].kind, code, front, cond.op, &cond.bound)
}
