// Pieces of bytes as parts, and back.
ghost use Rattle.std.specs.Prelude.{◌≡◌, ◌∷◌, [], ◌<◌, ◌≤◌, ◌+◌, ◌++◌, pos, length, slice_index_or, IfOk};
ghost use Rattle.std.specs.Option.{option_map};
ghost use Rattle.gx_values.specs.declared.values.Value.TheVariants as value;
ghost use Rattle.gx_mapping.specs.declared.parts.Part.{Part as ThePart};
ghost use Rattle.gx_mapping.specs.Rule.{In};
ghost use Rattle.gx_divide.specs.Pieces.{pieces};
ghost use Rattle.gx_divide.specs.Rules.{bytes_in, piece_part, numbered, is_number, is_at, joined};

use gx_mapping::{Part, Parts};
use gx_values::{NoMemory, Octets, Rec, Value, Values};
use std::alloc::Global;

/// The bytes of the one value. No byte where there is no value, or it isn't bytes.
pub(crate) fn bytes_in(values: &Values) -> &[u8]
    ensures { result.now ≡ bytes_in values.now }
{
    match values.0.first() {
        Some(Value::Bytes(bytes)) => bytes.as_slice(),
        _ => &[],
    }
}

pub(crate) fn one_value(alloc: Global, value: Value) -> Result<Values, NoMemory>
    ensures { IfOk result (λ values. values ≡ value ∷ []) }
{
    let mut values = Vec::with_capacity(alloc, 1)?;
    values.push(value)?;
    Ok(Values(values))
}

// The piece with a number.
fn piece_part(alloc: Global, key: &Values, number: u32, piece: &[u8]) -> Result<Part, NoMemory>
    ensures { IfOk result (λ part. part ≡ piece_part key.now number piece.now) }
{
    let key = piece_key(alloc, key, number)?;
    let piece = Octets::from_slice(alloc, piece)?;
    let fields = one_value(alloc, Value::Bytes(piece))?;
    let rec = Rec { key, fields };
    Ok(Part { child: 0, rec })
}

// The key of a piece, in memory of its length.
fn piece_key(alloc: Global, key: &Values, number: u32) -> Result<Values, NoMemory>
    ensures { IfOk result (λ made. made ≡ key.now ++ value.Int (pos number) ∷ []) }
{
    let mut values = Vec::with_capacity(alloc, key.0.len().saturating_add(1))?;
    for value in &key.0 {
        values.push(value.copy(alloc)?)?;
    }
    values.push(Value::Int(i64::from(number)))?;
    Ok(Values(values))
}

/// The one piece of a record whose bytes are fewer than those of a piece. `NoMemory`: there was
/// none for its key.
pub(crate) fn only_piece(alloc: Global, rec: Rec) -> Result<Part, NoMemory>
    ensures { IfOk result (λ part. part ≡ record {
      child = 0;
      rec = record { key = rec.key ++ value.Int (pos 0) ∷ []; fields = rec.fields };
    }) }
{
    let key = piece_key(alloc, &rec.key, 0)?;
    let rec = Rec {
        key,
        fields: rec.fields,
    };
    Ok(Part { child: 0, rec })
}

/// The bytes in pieces of `size` bytes and a last one of fewer, as parts under the key and their
/// numbers from 0 on. `NoMemory`: there was none for them.
pub(crate) fn numbered_pieces(
    alloc: Global,
    size: u16,
    key: &Values,
    bytes: &[u8],
) -> Result<Parts, NoMemory>
    requires some { 0 < size }
    requires few { length bytes.now ≤ 65535 }
    ensures { IfOk result (λ parts. parts ≡ numbered key.now 0 (pieces size bytes.now)) }
{
    let size = usize::from(size);
    let mut parts = Vec::with_capacity(alloc, bytes.len() / size + 1)?;
    let mut rest = bytes;
    let mut number = 0u32;
    while rest.len() >= size {
        let (piece, more) = rest.split_at(size);
        parts.push(piece_part(alloc, key, number, piece)?)?;
        rest = more;
        number += 1;
    }
    parts.push(piece_part(alloc, key, number, rest)?)?;
    Ok(Parts(parts))
}

// Whether the value is this number.
fn is_number(number: usize, value: &Value) -> bool
    ensures { result ≡ is_number number value.now }
{
    match value {
        Value::Int(n) => u64::try_from(*n).is_ok_and(|n| n == number as u64),
        Value::Text(_) | Value::Bytes(_) => false,
    }
}

// Whether it stands in the part's key behind so many values.
fn is_at(width: usize, number: usize, part: &Part) -> bool
    requires { width < length part.now.rec.key }
    ensures { result ≡ is_at width number part.now }
{
    is_number(number, value_at(&part.rec.key, width))
}

fn value_at(key: &Values, width: usize) -> &Value
    requires { width < length key.now }
    ensures { result.now ≡ slice_index_or key.now width (value.Int (pos 0)) }
{
    &key.0[width]
}

/// The bytes of which these parts are the pieces, where the number stands in each key behind so
/// many values. `None`: they are the pieces of no bytes. `NoMemory`: there was none for the bytes.
pub(crate) fn joined(
    alloc: Global,
    size: u16,
    width: usize,
    parts: &[Part],
) -> Result<Option<Vec<u8>>, NoMemory>
    requires { (p : ThePart) → In p parts.now → width < length p.rec.key }
    ensures { IfOk result (λ found. option_map (λ bytes. bytes.items) found
        ≡ joined size width 0 parts.now) }
{
    let mut bytes = Vec::new(alloc);
    for index in 0..parts.len() {
        let part = &parts[index];
        let piece = bytes_in(&part.rec.fields);
        if !is_at(width, index, part) {
            return Ok(None);
        }
        bytes.extend_from_slice(piece)?;
        if index + 1 == parts.len() {
            return Ok((piece.len() < usize::from(size)).then_some(bytes));
        }
        if piece.len() != usize::from(size) {
            return Ok(None);
        }
    }
    Ok(None)
}
