// Reading the fields of a file.
ghost use Rattle.std.specs.Prelude.{◌≡◌, ◌==◌, ◌<◌, [], ◌∷◌, ◌++◌, length, OnOk};
ghost use Rattle.gx_tokens.specs.Reading.{Gives, map_ok, want};
ghost use Rattle.gx_schema.specs.Reading.{size_from, size_at, kind_at, a_field_name, field_behind, fields_at};

use crate::names::{has_field, starts_with_letter};
use gx_tokens::{
    Fault, ReadError, Why, fault_at, natural_number, read_comma_or_close, read_number, read_word,
};
use gx_values::{Field, Fields, Kind, Name};
use std::alloc::{AllocError, Global};

const MOST_FIELDS: usize = 32;

const LONGEST_TEXT: u16 = 200;

const LONGEST_KEY_TEXT: u16 = 100;

// The kind of the texts of this size, in the first field or another.
fn size_from(first: bool, size: Option<u16>) -> Result<Kind, Why>
    ensures { result ≡ size_from first size }
{
    match size {
        None | Some(0) => Err(Why::Number),
        Some(size) if first && size > LONGEST_KEY_TEXT => Err(Why::KeyField),
        Some(size) => Ok(Kind::Text(size)),
    }
}

#[tactic(auto, unfolding(crate::specs::Reading::size_at))]
fn read_size(first: bool, bytes: &[u8]) -> Result<(Kind, &[u8]), Fault>
    ensures { map_ok (λ x. (x.0, x.1.now)) result ≡ size_at first bytes.now }
{
    let (number, rest) = read_number(bytes)?;
    match size_from(first, natural_number(number, LONGEST_TEXT)) {
        Ok(kind) => Ok((kind, rest)),
        Err(why) => Err(fault_at(bytes, why)),
    }
}

#[tactic(auto, unfolding(crate::specs::Reading::kind_at))]
fn read_kind(first: bool, bytes: &[u8]) -> Result<(Kind, &[u8]), Fault>
    ensures { map_ok (λ x. (x.0, x.1.now)) result ≡ kind_at first bytes.now }
{
    let (word, rest) = read_word(bytes)?;
    if word == b"int".as_slice() {
        Ok((Kind::Int, rest))
    } else if word == b"text".as_slice() {
        read_size(first, rest)
    } else {
        Err(fault_at(bytes, Why::Unexpected))
    }
}

fn read_field_name<'a>(before: &Fields, bytes: &'a [u8]) -> Result<(Name, &'a [u8]), Fault>
    ensures room { OnOk result (length before.now < 32) }
    ensures exact { map_ok (λ x. (x.0, x.1.now)) result ≡ want (a_field_name before.now) bytes.now }
{
    let (word, rest) = read_word(bytes)?;
    if !starts_with_letter(word) || has_field(&before.0, word) {
        return Err(fault_at(bytes, Why::NameUse));
    }
    if before.0.len() >= MOST_FIELDS {
        return Err(fault_at(bytes, Why::Count));
    }
    Ok((Name::from_slice(word), rest))
}

// The field that follows those before it.
#[tactic(auto, unfolding(crate::specs::Reading::field_behind))]
fn read_field<'a>(before: &Fields, bytes: &'a [u8]) -> Result<(Field, &'a [u8]), Fault>
    ensures room { OnOk result (length before.now < 32) }
    ensures exact { map_ok (λ x. (x.0, x.1.now)) result ≡ field_behind before.now bytes.now }
{
    let (name, rest) = read_field_name(before, bytes)?;
    let (kind, rest) = read_kind(before.0.is_empty(), rest)?;
    Ok((Field { name, kind }, rest))
}

fn add(fields: &mut Fields, field: Field) -> Result<(), AllocError>
    ensures { OnOk result (fields.new ≡ fields.old ++ field ∷ []) }
{
    fields.0.push(field)?;
    Ok(())
}

/// The fields up to the `)`, and what follows it.
pub fn read_fields(alloc: Global, bytes: &[u8]) -> Result<(Fields, &[u8]), ReadError>
    ensures { Gives (λ x. (x.0, x.1.now)) result (fields_at 33 [] bytes.now) }
{
    let mut fields = Fields(Vec::new(alloc));
    let mut rest = bytes;
    loop {
        let (field, after) = read_field(&fields, rest)?;
        add(&mut fields, field)?;
        let (more, after) = read_comma_or_close(after)?;
        if !more {
            return Ok((fields, after));
        }
        rest = after;
    }
}
