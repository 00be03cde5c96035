// The bodies of records in leaves: the values other than the key, one after the other.
ghost use Rattle.std.specs.Prelude.{◌≡◌, ◌≤◌, ◌++◌, List, ℕ, length, IfOk, IfSome, IsSomeAnd};
ghost use Rattle.gx_values.specs.Values.{Fits, AreFit};
ghost use Rattle.gx_values.specs.Borrowed.{value_of};
ghost use Rattle.gx_values.specs.Written.{AreRead};
ghost use Rattle.gx_values.specs.declared.values.Value.{Value as FieldValue};
ghost use Rattle.gx_values.specs.declared.values.Value.TheVariants as value;
ghost use Rattle.gx_actual.specs.Bodies.{field_bytes, body_of, IsShort, AreShort, HasLength};

use gx_values::{Field, Kind, NoMemory, Octets, Value, ValueRef, Values};
use std::alloc::{AllocError, Global};

/// The body of the values of these fields, of which no text or bytes may be longer than what its
/// length is written in. `NoMemory`: there was none for it.
pub fn body_bytes(alloc: Global, fields: &[Field], values: &[Value]) -> Result<Octets, NoMemory>
    requires short { AreShort fields.now }
    requires fit { AreFit fields.now values.now }
    ensures { IfOk result (λ body. body ≡ body_of values.now) }
{
    let _fields = fields;
    let mut body = Vec::with_capacity(alloc, room_for(values))?;
    for value in values {
        push_value(&mut body, value)?;
    }
    Ok(Octets(body))
}

// How many bytes the body takes, so that it never has to grow.
fn room_for(values: &[Value]) -> usize {
    let mut room = 0usize;
    for value in values {
        room = room.saturating_add(width_of(value));
    }
    room
}

/// How many bytes of a body the value takes, as room is made for it before it is appended.
pub fn width_of(value: &Value) -> usize {
    match value {
        Value::Int(_) => 8,
        Value::Text(text) => text.0.len().saturating_add(1),
        Value::Bytes(bytes) => bytes.0.len().saturating_add(2),
    }
}

/// Appends the bytes of a value to a body. An error is an allocation failure.
pub fn push_value(body: &mut Vec<u8>, value: &Value) -> Result<(), AllocError>
    requires { HasLength value.now }
    ensures { IfOk result (λ _. body.new.items ≡ body.old.items ++ field_bytes value.now) }
{
    match value {
        Value::Int(n) => body.extend_from_slice(&n.to_be_bytes())?,
        Value::Text(text) => {
            body.push(text.0.len() as u8)?;
            body.extend_from_slice(&text.0)?;
        }
        Value::Bytes(bytes) => {
            body.extend_from_slice(&(bytes.0.len() as u16).to_be_bytes())?;
            body.extend_from_slice(&bytes.0)?;
        }
    }
    Ok(())
}

/// The values of these fields that the body is of. `None`: it is the body of no values that fit
/// them.
/// `NoMemory`: there was none for the values.
pub fn read_body(alloc: Global, fields: &[Field], body: &[u8]) -> Result<Option<Values>, NoMemory>
    requires { AreShort fields.now }
    ensures { IfOk result (AreRead field_bytes fields.now body.now) }
{
    let mut values = Vec::with_capacity(alloc, fields.len())?;
    let mut rest = body;
    for field in fields {
        let Some((front, more)) = split_value(field.kind, rest) else {
            return Ok(None);
        };
        let Some(value) = front.checked_copy(alloc, field.kind)? else {
            return Ok(None);
        };
        values.push(value)?;
        rest = more;
    }
    if rest.is_empty() {
        Ok(Some(Values(values)))
    } else {
        Ok(None)
    }
}

/// The value of this kind that stands at the front of a body, and what follows. Whether it fits the
/// kind isn't tested. `None`: no value of the kind does.
pub fn split_value(kind: Kind, rest: &[u8]) -> Option<(ValueRef<'_>, &[u8])>
    requires { IsShort kind }
    ensures whole { IfSome result (λ s. rest.now ≡ field_bytes (value_of s.0) ++ s.1.now) }
    ensures found { (v : FieldValue) (more : List ℕ) → Fits kind v →
        rest.now ≡ field_bytes v ++ more →
        IsSomeAnd result (λ s. (value_of s.0 ≡ v) × (s.1.now ≡ more)) }
{
    match kind {
        Kind::Int => {
            let (front, more) = rest.split_first_chunk::<8>()?;
            let int = u64::from_be_bytes(*front).cast_signed();
            Some((ValueRef::Int(int), more))
        }
        Kind::Text(_) => {
            let (length, more) = rest.split_first()?;
            let (text, more) = more.split_at_checked(usize::from(*length))?;
            Some((ValueRef::Text(text), more))
        }
        Kind::Bytes(_) => {
            let (bytes, more) = split_bytes(rest)?;
            Some((ValueRef::Bytes(bytes), more))
        }
    }
}

/// The same of bytes, of whatever length. `None`: no bytes stand at the front.
pub fn split_bytes(rest: &[u8]) -> Option<(&[u8], &[u8])>
    ensures whole { IfSome result
        (λ s. rest.now ≡ field_bytes (value.Bytes s.0.now) ++ s.1.now) }
    ensures found { (bytes more : List ℕ) → length bytes ≤ 65535 →
        rest.now ≡ field_bytes (value.Bytes bytes) ++ more →
        IsSomeAnd result (λ s. (s.0.now ≡ bytes) × (s.1.now ≡ more)) }
{
    let (length, more) = rest.split_first_chunk::<2>()?;
    let length = u16::from_be_bytes(*length);
    more.split_at_checked(usize::from(length))
}
