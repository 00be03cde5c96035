// Codes of values, and back.
ghost use Rattle.std.specs.Prelude.{◌≡◌, ◌≤◌, ◌<◌, length, slice_index_or, IfOk};
ghost use Rattle.gx_values.specs.Written.{IsRead};
ghost use Rattle.gx_values.specs.declared.values.Code.TheVariants as code;
ghost use Rattle.gx_values.specs.declared.values.Kind.TheVariants as kind;
ghost use Rattle.gx_encode.specs.Codes.{code_of, IsCodable, IsCodeKind};
ghost use Rattle.gx_values.specs.Values.{no_field, no_value};
ghost use Rattle.gx_encode.specs.Forms.{changed};
ghost use Rattle.gx_encode.specs.Rules.{bytes_in};

use crate::packs::{pack_into, unpack};
use crate::runs::{rle_into, unrle};
use gx_values::{Code, Fields, Kind, NoMemory, Octets, Value, Values};
use std::alloc::Global;

/// The code of the value. `NoMemory`: there was none for it.
pub fn coded(alloc: Global, code: Code, value: &Value) -> Result<Octets, NoMemory>
    requires { IsCodable code value.now }
    ensures { IfOk result (λ bytes. bytes ≡ code_of code value.now) }
{
    match (code, value) {
        (Code::Pack, Value::Int(n)) => pack_into(alloc, *n),
        (Code::Rle, Value::Text(text)) => rle_into(alloc, text.as_slice()),
        _ => unreachable!(),
    }
}

/// The value of the kind whose code these bytes are. `None`: they are the code of none. `NoMemory`:
/// there was none for it.
pub(crate) fn decoded(
    alloc: Global,
    code: Code,
    kind: Kind,
    bytes: &[u8],
) -> Result<Option<Value>, NoMemory>
    requires { IsCodeKind code kind }
    ensures { IfOk result (IsRead (code_of code) kind bytes.now) }
{
    match (code, kind) {
        (Code::Pack, Kind::Int) => Ok(read_int(bytes)),
        (Code::Rle, Kind::Text(most)) => read_text(alloc, most, bytes),
        _ => unreachable!(),
    }
}

fn read_int(bytes: &[u8]) -> Option<Value>
    ensures { IsRead (code_of code.Pack) kind.Int bytes.now result }
{
    match unpack(bytes) {
        Some(n) => Some(Value::Int(n)),
        None => None,
    }
}

fn read_text(alloc: Global, most: u16, bytes: &[u8]) -> Result<Option<Value>, NoMemory>
    requires { most ≤ 200 }
    ensures { IfOk result (IsRead (code_of code.Rle) (kind.Text most) bytes.now) }
{
    match unrle(alloc, bytes, most)? {
        Some(text) => Ok(Some(Value::Text(text))),
        None => Ok(None),
    }
}

/// The value with the number.
pub(crate) fn value_at(values: &Values, number: usize) -> &Value
    requires { number < length values.now }
    ensures { result.now ≡ slice_index_or values.now number no_value }
{
    &values.0[number]
}

/// The kind of the field with the number.
pub(crate) fn kind_at(fields: &Fields, number: usize) -> Kind
    requires { number < length fields.now }
    ensures { result ≡ (slice_index_or fields.now number no_field).kind }
{
    fields.0[number].kind
}

/// The bytes of the value with the number. No byte where it isn't bytes.
pub(crate) fn bytes_at(values: &Values, number: usize) -> &[u8]
    requires { number < length values.now }
    ensures { result.now ≡ bytes_in (slice_index_or values.now number no_value) }
{
    match &values.0[number] {
        Value::Bytes(bytes) => bytes.as_slice(),
        Value::Int(_) | Value::Text(_) => &[],
    }
}

/// The values with another one in the place of the one with the number.
pub(crate) fn with_value(values: Values, number: usize, value: Value) -> Values
    requires { number < length values }
    ensures { result ≡ changed number (λ _. value) values }
{
    let mut made = values;
    made.0[number] = value;
    made
}
