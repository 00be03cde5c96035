// The defaults of fields.
ghost use Rattle.std.specs.Prelude.{◌≡◌};
ghost use Rattle.gx_values.specs.Values.{default_of, is_default};

use crate::bytes::Octets;
use crate::records::Field;
use crate::values::{Kind, Value};
use std::alloc::Global;

/// The default of the field: 0, the empty text, or no byte.
pub fn default_of(alloc: Global, field: &Field) -> Value
    ensures { result ≡ default_of field.now }
{
    match field.kind {
        Kind::Int => Value::Int(0),
        Kind::Text(_) => Value::Text(Octets(Vec::new(alloc))),
        Kind::Bytes(_) => Value::Bytes(Octets(Vec::new(alloc))),
    }
}

/// Whether the value is the default of the field.
pub fn is_default(field: &Field, value: &Value) -> bool
    ensures { result ≡ is_default field.now value.now }
{
    match (field.kind, value) {
        (Kind::Int, Value::Int(n)) => *n == 0,
        (Kind::Text(_), Value::Text(text)) => text.as_slice().is_empty(),
        (Kind::Bytes(_), Value::Bytes(bytes)) => bytes.as_slice().is_empty(),
        _ => false,
    }
}
