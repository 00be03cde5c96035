// The values of a body, read in the order of their fields.
ghost use Rattle.std.specs.Prelude.{◌≡◌, List, Some, IfOk, IfSome};
ghost use Rattle.gx_values.specs.declared.values.Value.{Value as FieldValue};
ghost use Rattle.gx_values.specs.Values.{AreFit};
ghost use Rattle.gx_actual.specs.Bodies.{body_of, AreShort};
ghost use Rattle.gx_codec.specs.Stored.{stored_values, HaveCodes};

use crate::codes::Codes;
use crate::fronts::{read_front, split_stored};
use gx_values::{Field, NoMemory, Values};
use std::alloc::Global;

/// The values of these fields whose body this is, where some stand by their codes. `None`: it is
/// the body of no values that fit. `NoMemory`: there was none for the values.
pub fn read_stored(
    alloc: Global,
    fields: &[Field],
    codes: &Codes,
    body: &[u8],
) -> Result<Option<Values>, NoMemory>
    requires { AreShort fields.now }
    ensures read { (vs : List FieldValue) → AreFit fields.now vs → HaveCodes codes.now vs →
        body.now ≡ body_of (stored_values codes.now vs) → IfOk result (λ found. found ≡ Some vs) }
    ensures fits { IfOk result (λ found. IfSome found (AreFit fields.now)) }
{
    let mut values = Vec::with_capacity(alloc, fields.len())?;
    let mut rest = body;
    for (at, field) in fields.iter().enumerate() {
        let code = codes.code_at(at);
        let Some((front, more)) = split_stored(field.kind, code, rest) else {
            return Ok(None);
        };
        let Some(value) = read_front(alloc, field.kind, code, front)? else {
            return Ok(None);
        };
        values.push(value)?;
        rest = more;
    }
    if rest.is_empty() {
        Ok(Some(Values(values)))
    } else {
        Ok(None)
    }
}
