// What stands in a body for one value, by its code if it has one.
ghost use Rattle.std.specs.Prelude.{◌≡◌, ◌≤◌, ◌++◌, List, ℕ, ℤ, length, Some, IfOk, IfSome, IsSomeAnd};
ghost use Rattle.std.specs.Int.{w64};
ghost use Rattle.std.specs.Int.RustNames.{FitsSigned};
ghost use Rattle.gx_values.specs.declared.values.Kind.TheVariants as kind;
ghost use Rattle.gx_values.specs.declared.values.Value.{Value as FieldValue};
ghost use Rattle.gx_values.specs.declared.values.Value.TheVariants as value;
ghost use Rattle.gx_values.specs.Values.{Fits, value_cmp, is_met};
ghost use Rattle.gx_values.specs.Borrowed.{value_of};
ghost use Rattle.gx_actual.specs.Bodies.{field_bytes, IsShort};
ghost use Rattle.gx_encode.specs.Codes.{IsCodable};
ghost use Rattle.gx_encode.specs.Packs.{pack};
ghost use Rattle.gx_encode.specs.Rules.{coded};
ghost use Rattle.gx_encode.specs.Runs.{rle};
ghost use Rattle.gx_codec.specs.Stored.{stored_value, HasCode};

use gx_actual::{split_bytes, split_value};
use gx_encode::{unpack, unrle};
use gx_values::{Code, Kind, NoMemory, Op, Value, ValueRef, meets};
use std::alloc::Global;

/// What stands at the front of a body for a value of the kind, the bytes of its code if it has one,
/// and what follows.
pub fn split_stored(kind: Kind, code: Option<Code>, rest: &[u8]) -> Option<(ValueRef<'_>, &[u8])>
    requires { IsShort kind }
    ensures { (v : FieldValue) (more : List ℕ) → Fits kind v → HasCode code v →
        rest.now ≡ field_bytes (stored_value code v) ++ more →
        IsSomeAnd result (λ s. (value_of s.0 ≡ stored_value code v) × (s.1.now ≡ more)) }
{
    match code {
        Some(_) => {
            let (bytes, more) = split_bytes(rest)?;
            Some((ValueRef::Bytes(bytes), more))
        }
        None => split_value(kind, rest),
    }
}

/// The value of the kind for which this stands. `None`: there is none. `NoMemory`: there was none
/// for it.
pub fn read_front(
    alloc: Global,
    kind: Kind,
    code: Option<Code>,
    front: ValueRef<'_>,
) -> Result<Option<Value>, NoMemory>
    ensures read { (v : FieldValue) → Fits kind v → HasCode code v →
        value_of front.entry ≡ stored_value code v → IfOk result (λ found. found ≡ Some v) }
    ensures fits { IfOk result (λ found. IfSome found (Fits kind)) }
{
    match code {
        Some(code) => decoded(alloc, kind, code, front),
        None => front.checked_copy(alloc, kind),
    }
}

/// The value of the kind for which this stands by its code. `None`: there is none. `NoMemory`:
/// there was none for it.
fn decoded(
    alloc: Global,
    kind: Kind,
    code: Code,
    front: ValueRef<'_>,
) -> Result<Option<Value>, NoMemory>
    ensures read { (v : FieldValue) → Fits kind v → IsCodable code v →
        value_of front.entry ≡ coded code v → IfOk result (λ found. found ≡ Some v) }
    ensures fits { IfOk result (λ found. IfSome found (Fits kind)) }
{
    match (code, kind, front) {
        (Code::Pack, Kind::Int, ValueRef::Bytes(bytes)) => Ok(unpacked(bytes)),
        (Code::Rle, Kind::Text(most), ValueRef::Bytes(bytes)) => joined_runs(alloc, most, bytes),
        _ => Ok(None),
    }
}

fn unpacked(bytes: &[u8]) -> Option<Value>
    ensures read { (n : ℤ) → FitsSigned w64 n → bytes.now ≡ pack n → result ≡ Some (value.Int n) }
    ensures fits { IfSome result (Fits kind.Int) }
{
    let int = unpack(bytes)?;
    Some(Value::Int(int))
}

fn joined_runs(alloc: Global, most: u16, bytes: &[u8]) -> Result<Option<Value>, NoMemory>
    ensures read { (text : List ℕ) → Fits (kind.Text most) (value.Text text) → length text ≤ 200 →
        bytes.now ≡ rle text → IfOk result (λ found. found ≡ Some (value.Text text)) }
    ensures fits { IfOk result (λ found. IfSome found (Fits (kind.Text most))) }
{
    match unrle(alloc, bytes, most)? {
        Some(text) => Ok(Some(Value::Text(text))),
        None => Ok(None),
    }
}

/// Whether the value of the kind for which this stands meets a bound. `None`: it stands for none.
/// `NoMemory`: there was none to decode it.
pub fn meets_front(
    alloc: Global,
    kind: Kind,
    code: Option<Code>,
    front: ValueRef<'_>,
    op: Op,
    bound: &Value,
) -> Result<Option<bool>, NoMemory>
    ensures { (v : FieldValue) → Fits kind v → HasCode code v →
        value_of front.entry ≡ stored_value code v →
        IfOk result (λ found. found ≡ Some (is_met op (value_cmp v bound.now))) }
{
    let Some(code) = code else {
        return Ok(Some(front.meets(op, bound)));
    };
    match decoded(alloc, kind, code, front)? {
        Some(value) => Ok(Some(meets(&value, op, bound))),
        None => Ok(None),
    }
}
