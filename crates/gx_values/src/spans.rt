// The spans of the values that meet a condition.
ghost use Rattle.std.specs.Prelude.{◌≡◌, ◌≢◌, ◌↔◌, ◌≤◌, ◌+◌, ◌++◌, ◌∷◌, [], false, length, IsNone, IfSome};
ghost use Rattle.gx_values.specs.Values.{Fits, value_cmp, is_met};
ghost use Rattle.gx_values.specs.Spans.{IsSpanKind, IsSpanBound, HoldsThoseMet, IsValueSpan, IsBeyond, IsLow, IsHigh};
ghost use Rattle.gx_values.specs.declared.bytes.TheConstants.{MAX_KEY_LEN};
ghost use Rattle.gx_values.specs.declared.values.Op.TheVariants as the_op;
ghost use Rattle.gx_values.specs.declared.values.Kind.{Kind as TheKind};
ghost use Rattle.gx_values.specs.declared.values.Value.{Value as FieldValue};
ghost use Rattle.std.specs.Ordering.{is_lt, is_gt};

use crate::bytes::KeyBuf;
use crate::keys::{Span, value_key};
use crate::values::{Kind, Op, Value};
use arrayvec::ArrayVec;

/// The span of the keys that begin with a value which meets the condition. Values are of the kind:
/// ints, or texts of fewer than `MAX_KEY_LEN` bytes. `None`: no value meets it, as it is `Less`
/// with the least int or the empty text, or `Greater` with the greatest int.
pub fn span(kind: Kind, op: Op, bound: &Value) -> Option<Span>
    requires kind { IsSpanKind kind }
    requires fits { Fits kind bound.now }
    requires op { op ≢ the_op.Unequal }
    ensures meets { IfSome result (HoldsThoseMet kind op bound.now) }
    ensures whole { IfSome result (IsValueSpan kind) }
    ensures none { IsNone result ↔ IsBeyond op bound.now }
    ensures nothing { IsNone result → (v : FieldValue) → Fits kind v →
        is_met op (value_cmp v bound.now) ≡ false }
{
    let _ = kind;
    let (lo, hi) = match op {
        Op::Equal | Op::Unequal => (value_key(bound), value_key(bound)),
        Op::Less => (no_bound(), below(bound)?),
        Op::AtMost => (no_bound(), value_key(bound)),
        Op::Greater => (above(bound)?, no_bound()),
        Op::AtLeast => (value_key(bound), no_bound()),
    };
    Some(Span { lo, hi })
}

// No bytes, which as an end of a span let all keys through.
fn no_bound() -> KeyBuf
    ensures { result ≡ [] }
{
    KeyBuf(ArrayVec::new())
}

// The front of the greatest keys of a lower value.
fn below(bound: &Value) -> Option<KeyBuf>
    requires { IsSpanBound bound.now }
    ensures none { IsNone result ↔ IsBeyond the_op.Less bound.now }
    ensures some { (kind : TheKind) → Fits kind bound.now →
        IfSome result (IsHigh kind is_lt bound.now) }
{
    match bound {
        Value::Int(n) => Some(value_key(&Value::Int(n.checked_sub(1)?))),
        Value::Text(text) | Value::Bytes(text) => {
            let (last, front) = text.as_slice().split_last()?;
            Some(joined(front, *last - 1))
        }
    }
}

// The front of the least keys of a higher value.
fn above(bound: &Value) -> Option<KeyBuf>
    requires { IsSpanBound bound.now }
    ensures none { IsNone result ↔ IsBeyond the_op.Greater bound.now }
    ensures some { (kind : TheKind) → Fits kind bound.now →
        IfSome result (IsLow kind is_gt bound.now) }
{
    match bound {
        Value::Int(n) => Some(value_key(&Value::Int(n.checked_add(1)?))),
        Value::Text(text) | Value::Bytes(text) => Some(joined(text.as_slice(), 1)),
    }
}

// The bytes and one more.
fn joined(front: &[u8], last: u8) -> KeyBuf
    requires { length front.now + 1 ≤ MAX_KEY_LEN }
    ensures { result ≡ front.now ++ last ∷ [] }
{
    let mut bytes = ArrayVec::new();
    bytes.try_extend_from_slice(front).unwrap();
    bytes.push(last);
    KeyBuf(bytes)
}
