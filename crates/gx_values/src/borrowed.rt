// Values whose bytes another owns.
ghost use Rattle.std.specs.Prelude.{◌≡◌, ◌↔◌, IfOk, IfSome, IsSome, IsTrue};
ghost use Rattle.gx_values.specs.Values.{Fits, value_cmp, is_met};
ghost use Rattle.gx_values.specs.Borrowed.{value_of};

use crate::bytes::Octets;
use crate::no_memory::NoMemory;
use crate::values::{Kind, Op, Value, is_printable_text};
use std::alloc::Global;
use std::cmp::Ordering;

/// A value whose bytes another owns, as they lie in a `Value`, in a key, or in a body.
#[derive(Clone, Copy)]
pub enum ValueRef<'a> {
    /// a signed number
    Int(i64),
    /// the bytes of a text
    Text(&'a [u8]),
    /// any bytes
    Bytes(&'a [u8]),
}

impl ValueRef<'_> {
    /// Compares the value with another: ints as numbers, texts and bytes by their bytes, a proper
    /// prefix first. Of two kinds ints come first, then texts, then bytes.
    pub fn compare(self, other: &Value) -> Ordering
        ensures { result ≡ value_cmp (value_of self.entry) other.now }
    {
        match (self, other) {
            (ValueRef::Int(a), Value::Int(b)) => a.cmp(b),
            (ValueRef::Int(_), _) => Ordering::Less,
            (ValueRef::Text(_), Value::Int(_)) => Ordering::Greater,
            (ValueRef::Text(a), Value::Text(b)) => a.cmp(b.as_slice()),
            (ValueRef::Text(_), Value::Bytes(_)) => Ordering::Less,
            (ValueRef::Bytes(a), Value::Bytes(b)) => a.cmp(b.as_slice()),
            (ValueRef::Bytes(_), _) => Ordering::Greater,
        }
    }

    /// Whether the value meets the condition that `op` names with the bound, in the order of
    /// `compare`.
    pub fn meets(self, op: Op, bound: &Value) -> bool
        ensures { result ≡ is_met op (value_cmp (value_of self.entry) bound.now) }
    {
        is_met(op, self.compare(bound))
    }

    /// Whether the value is of the kind, and no longer than the kind says.
    pub fn fits(self, kind: Kind) -> bool
        ensures { IsTrue result ↔ Fits kind (value_of self.entry) }
    {
        match (kind, self) {
            (Kind::Int, ValueRef::Int(_)) => true,
            (Kind::Text(most), ValueRef::Text(text)) => {
                text.len() <= usize::from(most) && is_printable_text(text)
            }
            (Kind::Bytes(most), ValueRef::Bytes(bytes)) => bytes.len() <= usize::from(most),
            _ => false,
        }
    }

    /// An equal value that owns its bytes. `NoMemory`: there was none for them.
    pub fn copy(self, alloc: Global) -> Result<Value, NoMemory>
        ensures { IfOk result (λ copy. copy ≡ value_of self.entry) }
    {
        match self {
            ValueRef::Int(n) => Ok(Value::Int(n)),
            ValueRef::Text(text) => Ok(Value::Text(Octets::from_slice(alloc, text)?)),
            ValueRef::Bytes(bytes) => Ok(Value::Bytes(Octets::from_slice(alloc, bytes)?)),
        }
    }

    /// The same of a value that fits the kind. `None`: the value doesn't. `NoMemory`: there was
    /// none for its bytes.
    pub fn checked_copy(self, alloc: Global, kind: Kind) -> Result<Option<Value>, NoMemory>
        ensures fits { IfOk result (λ found. IsSome found ↔ Fits kind (value_of self.entry)) }
        ensures same { IfOk result (λ found. IfSome found (λ copy. copy ≡ value_of self.entry)) }
    {
        if self.fits(kind) {
            Ok(Some(self.copy(alloc)?))
        } else {
            Ok(None)
        }
    }
}

impl Value {
    /// The value, with its bytes where they are.
    pub fn borrowed(&self) -> ValueRef<'_>
        ensures { value_of result ≡ self.now }
    {
        match self {
            Value::Int(n) => ValueRef::Int(*n),
            Value::Text(text) => ValueRef::Text(text.as_slice()),
            Value::Bytes(bytes) => ValueRef::Bytes(bytes.as_slice()),
        }
    }
}

// Whether a value that compares so with the bound of a condition meets it.
fn is_met(op: Op, order: Ordering) -> bool
    ensures { result ≡ is_met op order }
{
    match op {
        Op::Equal => order.is_eq(),
        Op::Unequal => order.is_ne(),
        Op::Less => order.is_lt(),
        Op::AtMost => order.is_le(),
        Op::Greater => order.is_gt(),
        Op::AtLeast => order.is_ge(),
    }
}
