// The ranges of the children.
ghost use Rattle.std.specs.Prelude.{◌≡◌, ◌^◌, ◌<◌, ◌≤◌, ◌∷◌, ◌++◌, [], Some, true, false, length, take, option_map, IfSome};
ghost use Rattle.std.specs.Int.{w64, to_be_bytes};
ghost use Rattle.std.specs.Ordering.{nat_cmp, is_le};
ghost use Rattle.std.specs.Cmp.Lexicographic.{slice_cmp};
ghost use Rattle.std.specs.List.Sorted.{IsStrictlySortedBy, IsPartitionedBy, IsPartitionPoint};
ghost use Rattle.gx_values.specs.Values.{value_cmp};
ghost use Rattle.gx_values.specs.Keys.{bytes_of};
ghost use Rattle.gx_partition.specs.Bounds.{child_of, lower_of, upper_of, ends_before, begins_after};

use gx_order::compare_bytes;
use gx_values::{KeyBuf, Value, Values, compare, rank};
use std::cmp::Ordering;

/// The child of the records with this value: how many bounds are at or below it.
pub(crate) fn child_of(bounds: &Values, value: &Value) -> u16
    requires ascending { IsStrictlySortedBy value_cmp bounds.now }
    requires few { length bounds.now < 65535 }
    ensures { result ≡ child_of bounds.now value.now }
{
    bounds.0.partition_point(
        |bound: &Value| -> bool
            ensures { result ≡ is_le (value_cmp bound.now value.entry.now) }
        { is_at_most(bound, value) },
    ) as u16
}

// Whether the bound is at or below the value.
fn is_at_most(bound: &Value, value: &Value) -> bool
    ensures { result ≡ is_le (value_cmp bound.now value.now) }
{
    match (bound, value) {
        (Value::Int(bound), Value::Int(value)) => bound.cmp(value).is_le(),
        _ => is_other_at_most(bound, value),
    }
}

#[inline(never)]
fn is_other_at_most(bound: &Value, value: &Value) -> bool
    ensures { result ≡ is_le (value_cmp bound.now value.now) }
{
    compare(bound, value).is_le()
}

/// The bound that the child's values are at least.
pub(crate) fn lower_of(bounds: &Values, child: u16) -> Option<&Value>
    ensures { option_map (λ bound. bound.now) result ≡ lower_of bounds.now child }
{
    let before = child.checked_sub(1)?;
    bounds.0.get(usize::from(before))
}

/// The bound that the child's values are below.
pub(crate) fn upper_of(bounds: &Values, child: u16) -> Option<&Value>
    ensures { option_map (λ bound. bound.now) result ≡ upper_of bounds.now child }
{
    bounds.0.get(usize::from(child))
}

/// Whether keys that begin with a value below the bound all stand before `lo`.
pub(crate) fn ends_before(bound: Option<&Value>, lo: &KeyBuf) -> bool
    ensures { result ≡ ends_before (option_map (λ bound. bound.now) bound.entry) lo.now }
{
    let Some(bound) = bound else {
        return false;
    };
    compare_key(bound, lo.as_slice()).is_le()
}

/// Whether keys that begin with a value from the bound on all stand behind those that begin with
/// `hi`.
pub(crate) fn begins_after(bound: Option<&Value>, hi: &KeyBuf) -> bool
    ensures { result ≡ begins_after (option_map (λ bound. bound.now) bound.entry) hi.now }
{
    let Some(bound) = bound else {
        return false;
    };
    compare_front(bound, hi.as_slice()).is_gt()
}

/// How many children have all their keys before `lo`.
pub(crate) fn first_from(bounds: &Values, lo: &KeyBuf) -> u16
    requires parted { IsPartitionedBy (λ bound. ends_before (Some bound) lo.now) bounds.now }
    requires few { length bounds.now < 65535 }
    ensures few { result ≤ length bounds.now }
    ensures point { IsPartitionPoint (λ bound. ends_before (Some bound) lo.now ≡ true)
        (λ bound. ends_before (Some bound) lo.now ≡ false) bounds.now result }
{
    bounds.0.partition_point(
        |bound: &Value| -> bool
            ensures { result ≡ ends_before (Some bound.now) lo.entry.now }
        { ends_before(Some(bound), lo) },
    ) as u16
}

// Compares the bytes of a key of one value with bytes.
fn compare_key(value: &Value, bytes: &[u8]) -> Ordering
    ensures { result ≡ slice_cmp nat_cmp (bytes_of value.now) bytes.now }
{
    match value {
        Value::Int(n) => compare_number(rank(*n), bytes),
        Value::Text(text) | Value::Bytes(text) => compare_text(text.as_slice(), bytes),
    }
}

// The same of a number in eight bytes, beside the number that the bytes begin with.
fn compare_number(number: u64, bytes: &[u8]) -> Ordering
    ensures { result ≡ slice_cmp nat_cmp (to_be_bytes w64 number) bytes.now }
{
    match first_number(bytes) {
        Some((first, rest)) => number.cmp(&first).then(0.cmp(&rest.len())),
        None => compare_all(number, bytes),
    }
}

// The number that the bytes begin with, in eight bytes, and the bytes behind it.
fn first_number(bytes: &[u8]) -> Option<(u64, &[u8])>
    ensures { IfSome result
        (λ found. (found.0 < 2 ^ 64) × (bytes.now ≡ to_be_bytes w64 found.0 ++ found.1.now)) }
{
    let (front, rest) = bytes.split_first_chunk::<INT_BYTES>()?;
    Some((u64::from_be_bytes(*front), rest))
}

// Kept apart, as all that calls a comparison of slices: that of numbers then needs no frame.
#[inline(never)]
fn compare_all(number: u64, bytes: &[u8]) -> Ordering
    ensures { result ≡ slice_cmp nat_cmp (to_be_bytes w64 number) bytes.now }
{
    number.to_be_bytes().as_slice().cmp(bytes)
}

// The same of a text, behind which one 0 stands.
#[inline(never)]
fn compare_text(text: &[u8], bytes: &[u8]) -> Ordering
    ensures { result ≡ slice_cmp nat_cmp (text.now ++ 0 ∷ []) bytes.now }
{
    let (front, rest) = bytes.split_at(text.len().min(bytes.len()));
    match compare_bytes(text, front) {
        Ordering::Equal => [0].as_slice().cmp(rest),
        order => order,
    }
}

// The same of as many of the first bytes of the key as there are bytes.
fn compare_front(value: &Value, bytes: &[u8]) -> Ordering
    ensures { result ≡ slice_cmp nat_cmp (take (length bytes.now) (bytes_of value.now)) bytes.now }
{
    match value {
        Value::Int(n) if bytes.len() >= INT_BYTES => compare_number(rank(*n), bytes),
        Value::Int(n) => compare_short(rank(*n), bytes),
        Value::Text(text) | Value::Bytes(text) => compare_text_front(text.as_slice(), bytes),
    }
}

#[inline(never)]
fn compare_short(number: u64, bytes: &[u8]) -> Ordering
    requires { length bytes.now < 8 }
    ensures { result ≡ slice_cmp nat_cmp
        (take (length bytes.now) (to_be_bytes w64 number)) bytes.now }
{
    number.to_be_bytes()[..bytes.len()].cmp(bytes)
}

#[inline(never)]
fn compare_text_front(text: &[u8], bytes: &[u8]) -> Ordering
    ensures { result ≡ slice_cmp nat_cmp (take (length bytes.now) (text.now ++ 0 ∷ [])) bytes.now }
{
    match text.get(..bytes.len()) {
        Some(front) => compare_bytes(front, bytes),
        None => compare_text(text, bytes),
    }
}

// How many bytes the key of an int has.
const INT_BYTES: usize = 8;
