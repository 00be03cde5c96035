// Keys are looked for among ascending ones.
ghost use Rattle.std.specs.Prelude.{◌≡◌, true, false};
ghost use Rattle.std.specs.List.Sorted.{IsStrictlySortedBy};
ghost use Rattle.gx_values.specs.Values.{value_cmp};
ghost use Rattle.gx_mapping.specs.Rule.{In};

use gx_values::{Value, compare};
use std::cmp::Ordering;

/// Whether a key is among ascending ones, in steps of the logarithm of their number.
pub(crate) fn contains(keys: &[Value], key: &Value) -> bool
    ensures yes { result ≡ true → In key.now keys.now }
    ensures no { result ≡ false → IsStrictlySortedBy value_cmp keys.now → ¬ In key.now keys.now }
{
    let (front, rest) = keys.split_at(keys.len() / 2);
    let [middle, back @ ..] = rest else {
        return false;
    };
    match compare(key, middle) {
        Ordering::Less => contains(front, key),
        Ordering::Equal => true,
        Ordering::Greater => contains(back, key),
    }
}
