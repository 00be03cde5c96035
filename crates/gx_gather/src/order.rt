// The order of keys, and that in which parts are gathered.
ghost use Rattle.std.specs.Prelude.{◌≡◌, take, OnOk};
ghost use Rattle.std.specs.List.Sorted.{IsPermutation, IsSortedBy};
ghost use Rattle.std.specs.Ordering.{is_lt, eq_by_cmp};
ghost use Rattle.gx_values.specs.Values.{values_cmp};
ghost use Rattle.gx_gather.specs.Gather.{gather_cmp};

use gx_mapping::Part;
use gx_values::{Value, compare};
use std::alloc::AllocError;
use std::cmp::Ordering;

// Compares keys by the first values that differ, a proper prefix first.
fn compare_keys(a: &[Value], b: &[Value]) -> Ordering
    ensures { result ≡ values_cmp a.now b.now }
{
    for i in 0..a.len().min(b.len()) {
        let order = compare(&a[i], &b[i]);
        if order.is_ne() {
            return order;
        }
    }
    a.len().cmp(&b.len())
}

// The first values of a key, as many as the records' keys have.
pub(crate) fn front(width: usize, key: &[Value]) -> &[Value]
    ensures { result.now ≡ take width key.now }
{
    &key[..key.len().min(width)]
}

// Whether two keys begin with the same `width` values.
pub(crate) fn is_same_front(width: usize, a: &[Value], b: &[Value]) -> bool
    ensures { result ≡ eq_by_cmp values_cmp (take width a.now) (take width b.now) }
{
    compare_keys(front(width, a), front(width, b)).is_eq()
}

/// Whether two lists of values are the same.
pub fn is_same_values(a: &[Value], b: &[Value]) -> bool
    ensures { result ≡ eq_by_cmp values_cmp a.now b.now }
{
    compare_keys(a, b).is_eq()
}

fn compare_parts(width: usize, a: &Part, b: &Part) -> Ordering
    ensures { result ≡ gather_cmp width a.now b.now }
{
    compare_keys(front(width, &a.rec.key.0), front(width, &b.rec.key.0))
        .then(a.child.cmp(&b.child))
        .then(compare_keys(&a.rec.key.0, &b.rec.key.0))
}

/// Brings parts into the order in which they are gathered: by the first `width` values of the key,
/// which are those of one record, then by child, then by key. An error is an allocation failure.
pub fn sort_parts(width: usize, parts: &mut Vec<Part>) -> Result<(), AllocError>
    ensures those { IsPermutation parts.old.items parts.new.items }
    ensures in_order { OnOk result
        (IsSortedBy (λ a b. is_lt (gather_cmp width a b)) parts.new.items) }
{
    parts.sort_by(|a, b| compare_parts(width, a, b))?;
    Ok(())
}
