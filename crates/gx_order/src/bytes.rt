// The order of bytes.
ghost use Rattle.std.specs.Prelude.{◌≡◌, ◌^◌, ◌<◌, ◌++◌, length, MatchOption};
ghost use Rattle.std.specs.Cmp.Lexicographic.{slice_cmp};
ghost use Rattle.std.specs.Int.{w64, to_be_bytes};
ghost use Rattle.std.specs.Ordering.{nat_cmp, is_lt};

use std::cmp::Ordering;

/// Compares bytes from the first on, a proper prefix before what it begins. The first eight are
/// compared as one number, where both have so many: most keys differ there.
pub fn compare_bytes(a: &[u8], b: &[u8]) -> Ordering
    ensures { result ≡ slice_cmp nat_cmp a.now b.now }
{
    let (Some((x, rest)), Some((y, others))) = (split_u64(a), split_u64(b)) else {
        return a.cmp(b);
    };
    if x != y {
        x.cmp(&y)
    } else {
        compare_front(rest, others)
    }
}

// The same, where fewer are equal.
fn compare_front(a: &[u8], b: &[u8]) -> Ordering
    ensures { result ≡ slice_cmp nat_cmp a.now b.now }
{
    let (Some((x, rest)), Some((y, others))) = (split_u64(a), split_u64(b)) else {
        return a.cmp(b);
    };
    if x != y { x.cmp(&y) } else { rest.cmp(others) }
}

/// Whether `a` stands before `b`, byte by byte, a proper prefix first.
pub fn is_below(a: &[u8], b: &[u8]) -> bool
    ensures { result ≡ is_lt (slice_cmp nat_cmp a.now b.now) }
{
    compare_bytes(a, b).is_lt()
}

// The number that the bytes begin with, in eight bytes and big endian, and the bytes behind it.
// None where there are fewer than eight bytes.
fn split_u64(bytes: &[u8]) -> Option<(u64, &[u8])>
    ensures { MatchOption result (length bytes.now < 8) (λ found. (found.0 < 2 ^ 64)
        × (bytes.now ≡ to_be_bytes w64 found.0 ++ found.1.now)) }
{
    let (front, rest) = bytes.split_first_chunk::<8>()?;
    Some((u64::from_be_bytes(*front), rest))
}
