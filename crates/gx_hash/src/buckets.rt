// The chain in which an entry stands.
ghost use Rattle.std.specs.Prelude.{◌≡◌, ◌+◌, ◌<◌, None, Some, MatchOption};
ghost use Rattle.gx_ports.specs.Files.{IsPlace};
ghost use Rattle.gx_ports.specs.Roots.{roots_of};
ghost use Rattle.gx_hash.specs.Buckets.{IsHashed, hash_bucket, fnv, front_of, through_zero, whole_front};

use gx_ports::{Pages, Place};
use gx_values::Kind;

/// The front of a key: the 8 bytes of an int, or the bytes of a text up to and with the first 0.
/// None where the key has no such front.
pub(crate) fn whole_front(first: Kind, key: &[u8]) -> Option<&[u8]>
    ensures { MatchOption result (whole_front first key.now ≡ None)
        (λ front. whole_front first key.now ≡ Some front.now) }
{
    match first {
        Kind::Int if key.len() >= 8 => Some(&key[..8]),
        Kind::Int => None,
        Kind::Text(_) => through_zero(key),
        Kind::Bytes(_) => None,
    }
}

// The bytes up to and with the first 0.
fn through_zero(key: &[u8]) -> Option<&[u8]>
    ensures { MatchOption result (through_zero key.now ≡ None)
        (λ front. through_zero key.now ≡ Some front.now) }
{
    for (last, byte) in key.iter().enumerate() {
        if *byte == 0 {
            return Some(&key[..=last]);
        }
    }
    None
}

// The front of a key, or the whole key where it has none.
fn front(first: Kind, key: &[u8]) -> &[u8]
    ensures { result.now ≡ front_of first key.now }
{
    match whole_front(first, key) {
        Some(front) => front,
        None => key,
    }
}

// FNV-1a of 64 bits.
fn fnv(bytes: &[u8]) -> u64
    ensures { result ≡ fnv bytes.now }
{
    let mut hash = 14_695_981_039_346_656_037_u64;
    for byte in bytes {
        hash = (hash ^ u64::from(*byte)).wrapping_mul(1_099_511_628_211);
    }
    hash
}

/// The number of the chain in which an entry with the key stands.
pub(crate) fn bucket(place: &Place, key: &[u8]) -> u32
    requires { IsHashed place.now.spec.kind }
    ensures is { result ≡ hash_bucket place.now.spec key.now }
    ensures below { result < roots_of place.now.spec }
{
    let buckets = u64::from(place.spec.kind.roots());
    (fnv(front(place.spec.first, key)) % buckets) as u32
}

/// The first page of a chain.
pub(crate) fn root<P: Pages>(pages: &P, place: &Place, bucket: u32) -> u32
    requires place { IsPlace (P.ground pages.now) place.now }
    requires bucket { bucket < roots_of place.now.spec }
    ensures { result ≡ place.now.root + bucket }
{
    let end = pages.pages();
    let first = place.root + bucket;
    prove!(first < end);
    first
}
