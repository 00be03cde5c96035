// The index page of an indexed sequential file.
ghost use Rattle.std.specs.Prelude.{◌≡◌, ◌≢◌, ◌↔◌, ℕ, ◌+◌, ◌-◌, ◌*◌, ◌<◌, ◌≤◌, length, IsTrue};
ghost use Rattle.std.specs.List.{count_by};
ghost use Rattle.std.specs.Ordering.{is_le};
ghost use Rattle.gx_bytes.specs.Records.{SplitsRecord};
ghost use Rattle.gx_bytes.specs.declared.page.TheConstants.{NONE, PAGE_LEN};
ghost use Rattle.gx_ports.specs.Keyed.{key_cmp};
ghost use Rattle.gx_isam_index.specs.Index.{IsFitSeparator, HoldsAscending, IsIndexPage, behind_firsts, bucket_count, bucket_of, first_page_of, last_bucket, lent, part_of, separator_bytes, separators_of};

use gx_bytes::{NONE, has_kind, overwrite, record_count, split_u16, split_u32, write_header};
use gx_order::{compare_bytes, is_below};

/// The byte that an index page begins with.
pub(crate) const KIND: u8 = 0x58;

/// The greatest number of buckets.
pub(crate) const MAX_BUCKETS: u16 = 64;

/// Where the first pages of the buckets begin.
pub(crate) const FIRSTS_AT: usize = 4;

/// The number of bytes of a first page.
pub(crate) const FIRST_LEN: usize = 4;

/// Makes an index page of one bucket, which has no page. The page has 4,096 bytes, of any values.
pub fn clear_index(page: &mut [u8])
    requires { length page.old ≡ PAGE_LEN }
    ensures page { IsIndexPage page.new }
    ensures one { bucket_count page.new ≡ 1 }
    ensures first { first_page_of page.new 0 ≡ NONE }
{
    write_header(page, KIND, 1, NONE);
}

/// Whether the bytes are an index page. The page has 4,096 bytes, of any values.
pub fn is_index(page: &[u8]) -> bool
    requires { length page.now ≡ PAGE_LEN }
    ensures { IsTrue result ↔ IsIndexPage page.now }
{
    let count = record_count(page);
    if count == 0 || count > MAX_BUCKETS || !has_kind(page, KIND) {
        return false;
    }
    are_separators(behind_firsts(page, count), count - 1)
}

/// The number of buckets.
pub fn buckets(page: &[u8]) -> u16
    requires { IsIndexPage page.now }
    ensures value { result ≡ bucket_count page.now }
    ensures some { 1 ≤ result }
    ensures most { result ≤ 64 }
{
    record_count(page)
}

/// The first page of a bucket, `NONE` where it has none.
pub fn first(page: &[u8], bucket: u16) -> u32
    requires page { IsIndexPage page.now }
    requires bucket { bucket < bucket_count page.now }
    ensures { result ≡ first_page_of page.now bucket }
{
    let (_, rest) = page.split_at(FIRSTS_AT + FIRST_LEN * usize::from(bucket));
    let (first, _) = split_u32(rest).unwrap();
    first
}

/// Makes `first` the first page of a bucket. All else stays.
pub fn set_first(page: &mut [u8], bucket: u16, first: u32)
    requires page { IsIndexPage page.old }
    requires bucket { bucket < bucket_count page.old }
    ensures page { IsIndexPage page.new }
    ensures count { bucket_count page.new ≡ bucket_count page.old }
    ensures first { first_page_of page.new bucket ≡ first }
    ensures others { (other : ℕ) → other < bucket_count page.old → other ≢ bucket →
        first_page_of page.new other ≡ first_page_of page.old other }
    ensures separators { separators_of page.new ≡ separators_of page.old }
{
    overwrite(
        page,
        FIRSTS_AT + FIRST_LEN * usize::from(bucket),
        &first.to_be_bytes(),
    );
}

/// The bucket of a key: how many separators are at or below it.
pub fn bucket_of(page: &[u8], key: &[u8]) -> u16
    requires { IsIndexPage page.now }
    ensures value { result ≡ bucket_of page.now key.now }
    ensures below { result < bucket_count page.now }
{
    count_at_most(page, key, false)
}

/// The last bucket with keys that begin with `hi`, or with less: how many separators do.
pub fn last_bucket(page: &[u8], hi: &[u8]) -> u16
    requires { IsIndexPage page.now }
    ensures value { result ≡ last_bucket page.now hi.now }
    ensures below { result < bucket_count page.now }
{
    count_at_most(page, hi, true)
}

// How many separators are at or below a key. With `fronts` just the front of each is compared that
// is as long as the key.
fn count_at_most(page: &[u8], key: &[u8], fronts: bool) -> u16
    requires { IsIndexPage page.now }
    ensures value { result ≡ count_by
        (λ separator. is_le (key_cmp (part_of fronts key.now separator) key.now))
        (separators_of page.now) }
    ensures below { result < bucket_count page.now }
{
    let count = record_count(page);
    let mut rest = behind_firsts(page, count);
    let mut bucket = 0;
    for _ in 1..count {
        let (separator, behind) = split_separator(rest).unwrap();
        bucket += u16::from(is_at_most(part_of(separator, key, fronts), key));
        rest = behind;
    }
    bucket
}

// The bytes behind the first pages of so many buckets.
fn behind_firsts(page: &[u8], count: u16) -> &[u8]
    requires size { length page.now ≡ PAGE_LEN }
    requires count { count ≤ 64 }
    requires counted { count ≡ bucket_count page.now }
    ensures { result.now ≡ behind_firsts page.now }
{
    let (_, rest) = page.split_at(FIRSTS_AT + FIRST_LEN * usize::from(count));
    rest
}

// The separator that the bytes begin with, and the bytes behind it. None where they begin with
// none.
fn split_separator(bytes: &[u8]) -> Option<(&[u8], &[u8])>
    ensures { SplitsRecord separator_bytes IsFitSeparator lent bytes.now result }
{
    let (len, rest) = split_u16(bytes)?;
    let len = usize::from(len);
    if len > rest.len() {
        return None;
    }
    Some(rest.split_at(len))
}

// Whether the bytes begin with `count` separators which ascend.
fn are_separators(bytes: &[u8], count: u16) -> bool
    ensures { IsTrue result ↔ HoldsAscending count bytes.now }
{
    if count == 0 {
        return true;
    }
    are_some_separators(bytes, count)
}

// The same of one separator at least.
fn are_some_separators(bytes: &[u8], count: u16) -> bool
    requires { 0 < count }
    ensures { IsTrue result ↔ HoldsAscending count bytes.now }
{
    let Some((first, behind)) = split_separator(bytes) else {
        return false;
    };
    let mut last = first;
    let mut rest = behind;
    for _ in 1..count {
        let Some((separator, behind)) = split_separator(rest) else {
            return false;
        };
        if !is_below(last, separator) {
            return false;
        }
        last = separator;
        rest = behind;
    }
    true
}

// The part of a separator that is compared with a key: the front that is as long as the key, or the
// whole.
fn part_of<'a>(separator: &'a [u8], key: &[u8], front: bool) -> &'a [u8]
    ensures { result.now ≡ part_of front key.now separator.now }
{
    if front {
        &separator[..separator.len().min(key.len())]
    } else {
        separator
    }
}

// Whether `a` is `b`, or stands before it.
fn is_at_most(a: &[u8], b: &[u8]) -> bool
    ensures { result ≡ is_le (key_cmp a.now b.now) }
{
    compare_bytes(a, b).is_le()
}
