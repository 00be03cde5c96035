// The index of entries that are laid out anew.
ghost use Rattle.std.specs.Prelude.{◌≡◌, ◌↔◌, ◌+◌, ◌*◌, ◌<◌, ◌≤◌, ℕ, length, IsTrue};
ghost use Rattle.gx_bytes.specs.Parts.{overwritten};
ghost use Rattle.gx_bytes.specs.declared.page.TheConstants.{NONE, PAGE_LEN};
ghost use Rattle.gx_values.specs.declared.bytes.TheConstants.{MAX_KEY_LEN};
ghost use Rattle.gx_isam_index.specs.Fresh.{HasFreshBuckets, begin_of, fresh_count, longest_of};
ghost use Rattle.gx_isam_index.specs.Index.{IsIndexPage, bucket_count, first_page_of, separator_bytes};
ghost use Rattle.gx_isam_index.specs.Layout.{AreOrdered, FitsPage, HasFront, HasSeparators, keys_of};

use crate::index::{FIRST_LEN, FIRSTS_AT, KIND, MAX_BUCKETS, set_first};
use gx_bytes::{NONE, overwrite, write_header};
use gx_order::is_below;
use gx_ports::{Entries, EntryRef, MAX_ENTRY_LEN, MAX_KEY_LEN};

/// The most bytes that the buckets of an index take together.
const BUCKETS_LEN: usize = 3800;

/// The number of bytes that a bucket takes beside its separator: its first page, and the length of
/// the separator.
const BUCKET_LEN: usize = 6;

/// The least number of entries of a bucket, where there is more than one bucket.
const LEAST_ENTRIES: usize = 8;

/// The number of bytes of the length of a separator.
const LENGTH_LEN: usize = 2;

/// Whether each entry fits a page, and each key stands before the next.
pub fn are_ordered(entries: &Entries) -> bool
    ensures { IsTrue result ↔ AreOrdered entries.now }
{
    for i in 0..entries.len() {
        let entry = entries.entry(i);
        if !fits_page(&entry) {
            return false;
        }
        if i > 0 && !is_below(entries.entry(i - 1).key, entry.key) {
            return false;
        }
    }
    true
}

// Whether an entry fits a page.
fn fits_page(entry: &EntryRef<'_>) -> bool
    ensures { IsTrue result ↔
        FitsPage (record { key = entry.now.key.now; body = entry.now.body.now }) }
{
    entry.key.len() <= MAX_KEY_LEN && entry.key.len() + entry.body.len() <= MAX_ENTRY_LEN
}

/// Writes the index of these entries, whose buckets have no page yet.
pub fn write_index(page: &mut [u8], entries: &Entries)
    requires page { length page.old ≡ PAGE_LEN }
    requires ordered { AreOrdered entries.now }
    ensures index { IsIndexPage page.new }
    ensures fresh { HasFreshBuckets page.new (keys_of entries.now) }
    ensures none { (bucket : ℕ) → bucket < bucket_count page.new →
        first_page_of page.new bucket ≡ NONE }
{
    let count = fresh_count(entries);
    begin_index(page, count);
    write_separators(page, entries, count);
    for bucket in 0..count {
        set_first(page, bucket, NONE);
    }
}

// Writes the front of an index with so many buckets.
fn begin_index(page: &mut [u8], count: u16)
    requires page { length page.old ≡ PAGE_LEN }
    requires most { count ≤ 64 }
    ensures { HasFront page.new count }
{
    write_header(page, KIND, count, NONE);
}

// How many buckets these entries have.
fn fresh_count(entries: &Entries) -> u16
    requires { AreOrdered entries.now }
    ensures value { result ≡ fresh_count (keys_of entries.now) }
    ensures some { 1 ≤ result }
    ensures most { result ≤ 64 }
    ensures room { result * (longest_of (keys_of entries.now) + 6) ≤ 3800 }
    ensures few { 1 < result → result ≤ length entries.now }
{
    let room = BUCKETS_LEN / (longest_key(entries) + BUCKET_LEN);
    let wanted = (entries.len() / LEAST_ENTRIES).max(1);
    usize::from(MAX_BUCKETS).min(room).min(wanted) as u16
}

// The greatest length of their keys.
fn longest_key(entries: &Entries) -> usize
    requires { AreOrdered entries.now }
    ensures value { result ≡ longest_of (keys_of entries.now) }
    ensures most { result ≤ MAX_KEY_LEN }
{
    let mut longest = 0;
    for i in 0..entries.len() {
        let entry = entries.entry(i);
        longest = longest.max(entry.key.len());
    }
    longest
}

// Writes the first key of each bucket but the first behind the first pages. The page has the header
// of an index with so many buckets.
fn write_separators(page: &mut [u8], entries: &Entries, count: u16)
    requires page { length page.old ≡ PAGE_LEN }
    requires ordered { AreOrdered entries.now }
    requires some { 1 ≤ count }
    requires most { count ≤ 64 }
    requires room { count * (longest_of (keys_of entries.now) + 6) ≤ 3800 }
    requires few { 1 < count → count ≤ length entries.now }
    ensures { HasSeparators page.old page.new (keys_of entries.now) count }
{
    let mut at = FIRSTS_AT + FIRST_LEN * usize::from(count);
    for bucket in 1..count {
        let place = begin_of(usize::from(bucket), usize::from(count), entries.len());
        let first = entries.entry(place);
        at = write_separator(page, at, first.key);
    }
}

// The number of the first entry of a bucket.
fn begin_of(bucket: usize, count: usize, entries: usize) -> usize
    requires bucket { bucket < count }
    requires count { count ≤ 64 }
    ensures { result ≡ begin_of bucket count entries }
{
    // `bucket * entries / count`, whose product may not fit
    entries / count * bucket + entries % count * bucket / count
}

// Writes a separator at a place, and answers where it ends.
fn write_separator(page: &mut [u8], at: usize, separator: &[u8]) -> usize
    requires fit { length separator.now ≤ MAX_KEY_LEN }
    requires room { at + 2 + length separator.now ≤ length page.old }
    ensures page { page.new ≡ overwritten page.old at (separator_bytes separator.now) }
    ensures end { result ≡ at + 2 + length separator.now }
{
    overwrite(page, at, &(separator.len() as u16).to_be_bytes());
    overwrite(page, at + LENGTH_LEN, separator);
    at + LENGTH_LEN + separator.len()
}
