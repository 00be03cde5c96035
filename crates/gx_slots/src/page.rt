// The calls on an entry page.
ghost use Rattle.std.specs.Prelude.{◌≡◌, ◌≢◌, ◌↔◌, ◌+◌, ◌<◌, ◌≤◌, [], length, take, IfSome, IfNone, IsTrue};
ghost use Rattle.std.specs.Bool.{OnTrue, OnFalse};
ghost use Rattle.std.specs.List.{All, HoldsAt, insert, remove};
ghost use Rattle.gx_bytes.specs.declared.page.TheConstants.{PAGE_LEN};
ghost use Rattle.gx_slots.specs.Entries.{IsFit, lent};
ghost use Rattle.gx_slots.specs.Page.{IsEntryPage, entries_of, next_of, used_by};
ghost use Rattle.gx_slots.specs.Spots.{IsSpot};

use crate::format::{entries_len, entry_len, write_entry};
use crate::iter::{Entries, place_of};
use crate::seeking::Spot;
use gx_bytes::{
    HEADER_LEN, NONE, PAGE_LEN, page_body, page_number, record_count, set_page_number,
    set_record_count, write_header,
};

/// The byte that an entry page begins with.
pub const KIND: u8 = 0x44;

/// Makes an empty entry page, with no next page. The page has 4,096 bytes, of any values.
pub fn clear(page: &mut [u8])
    requires { length page.old ≡ PAGE_LEN }
    ensures page { IsEntryPage page.new }
    ensures entries { entries_of page.new ≡ [] }
    ensures next { next_of page.new ≡ NONE }
{
    write_header(page, KIND, 0, NONE);
}

/// The number of entries.
pub fn count(page: &[u8]) -> u16
    requires { IsEntryPage page.now }
    ensures { result ≡ length (entries_of page.now) }
{
    record_count(page)
}

/// The number of the next page, `NONE` where there is none.
pub fn next(page: &[u8]) -> u32
    requires { IsEntryPage page.now }
    ensures { result ≡ next_of page.now }
{
    page_number(page)
}

/// Makes `next` the number of the next page. The entries stay.
pub fn set_next(page: &mut [u8], next: u32)
    requires { IsEntryPage page.old }
    ensures page { IsEntryPage page.new }
    ensures entries { entries_of page.new ≡ entries_of page.old }
    ensures next { next_of page.new ≡ next }
{
    set_page_number(page, next);
}

/// The entries, in their order.
pub fn entries(page: &[u8]) -> Entries<'_>
    requires { IsEntryPage page.now }
    ensures { result ≡ entries_of page.now }
{
    Entries::new(page_body(page), count(page))
}

/// The place of the entry with the key, counted from 0. None exactly where no entry has the key.
pub fn find(page: &[u8], key: &[u8]) -> Option<u16>
    requires { IsEntryPage page.now }
    ensures found { IfSome result (λ i. (i < length (entries_of page.now))
        × HoldsAt (λ entry. entry.key ≡ key.now) (entries_of page.now) i) }
    ensures missing { IfNone result (All (λ entry. entry.key ≢ key.now) (entries_of page.now)) }
{
    place_of(entries(page), key)
}

/// The key and the body of the entry at place `i`, which is below the count.
pub fn entry(page: &[u8], i: u16) -> (&[u8], &[u8])
    requires page { IsEntryPage page.now }
    requires place { i < length (entries_of page.now) }
    ensures { HoldsAt (λ entry. entry ≡ lent result) (entries_of page.now) i }
{
    entries(page).nth(usize::from(i)).unwrap()
}

/// Puts an entry at place `i`, which is at most the count. The key isn't on the page and has at
/// most `MAX_KEY_LEN` bytes, and the key and the body have at most `MAX_ENTRY_LEN` together. False
/// exactly where the entry doesn't fit, and then nothing changes. A page with at most three entries
/// always has room.
pub fn add(page: &mut [u8], i: u16, key: &[u8], body: &[u8]) -> bool
    requires page { IsEntryPage page.old }
    requires place { i ≤ length (entries_of page.old) }
    requires other { All (λ entry. entry.key ≢ key.now) (entries_of page.old) }
    requires fit { IsFit (record { key = key.now; body = body.now }) }
    ensures page { IsEntryPage page.new }
    ensures room { IsTrue result ↔
        (used_by (insert (entries_of page.old) i (record { key = key.now; body = body.now }))
        ≤ PAGE_LEN) }
    ensures few { length (entries_of page.old) ≤ 3 → IsTrue result }
    ensures added { OnTrue result
        (entries_of page.new
        ≡ insert (entries_of page.old) i (record { key = key.now; body = body.now })) }
    ensures full { OnFalse result (page.new ≡ page.old) }
    ensures next { next_of page.new ≡ next_of page.old }
{
    let (at, end) = offsets(page, i);
    let spot = Spot { place: i, at, end };
    add_at(page, spot, key, body)
}

/// Puts an entry at a spot, as `add` does, and walks no entry for it.
pub fn add_at(page: &mut [u8], spot: Spot, key: &[u8], body: &[u8]) -> bool
    requires page { IsEntryPage page.old }
    requires spot { IsSpot (entries_of page.old) spot }
    requires other { All (λ entry. entry.key ≢ key.now) (entries_of page.old) }
    requires fit { IsFit (record { key = key.now; body = body.now }) }
    ensures page { IsEntryPage page.new }
    ensures room { IsTrue result ↔
        (used_by
        (insert (entries_of page.old) spot.place (record { key = key.now; body = body.now }))
        ≤ PAGE_LEN) }
    ensures few { length (entries_of page.old) ≤ 3 → IsTrue result }
    ensures added { OnTrue result
        (entries_of page.new
        ≡ insert (entries_of page.old) spot.place (record { key = key.now; body = body.now })) }
    ensures full { OnFalse result (page.new ≡ page.old) }
    ensures next { next_of page.new ≡ next_of page.old }
{
    let len = entry_len(key, body);
    let count = count(page);
    if len > PAGE_LEN - spot.end {
        return false;
    }
    page.copy_within(spot.at..spot.end, spot.at + len);
    write_entry(page, spot.at, key, body);
    set_record_count(page, count + 1);
    true
}

/// Takes the entry at place `i` away, which is below the count.
pub fn take(page: &mut [u8], i: u16)
    requires page { IsEntryPage page.old }
    requires place { i < length (entries_of page.old) }
    ensures page { IsEntryPage page.new }
    ensures entries { entries_of page.new ≡ remove (entries_of page.old) i }
    ensures next { next_of page.new ≡ next_of page.old }
{
    let (at, end) = offsets(page, i);
    take_at(page, Spot { place: i, at, end });
}

/// Takes the entry at a spot away, as `take` does, and walks no entry for it. Gives the spot that
/// is free then.
pub fn take_at(page: &mut [u8], spot: Spot) -> Spot
    requires page { IsEntryPage page.old }
    requires spot { IsSpot (entries_of page.old) spot }
    requires place { spot.place < length (entries_of page.old) }
    ensures page { IsEntryPage page.new }
    ensures entries { entries_of page.new ≡ remove (entries_of page.old) spot.place }
    ensures next { next_of page.new ≡ next_of page.old }
    ensures place { result.place ≡ spot.place }
    ensures spot { IsSpot (entries_of page.new) result }
{
    let count = count(page);
    let (_, rest) = page.split_at(spot.at);
    let len = entries_len(rest, 1);
    page.copy_within(spot.at + len..spot.end, spot.at);
    set_record_count(page, count - 1);
    Spot {
        end: spot.end - len,
        ..spot
    }
}

/// Where the entry at place `i` begins, which is at most the count, and where the last entry ends.
pub(crate) fn offsets(page: &[u8], i: u16) -> (usize, usize)
    requires page { IsEntryPage page.now }
    requires place { i ≤ length (entries_of page.now) }
    ensures start { result.0 ≡ used_by (take i (entries_of page.now)) }
    ensures end { result.1 ≡ used_by (entries_of page.now) }
{
    let body = page_body(page);
    let start = entries_len(body, i);
    let (_, rest) = body.split_at(start);
    let end = start + entries_len(rest, count(page) - i);
    (HEADER_LEN + start, HEADER_LEN + end)
}
