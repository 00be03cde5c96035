// Entries in the order of their keys.
ghost use Rattle.std.specs.Prelude.{◌≡◌, ◌<◌, ◌≤◌, ◌↔◌, IsTrue, length, take, drop};
ghost use Rattle.std.specs.Cmp.Lexicographic.{slice_cmp};
ghost use Rattle.std.specs.List.{All, HoldsAt};
ghost use Rattle.std.specs.Ordering.{nat_cmp, is_le};
ghost use Rattle.std.specs.declared.cmp.Ordering.TheVariants.{Less};
ghost use Rattle.gx_bytes.specs.declared.page.TheConstants.{PAGE_LEN};
ghost use Rattle.gx_slots.specs.Entries.{AreAscending};
ghost use Rattle.gx_slots.specs.Page.{IsEntryPage, IsAscendingPage, entries_of};
ghost use Rattle.gx_slots.specs.Scan.{HoldsAscending};

use crate::format::split_entry;
use crate::page::{KIND, entries};
use gx_bytes::{has_kind, page_body, record_count};
use gx_order::is_below;

/// Whether the bytes are an entry page whose keys ascend. The page has 4,096 bytes, of any values.
pub fn is_ascending(page: &[u8]) -> bool
    requires { length page.now ≡ PAGE_LEN }
    ensures { IsTrue result ↔ IsAscendingPage page.now }
{
    if !has_kind(page, KIND) {
        return false;
    }
    let count = record_count(page);
    count == 0 || do_ascend(page_body(page), count)
}

// Whether the bytes begin with `count` entries whose keys ascend.
fn do_ascend(bytes: &[u8], count: u16) -> bool
    requires { 0 < count }
    ensures { IsTrue result ↔ HoldsAscending count bytes.now }
{
    let Some(((first, _), behind)) = split_entry(bytes) else {
        return false;
    };
    let mut last = first;
    let mut rest = behind;
    for _ in 1..count {
        let Some(((key, _), behind)) = split_entry(rest) else {
            return false;
        };
        if !is_below(last, key) {
            return false;
        }
        last = key;
        rest = behind;
    }
    true
}

/// The number of entries at the front of a page whose keys stand before this one: that of the next
/// entry doesn't. Where the keys ascend, those of all other entries don't.
pub fn rank(page: &[u8], key: &[u8]) -> u16
    requires { IsEntryPage page.now }
    ensures place { result ≤ length (entries_of page.now) }
    ensures before { All (λ entry. slice_cmp nat_cmp entry.key key.now ≡ Less)
        (take result (entries_of page.now)) }
    ensures stops { result < length (entries_of page.now) →
        HoldsAt (λ entry. IsTrue (is_le (slice_cmp nat_cmp key.now entry.key)))
        (entries_of page.now) result }
    ensures behind { AreAscending (entries_of page.now) →
        All (λ entry. IsTrue (is_le (slice_cmp nat_cmp key.now entry.key)))
        (drop result (entries_of page.now)) }
{
    let mut place = 0;
    for (found, _) in entries(page) {
        if !is_below(found, key) {
            return place;
        }
        place += 1;
    }
    place
}
