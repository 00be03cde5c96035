// The spot of a key on a page whose keys ascend.
ghost use Rattle.std.specs.Prelude.{◌≡◌, ℕ, [], ◌∷◌, ◌++◌, ◌<◌, List, length, MatchOption};
ghost use Rattle.gx_bytes.specs.declared.page.TheConstants.{PAGE_LEN};
ghost use Rattle.gx_slots.specs.Entries.{Entry, AreAscending, entries_in};
ghost use Rattle.gx_slots.specs.Page.{IsAscendingPage, entries_of, used_by};
ghost use Rattle.gx_slots.specs.Scan.{HoldsAscending};
ghost use Rattle.gx_slots.specs.Spots.{IsSought};

use crate::format::split_entry;
use crate::page::KIND;
use gx_bytes::{HEADER_LEN, has_kind, page_body, record_count};
use gx_order::is_below;

/// A place among the entries of a page, with what an edit there needs to know.
#[derive(Clone, Copy, Debug)]
pub struct Spot {
    /// the number of entries before it
    pub place: u16,
    /// where the next entry begins, in bytes from the front of the page
    pub at: usize,
    /// where the last entry ends
    pub end: usize,
}

/// What a search for a key among ascending keys came to.
#[derive(Clone, Copy, Debug)]
pub struct Sought {
    /// the spot behind the entries whose keys stand before it
    pub spot: Spot,
    /// whether the entry there has the key
    pub is_there: bool,
}

/// The spot of a key on an entry page whose keys ascend, by one walk that tests the page as
/// `is_ascending` does. None exactly where the bytes are no such page. The page has 4,096 bytes, of
/// any values.
pub fn seek(page: &[u8], key: &[u8]) -> Option<Sought>
    requires { length page.now ≡ PAGE_LEN }
    ensures { MatchOption result (¬ IsAscendingPage page.now)
        (λ sought. IsAscendingPage page.now × IsSought key.now (entries_of page.now) sought) }
{
    if !has_kind(page, KIND) {
        return None;
    }
    let count = record_count(page);
    if count == 0 {
        return Some(nothing());
    }
    seek_among(page_body(page), count, key)
}

// What a search among no entries comes to.
fn nothing() -> Sought
    ensures { (key : List ℕ) → IsSought key [] result }
{
    let spot = Spot {
        place: 0,
        at: HEADER_LEN,
        end: HEADER_LEN,
    };
    Sought {
        spot,
        is_there: false,
    }
}

// The spot of a key among the `count` entries that the bytes begin with. None where they begin with
// no such entries whose keys ascend.
#[inline(never)]
fn seek_among(bytes: &[u8], count: u16, key: &[u8]) -> Option<Sought>
    requires { 0 < count }
    ensures { MatchOption result (¬ HoldsAscending count bytes.now)
        (λ sought. HoldsAscending count bytes.now
        × IsSought key.now (entries_in count bytes.now) sought) }
{
    let ((first, _), behind) = split_entry(bytes)?;
    let start = begin(first, HEADER_LEN + (bytes.len() - behind.len()), key);
    // The parts of a `Sought` one by one, so that they stay in registers.
    let mut spot = start.spot.place;
    let mut at = start.spot.at;
    let mut is_there = start.is_there;
    let mut last = first;
    let mut rest = behind;
    for place in 1..count {
        let ((found, _), behind) = split_entry(rest)?;
        if !is_below(last, found) {
            return None;
        }
        if spot == place {
            if is_below(found, key) {
                spot = place + 1;
                at = HEADER_LEN + (bytes.len() - behind.len());
            } else {
                is_there = found == key;
            }
        }
        last = found;
        rest = behind;
    }
    let end = HEADER_LEN + (bytes.len() - rest.len());
    let spot = Spot {
        place: spot,
        at,
        end,
    };
    Some(Sought { spot, is_there })
}

// What a search came to behind the first entry, which has the key `found` and ends at `end`.
fn begin(found: &[u8], end: usize, key: &[u8]) -> Sought
    ensures { (entry : Entry) → entry.key ≡ found.now → end ≡ used_by (entry ∷ [])
        → IsSought key.now (entry ∷ []) result }
{
    if is_below(found, key) {
        let spot = Spot {
            place: 1,
            at: end,
            end,
        };
        return Sought {
            spot,
            is_there: false,
        };
    }
    let spot = Spot {
        place: 0,
        at: HEADER_LEN,
        end,
    };
    Sought {
        spot,
        is_there: found == key,
    }
}
