// The split of an entry page.
ghost use Rattle.std.specs.Prelude.{◌≡◌, ◌+◌, ◌<◌, ◌≤◌, length, take, drop};
ghost use Rattle.std.specs.List.{sum_by};
ghost use Rattle.gx_bytes.specs.declared.page.TheConstants.{PAGE_LEN};
ghost use Rattle.gx_slots.specs.Entries.{entry_len};
ghost use Rattle.gx_slots.specs.Page.{IsEntryPage, entries_of, next_of};

use crate::format::entry_len;
use crate::page::{KIND, count, entries, offsets};
use gx_bytes::{HEADER_LEN, NONE, PAGE_LEN, overwrite, set_record_count, write_header};

/// Half of the bytes that entries may take.
const HALF: usize = (PAGE_LEN - HEADER_LEN) / 2;

/// Moves the entries from place `i` on, which is at most the count, to `right`, which has 4,096
/// bytes, of any values, and gets no next page.
pub fn split(page: &mut [u8], i: u16, right: &mut [u8])
    requires page { IsEntryPage page.old }
    requires place { i ≤ length (entries_of page.old) }
    requires size { length right.old ≡ PAGE_LEN }
    ensures left { IsEntryPage page.new }
    ensures right { IsEntryPage right.new }
    ensures front { entries_of page.new ≡ take i (entries_of page.old) }
    ensures back { entries_of right.new ≡ drop i (entries_of page.old) }
    ensures next { next_of page.new ≡ next_of page.old }
    ensures no_next { next_of right.new ≡ NONE }
{
    let count = count(page);
    let (at, end) = offsets(page, i);
    let (_, rest) = page.split_at(at);
    let (others, _) = rest.split_at(end - at);
    write_header(right, KIND, count - i, NONE);
    overwrite(right, HEADER_LEN, others);
    set_record_count(page, i);
}

/// The place of the entry that stands across half of the bytes of a page that has more.
pub fn middle(page: &[u8]) -> u16
    requires page { IsEntryPage page.now }
    requires more { 2044 < sum_by entry_len (entries_of page.now) }
    ensures place { result < length (entries_of page.now) }
    ensures before { sum_by entry_len (take result (entries_of page.now)) ≤ 2044 }
    ensures across { 2044 < sum_by entry_len (take (result + 1) (entries_of page.now)) }
{
    let mut taken = 0;
    let mut place = 0;
    for (key, body) in entries(page) {
        taken += entry_len(key, body);
        if taken > HALF {
            return place;
        }
        place += 1;
    }
    place
}
