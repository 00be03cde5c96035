// An entry is set on entry pages.
ghost use Rattle.std.specs.Prelude.{◌≡◌, ◌≢◌, ◌<◌, ◌≤◌, length, take, drop, slice_index_or};
ghost use Rattle.std.specs.Bool.{OnTrue, OnFalse};
ghost use Rattle.std.specs.List.{All, sum_by};
ghost use Rattle.gx_bytes.specs.declared.page.TheConstants.{PAGE_LEN};
ghost use Rattle.gx_slots.specs.Entries.{Entry, IsFit, entry_len};
ghost use Rattle.gx_slots.specs.Page.{IsEntryPage, entries_of};
ghost use Rattle.gx_btree.specs.declared.reading.Shape.TheVariants as shapes;
ghost use Rattle.gx_btree.specs.Bplus.{Shows};
ghost use Rattle.gx_bplus.specs.Changes.{IsPutIn, IsTakenFrom, IsSpread};

use crate::removal::take_key;
use gx_slots::{add, count, entry, middle, rank, split};
use gx_values::KeyBuf;

/// Sets the entry of a key on an entry page of a tree. False where it doesn't fit, and then the
/// page has no entry with the key.
pub(crate) fn set_entry(page: &mut [u8], key: &[u8], body: &[u8]) -> bool
    requires page { Shows shapes.Entries page.old }
    requires fit { IsFit (record { key = key.now; body = body.now }) }
    ensures shown { Shows shapes.Entries page.new }
    ensures set { OnTrue result (IsPutIn (record { key = key.now; body = body.now })
        (entries_of page.old) (entries_of page.new)) }
    ensures taken { OnFalse result
        (IsTakenFrom key.now (entries_of page.old) (entries_of page.new)) }
    ensures more { OnFalse result (3084 < sum_by entry_len (entries_of page.new)) }
{
    take_key(page, key);
    let i = rank(page, key);
    add(page, i, key, body)
}

/// Spreads the entries of a page without room, and one more, over itself and `right`, which has
/// 4,096 bytes, of any values. Gives the first key of `right`. The page is cut at half of its
/// bytes. But where it is the last one of its tree, a key behind all others gets a page of its own,
/// so that keys in ascending order leave full pages behind them.
pub(crate) fn spread(
    page: &mut [u8],
    right: &mut [u8],
    key: &[u8],
    body: &[u8],
    is_last: bool,
) -> KeyBuf
    requires page { Shows shapes.Entries page.old }
    requires more { 3084 < sum_by entry_len (entries_of page.old) }
    requires other { All (λ entry. entry.key ≢ key.now) (entries_of page.old) }
    requires fit { IsFit (record { key = key.now; body = body.now }) }
    requires size { length right.old ≡ PAGE_LEN }
    ensures left { Shows shapes.Entries page.new }
    ensures right { Shows shapes.Entries right.new }
    ensures spread { IsSpread (entries_of page.old) (record { key = key.now; body = body.now })
        (entries_of page.new) (entries_of right.new) result }
{
    let i = rank(page, key);
    let cut = cut(page, i, is_last);
    split(page, cut, right);
    if i < cut {
        add(page, i, key, body);
        return first_key(right);
    }
    add(right, i - cut, key, body);
    first_key(right)
}

// The first key of a page that has an entry.
fn first_key(page: &[u8]) -> KeyBuf
    requires page { IsEntryPage page.now }
    requires some { 0 < length (entries_of page.now) }
    ensures { (d : Entry) → result ≡ (slice_index_or (entries_of page.now) 0 d).key }
{
    let (first, _) = entry(page, 0);
    KeyBuf::from_slice(first)
}

// How many entries of a page without room stay on it, where another one comes to this place.
fn cut(page: &[u8], i: u16, is_last: bool) -> u16
    requires page { IsEntryPage page.now }
    requires more { 3084 < sum_by entry_len (entries_of page.now) }
    requires place { i ≤ length (entries_of page.now) }
    ensures within { result ≤ length (entries_of page.now) }
    ensures some { 0 < result }
    ensures left { i < result → (result < length (entries_of page.now))
        × (sum_by entry_len (take result (entries_of page.now)) ≤ 2044) }
    ensures right { result ≤ i → sum_by entry_len (drop result (entries_of page.now)) ≤ 3048 }
{
    if is_last && i == count(page) {
        return i;
    }
    middle(page)
}
