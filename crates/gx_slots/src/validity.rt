// Which bytes are an entry page.
ghost use Rattle.std.specs.Prelude.{◌≡◌, ◌≢◌, ◌<◌, ◌↔◌, false, true, IsTrue, length, slice_index_or};
ghost use Rattle.std.specs.List.{All};
ghost use Rattle.gx_bytes.specs.declared.page.TheConstants.{PAGE_LEN};
ghost use Rattle.gx_slots.specs.declared.validity.TheConstants.{HASHES};
ghost use Rattle.gx_slots.specs.Entries.{HoldsCount, entries_in};
ghost use Rattle.gx_slots.specs.Scan.{HasSeen, HoldsDistinct, hash_of};
ghost use Rattle.gx_slots.specs.Page.{IsEntryPage};

use crate::format::split_entry;
use crate::iter::{Entries, place_of};
use crate::page::KIND;
use gx_bytes::{has_kind, page_body, record_count};

/// The number of hashes of keys.
const HASHES: usize = 4096;

/// What a hash is multiplied by before the next byte is added. Keys that are ints in a row have
/// different hashes by it, as many as a page holds.
const HASH_FACTOR: usize = 839;

/// Whether the bytes are an entry page. The page has 4,096 bytes, of any values.
pub fn is_entries(page: &[u8]) -> bool
    requires { length page.now ≡ PAGE_LEN }
    ensures { IsTrue result ↔ IsEntryPage page.now }
{
    has_kind(page, KIND) && are_entries(page_body(page), record_count(page))
}

// Whether the bytes begin with `count` entries of different keys.
fn are_entries(bytes: &[u8], count: u16) -> bool
    ensures { IsTrue result ↔ HoldsDistinct count bytes.now }
{
    let mut seen = [false; HASHES];
    let mut rest = bytes;
    for place in 0..count {
        let Some(((key, _), behind)) = split_entry(rest) else {
            return false;
        };
        if !is_new(&mut seen, bytes, place, key) {
            return false;
        }
        rest = behind;
    }
    true
}

// Whether none of the first `place` entries has the key. `seen` tells which hashes of keys came
// before: the entries are looked through only where that of the key did.
fn is_new(seen: &mut [bool], bytes: &[u8], place: u16, key: &[u8]) -> bool
    requires len { length seen.old ≡ HASHES }
    requires held { HoldsCount place bytes.now }
    requires seen { HasSeen seen.old (entries_in place bytes.now) }
    ensures other { IsTrue result ↔
        All (λ entry. entry.key ≢ key.now) (entries_in place bytes.now) }
    ensures kept { HasSeen seen.new (entries_in place bytes.now) }
    ensures added { IsTrue result → slice_index_or seen.new (hash_of key.now) false ≡ true }
{
    let hash = hash(key);
    if seen[hash] {
        return place_of(Entries::new(bytes, place), key).is_none();
    }
    seen[hash] = true;
    true
}

fn hash(key: &[u8]) -> usize
    ensures value { result ≡ hash_of key.now }
    ensures bound { result < HASHES }
{
    let mut hash = 0;
    for byte in key {
        hash = (hash * HASH_FACTOR + usize::from(*byte)) % HASHES;
    }
    hash
}
