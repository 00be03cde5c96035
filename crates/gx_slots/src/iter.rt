// The entries of a page, one at a time.
ghost use Rattle.std.specs.Prelude.{◌≡◌, ◌≢◌, ◌^◌, ◌<◌, length, IfSome, IfNone};
ghost use Rattle.std.specs.List.{All, HoldsAt};
ghost use Rattle.gx_slots.specs.Entries.{entries_in, HoldsCount};

use crate::format::split_entry;
use std::marker::Model;

/// The entries of a page that are still to come, each its key and its body, in their order. Seen as
/// the list of these entries.
#[derive(Debug, Drop)]
pub struct Entries<'a> {
    left: u16,
    bytes: &'a [u8],
}

impl<'a> Model for Entries<'a> {
    ghost use Rattle.std.specs.Prelude.{List};
    ghost use Rattle.gx_slots.specs.Entries.{Entry, entries_in, HoldsCount};

    ghost Value = { List Entry };

    ghost view = { λ e. entries_in e.left e.bytes.now };

    ghost invariant = { λ e. HoldsCount e.left e.bytes.now };
}

impl<'a> Entries<'a> {
    /// The first `count` entries of the bytes.
    pub(crate) fn new(bytes: &'a [u8], count: u16) -> Entries<'a>
        requires { HoldsCount count bytes.now }
        ensures { result ≡ entries_in count bytes.now }
    {
        Entries { left: count, bytes }
    }
}

impl<'a> Iterator for Entries<'a> {
    ghost use Rattle.std.specs.Iterator.{item_count};
    ghost use Rattle.std.specs.Map.Iter.{TakesFirst};
    ghost use Rattle.gx_slots.specs.Entries.{lent};

    type Item = (&'a [u8], &'a [u8]);

    ghost next_gives = { TakesFirst lent };

    ghost remaining = { item_count (λ entries. entries) };

    fn next(&mut self) -> Option<(&'a [u8], &'a [u8])> {
        if self.left == 0 {
            return None;
        }
        let (entry, rest) = split_entry(self.bytes)?;
        self.left -= 1;
        self.bytes = rest;
        Some(entry)
    }
}

/// The place of the entry with the key. None where no entry has it.
pub(crate) fn place_of(entries: Entries<'_>, key: &[u8]) -> Option<u16>
    requires { length entries < 2 ^ 16 }
    ensures found { IfSome result (λ i. (i < length entries.entry)
        × HoldsAt (λ entry. entry.key ≡ key.now) entries.entry i) }
    ensures missing { IfNone result (All (λ entry. entry.key ≢ key.now) entries.entry) }
{
    let mut place = 0;
    for (found, _) in entries {
        if found == key {
            return Some(place);
        }
        place += 1;
    }
    None
}
