// A walk along a chain, to where an entry is to be put.
ghost use Rattle.std.specs.Prelude.{◌≡◌, ◌+◌, ◌≤◌, ℕ, List, length, IsTrue, IfOk, IsErrOf};
ghost use Rattle.gx_values.specs.declared.bytes.TheConstants.{MAX_KEY_LEN};
ghost use Rattle.gx_ports.specs.declared.leaves.TheConstants.{MAX_ENTRY_LEN};
ghost use Rattle.gx_bytes.specs.declared.page.TheConstants.{PAGE_LEN};
ghost use Rattle.gx_ports.specs.Files.{EndsFile};
ghost use Rattle.gx_ports.specs.PageCalls.{ReadsPages};
ghost use Rattle.gx_ports.specs.Sheets.{IsPast};
ghost use Rattle.gx_slots.specs.Page.{IsEntryPage, entries_of, next_of};
ghost use Rattle.gx_chain.specs.Chain.{IsChain, HasChain};
ghost use Rattle.gx_chain.specs.Walk.{IsTrial, IsSpot, noted, AreSpots};

use crate::read::{behind, read_entries};
use gx_ports::{PAGE_LEN, Pages, Stop};
use gx_slots::{add, count, find, take};

/// What a page is to an entry that is to be put.
#[derive(Clone, Copy, Debug)]
pub(crate) enum Trial {
    /// it had the key, and now has the entry
    Replaced,
    /// it has the key, and no room for the entry in the place of the old one
    Crowded,
    /// it doesn't have the key, and has room
    Room,
    /// it doesn't have the key
    Other,
}

/// Where an entry is to be put that doesn't go into the place of an old one.
#[derive(Clone, Copy, Debug)]
pub(crate) struct Away {
    /// the page with the old entry
    pub old: Option<u32>,
    /// the first page with room
    pub room: Option<u32>,
    /// the last page
    pub last: u32,
}

/// Where an entry is to be put.
#[derive(Clone, Copy, Debug)]
pub(crate) enum Spot {
    /// on this page, in the place of the old one
    Here(u32),
    /// elsewhere
    Away(Away),
}

/// Tries an entry on an entry page. Where it is put in the place of an old one, the page has it
/// then; else the bytes may be any entry page with the same next page.
fn try_entry(page: &mut [u8], key: &[u8], body: &[u8]) -> Trial
    requires page { IsEntryPage page.old }
    requires key { length key.now ≤ MAX_KEY_LEN }
    requires entry { length key.now + length body.now ≤ MAX_ENTRY_LEN }
    ensures trial { IsTrial result (entries_of page.old) (entries_of page.new) key.now body.now }
    ensures page { IsEntryPage page.new }
    ensures next { next_of page.new ≡ next_of page.old }
{
    let Some(place) = find(page, key) else {
        let end = count(page);
        return if add(page, end, key, body) {
            Trial::Room
        } else {
            Trial::Other
        };
    };
    take(page, place);
    if add(page, place, key, body) {
        Trial::Replaced
    } else {
        Trial::Crowded
    }
}

// What a page adds to what is known.
fn note(away: Away, trial: Trial) -> Away
    ensures { result ≡ noted away trial }
{
    match trial {
        Trial::Crowded => Away {
            old: Some(away.last),
            ..away
        },
        Trial::Room if away.room.is_none() => Away {
            room: Some(away.last),
            ..away
        },
        _ => away,
    }
}

/// Finds where an entry is to be put. Each page is read once at most. At `Here` the slice has the
/// bytes that the page is to have.
pub(crate) fn find_spot<P: Pages>(
    pages: &mut P,
    first: u32,
    key: &[u8],
    body: &[u8],
    page: &mut [u8],
) -> Result<Spot, Stop>
    requires first { IsPast (P.ground pages.old) first }
    requires bytes { length page.old ≡ PAGE_LEN }
    requires key { length key.now ≤ MAX_KEY_LEN }
    requires entry { length key.now + length body.now ≤ MAX_ENTRY_LEN }
    ensures found { IsTrue P.tells → (owner : ℕ) (all : List ℕ) →
        IsChain (P.ground pages.old) owner (P.working pages.old) first all → IfOk result
        (λ spot. IsSpot (P.working pages.old) key.now body.now all page.new spot) }
    ensures past { IfOk result (λ spot. AreSpots (P.ground pages.old) spot) }
    ensures len { length page.new ≡ PAGE_LEN }
    ensures reads { ReadsPages P.PageView pages.old pages.new }
    ensures ends { EndsFile P.PageView (HasChain P.PageView pages.old first)
        pages.old pages.new result }
    ensures not_full { ¬ IsErrOf result Stop.Full }
    ensures frugal { ¬ IsErrOf result Stop.NoMemory }
{
    let mut away = Away {
        old: None,
        room: None,
        last: first,
    };
    for _ in 0..pages.pages() {
        read_entries(pages, away.last, page)?;
        let trial = try_entry(page, key, body);
        if let Trial::Replaced = trial {
            return Ok(Spot::Here(away.last));
        }
        away = note(away, trial);
        match behind(pages, away.last, page)? {
            None => return Ok(Spot::Away(away)),
            Some(next) => away.last = next,
        }
    }
    Err(Stop::Damaged(pages.block(away.last)))
}
