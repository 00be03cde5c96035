// A walk along a chain, to an entry.
ghost use Rattle.std.specs.Prelude.{◌≡◌, ℕ, List, length, IsTrue, IfOk, IsErrOf};
ghost use Rattle.gx_bytes.specs.declared.page.TheConstants.{PAGE_LEN};
ghost use Rattle.gx_ports.specs.Files.{EndsFile};
ghost use Rattle.gx_ports.specs.PageCalls.{ReadsPages};
ghost use Rattle.gx_ports.specs.Sheets.{IsPast};
ghost use Rattle.gx_chain.specs.Chain.{IsChain, HasChain};
ghost use Rattle.gx_chain.specs.Seek.{IsSought, IsFoundPast};

use crate::read::{behind, read_entries};
use gx_ports::{PAGE_LEN, Pages, Stop};
use gx_slots::find;

/// Where an entry stands on a chain.
#[derive(Clone, Copy, Debug)]
pub(crate) struct Found {
    /// the page
    pub number: u32,
    /// the place on it
    pub place: u16,
    /// the page before, None where it is the first
    pub previous: Option<u32>,
}

/// Finds the entry with a key, None where no page has it. Each page is read once at most. Where it
/// is found, the slice has the bytes of its page.
pub(crate) fn find_key<P: Pages>(
    pages: &mut P,
    first: u32,
    key: &[u8],
    page: &mut [u8],
) -> Result<Option<Found>, Stop>
    requires first { IsPast (P.ground pages.old) first }
    requires bytes { length page.old ≡ PAGE_LEN }
    ensures found { IsTrue P.tells → (owner : ℕ) (all : List ℕ) →
        IsChain (P.ground pages.old) owner (P.working pages.old) first all → IfOk result
        (IsSought (P.working pages.old) key.now all page.new) }
    ensures past { IfOk result (IsFoundPast (P.ground pages.old) page.new) }
    ensures len { length page.new ≡ PAGE_LEN }
    ensures reads { ReadsPages P.PageView pages.old pages.new }
    ensures ends { EndsFile P.PageView (HasChain P.PageView pages.old first)
        pages.old pages.new result }
    ensures not_full { ¬ IsErrOf result Stop.Full }
    ensures frugal { ¬ IsErrOf result Stop.NoMemory }
{
    let mut number = first;
    let mut previous = None;
    for _ in 0..pages.pages() {
        read_entries(pages, number, page)?;
        if let Some(place) = find(page, key) {
            return Ok(Some(Found {
                number,
                place,
                previous,
            }));
        }
        match behind(pages, number, page)? {
            None => return Ok(None),
            Some(next) => {
                previous = Some(number);
                number = next;
            }
        }
    }
    Err(Stop::Damaged(pages.block(number)))
}
