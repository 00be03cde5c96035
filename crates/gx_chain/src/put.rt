// An entry is put into a chain.
ghost use Rattle.std.specs.Prelude.{◌≡◌, ◌+◌, ◌≤◌, ℕ, List, length, IsTrue, OnOk, IsErrOf, MatchOption};
ghost use Rattle.gx_values.specs.declared.bytes.TheConstants.{MAX_KEY_LEN};
ghost use Rattle.gx_ports.specs.declared.leaves.TheConstants.{MAX_ENTRY_LEN};
ghost use Rattle.gx_bytes.specs.declared.page.TheConstants.{PAGE_LEN};
ghost use Rattle.gx_ports.specs.declared.pages.TheConstants.{MAX_OWNER};
ghost use Rattle.gx_ports.specs.FileCalls.{ClaimsOnePage};
ghost use Rattle.gx_ports.specs.Files.{EndsFile};
ghost use Rattle.gx_ports.specs.PageCalls.{KeepsPages};
ghost use Rattle.gx_ports.specs.Sheets.{IsPast};
ghost use Rattle.gx_chain.specs.Chain.{IsChain, HasChainOf};
ghost use Rattle.gx_chain.specs.Changes.{IsPutIn};
ghost use Rattle.gx_chain.specs.Walk.{IsDropped, HasOld, IsReadyToDrop, IsReady, IsReadyToPut, IsAwayPast};

use crate::walk::{Away, Spot, find_spot};
use crate::write::{add_to, append, take_from};
use gx_ports::{PAGE_LEN, Pages, Stop};

/// Sets one pair in the chain of the owner that begins at `first`: in the place of the old one,
/// else on the first page with room, else on a fresh page behind the last. A page is claimed before
/// any is written. `Full`: no page past the table is free, and nothing has changed. `Damaged`: no
/// such chain begins there. After another refusal the pages of the chain may hold anything.
pub fn put_in<P: Pages>(
    pages: &mut P,
    first: u32,
    owner: u16,
    key: &[u8],
    body: &[u8],
) -> Result<(), Stop>
    requires first { IsPast (P.ground pages.old) first }
    requires least { 1 ≤ owner }
    requires most { owner ≤ MAX_OWNER }
    requires key { length key.now ≤ MAX_KEY_LEN }
    requires entry { length key.now + length body.now ≤ MAX_ENTRY_LEN }
    ensures put { IsTrue P.tells → (before : List ℕ) →
        IsChain (P.ground pages.old) owner (P.working pages.old) first before → OnOk result
        (IsPutIn (P.ground pages.old) owner first key.now body.now (P.working pages.old)
        (P.working pages.new) before) }
    ensures claims { ClaimsOnePage P.PageView (HasChainOf P.PageView pages.old owner first)
        pages.old pages.new result }
{
    let mut page = [0; PAGE_LEN];
    match find_spot(pages, first, key, body, &mut page)? {
        Spot::Here(number) => {
            pages.write(number, &page)?;
            Ok(())
        }
        Spot::Away(away) => put_away(pages, owner, away, key, body, &mut page),
    }
}

// Puts the entry to where it was noted.
fn put_away<P: Pages>(
    pages: &mut P,
    owner: u16,
    away: Away,
    key: &[u8],
    body: &[u8],
    page: &mut [u8],
) -> Result<(), Stop>
    requires away { IsAwayPast (P.ground pages.old) away }
    requires least { 1 ≤ owner }
    requires most { owner ≤ MAX_OWNER }
    requires bytes { length page.old ≡ PAGE_LEN }
    requires key { length key.now ≤ MAX_KEY_LEN }
    requires entry { length key.now + length body.now ≤ MAX_ENTRY_LEN }
    ensures put { IsTrue P.tells → (first : ℕ) (before : List ℕ) →
        IsReady (P.ground pages.old) owner (P.working pages.old) first key.now body.now away
        before → OnOk result
        (IsPutIn (P.ground pages.old) owner first key.now body.now (P.working pages.old)
        (P.working pages.new) before) }
    ensures claims { ClaimsOnePage P.PageView
        (IsReadyToPut P.PageView pages.old owner key.now body.now away)
        pages.old pages.new result }
{
    if let Some(room) = away.room {
        drop_old(pages, away.old, key, page)?;
        add_to(pages, room, key, body, page)?;
        return Ok(());
    }
    let fresh = pages.claim(owner)?;
    drop_old(pages, away.old, key, page)?;
    append(pages, away.last, fresh, key, body, page)?;
    Ok(())
}

// Takes the old entry away, if there is one.
fn drop_old<P: Pages>(
    pages: &mut P,
    old: Option<u32>,
    key: &[u8],
    page: &mut [u8],
) -> Result<(), Stop>
    requires old { MatchOption old (Unit {0}) (IsPast (P.ground pages.old)) }
    requires bytes { length page.old ≡ PAGE_LEN }
    ensures dropped { IsTrue P.tells → (owner first : ℕ) (before : List ℕ) →
        IsChain (P.ground pages.old) owner (P.working pages.old) first before →
        HasOld (P.working pages.old) key.now before old → OnOk result
        (IsDropped (P.ground pages.old) owner first key.now (P.working pages.old)
        (P.working pages.new) before) }
    ensures len { length page.new ≡ PAGE_LEN }
    ensures keeps { KeepsPages P.PageView pages.old pages.new }
    ensures ends { EndsFile P.PageView (IsReadyToDrop P.PageView pages.old key.now old)
        pages.old pages.new result }
    ensures not_full { ¬ IsErrOf result Stop.Full }
    ensures frugal { ¬ IsErrOf result Stop.NoMemory }
{
    if let Some(number) = old {
        take_from(pages, number, key, page)?;
    }
    Ok(())
}
