// An entry is taken from a chain.
ghost use Rattle.std.specs.Prelude.{◌≡◌, ◌≤◌, ℕ, List, length, IsTrue, OnOk, IsErrOf};
ghost use Rattle.gx_bytes.specs.declared.page.TheConstants.{PAGE_LEN};
ghost use Rattle.gx_ports.specs.Files.{EndsFile};
ghost use Rattle.gx_ports.specs.PageCalls.{KeepsPages};
ghost use Rattle.gx_ports.specs.Sheets.{IsPast};
ghost use Rattle.gx_chain.specs.Chain.{IsChain, IsEntryAt, HasChainOf};
ghost use Rattle.gx_chain.specs.Changes.{IsRemovedFrom, IsUnlinked};

use crate::read::read_entries;
use crate::seek::find_key;
use gx_ports::{PAGE_LEN, Pages, Stop};
use gx_slots::{count, next, set_next, take};

/// Takes the pair at a key from the chain of the owner that begins at `first`; a key that isn't
/// there changes nothing. A page but the first that empties is left out of the chain, and is free.
/// `Damaged`: no such chain begins there. After a refusal the pages of the chain may hold anything.
pub fn remove_from<P: Pages>(pages: &mut P, first: u32, owner: u16, key: &[u8]) -> Result<(), Stop>
    requires first { IsPast (P.ground pages.old) first }
    requires least { 1 ≤ owner }
    ensures removed { IsTrue P.tells → (before : List ℕ) →
        IsChain (P.ground pages.old) owner (P.working pages.old) first before → OnOk result
        (IsRemovedFrom (P.ground pages.old) owner first key.now (P.working pages.old)
        (P.working pages.new) before) }
    ensures keeps { KeepsPages P.PageView pages.old pages.new }
    ensures ends { EndsFile P.PageView (HasChainOf P.PageView pages.old owner first)
        pages.old pages.new result }
    ensures not_full { ¬ IsErrOf result Stop.Full }
    ensures frugal { ¬ IsErrOf result Stop.NoMemory }
{
    let _ = owner;
    let mut page = [0; PAGE_LEN];
    let Some(found) = find_key(pages, first, key, &mut page)? else {
        return Ok(());
    };
    take(&mut page, found.place);
    if count(&page) > 0 {
        pages.write(found.number, &page)?;
        return Ok(());
    }
    match found.previous {
        None => pages.write(found.number, &page)?,
        Some(previous) => {
            let behind = next(&page);
            unlink(pages, previous, found.number, behind, &mut page)?;
        }
    }
    Ok(())
}

// Leaves a page out of its chain, and makes it free.
fn unlink<P: Pages>(
    pages: &mut P,
    previous: u32,
    number: u32,
    next: u32,
    page: &mut [u8],
) -> Result<(), Stop>
    requires previous { IsPast (P.ground pages.old) previous }
    requires number { IsPast (P.ground pages.old) number }
    requires bytes { length page.old ≡ PAGE_LEN }
    ensures unlinked { IsTrue P.tells → OnOk result
        (IsUnlinked (P.ground pages.old) previous next number (P.working pages.old)
        (P.working pages.new)) }
    ensures keeps { KeepsPages P.PageView pages.old pages.new }
    ensures ends { EndsFile P.PageView (IsEntryAt P.PageView pages.old previous)
        pages.old pages.new result }
    ensures not_full { ¬ IsErrOf result Stop.Full }
    ensures frugal { ¬ IsErrOf result Stop.NoMemory }
{
    read_entries(pages, previous, page)?;
    set_next(page, next);
    pages.write(previous, page)?;
    pages.free(number)?;
    Ok(())
}
