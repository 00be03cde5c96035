// A chain is made.
ghost use Rattle.std.specs.Prelude.{◌≡◌, ◌≤◌, slice_get, Some, IsTrue, OnOk};
ghost use Rattle.gx_ports.specs.declared.pages.TheConstants.{MAX_OWNER};
ghost use Rattle.gx_ports.specs.PageCalls.{KeepsPages, CountsPageFaults};
ghost use Rattle.gx_ports.specs.Sheets.{IsPast};
ghost use Rattle.gx_chain.specs.Changes.{IsMade};

use gx_device::Failed;
use gx_ports::{PAGE_LEN, Pages};
use gx_slots::clear;

/// Gives a free page to an owner, and makes it an empty entry page with no next page. After
/// `Failed` the pages are to be opened again.
pub fn make_first<P: Pages>(pages: &mut P, first: u32, owner: u16) -> Result<(), Failed>
    requires first { IsPast (P.ground pages.old) first }
    requires least { 1 ≤ owner }
    requires most { owner ≤ MAX_OWNER }
    ensures made { IsTrue P.tells → slice_get (P.working pages.old).owners first ≡ Some 0 →
        OnOk result
        (IsMade (P.ground pages.old) owner first (P.working pages.old) (P.working pages.new)) }
    ensures keeps { KeepsPages P.PageView pages.old pages.new }
    ensures faults { CountsPageFaults P.PageView pages.old pages.new result }
{
    pages.claim_at(first, owner)?;
    let mut page = [0; PAGE_LEN];
    clear(&mut page);
    pages.write(first, &page)?;
    Ok(())
}
