// An entry is put on the pages where a search for its key ended.
ghost use Rattle.std.specs.Prelude.{◌≡◌, ◌≤◌, ℕ, IsTrue, OnOk};
ghost use Rattle.gx_ports.specs.declared.pages.TheConstants.{MAX_OWNER};
ghost use Rattle.gx_ports.specs.FileCalls.{ClaimsOnePage};
ghost use Rattle.gx_ports.specs.Sheets.{IsPast};
ghost use Rattle.gx_slots.specs.Entries.{IsFit};
ghost use Rattle.gx_bnode.specs.Page.{IsInnerPage, HasRoom, first_of, branches_of, separators_of};
ghost use Rattle.gx_btree.specs.declared.reading.Shape.TheVariants as shapes;
ghost use Rattle.gx_btree.specs.Bplus.{Shows};
ghost use Rattle.gx_btree.specs.Tree.{BplusTree, child_for};
ghost use Rattle.gx_bplus.specs.Search.{IsHeld, IsReached, HasReached, HasPut};
ghost use Rattle.gx_bplus.specs.Splits.{ClaimsTwoPages};

use crate::insertion::{set_entry, spread};
use crate::splitting::{divide, raise};
use gx_ports::{PAGE_LEN, Pages, Stop};

/// Puts an entry on the entry page on the way to its key, below the page at hand, which has room
/// for a separator. An entry page without room for the entry is split, by whether it is the last
/// one of the tree.
pub(crate) fn put_below<P: Pages>(
    pages: &mut P,
    owner: u16,
    at: u32,
    page: &mut [u8],
    child: u32,
    below: &mut [u8],
    key: &[u8],
    body: &[u8],
    is_last: bool,
) -> Result<(), Stop>
    requires least { 1 ≤ owner }
    requires most { owner ≤ MAX_OWNER }
    requires at { IsPast (P.ground pages.old) at }
    requires child { IsPast (P.ground pages.old) child }
    requires page { IsInnerPage page.old }
    requires room { HasRoom (separators_of page.old) }
    requires below { Shows shapes.Entries below.old }
    requires way { child ≡ child_for (first_of page.old) (branches_of page.old) key.now }
    requires fit { IsFit (record { key = key.now; body = body.now }) }
    ensures put { IsTrue P.tells → (root steps : ℕ) (tree : BplusTree) →
        IsReached (P.ground pages.old) owner (P.working pages.old) root at child key.now tree steps
        page.old below.old →
        OnOk result (HasPut (P.ground pages.old) owner root
        (record { key = key.now; body = body.now })
        (P.working pages.old) (P.working pages.new) tree) }
    ensures claims { ClaimsOnePage P.PageView
        (IsTrue P.tells × HasReached (P.ground pages.old) (P.working pages.old) at child key.now
        page.old below.old)
        pages.old pages.new result }
{
    if set_entry(below, key, body) {
        pages.write(child, below)?;
        return Ok(());
    }
    let mut right = [0; PAGE_LEN];
    let separator = spread(below, &mut right, key, body, is_last);
    divide(
        pages,
        owner,
        at,
        page,
        child,
        below,
        &right,
        key,
        separator.as_slice(),
    )?;
    Ok(())
}

/// Puts an entry into a tree of one page, the root. Where it hasn't room, its parts go to two pages
/// below it.
pub(crate) fn put_alone<P: Pages>(
    pages: &mut P,
    owner: u16,
    root: u32,
    page: &mut [u8],
    key: &[u8],
    body: &[u8],
) -> Result<(), Stop>
    requires least { 1 ≤ owner }
    requires most { owner ≤ MAX_OWNER }
    requires root { IsPast (P.ground pages.old) root }
    requires page { Shows shapes.Entries page.old }
    requires fit { IsFit (record { key = key.now; body = body.now }) }
    ensures put { IsTrue P.tells → (tree : BplusTree) →
        IsHeld (P.ground pages.old) owner (P.working pages.old) root tree page.old →
        OnOk result (HasPut (P.ground pages.old) owner root
        (record { key = key.now; body = body.now })
        (P.working pages.old) (P.working pages.new) tree) }
    ensures claims { ClaimsTwoPages P.PageView owner pages.old pages.new result }
{
    if set_entry(page, key, body) {
        pages.write(root, page)?;
        return Ok(());
    }
    let mut right = [0; PAGE_LEN];
    let separator = spread(page, &mut right, key, body, true);
    raise(pages, owner, root, page, &right, separator.as_slice())?;
    Ok(())
}
