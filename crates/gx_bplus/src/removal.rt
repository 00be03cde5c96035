// A key is removed from the pages where a search for it ended.
ghost use Rattle.std.specs.Prelude.{◌≡◌, ◌≤◌, ℕ, List, [], length, IsTrue, OnOk, IsErrOf};
ghost use Rattle.std.specs.Bool.{OnFalse};
ghost use Rattle.gx_ports.specs.Files.{EndsFile};
ghost use Rattle.gx_ports.specs.PageCalls.{KeepsPages, CountsPageFaults};
ghost use Rattle.gx_ports.specs.Sheets.{IsPast, bytes_at};
ghost use Rattle.gx_slots.specs.Page.{entries_of};
ghost use Rattle.gx_bnode.specs.Page.{IsInnerPage, first_of, branches_of};
ghost use Rattle.gx_btree.specs.declared.reading.Shape.TheVariants as shapes;
ghost use Rattle.gx_btree.specs.Bplus.{Shows, IsTreePage, IsOwned, ArePast};
ghost use Rattle.gx_btree.specs.Tree.{BplusTree, IsWhole, Owns, child_for, first_without};
ghost use Rattle.gx_bplus.specs.Changes.{IsTakenFrom};
ghost use Rattle.gx_bplus.specs.Search.{IsReached, HasReached, HasRemoved};

use gx_bnode::{child, child_of, drop_child, separators};
use gx_btree::read_page;
use gx_device::Failed;
use gx_ports::{PAGE_LEN, Pages, Stop};
use gx_slots::{count, find, take};

/// Takes the entry with the key off an entry page of a tree. False where there is none, and then
/// nothing changes.
pub(crate) fn take_key(page: &mut [u8], key: &[u8]) -> bool
    requires { Shows shapes.Entries page.old }
    ensures shown { Shows shapes.Entries page.new }
    ensures taken { IsTakenFrom key.now (entries_of page.old) (entries_of page.new) }
    ensures same { OnFalse result (page.new ≡ page.old) }
{
    match find(page, key) {
        Some(i) => {
            take(page, i);
            true
        }
        None => false,
    }
}

/// Frees the child on the way to a key, which has no other entry, and takes it off its page, which
/// has two separators or more.
fn drop_page<P: Pages>(
    pages: &mut P,
    at: u32,
    page: &mut [u8],
    child: u32,
    key: &[u8],
) -> Result<(), Failed>
    requires at { IsPast (P.ground pages.old) at }
    requires child { IsPast (P.ground pages.old) child }
    requires page { IsInnerPage page.old }
    requires several { 2 ≤ length (branches_of page.old) }
    requires way { child ≡ child_for (first_of page.old) (branches_of page.old) key.now }
    ensures removed { IsTrue P.tells →
        (owner root steps : ℕ) (tree : BplusTree) (below : List ℕ) →
        IsReached (P.ground pages.old) owner (P.working pages.old) root at child key.now tree steps
        page.old below →
        Shows shapes.Entries below → IsTakenFrom key.now (entries_of below) [] →
        OnOk result (HasRemoved (P.ground pages.old) owner root key.now (P.working pages.old)
        (P.working pages.new) tree) }
    ensures keeps { KeepsPages P.PageView pages.old pages.new }
    ensures faults { CountsPageFaults P.PageView pages.old pages.new result }
{
    let i = child_of(page, key);
    drop_child(page, i);
    pages.write(at, page)?;
    pages.free(child)
}

/// Frees the child on the way to a key, which has no other entry, and gives its page the bytes of
/// the one other child, which is freed too.
fn replace_page<P: Pages>(
    pages: &mut P,
    at: u32,
    page: &[u8],
    child: u32,
    other: u32,
    key: &[u8],
) -> Result<(), Stop>
    requires at { IsPast (P.ground pages.old) at }
    requires child { IsPast (P.ground pages.old) child }
    requires page { IsInnerPage page.now }
    requires one { length (branches_of page.now) ≡ 1 }
    requires way { child ≡ child_for (first_of page.now) (branches_of page.now) key.now }
    requires other { other ≡ first_without (first_of page.now) (branches_of page.now) key.now }
    ensures removed { IsTrue P.tells →
        (owner root steps : ℕ) (tree : BplusTree) (below : List ℕ) →
        IsReached (P.ground pages.old) owner (P.working pages.old) root at child key.now tree steps
        page.now below →
        Shows shapes.Entries below → IsTakenFrom key.now (entries_of below) [] →
        OnOk result (HasRemoved (P.ground pages.old) owner root key.now (P.working pages.old)
        (P.working pages.new) tree) }
    ensures keeps { KeepsPages P.PageView pages.old pages.new }
    ensures ends { EndsFile P.PageView
        (IsTrue P.tells × IsTreePage (P.ground pages.old) (P.working pages.old) other)
        pages.old pages.new result }
    ensures not_full { ¬ IsErrOf result Stop.Full }
    ensures frugal { ¬ IsErrOf result Stop.NoMemory }
{
    let mut bytes = [0; PAGE_LEN];
    read_page(pages, at, other, &mut bytes)?;
    pages.write(at, &bytes)?;
    pages.free(child)?;
    pages.free(other)?;
    Ok(())
}

/// The one other child than that on the way to a key.
fn other_child(page: &[u8], key: &[u8]) -> u32
    requires page { IsInnerPage page.now }
    requires one { length (branches_of page.now) ≡ 1 }
    ensures { result ≡ first_without (first_of page.now) (branches_of page.now) key.now }
{
    if child_of(page, key) == 0 {
        return child(page, 1);
    }
    child(page, 0)
}

/// Removes a key from the entry page on the way to it, below the page at hand.
pub(crate) fn remove_below<P: Pages>(
    pages: &mut P,
    at: u32,
    page: &mut [u8],
    child: u32,
    below: &mut [u8],
    key: &[u8],
) -> Result<(), Stop>
    requires at { IsPast (P.ground pages.old) at }
    requires child { IsPast (P.ground pages.old) child }
    requires page { IsInnerPage page.old }
    requires below { Shows shapes.Entries below.old }
    requires way { child ≡ child_for (first_of page.old) (branches_of page.old) key.now }
    ensures removed { IsTrue P.tells → (owner root steps : ℕ) (tree : BplusTree) →
        IsReached (P.ground pages.old) owner (P.working pages.old) root at child key.now tree steps
        page.old below.old →
        OnOk result (HasRemoved (P.ground pages.old) owner root key.now (P.working pages.old)
        (P.working pages.new) tree) }
    ensures keeps { KeepsPages P.PageView pages.old pages.new }
    ensures ends { EndsFile P.PageView
        (IsTrue P.tells × HasReached (P.ground pages.old) (P.working pages.old) at child key.now
        page.old below.old)
        pages.old pages.new result }
    ensures not_full { ¬ IsErrOf result Stop.Full }
    ensures frugal { ¬ IsErrOf result Stop.NoMemory }
{
    if !take_key(below, key) {
        return Ok(());
    }
    if count(below) > 0 {
        pages.write(child, below)?;
        return Ok(());
    }
    if separators(page) > 1 {
        drop_page(pages, at, page, child, key)?;
        return Ok(());
    }
    let other = other_child(page, key);
    replace_page(pages, at, page, child, other, key)
}

/// Removes a key from a tree of one page.
pub(crate) fn remove_alone<P: Pages>(
    pages: &mut P,
    root: u32,
    page: &mut [u8],
    key: &[u8],
) -> Result<(), Failed>
    requires root { IsPast (P.ground pages.old) root }
    requires page { Shows shapes.Entries page.old }
    ensures removed { IsTrue P.tells → (owner : ℕ) (tree : BplusTree) →
        IsWhole (bytes_at (P.working pages.old)) root tree →
        Owns (IsOwned owner (P.working pages.old)) tree →
        ArePast (P.ground pages.old) owner (P.working pages.old) →
        bytes_at (P.working pages.old) root ≡ page.old →
        OnOk result (HasRemoved (P.ground pages.old) owner root key.now (P.working pages.old)
        (P.working pages.new) tree) }
    ensures keeps { KeepsPages P.PageView pages.old pages.new }
    ensures faults { CountsPageFaults P.PageView pages.old pages.new result }
{
    if take_key(page, key) {
        pages.write(root, page)?;
    }
    Ok(())
}
