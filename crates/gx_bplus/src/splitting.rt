// Pages without room are split.
ghost use Rattle.std.specs.Prelude.{◌≡◌, ◌↔◌, ◌+◌, ◌-◌, ◌≤◌, ◌<◌, ℕ, [], length, slice_index_or, IsTrue, OnOk, IfOk};
ghost use Rattle.std.specs.Bool.{OnTrue, OnFalse};
ghost use Rattle.std.specs.List.{insert};
ghost use Rattle.gx_bytes.specs.declared.page.TheConstants.{PAGE_LEN};
ghost use Rattle.gx_ports.specs.declared.pages.TheConstants.{MAX_OWNER};
ghost use Rattle.gx_ports.specs.FileCalls.{ClaimsOnePage};
ghost use Rattle.gx_ports.specs.Sheets.{IsPast};
ghost use Rattle.gx_bnode.specs.declared.format.TheConstants.{MAX_SEPARATOR_LEN};
ghost use Rattle.gx_bnode.specs.Branches.{AreAscending};
ghost use Rattle.gx_bnode.specs.Page.{IsInnerPage, HasRoom, first_of, branches_of, separators_of};
ghost use Rattle.gx_btree.specs.Order.{IsBelow};
ghost use Rattle.gx_btree.specs.Tree.{BplusTree, ShowsInner, child_for, with_branch};
ghost use Rattle.gx_bplus.specs.Changes.{MayStand};
ghost use Rattle.gx_bplus.specs.Search.{IsHeld, IsReached, HasReached, HasCome};
ghost use Rattle.gx_bplus.specs.Splits.{IsDivided, IsRaised, ClaimsTwoPages};

use gx_bnode::{child_of, has_room, insert, make_inner, separator, separators, split};
use gx_btree::child_for;
use gx_order::is_below;
use gx_ports::{PAGE_LEN, Pages, Stop};

/// Splits the inner child on the way to a key where it hasn't room for a separator. Gives the page
/// on the way then, which has room, with its bytes in `below`. `Damaged`: the separator doesn't
/// stand between those beside the child.
pub(crate) fn make_room<P: Pages>(
    pages: &mut P,
    owner: u16,
    at: u32,
    page: &mut [u8],
    child: u32,
    below: &mut [u8],
    key: &[u8],
) -> Result<u32, Stop>
    requires least { 1 ≤ owner }
    requires most { owner ≤ MAX_OWNER }
    requires at { IsPast (P.ground pages.old) at }
    requires child { IsPast (P.ground pages.old) child }
    requires page { IsInnerPage page.old }
    requires room { HasRoom (separators_of page.old) }
    requires below { IsInnerPage below.old }
    requires way { child ≡ child_for (first_of page.old) (branches_of page.old) key.now }
    ensures come { IsTrue P.tells → (root steps : ℕ) (tree : BplusTree) →
        IsReached (P.ground pages.old) owner (P.working pages.old) root at child key.now tree steps
        page.old below.old →
        IfOk result (λ next. HasCome (P.ground pages.old) owner root key.now (P.working pages.old)
        (P.working pages.new) tree (steps + 1) next below.new) }
    ensures past { IfOk result (λ next. IsPast (P.ground pages.old) next) }
    ensures inner { OnOk result (IsInnerPage below.new) }
    ensures room { OnOk result (HasRoom (separators_of below.new)) }
    ensures claims { ClaimsOnePage P.PageView
        (IsTrue P.tells × HasReached (P.ground pages.old) (P.working pages.old) at child key.now
        page.old below.old)
        pages.old pages.new result }
{
    if has_room(below) {
        return Ok(child);
    }
    let mut right = [0; PAGE_LEN];
    let separator = split(below, &mut right);
    let fresh = divide(
        pages,
        owner,
        at,
        page,
        child,
        below,
        &right,
        key,
        separator.as_slice(),
    )?;
    if is_below(key, separator.as_slice()) {
        return Ok(child);
    }
    below.copy_from_slice(&right);
    Ok(fresh)
}

/// Where the inner root hasn't room for a separator, its two parts go to two pages below it. Gives
/// the page that the search for a key has come to, the root or one of these, which has room, with
/// its bytes in `page`.
pub(crate) fn open_root<P: Pages>(
    pages: &mut P,
    owner: u16,
    root: u32,
    page: &mut [u8],
    key: &[u8],
) -> Result<u32, Stop>
    requires least { 1 ≤ owner }
    requires most { owner ≤ MAX_OWNER }
    requires root { IsPast (P.ground pages.old) root }
    requires page { IsInnerPage page.old }
    ensures come { IsTrue P.tells → (tree : BplusTree) →
        IsHeld (P.ground pages.old) owner (P.working pages.old) root tree page.old →
        IfOk result (λ at. HasCome (P.ground pages.old) owner root key.now (P.working pages.old)
        (P.working pages.new) tree 0 at page.new) }
    ensures past { IfOk result (λ at. IsPast (P.ground pages.old) at) }
    ensures inner { OnOk result (IsInnerPage page.new) }
    ensures room { OnOk result (HasRoom (separators_of page.new)) }
    ensures claims { ClaimsTwoPages P.PageView owner pages.old pages.new result }
{
    if has_room(page) {
        return Ok(root);
    }
    let mut right = [0; PAGE_LEN];
    let separator = split(page, &mut right);
    let below = raise(pages, owner, root, page, &right, separator.as_slice())?;
    if is_below(key, separator.as_slice()) {
        return Ok(below.left);
    }
    page.copy_from_slice(&right);
    Ok(below.right)
}

/// Gives a page to the right part of the child on the way to a key, whose page gets the left part.
/// The page above them gets the separator between. `Damaged`: it doesn't stand between those beside
/// the child, and no page is written.
pub(crate) fn divide<P: Pages>(
    pages: &mut P,
    owner: u16,
    at: u32,
    page: &mut [u8],
    child: u32,
    left: &[u8],
    right: &[u8],
    key: &[u8],
    separator: &[u8],
) -> Result<u32, Stop>
    requires least { 1 ≤ owner }
    requires most { owner ≤ MAX_OWNER }
    requires at { IsPast (P.ground pages.old) at }
    requires child { IsPast (P.ground pages.old) child }
    requires page { IsInnerPage page.old }
    requires room { HasRoom (separators_of page.old) }
    requires left { length left.now ≡ PAGE_LEN }
    requires right { length right.now ≡ PAGE_LEN }
    requires short { length separator.now ≤ MAX_SEPARATOR_LEN }
    ensures divided { IsTrue P.tells →
        IfOk result (IsDivided (P.ground pages.old) owner at child page.old key.now
        separator.now left.now right.now (P.working pages.old) (P.working pages.new)) }
    ensures past { IfOk result (λ fresh. IsPast (P.ground pages.old) fresh) }
    ensures claims { ClaimsOnePage P.PageView
        (MayStand (branches_of page.old) key.now separator.now)
        pages.old pages.new result }
{
    let fresh = pages.claim(owner)?;
    if !put_child(page, key, separator, fresh) {
        return Err(Stop::Damaged(pages.block(at)));
    }
    pages.write(fresh, right)?;
    pages.write(child, left)?;
    pages.write(at, page)?;
    Ok(fresh)
}

/// The pages of the two parts of a root.
#[derive(Clone, Copy, Debug)]
pub(crate) struct Parts {
    pub left: u32,
    pub right: u32,
}

/// Gives two pages to the two parts of the root, which gets the separator between them.
pub(crate) fn raise<P: Pages>(
    pages: &mut P,
    owner: u16,
    root: u32,
    left: &[u8],
    right: &[u8],
    separator: &[u8],
) -> Result<Parts, Stop>
    requires least { 1 ≤ owner }
    requires most { owner ≤ MAX_OWNER }
    requires root { IsPast (P.ground pages.old) root }
    requires left { length left.now ≡ PAGE_LEN }
    requires right { length right.now ≡ PAGE_LEN }
    requires short { length separator.now ≤ MAX_SEPARATOR_LEN }
    ensures raised { IsTrue P.tells →
        IfOk result (λ parts. IsRaised (P.ground pages.old) owner root
        separator.now left.now right.now (P.working pages.old) (P.working pages.new)
        parts.left parts.right) }
    ensures left { IfOk result (λ parts. IsPast (P.ground pages.old) parts.left) }
    ensures right { IfOk result (λ parts. IsPast (P.ground pages.old) parts.right) }
    ensures claims { ClaimsTwoPages P.PageView owner pages.old pages.new result }
{
    let first = pages.claim(owner)?;
    let second = pages.claim(owner)?;
    let mut top = [0; PAGE_LEN];
    make_inner(&mut top, first, separator, second);
    pages.write(first, left)?;
    pages.write(second, right)?;
    pages.write(root, &top)?;
    Ok(Parts {
        left: first,
        right: second,
    })
}

/// Puts a child right behind the one on the way to a key, with a separator between. False: the
/// separators wouldn't ascend with it.
fn put_child(page: &mut [u8], key: &[u8], separator: &[u8], right: u32) -> bool
    requires page { IsInnerPage page.old }
    requires room { HasRoom (separators_of page.old) }
    requires short { length separator.now ≤ MAX_SEPARATOR_LEN }
    ensures put { OnTrue result (ShowsInner page.new (first_of page.old)
        (with_branch (branches_of page.old) key.now
        (record { separator = separator.now; child = right }))) }
    ensures refused { OnFalse result
        (¬ MayStand (branches_of page.old) key.now separator.now) }
{
    let i = child_of(page, key);
    if !is_between(page, i, separator) {
        return false;
    }
    insert(page, i, separator, right);
    true
}

// Whether the separators of a page ascend with one more at place `i`.
fn is_between(page: &[u8], i: u16, key: &[u8]) -> bool
    requires page { IsInnerPage page.now }
    requires place { i ≤ length (separators_of page.now) }
    ensures { IsTrue result ↔ AreAscending (insert (separators_of page.now) i key.now) }
{
    is_above(page, i, key) && is_under(page, i, key)
}

// Whether a key stands behind the separators before place `i`.
fn is_above(page: &[u8], i: u16, key: &[u8]) -> bool
    requires page { IsInnerPage page.now }
    requires place { i ≤ length (separators_of page.now) }
    ensures { IsTrue result ↔ (0 < i →
        IsBelow (slice_index_or (separators_of page.now) (i - 1) []) key.now) }
{
    i == 0 || is_below(separator(page, i - 1), key)
}

// Whether it stands before those from place `i` on.
fn is_under(page: &[u8], i: u16, key: &[u8]) -> bool
    requires page { IsInnerPage page.now }
    requires place { i ≤ length (separators_of page.now) }
    ensures { IsTrue result ↔ (i < length (separators_of page.now) →
        IsBelow key.now (slice_index_or (separators_of page.now) i [])) }
{
    i == separators(page) || is_below(key, separator(page, i))
}
