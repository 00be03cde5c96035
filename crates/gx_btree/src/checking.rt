// A B+ tree is checked.
ghost use Rattle.std.specs.Prelude.{◌≡◌, ◌↔◌, ◌++◌, ◌∷◌, [], None, false, ◌<◌, length, replicate, IsTrue, OnOk, IfOk, IsErrOf};
ghost use Rattle.std.specs.Bool.{OnTrue};
ghost use Rattle.gx_ports.specs.declared.kinds.LeafKind.TheVariants as kinds;
ghost use Rattle.gx_bytes.specs.declared.page.TheConstants.{PAGE_LEN};
ghost use Rattle.gx_ports.specs.FileCalls.{ChecksFile};
ghost use Rattle.gx_ports.specs.Files.{IsPlace, EndsFile, IsWhole};
ghost use Rattle.gx_ports.specs.PageCalls.{ReadsPages};
ghost use Rattle.gx_ports.specs.Sheets.{IsPast, bytes_at};
ghost use Rattle.gx_bnode.specs.Page.{IsInnerPage, first_of, branches_of};
ghost use Rattle.gx_btree.specs.declared.reading.Shape.TheVariants as shapes;
ghost use Rattle.gx_btree.specs.Bplus.{IsBplus, IsTreePage, Shows};
ghost use Rattle.gx_btree.specs.Checking.{root_part, child_parts, IsInside, IsPassed, IsVisited, AreBelow, HasNext};
ghost use Rattle.gx_seen.specs.Seen.{IsUnseen, AreAllSeen};
ghost use Rattle.gx_btree.specs.Order.{IsUnder};

use crate::reading::{Shape, read_page};
use crate::selection::is_up_to;
use gx_bnode::{branches, child};
use gx_order::compare_bytes;
use gx_ports::{PAGE_LEN, Pages, Place, Stop};
use gx_seen::{is_unseen, seek_unseen};
use gx_slots::{count, entry};
use gx_values::{KeyBuf, NoMemory};
use std::alloc::Global;

/// A part of a tree that is yet to be visited.
#[derive(Drop)]
pub(crate) struct Part {
    /// the page on which the number of its top stands, for the root itself
    pub above: u32,
    /// the page at its top
    pub page: u32,
    /// none of its keys stands before this one
    pub low: KeyBuf,
}

/// How far a tree has been visited, from its last keys to its first.
#[derive(Drop)]
pub(crate) struct Visits {
    /// for each page, whether it was seen
    pub seen: Vec<bool>,
    /// the parts yet to be visited, in the order of their keys; the last one comes next
    pub parts: Vec<Part>,
    /// the key that theirs stand before, where there is one
    pub high: Option<KeyBuf>,
}

/// Looks whether the tree is whole. Each of its pages is read once, from the last keys to the
/// first, and then the table of owners, a page at a time. `Damaged` has the block of a page that
/// shows that it isn't.
pub fn check<P: Pages>(alloc: Global, pages: &mut P, place: &Place) -> Result<(), Stop>
    requires kind { place.now.spec.kind ≡ kinds.Bplus }
    requires place { IsPlace (P.ground pages.old) place.now }
    ensures { ChecksFile P.PageView (IsBplus (P.ground pages.old) place.now)
        pages.old pages.new result }
{
    let seen = visit_tree(alloc, pages, place)?;
    seek_unseen(pages, place.owner, &seen)
}

// Visits each page of the tree, and answers which these are.
fn visit_tree<P: Pages>(alloc: Global, pages: &mut P, place: &Place) -> Result<Vec<bool>, Stop>
    requires kind { place.now.spec.kind ≡ kinds.Bplus }
    requires place { IsPlace (P.ground pages.old) place.now }
    ensures seen { IsTrue P.tells → IfOk result (λ seen.
        IsWhole P.PageView (IsBplus (P.ground pages.old) place.now) pages.old
        ↔ AreAllSeen (P.working pages.old) place.now.owner seen.items) }
    ensures len { IfOk result (λ seen. length seen.items ≡ (P.ground pages.old).size) }
    ensures reads { ReadsPages P.PageView pages.old pages.new }
    ensures ends { EndsFile P.PageView
        (IsWhole P.PageView (IsBplus (P.ground pages.old) place.now) pages.old)
        pages.old pages.new result }
    ensures not_full { ¬ IsErrOf result Stop.Full }
{
    let count = pages.pages();
    let mut visits = no_visits(alloc, count, place.root)?;
    for _ in 0..count {
        let Some(part) = visits.parts.pop() else {
            return Ok(visits.seen);
        };
        visit_part(pages, place.owner, &part, &mut visits)?;
    }
    if visits.parts.is_empty() {
        return Ok(visits.seen);
    }
    Err(Stop::Damaged(pages.block(place.root)))
}

// No page is seen yet, and the whole tree is to be visited.
fn no_visits(alloc: Global, count: u32, root: u32) -> Result<Visits, NoMemory>
    ensures seen { IfOk result (λ visits. visits.seen.items ≡ replicate count false) }
    ensures parts { IfOk result (λ visits. visits.parts.items ≡ root_part root ∷ []) }
    ensures high { IfOk result (λ visits. visits.high ≡ None) }
{
    let seen = vec![in alloc; false; count as usize]?;
    let mut parts = Vec::new(alloc);
    parts.push(Part {
        above: root,
        page: root,
        low: KeyBuf::from_slice(&[]),
    })?;
    Ok(Visits {
        seen,
        parts,
        high: None,
    })
}

// Visits the page at the top of the part that comes next.
fn visit_part<P: Pages>(
    pages: &mut P,
    owner: u16,
    part: &Part,
    visits: &mut Visits,
) -> Result<(), Stop>
    requires above { part.now.above < (P.ground pages.old).size }
    requires seen { length visits.old.seen.items ≡ (P.ground pages.old).size }
    ensures visited { IsTrue P.tells → OnOk result
        (IsVisited (P.ground pages.old) owner (P.working pages.old)
        part.now visits.old visits.new) }
    ensures below { AreBelow (P.ground pages.old) visits.old.parts.items →
        OnOk result (AreBelow (P.ground pages.old) visits.new.parts.items) }
    ensures seen { length visits.new.seen.items ≡ (P.ground pages.old).size }
    ensures reads { ReadsPages P.PageView pages.old pages.new }
    ensures ends { EndsFile P.PageView
        (HasNext P.PageView pages.old owner part.now visits.old)
        pages.old pages.new result }
    ensures not_full { ¬ IsErrOf result Stop.Full }
{
    let mut page = [0; PAGE_LEN];
    let shape = read_unseen(pages, owner, part, &visits.seen, &mut page)?;
    if !pass(&page, shape, part, visits)? {
        return Err(Stop::Damaged(pages.block(part.page)));
    }
    visits.seen[part.page as usize] = true;
    Ok(())
}

// Reads the page at the top of a part, which must be a page of the owner that wasn't seen.
fn read_unseen<P: Pages>(
    pages: &mut P,
    owner: u16,
    part: &Part,
    seen: &[bool],
    page: &mut [u8],
) -> Result<Shape, Stop>
    requires above { part.now.above < (P.ground pages.old).size }
    requires seen { length seen.now ≡ (P.ground pages.old).size }
    requires bytes { length page.old ≡ PAGE_LEN }
    ensures shape { IfOk result (λ shape. Shows shape page.new) }
    ensures read { IsTrue P.tells →
        OnOk result (bytes_at (P.working pages.old) part.now.page ≡ page.new) }
    ensures past { OnOk result (IsPast (P.ground pages.old) part.now.page) }
    ensures unseen { IsTrue P.tells →
        OnOk result (IsUnseen (P.working pages.old) owner seen.now part.now.page) }
    ensures reads { ReadsPages P.PageView pages.old pages.new }
    ensures ends { EndsFile P.PageView
        (IsTrue P.tells × IsTreePage (P.ground pages.old) (P.working pages.old) part.now.page
        × IsUnseen (P.working pages.old) owner seen.now part.now.page)
        pages.old pages.new result }
    ensures not_full { ¬ IsErrOf result Stop.Full }
    ensures frugal { ¬ IsErrOf result Stop.NoMemory }
{
    let shape = read_page(pages, part.above, part.page, page)?;
    if !is_unseen(pages, part.page, owner, seen)? {
        return Err(Stop::Damaged(pages.block(part.page)));
    }
    Ok(shape)
}

// Goes from the page of a part to what is left then. False where its keys don't lie between the
// bounds.
fn pass(page: &[u8], shape: Shape, part: &Part, visits: &mut Visits) -> Result<bool, NoMemory>
    requires { Shows shape page.now }
    ensures inside { IfOk result
        (λ inside. IsTrue inside ↔ IsInside shape page.now part.now visits.old.high) }
    ensures passed { IfOk result
        (λ inside. OnTrue inside (IsPassed shape page.now part.now visits.old visits.new)) }
    ensures seen { visits.new.seen ≡ visits.old.seen }
{
    match shape {
        Shape::Entries => {
            if !are_inside(page, part, &visits.high) {
                return Ok(false);
            }
            visits.high = Some(KeyBuf::from_slice(part.low.as_slice()));
        }
        Shape::Inner => push_children(page, part, &mut visits.parts)?,
    }
    Ok(true)
}

// Whether the keys of an entry page lie between the bounds, and there is one, if it isn't the root.
fn are_inside(page: &[u8], part: &Part, high: &Option<KeyBuf>) -> bool
    requires { Shows shapes.Entries page.now }
    ensures { IsTrue result ↔ IsInside shapes.Entries page.now part.now high.now }
{
    let count = count(page);
    if count == 0 {
        return part.above == part.page;
    }
    let (first, _) = entry(page, 0);
    let (last, _) = entry(page, count - 1);
    is_up_to(part.low.as_slice(), first) && is_under(last, high)
}

// Whether a key stands before a bound, where there is one.
fn is_under(key: &[u8], bound: &Option<KeyBuf>) -> bool
    ensures { IsTrue result ↔ IsUnder key.now bound.now }
{
    match bound {
        Some(bound) => compare_bytes(key, bound.as_slice()).is_lt(),
        None => true,
    }
}

// The children of an inner page are yet to be visited.
fn push_children(page: &[u8], part: &Part, parts: &mut Vec<Part>) -> Result<(), NoMemory>
    requires { IsInnerPage page.now }
    ensures { OnOk result (parts.new.items ≡ parts.old.items
        ++ child_parts part.now.page part.now.low (first_of page.now) (branches_of page.now)) }
{
    parts.push(Part {
        above: part.page,
        page: child(page, 0),
        low: KeyBuf::from_slice(part.low.as_slice()),
    })?;
    for (separator, child) in branches(page) {
        parts.push(Part {
            above: part.page,
            page: child,
            low: KeyBuf::from_slice(separator),
        })?;
    }
    Ok(())
}
