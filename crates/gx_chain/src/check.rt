// A chain is checked.
ghost use Rattle.std.specs.Prelude.{◌≡◌, ℕ, ◌<◌, List, [], ◌++◌, ◌∷◌, length, replicate, Bool, false, IsTrue, OnOk, IfOk, IsErrOf};
ghost use Rattle.std.specs.Bool.{OnTrue, OnFalse};
ghost use Rattle.gx_bytes.specs.declared.page.TheConstants.{PAGE_LEN};
ghost use Rattle.gx_ports.specs.Files.{EndsFile};
ghost use Rattle.gx_ports.specs.PageCalls.{ReadsPages};
ghost use Rattle.gx_ports.specs.Sheets.{IsPast, bytes_at};
ghost use Rattle.gx_slots.specs.Page.{IsEntryPage, entries_of};
ghost use Rattle.gx_chain.specs.Check.{IsWholeChain, HasWholeChain, HasAddedKeys, SharesKey, AreVisited, IsNext, IsVisitedChain, HasUnseenChain};

use crate::read::{behind, read_entries};
use gx_ports::{PAGE_LEN, Pages, Stop};
use gx_seen::{is_unseen, seek_unseen};
use gx_slots::{count, entries};
use gx_values::NoMemory;
use std::alloc::{AllocError, Global};
use std::collections::BTreeSet;

/// What was found on the pages of chains so far.
#[derive(Drop)]
pub struct Visits {
    /// for each page, whether it is on one of them
    pub seen: Vec<bool>,
    /// the keys of the entries on the last of them
    pub keys: BTreeSet<Vec<u8>>,
}

/// Looks whether a chain of the owner begins at `first`, and the owner has no other page. Each page
/// of the chain is read once. `Damaged`: none does, or it has one, and the block is that of a page
/// that shows it.
pub fn check_chain<P: Pages>(
    alloc: Global,
    pages: &mut P,
    first: u32,
    owner: u16,
) -> Result<(), Stop>
    requires first { IsPast (P.ground pages.old) first }
    ensures whole { IsTrue P.tells → OnOk result
        (IsWholeChain (P.ground pages.old) owner (P.working pages.old) first) }
    ensures reads { ReadsPages P.PageView pages.old pages.new }
    ensures ends { EndsFile P.PageView (HasWholeChain P.PageView pages.old owner first)
        pages.old pages.new result }
    ensures not_full { ¬ IsErrOf result Stop.Full }
{
    let count = pages.pages();
    let mut visits = no_visits(alloc, count)?;
    visit_chain(alloc, pages, first, owner, &mut visits)?;
    seek_unseen(pages, owner, &visits.seen)
}

/// No visits yet, among so many pages. `AllocError`: there was no memory for a flag each.
pub fn no_visits(alloc: Global, count: u32) -> Result<Visits, AllocError>
    ensures seen { IfOk result (λ visits. visits.seen.items ≡ replicate count false) }
    ensures keys { IfOk result (λ visits. visits.keys.keys ≡ []) }
{
    Ok(Visits {
        seen: vec![in alloc; false; count as usize]?,
        keys: BTreeSet::new(alloc),
    })
}

/// Looks whether a chain of the owner begins at `first` whose pages weren't seen yet, marks them,
/// and notes its keys in the place of those noted before. Each page of the chain is read once.
/// `Damaged`: there is no such chain, and the block is that of a page that shows it. After a
/// refusal the visits may hold anything.
pub fn visit_chain<P: Pages>(
    alloc: Global,
    pages: &mut P,
    first: u32,
    owner: u16,
    visits: &mut Visits,
) -> Result<(), Stop>
    requires first { IsPast (P.ground pages.old) first }
    requires seen { length visits.old.seen.items ≡ (P.ground pages.old).size }
    ensures visited { IsTrue P.tells → OnOk result
        (IsVisitedChain (P.ground pages.old) owner (P.working pages.old) first
        visits.old.seen.items visits.new) }
    ensures seen { length visits.new.seen.items ≡ (P.ground pages.old).size }
    ensures reads { ReadsPages P.PageView pages.old pages.new }
    ensures ends { EndsFile P.PageView
        (HasUnseenChain P.PageView pages.old owner first visits.old.seen.items)
        pages.old pages.new result }
    ensures not_full { ¬ IsErrOf result Stop.Full }
{
    visits.keys = BTreeSet::new(alloc);
    let mut page = [0; PAGE_LEN];
    let mut number = first;
    for _ in 0..pages.pages() {
        visit(alloc, pages, number, first, owner, &mut page, visits)?;
        match behind(pages, number, &page)? {
            None => return Ok(()),
            Some(next) => number = next,
        }
    }
    Err(Stop::Damaged(pages.block(number)))
}

// Reads the next page of the chain, which must be a page of the owner that wasn't seen, have an
// entry if it isn't the first, and no key that was found before.
fn visit<P: Pages>(
    alloc: Global,
    pages: &mut P,
    number: u32,
    first: u32,
    owner: u16,
    page: &mut [u8],
    visits: &mut Visits,
) -> Result<(), Stop>
    requires number { IsPast (P.ground pages.old) number }
    requires bytes { length page.old ≡ PAGE_LEN }
    requires seen { length visits.old.seen.items ≡ (P.ground pages.old).size }
    ensures visited { IsTrue P.tells → (before : List Bool) (front : List ℕ) →
        AreVisited (P.ground pages.old) owner (P.working pages.old) first before front
        visits.old → OnOk result
        (AreVisited (P.ground pages.old) owner (P.working pages.old) first before
        (front ++ number ∷ []) visits.new) }
    ensures read { OnOk result (IsEntryPage page.new) }
    ensures bytes { IsTrue P.tells →
        OnOk result (page.new ≡ bytes_at (P.working pages.old) number) }
    ensures len { length page.new ≡ PAGE_LEN }
    ensures seen { length visits.new.seen.items ≡ (P.ground pages.old).size }
    ensures reads { ReadsPages P.PageView pages.old pages.new }
    ensures ends { EndsFile P.PageView (IsNext P.PageView pages.old owner first visits.old number)
        pages.old pages.new result }
    ensures not_full { ¬ IsErrOf result Stop.Full }
{
    if !is_unseen(pages, number, owner, &visits.seen)? {
        return Err(Stop::Damaged(pages.block(number)));
    }
    read_entries(pages, number, page)?;
    if number != first && count(page) == 0 {
        return Err(Stop::Damaged(pages.block(number)));
    }
    if !add_keys(alloc, page, &mut visits.keys)? {
        return Err(Stop::Damaged(pages.block(number)));
    }
    visits.seen[number as usize] = true;
    Ok(())
}

// Adds the keys of a page. False: one was there already.
fn add_keys(alloc: Global, page: &[u8], keys: &mut BTreeSet<Vec<u8>>) -> Result<bool, NoMemory>
    requires page { IsEntryPage page.now }
    ensures added { IfOk result (λ added. OnTrue added
        (HasAddedKeys (entries_of page.now) keys.old.keys keys.new.keys)) }
    ensures shared { IfOk result (λ added. OnFalse added
        (SharesKey (entries_of page.now) keys.old.keys)) }
{
    for (key, _) in entries(page) {
        if !keys.insert(key.to_vec(alloc)?)? {
            return Ok(false);
        }
    }
    Ok(true)
}
