// The entries of a chain inside a span.
ghost use Rattle.std.specs.Prelude.{◌≡◌, ◌++◌, [], ◌∷◌, ℕ, List, length, IsTrue, OnOk, IfOk, IsErrOf};
ghost use Rattle.std.specs.List.Sorted.{IsPermutation, IsSortedBy};
ghost use Rattle.std.specs.Ordering.{is_lt};
ghost use Rattle.gx_bytes.specs.declared.page.TheConstants.{PAGE_LEN};
ghost use Rattle.gx_ports.specs.Files.{EndsFile};
ghost use Rattle.gx_ports.specs.LeafMaps.{Extends};
ghost use Rattle.gx_ports.specs.PageCalls.{ReadsPages};
ghost use Rattle.gx_ports.specs.Sheets.{IsPast};
ghost use Rattle.gx_slots.specs.Page.{IsEntryPage, entries_of};
ghost use Rattle.gx_chain.specs.Chain.{IsChain, HasChain};
ghost use Rattle.gx_chain.specs.Collect.{inside_of, inside_on, entry_cmp, HasAppended, HasCollected};

use crate::read::{behind, read_kind};
use gx_bytes::{page_body, record_count};
use gx_ports::{Entries, Entry, PAGE_LEN, Pages, Stop};
use gx_slots::split_entry;
use gx_values::{NoMemory, Octets, Span, inside};
use std::alloc::{AllocError, Global};

/// Appends the entries inside the span, in ascending order of their keys. Each page is read once at
/// most. `Damaged`: no chain begins there. After a refusal `out` may hold more than before.
pub fn collect<P: Pages>(
    alloc: Global,
    pages: &mut P,
    first: u32,
    span: &Span,
    out: &mut Entries,
) -> Result<(), Stop>
    requires first { IsPast (P.ground pages.old) first }
    ensures collected { IsTrue P.tells → (owner : ℕ) (all : List ℕ) →
        IsChain (P.ground pages.old) owner (P.working pages.old) first all → OnOk result
        (HasCollected (P.working pages.old) span.now.lo span.now.hi all out.old out.new) }
    ensures extends { Extends out.old out.new }
    ensures reads { ReadsPages P.PageView pages.old pages.new }
    ensures ends { EndsFile P.PageView (HasChain P.PageView pages.old first)
        pages.old pages.new result }
    ensures not_full { ¬ IsErrOf result Stop.Full }
{
    let mut found = Vec::new(alloc);
    gather_from(alloc, pages, first, span, &mut found)?;
    append_sorted(alloc, &mut found, out)?;
    Ok(())
}

/// Copies the entries of a chain inside the span behind those found before, one page after the
/// other. Each page is read once at most. `Damaged`: no chain begins there. After a refusal `found`
/// may hold more than before.
pub fn gather_from<P: Pages>(
    alloc: Global,
    pages: &mut P,
    first: u32,
    span: &Span,
    found: &mut Vec<Entry>,
) -> Result<(), Stop>
    requires first { IsPast (P.ground pages.old) first }
    ensures found { IsTrue P.tells → (owner : ℕ) (all : List ℕ) →
        IsChain (P.ground pages.old) owner (P.working pages.old) first all → OnOk result
        (found.new.items ≡ found.old.items
        ++ inside_on (P.working pages.old) span.now.lo span.now.hi all) }
    ensures reads { ReadsPages P.PageView pages.old pages.new }
    ensures ends { EndsFile P.PageView (HasChain P.PageView pages.old first)
        pages.old pages.new result }
    ensures not_full { ¬ IsErrOf result Stop.Full }
{
    let mut page = [0; PAGE_LEN];
    let mut number = first;
    for _ in 0..pages.pages() {
        read_kind(pages, number, &mut page)?;
        if !copy_inside(alloc, &page, span, found)? {
            return Err(Stop::Damaged(pages.block(number)));
        }
        match behind(pages, number, &page)? {
            None => return Ok(()),
            Some(next) => number = next,
        }
    }
    Err(Stop::Damaged(pages.block(number)))
}

/// Sorts entries by their keys, and appends copies of them. After a refusal `out` may hold more
/// than before.
pub fn append_sorted(
    alloc: Global,
    found: &mut Vec<Entry>,
    out: &mut Entries,
) -> Result<(), NoMemory>
    ensures ok { OnOk result (HasAppended found.old.items out.old out.new) }
    ensures extends { Extends out.old out.new }
{
    sort_entries(found)?;
    append_all(alloc, found, out)
}

// Copies the entries of a page inside the span. False only where the bytes are no entry page.
fn copy_inside(
    alloc: Global,
    page: &[u8],
    span: &Span,
    found: &mut Vec<Entry>,
) -> Result<bool, NoMemory>
    requires { length page.now ≡ PAGE_LEN }
    ensures ok { IsEntryPage page.now → OnOk result (found.new.items ≡ found.old.items
        ++ inside_of span.now.lo span.now.hi (entries_of page.now)) }
    ensures sound { IsEntryPage page.now → IfOk result (λ sound. IsTrue sound) }
{
    let mut rest = page_body(page);
    for _ in 0..record_count(page) {
        let Some(((key, body), behind)) = split_entry(rest) else {
            return Ok(false);
        };
        copy_entry(alloc, key, body, span, found)?;
        rest = behind;
    }
    Ok(true)
}

// Copies an entry where it lies inside the span.
fn copy_entry(
    alloc: Global,
    key: &[u8],
    body: &[u8],
    span: &Span,
    found: &mut Vec<Entry>,
) -> Result<(), NoMemory>
    ensures { OnOk result (found.new.items ≡ found.old.items
        ++ inside_of span.now.lo span.now.hi (record { key = key.now; body = body.now } ∷ [])) }
{
    if inside(span, key) {
        found.push(Entry {
            key: Octets::from_slice(alloc, key)?,
            body: Octets::from_slice(alloc, body)?,
        })?;
    }
    Ok(())
}

// Sorts entries by their keys.
fn sort_entries(found: &mut Vec<Entry>) -> Result<(), AllocError>
    ensures those { IsPermutation found.old.items found.new.items }
    ensures in_order { OnOk result
        (IsSortedBy (λ a b. is_lt (entry_cmp a b)) found.new.items) }
{
    found.sort_by(|a, b| a.key.as_slice().cmp(b.key.as_slice()))?;
    Ok(())
}

// Appends copies of entries.
fn append_all(alloc: Global, found: &[Entry], out: &mut Entries) -> Result<(), NoMemory>
    ensures ok { OnOk result (out.new ≡ out.old ++ found.now) }
    ensures extends { Extends out.old out.new }
{
    for entry in found {
        out.push(alloc, entry.key.as_slice(), entry.body.as_slice())?;
    }
    Ok(())
}
