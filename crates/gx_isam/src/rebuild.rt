// The chains of an indexed sequential file are emptied, and filled anew. The file is whole between
// any two steps.
ghost use Rattle.std.specs.Prelude.{◌≡◌, ◌<◌, ◌≤◌, length, IsTrue, OnOk, IsErrOf};
ghost use Rattle.gx_ports.specs.declared.kinds.LeafKind.TheVariants.{Isam};
ghost use Rattle.gx_bytes.specs.declared.page.TheConstants.{PAGE_LEN};
ghost use Rattle.gx_ports.specs.Files.{IsPlace, Holds, EndsFile, IsWhole};
ghost use Rattle.gx_ports.specs.LeafMaps.{LeafMap};
ghost use Rattle.gx_ports.specs.PageCalls.{KeepsPages};
ghost use Rattle.gx_ports.specs.Sheets.{IsPast, HasNone};
ghost use Rattle.gx_slots.specs.Page.{IsEntryPage, entries_of};
ghost use Rattle.gx_isam_index.specs.Index.{IsIndexPage, bucket_count};
ghost use Rattle.gx_isam.specs.Isam.{IsIsam};
ghost use Rattle.gx_isam_index.specs.Layout.{AreOrdered};
ghost use Rattle.gx_isam.specs.Rebuild.{HasIndexAt, HasIndex, IsBlankFor, IsEmptied, IsFilled, IsFreed, IsPartlyFilled, IsRun};

use crate::change::{hang_before, leave_out};
use crate::read::{first_page, read_index};
use gx_chain::read_entries;
use gx_isam_index::{bucket_of, buckets};
use gx_ports::{Entries, PAGE_LEN, Pages, Place, Stop};
use gx_slots::{add, clear, next};

/// Makes all pages of the file free but the root. `Damaged`: no whole file stands there.
pub(crate) fn free_chains<P: Pages>(pages: &mut P, place: &Place) -> Result<(), Stop>
    requires kind { place.now.spec.kind ≡ Isam }
    requires place { IsPlace (P.ground pages.old) place.now }
    ensures emptied { (map : LeafMap) →
        Holds P.PageView (IsIsam (P.ground pages.old) place.now) pages.old map → OnOk result
        (IsEmptied (P.ground pages.old) place.now (P.working pages.old) (P.working pages.new)) }
    ensures keeps { KeepsPages P.PageView pages.old pages.new }
    ensures ends { EndsFile P.PageView
        (IsWhole P.PageView (IsIsam (P.ground pages.old) place.now) pages.old)
        pages.old pages.new result }
    ensures not_full { ¬ IsErrOf result Stop.Full }
    ensures frugal { ¬ IsErrOf result Stop.NoMemory }
{
    let mut index = [0; PAGE_LEN];
    read_index(pages, place.root, &mut index)?;
    let count = buckets(&index);
    for bucket in 0..count {
        free_chain(pages, place, &mut index, bucket)?;
    }
    Ok(())
}

// Makes all pages of the chain of a bucket free, one after the other.
fn free_chain<P: Pages>(
    pages: &mut P,
    place: &Place,
    index: &mut [u8],
    bucket: u16,
) -> Result<(), Stop>
    requires place { IsPlace (P.ground pages.old) place.now }
    requires root { IsPast (P.ground pages.old) place.now.root }
    requires index { IsIndexPage index.old }
    requires bucket { bucket < bucket_count index.old }
    ensures freed { IsTrue P.tells →
        HasIndex (P.ground pages.old) place.now (P.working pages.old) index.old → OnOk result
        (IsFreed (P.ground pages.old) place.now bucket index.old index.new
        (P.working pages.old) (P.working pages.new)) }
    ensures index { IsIndexPage index.new }
    ensures count { bucket_count index.new ≡ bucket_count index.old }
    ensures keeps { KeepsPages P.PageView pages.old pages.new }
    ensures ends { EndsFile P.PageView (HasIndexAt P.PageView pages.old place.now index.old)
        pages.old pages.new result }
    ensures not_full { ¬ IsErrOf result Stop.Full }
    ensures frugal { ¬ IsErrOf result Stop.NoMemory }
{
    let mut page = [0; PAGE_LEN];
    for _ in 0..pages.pages() {
        let Some(first) = first_page(pages, place.root, index, bucket)? else {
            return Ok(());
        };
        read_entries(pages, first, &mut page)?;
        leave_out(pages, place, index, bucket, first, next(&page))?;
    }
    Err(Stop::Damaged(pages.block(place.root)))
}

/// Fills the chains of an index whose buckets have no page, from the last entry to the first: each
/// page is written once. `Full`: no page past the table is free.
pub(crate) fn fill_chains<P: Pages>(
    pages: &mut P,
    place: &Place,
    index: &mut [u8],
    entries: &Entries,
) -> Result<(), Stop>
    requires place { IsPlace (P.ground pages.old) place.now }
    requires root { IsPast (P.ground pages.old) place.now.root }
    requires index { IsIndexPage index.old }
    requires ordered { AreOrdered entries.now }
    ensures filled { IsTrue P.tells → (map : LeafMap) →
        IsBlankFor (P.ground pages.old) place.now (P.working pages.old) index.old entries.now map →
        OnOk result
        (IsFilled (P.ground pages.old) place.now index.old (P.working pages.new) map) }
    ensures partly { IsTrue P.tells → (map : LeafMap) →
        IsBlankFor (P.ground pages.old) place.now (P.working pages.old) index.old entries.now map →
        ¬ IsErrOf result Stop.Fault →
        IsPartlyFilled (P.ground pages.old) place.now (P.working pages.old)
        (P.working pages.new) map }
    ensures full { IsTrue P.tells → IsErrOf result Stop.Full →
        HasNone (P.ground pages.old) (P.working pages.new) }
    ensures keeps { KeepsPages P.PageView pages.old pages.new }
    ensures ends { EndsFile P.PageView (Unit {0}) pages.old pages.new result }
    ensures frugal { ¬ IsErrOf result Stop.NoMemory }
{
    let mut page = [0; PAGE_LEN];
    let mut end = entries.len();
    while end > 0 {
        let (bucket, start) = fill_page(&mut page, index, entries, end);
        hang_before(pages, place, index, bucket, &mut page)?;
        end = start;
    }
    Ok(())
}

// Fills a page with the last of the first `end` entries: as many as have one bucket and fit.
// Answers the bucket, and where the first of them stands.
fn fill_page(page: &mut [u8], index: &[u8], entries: &Entries, end: usize) -> (u16, usize)
    requires page { length page.old ≡ PAGE_LEN }
    requires index { IsIndexPage index.now }
    requires ordered { AreOrdered entries.now }
    requires some { 0 < end }
    requires within { end ≤ length entries.now }
    ensures page { IsEntryPage page.new }
    ensures run { IsRun index.now entries.now result.1 end result.0 (entries_of page.new) }
    ensures bucket { result.0 < bucket_count index.now }
{
    clear(page);
    let last = entries.entry(end - 1);
    let bucket = bucket_of(index, last.key);
    add(page, 0, last.key, last.body);
    let mut start = end - 1;
    while start > 0 {
        let entry = entries.entry(start - 1);
        if bucket_of(index, entry.key) != bucket || !add(page, 0, entry.key, entry.body) {
            break;
        }
        start -= 1;
    }
    (bucket, start)
}
