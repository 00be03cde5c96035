// The chain of a bucket begins, and its first page leaves it.
ghost use Rattle.std.specs.Prelude.{◌≡◌, ◌+◌, ◌<◌, ◌≤◌, ◌≢◌, ◌∷◌, ℕ, [], length, IsTrue, OnOk, IsErrOf};
ghost use Rattle.gx_values.specs.declared.bytes.TheConstants.{MAX_KEY_LEN};
ghost use Rattle.gx_ports.specs.declared.leaves.TheConstants.{MAX_ENTRY_LEN};
ghost use Rattle.gx_bytes.specs.declared.page.TheConstants.{PAGE_LEN};
ghost use Rattle.gx_ports.specs.FileCalls.{ClaimsOnePage};
ghost use Rattle.gx_ports.specs.Files.{IsPlace, EndsFile};
ghost use Rattle.gx_ports.specs.PageCalls.{KeepsPages, CountsPageFaults};
ghost use Rattle.gx_ports.specs.Sheets.{IsPast, bytes_at};
ghost use Rattle.gx_slots.specs.Page.{IsEntryPage, entries_of};
ghost use Rattle.gx_chain.specs.Chain.{IsEntryAt};
ghost use Rattle.gx_isam_index.specs.Index.{IsIndexPage, bucket_count, separators_of, first_page_of};
ghost use Rattle.gx_isam.specs.Change.{IsHungBefore, IsLeftOut, IsLeftOutIfEmpty};

use gx_chain::read_entries;
use gx_device::Failed;
use gx_isam_index::{first, set_first};
use gx_ports::{PAGE_LEN, Pages, Place, Stop};
use gx_slots::{add, clear, count, next, set_next};

/// Begins the chain of a bucket by a page with one entry. The page is claimed before any is
/// written. `Full`: no page past the table is free, and nothing has changed.
pub(crate) fn begin_chain<P: Pages>(
    pages: &mut P,
    place: &Place,
    index: &mut [u8],
    bucket: u16,
    key: &[u8],
    body: &[u8],
) -> Result<(), Stop>
    requires place { IsPlace (P.ground pages.old) place.now }
    requires root { IsPast (P.ground pages.old) place.now.root }
    requires index { IsIndexPage index.old }
    requires bucket { bucket < bucket_count index.old }
    requires key { length key.now ≤ MAX_KEY_LEN }
    requires entry { length key.now + length body.now ≤ MAX_ENTRY_LEN }
    ensures begun { IsTrue P.tells → OnOk result
        (IsHungBefore (P.ground pages.old) place.now index.old bucket
        (record { key = key.now; body = body.now } ∷ [])
        (P.working pages.old) (P.working pages.new)) }
    ensures claims { ClaimsOnePage P.PageView (Unit {0}) pages.old pages.new result }
{
    let mut page = [0; PAGE_LEN];
    clear(&mut page);
    add(&mut page, 0, key, body);
    hang_before(pages, place, index, bucket, &mut page)
}

/// Claims a page for these entries, and hangs it before the first page of the chain of a bucket.
/// `Full`: no page past the table is free, and nothing has changed.
pub(crate) fn hang_before<P: Pages>(
    pages: &mut P,
    place: &Place,
    index: &mut [u8],
    bucket: u16,
    page: &mut [u8],
) -> Result<(), Stop>
    requires place { IsPlace (P.ground pages.old) place.now }
    requires root { IsPast (P.ground pages.old) place.now.root }
    requires index { IsIndexPage index.old }
    requires bucket { bucket < bucket_count index.old }
    requires page { IsEntryPage page.old }
    ensures hung { IsTrue P.tells → OnOk result
        (IsHungBefore (P.ground pages.old) place.now index.old bucket (entries_of page.old)
        (P.working pages.old) (P.working pages.new)) }
    ensures written { IsTrue P.tells →
        OnOk result (index.new ≡ bytes_at (P.working pages.new) place.now.root) }
    ensures index { IsIndexPage index.new }
    ensures count { bucket_count index.new ≡ bucket_count index.old }
    ensures separators { separators_of index.new ≡ separators_of index.old }
    ensures page_len { length page.new ≡ PAGE_LEN }
    ensures claims { ClaimsOnePage P.PageView (Unit {0}) pages.old pages.new result }
{
    let fresh = pages.claim(place.owner)?;
    set_next(page, first(index, bucket));
    pages.write(fresh, page)?;
    set_first(index, bucket, fresh);
    pages.write(place.root, index)?;
    Ok(())
}

/// Leaves the first page of a chain out where it has no entry, and makes it free.
pub(crate) fn leave_out_empty<P: Pages>(
    pages: &mut P,
    place: &Place,
    index: &mut [u8],
    bucket: u16,
    first: u32,
) -> Result<(), Stop>
    requires root { IsPast (P.ground pages.old) place.now.root }
    requires first { IsPast (P.ground pages.old) first }
    requires index { IsIndexPage index.old }
    requires bucket { bucket < bucket_count index.old }
    ensures left_out { IsTrue P.tells → OnOk result
        (IsLeftOutIfEmpty (P.ground pages.old) place.now index.old bucket first
        (P.working pages.old) (P.working pages.new)) }
    ensures keeps { KeepsPages P.PageView pages.old pages.new }
    ensures ends { EndsFile P.PageView (IsEntryAt P.PageView pages.old first)
        pages.old pages.new result }
    ensures not_full { ¬ IsErrOf result Stop.Full }
    ensures frugal { ¬ IsErrOf result Stop.NoMemory }
{
    let mut page = [0; PAGE_LEN];
    read_entries(pages, first, &mut page)?;
    if count(&page) > 0 {
        return Ok(());
    }
    leave_out(pages, place, index, bucket, first, next(&page))?;
    Ok(())
}

/// Leaves the first page of a chain out, of which `next` is the next one, and makes it free. After
/// `Failed` the pages are to be opened again.
pub(crate) fn leave_out<P: Pages>(
    pages: &mut P,
    place: &Place,
    index: &mut [u8],
    bucket: u16,
    first: u32,
    next: u32,
) -> Result<(), Failed>
    requires root { IsPast (P.ground pages.old) place.now.root }
    requires first { IsPast (P.ground pages.old) first }
    requires index { IsIndexPage index.old }
    requires bucket { bucket < bucket_count index.old }
    ensures left_out { IsTrue P.tells → OnOk result
        (IsLeftOut (P.ground pages.old) place.now index.old bucket first next
        (P.working pages.old) (P.working pages.new)) }
    ensures written { IsTrue P.tells →
        OnOk result (index.new ≡ bytes_at (P.working pages.new) place.now.root) }
    ensures index { IsIndexPage index.new }
    ensures count { bucket_count index.new ≡ bucket_count index.old }
    ensures firsts { (other : ℕ) → other < bucket_count index.old → other ≢ bucket →
        first_page_of index.new other ≡ first_page_of index.old other }
    ensures keeps { KeepsPages P.PageView pages.old pages.new }
    ensures faults { CountsPageFaults P.PageView pages.old pages.new result }
{
    set_first(index, bucket, next);
    pages.write(place.root, index)?;
    pages.free(first)?;
    Ok(())
}
