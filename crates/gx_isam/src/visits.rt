// The chains of an indexed sequential file are checked.
ghost use Rattle.std.specs.Prelude.{◌≡◌, ◌≢◌, ◌==◌, ◌<◌, [], length, replicate, false, true, IsTrue, OnOk, IsErrOf};
ghost use Rattle.std.specs.List.{list_all};
ghost use Rattle.gx_ports.specs.Files.{EndsFile, IsPlace, IsWhole};
ghost use Rattle.gx_ports.specs.PageCalls.{ReadsPages};
ghost use Rattle.gx_ports.specs.Sheets.{IsPast, bytes_at};
ghost use Rattle.gx_chain.specs.Chain.{entries_at};
ghost use Rattle.gx_isam_index.specs.Index.{IsIndexPage, bucket_count, bucket_of};
ghost use Rattle.gx_isam.specs.Isam.{IsIsam};
ghost use Rattle.gx_isam.specs.Visited.{AreVisitedBuckets, HasEntryAt, HasRootAndSeen, HasUnseenBucket, IsRootAndSeen, IsVisitedBucket};

use crate::read::first_page;
use gx_chain::{Visits, read_entries, visit_chain};
use gx_isam_index::{bucket_of, buckets};
use gx_ports::{PAGE_LEN, Pages, Place, Stop};
use gx_seen::seek_unseen;
use gx_slots::count;
use std::alloc::Global;
use std::collections::BTreeSet;

/// Looks whether the chain of each bucket stands there, with keys of the bucket and an entry on
/// each page. No page was seen before; those of the chains are marked.
pub(crate) fn visit_buckets<P: Pages>(
    alloc: Global,
    pages: &mut P,
    place: &Place,
    index: &[u8],
    visits: &mut Visits,
) -> Result<(), Stop>
    requires place { IsPlace (P.ground pages.old) place.now }
    requires root { IsPast (P.ground pages.old) place.now.root }
    requires index { IsIndexPage index.now }
    requires read { IsTrue P.tells → index.now ≡ bytes_at (P.working pages.old) place.now.root }
    requires none { visits.old.seen.items ≡ replicate (P.ground pages.old).size false }
    ensures visited { IsTrue P.tells → OnOk result
        (AreVisitedBuckets (P.ground pages.old) place.now.owner (P.working pages.old) index.now
        (bucket_count index.now) visits.new.seen.items) }
    ensures seen { length visits.new.seen.items ≡ (P.ground pages.old).size }
    ensures reads { ReadsPages P.PageView pages.old pages.new }
    ensures ends { EndsFile P.PageView
        (IsWhole P.PageView (IsIsam (P.ground pages.old) place.now) pages.old)
        pages.old pages.new result }
    ensures not_full { ¬ IsErrOf result Stop.Full }
{
    for bucket in 0..buckets(index) {
        visit_bucket(alloc, pages, place, index, bucket, visits)?;
    }
    Ok(())
}

// Looks whether the chain of a bucket stands there.
fn visit_bucket<P: Pages>(
    alloc: Global,
    pages: &mut P,
    place: &Place,
    index: &[u8],
    bucket: u16,
    visits: &mut Visits,
) -> Result<(), Stop>
    requires root { IsPast (P.ground pages.old) place.now.root }
    requires index { IsIndexPage index.now }
    requires bucket { bucket < bucket_count index.now }
    requires seen { length visits.old.seen.items ≡ (P.ground pages.old).size }
    ensures visited { IsTrue P.tells → OnOk result
        (IsVisitedBucket (P.ground pages.old) place.now.owner (P.working pages.old) index.now bucket
        visits.old.seen.items visits.new.seen.items) }
    ensures seen { length visits.new.seen.items ≡ (P.ground pages.old).size }
    ensures reads { ReadsPages P.PageView pages.old pages.new }
    ensures ends { EndsFile P.PageView
        (HasUnseenBucket P.PageView pages.old place.now.owner index.now bucket
        visits.old.seen.items)
        pages.old pages.new result }
    ensures not_full { ¬ IsErrOf result Stop.Full }
{
    let Some(first) = first_page(pages, place.root, index, bucket)? else {
        return Ok(());
    };
    visit_chain(alloc, pages, first, place.owner, visits)?;
    if !are_placed(index, bucket, &visits.keys) {
        return Err(Stop::Damaged(pages.block(first)));
    }
    seek_entry(pages, first)
}

// Whether all keys have the bucket.
fn are_placed(index: &[u8], number: u16, keys: &BTreeSet<Vec<u8>>) -> bool
    requires { IsIndexPage index.now }
    ensures { result ≡ list_all (λ key. bucket_of index.now key.items == number) keys.now.keys }
{
    keys.iter().all(|key| bucket_of(index, key) == number)
}

// Looks whether an entry page has an entry.
fn seek_entry<P: Pages>(pages: &mut P, number: u32) -> Result<(), Stop>
    requires number { IsPast (P.ground pages.old) number }
    ensures some { IsTrue P.tells →
        OnOk result (entries_at (P.working pages.old) number ≢ []) }
    ensures reads { ReadsPages P.PageView pages.old pages.new }
    ensures ends { EndsFile P.PageView (HasEntryAt P.PageView pages.old number)
        pages.old pages.new result }
    ensures not_full { ¬ IsErrOf result Stop.Full }
    ensures frugal { ¬ IsErrOf result Stop.NoMemory }
{
    let mut page = [0; PAGE_LEN];
    read_entries(pages, number, &mut page)?;
    if count(&page) == 0 {
        return Err(Stop::Damaged(pages.block(number)));
    }
    Ok(())
}

/// Looks whether the owner has the root, and no other page that wasn't seen. `Damaged`: it is not
/// so, and the block is that of the root or of such a page. The root is marked.
pub(crate) fn seek_others<P: Pages>(
    pages: &mut P,
    place: &Place,
    seen: &mut [bool],
) -> Result<(), Stop>
    requires root { IsPast (P.ground pages.old) place.now.root }
    requires len { length seen.old ≡ (P.ground pages.old).size }
    ensures all { IsTrue P.tells → OnOk result
        (IsRootAndSeen (P.working pages.old) place.now.owner place.now.root seen.old) }
    ensures reads { ReadsPages P.PageView pages.old pages.new }
    ensures ends { EndsFile P.PageView
        (HasRootAndSeen P.PageView pages.old place.now.owner place.now.root seen.old)
        pages.old pages.new result }
    ensures not_full { ¬ IsErrOf result Stop.Full }
    ensures frugal { ¬ IsErrOf result Stop.NoMemory }
{
    if pages.owner(place.root)? != place.owner {
        return Err(Stop::Damaged(pages.block(place.root)));
    }
    seen[place.root as usize] = true;
    seek_unseen(pages, place.owner, seen)
}
