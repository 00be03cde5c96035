// The calls on an indexed sequential file.
ghost use Rattle.std.specs.FinMap.{empty};
ghost use Rattle.std.specs.Prelude.{◌≡◌, ◌+◌, ◌≤◌, [], length, IfOk, OnOk, IsErrOf, IsTrue};
ghost use Rattle.gx_values.specs.declared.bytes.TheConstants.{MAX_KEY_LEN};
ghost use Rattle.gx_ports.specs.declared.leaves.TheConstants.{MAX_ENTRY_LEN};
ghost use Rattle.gx_ports.specs.declared.kinds.LeafKind.TheVariants.{Isam};
ghost use Rattle.gx_ports.specs.FileCalls.{MakesFile, PutsInFile, RemovesFromFile, SelectsInFile, ChecksFile};
ghost use Rattle.gx_ports.specs.Files.{IsPlace, IsVacant, Holds, EndsFile, SparesOthers, IsFull, IsWhole};
ghost use Rattle.gx_ports.specs.LeafMaps.{LeafMap, selected};
ghost use Rattle.gx_ports.specs.PageCalls.{KeepsPages, ReadsPages};
ghost use Rattle.gx_isam.specs.Fresh.{IsFresh};
ghost use Rattle.gx_isam.specs.Isam.{IsIsam};
ghost use Rattle.gx_isam_index.specs.Layout.{AreOrdered};

use crate::change::{begin_chain, leave_out_empty};
use crate::read::{first_page, read_index};
use crate::rebuild::{fill_chains, free_chains};
use crate::spans::gather_inside;
use crate::visits::{seek_others, visit_buckets};
use gx_chain::{append_sorted, no_visits, put_in, remove_from};
use gx_device::Failed;
use gx_isam_index::{are_ordered, bucket_of, clear_index, write_index};
use gx_ports::{Entries, PAGE_LEN, Pages, Place, Stop};
use gx_values::{KeyBuf, Span};
use std::alloc::Global;

/// Makes an empty indexed sequential file at a place whose root is free and whose owner has no
/// page: an index of one bucket, which has no page. After `Failed` the pages are to be opened
/// again.
pub fn make<P: Pages>(pages: &mut P, place: &Place) -> Result<(), Failed>
    requires kind { place.now.spec.kind ≡ Isam }
    requires place { IsPlace (P.ground pages.old) place.now }
    ensures made { MakesFile P.PageView (IsIsam (P.ground pages.old) place.now)
        place.now pages.old pages.new result }
    ensures fresh { IsTrue P.tells → IsVacant place.now (P.working pages.old) →
        OnOk result (IsFresh place.now (P.working pages.new) empty) }
{
    pages.claim_at(place.root, place.owner)?;
    let mut index = [0; PAGE_LEN];
    clear_index(&mut index);
    pages.write(place.root, &index)?;
    Ok(())
}

/// Sets one pair, of a key of at most `MAX_KEY_LEN` bytes, with its body at most `MAX_ENTRY_LEN`.
/// `Full`: no page past the table is free. `Damaged`: no whole file stands there. `Fault`: the
/// pages are to be opened again. After a refusal the pages of this owner may hold anything.
pub fn put<P: Pages>(pages: &mut P, place: &Place, key: &[u8], body: &[u8]) -> Result<(), Stop>
    requires kind { place.now.spec.kind ≡ Isam }
    requires place { IsPlace (P.ground pages.old) place.now }
    requires key { length key.now ≤ MAX_KEY_LEN }
    requires entry { length key.now + length body.now ≤ MAX_ENTRY_LEN }
    ensures { PutsInFile P.PageView (IsIsam (P.ground pages.old) place.now)
        place.now key.now body.now pages.old pages.new result }
{
    let mut index = [0; PAGE_LEN];
    read_index(pages, place.root, &mut index)?;
    let bucket = bucket_of(&index, key);
    match first_page(pages, place.root, &index, bucket)? {
        None => begin_chain(pages, place, &mut index, bucket, key, body),
        Some(first) => {
            put_in(pages, first, place.owner, key, body)?;
            leave_out_empty(pages, place, &mut index, bucket, first)
        }
    }
}

/// Takes the pair at a key of at most `MAX_KEY_LEN` bytes away; a key that isn't there changes
/// nothing. An entry page that empties is free. Refusals are those of `put` but for `Full`, and
/// leave what those leave.
pub fn remove<P: Pages>(pages: &mut P, place: &Place, key: &[u8]) -> Result<(), Stop>
    requires kind { place.now.spec.kind ≡ Isam }
    requires place { IsPlace (P.ground pages.old) place.now }
    requires key { length key.now ≤ MAX_KEY_LEN }
    ensures { RemovesFromFile P.PageView (IsIsam (P.ground pages.old) place.now)
        place.now key.now pages.old pages.new result }
{
    let mut index = [0; PAGE_LEN];
    read_index(pages, place.root, &mut index)?;
    let bucket = bucket_of(&index, key);
    match first_page(pages, place.root, &index, bucket)? {
        None => Ok(()),
        Some(first) => {
            remove_from(pages, first, place.owner, key)?;
            leave_out_empty(pages, place, &mut index, bucket, first)
        }
    }
}

/// Appends the entries inside the span, in ascending order of their keys. The chains of the buckets
/// that have keys inside it are read.
/// `Damaged`: no whole file stands there. `Fault`: a page couldn't be read. `NoMemory`: there was
/// none for the entries. After a refusal `out` may hold more than before.
pub fn select<P: Pages>(
    alloc: Global,
    pages: &mut P,
    place: &Place,
    span: &Span,
    out: &mut Entries,
) -> Result<(), Stop>
    requires kind { place.now.spec.kind ≡ Isam }
    requires place { IsPlace (P.ground pages.old) place.now }
    ensures { SelectsInFile P.PageView (IsIsam (P.ground pages.old) place.now)
        span.now out.old out.new pages.old pages.new result }
{
    let mut found = gather_inside(alloc, pages, place, span)?;
    append_sorted(alloc, &mut found, out)?;
    Ok(())
}

/// Lays the file out anew: its entries are dealt out evenly to as many buckets as `IsFresh` says,
/// in the order of their keys. They are read first, so that `NoMemory` leaves the pages as they
/// were. `Full`: no page past the table is free; a part of the entries may be lost. `Damaged`: no
/// whole file stands there. `Fault`: the pages are to be opened again. After a refusal but
/// `NoMemory` the pages of this owner may hold anything.
pub fn reorganize<P: Pages>(alloc: Global, pages: &mut P, place: &Place) -> Result<(), Stop>
    requires kind { place.now.spec.kind ≡ Isam }
    requires place { IsPlace (P.ground pages.old) place.now }
    ensures ok { (map : LeafMap) →
        Holds P.PageView (IsIsam (P.ground pages.old) place.now) pages.old map →
        OnOk result (IsIsam (P.ground pages.old) place.now (P.working pages.new) map) }
    ensures fresh { (map : LeafMap) →
        Holds P.PageView (IsIsam (P.ground pages.old) place.now) pages.old map →
        OnOk result (IsFresh place.now (P.working pages.new) map) }
    ensures unchanged { IsErrOf result Stop.NoMemory →
        P.working pages.new ≡ P.working pages.old }
    ensures others { SparesOthers P.PageView (IsIsam (P.ground pages.old) place.now)
        place.now.owner pages.old pages.new result }
    ensures full { IsFull P.PageView (IsIsam (P.ground pages.old) place.now)
        place.now pages.old pages.new result }
    ensures keeps { KeepsPages P.PageView pages.old pages.new }
    ensures ends { EndsFile P.PageView
        (IsWhole P.PageView (IsIsam (P.ground pages.old) place.now) pages.old)
        pages.old pages.new result }
{
    let entries = gather_all(alloc, pages, place)?;
    free_chains(pages, place)?;
    let mut index = [0; PAGE_LEN];
    write_index(&mut index, &entries);
    pages.write(place.root, &index)?;
    fill_chains(pages, place, &mut index, &entries)
}

// All entries of the file. `Damaged`: no whole file stands there.
fn gather_all<P: Pages>(alloc: Global, pages: &mut P, place: &Place) -> Result<Entries, Stop>
    requires kind { place.now.spec.kind ≡ Isam }
    requires place { IsPlace (P.ground pages.old) place.now }
    ensures all { (map : LeafMap) →
        Holds P.PageView (IsIsam (P.ground pages.old) place.now) pages.old map →
        IfOk result (λ entries. entries ≡ selected [] [] map) }
    ensures ordered { IfOk result AreOrdered }
    ensures reads { ReadsPages P.PageView pages.old pages.new }
    ensures ends { EndsFile P.PageView
        (IsWhole P.PageView (IsIsam (P.ground pages.old) place.now) pages.old)
        pages.old pages.new result }
    ensures not_full { ¬ IsErrOf result Stop.Full }
{
    let all = Span {
        lo: KeyBuf::from_slice(&[]),
        hi: KeyBuf::from_slice(&[]),
    };
    let mut entries = Entries::new(alloc);
    select(alloc, pages, place, &all, &mut entries)?;
    if !are_ordered(&entries) {
        return Err(Stop::Damaged(pages.block(place.root)));
    }
    Ok(entries)
}

/// Looks whether the file is whole. Each page of its chains is read once, and the first one of a
/// chain twice. `Damaged` has the block of a page that shows that it isn't. `Fault`: a page
/// couldn't be read. `NoMemory`: there was none for a flag for each page and the keys of one chain.
pub fn check<P: Pages>(alloc: Global, pages: &mut P, place: &Place) -> Result<(), Stop>
    requires kind { place.now.spec.kind ≡ Isam }
    requires place { IsPlace (P.ground pages.old) place.now }
    ensures { ChecksFile P.PageView (IsIsam (P.ground pages.old) place.now)
        pages.old pages.new result }
{
    let mut index = [0; PAGE_LEN];
    read_index(pages, place.root, &mut index)?;
    let count = pages.pages();
    let mut visits = no_visits(alloc, count)?;
    visit_buckets(alloc, pages, place, &index, &mut visits)?;
    seek_others(pages, place, &mut visits.seen)
}
