// The calls on a hashed file.
ghost use Rattle.std.specs.Prelude.{◌+◌, ◌≤◌, length};
ghost use Rattle.gx_values.specs.declared.bytes.TheConstants.{MAX_KEY_LEN};
ghost use Rattle.gx_ports.specs.declared.leaves.TheConstants.{MAX_ENTRY_LEN};
ghost use Rattle.gx_ports.specs.FileCalls.{MakesFile, PutsInFile, RemovesFromFile, SelectsInFile, ChecksFile};
ghost use Rattle.gx_ports.specs.Files.{IsPlace};
ghost use Rattle.gx_hash.specs.Buckets.{IsHashed};
ghost use Rattle.gx_hash.specs.Hash.{IsHash};

use crate::buckets::{bucket, root};
use crate::spans::gather_inside;
use crate::visits::visit_buckets;
use gx_chain::{append_sorted, make_first, no_visits, put_in, remove_from};
use gx_device::Failed;
use gx_ports::{Entries, Pages, Place, Stop};
use gx_seen::seek_unseen;
use gx_values::Span;
use std::alloc::Global;

/// Makes an empty hashed file at a place whose roots are free and whose owner has no page. After
/// `Failed` the pages are to be opened again.
pub fn make<P: Pages>(pages: &mut P, place: &Place) -> Result<(), Failed>
    requires kind { IsHashed place.now.spec.kind }
    requires place { IsPlace (P.ground pages.old) place.now }
    ensures { MakesFile P.PageView (IsHash (P.ground pages.old) place.now)
        place.now pages.old pages.new result }
{
    for bucket in 0..place.spec.kind.roots() {
        let first = root(pages, place, bucket);
        make_first(pages, first, place.owner)?;
    }
    Ok(())
}

/// Sets one pair, of a key of at most `MAX_KEY_LEN` bytes, with its body at most `MAX_ENTRY_LEN`.
/// `Full`: no page past the table is free. `Damaged`: no whole file stands there. `Fault`: the
/// pages are to be opened again. After a refusal the pages of this owner may hold anything.
pub fn put<P: Pages>(pages: &mut P, place: &Place, key: &[u8], body: &[u8]) -> Result<(), Stop>
    requires kind { IsHashed place.now.spec.kind }
    requires place { IsPlace (P.ground pages.old) place.now }
    requires key { length key.now ≤ MAX_KEY_LEN }
    requires entry { length key.now + length body.now ≤ MAX_ENTRY_LEN }
    ensures { PutsInFile P.PageView (IsHash (P.ground pages.old) place.now)
        place.now key.now body.now pages.old pages.new result }
{
    let first = root(pages, place, bucket(place, key));
    put_in(pages, first, place.owner, key, body)
}

/// Takes the pair at a key of at most `MAX_KEY_LEN` bytes away; a key that isn't there changes
/// nothing. A page but a root that empties is free. Refusals are those of `put` but for `Full`, and
/// leave what those leave.
pub fn remove<P: Pages>(pages: &mut P, place: &Place, key: &[u8]) -> Result<(), Stop>
    requires kind { IsHashed place.now.spec.kind }
    requires place { IsPlace (P.ground pages.old) place.now }
    requires key { length key.now ≤ MAX_KEY_LEN }
    ensures { RemovesFromFile P.PageView (IsHash (P.ground pages.old) place.now)
        place.now key.now pages.old pages.new result }
{
    let first = root(pages, place, bucket(place, key));
    remove_from(pages, first, place.owner, key)
}

/// Appends the entries inside the span, in ascending order of their keys. One chain is read where
/// both ends of the span have the same whole front, otherwise all are. `Damaged`: no whole file
/// stands there. `Fault`: a page couldn't be read. `NoMemory`: there was none for the entries.
/// After a refusal `out` may hold more than before.
pub fn select<P: Pages>(
    alloc: Global,
    pages: &mut P,
    place: &Place,
    span: &Span,
    out: &mut Entries,
) -> Result<(), Stop>
    requires kind { IsHashed place.now.spec.kind }
    requires place { IsPlace (P.ground pages.old) place.now }
    ensures { SelectsInFile P.PageView (IsHash (P.ground pages.old) place.now)
        span.now out.old out.new pages.old pages.new result }
{
    let mut found = gather_inside(alloc, pages, place, span)?;
    append_sorted(alloc, &mut found, out)?;
    Ok(())
}

/// Looks whether the file is whole. Each page of its chains is read once. `Damaged` has the block
/// of a page that shows that it isn't. `Fault`: a page couldn't be read. `NoMemory`: there was none
/// for a flag for each page and the keys of one chain.
pub fn check<P: Pages>(alloc: Global, pages: &mut P, place: &Place) -> Result<(), Stop>
    requires kind { IsHashed place.now.spec.kind }
    requires place { IsPlace (P.ground pages.old) place.now }
    ensures { ChecksFile P.PageView (IsHash (P.ground pages.old) place.now)
        pages.old pages.new result }
{
    let count = pages.pages();
    let mut visits = no_visits(alloc, count)?;
    visit_buckets(alloc, pages, place, &mut visits)?;
    seek_unseen(pages, place.owner, &visits.seen)
}
