// The calls on a file, by the kind of its place.
ghost use Rattle.std.specs.Prelude.{◌+◌, ◌≤◌, length, IsTrue, OnOk};
ghost use Rattle.gx_values.specs.declared.bytes.TheConstants.{MAX_KEY_LEN};
ghost use Rattle.gx_ports.specs.declared.leaves.TheConstants.{MAX_ENTRY_LEN};
ghost use Rattle.gx_ports.specs.FileCalls.{MakesFile, PutsInFile, RemovesFromFile, SelectsInFile, ChecksFile};
ghost use Rattle.gx_ports.specs.Files.{IsPlace, Holds, EndsFile, SparesOthers, IsFull, IsWhole};
ghost use Rattle.gx_ports.specs.LeafMaps.{LeafMap};
ghost use Rattle.gx_ports.specs.PageCalls.{KeepsPages};
ghost use Rattle.gx_leaves.specs.Kinds.{is_built, IsFileAt, IsFreshOf};

use gx_bplus as bplus;
use gx_device::Failed;
use gx_hash as hash;
use gx_heap as heap;
use gx_isam as isam;
use gx_ports::{Entries, LeafKind, Pages, Place, Stop};
use gx_values::Span;
use std::alloc::Global;

/// Makes an empty file at a place whose roots are free and whose owner has no page. After `Failed`
/// the pages are to be opened again.
pub fn make_file<P: Pages>(pages: &mut P, place: &Place) -> Result<(), Failed>
    requires built { IsTrue (is_built place.now.spec.kind) }
    requires place { IsPlace (P.ground pages.old) place.now }
    ensures { MakesFile P.PageView (IsFileAt (P.ground pages.old) place.now)
        place.now pages.old pages.new result }
{
    match place.spec.kind {
        LeafKind::Heap => heap::make(pages, place),
        LeafKind::Hash(_) => hash::make(pages, place),
        LeafKind::Isam => isam::make(pages, place),
        LeafKind::Bplus => bplus::make(pages, place),
    }
}

/// Sets one pair. `Full`: no page is free; the pages of this owner may then hold anything.
pub fn put_in_file<P: Pages>(
    pages: &mut P,
    place: &Place,
    key: &[u8],
    body: &[u8],
) -> Result<(), Stop>
    requires built { IsTrue (is_built place.now.spec.kind) }
    requires place { IsPlace (P.ground pages.old) place.now }
    requires key { length key.now ≤ MAX_KEY_LEN }
    requires entry { length key.now + length body.now ≤ MAX_ENTRY_LEN }
    ensures { PutsInFile P.PageView (IsFileAt (P.ground pages.old) place.now)
        place.now key.now body.now pages.old pages.new result }
{
    match place.spec.kind {
        LeafKind::Heap => heap::put(pages, place, key, body),
        LeafKind::Hash(_) => hash::put(pages, place, key, body),
        LeafKind::Isam => isam::put(pages, place, key, body),
        LeafKind::Bplus => bplus::put(pages, place, key, body),
    }
}

/// Takes the pair at a key away; a key that isn't there changes nothing.
pub fn remove_from_file<P: Pages>(pages: &mut P, place: &Place, key: &[u8]) -> Result<(), Stop>
    requires built { IsTrue (is_built place.now.spec.kind) }
    requires place { IsPlace (P.ground pages.old) place.now }
    requires key { length key.now ≤ MAX_KEY_LEN }
    ensures { RemovesFromFile P.PageView (IsFileAt (P.ground pages.old) place.now)
        place.now key.now pages.old pages.new result }
{
    match place.spec.kind {
        LeafKind::Heap => heap::remove(pages, place, key),
        LeafKind::Hash(_) => hash::remove(pages, place, key),
        LeafKind::Isam => isam::remove(pages, place, key),
        LeafKind::Bplus => bplus::remove(pages, place, key),
    }
}

/// Appends the entries inside the span, in ascending order of their keys.
pub fn select_in_file<P: Pages>(
    alloc: Global,
    pages: &mut P,
    place: &Place,
    span: &Span,
    out: &mut Entries,
) -> Result<(), Stop>
    requires built { IsTrue (is_built place.now.spec.kind) }
    requires place { IsPlace (P.ground pages.old) place.now }
    ensures { SelectsInFile P.PageView (IsFileAt (P.ground pages.old) place.now)
        span.now out.old out.new pages.old pages.new result }
{
    match place.spec.kind {
        LeafKind::Heap => heap::select(alloc, pages, place, span, out),
        LeafKind::Hash(_) => hash::select(alloc, pages, place, span, out),
        LeafKind::Isam => isam::select(alloc, pages, place, span, out),
        LeafKind::Bplus => bplus::select(alloc, pages, place, span, out),
    }
}

/// Lays the entries of an indexed sequential file out anew. A file of another kind stays as it is.
pub fn reorganize_file<P: Pages>(alloc: Global, pages: &mut P, place: &Place) -> Result<(), Stop>
    requires built { IsTrue (is_built place.now.spec.kind) }
    requires place { IsPlace (P.ground pages.old) place.now }
    ensures ok { (map : LeafMap) →
        Holds P.PageView (IsFileAt (P.ground pages.old) place.now) pages.old map → OnOk result
        (IsFileAt (P.ground pages.old) place.now (P.working pages.new) map) }
    ensures fresh { (map : LeafMap) →
        Holds P.PageView (IsFileAt (P.ground pages.old) place.now) pages.old map → OnOk result
        (IsFreshOf place.now.spec.kind place.now (P.working pages.new) map) }
    ensures others { SparesOthers P.PageView (IsFileAt (P.ground pages.old) place.now)
        place.now.owner pages.old pages.new result }
    ensures full { IsFull P.PageView (IsFileAt (P.ground pages.old) place.now)
        place.now pages.old pages.new result }
    ensures keeps { KeepsPages P.PageView pages.old pages.new }
    ensures ends { EndsFile P.PageView
        (IsWhole P.PageView (IsFileAt (P.ground pages.old) place.now) pages.old)
        pages.old pages.new result }
{
    match place.spec.kind {
        // heaps and chains are in no order, and a tree in its order, as ever
        LeafKind::Heap | LeafKind::Hash(_) | LeafKind::Bplus => Ok(()),
        LeafKind::Isam => isam::reorganize(alloc, pages, place),
    }
}

/// Examines a file. `Damaged`: it isn't whole, and the block is that of a page that shows it.
pub fn check_file<P: Pages>(alloc: Global, pages: &mut P, place: &Place) -> Result<(), Stop>
    requires built { IsTrue (is_built place.now.spec.kind) }
    requires place { IsPlace (P.ground pages.old) place.now }
    ensures { ChecksFile P.PageView (IsFileAt (P.ground pages.old) place.now)
        pages.old pages.new result }
{
    match place.spec.kind {
        LeafKind::Heap => heap::check(alloc, pages, place),
        LeafKind::Hash(_) => hash::check(alloc, pages, place),
        LeafKind::Isam => isam::check(alloc, pages, place),
        LeafKind::Bplus => bplus::check(alloc, pages, place),
    }
}
