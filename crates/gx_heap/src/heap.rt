// The calls on a heap.
ghost use Rattle.std.specs.Prelude.{◌≡◌, ◌+◌, ◌≤◌, length};
ghost use Rattle.gx_ports.specs.declared.kinds.LeafKind.TheVariants as kinds;
ghost use Rattle.gx_values.specs.declared.bytes.TheConstants.{MAX_KEY_LEN};
ghost use Rattle.gx_ports.specs.declared.leaves.TheConstants.{MAX_ENTRY_LEN};
ghost use Rattle.gx_ports.specs.FileCalls.{MakesFile, PutsInFile, RemovesFromFile, SelectsInFile, ChecksFile};
ghost use Rattle.gx_ports.specs.Files.{IsPlace};
ghost use Rattle.gx_heap.specs.Heap.{IsHeap};

use gx_chain::{check_chain, collect, make_first, put_in, remove_from};
use gx_device::Failed;
use gx_ports::{Entries, Pages, Place, Stop};
use gx_values::Span;
use std::alloc::Global;

/// Makes an empty heap at a place whose root is free and whose owner has no page. After `Failed`
/// the pages are to be opened again.
pub fn make<P: Pages>(pages: &mut P, place: &Place) -> Result<(), Failed>
    requires kind { place.now.spec.kind ≡ kinds.Heap }
    requires place { IsPlace (P.ground pages.old) place.now }
    ensures { MakesFile P.PageView (IsHeap (P.ground pages.old) place.now)
        place.now pages.old pages.new result }
{
    make_first(pages, place.root, place.owner)
}

/// Sets one pair, of a key of at most `MAX_KEY_LEN` bytes, with its body at most `MAX_ENTRY_LEN`.
/// After a refusal the pages of this owner may hold anything. After `Fault` the pages are to be
/// opened again.
pub fn put<P: Pages>(pages: &mut P, place: &Place, key: &[u8], body: &[u8]) -> Result<(), Stop>
    requires kind { place.now.spec.kind ≡ kinds.Heap }
    requires place { IsPlace (P.ground pages.old) place.now }
    requires key { length key.now ≤ MAX_KEY_LEN }
    requires entry { length key.now + length body.now ≤ MAX_ENTRY_LEN }
    ensures { PutsInFile P.PageView (IsHeap (P.ground pages.old) place.now)
        place.now key.now body.now pages.old pages.new result }
{
    put_in(pages, place.root, place.owner, key, body)
}

/// Takes the pair at a key of at most `MAX_KEY_LEN` bytes away; a key that isn't there changes
/// nothing. Refusals leave what those of `put` leave.
pub fn remove<P: Pages>(pages: &mut P, place: &Place, key: &[u8]) -> Result<(), Stop>
    requires kind { place.now.spec.kind ≡ kinds.Heap }
    requires place { IsPlace (P.ground pages.old) place.now }
    requires key { length key.now ≤ MAX_KEY_LEN }
    ensures { RemovesFromFile P.PageView (IsHeap (P.ground pages.old) place.now)
        place.now key.now pages.old pages.new result }
{
    remove_from(pages, place.root, place.owner, key)
}

/// Appends the entries inside the span, in ascending order of their keys. After a refusal `out` may
/// hold more than before.
pub fn select<P: Pages>(
    alloc: Global,
    pages: &mut P,
    place: &Place,
    span: &Span,
    out: &mut Entries,
) -> Result<(), Stop>
    requires kind { place.now.spec.kind ≡ kinds.Heap }
    requires place { IsPlace (P.ground pages.old) place.now }
    ensures { SelectsInFile P.PageView (IsHeap (P.ground pages.old) place.now)
        span.now out.old out.new pages.old pages.new result }
{
    collect(alloc, pages, place.root, span, out)
}

/// Looks whether the heap is whole. `Damaged` has the block of a page that shows that it isn't.
pub fn check<P: Pages>(alloc: Global, pages: &mut P, place: &Place) -> Result<(), Stop>
    requires kind { place.now.spec.kind ≡ kinds.Heap }
    requires place { IsPlace (P.ground pages.old) place.now }
    ensures { ChecksFile P.PageView (IsHeap (P.ground pages.old) place.now)
        pages.old pages.new result }
{
    check_chain(alloc, pages, place.root, place.owner)
}
