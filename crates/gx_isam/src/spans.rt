// The entries of an indexed sequential file inside a span.
ghost use Rattle.std.specs.Prelude.{◌≡◌, ◌++◌, ◌<◌, ℕ, List, IsTrue, OnOk, IfOk, IsErrOf};
ghost use Rattle.gx_ports.specs.declared.kinds.LeafKind.TheVariants.{Isam};
ghost use Rattle.gx_ports.specs.Files.{IsPlace, Holds, EndsFile, IsWhole};
ghost use Rattle.gx_ports.specs.LeafMaps.{LeafMap};
ghost use Rattle.gx_ports.specs.PageCalls.{ReadsPages};
ghost use Rattle.gx_ports.specs.Sheets.{IsPast};
ghost use Rattle.gx_chain.specs.Chain.{IsChain, HasChain};
ghost use Rattle.gx_chain.specs.Collect.{inside_on};
ghost use Rattle.gx_chain.specs.Chains.{AreGathered};
ghost use Rattle.gx_isam_index.specs.Index.{IsIndexPage, bucket_count, first_page_of};
ghost use Rattle.gx_isam.specs.Isam.{IsIsam};

use crate::read::{first_page, read_index};
use gx_chain::gather_from;
use gx_isam_index::{bucket_of, last_bucket};
use gx_ports::{Entry, PAGE_LEN, Pages, Place, Stop};
use gx_values::Span;
use std::alloc::Global;

/// The entries inside the span, one chain after the other. Only those chains are read whose buckets
/// have keys inside it.
pub(crate) fn gather_inside<P: Pages>(
    alloc: Global,
    pages: &mut P,
    place: &Place,
    span: &Span,
) -> Result<Vec<Entry>, Stop>
    requires kind { place.now.spec.kind ≡ Isam }
    requires place { IsPlace (P.ground pages.old) place.now }
    ensures found { (map : LeafMap) →
        Holds P.PageView (IsIsam (P.ground pages.old) place.now) pages.old map → IfOk result
        (λ found. AreGathered (P.working pages.old) span.now.lo span.now.hi map found.items) }
    ensures reads { ReadsPages P.PageView pages.old pages.new }
    ensures ends { EndsFile P.PageView
        (IsWhole P.PageView (IsIsam (P.ground pages.old) place.now) pages.old)
        pages.old pages.new result }
    ensures not_full { ¬ IsErrOf result Stop.Full }
{
    let mut index = [0; PAGE_LEN];
    read_index(pages, place.root, &mut index)?;
    let mut found = Vec::new(alloc);
    let from = bucket_of(&index, span.lo.as_slice());
    let last = last_bucket(&index, span.hi.as_slice());
    for bucket in from..last + 1 {
        gather_bucket(alloc, pages, place.root, &index, bucket, span, &mut found)?;
    }
    Ok(found)
}

// Copies the entries inside the span on the chain of a bucket behind those found before.
fn gather_bucket<P: Pages>(
    alloc: Global,
    pages: &mut P,
    root: u32,
    index: &[u8],
    bucket: u16,
    span: &Span,
    found: &mut Vec<Entry>,
) -> Result<(), Stop>
    requires root { IsPast (P.ground pages.old) root }
    requires index { IsIndexPage index.now }
    requires bucket { bucket < bucket_count index.now }
    ensures found { IsTrue P.tells → (owner : ℕ) (all : List ℕ) →
        IsChain (P.ground pages.old) owner (P.working pages.old)
        (first_page_of index.now bucket) all →
        OnOk result (found.new.items ≡ found.old.items
        ++ inside_on (P.working pages.old) span.now.lo span.now.hi all) }
    ensures reads { ReadsPages P.PageView pages.old pages.new }
    ensures ends { EndsFile P.PageView
        (HasChain P.PageView pages.old (first_page_of index.now bucket))
        pages.old pages.new result }
    ensures not_full { ¬ IsErrOf result Stop.Full }
{
    match first_page(pages, root, index, bucket)? {
        None => Ok(()),
        Some(first) => gather_from(alloc, pages, first, span, found),
    }
}
