// The entries of a hashed file inside a span.
ghost use Rattle.std.specs.Prelude.{◌<◌, ◌≤◌, IfOk, IsErrOf, MatchOption};
ghost use Rattle.gx_ports.specs.Files.{IsPlace, Holds, EndsFile, IsWhole};
ghost use Rattle.gx_ports.specs.LeafMaps.{LeafMap};
ghost use Rattle.gx_ports.specs.PageCalls.{ReadsPages};
ghost use Rattle.gx_ports.specs.Roots.{roots_of};
ghost use Rattle.gx_hash.specs.Buckets.{IsHashed};
ghost use Rattle.gx_chain.specs.Chains.{AreGathered};
ghost use Rattle.gx_hash.specs.Gathered.{HaveBuckets, IsOnlyBucket};
ghost use Rattle.gx_hash.specs.Hash.{IsHash};

use crate::buckets::{bucket, root, whole_front};
use gx_chain::gather_from;
use gx_ports::{Entry, Pages, Place, Stop};
use gx_values::Span;
use std::alloc::Global;

/// The entries inside the span, one chain after the other. Only the chain in which all of them
/// stand is read, where the span shows which it is.
pub(crate) fn gather_inside<P: Pages>(
    alloc: Global,
    pages: &mut P,
    place: &Place,
    span: &Span,
) -> Result<Vec<Entry>, Stop>
    requires kind { IsHashed place.now.spec.kind }
    requires place { IsPlace (P.ground pages.old) place.now }
    ensures found { (map : LeafMap) →
        Holds P.PageView (IsHash (P.ground pages.old) place.now) pages.old map → IfOk result
        (λ found. AreGathered (P.working pages.old) span.now.lo span.now.hi map found.items) }
    ensures reads { ReadsPages P.PageView pages.old pages.new }
    ensures ends { EndsFile P.PageView
        (IsWhole P.PageView (IsHash (P.ground pages.old) place.now) pages.old)
        pages.old pages.new result }
    ensures not_full { ¬ IsErrOf result Stop.Full }
{
    let (from, end) = buckets_inside(place, span);
    let mut found = Vec::new(alloc);
    for bucket in from..end {
        let first = root(pages, place, bucket);
        gather_from(alloc, pages, first, span, &mut found)?;
    }
    Ok(found)
}

// The buckets of the keys inside the span, from one up to another: the one that all of them have,
// or else all buckets.
fn buckets_inside(place: &Place, span: &Span) -> (u32, u32)
    requires { IsHashed place.now.spec.kind }
    ensures inside { HaveBuckets place.now.spec span.now.lo span.now.hi result.0 result.1 }
    ensures ordered { result.0 ≤ result.1 }
    ensures within { result.1 ≤ roots_of place.now.spec }
{
    let count = place.spec.kind.roots();
    match only_bucket(place, span) {
        Some(bucket) => (bucket, bucket + 1),
        None => (0, count),
    }
}

// The bucket of all keys inside the span, where both of its ends have the same whole front.
fn only_bucket(place: &Place, span: &Span) -> Option<u32>
    requires { IsHashed place.now.spec.kind }
    ensures only { IsOnlyBucket place.now.spec span.now.lo span.now.hi result }
    ensures below { MatchOption result (Unit {0}) (λ b. b < roots_of place.now.spec) }
{
    let lo = whole_front(place.spec.first, span.lo.as_slice())?;
    let hi = whole_front(place.spec.first, span.hi.as_slice())?;
    if lo == hi {
        Some(bucket(place, span.lo.as_slice()))
    } else {
        None
    }
}
