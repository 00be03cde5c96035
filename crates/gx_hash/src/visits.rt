// The chains of a hashed file are checked.
ghost use Rattle.std.specs.Prelude.{◌≡◌, ◌==◌, ◌<◌, length, replicate, false, IsTrue, OnOk, IsErrOf};
ghost use Rattle.std.specs.List.{list_all};
ghost use Rattle.gx_ports.specs.Files.{IsPlace, EndsFile, IsWhole};
ghost use Rattle.gx_ports.specs.PageCalls.{ReadsPages};
ghost use Rattle.gx_ports.specs.Roots.{roots_of};
ghost use Rattle.gx_hash.specs.Buckets.{IsHashed, hash_bucket};
ghost use Rattle.gx_hash.specs.Hash.{IsHash};
ghost use Rattle.gx_hash.specs.Visited.{AreVisitedBuckets, HasUnseenBucket, IsVisitedBucket};

use crate::buckets::{bucket, root};
use gx_chain::{Visits, visit_chain};
use gx_ports::{Pages, Place, Stop};
use std::alloc::Global;
use std::collections::BTreeSet;

/// Looks whether a chain begins at each root, on which the entries of its bucket stand. No page was
/// seen before; those of the chains are marked.
pub(crate) fn visit_buckets<P: Pages>(
    alloc: Global,
    pages: &mut P,
    place: &Place,
    visits: &mut Visits,
) -> Result<(), Stop>
    requires kind { IsHashed place.now.spec.kind }
    requires place { IsPlace (P.ground pages.old) place.now }
    requires none { visits.old.seen.items ≡ replicate (P.ground pages.old).size false }
    ensures visited { IsTrue P.tells → OnOk result
        (AreVisitedBuckets (P.ground pages.old) place.now (P.working pages.old)
        (roots_of place.now.spec) visits.new.seen.items) }
    ensures seen { length visits.new.seen.items ≡ (P.ground pages.old).size }
    ensures reads { ReadsPages P.PageView pages.old pages.new }
    ensures ends { EndsFile P.PageView
        (IsWhole P.PageView (IsHash (P.ground pages.old) place.now) pages.old)
        pages.old pages.new result }
    ensures not_full { ¬ IsErrOf result Stop.Full }
{
    for bucket in 0..place.spec.kind.roots() {
        visit_bucket(alloc, pages, place, bucket, visits)?;
    }
    Ok(())
}

// Looks whether a chain begins at a root, on which the entries of its bucket stand.
fn visit_bucket<P: Pages>(
    alloc: Global,
    pages: &mut P,
    place: &Place,
    bucket: u32,
    visits: &mut Visits,
) -> Result<(), Stop>
    requires kind { IsHashed place.now.spec.kind }
    requires place { IsPlace (P.ground pages.old) place.now }
    requires bucket { bucket < roots_of place.now.spec }
    requires seen { length visits.old.seen.items ≡ (P.ground pages.old).size }
    ensures visited { IsTrue P.tells → OnOk result
        (IsVisitedBucket (P.ground pages.old) place.now (P.working pages.old) bucket
        visits.old.seen.items visits.new.seen.items) }
    ensures seen { length visits.new.seen.items ≡ (P.ground pages.old).size }
    ensures reads { ReadsPages P.PageView pages.old pages.new }
    ensures ends { EndsFile P.PageView
        (HasUnseenBucket P.PageView pages.old place.now bucket visits.old.seen.items)
        pages.old pages.new result }
    ensures not_full { ¬ IsErrOf result Stop.Full }
{
    let first = root(pages, place, bucket);
    visit_chain(alloc, pages, first, place.owner, visits)?;
    if !are_placed(place, bucket, &visits.keys) {
        return Err(Stop::Damaged(pages.block(first)));
    }
    Ok(())
}

// Whether all keys have the bucket.
fn are_placed(place: &Place, number: u32, keys: &BTreeSet<Vec<u8>>) -> bool
    requires { IsHashed place.now.spec.kind }
    ensures { result ≡ list_all (λ key. hash_bucket place.now.spec key.items
        == number) keys.now.keys }
{
    keys.iter().all(|key| bucket(place, key) == number)
}
