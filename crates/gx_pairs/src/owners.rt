// The owner of a member.
ghost use Rattle.std.specs.Prelude.{◌≡◌, length, is_some};
ghost use Rattle.std.specs.FinMap as fin;
ghost use Rattle.gx_values.specs.Values.{Fits};
ghost use Rattle.gx_schema.specs.Lookups.{key_kind};
ghost use Rattle.gx_pairs.specs.Stored.{file_of, IsStoredLinkset, IsStoredLink};
ghost use Rattle.gx_pairs.specs.Search.{ReadsLink};
ghost use Rattle.gx_pairs.specs.Owners.{FindsOwner};

use crate::stored::{StoredLink, has_record};
use gx_gather::NO_BLOCK;
use gx_links::Linkset;
use gx_ports::{Leaves, Stop};
use gx_scan::find_record;
use gx_values::{Rec, Value};
use std::alloc::Global;

/// What the owner of a member is.
#[derive(Drop)]
pub enum Owned {
    /// there is no record of the member
    NoMember,
    /// the member has no owner
    Free,
    /// the record of its owner
    By(Rec),
}

/// The record of the owner of a member, where there is one. Where the linkset finds an owner
/// without reading all of the link, it takes at most `3 * (w + l)` steps for a member with an owner
/// and `2 * (w + l)` for one without, where w is the greatest number of leaf entries of a record or
/// of an owner, and l the number of leaves.
pub fn find_owner<B: Leaves, L: Linkset>(
    alloc: Global,
    stored: &StoredLink<L>,
    member: &Value,
    leaves: &mut B,
) -> Result<Owned, Stop>
    requires stored { IsStoredLink L.rule L.valid stored.now (length (B.working leaves.old)) }
    requires member { Fits (key_kind (file_of stored.now.members)) member.now }
    ensures { FindsOwner B.View L.rule L.held stored.now member.now leaves.old leaves.new result }
{
    if !has_record(alloc, &stored.members, member, leaves)? {
        return Ok(Owned::NoMember);
    }
    let Some(owner) = stored.linkset.owner(alloc, leaves, member)? else {
        return Ok(Owned::Free);
    };
    let owners = &stored.owners;
    match find_record(alloc, owners.file, owners.node, &owner, leaves)? {
        Some(record) => Ok(Owned::By(record)),
        None => Err(Stop::Damaged(NO_BLOCK)),
    }
}

/// Whether a member has an owner.
pub fn has_owner<B: Leaves, L: Linkset>(
    alloc: Global,
    linkset: &L,
    member: &Value,
    leaves: &mut B,
) -> Result<bool, Stop>
    requires stored { IsStoredLinkset L.rule L.valid linkset.now (length (B.working leaves.old)) }
    requires member { Fits (L.rule linkset.now).member member.now }
    ensures { ReadsLink B.View L.rule L.held linkset.now leaves.old leaves.new result
        (λ link has. has ≡ is_some (fin.get link member.now)) }
{
    Ok(linkset.owner(alloc, leaves, member)?.is_some())
}
