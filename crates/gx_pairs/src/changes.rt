// Connecting a member to an owner, and taking it away.
ghost use Rattle.std.specs.Prelude.{◌≡◌, ◌&&◌, length, IfOk, Option, is_some};
ghost use Rattle.std.specs.FinMap as fin;
ghost use Rattle.gx_values.specs.Values.{Fits};
ghost use Rattle.gx_schema.specs.Lookups.{key_kind};
ghost use Rattle.gx_pairs.specs.Stored.{file_of, IsStoredLink};
ghost use Rattle.gx_pairs.specs.Search.{ReadsLinkedFiles};
ghost use Rattle.gx_pairs.specs.Changes.{refusal_in, connect_refusal, disconnect_refusal, ChangesLink};

use crate::owners::has_owner;
use crate::refused::Refused;
use crate::stored::{StoredLink, has_record};
use gx_links::{Joining, Linkset};
use gx_ports::{Leaves, Stop};
use gx_values::Value;
use std::alloc::Global;

/// Connects a member to an owner, or answers why it doesn't.
///
/// `Full`: the pages may not be enough for the entries of the owner with its new member, besides
/// all that there are. After a stop a part of the change may be made.
pub fn connect_pair<B: Leaves, L: Linkset>(
    alloc: Global,
    stored: &StoredLink<L>,
    owner: &Value,
    member: &Value,
    leaves: &mut B,
) -> Result<Option<Refused>, Stop>
    requires stored { IsStoredLink L.rule L.valid stored.now (length (B.working leaves.old)) }
    requires owner { Fits (key_kind (file_of stored.now.owners)) owner.now }
    requires member { Fits (key_kind (file_of stored.now.members)) member.now }
    ensures { ChangesLink B.View L.rule L.held stored.now leaves.old leaves.new result
        (λ owners members link. connect_refusal owners members link owner.now member.now)
        (λ link. fin.insert link member.now owner.now)
        (λ link. Option.Some owner.now) }
{
    if !has_both(alloc, stored, owner, member, leaves)? {
        return Ok(Some(Refused::NoRecord));
    }
    if has_owner(alloc, &stored.linkset, member, leaves)? {
        return Ok(Some(Refused::HasOwner));
    }
    match stored.linkset.connect(alloc, leaves, owner, member)? {
        Joining::Joined => Ok(None),
        Joining::NoRoom => Ok(Some(Refused::TooManyMembers)),
    }
}

/// Takes a member from its owner, or answers why it doesn't.
///
/// `Full`: the pages may not be enough for the entries of the owner without the member, besides all
/// that there are. After a stop a part of the change may be made.
pub fn disconnect_pair<B: Leaves, L: Linkset>(
    alloc: Global,
    stored: &StoredLink<L>,
    member: &Value,
    leaves: &mut B,
) -> Result<Option<Refused>, Stop>
    requires stored { IsStoredLink L.rule L.valid stored.now (length (B.working leaves.old)) }
    requires member { Fits (key_kind (file_of stored.now.members)) member.now }
    ensures { ChangesLink B.View L.rule L.held stored.now leaves.old leaves.new result
        (λ owners members link. disconnect_refusal members link member.now)
        (λ link. fin.remove link member.now)
        (λ link. fin.get link member.now) }
{
    let owner = match owner_to_leave(alloc, stored, member, leaves)? {
        Ok(owner) => owner,
        Err(why) => return Ok(Some(why)),
    };
    stored
        .linkset
        .disconnect_from(alloc, leaves, &owner, member)?;
    Ok(None)
}

// Whether there are records of the owner and of the member.
fn has_both<B: Leaves, L: Linkset>(
    alloc: Global,
    stored: &StoredLink<L>,
    owner: &Value,
    member: &Value,
    leaves: &mut B,
) -> Result<bool, Stop>
    requires stored { IsStoredLink L.rule L.valid stored.now (length (B.working leaves.old)) }
    requires owner { Fits (key_kind (file_of stored.now.owners)) owner.now }
    requires member { Fits (key_kind (file_of stored.now.members)) member.now }
    ensures { ReadsLinkedFiles B.View L.rule L.held stored.now leaves.old leaves.new result
        (λ owners members link both. both
        ≡ is_some (fin.get owners owner.now) && is_some (fin.get members member.now)) }
{
    if !has_record(alloc, &stored.owners, owner, leaves)? {
        return Ok(false);
    }
    has_record(alloc, &stored.members, member, leaves)
}

// The owner of the member, or why it leaves none.
fn owner_to_leave<B: Leaves, L: Linkset>(
    alloc: Global,
    stored: &StoredLink<L>,
    member: &Value,
    leaves: &mut B,
) -> Result<Result<Value, Refused>, Stop>
    requires stored { IsStoredLink L.rule L.valid stored.now (length (B.working leaves.old)) }
    requires member { Fits (key_kind (file_of stored.now.members)) member.now }
    ensures read { ReadsLinkedFiles B.View L.rule L.held stored.now leaves.old leaves.new result
        (λ owners members link owned.
        (refusal_in owned ≡ disconnect_refusal members link member.now)
        × IfOk owned (λ owner. fin.get link member.now ≡ Option.Some owner)) }
    ensures fits { IfOk result (λ owned. IfOk owned (Fits (L.rule stored.now.linkset).owner)) }
{
    if !has_record(alloc, &stored.members, member, leaves)? {
        return Ok(Err(Refused::NoRecord));
    }
    match stored.linkset.owner(alloc, leaves, member)? {
        Some(owner) => Ok(Ok(owner)),
        None => Ok(Err(Refused::NoOwner)),
    }
}
