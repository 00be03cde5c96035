// The pairs in the records of pointer arrays.
ghost use Rattle.std.specs.Prelude.{◌≡◌, ◌<◌, ◌++◌, length, map, true, false, IfOk, OnOk};
ghost use Rattle.std.specs.List.Sorted.{IsPermutation, IsSortedBy, IsStrictlySortedBy};
ghost use Rattle.std.specs.Ordering.{is_lt};
ghost use Rattle.gx_values.specs.declared.records.Rec.{Rec as Record};
ghost use Rattle.gx_values.specs.Keys.{IsKeyKind};
ghost use Rattle.gx_values.specs.Values.{value_cmp};
ghost use Rattle.gx_mapping.specs.Rule.{In};
ghost use Rattle.gx_links.specs.Owners.{member_cmp, pair_with, pairs_of};
ghost use Rattle.gx_lists.specs.Arrays.{AreCutOwners, IsCutOwner, AreOfOneOwner};

use crate::arrays::body_of;
use crate::pieces::cut_members;
use gx_gather::Recs;
use gx_links::{MOST_MEMBERS, Owned, Owners, Pairs};
use gx_values::{Kind, NoMemory, Rec, Value, Values, compare};
use std::alloc::{AllocError, Global};
use std::cmp::Ordering;

// The owners with their members that the records have. `None`: some record is that of no owner.
pub fn cut_owners(alloc: Global, kind: Kind, found: &Recs) -> Result<Option<Owners>, NoMemory>
    requires kind { IsKeyKind kind }
    requires some { (r : Record) → In r found.now → 0 < length r.key }
    ensures { IfOk result (AreCutOwners kind found.now) }
{
    let mut owners = Vec::with_capacity(alloc, found.0.len())?;
    for rec in &found.0 {
        let Some(owned) = cut_owner(alloc, kind, rec)? else {
            return Ok(None);
        };
        owners.push(owned)?;
    }
    Ok(Some(Owners(owners)))
}

// The owner with its members that a record has. `None`: the record is that of no owner.
fn cut_owner(alloc: Global, kind: Kind, rec: &Rec) -> Result<Option<Owned>, NoMemory>
    requires kind { IsKeyKind kind }
    requires some { 0 < length rec.now.key }
    ensures { IfOk result (IsCutOwner kind rec.now) }
{
    let mut members = Values(Vec::new(alloc));
    if !cut_members(alloc, kind, body_of(rec), &mut members)? {
        return Ok(None);
    }
    if !are_of_one_owner(&members.0) {
        return Ok(None);
    }
    let owner = rec.key.0[0].copy(alloc)?;
    Ok(Some(Owned { owner, members }))
}

// Whether members can be those of one owner, as its record has them.
fn are_of_one_owner(members: &[Value]) -> bool
    ensures yes { result ≡ true → AreOfOneOwner members.now }
    ensures no { result ≡ false → ¬ AreOfOneOwner members.now }
{
    !members.is_empty() && members.len() <= MOST_MEMBERS && are_ascending(members)
}

fn are_ascending(members: &[Value]) -> bool
    ensures yes { result ≡ true → IsStrictlySortedBy value_cmp members.now }
    ensures no { result ≡ false → ¬ IsStrictlySortedBy value_cmp members.now }
{
    members.is_sorted_by(|a, b| compare(a, b).is_lt())
}

// The pairs of owners with their members, by member.
pub fn pairs_by_member(alloc: Global, owners: Owners) -> Result<Pairs, NoMemory>
    ensures those { IfOk result (IsPermutation (pairs_of owners)) }
    ensures in_order { IfOk result (IsSortedBy (λ a b. is_lt (member_cmp a b))) }
{
    let mut pairs = Pairs(Vec::new(alloc));
    for owned in owners.0 {
        let members = owned.members;
        add_pairs(alloc, &owned.owner, members, &mut pairs)?;
    }
    sort_by_member(&mut pairs.0)?;
    Ok(pairs)
}

// Appends the pairs of one owner.
fn add_pairs(
    alloc: Global,
    owner: &Value,
    members: Values,
    pairs: &mut Pairs,
) -> Result<(), NoMemory>
    ensures { OnOk result (pairs.new ≡ pairs.old ++ map (pair_with owner.now) members) }
{
    for member in members.0 {
        pairs.0.push((member, owner.copy(alloc)?))?;
    }
    Ok(())
}

fn compare_members(a: &(Value, Value), b: &(Value, Value)) -> Ordering
    ensures { result ≡ member_cmp a.now b.now }
{
    compare(&a.0, &b.0)
}

fn sort_by_member(pairs: &mut Vec<(Value, Value)>) -> Result<(), AllocError>
    ensures those { IsPermutation pairs.old.items pairs.new.items }
    ensures in_order { OnOk result (IsSortedBy (λ a b. is_lt (member_cmp a b)) pairs.new.items) }
{
    pairs.sort_by(|a, b| compare_members(a, b))?;
    Ok(())
}

// Whether no member stands twice in pairs by member.
pub fn is_each_once(pairs: &[(Value, Value)]) -> bool
    ensures yes { result ≡ true → IsStrictlySortedBy member_cmp pairs.now }
    ensures no { result ≡ false → ¬ IsStrictlySortedBy member_cmp pairs.now }
{
    pairs.is_sorted_by(|a, b| compare_members(a, b).is_lt())
}
