// The pairs of a link by owners.
ghost use Rattle.std.specs.Prelude.{◌≡◌, ◌<◌, ◌≤◌, length, true, false, IfOk, OnOk};
ghost use Rattle.std.specs.List.Sorted.{IsPermutation, IsSortedBy};
ghost use Rattle.std.specs.FinMap.{entries};
ghost use Rattle.std.specs.Ordering.{is_lt};
ghost use Rattle.gx_mapping.specs.Rule.{In};
ghost use Rattle.gx_links.specs.declared.pairs.Owned.{Owned as Group};
ghost use Rattle.gx_links.specs.Links.{Link, most_members};
ghost use Rattle.gx_links.specs.Owners.{owner_cmp, pairs_of, is_last, with_pair, AreOwners, IsGroupOf};

use crate::pairs::{Owned, Owners, Pairs};
use gx_schema::MOST_MEMBERS;
use gx_values::{NoMemory, Value, compare};
use std::alloc::{AllocError, Global};
use std::cmp::Ordering;

/// The owners in the pairs of a link, in ascending order, each with its members. They have just
/// these pairs, also where those are of no link. `NoMemory`: there was none for them.
pub fn owners_of(alloc: Global, pairs: &Pairs) -> Result<Owners, NoMemory>
    ensures owners { IfOk result
        (λ owners. (link : Link) → entries link ≡ pairs.now → AreOwners link owners) }
    ensures pairs { IfOk result (λ owners. (g : Group) → In g owners → IsGroupOf pairs.now g) }
    ensures all { IfOk result (λ owners. IsPermutation pairs.now (pairs_of owners)) }
{
    let mut sorted = pairs.copy(alloc)?;
    sort_by_owner(&mut sorted.0)?;
    let mut owners = Vec::new(alloc);
    for pair in sorted.0 {
        add_pair(alloc, pair.0, pair.1, &mut owners)?;
    }
    Ok(Owners(owners))
}

// By owner, and then by member.
fn compare_pairs(a: &(Value, Value), b: &(Value, Value)) -> Ordering
    ensures { result ≡ owner_cmp a.now b.now }
{
    compare(&a.1, &b.1).then(compare(&a.0, &b.0))
}

fn sort_by_owner(pairs: &mut Vec<(Value, Value)>) -> Result<(), AllocError>
    ensures those { IsPermutation pairs.old.items pairs.new.items }
    ensures in_order { OnOk result (IsSortedBy (λ a b. is_lt (owner_cmp a b)) pairs.new.items) }
{
    pairs.sort_by(|a, b| compare_pairs(a, b))?;
    Ok(())
}

// A pair more, whose owner is the last one or comes behind it.
fn add_pair(
    alloc: Global,
    member: Value,
    owner: Value,
    owners: &mut Vec<Owned>,
) -> Result<(), AllocError>
    ensures { OnOk result (owners.new.items ≡ with_pair owners.old.items (member, owner)) }
{
    if is_last_owner(owners, &owner) {
        let last = owners.len() - 1;
        return owners[last].add(member);
    }
    owners.push(Owned::with_one(alloc, member, owner)?)?;
    Ok(())
}

fn is_last_owner(owners: &[Owned], owner: &Value) -> bool
    ensures { result ≡ is_last owners.now owner.now }
{
    match owners.last() {
        Some(last) => compare(&last.owner, owner).is_eq(),
        None => false,
    }
}

// Whether no owner has too many members.
pub fn are_few(owners: &Owners) -> bool
    ensures yes { result ≡ true → (g : Group) → In g owners.now →
        length g.members ≤ most_members }
    ensures no { result ≡ false → (g : Group) × In g owners.now ×
        (most_members < length g.members) }
{
    for owned in &owners.0 {
        if owned.members.0.len() > MOST_MEMBERS {
            return false;
        }
    }
    true
}
