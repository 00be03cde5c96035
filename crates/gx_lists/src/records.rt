// The records of inverted lists.
ghost use Rattle.std.specs.Prelude.{◌≡◌, ◌<◌, ◌++◌, length, map, IfOk, OnOk};
ghost use Rattle.gx_values.specs.declared.records.Rec.{Rec as Record};
ghost use Rattle.gx_ports.specs.LeafMaps.{Extends};
ghost use Rattle.gx_mapping.specs.Rule.{In};
ghost use Rattle.gx_links.specs.Pairs.{rows_of};
ghost use Rattle.gx_lists.specs.Inverted.{pair_rec, owned_rec, member_in, owner_in, inverted_rows};

use gx_gather::Recs;
use gx_links::Owners;
use gx_mapping::{Part, Parts};
use gx_values::{NoMemory, Rec, Value, Values};
use std::alloc::{AllocError, Global};

// The record of a pair under its owner.
pub fn pair_rec(alloc: Global, owner: &Value, member: &Value) -> Result<Rec, NoMemory>
    ensures { IfOk result (λ rec. rec ≡ pair_rec owner.now member.now) }
{
    let mut key = Vec::with_capacity(alloc, 2)?;
    key.push(owner.copy(alloc)?)?;
    key.push(member.copy(alloc)?)?;
    Ok(Rec {
        key: Values(key),
        fields: Values(Vec::new(alloc)),
    })
}

// The record of a member, with its owner.
pub fn owned_rec(alloc: Global, owner: &Value, member: &Value) -> Result<Rec, NoMemory>
    ensures { IfOk result (λ rec. rec ≡ owned_rec owner.now member.now) }
{
    let mut key = Vec::with_capacity(alloc, 1)?;
    key.push(member.copy(alloc)?)?;
    let mut fields = Vec::with_capacity(alloc, 1)?;
    fields.push(owner.copy(alloc)?)?;
    Ok(Rec {
        key: Values(key),
        fields: Values(fields),
    })
}

// Appends the members of the records of pairs.
pub fn add_members(found: Recs, out: &mut Values) -> Result<(), AllocError>
    requires { (r : Record) → In r found → 1 < length r.key }
    ensures members { OnOk result (out.new ≡ out.old ++ map member_in found) }
    ensures front { Extends out.old out.new }
{
    for rec in found.0 {
        let mut key = rec.key;
        out.0.push(key.0.remove(1))?;
    }
    Ok(())
}

// The owner in the first record of a member, where there is one.
pub fn owner_of(found: Recs) -> Option<Value>
    requires { (r : Record) → In r found → 0 < length r.fields }
    ensures { result ≡ owner_in found }
{
    let mut found = found.0;
    if found.is_empty() {
        return None;
    }
    let mut rec = found.remove(0);
    Some(rec.fields.0.remove(0))
}

// The rows of owners with their members.
pub fn inverted_rows(alloc: Global, owners: &Owners) -> Result<Parts, NoMemory>
    ensures { IfOk result (λ rows. rows ≡ rows_of inverted_rows owners.now) }
{
    let mut rows = Parts(Vec::new(alloc));
    for owned in &owners.0 {
        add_rows(alloc, &owned.owner, &owned.members, &mut rows)?;
    }
    Ok(rows)
}

fn add_rows(
    alloc: Global,
    owner: &Value,
    members: &Values,
    rows: &mut Parts,
) -> Result<(), NoMemory>
    ensures { OnOk result (rows.new ≡ rows.old ++ inverted_rows owner.now members.now) }
{
    for member in &members.0 {
        rows.0.push(Part {
            child: 0,
            rec: pair_rec(alloc, owner, member)?,
        })?;
        rows.0.push(Part {
            child: 1,
            rec: owned_rec(alloc, owner, member)?,
        })?;
    }
    Ok(())
}
