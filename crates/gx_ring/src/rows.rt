// The rows of rings.
ghost use Rattle.std.specs.Prelude.{◌≡◌, ◌<◌, ◌++◌, map, IfOk, OnOk};
ghost use Rattle.gx_values.specs.declared.values.Value.{Value as FieldValue};
ghost use Rattle.gx_mapping.specs.Rule.{In};
ghost use Rattle.gx_gather.specs.Gather.{part_for};
ghost use Rattle.gx_links.specs.declared.pairs.Owned.{Owned as Group};
ghost use Rattle.gx_links.specs.Pairs.{rows_of};
ghost use Rattle.gx_ring.specs.Ring.{chain, ring_rows};
ghost use Rattle.gx_ring.specs.Records.{IsKeyValue};

use crate::records::{chain_rec, head_rec};
use gx_links::Owners;
use gx_mapping::{Part, Parts};
use gx_values::{NoMemory, Value};
use std::alloc::Global;

// The rows of owners with their members.
pub fn ring_rows(alloc: Global, owners: &Owners) -> Result<Parts, NoMemory>
    requires { (g : Group) → In g owners.now → (m : FieldValue) → In m g.members →
        IsKeyValue g.owner × IsKeyValue m }
    ensures { IfOk result (λ rows. rows ≡ rows_of ring_rows owners.now) }
{
    let mut rows = Parts(Vec::new(alloc));
    for owned in &owners.0 {
        add_rows(alloc, &owned.owner, &owned.members.0, &mut rows)?;
    }
    Ok(rows)
}

fn add_rows(
    alloc: Global,
    owner: &Value,
    members: &[Value],
    rows: &mut Parts,
) -> Result<(), NoMemory>
    requires { (m : FieldValue) → In m members.now → IsKeyValue owner.now × IsKeyValue m }
    ensures { OnOk result (rows.new ≡ rows.old ++ ring_rows owner.now members.now) }
{
    if let [first, ..] = members {
        rows.0.push(Part {
            child: 0,
            rec: head_rec(alloc, owner, first)?,
        })?;
    }
    add_chain(alloc, owner, members, rows)
}

fn add_chain(
    alloc: Global,
    owner: &Value,
    members: &[Value],
    rows: &mut Parts,
) -> Result<(), NoMemory>
    requires { (m : FieldValue) → In m members.now → IsKeyValue owner.now × IsKeyValue m }
    ensures { OnOk result
        (rows.new ≡ rows.old ++ map (part_for 1) (chain owner.now members.now)) }
{
    let mut rest = members;
    while let [member, after @ ..] = rest {
        let rec = chain_rec(alloc, owner, member, after.first())?;
        rows.0.push(Part { child: 1, rec })?;
        rest = after;
    }
    Ok(())
}
