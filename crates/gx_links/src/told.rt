// The pairs that the records of nodes tell.
ghost use Rattle.std.specs.Prelude.{◌≡◌, ◌<◌, length, map, get_or, IfOk};
ghost use Rattle.gx_values.specs.declared.records.Rec.{Rec as Record};
ghost use Rattle.gx_values.specs.Values.{no_value};
ghost use Rattle.gx_mapping.specs.Rule.{In};
ghost use Rattle.gx_links.specs.Pairs.{pair_at, two_parts, ArePairsOfRows};

use crate::owners::are_few;
use crate::pairs::{Owners, Pairs};
use crate::rows::are_rows;
use gx_gather::{Recs, add_parts};
use gx_mapping::Parts;
use gx_values::{NoMemory, Value, Values};
use std::alloc::Global;

/// The pairs in records of members, each with its owner in the field at this index. `NoMemory`:
/// there was none for them.
pub fn pairs_at(alloc: Global, records: &Recs, index: usize) -> Result<Pairs, NoMemory>
    requires keys { (r : Record) → In r records.now → 0 < length r.key }
    requires fields { (r : Record) → In r records.now → index < length r.fields }
    ensures { IfOk result (λ pairs. pairs ≡ map (pair_at index) records.now) }
{
    let mut pairs = Vec::with_capacity(alloc, records.0.len())?;
    for rec in &records.0 {
        let member = value_at(&rec.key, 0).copy(alloc)?;
        let owner = value_at(&rec.fields, index).copy(alloc)?;
        pairs.push((member, owner))?;
    }
    Ok(Pairs(pairs))
}

fn value_at(values: &Values, index: usize) -> &Value
    requires { index < length values.now }
    ensures { result.now ≡ get_or values.now index no_value }
{
    &values.0[index]
}

/// The pairs, where no owner has too many members, and the rows are just the records that were
/// found in two nodes. `None`: they are not. `NoMemory`: there was none for the comparison.
pub fn pairs_of_rows(
    alloc: Global,
    pairs: Pairs,
    owners: &Owners,
    rows: Parts,
    first: Recs,
    second: Recs,
) -> Result<Option<Pairs>, NoMemory>
    ensures { IfOk result (ArePairsOfRows pairs owners.now rows (two_parts first second)) }
{
    if !are_few(owners) {
        return Ok(None);
    }
    let mut found = Parts(Vec::new(alloc));
    add_parts(0, first, &mut found)?;
    add_parts(1, second, &mut found)?;
    if are_rows(rows, &found)? {
        Ok(Some(pairs))
    } else {
        Ok(None)
    }
}
