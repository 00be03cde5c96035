// Legs are walked back, from records of the last file.
ghost use Rattle.std.specs.Prelude.{◌≡◌, ◌<◌, ◌≤◌, ◌+◌, ◌*◌, ◌∷◌, [], length, filter, Ok, IfOk, OnOk};
ghost use Rattle.gx_commands.specs.Paths.{AreLegsFrom};
ghost use Rattle.gx_model.specs.States.{State};
ghost use Rattle.gx_model.specs.Paths.{after_legs};
ghost use Rattle.gx_walks.specs.Walks.{way_back, back_legs, comes_back, met, all_met};
ghost use Rattle.gx_walks.specs.Readers.{ended, Costs, AreFound};

use crate::choosing::last_find;
use crate::reader::{LinkReader, or_stop};
use crate::walking::follow;
use gx_commands::{Find, Leg, Way};
use gx_rows::Row;
use std::alloc::Global;
use std::slice;

/// Keeps those of some records of the last file from which the walk back ends at a record of the
/// first.
pub(crate) fn keep_led<R: LinkReader>(
    alloc: Global,
    reader: &mut R,
    first: &Find,
    legs: &[Leg],
    rows: Vec<Row>,
) -> Result<Vec<Row>, R::Stop>
    requires ready { R.ready reader.old }
    requires serving { R.calls reader.old reader.old (Ok tt) }
    requires legs { AreLegsFrom (R.schema reader.old) first.now.file legs.now }
    requires some { 0 < length legs.now }
    ensures set { (s : State) → R.holds reader.old s → IfOk result
        (λ kept. kept.items ≡ filter (comes_back s first.now legs.now) rows.items) }
    ensures steps { (s : State) (c : Costs) → R.holds reader.old s → R.costs reader.old s c →
        AreFound c.finds (back_legs first.now legs.now) → OnOk result
        (R.work reader.new ≤ R.work reader.old
        + 2 * all_met s (back_legs first.now legs.now) rows.items * c.look_up) }
    ensures calls { R.calls reader.old reader.new (ended result) }
{
    let mut kept = Vec::new(alloc);
    for row in rows {
        if leads_back(alloc, reader, first, legs, &row)? {
            or_stop(reader, kept.push(row))?;
        }
    }
    Ok(kept)
}

// Whether the walk back from a record of the last file ends at a record of the first.
fn leads_back<R: LinkReader>(
    alloc: Global,
    reader: &mut R,
    first: &Find,
    legs: &[Leg],
    row: &Row,
) -> Result<bool, R::Stop>
    requires ready { R.ready reader.old }
    requires serving { R.calls reader.old reader.old (Ok tt) }
    requires legs { AreLegsFrom (R.schema reader.old) first.now.file legs.now }
    requires some { 0 < length legs.now }
    ensures led { (s : State) → R.holds reader.old s → IfOk result
        (λ led. led ≡ comes_back s first.now legs.now row.now) }
    ensures steps { (s : State) (c : Costs) → R.holds reader.old s → R.costs reader.old s c →
        AreFound c.finds (back_legs first.now legs.now) → OnOk result
        (R.work reader.new ≤ R.work reader.old
        + 2 * met s (back_legs first.now legs.now) (row.now ∷ []) * c.look_up) }
    ensures calls { R.calls reader.old reader.new (ended result) }
{
    let reached = walk_back(alloc, reader, first, legs, slice::from_ref(row))?;
    Ok(!reached.is_empty())
}

// The set after the legs back from some records, which aren't copied.
fn walk_back<R: LinkReader>(
    alloc: Global,
    reader: &mut R,
    first: &Find,
    legs: &[Leg],
    rows: &[Row],
) -> Result<Vec<Row>, R::Stop>
    requires ready { R.ready reader.old }
    requires serving { R.calls reader.old reader.old (Ok tt) }
    requires legs { AreLegsFrom (R.schema reader.old) first.now.file legs.now }
    requires some { 0 < length legs.now }
    ensures set { (s : State) → R.holds reader.old s → IfOk result
        (λ set. set.items ≡ after_legs s (back_legs first.now legs.now) rows.now) }
    ensures steps { (s : State) (c : Costs) → R.holds reader.old s → R.costs reader.old s c →
        AreFound c.finds (back_legs first.now legs.now) → OnOk result
        (R.work reader.new ≤ R.work reader.old
        + 2 * met s (back_legs first.now legs.now) rows.now * c.look_up) }
    ensures calls { R.calls reader.old reader.new (ended result) }
{
    match legs {
        [] => unreachable!(),
        [leg] => follow(alloc, reader, way_back(leg.way), first, rows),
        [before @ .., leg] => {
            let find = last_find(first, before);
            let set = follow(alloc, reader, way_back(leg.way), find, rows)?;
            walk_back(alloc, reader, first, before, &set)
        }
    }
}

// The other way over the same link.
fn way_back(way: Way) -> Way
    ensures { result ≡ way_back way }
{
    match way {
        Way::Down(link) => Way::Up(link),
        Way::Up(link) => Way::Down(link),
    }
}
