// Legs are walked from some records.
ghost use Rattle.std.specs.Prelude.{◌≡◌, ◌<◌, ◌≤◌, ◌+◌, ◌*◌, ◌++◌, length, Ok, IfOk, OnOk};
ghost use Rattle.std.specs.List.{AllByRecursion};
ghost use Rattle.gx_commands.specs.Paths.{link_of, file_behind};
ghost use Rattle.gx_model.specs.States.{State};
ghost use Rattle.gx_model.specs.Paths.{after_leg, after_legs};
ghost use Rattle.gx_walks.specs.Walks.{all_linked, met};
ghost use Rattle.gx_walks.specs.Readers.{ended, IsLegOf, Costs, IsFound, AreFound};

use crate::reader::{LinkReader, or_stop};
use crate::settling::settle;
use gx_commands::{Find, Leg, Way};
use gx_rows::Row;
use std::alloc::Global;

/// The set after some legs from some records, which aren't copied.
pub(crate) fn walk<R: LinkReader>(
    alloc: Global,
    reader: &mut R,
    legs: &[Leg],
    rows: &[Row],
) -> Result<Vec<Row>, R::Stop>
    requires ready { R.ready reader.old }
    requires serving { R.calls reader.old reader.old (Ok tt) }
    requires legs { AllByRecursion (IsLegOf (R.schema reader.old)) legs.now }
    requires some { 0 < length legs.now }
    ensures set { (s : State) → R.holds reader.old s →
        IfOk result (λ set. set.items ≡ after_legs s legs.now rows.now) }
    ensures steps { (s : State) (c : Costs) → R.holds reader.old s → R.costs reader.old s c →
        AreFound c.finds legs.now → OnOk result
        (R.work reader.new ≤ R.work reader.old + 2 * met s legs.now rows.now * c.look_up) }
    ensures calls { R.calls reader.old reader.new (ended result) }
{
    match legs {
        [] => unreachable!(),
        [leg] => follow(alloc, reader, leg.way, &leg.find, rows),
        [leg, rest @ ..] => {
            let set = follow(alloc, reader, leg.way, &leg.find, rows)?;
            walk(alloc, reader, rest, &set)
        }
    }
}

/// The set after one leg.
pub(crate) fn follow<R: LinkReader>(
    alloc: Global,
    reader: &mut R,
    way: Way,
    find: &Find,
    rows: &[Row],
) -> Result<Vec<Row>, R::Stop>
    requires ready { R.ready reader.old }
    requires serving { R.calls reader.old reader.old (Ok tt) }
    requires leg { IsLegOf (R.schema reader.old) (record { way = way; find = find.now }) }
    ensures set { (s : State) → R.holds reader.old s → IfOk result
        (λ set. set.items ≡ after_leg s (record { way = way; find = find.now }) rows.now) }
    ensures steps { (s : State) (c : Costs) → R.holds reader.old s → R.costs reader.old s c →
        IsFound c.finds way → OnOk result
        (R.work reader.new ≤ R.work reader.old
        + 2 * (length rows.now + length (all_linked s find.now.file way rows.now)) * c.look_up) }
    ensures calls { R.calls reader.old reader.new (ended result) }
{
    let mut found = Vec::new(alloc);
    add_all(alloc, reader, way, rows, &mut found)?;
    or_stop(reader, settle(&mut found, &find.conds.0))?;
    Ok(found)
}

// Appends the records to which a link leads from each of some records.
fn add_all<R: LinkReader>(
    alloc: Global,
    reader: &mut R,
    way: Way,
    rows: &[Row],
    out: &mut Vec<Row>,
) -> Result<(), R::Stop>
    requires ready { R.ready reader.old }
    requires serving { R.calls reader.old reader.old (Ok tt) }
    requires link { link_of way < length (R.schema reader.old).links }
    ensures found { (s : State) → R.holds reader.old s → OnOk result
        (out.new.items ≡ out.old.items
        ++ all_linked s (file_behind (R.schema reader.old) way) way rows.now) }
    ensures steps { (s : State) (c : Costs) → R.holds reader.old s → R.costs reader.old s c →
        IsFound c.finds way → OnOk result
        (R.work reader.new ≤ R.work reader.old
        + 2 * (length rows.now
        + length (all_linked s (file_behind (R.schema reader.old) way) way rows.now))
        * c.look_up) }
    ensures calls { R.calls reader.old reader.new (ended result) }
{
    for row in rows {
        reader.add_linked(alloc, way, &row.key, out)?;
    }
    Ok(())
}
