// The records that a path gives.
ghost use Rattle.std.specs.Prelude.{◌≡◌, ◌^◌, ◌<◌, ◌≤◌, ◌+◌, ◌*◌, length, IfOk, OnOk};
ghost use Rattle.gx_commands.specs.Paths.{IsByKey, AreLegsFrom};
ghost use Rattle.gx_model.specs.States.{State};
ghost use Rattle.gx_model.specs.Paths.{chosen, after_legs, last_find, path_rows};
ghost use Rattle.gx_walks.specs.Directions.{IsDuePath};
ghost use Rattle.gx_walks.specs.Walks.{back_legs, met, all_met, start_of, legs_of, visits};
ghost use Rattle.gx_walks.specs.Readers.{ended, Costs, AreFound};

use crate::back::keep_led;
use crate::choosing::last_find;
use crate::directions::Direction;
use crate::reader::LinkReader;
use crate::walking::walk;
use gx_commands::{Find, Leg, PathQuery};
use gx_rows::Row;
use std::alloc::Global;

/// The records that a path gives, by ascending key, walked in this direction. Both directions give
/// the same.
///
/// It takes at most `2 * (c + v + 1) * w` steps where each owner that is asked for is found without
/// reading all of its link. There the reader states c, for the `find` from which it is
/// walked, and w, for one look-up; v is the number of records before each leg of each walk and of
/// pairs that the leg follows. Forward there is one walk, backward one for each record
/// of the last `find`.
///
/// It is given up where a call of the reader is, or where there was no memory.
pub fn path_rows<R: LinkReader>(
    alloc: Global,
    reader: &mut R,
    query: &PathQuery,
    direction: Direction,
) -> Result<Vec<Row>, R::Stop>
    requires ready { R.ready reader.old }
    requires due { IsDuePath (R.schema reader.old) query.now }
    ensures set { (s : State) → R.holds reader.old s →
        IfOk result (λ rows. rows.items ≡ path_rows s query.now) }
    ensures steps { (s : State) (c : Costs) → R.holds reader.old s → R.costs reader.old s c →
        AreFound c.finds (legs_of direction query.now) → OnOk result
        (R.work reader.new ≤ R.work reader.old
        + 2 * (c.candidates (start_of direction query.now) + visits direction s query.now + 1)
        * c.look_up) }
    ensures calls { R.calls reader.old reader.new (ended result) }
{
    match direction {
        Direction::Forward => forward(alloc, reader, &query.first, &query.legs.0),
        Direction::Backward => backward(alloc, reader, &query.first, &query.legs.0),
    }
}

// The same from the first file.
fn forward<R: LinkReader>(
    alloc: Global,
    reader: &mut R,
    first: &Find,
    legs: &[Leg],
) -> Result<Vec<Row>, R::Stop>
    requires ready { R.ready reader.old }
    requires first { IsByKey (R.schema reader.old) first.now }
    requires few { length first.now.conds < 2 ^ 16 }
    requires legs { AreLegsFrom (R.schema reader.old) first.now.file legs.now }
    requires some { 0 < length legs.now }
    ensures set { (s : State) → R.holds reader.old s → IfOk result
        (λ rows. rows.items ≡ after_legs s legs.now (chosen s first.now)) }
    ensures steps { (s : State) (c : Costs) → R.holds reader.old s → R.costs reader.old s c →
        AreFound c.finds legs.now → OnOk result
        (R.work reader.new ≤ R.work reader.old
        + 2 * (c.candidates first.now + met s legs.now (chosen s first.now) + 1) * c.look_up) }
    ensures calls { R.calls reader.old reader.new (ended result) }
{
    let rows = reader.records(alloc, first)?;
    walk(alloc, reader, legs, &rows)
}

// The same from the last file: from each of its records along the legs back.
fn backward<R: LinkReader>(
    alloc: Global,
    reader: &mut R,
    first: &Find,
    legs: &[Leg],
) -> Result<Vec<Row>, R::Stop>
    requires ready { R.ready reader.old }
    requires first { IsByKey (R.schema reader.old) first.now }
    requires few { length (last_find first.now legs.now).conds < 2 ^ 16 }
    requires legs { AreLegsFrom (R.schema reader.old) first.now.file legs.now }
    requires some { 0 < length legs.now }
    ensures set { (s : State) → R.holds reader.old s → IfOk result
        (λ rows. rows.items ≡ after_legs s legs.now (chosen s first.now)) }
    ensures steps { (s : State) (c : Costs) → R.holds reader.old s → R.costs reader.old s c →
        AreFound c.finds (back_legs first.now legs.now) → OnOk result
        (R.work reader.new ≤ R.work reader.old
        + 2 * (c.candidates (last_find first.now legs.now)
        + all_met s (back_legs first.now legs.now) (chosen s (last_find first.now legs.now)) + 1)
        * c.look_up) }
    ensures calls { R.calls reader.old reader.new (ended result) }
{
    let rows = reader.records(alloc, last_find(first, legs))?;
    keep_led(alloc, reader, first, legs, rows)
}
