// The records that a path gives.
ghost use Rattle.std.specs.Prelude.{◌≡◌, ◌<◌, filter, length, IfOk};
ghost use Rattle.std.specs.List.{AllByRecursion};
ghost use Rattle.gx_commands.specs.Paths.{IsPathOf, link_of};
ghost use Rattle.gx_model.specs.Paths.{leads, is_led, chosen, after_leg, after_legs, last_find, path_text};
ghost use Rattle.gx_model.specs.Found.{meets_conds};
ghost use Rattle.gx_plain.specs.Plain.{HasParts, IsLegIn};

use crate::listing::{has_this_owner, meets_all};
use crate::replies::file_def;
use gx_commands::{Cond, Find, Leg, PathQuery, Way};
use gx_plain_state::{PlainState, copy_row};
use gx_rows::{Row, records_text};
use gx_schema::Schema;
use gx_values::{NoMemory, Octets, Value};
use std::alloc::Global;

/// The lines of the records that a path of the schema gives, and how many they are. `NoMemory`:
/// there was no memory.
pub(crate) fn path_text(
    alloc: Global,
    schema: &Schema,
    state: &PlainState,
    query: &PathQuery,
) -> Result<Octets, NoMemory>
    requires of_schema { IsPathOf schema.now query.now }
    requires parts { HasParts schema.now state.now }
    ensures { IfOk result (λ text. text ≡ path_text schema.now state.now query.now) }
{
    let rows = chosen(alloc, state, &query.first)?;
    let rows = after_legs(alloc, state, &query.legs.0, rows)?;
    let last = last_find(&query.first, &query.legs.0);
    records_text(alloc, file_def(schema, last.file), &rows)
}

// The `find` of the last leg, or the one before all legs.
fn last_find<'a>(first: &'a Find, legs: &'a [Leg]) -> &'a Find
    ensures { result.now ≡ last_find first.now legs.now }
{
    match legs {
        [] => first,
        [leg, later @ ..] => last_find(&leg.find, later),
    }
}

// The set after some legs.
fn after_legs(
    alloc: Global,
    state: &PlainState,
    legs: &[Leg],
    rows: Vec<Row>,
) -> Result<Vec<Row>, NoMemory>
    requires { AllByRecursion (IsLegIn state.now) legs.now }
    ensures { IfOk result (λ led. led.items ≡ after_legs state.now legs.now rows.items) }
{
    match legs {
        [] => Ok(rows),
        [leg, later @ ..] => {
            let rows = after_leg(alloc, state, leg, &rows)?;
            after_legs(alloc, state, later, rows)
        }
    }
}

// The set after a leg.
fn after_leg(
    alloc: Global,
    state: &PlainState,
    leg: &Leg,
    before: &[Row],
) -> Result<Vec<Row>, NoMemory>
    requires { IsLegIn state.now leg.now }
    ensures { IfOk result (λ rows. rows.items ≡ after_leg state.now leg.now before.now) }
{
    let mut rows = chosen(alloc, state, &leg.find)?;
    keep_led(&mut rows, state, leg.way, before);
    Ok(rows)
}

// Drops the records that are linked with none of the set before.
fn keep_led(rows: &mut Vec<Row>, state: &PlainState, way: Way, before: &[Row])
    requires { link_of way < length state.now.links }
    ensures { rows.new.items ≡ filter (is_led state.now way before.now) rows.old.items }
{
    rows.retain(|row| is_led(state, way, before, row));
}

// The records of a file that meet the conditions.
fn chosen(alloc: Global, state: &PlainState, find: &Find) -> Result<Vec<Row>, NoMemory>
    requires { find.now.file < length state.now.files }
    ensures { IfOk result (λ rows. rows.items ≡ chosen state.now find.now) }
{
    meeting(alloc, state.file(find.file).rows(), &find.conds.0)
}

// Those of the records that meet the conditions.
fn meeting(alloc: Global, rows: &[Row], conds: &[Cond]) -> Result<Vec<Row>, NoMemory>
    ensures { IfOk result (λ kept. kept.items ≡ filter (meets_conds conds.now) rows.now) }
{
    let mut kept = Vec::new(alloc);
    for row in rows {
        if meets_all(conds, row) {
            kept.push(copy_row(alloc, row)?)?;
        }
    }
    Ok(kept)
}

// Whether the record is linked with one of the set before.
fn is_led(state: &PlainState, way: Way, before: &[Row], to: &Row) -> bool
    requires { link_of way < length state.now.links }
    ensures { result ≡ is_led state.now way before.now to.now }
{
    before
        .iter()
        .any(|from| leads(state, way, &from.key, &to.key))
}

// Whether the link leads from the record with the one key to that with the other.
fn leads(state: &PlainState, way: Way, from: &Value, to: &Value) -> bool
    requires { link_of way < length state.now.links }
    ensures { result ≡ leads state.now way from.now to.now }
{
    match way {
        Way::Down(link) => has_this_owner(from, state.link(link).get(to)),
        Way::Up(link) => has_this_owner(to, state.link(link).get(from)),
    }
}
