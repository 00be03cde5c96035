// The records that meet a test, in an order.
ghost use Rattle.std.specs.Prelude.{◌≡◌, ◌&&◌, filter, IfOk};
ghost use Rattle.std.specs.Option.{option_map};
ghost use Rattle.gx_model.specs.Commands.{IsListText};
ghost use Rattle.gx_model.specs.Found.{is_owner, meets_cond, meets_conds, meets_of};
ghost use Rattle.gx_plain.specs.Plain.{IsOfLink};

use gx_commands::{Cond, Of, OrderBy};
use gx_plain_state::{PlainFile, PlainState, copy_row, is_same};
use gx_rows::{Row, field_value, records_text, sort_rows};
use gx_schema::FileDef;
use gx_values::{NoMemory, Octets, Value, meets};
use std::alloc::Global;

/// The lines of the records of a file that meet the conditions, and are members of the owner where
/// one is given, in an order, and how many they are.
pub(crate) fn list_text(
    alloc: Global,
    state: &PlainState,
    def: &FileDef,
    file: &PlainFile,
    conds: &[Cond],
    of: &Option<Of>,
    order: OrderBy,
) -> Result<Octets, NoMemory>
    requires { IsOfLink state.now of.now }
    ensures { IfOk result
        (IsListText def.now file.now
        (λ r. meets_conds conds.now r && meets_of state.now of.now r.0) order) }
{
    let mut rows = chosen_rows(alloc, state, file.rows(), conds, of)?;
    sort_rows(&mut rows, order)?;
    records_text(alloc, def, &rows)
}

fn chosen_rows(
    alloc: Global,
    state: &PlainState,
    rows: &[Row],
    conds: &[Cond],
    of: &Option<Of>,
) -> Result<Vec<Row>, NoMemory>
    requires { IsOfLink state.now of.now }
    ensures { IfOk result
        (λ kept. kept.items
        ≡ filter (λ r. meets_conds conds.now r && meets_of state.now of.now r.0) rows.now) }
{
    let mut kept = Vec::new(alloc);
    for row in rows {
        if is_chosen(state, conds, of, row) {
            kept.push(copy_row(alloc, row)?)?;
        }
    }
    Ok(kept)
}

fn is_chosen(state: &PlainState, conds: &[Cond], of: &Option<Of>, row: &Row) -> bool
    requires { IsOfLink state.now of.now }
    ensures { result ≡ (meets_conds conds.now row.now && meets_of state.now of.now row.now.0) }
{
    meets_all(conds, row) && is_member(state, of, &row.key)
}

/// Whether the record meets all of the conditions.
pub(crate) fn meets_all(conds: &[Cond], row: &Row) -> bool
    ensures { result ≡ meets_conds conds.now row.now }
{
    conds.iter().all(|cond| meets_one(cond, row))
}

fn meets_one(cond: &Cond, row: &Row) -> bool
    ensures { result ≡ meets_cond row.now cond.now }
{
    let absent = Value::Int(0);
    meets(field_value(cond.field, row, &absent), cond.op, &cond.bound)
}

// Whether the key is that of a member of the owner, where one is given.
fn is_member(state: &PlainState, of: &Option<Of>, key: &Value) -> bool
    requires { IsOfLink state.now of.now }
    ensures { result ≡ meets_of state.now of.now key.now }
{
    match of {
        None => true,
        Some(of) => has_this_owner(&of.owner, state.link(of.link).get(key)),
    }
}

/// Whether this is the owner that was found, if one was.
pub(crate) fn has_this_owner(owner: &Value, found: Option<&Value>) -> bool
    ensures { result ≡ is_owner owner.now (option_map (λ v. v.now) found.entry) }
{
    match found {
        None => false,
        Some(found) => is_same(found, owner),
    }
}
