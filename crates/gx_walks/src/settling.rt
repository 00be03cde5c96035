// Records that were found in any order are made a set.
ghost use Rattle.std.specs.Prelude.{◌≡◌, Bool, filter, OnOk};
ghost use Rattle.std.specs.FinMap as fin;
ghost use Rattle.gx_model.specs.States.{File as FileMap, Row as TheRow};
ghost use Rattle.gx_model.specs.Found.{meets_cond, meets_conds};
ghost use Rattle.gx_walks.specs.Walks.{AreThose};

use gx_commands::{Cond, OrderBy};
use gx_rows::{Row, field_value, sort_rows};
use gx_values::{Value, compare, meets};
use std::alloc::AllocError;

// By ascending key.
const BY_KEY: OrderBy = OrderBy {
    field: 0,
    desc: false,
};

/// Keeps those of some records that meet the conditions, each once, by ascending key. `AllocError`:
/// there was no memory for it, and they stand in some order.
pub(crate) fn settle(rows: &mut Vec<Row>, conds: &[Cond]) -> Result<(), AllocError>
    ensures { (f : FileMap) (test : TheRow → Bool) → AreThose f test rows.old.items →
        OnOk result
        (rows.new.items ≡ filter test (filter (meets_conds conds.now) (fin.entries f))) }
{
    rows.retain(|row| meets_all(conds, row));
    sort_rows(rows, BY_KEY)?;
    rows.dedup_by(|row, before| compare(&row.key, &before.key).is_eq());
    Ok(())
}

// Whether a row meets each of the conditions.
fn meets_all(conds: &[Cond], row: &Row) -> bool
    ensures { result ≡ meets_conds conds.now row.now }
{
    conds.iter().all(|cond| meets_one(cond, row))
}

fn meets_one(cond: &Cond, row: &Row) -> bool
    ensures { result ≡ meets_cond row.now cond.now }
{
    let absent = Value::Int(0);
    meets(field_value(cond.field, row, &absent), cond.op, &cond.bound)
}
