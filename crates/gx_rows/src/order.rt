// The order of rows.
ghost use Rattle.std.specs.Prelude.{◌≡◌, Bool, filter, pos, OnOk};
ghost use Rattle.std.specs.FinMap as fin;
ghost use Rattle.std.specs.List.Sorted.{IsPermutation, IsSortedBy};
ghost use Rattle.std.specs.Ordering.{is_lt};
ghost use Rattle.gx_values.specs.Values.{value_cmp};
ghost use Rattle.gx_values.specs.declared.values.Value.TheVariants as value;
ghost use Rattle.gx_model.specs.States.{File, Row as TheRow};
ghost use Rattle.gx_model.specs.Found.{IsListed, row_cmp, value_at};

use crate::row::Row;
use gx_commands::OrderBy;
use gx_values::{Value, compare};
use std::alloc::AllocError;
use std::cmp::Ordering;

/// Sorts rows by an order. `AllocError`: there was no memory for it, and they stand in some order.
pub fn sort_rows(rows: &mut Vec<Row>, order: OrderBy) -> Result<(), AllocError>
    ensures those { IsPermutation rows.old.items rows.new.items }
    ensures in_order { OnOk result (IsSortedBy (λ a b. is_lt (row_cmp order a b)) rows.new.items) }
    // Records of a file, whose keys differ, are listed in the one way.
    ensures listed { (f : File) (test : TheRow → Bool)
        → IsPermutation (filter test (fin.entries f)) rows.old.items
        → OnOk result (IsListed f test order rows.new.items) }
{
    rows.sort_by(|a, b| compare_rows(order, a, b))?;
    Ok(())
}

/// How two rows stand in an order: by its field, ascending or descending, and where that ties by
/// the key, always ascending.
pub fn compare_rows(order: OrderBy, a: &Row, b: &Row) -> Ordering
    ensures { result ≡ row_cmp order a.now b.now }
{
    let ascending = compare_values(order.field, a, b);
    let by_field = if order.desc {
        ascending.reverse()
    } else {
        ascending
    };
    by_field.then(compare(&a.key, &b.key))
}

fn compare_values(field: u16, a: &Row, b: &Row) -> Ordering
    ensures { result ≡ value_cmp (value_at a.now field) (value_at b.now field) }
{
    let absent = Value::Int(0);
    compare(
        field_value(field, a, &absent),
        field_value(field, b, &absent),
    )
}

/// The value of a field, the key being field 0. Where the row has none it is `absent`, the int 0.
pub fn field_value<'a>(field: u16, row: &'a Row, absent: &'a Value) -> &'a Value
    requires { absent.now ≡ value.Int (pos 0) }
    ensures { result.now ≡ value_at row.now field }
{
    if field == 0 {
        return &row.key;
    }
    row.values.0.get(usize::from(field) - 1).unwrap_or(absent)
}
