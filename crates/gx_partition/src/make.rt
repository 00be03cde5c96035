// How a layer is made.
ghost use Rattle.std.specs.Prelude.{◌≡◌, IfOk};
ghost use Rattle.gx_partition.specs.Bounds.{IsPartition};
ghost use Rattle.gx_partition.specs.Rules.{form_of, at_of, bounds_of};

use crate::layer::Partition;
use crate::place::Where;
use gx_values::{Form, NoMemory, Values};
use std::alloc::Global;

/// The layer of records of this form, where child `i` has the records whose value of the field is
/// at least bound `i - 1` and below bound `i`. There is one child more than bounds. `NoMemory`:
/// there was none for the form and the bounds.
pub fn partition(
    alloc: Global,
    form: &Form,
    field: Where,
    bounds: &Values,
) -> Result<Partition, NoMemory>
    requires { IsPartition form.now field bounds.now }
    ensures form { IfOk result (λ made. form_of made ≡ form.now) }
    ensures at { IfOk result (λ made. at_of made ≡ field) }
    ensures bounds { IfOk result (λ made. bounds_of made ≡ bounds.now) }
{
    Ok(Partition {
        form: form.copy(alloc)?,
        at: field,
        bounds: bounds.copy(alloc)?,
    })
}
