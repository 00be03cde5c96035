// Where the field of a partition stands.
ghost use Rattle.std.specs.Prelude.{◌≡◌};
ghost use Rattle.gx_partition.specs.Places.{value_at, IsInRecord};

use gx_values::{Rec, Value};

/// A field of a form, by its number from 0.
#[derive(Clone, Copy, Debug, PartialEq, Eq)]
pub enum Where {
    /// among the key fields
    Key(u16),
    /// among the data fields
    Rest(u16),
}

/// The value of the field in a record.
pub(crate) fn value_of(at: Where, rec: &Rec) -> &Value
    requires { IsInRecord at rec.now }
    ensures { result.now ≡ value_at at rec.now }
{
    match at {
        Where::Key(i) => &rec.key.0[usize::from(i)],
        Where::Rest(i) => &rec.fields.0[usize::from(i)],
    }
}
