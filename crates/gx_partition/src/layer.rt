// The layer and its conditions.
ghost use Rattle.gx_partition.specs.Bounds.{IsPartition, IsPartition-prop};

use crate::place::Where;
use gx_values::{Form, Values};

/// Records that go whole to children, each child with its own range of the values of one field.
#[derive(Debug, Drop)]
pub struct Partition {
    pub(crate) form: Form,
    pub(crate) at: Where,
    pub(crate) bounds: Values,
    ghost sound: { IsPartition form at bounds } by { IsPartition-prop form at bounds },
}
