// Keys of records.
ghost use Rattle.std.specs.Prelude.{◌≡◌, []};

use gx_values::Values;
use std::alloc::Global;
use std::marker::Model;

/// Keys, seen as a list.
#[derive(Debug, Drop)]
pub struct Keys(pub Vec<Values>);

impl Model for Keys {
    ghost use Rattle.std.specs.Prelude.{List};
    ghost use Rattle.gx_values.specs.declared.values.Value.{Value as FieldValue};

    ghost Value = { List (List FieldValue) };

    ghost view = { λ k. k.0.items };
}

impl Keys {
    /// No key.
    pub fn new(alloc: Global) -> Keys
        ensures { result ≡ [] }
    {
        Keys(Vec::new(alloc))
    }
}
