// A record as answers list it.
use gx_values::{Value, Values};
use std::marker::Model;

/// A record: its key and its other values, in the order of the fields.
#[derive(Debug, Drop)]
pub struct Row {
    /// the value of field 0
    pub key: Value,
    /// the values of the fields from 1 on
    pub values: Values,
}

impl Model for Row {
    ghost use Rattle.gx_model.specs.States.{Row as TheRow};

    ghost Value = { TheRow };

    ghost view = { λ r. (r.key, r.values) };
}
