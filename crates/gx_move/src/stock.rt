// Stocks.

use gx_gather::Recs;
use gx_links::Pairs;
use std::marker::Model;

/// The records and the pairs of a state.
#[derive(Drop)]
pub struct Stock {
    /// the records of each file
    pub files: Stocks,
    /// the pairs of each link
    pub links: Ties,
}

/// The records of each file of a schema, by ascending key, seen as a list.
#[derive(Drop)]
pub struct Stocks(pub Vec<Recs>);

impl Model for Stocks {
    ghost use Rattle.std.specs.Prelude.{List};
    ghost use Rattle.gx_values.specs.declared.records.Rec.{Rec as Record};

    ghost Value = { List (List Record) };

    ghost view = { λ s. s.0.items };
}

/// The pairs of each link of a schema, each a member with its owner, in the order of the members,
/// seen as a list.
#[derive(Drop)]
pub struct Ties(pub Vec<Pairs>);

impl Model for Ties {
    ghost use Rattle.std.specs.Prelude.{List};
    ghost use Rattle.gx_values.specs.declared.values.Value.{Value as FieldValue};

    ghost Value = { List (List (FieldValue × FieldValue)) };

    ghost view = { λ t. t.0.items };
}
