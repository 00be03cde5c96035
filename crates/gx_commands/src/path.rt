// Paths over links.
use crate::command::Find;
use std::marker::Model;

/// How many legs a path may have.
pub const MOST_LEGS: usize = 8;

/// A link that is followed, by its number in the schema: from its owners down to their members, or
/// from members up to their owners.
#[derive(Clone, Copy, Debug, PartialEq, Eq)]
pub enum Way {
    Down(u16),
    Up(u16),
}

/// A link that is followed, and what the records behind it have to meet: a `find` without `of`, by
/// ascending key.
#[derive(Debug, Drop)]
pub struct Leg {
    pub way: Way,
    pub find: Find,
}

/// Legs, seen as a list.
#[derive(Debug, Drop)]
pub struct Legs(pub Vec<Leg>);

impl Model for Legs {
    ghost use Rattle.std.specs.Prelude.{List};
    ghost use Rattle.gx_commands.specs.declared.path.Leg.{Leg};

    ghost Value = { List Leg };

    ghost view = { λ l. l.0.items };
}

/// A path: the records that it begins with, a `find` as in a leg, and the legs from there, each of
/// which follows a link from the file of the one before.
#[derive(Debug, Drop)]
pub struct PathQuery {
    pub first: Find,
    pub legs: Legs,
}
