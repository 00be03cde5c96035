// The pairs of links, and owners with their members.
ghost use Rattle.std.specs.Prelude.{◌≡◌, IfOk, OnOk};
ghost use Rattle.gx_links.specs.Owners.{first_of, with_member_last};

use gx_values::{NoMemory, Value, Values};
use std::alloc::{AllocError, Global};
use std::marker::Model;

/// Pairs, each a member with its owner, seen as a list.
#[derive(Debug, Drop)]
pub struct Pairs(pub Vec<(Value, Value)>);

impl Model for Pairs {
    ghost use Rattle.std.specs.Prelude.{List};
    ghost use Rattle.gx_values.specs.declared.values.Value.{Value as FieldValue};

    ghost Value = { List (FieldValue × FieldValue) };

    ghost view = { λ p. p.0.items };
}

impl Pairs {
    /// The same pairs. `NoMemory`: there was none for them.
    pub fn copy(&self, alloc: Global) -> Result<Pairs, NoMemory>
        ensures { IfOk result (λ copy. copy ≡ self.now) }
    {
        let mut copies = Vec::with_capacity(alloc, self.0.len())?;
        for pair in &self.0 {
            copies.push((pair.0.copy(alloc)?, pair.1.copy(alloc)?))?;
        }
        Ok(Pairs(copies))
    }
}

/// An owner with its members.
#[derive(Debug, Drop)]
pub struct Owned {
    pub owner: Value,
    /// in ascending order
    pub members: Values,
}

impl Owned {
    // An owner with one member.
    pub(crate) fn with_one(alloc: Global, member: Value, owner: Value) -> Result<Owned, AllocError>
        ensures { IfOk result (λ owned. owned ≡ first_of (member, owner)) }
    {
        let mut members = Vec::with_capacity(alloc, 1)?;
        members.push(member)?;
        Ok(Owned {
            owner,
            members: Values(members),
        })
    }

    // A member more, at the end.
    pub(crate) fn add(&mut self, member: Value) -> Result<(), AllocError>
        ensures { OnOk result (self.new ≡ with_member_last self.old member) }
    {
        self.members.0.push(member)?;
        Ok(())
    }
}

/// Owners with their members, seen as a list.
#[derive(Debug, Drop)]
pub struct Owners(pub Vec<Owned>);

impl Model for Owners {
    ghost use Rattle.std.specs.Prelude.{List};
    ghost use Rattle.gx_links.specs.declared.pairs.Owned.{Owned as Group};

    ghost Value = { List Group };

    ghost view = { λ o. o.0.items };
}
