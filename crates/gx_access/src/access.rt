// How the records of a tree are stored: which leaves have which of their data fields, and how.

use gx_codec::Slot;
use gx_values::{Field, Octets, Values};
use std::marker::Model;

/// Slots in their order, seen as a list.
#[derive(Debug, Drop)]
pub struct Slots(pub Vec<Slot>);

impl Model for Slots {
    ghost use Rattle.std.specs.Prelude.{List};
    ghost use Rattle.gx_codec.specs.declared.slots.Slot.{Slot};

    ghost Value = { List Slot };

    ghost view = { λ s. s.0.items };
}

/// A field of a group, as the node's form has it where the group begins.
#[derive(Debug, Drop)]
pub struct Tested {
    pub slot: Slot,
    pub field: Field,
}

/// The fields of a group, seen as a list.
#[derive(Debug, Drop)]
pub struct Group(pub Vec<Tested>);

impl Model for Group {
    ghost use Rattle.std.specs.Prelude.{List};
    ghost use Rattle.gx_access.specs.declared.access.Tested.{Tested};

    ghost Value = { List Tested };

    ghost view = { λ g. g.0.items };
}

/// Groups, each inside the next, seen as a list.
#[derive(Debug, Drop)]
pub struct NestedGroups(pub Vec<Group>);

impl Model for NestedGroups {
    ghost use Rattle.std.specs.Prelude.{List};
    ghost use Rattle.gx_access.specs.declared.access.Tested.{Tested};

    ghost Value = { List (List Tested) };

    ghost view = { λ g. g.0.items };
}

/// What a node has of a record: its key, and these data fields.
#[derive(Debug, Drop)]
pub struct View {
    /// how many layers `actual` stand above: so many times the fields are one of bytes
    pub wraps: u16,
    /// the fields, in the node's order
    pub slots: Slots,
    /// the groups that the node is in: it has nothing of a record of which in one of them each
    /// field has its default
    pub groups: NestedGroups,
}

/// A leaf with some of the data fields of a record.
#[derive(Debug, Drop)]
pub struct Fragment {
    /// the number of the leaf
    pub leaf: u32,
    /// how many bytes a piece has, where the bytes of a record are cut; its key has a number more
    pub piece: Option<u16>,
    /// what the leaf, or the layer that cuts, has of a record
    pub view: View,
    /// the bytes of the fields where each is its default, one after the other, where the leaf may
    /// have no entry of a record. `None`: it has one of each record
    pub defaults: Option<Octets>,
}

/// Fragments in the order of the leaves, seen as a list.
#[derive(Debug, Drop)]
pub struct Fragments(pub Vec<Fragment>);

impl Model for Fragments {
    ghost use Rattle.std.specs.Prelude.{List};
    ghost use Rattle.gx_access.specs.declared.access.Fragment.{Fragment};

    ghost Value = { List Fragment };

    ghost view = { λ f. f.0.items };
}

/// The field whose value chooses an alternative.
#[derive(Clone, Copy, Debug)]
pub enum Chooser {
    /// the field of the key with this number
    OfKey(u16),
    /// a data field
    OfData(Slot),
}

/// How the records of a tree are stored: each by the fragments of one alternative.
#[derive(Drop)]
pub enum Access {
    /// each record by these fragments
    Only(Fragments),
    /// each by one of the alternatives, by the field's value and the ascending bounds between them
    By(Chooser, Values, Vec<Access>),
}
