// The linksets of all kinds as one type.

use gx_links::{Joining, Linkset, Pairs};
use gx_lists::{Inverted, PointerArray};
use gx_ports::{Leaves, Stop};
use gx_ring::Ring;
use gx_types::AnyMapping;
use gx_values::{Value, Values};
use std::alloc::Global;

/// The linkset of one of the three kinds, over nodes of any layers.
#[derive(Drop)]
pub enum AnyLinkset<'a> {
    /// for each owner its members
    Array(PointerArray<'a, AnyMapping>),
    /// for each owner its first member; for each member the next one
    Ring(Ring<'a, AnyMapping>),
    /// owners with their members; for each member its owner
    Inverted(Inverted<'a, AnyMapping>),
}

impl<'a> Linkset for AnyLinkset<'a> {
    ghost use Rattle.gx_linksets.specs.Any.{any_link_rule, IsHeldBy, IsValidLinkset};
    ghost use Rattle.gx_linksets.specs.Any.{any_link_laws};

    ghost rule = { any_link_rule };

    ghost held = { IsHeldBy };

    ghost valid = { IsValidLinkset };

    ghost laws = { any_link_laws };

    fn finds(&self) -> bool {
        match self {
            AnyLinkset::Array(linkset) => linkset.finds(),
            AnyLinkset::Ring(linkset) => linkset.finds(),
            AnyLinkset::Inverted(linkset) => linkset.finds(),
        }
    }

    fn members<B: Leaves>(
        &self,
        alloc: Global,
        leaves: &mut B,
        owner: &Value,
        out: &mut Values,
    ) -> Result<(), Stop> {
        match self {
            AnyLinkset::Array(linkset) => linkset.members(alloc, leaves, owner, out),
            AnyLinkset::Ring(linkset) => linkset.members(alloc, leaves, owner, out),
            AnyLinkset::Inverted(linkset) => linkset.members(alloc, leaves, owner, out),
        }
    }

    fn owner<B: Leaves>(
        &self,
        alloc: Global,
        leaves: &mut B,
        member: &Value,
    ) -> Result<Option<Value>, Stop> {
        match self {
            AnyLinkset::Array(linkset) => linkset.owner(alloc, leaves, member),
            AnyLinkset::Ring(linkset) => linkset.owner(alloc, leaves, member),
            AnyLinkset::Inverted(linkset) => linkset.owner(alloc, leaves, member),
        }
    }

    fn connect<B: Leaves>(
        &self,
        alloc: Global,
        leaves: &mut B,
        owner: &Value,
        member: &Value,
    ) -> Result<Joining, Stop> {
        match self {
            AnyLinkset::Array(linkset) => linkset.connect(alloc, leaves, owner, member),
            AnyLinkset::Ring(linkset) => linkset.connect(alloc, leaves, owner, member),
            AnyLinkset::Inverted(linkset) => linkset.connect(alloc, leaves, owner, member),
        }
    }

    fn disconnect_from<B: Leaves>(
        &self,
        alloc: Global,
        leaves: &mut B,
        owner: &Value,
        member: &Value,
    ) -> Result<(), Stop> {
        match self {
            AnyLinkset::Array(linkset) => linkset.disconnect_from(alloc, leaves, owner, member),
            AnyLinkset::Ring(linkset) => linkset.disconnect_from(alloc, leaves, owner, member),
            AnyLinkset::Inverted(linkset) => linkset.disconnect_from(alloc, leaves, owner, member),
        }
    }

    fn pairs<B: Leaves>(
        &self,
        alloc: Global,
        leaves: &mut B,
        counts: &mut [Option<usize>],
    ) -> Result<Option<Pairs>, Stop> {
        match self {
            AnyLinkset::Array(linkset) => linkset.pairs(alloc, leaves, counts),
            AnyLinkset::Ring(linkset) => linkset.pairs(alloc, leaves, counts),
            AnyLinkset::Inverted(linkset) => linkset.pairs(alloc, leaves, counts),
        }
    }
}
