// Pointer arrays.
ghost use Rattle.std.specs.Prelude.{◌≡◌, ◌<◌, ℕ, [], length, IfOk};
ghost use Rattle.gx_values.specs.declared.records.Rec.{Rec as Record};
ghost use Rattle.gx_values.specs.declared.values.Value.{Value as FieldValue};
ghost use Rattle.gx_values.specs.Values.{Fits};
ghost use Rattle.gx_mapping.specs.Rule.{In, IsOf};
ghost use Rattle.gx_stack.specs.Tree.{tree_form};
ghost use Rattle.gx_stack.specs.Seen.{tree_of};
ghost use Rattle.gx_links.specs.Links.{members_of};
ghost use Rattle.gx_links.specs.Joins.{Joins};
ghost use Rattle.gx_links.specs.Pairs.{IsTold, two_parts};
ghost use Rattle.gx_links.specs.Rows.{IsHeldLink, owner_kind};
ghost use Rattle.gx_lists.specs.Arrays.{one_node, array_rows, array_rule, IsArray};

use crate::array_pairs::{cut_owners, is_each_once, pairs_by_member};
use crate::arrays::{array_rec, first_body, owner_among, with_member};
use crate::pieces::cut_members;
use gx_gather::{NO_BLOCK, Recs};
use gx_links::{Joining, Linkset, MOST_MEMBERS, Pairs, value_span, without};
use gx_mapping::Mapping;
use gx_ports::{Leaves, Stop};
use gx_stack::{Node, whole_span};
use gx_values::{Kind, NoMemory, Value, Values};
use std::alloc::Global;

/// A pointer array: a link in one node, with a record of each owner that has a member. An owner is
/// found by reading all of it.
#[derive(Drop)]
pub struct PointerArray<'a, M: Mapping> {
    /// a record of each owner, with the key bytes of its members joined
    pub tree: &'a Node<M>,
    /// the kind of the members
    pub member: Kind,
}

impl<'a, M: Mapping> Linkset for PointerArray<'a, M> {
    ghost use Rattle.gx_stack.specs.Seen.{tree_of};
    ghost use Rattle.gx_links.specs.Rows.{IsHeldLink};
    ghost use Rattle.gx_lists.specs.Arrays.{one_node, array_rows, array_rule, IsArray};
    ghost use Rattle.gx_lists.specs.ArrayLaws.{array_laws};

    ghost rule = { λ l. array_rule M.rule (tree_of l.tree.now) l.member };

    ghost held = { λ l. IsHeldLink M.rule (one_node (tree_of l.tree.now)) array_rows };

    ghost valid = { λ l. IsArray M.rule (tree_of l.tree.now) l.member };

    ghost laws = { λ l valid. array_laws M.rule M.laws (tree_of l.tree.now) l.member valid };

    fn finds(&self) -> bool {
        false
    }

    fn members<B: Leaves>(
        &self,
        alloc: Global,
        leaves: &mut B,
        owner: &Value,
        out: &mut Values,
    ) -> Result<(), Stop> {
        let mut found = Recs::new(alloc);
        let span = value_span(self.tree.form(), owner);
        self.tree.select(alloc, leaves, &span, &mut found)?;
        if cut_members(alloc, self.member, first_body(&found.0), out)? {
            Ok(())
        } else {
            Err(Stop::Damaged(NO_BLOCK))
        }
    }

    fn owner<B: Leaves>(
        &self,
        alloc: Global,
        leaves: &mut B,
        member: &Value,
    ) -> Result<Option<Value>, Stop> {
        let mut found = Recs::new(alloc);
        self.tree.select(alloc, leaves, &whole_span(), &mut found)?;
        owner_among(alloc, self.member, &found, member)
    }

    fn connect<B: Leaves>(
        &self,
        alloc: Global,
        leaves: &mut B,
        owner: &Value,
        member: &Value,
    ) -> Result<Joining, Stop> {
        let mut members = Values(Vec::new(alloc));
        self.members(alloc, leaves, owner, &mut members)?;
        if members.0.len() >= MOST_MEMBERS {
            return Ok(Joining::NoRoom);
        }
        self.put_among(alloc, leaves, owner, member, &members)?;
        Ok(Joining::Joined)
    }

    fn disconnect_from<B: Leaves>(
        &self,
        alloc: Global,
        leaves: &mut B,
        owner: &Value,
        member: &Value,
    ) -> Result<(), Stop> {
        let mut members = Values(Vec::new(alloc));
        self.members(alloc, leaves, owner, &mut members)?;
        if members.0.len() > MOST_MEMBERS {
            return Err(Stop::Damaged(NO_BLOCK));
        }
        let old = array_rec(alloc, owner, &members.0)?;
        let rest = without(members, member);
        if rest.0.is_empty() {
            return self.tree.replace(alloc, leaves, Some(old), None);
        }
        let new = array_rec(alloc, owner, &rest.0)?;
        self.tree.replace(alloc, leaves, Some(old), Some(new))
    }

    fn pairs<B: Leaves>(
        &self,
        alloc: Global,
        leaves: &mut B,
        counts: &mut [Option<usize>],
    ) -> Result<Option<Pairs>, Stop> {
        let Some(found) = self.tree.held(alloc, leaves, counts)? else {
            return Ok(None);
        };
        Ok(self.told(alloc, &found)?)
    }
}

impl<'a, M: Mapping> PointerArray<'a, M> {
    // Puts a member without an owner among the owner's members so far.
    fn put_among<B: Leaves>(
        &self,
        alloc: Global,
        leaves: &mut B,
        owner: &Value,
        member: &Value,
        members: &Values,
    ) -> Result<(), Stop>
        requires valid { IsArray M.rule (tree_of self.now.tree.now) self.now.member }
        requires below { (n : ℕ) →
            In n (array_rule M.rule (tree_of self.now.tree.now) self.now.member).leaves →
            n < length (B.working leaves.old) }
        requires owner { Fits (owner_kind M.rule (tree_of self.now.tree.now)) owner.now }
        requires member { Fits self.now.member member.now }
        requires members { (m : FieldValue) → In m members.now → Fits self.now.member m }
        requires room { length members.now < MOST_MEMBERS }
        ensures { Joins B.View
            (array_rule M.rule (tree_of self.now.tree.now) self.now.member)
            (IsHeldLink M.rule (one_node (tree_of self.now.tree.now)) array_rows) owner.now
            member.now
            (λ link. members.now ≡ members_of link owner.now) leaves.old leaves.new result }
    {
        let with = with_member(alloc, member, members)?;
        let new = array_rec(alloc, owner, &with.0)?;
        if members.0.is_empty() {
            return self.tree.replace(alloc, leaves, None, Some(new));
        }
        let old = array_rec(alloc, owner, &members.0)?;
        self.tree.replace(alloc, leaves, Some(old), Some(new))
    }

    // The pairs of the link whose rows these records are. `None`: they are those of no link.
    fn told(&self, alloc: Global, found: &Recs) -> Result<Option<Pairs>, NoMemory>
        requires valid { IsArray M.rule (tree_of self.now.tree.now) self.now.member }
        requires found { (r : Record) → In r found.now →
            IsOf (tree_form M.rule (tree_of self.now.tree.now)) r }
        ensures { IfOk result
            (IsTold (owner_kind M.rule (tree_of self.now.tree.now)) self.now.member array_rows
            (two_parts found.now [])) }
    {
        let Some(owners) = cut_owners(alloc, self.member, found)? else {
            return Ok(None);
        };
        let pairs = pairs_by_member(alloc, owners)?;
        if is_each_once(&pairs.0) {
            Ok(Some(pairs))
        } else {
            Ok(None)
        }
    }
}
