// Inverted lists.
ghost use Rattle.std.specs.Prelude.{◌<◌, ℕ, length, IfOk};
ghost use Rattle.gx_values.specs.declared.records.Rec.{Rec as Record};
ghost use Rattle.gx_values.specs.Values.{Fits};
ghost use Rattle.gx_ports.specs.Calls.{ReadsMaps};
ghost use Rattle.gx_mapping.specs.Rule.{In, IsOf};
ghost use Rattle.gx_stack.specs.Tree.{tree_form};
ghost use Rattle.gx_stack.specs.Seen.{tree_of};
ghost use Rattle.gx_links.specs.Linksets.{HasLink};
ghost use Rattle.gx_links.specs.Joins.{Joins};
ghost use Rattle.gx_links.specs.Pairs.{IsTold, two_parts};
ghost use Rattle.gx_links.specs.Rows.{IsHeldLink, two_nodes, owner_kind, member_kind};
ghost use Rattle.gx_lists.specs.Counts.{IsMemberCount};
ghost use Rattle.gx_lists.specs.Inverted.{inverted_rows, IsInverted, inverted_rule};

use crate::counts::count_within;
use crate::records::{add_members, inverted_rows, owned_rec, owner_of, pair_rec};
use gx_gather::Recs;
use gx_links::{
    Change, Joining, Linkset, MOST_MEMBERS, Pairs, held_both, owners_of, pairs_at, pairs_of_rows,
    replace_both, value_span,
};
use gx_mapping::Mapping;
use gx_ports::{Leaves, Stop};
use gx_stack::Node;
use gx_values::{NoMemory, Value, Values};
use std::alloc::Global;

/// An inverted list: a link in two nodes, each pair once under its owner and once under its member.
#[derive(Drop)]
pub struct Inverted<'a, M: Mapping> {
    /// a record of each pair under its owner and then its member, without data
    pub down: &'a Node<M>,
    /// a record of each member, with its owner
    pub up: &'a Node<M>,
}

impl<'a, M: Mapping> Linkset for Inverted<'a, M> {
    ghost use Rattle.gx_stack.specs.Seen.{tree_of};
    ghost use Rattle.gx_links.specs.Rows.{IsHeldLink, two_nodes};
    ghost use Rattle.gx_lists.specs.Inverted.{inverted_rows, inverted_rule, IsInverted};
    ghost use Rattle.gx_lists.specs.InvertedLaws.{inverted_laws};

    ghost rule = { λ l. inverted_rule M.rule (tree_of l.down.now) (tree_of l.up.now) };

    ghost held = { λ l. IsHeldLink M.rule (two_nodes (tree_of l.down.now) (tree_of l.up.now))
        inverted_rows };

    ghost valid = { λ l. IsInverted M.rule (tree_of l.down.now) (tree_of l.up.now) };

    ghost laws = { λ l valid. inverted_laws M.rule M.laws (tree_of l.down.now) (tree_of l.up.now)
        valid };

    fn finds(&self) -> bool {
        true
    }

    fn members<B: Leaves>(
        &self,
        alloc: Global,
        leaves: &mut B,
        owner: &Value,
        out: &mut Values,
    ) -> Result<(), Stop> {
        let mut found = Recs::new(alloc);
        let span = value_span(self.down.form(), owner);
        self.down.select(alloc, leaves, &span, &mut found)?;
        add_members(found, out)?;
        Ok(())
    }

    fn owner<B: Leaves>(
        &self,
        alloc: Global,
        leaves: &mut B,
        member: &Value,
    ) -> Result<Option<Value>, Stop> {
        let mut found = Recs::new(alloc);
        let span = value_span(self.up.form(), member);
        self.up.select(alloc, leaves, &span, &mut found)?;
        Ok(owner_of(found))
    }

    fn connect<B: Leaves>(
        &self,
        alloc: Global,
        leaves: &mut B,
        owner: &Value,
        member: &Value,
    ) -> Result<Joining, Stop> {
        if self.count_members(alloc, leaves, owner)? >= MOST_MEMBERS {
            return Ok(Joining::NoRoom);
        }
        self.put_pair(alloc, leaves, owner, member)?;
        Ok(Joining::Joined)
    }

    fn disconnect_from<B: Leaves>(
        &self,
        alloc: Global,
        leaves: &mut B,
        owner: &Value,
        member: &Value,
    ) -> Result<(), Stop> {
        let pair = Change::coming(pair_rec(alloc, owner, member)?).reversed();
        let owned = Change::coming(owned_rec(alloc, owner, member)?).reversed();
        replace_both(alloc, leaves, self.down, pair, self.up, owned)
    }

    fn pairs<B: Leaves>(
        &self,
        alloc: Global,
        leaves: &mut B,
        counts: &mut [Option<usize>],
    ) -> Result<Option<Pairs>, Stop> {
        let Some((down, up)) = held_both(alloc, leaves, self.down, self.up, counts)? else {
            return Ok(None);
        };
        Ok(self.told(alloc, down, up)?)
    }
}

impl<'a, M: Mapping> Inverted<'a, M> {
    // How many members an owner has.
    fn count_members<B: Leaves>(
        &self,
        alloc: Global,
        leaves: &mut B,
        owner: &Value,
    ) -> Result<usize, Stop>
        requires valid { IsInverted M.rule (tree_of self.now.down.now) (tree_of self.now.up.now) }
        requires below { (n : ℕ) →
            In n (inverted_rule M.rule (tree_of self.now.down.now)
            (tree_of self.now.up.now)).leaves →
            n < length (B.working leaves.old) }
        requires owner { Fits (owner_kind M.rule (tree_of self.now.down.now)) owner.now }
        ensures count { IfOk result
            (IsMemberCount
            (inverted_rule M.rule (tree_of self.now.down.now) (tree_of self.now.up.now))
            (IsHeldLink M.rule (two_nodes (tree_of self.now.down.now) (tree_of self.now.up.now))
            inverted_rows)
            (B.whole leaves.old) (B.working leaves.old) owner.now (B.work leaves.old)
            (B.work leaves.new)) }
        ensures reads { ReadsMaps B.View
            (B.whole leaves.old
            × HasLink (inverted_rule M.rule (tree_of self.now.down.now) (tree_of self.now.up.now))
            (IsHeldLink M.rule (two_nodes (tree_of self.now.down.now) (tree_of self.now.up.now))
            inverted_rows)
            (B.working leaves.old))
            leaves.old leaves.new result }
    {
        let span = value_span(self.down.form(), owner);
        count_within(alloc, leaves, self.down, &span)
    }

    // Puts the pair of a member without an owner into both nodes.
    fn put_pair<B: Leaves>(
        &self,
        alloc: Global,
        leaves: &mut B,
        owner: &Value,
        member: &Value,
    ) -> Result<(), Stop>
        requires valid { IsInverted M.rule (tree_of self.now.down.now) (tree_of self.now.up.now) }
        requires below { (n : ℕ) →
            In n (inverted_rule M.rule (tree_of self.now.down.now)
            (tree_of self.now.up.now)).leaves →
            n < length (B.working leaves.old) }
        requires owner { Fits (owner_kind M.rule (tree_of self.now.down.now)) owner.now }
        requires member { Fits (member_kind M.rule (tree_of self.now.up.now)) member.now }
        ensures { Joins B.View
            (inverted_rule M.rule (tree_of self.now.down.now) (tree_of self.now.up.now))
            (IsHeldLink M.rule (two_nodes (tree_of self.now.down.now) (tree_of self.now.up.now))
            inverted_rows)
            owner.now member.now (λ link. Unit {0}) leaves.old leaves.new result }
    {
        let pair = Change::coming(pair_rec(alloc, owner, member)?);
        let owned = Change::coming(owned_rec(alloc, owner, member)?);
        replace_both(alloc, leaves, self.down, pair, self.up, owned)
    }

    // The pairs of the link whose rows these records of the two nodes are. `None`: they are those
    // of no link.
    fn told(&self, alloc: Global, down: Recs, up: Recs) -> Result<Option<Pairs>, NoMemory>
        requires valid { IsInverted M.rule (tree_of self.now.down.now) (tree_of self.now.up.now) }
        requires up { (r : Record) → In r up → IsOf (tree_form M.rule (tree_of self.now.up.now)) r }
        ensures { IfOk result
            (IsTold (owner_kind M.rule (tree_of self.now.down.now))
            (member_kind M.rule (tree_of self.now.up.now)) inverted_rows (two_parts down up)) }
    {
        let pairs = pairs_at(alloc, &up, 0)?;
        let owners = owners_of(alloc, &pairs)?;
        let rows = inverted_rows(alloc, &owners)?;
        pairs_of_rows(alloc, pairs, &owners, rows, down, up)
    }
}
