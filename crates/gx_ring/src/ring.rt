// The ring.
ghost use Rattle.std.specs.Prelude.{◌≡◌, ◌<◌, ℕ, length, IfOk, OnOk};
ghost use Rattle.gx_values.specs.declared.records.Rec.{Rec as Record};
ghost use Rattle.gx_values.specs.declared.values.Value.{Value as FieldValue};
ghost use Rattle.gx_values.specs.Values.{Fits};
ghost use Rattle.gx_ports.specs.LeafMaps.{Extends};
ghost use Rattle.gx_ports.specs.Calls.{ReadsMaps};
ghost use Rattle.gx_mapping.specs.Rule.{In, IsOf};
ghost use Rattle.gx_stack.specs.Tree.{leaves_of, tree_form};
ghost use Rattle.gx_stack.specs.Seen.{tree_of};
ghost use Rattle.std.specs.Option.{option_map};
ghost use Rattle.gx_stack.specs.Internal.{IfThere};
ghost use Rattle.gx_links.specs.Links.{members_of};
ghost use Rattle.gx_links.specs.Joins.{Joins};
ghost use Rattle.gx_links.specs.Pairs.{IsTold, two_parts};
ghost use Rattle.gx_links.specs.Rows.{IsHeldLink, two_nodes, owner_kind, member_kind};
ghost use Rattle.gx_ring.specs.Ring.{ring_rows, ring_rule, IsRing};
ghost use Rattle.gx_ring.specs.Records.{IsKeyValue};
ghost use Rattle.gx_ring.specs.Steps.{leading, lead_change, own_change};
ghost use Rattle.gx_ring.specs.Walks.{HasMember, HasChain, IsNext, AreWalked};

use crate::places::{Neighbours, neighbours_of};
use crate::reads::record_at;
use crate::records::{Behind, chain_rec, head_if, head_rec, read_behind, take_field};
use crate::rows::ring_rows;
use gx_gather::{NO_BLOCK, Recs};
use gx_links::{
    Change, Joining, Linkset, MOST_MEMBERS, Pairs, held_both, owners_of, pairs_at, pairs_of_rows,
    replace_both, without,
};
use gx_mapping::Mapping;
use gx_ports::{Leaves, Stop};
use gx_stack::Node;
use gx_values::{Kind, NoMemory, Value, Values};
use std::alloc::Global;

/// A ring: a link in two nodes. An owner leads to its first member, and each member to the next.
#[derive(Drop)]
pub struct Ring<'a, M: Mapping> {
    /// a record of each owner that has a member, with the first of them
    pub heads: &'a Node<M>,
    /// a record of each member, with the next one and the owner
    pub chain: &'a Node<M>,
}

impl<'a, M: Mapping> Linkset for Ring<'a, M> {
    ghost use Rattle.gx_stack.specs.Seen.{tree_of};
    ghost use Rattle.gx_links.specs.Rows.{IsHeldLink, two_nodes};
    ghost use Rattle.gx_ring.specs.Ring.{ring_rows, ring_rule, IsRing};
    ghost use Rattle.gx_ring.specs.RingLaws.{ring_laws};

    ghost rule = { λ l. ring_rule M.rule (tree_of l.heads.now) (tree_of l.chain.now) };

    ghost held = { λ l. IsHeldLink M.rule (two_nodes (tree_of l.heads.now) (tree_of l.chain.now))
        ring_rows };

    ghost valid = { λ l. IsRing M.rule (tree_of l.heads.now) (tree_of l.chain.now) };

    ghost laws = { λ l valid. ring_laws M.rule M.laws (tree_of l.heads.now) (tree_of l.chain.now)
        valid };

    fn finds(&self) -> bool {
        true
    }

    fn members<B: Leaves>(
        &self,
        alloc: Global,
        leaves: &mut B,
        owner: &Value,
        out: &mut Values,
    ) -> Result<(), Stop> {
        match record_at(alloc, leaves, self.heads, owner)? {
            Some(head) => self.walk(alloc, leaves, take_field(head, 0), out),
            None => Ok(()),
        }
    }

    fn owner<B: Leaves>(
        &self,
        alloc: Global,
        leaves: &mut B,
        member: &Value,
    ) -> Result<Option<Value>, Stop> {
        match record_at(alloc, leaves, self.chain, member)? {
            Some(rec) => Ok(Some(take_field(rec, 2))),
            None => Ok(None),
        }
    }

    fn connect<B: Leaves>(
        &self,
        alloc: Global,
        leaves: &mut B,
        owner: &Value,
        member: &Value,
    ) -> Result<Joining, Stop> {
        let mut members = Values(Vec::new(alloc));
        self.members(alloc, leaves, owner, &mut members)?;
        if members.0.len() >= MOST_MEMBERS {
            return Ok(Joining::NoRoom);
        }
        self.put_among(alloc, leaves, owner, member, &members)?;
        Ok(Joining::Joined)
    }

    fn disconnect_from<B: Leaves>(
        &self,
        alloc: Global,
        leaves: &mut B,
        owner: &Value,
        member: &Value,
    ) -> Result<(), Stop> {
        let mut members = Values(Vec::new(alloc));
        self.members(alloc, leaves, owner, &mut members)?;
        let others = without(members, member);
        let at = neighbours_of(&others.0, member);
        let own = own_change(alloc, owner, member, at)?.reversed();
        let lead = lead_change(alloc, owner, member, at)?.reversed();
        replace_both(alloc, leaves, self.chain, own, self.leading(at), lead)
    }

    fn pairs<B: Leaves>(
        &self,
        alloc: Global,
        leaves: &mut B,
        counts: &mut [Option<usize>],
    ) -> Result<Option<Pairs>, Stop> {
        let Some((heads, chain)) = held_both(alloc, leaves, self.heads, self.chain, counts)? else {
            return Ok(None);
        };
        Ok(self.told(alloc, heads, chain)?)
    }
}

impl<'a, M: Mapping> Ring<'a, M> {
    // Puts a member without an owner among the owner's members so far.
    fn put_among<B: Leaves>(
        &self,
        alloc: Global,
        leaves: &mut B,
        owner: &Value,
        member: &Value,
        members: &Values,
    ) -> Result<(), Stop>
        requires valid { IsRing M.rule (tree_of self.now.heads.now) (tree_of self.now.chain.now) }
        requires below { (n : ℕ) →
            In n (ring_rule M.rule (tree_of self.now.heads.now)
            (tree_of self.now.chain.now)).leaves →
            n < length (B.working leaves.old) }
        requires owner { Fits (owner_kind M.rule (tree_of self.now.heads.now)) owner.now }
        requires member { Fits (member_kind M.rule (tree_of self.now.chain.now)) member.now }
        requires members { (m : FieldValue) → In m members.now →
            Fits (member_kind M.rule (tree_of self.now.chain.now)) m }
        requires room { length members.now < MOST_MEMBERS }
        ensures { Joins B.View
            (ring_rule M.rule (tree_of self.now.heads.now) (tree_of self.now.chain.now))
            (IsHeldLink M.rule (two_nodes (tree_of self.now.heads.now) (tree_of self.now.chain.now))
            ring_rows)
            owner.now member.now (λ link. members.now ≡ members_of link owner.now)
            leaves.old leaves.new result }
    {
        let at = neighbours_of(&members.0, member);
        let lead = lead_change(alloc, owner, member, at)?;
        let own = own_change(alloc, owner, member, at)?;
        replace_both(alloc, leaves, self.leading(at), lead, self.chain, own)
    }

    // Appends the members from this one on.
    fn walk<B: Leaves>(
        &self,
        alloc: Global,
        leaves: &mut B,
        first: Value,
        out: &mut Values,
    ) -> Result<(), Stop>
        requires valid { IsRing M.rule (tree_of self.now.heads.now) (tree_of self.now.chain.now) }
        requires below { (n : ℕ) → In n (leaves_of (tree_of self.now.chain.now)) →
            n < length (B.working leaves.old) }
        requires first { Fits (member_kind M.rule (tree_of self.now.chain.now)) first }
        ensures walked { OnOk result
            (AreWalked M.rule (tree_of self.now.heads.now) (tree_of self.now.chain.now)
            (B.whole leaves.old) (B.working leaves.old) first (B.work leaves.old)
            (B.work leaves.new) out.old out.new) }
        ensures front { Extends out.old out.new }
        ensures reads { ReadsMaps B.View
            (B.whole leaves.old
            × HasChain M.rule (tree_of self.now.heads.now) (tree_of self.now.chain.now)
            (B.working leaves.old) first)
            leaves.old leaves.new result }
    {
        let mut at = first;
        for _step in 0..MOST_MEMBERS {
            let next = self.next_of(alloc, leaves, &at)?;
            out.0.push(at)?;
            match next {
                Some(next) => at = next,
                None => return Ok(()),
            }
        }
        Err(Stop::Damaged(NO_BLOCK))
    }

    // The member behind another one. `None`: that one is the last.
    fn next_of<B: Leaves>(
        &self,
        alloc: Global,
        leaves: &mut B,
        member: &Value,
    ) -> Result<Option<Value>, Stop>
        requires valid { IsRing M.rule (tree_of self.now.heads.now) (tree_of self.now.chain.now) }
        requires below { (n : ℕ) → In n (leaves_of (tree_of self.now.chain.now)) →
            n < length (B.working leaves.old) }
        requires member { Fits (member_kind M.rule (tree_of self.now.chain.now)) member.now }
        ensures found { IfOk result
            (IsNext M.rule (tree_of self.now.heads.now) (tree_of self.now.chain.now)
            (B.whole leaves.old) (B.working leaves.old) member.now (B.work leaves.old)
            (B.work leaves.new)) }
        ensures reads { ReadsMaps B.View
            (B.whole leaves.old
            × HasMember M.rule (tree_of self.now.heads.now) (tree_of self.now.chain.now)
            (B.working leaves.old) member.now)
            leaves.old leaves.new result }
    {
        let Some(rec) = record_at(alloc, leaves, self.chain, member)? else {
            return Err(Stop::Damaged(NO_BLOCK));
        };
        match read_behind(alloc, self.member_kind(), &rec)? {
            Behind::Member(next) => Ok(Some(next)),
            Behind::Nothing => Ok(None),
            Behind::Unknown => Err(Stop::Damaged(NO_BLOCK)),
        }
    }

    // The pairs of the link whose rows these records of the two nodes are. `None`: they are those
    // of no link.
    fn told(&self, alloc: Global, heads: Recs, chain: Recs) -> Result<Option<Pairs>, NoMemory>
        requires valid { IsRing M.rule (tree_of self.now.heads.now) (tree_of self.now.chain.now) }
        requires chain { (r : Record) → In r chain →
            IsOf (tree_form M.rule (tree_of self.now.chain.now)) r }
        ensures { IfOk result
            (IsTold (owner_kind M.rule (tree_of self.now.heads.now))
            (member_kind M.rule (tree_of self.now.chain.now)) ring_rows (two_parts heads chain)) }
    {
        let pairs = pairs_at(alloc, &chain, 2)?;
        let owners = owners_of(alloc, &pairs)?;
        let rows = ring_rows(alloc, &owners)?;
        pairs_of_rows(alloc, pairs, &owners, rows, heads, chain)
    }

    // The kind of the members' keys.
    fn member_kind(&self) -> Kind
        requires { IsRing M.rule (tree_of self.now.heads.now) (tree_of self.now.chain.now) }
        ensures { result ≡ member_kind M.rule (tree_of self.now.chain.now) }
    {
        self.chain.form().keys.0[0].kind
    }

    // The node with the record that leads to a member.
    fn leading(&self, at: Neighbours) -> &'a Node<M>
        ensures { tree_of result.now
            ≡ leading (tree_of self.now.heads.now) (tree_of self.now.chain.now)
            (option_map (λ v. v.now) at.entry.before) }
    {
        match at.before {
            Some(_) => self.chain,
            None => self.heads,
        }
    }
}

// What a member that comes makes of the record that leads to it.
fn lead_change(
    alloc: Global,
    owner: &Value,
    member: &Value,
    at: Neighbours,
) -> Result<Change, NoMemory>
    requires owner { IsKeyValue owner.now }
    requires member { IsKeyValue member.now }
    requires next { IfThere (option_map (λ v. v.now) at.next) IsKeyValue }
    ensures { IfOk result (λ change. change
        ≡ lead_change owner.now member.now (option_map (λ v. v.now) at.entry.before)
        (option_map (λ v. v.now) at.entry.next)) }
{
    match at.before {
        Some(before) => Ok(Change {
            old: Some(chain_rec(alloc, owner, before, at.next)?),
            new: Some(chain_rec(alloc, owner, before, Some(member))?),
        }),
        None => Ok(Change {
            old: head_if(alloc, owner, at.next)?,
            new: Some(head_rec(alloc, owner, member)?),
        }),
    }
}

// A member that comes gets its record.
fn own_change(
    alloc: Global,
    owner: &Value,
    member: &Value,
    at: Neighbours,
) -> Result<Change, NoMemory>
    requires owner { IsKeyValue owner.now }
    requires next { IfThere (option_map (λ v. v.now) at.next) IsKeyValue }
    ensures { IfOk result (λ change. change
        ≡ own_change owner.now member.now (option_map (λ v. v.now) at.entry.next)) }
{
    Ok(Change::coming(chain_rec(alloc, owner, member, at.next)?))
}
