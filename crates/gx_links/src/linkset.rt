// The trait of the linksets.
ghost use Rattle.std.specs.Prelude.{◌≡◌, ◌<◌, ◌≤◌, ◌+◌, ℕ, List, length, IfOk, OnOk, IsErrOf};
ghost use Rattle.std.specs.FinMap.{insert, remove};
ghost use Rattle.gx_values.specs.Values.{Fits};
ghost use Rattle.gx_ports.specs.LeafMaps.{LeafMap, map_at, entry_count, Extends, IsCrowdedBy};
ghost use Rattle.gx_ports.specs.Calls.{Keeps, ReadsMaps, Ends};
ghost use Rattle.gx_mapping.specs.Rule.{In};
ghost use Rattle.gx_stack.specs.Held.{AreCounts};
ghost use Rattle.gx_links.specs.Links.{Link, members_of};
ghost use Rattle.gx_links.specs.Pairs.{ArePairs};
ghost use Rattle.gx_links.specs.Linksets.{LinkRule, LinksetLaws, HasLink, AreMembers, IsOwner, CanConnect, HasRoom, IsJoined, CanDisconnect, steps_for};

use crate::pairs::Pairs;
use gx_ports::{Leaves, Stop};
use gx_values::{Value, Values};
use std::alloc::Global;

/// What became of a member that was to join an owner.
#[derive(Clone, Copy, Debug, PartialEq, Eq)]
pub enum Joining {
    /// it is one of the owner's members
    Joined,
    /// the owner has `MOST_MEMBERS` other members
    NoRoom,
}

/// What keeps a link in nodes: of each member it knows the owner, if there is one, and of each
/// owner the members.
///
/// Members and owners are keys of one value. What the nodes' leaves hold is said by `held`, for
/// leaves that are whole. Refusals of all calls: `Damaged`, some leaf's stored form isn't whole, or
/// the leaves hold no link, which is said of block 0. `Fault`: the count of faults rose; with any
/// other answer it stays.
/// `NoMemory`: there was none.
pub trait Linkset {
    /// What contracts see of a linkset.
    ghost rule: { Self → LinkRule };

    /// Which maps stand for a link.
    ghost held: { Self → Link → List LeafMap → Type 0 };

    /// The nodes are valid, have the forms that the linkset needs, and share no leaf.
    ghost valid: { Self → Type 0 };

    /// Whether an owner is found without reading all of the link.
    fn finds(&self) -> bool
        ensures { result ≡ (rule self.now).finds };

    /// Appends the members of an owner, in ascending order. After a refusal `out` may have more at
    /// its end.
    fn members<B: Leaves>(
        &self,
        alloc: Global,
        leaves: &mut B,
        owner: &Value,
        out: &mut Values,
    ) -> Result<(), Stop>
        requires valid { valid self.now }
        requires below { (n : ℕ) → In n (rule self.now).leaves → n < length (B.working leaves.old) }
        requires owner { Fits (rule self.now).owner owner.now }
        ensures found { OnOk result
            (AreMembers (rule self.now) (held self.now) (B.whole leaves.old)
            (B.working leaves.old) owner.now (B.work leaves.old) (B.work leaves.new) out.old
            out.new) }
        ensures front { Extends out.old out.new }
        ensures reads { ReadsMaps B.View
            (B.whole leaves.old × HasLink (rule self.now) (held self.now) (B.working leaves.old))
            leaves.old leaves.new result };

    /// The owner of a member. `None`: it has none.
    fn owner<B: Leaves>(
        &self,
        alloc: Global,
        leaves: &mut B,
        member: &Value,
    ) -> Result<Option<Value>, Stop>
        requires valid { valid self.now }
        requires below { (n : ℕ) → In n (rule self.now).leaves → n < length (B.working leaves.old) }
        requires member { Fits (rule self.now).member member.now }
        ensures found { IfOk result
            (IsOwner (rule self.now) (held self.now) (B.whole leaves.old) (B.working leaves.old)
            member.now (B.work leaves.old) (B.work leaves.new)) }
        ensures reads { ReadsMaps B.View
            (B.whole leaves.old × HasLink (rule self.now) (held self.now) (B.working leaves.old))
            leaves.old leaves.new result };

    /// Gives a member without an owner its owner, where that has room for it: it has fewer than
    /// `MOST_MEMBERS` members.
    ///
    /// `Full`: the pages may not be enough for the entries of the owner with its new member,
    /// besides all that there are. After a refusal a part of the change may be made.
    fn connect<B: Leaves>(
        &self,
        alloc: Global,
        leaves: &mut B,
        owner: &Value,
        member: &Value,
    ) -> Result<Joining, Stop>
        requires valid { valid self.now }
        requires below { (n : ℕ) → In n (rule self.now).leaves → n < length (B.working leaves.old) }
        requires owner { Fits (rule self.now).owner owner.now }
        requires member { Fits (rule self.now).member member.now }

        // The leaves hold the link with the pair where the owner had room, and all other leaves
        // stay.
        ensures joined { (link : Link) → B.whole leaves.old →
            CanConnect (rule self.now) (held self.now) (B.working leaves.old) link member.now →
            IfOk result
            (IsJoined (held self.now) (B.working leaves.new) link owner.now member.now) }
        ensures steps { (link : Link) → B.whole leaves.old →
            CanConnect (rule self.now) (held self.now) (B.working leaves.old) link member.now →
            OnOk result (B.work leaves.new
            ≤ B.work leaves.old + steps_for (rule self.now) link owner.now) }
        ensures others { (n : ℕ) → B.whole leaves.old → ¬ IsErrOf result Stop.Fault →
            ¬ In n (rule self.now).leaves →
            map_at (B.working leaves.new) n ≡ map_at (B.working leaves.old) n }

        ensures keeps { Keeps B.View leaves.old leaves.new }
        ensures ends { Ends B.View
            (B.whole leaves.old × HasLink (rule self.now) (held self.now) (B.working leaves.old))
            leaves.old leaves.new result }
        ensures block { (n : ℕ) → IsErrOf result (Stop.Damaged n) → B.whole leaves.old → n ≡ 0 }
        ensures full { (link : Link) → B.whole leaves.old →
            CanConnect (rule self.now) (held self.now) (B.working leaves.old) link member.now →
            IsErrOf result Stop.Full → HasRoom link owner.now
            × IsCrowdedBy (B.limit leaves.old)
            (entry_count (B.working leaves.old)
            + length ((rule self.now).entries owner.now
            (members_of (insert link member.now owner.now) owner.now))) };

    /// Takes a member from its owner.
    ///
    /// `Full`: the pages may not be enough for the entries of the owner without the member, besides
    /// all that there are. After a refusal a part of the change may be made.
    fn disconnect_from<B: Leaves>(
        &self,
        alloc: Global,
        leaves: &mut B,
        owner: &Value,
        member: &Value,
    ) -> Result<(), Stop>
        requires valid { valid self.now }
        requires below { (n : ℕ) → In n (rule self.now).leaves → n < length (B.working leaves.old) }
        requires owner { Fits (rule self.now).owner owner.now }
        requires member { Fits (rule self.now).member member.now }

        // The leaves hold the link without the pair, and all other leaves stay.
        ensures disconnected { (link : Link) → B.whole leaves.old →
            CanDisconnect (rule self.now) (held self.now) (B.working leaves.old) link owner.now
            member.now → OnOk result
            (held self.now (remove link member.now) (B.working leaves.new)) }
        ensures others { (n : ℕ) → B.whole leaves.old → ¬ IsErrOf result Stop.Fault →
            ¬ In n (rule self.now).leaves →
            map_at (B.working leaves.new) n ≡ map_at (B.working leaves.old) n }

        ensures keeps { Keeps B.View leaves.old leaves.new }
        ensures ends { Ends B.View
            (B.whole leaves.old × HasLink (rule self.now) (held self.now) (B.working leaves.old))
            leaves.old leaves.new result }
        ensures block { (n : ℕ) → IsErrOf result (Stop.Damaged n) → B.whole leaves.old → n ≡ 0 }
        ensures full { (link : Link) → B.whole leaves.old →
            CanDisconnect (rule self.now) (held self.now) (B.working leaves.old) link owner.now
            member.now → IsErrOf result Stop.Full → IsCrowdedBy (B.limit leaves.old)
            (entry_count (B.working leaves.old)
            + length ((rule self.now).entries owner.now
            (members_of (remove link member.now) owner.now))) };

    /// All pairs of the link, each a member with its owner, in the order of the members. `None`:
    /// the leaves hold no link. `Damaged`: some leaf's stored form isn't whole. The entries of each
    /// leaf that is read are counted, as by `held` of a node.
    fn pairs<B: Leaves>(
        &self,
        alloc: Global,
        leaves: &mut B,
        counts: &mut [Option<usize>],
    ) -> Result<Option<Pairs>, Stop>
        requires valid { valid self.now }
        requires below { (n : ℕ) → In n (rule self.now).leaves → n < length (B.working leaves.old) }
        ensures pairs { IfOk result
            (ArePairs (rule self.now) (held self.now) (B.whole leaves.old)
            (B.working leaves.old)) }
        ensures counts { B.whole leaves.old → AreCounts (B.working leaves.old) counts.old →
            AreCounts (B.working leaves.old) counts.new }
        ensures reads { ReadsMaps B.View (B.whole leaves.old) leaves.old leaves.new result };

    /// What is true of each linkset.
    ghost laws: { (l : Self) → valid l → LinksetLaws (rule l) (held l) };
}
