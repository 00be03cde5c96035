// Whether the leaves of a node hold a set of records.
ghost use Rattle.std.specs.Prelude.{◌≡◌, ◌<◌, ◌≤◌, ◌+◌, ℕ, true, false, Ok, length, IfOk, OnOk};
ghost use Rattle.std.specs.List.{sum_by};
ghost use Rattle.std.specs.FinMap.{len};
ghost use Rattle.gx_ports.specs.LeafMaps.{map_at};
ghost use Rattle.gx_ports.specs.Calls.{ReadsMaps};
ghost use Rattle.gx_mapping.specs.Rule.{In};
ghost use Rattle.gx_stack.specs.Tree.{leaves_of, IsValid};
ghost use Rattle.gx_stack.specs.Seen.{tree_of};
ghost use Rattle.gx_stack.specs.Internal.{HasSet};
ghost use Rattle.gx_stack.specs.Held.{IsHeld, AreCounts};

use crate::held::{held_leaf, join_parts};
use crate::node::Node;
use gx_gather::{Recs, add_parts};
use gx_mapping::{Mapping, Parts};
use gx_ports::{Leaves, Stop};
use std::alloc::Global;

impl<M: Mapping> Node<M> {
    /// Whether the leaves hold a set of records. Each leaf is read once at most, which takes a step
    /// for it and one for each of its entries.
    ///
    /// `Damaged`: some leaf's stored form isn't whole. `Fault`: the count of faults rose; with any
    /// other answer it stays. `NoMemory`: there was none.
    pub fn sound<B: Leaves>(&self, alloc: Global, leaves: &mut B) -> Result<bool, Stop>
        requires valid { IsValid M.rule (tree_of self.now) }
        requires below { (n : ℕ) → In n (leaves_of (tree_of self.now)) →
            n < length (B.working leaves.old) }
        ensures yes { result ≡ Ok true → B.whole leaves.old →
            HasSet M.rule (tree_of self.now) (B.working leaves.old) }
        ensures no { result ≡ Ok false → B.whole leaves.old →
            ¬ HasSet M.rule (tree_of self.now) (B.working leaves.old) }
        ensures few_steps { B.whole leaves.old → OnOk result
            (B.work leaves.new
            ≤ B.work leaves.old
            + sum_by (λ n. 1 + len (map_at (B.working leaves.old) n))
            (leaves_of (tree_of self.now))) }
        ensures reads { ReadsMaps B.View (B.whole leaves.old) leaves.old leaves.new result }
    {
        Ok(self.held(alloc, leaves, &mut [])?.is_some())
    }

    /// The records that the leaves hold, in the order of their keys. `None`: they hold no set of
    /// records. Each leaf is read once at most, and it ends as `sound` does. Where `counts` has a
    /// place for the number of a leaf that it reads, it notes there how many entries the leaf has.
    pub fn held<B: Leaves>(
        &self,
        alloc: Global,
        leaves: &mut B,
        counts: &mut [Option<usize>],
    ) -> Result<Option<Recs>, Stop>
        requires valid { IsValid M.rule (tree_of self.now) }
        requires below { (n : ℕ) → In n (leaves_of (tree_of self.now)) →
            n < length (B.working leaves.old) }
        ensures held { IfOk result
            (IsHeld M.rule (tree_of self.now) (B.whole leaves.old) (B.working leaves.old)) }
        ensures counts { B.whole leaves.old → AreCounts (B.working leaves.old) counts.old →
            AreCounts (B.working leaves.old) counts.new }
        ensures few_steps { B.whole leaves.old → OnOk result
            (B.work leaves.new
            ≤ B.work leaves.old
            + sum_by (λ n. 1 + len (map_at (B.working leaves.old) n))
            (leaves_of (tree_of self.now))) }
        ensures reads { ReadsMaps B.View (B.whole leaves.old) leaves.old leaves.new result }
    {
        match self {
            Node::Leaf(node) => held_leaf(alloc, leaves, node.leaf, &node.form, counts),
            Node::Layer(layer) => {
                let mut main = Parts(Vec::new(alloc));
                let mut others = Parts(Vec::new(alloc));
                for child in 0..layer.mapping.kids() {
                    let kid = &layer.kids[child as usize];
                    let Some(found) = kid.held(alloc, leaves, counts)? else {
                        return Ok(None);
                    };
                    if layer.mapping.holds_rest(child) {
                        add_parts(child, found, &mut main)?;
                    } else {
                        add_parts(child, found, &mut others)?;
                    }
                }
                join_parts(alloc, &layer.mapping, main, &others)
            }
        }
    }
}
