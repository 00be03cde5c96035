// What two nodes hold.
ghost use Rattle.std.specs.Prelude.{◌<◌, ℕ, length, IfOk};
ghost use Rattle.gx_ports.specs.Calls.{ReadsMaps};
ghost use Rattle.gx_mapping.specs.Rule.{In};
ghost use Rattle.gx_stack.specs.Tree.{leaves_of, IsValid};
ghost use Rattle.gx_stack.specs.Seen.{tree_of};
ghost use Rattle.gx_stack.specs.Held.{AreCounts};
ghost use Rattle.gx_links.specs.Pairs.{AreBothHeld};

use gx_gather::Recs;
use gx_mapping::Mapping;
use gx_ports::{Leaves, Stop};
use gx_stack::Node;
use std::alloc::Global;

/// The records that the leaves of two nodes hold, in the order of their keys. `None`: those of one
/// of the nodes hold no set of records. It ends, and counts the entries of leaves, as `held` of a
/// node.
pub fn held_both<M: Mapping, B: Leaves>(
    alloc: Global,
    leaves: &mut B,
    first: &Node<M>,
    second: &Node<M>,
    counts: &mut [Option<usize>],
) -> Result<Option<(Recs, Recs)>, Stop>
    requires first_valid { IsValid M.rule (tree_of first.now) }
    requires second_valid { IsValid M.rule (tree_of second.now) }
    requires first_below { (n : ℕ) → In n (leaves_of (tree_of first.now)) →
        n < length (B.working leaves.old) }
    requires second_below { (n : ℕ) → In n (leaves_of (tree_of second.now)) →
        n < length (B.working leaves.old) }
    ensures held { IfOk result
        (AreBothHeld M.rule (tree_of first.now) (tree_of second.now) (B.whole leaves.old)
        (B.working leaves.old)) }
    ensures counts { B.whole leaves.old → AreCounts (B.working leaves.old) counts.old →
        AreCounts (B.working leaves.old) counts.new }
    ensures reads { ReadsMaps B.View (B.whole leaves.old) leaves.old leaves.new result }
{
    let Some(one) = first.held(alloc, leaves, counts)? else {
        return Ok(None);
    };
    let Some(two) = second.held(alloc, leaves, counts)? else {
        return Ok(None);
    };
    Ok(Some((one, two)))
}
