// Records of a node, counted.
ghost use Rattle.std.specs.Prelude.{◌<◌, ℕ, length, IfOk};
ghost use Rattle.gx_ports.specs.Calls.{ReadsMaps};
ghost use Rattle.gx_mapping.specs.Rule.{In};
ghost use Rattle.gx_stack.specs.Tree.{leaf, leaves_of, tree_form, IsValid};
ghost use Rattle.gx_stack.specs.Seen.{tree_of};
ghost use Rattle.gx_stack.specs.Internal.{HasSet};
ghost use Rattle.gx_stack.specs.Selected.{IsKeySpan};
ghost use Rattle.gx_lists.specs.Counts.{IsCount};

use gx_gather::Recs;
use gx_mapping::Mapping;
use gx_ports::{Entries, Leaves, Stop};
use gx_stack::Node;
use gx_values::Span;
use std::alloc::Global;

// How many records have their key inside the span. Those of a leaf are counted without being made.
pub fn count_within<M: Mapping, B: Leaves>(
    alloc: Global,
    leaves: &mut B,
    node: &Node<M>,
    span: &Span,
) -> Result<usize, Stop>
    requires valid { IsValid M.rule (tree_of node.now) }
    requires below { (n : ℕ) → In n (leaves_of (tree_of node.now)) →
        n < length (B.working leaves.old) }
    requires span { IsKeySpan (tree_form M.rule (tree_of node.now)) span.now }
    ensures count { IfOk result
        (IsCount M.rule (tree_of node.now) (B.whole leaves.old) (B.working leaves.old) span.now
        (B.work leaves.old) (B.work leaves.new)) }
    ensures reads { ReadsMaps B.View
        (B.whole leaves.old × HasSet M.rule (tree_of node.now) (B.working leaves.old))
        leaves.old leaves.new result }
{
    match node {
        Node::Leaf(node) => {
            let mut entries = Entries::new(alloc);
            leaves.select(alloc, node.leaf, span, &mut entries)?;
            Ok(entries.len())
        }
        Node::Layer(_) => {
            let mut found = Recs::new(alloc);
            node.select(alloc, leaves, span, &mut found)?;
            Ok(found.0.len())
        }
    }
}
