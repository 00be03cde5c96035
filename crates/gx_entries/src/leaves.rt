// The leaves in which the entries of each record of a node stand, each under the record's own key.
ghost use Rattle.std.specs.Prelude.{◌≡◌, true, IfSome};
ghost use Rattle.gx_stack.specs.Tree.{IsValid};
ghost use Rattle.gx_stack.specs.Seen.{tree_of};
ghost use Rattle.gx_types.specs.Any.{any_rule};
ghost use Rattle.gx_entries.specs.Entries.{AreOwnLeaves, IsOnlyLeaf, KeepsKeys};

use gx_stack::Node;
use gx_types::AnyMapping;

/// The leaf of the first entry of each record, and that of the second, where records may have two.
#[derive(Clone, Copy, Debug)]
pub struct OwnLeaves {
    /// has an entry of each record
    pub first: u32,
    /// may have one more of each; no second leaf: each record has one entry
    pub second: Option<u32>,
}

/// The leaves where each record of the node has its entries, under its own key. `None`: there may
/// be other entries.
pub fn own_leaves(node: &Node<AnyMapping>) -> Option<OwnLeaves>
    requires { IsValid any_rule (tree_of node.now) }
    ensures { IfSome result (λ own. AreOwnLeaves (tree_of node.now) own.first own.second) }
{
    if let Node::Layer(layer) = node
        && let AnyMapping::Segment(_) = &layer.mapping
    {
        let first = only_leaf(&layer.kids[0])?;
        let second = only_leaf(&layer.kids[1])?;
        return Some(OwnLeaves {
            first,
            second: Some(second),
        });
    }
    let first = only_leaf(node)?;
    Some(OwnLeaves {
        first,
        second: None,
    })
}

// The leaf where each record of the node has its one entry, under its own key. `None`: there may be
// other entries.
fn only_leaf(node: &Node<AnyMapping>) -> Option<u32>
    requires { IsValid any_rule (tree_of node.now) }
    ensures { IfSome result (IsOnlyLeaf (tree_of node.now)) }
{
    match node {
        Node::Leaf(node) => Some(node.leaf),
        Node::Layer(layer) => {
            if keeps_keys(&layer.mapping) {
                only_leaf(&layer.kids[0])
            } else {
                None
            }
        }
    }
}

// Whether each record is known to have one part, for the first child and with the record's own key.
fn keeps_keys(mapping: &AnyMapping) -> bool
    ensures { result ≡ true → KeepsKeys mapping.now }
{
    match mapping {
        AnyMapping::Actual(_) | AnyMapping::Encode(_) => true,
        _ => false,
    }
}
