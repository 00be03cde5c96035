// The leaf where a layer puts the bytes of a file's records in pieces.
ghost use Rattle.std.specs.Prelude.{IfSome};
ghost use Rattle.gx_stack.specs.Tree.{IsValid};
ghost use Rattle.gx_stack.specs.Seen.{tree_of};
ghost use Rattle.gx_types.specs.Any.{any_rule};
ghost use Rattle.gx_scan.specs.Pieces.{ArePieces};

use gx_stack::Node;
use gx_types::AnyMapping;

/// A leaf with the bytes of each record in pieces.
#[derive(Clone, Copy, Debug)]
pub struct Pieces {
    /// the number of the leaf
    pub leaf: u32,
    /// how many bytes a piece has; the last one of a record has fewer
    pub size: u16,
}

/// The pieces of a node that is a layer `actual` over a layer `divide` over a leaf, which are known
/// with no walk. `None`: the node is another one.
pub(crate) fn pieces_of(node: &Node<AnyMapping>) -> Option<Pieces>
    requires { IsValid any_rule (tree_of node.now) }
    ensures { IfSome result (ArePieces (tree_of node.now)) }
{
    let Node::Layer(layer) = node else {
        return None;
    };
    let AnyMapping::Actual(_) = &layer.mapping else {
        return None;
    };
    let Node::Layer(divided) = &layer.kids[0] else {
        return None;
    };
    let AnyMapping::Divide(divide) = &divided.mapping else {
        return None;
    };
    let Node::Leaf(below) = &divided.kids[0] else {
        return None;
    };
    Some(Pieces {
        leaf: below.leaf,
        size: divide.piece_size(),
    })
}
