// The node that is searched for the records inside a span.
ghost use Rattle.gx_stack.specs.Tree.{IsValid};
ghost use Rattle.gx_stack.specs.Seen.{tree_of};
ghost use Rattle.gx_types.specs.Any.{any_rule};
ghost use Rattle.gx_scan.specs.Searched.{HasInside};

use gx_mapping::Mapping;
use gx_stack::Node;
use gx_types::{AnyMapping, Passing};
use gx_values::Span;

/// The lowest node that has all records inside the span as they are, with all their leaf entries:
/// below layers that pass records whole and of which one child alone is searched.
pub fn searched_node<'a>(node: &'a Node<AnyMapping>, span: &Span) -> &'a Node<AnyMapping>
    requires valid { IsValid any_rule (tree_of node.now) }
    ensures { HasInside span.now (tree_of node.now) (tree_of result.now) }
{
    let Node::Layer(layer) = node else {
        return node;
    };
    let Passing::Whole = layer.mapping.passing() else {
        return node;
    };
    let Some(child) = layer.mapping.only_searched(span) else {
        return node;
    };
    let kid = &layer.kids[child as usize];
    searched_node(kid, span)
}
