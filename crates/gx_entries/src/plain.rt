// Bodies of both groups of a record, straight from its values.
ghost use Rattle.std.specs.Prelude.{◌≡◌, length, true, option_map, IfOk, IfSome};
ghost use Rattle.std.specs.List.{AllByRecursion};
ghost use Rattle.gx_values.specs.Values.{AreFit};
ghost use Rattle.gx_actual.specs.Bodies.{body_of, HasLength};
ghost use Rattle.gx_split.specs.Groups.{chosen};
ghost use Rattle.gx_split.specs.SegmentRules.{form_of, mask_of};
ghost use Rattle.gx_stack.specs.Seen.{tree_of};
ghost use Rattle.gx_codec.specs.Layouts.{of_group};
ghost use Rattle.gx_entries.specs.Entries.{IsPlain, others_of};

use gx_codec::{Group, write_body};
use gx_split::Segment;
use gx_stack::Node;
use gx_types::AnyMapping;
use gx_values::{NoMemory, Octets, Value, Values};
use std::alloc::Global;

/// Whether the node is `actual` over a leaf, so that a body is the joined bytes of the values.
pub(crate) fn is_plain(node: &Node<AnyMapping>) -> bool
    ensures { result ≡ true → IsPlain (tree_of node.now) }
{
    if let Node::Layer(layer) = node
        && let AnyMapping::Actual(_) = &layer.mapping
        && let Some(Node::Leaf(_)) = layer.kids.first()
    {
        return true;
    }
    false
}

/// The joined bytes of the values of the first group, and those of the others unless each has its
/// default.
pub(crate) fn plain_bodies(
    alloc: Global,
    mapping: &Segment,
    values: &Values,
) -> Result<(Octets, Option<Octets>), NoMemory>
    requires fit { AreFit (form_of mapping.now).fields values.now }
    requires first { AllByRecursion HasLength (chosen (mask_of mapping.now) values.now) }
    requires others { IfSome (others_of mapping.now values.now) (AllByRecursion HasLength) }
    ensures { IfOk result (λ made. (made.0 ≡ body_of (chosen (mask_of mapping.now) values.now))
        × (made.1 ≡ option_map body_of (others_of mapping.now values.now))) }
{
    let mask = mapping.mask();
    let body = plain_body(alloc, mask, true, &values.0)?;
    if mapping.are_others_default(values) {
        return Ok((body, None));
    }
    let other = plain_body(alloc, mask, false, &values.0)?;
    Ok((body, Some(other)))
}

/// The joined bytes of the values of one group.
pub(crate) fn plain_body(
    alloc: Global,
    mask: &[bool],
    is_first: bool,
    values: &[Value],
) -> Result<Octets, NoMemory>
    requires long { length mask.now ≡ length values.now }
    requires lengths { AllByRecursion HasLength (chosen (of_group is_first mask.now) values.now) }
    ensures { IfOk result (λ body.
        body ≡ body_of (chosen (of_group is_first mask.now) values.now)) }
{
    write_body(alloc, &Group { mask, is_first }, values)
}
