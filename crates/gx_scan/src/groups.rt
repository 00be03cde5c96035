// The leaves where a segment puts the two groups of a file's data fields.
ghost use Rattle.std.specs.Prelude.{◌≡◌, ◌∷◌, [], IfOk, IfSome};
ghost use Rattle.gx_values.specs.Keys.{AreKeyFields};
ghost use Rattle.gx_stack.specs.Tree.{tree_form, IsValid};
ghost use Rattle.gx_stack.specs.Seen.{tree_of};
ghost use Rattle.gx_types.specs.Any.{any_rule};
ghost use Rattle.gx_scan.specs.Entries.{ArePlaces};
ghost use Rattle.gx_scan.specs.Groups.{AreGroups, ArePlain};

use crate::places::{Place, leaf_below_actual, place_of, places_of};
use gx_stack::Node;
use gx_types::AnyMapping;
use gx_values::NoMemory;
use std::alloc::Global;

/// Two leaves with the two groups of data fields that a segment makes.
#[derive(Debug, Drop)]
pub struct Groups<'a> {
    /// of each data field, whether it is in the first group
    pub mask: &'a [bool],
    /// where the first group of each record stands
    pub first: Place,
    /// where its other fields stand, unless each has its default
    pub others: Place,
}

/// The two groups of the records of a file's node. `None`: no segment splits them, or a group isn't
/// whole in one leaf. `NoMemory`: there was none for the groups.
pub(crate) fn groups_of(
    alloc: Global,
    node: &Node<AnyMapping>,
) -> Result<Option<Groups<'_>>, NoMemory>
    requires valid { IsValid any_rule (tree_of node.now) }
    requires plain { AreKeyFields (tree_form any_rule (tree_of node.now)).fields }
    ensures { IfOk result (λ found. IfSome found (AreGroups (tree_of node.now))) }
{
    let Node::Layer(layer) = node else {
        return Ok(None);
    };
    let AnyMapping::Segment(segment) = &layer.mapping else {
        return Ok(None);
    };
    let Some(first) = only_place(alloc, &layer.kids[0])? else {
        return Ok(None);
    };
    let Some(others) = only_place(alloc, &layer.kids[1])? else {
        return Ok(None);
    };
    Ok(Some(Groups {
        mask: segment.mask(),
        first,
        others,
    }))
}

/// The same where no field of either group stands by a code.
pub(crate) fn plain_groups_of(
    alloc: Global,
    node: &Node<AnyMapping>,
) -> Result<Option<Groups<'_>>, NoMemory>
    requires valid { IsValid any_rule (tree_of node.now) }
    requires plain { AreKeyFields (tree_form any_rule (tree_of node.now)).fields }
    ensures groups { IfOk result (λ found. IfSome found (AreGroups (tree_of node.now))) }
    ensures plain { IfOk result (λ found. IfSome found ArePlain) }
{
    let Some(groups) = groups_of(alloc, node)? else {
        return Ok(None);
    };
    if groups.first.codes.is_empty() && groups.others.codes.is_empty() {
        Ok(Some(groups))
    } else {
        Ok(None)
    }
}

/// The one place of a node's records. `None`: they don't stand whole in one leaf. `NoMemory`: there
/// was none for its codes.
pub(crate) fn only_place(alloc: Global, node: &Node<AnyMapping>) -> Result<Option<Place>, NoMemory>
    requires valid { IsValid any_rule (tree_of node.now) }
    requires plain { AreKeyFields (tree_form any_rule (tree_of node.now)).fields }
    ensures { IfOk result
        (λ found. IfSome found (λ p. ArePlaces 0 (tree_of node.now) (p ∷ []))) }
{
    if let Some(place) = leaf_below_actual(alloc, node) {
        return Ok(Some(place));
    }
    if let Some(place) = place_of(alloc, node)? {
        return Ok(Some(place));
    }
    match places_of(alloc, node, 1)? {
        Some(places) => Ok(alone(places)),
        None => Ok(None),
    }
}

fn alone(places: Vec<Place>) -> Option<Place>
    ensures { IfSome result (λ p. places.items ≡ p ∷ []) }
{
    let mut places = places;
    match places.as_slice() {
        [_] => places.pop(),
        _ => None,
    }
}
