// The leaves where a transposition puts the data fields of a file's records, each alone.
ghost use Rattle.std.specs.Prelude.{◌≡◌, true, IfOk, IfSome};
ghost use Rattle.gx_values.specs.Keys.{AreKeyFields};
ghost use Rattle.gx_stack.specs.Tree.{tree_form, IsValid};
ghost use Rattle.gx_stack.specs.Seen.{tree_of};
ghost use Rattle.gx_types.specs.Any.{any_rule};
ghost use Rattle.gx_scan.specs.Columns.{AreColumns, ArePlainColumns};

use crate::groups::only_place;
use crate::places::Place;
use gx_mapping::Mapping;
use gx_stack::Node;
use gx_types::AnyMapping;
use gx_values::NoMemory;
use std::alloc::Global;

/// The place of each data field of the records of a file's node, in the order of the fields.
/// `None`: no transposition splits the records, or a column isn't whole in one leaf. `NoMemory`:
/// there was none for the places.
pub(crate) fn columns_of(
    alloc: Global,
    node: &Node<AnyMapping>,
) -> Result<Option<Vec<Place>>, NoMemory>
    requires valid { IsValid any_rule (tree_of node.now) }
    requires plain { AreKeyFields (tree_form any_rule (tree_of node.now)).fields }
    ensures { IfOk result
        (λ found. IfSome found (λ places. AreColumns (tree_of node.now) places.items)) }
{
    let Node::Layer(layer) = node else {
        return Ok(None);
    };
    let AnyMapping::Transpose(_) = &layer.mapping else {
        return Ok(None);
    };
    let mut places = Vec::with_capacity(alloc, layer.kids.len())?;
    for child in 0..layer.mapping.kids() {
        let kid = &layer.kids[child as usize];
        let Some(place) = only_place(alloc, kid)? else {
            return Ok(None);
        };
        places.push(place)?;
    }
    Ok(Some(places))
}

/// The same where no column stands by a code.
pub(crate) fn plain_columns_of(
    alloc: Global,
    node: &Node<AnyMapping>,
) -> Result<Option<Vec<Place>>, NoMemory>
    requires valid { IsValid any_rule (tree_of node.now) }
    requires plain { AreKeyFields (tree_form any_rule (tree_of node.now)).fields }
    ensures columns { IfOk result
        (λ found. IfSome found (λ places. AreColumns (tree_of node.now) places.items)) }
    ensures plain { IfOk result
        (λ found. IfSome found (λ places. ArePlainColumns places.items)) }
{
    let Some(places) = columns_of(alloc, node)? else {
        return Ok(None);
    };
    if are_plain(places.as_slice()) {
        Ok(Some(places))
    } else {
        Ok(None)
    }
}

fn are_plain(places: &[Place]) -> bool
    ensures { result ≡ true → ArePlainColumns places.now }
{
    for place in places {
        if !place.codes.is_empty() {
            return false;
        }
    }
    true
}
