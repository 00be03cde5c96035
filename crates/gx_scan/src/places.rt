// Where the records of a file stand in its node's leaves.
ghost use Rattle.std.specs.Prelude.{◌≡◌, ◌+◌, ◌++◌, ◌∷◌, [], List, true, IfOk, IfSome};
ghost use Rattle.gx_values.specs.Keys.{AreKeyFields};
ghost use Rattle.gx_stack.specs.Tree.{tree_form, IsValid};
ghost use Rattle.gx_stack.specs.Seen.{tree_of};
ghost use Rattle.gx_types.specs.Any.{any_rule};
ghost use Rattle.gx_scan.specs.declared.places.Place.{Place as ThePlace};
ghost use Rattle.gx_scan.specs.Entries.{PassesOn, ArePlaces, ArePlacesBelow};
ghost use Rattle.gx_codec.specs.Stored.{IsWithCode};

use gx_codec::Codes;
use gx_mapping::Mapping;
use gx_stack::Node;
use gx_types::{AnyMapping, Passing};
use gx_values::{Code, NoMemory};
use std::alloc::Global;

/// A leaf where records stand whole, each as one entry.
#[derive(Debug, Drop)]
pub struct Place {
    /// the number of the leaf
    pub leaf: u32,
    /// how many lengths stand before the values in a body: one for each layer `actual` above the
    /// leaf but one
    pub lengths: u32,
    /// which data fields stand by their codes
    pub codes: Codes,
}

/// What the layers above a node change in its records.
#[derive(Debug, Drop)]
pub struct Above {
    /// how many layers `actual` there are
    pub layers: u32,
    /// which data fields stand by their codes
    pub codes: Codes,
}

/// The places of the records of a file's node: the leaves that they are gathered from, each once.
/// `None`: they are more than `most`, or some layer splits its records, or codes a value that isn't
/// in a body. `NoMemory`: there was none for the places.
pub(crate) fn places_of(
    alloc: Global,
    node: &Node<AnyMapping>,
    most: usize,
) -> Result<Option<Vec<Place>>, NoMemory>
    requires valid { IsValid any_rule (tree_of node.now) }
    requires plain { AreKeyFields (tree_form any_rule (tree_of node.now)).fields }
    ensures { IfOk result
        (λ found. IfSome found (λ places. ArePlaces 0 (tree_of node.now) places.items)) }
{
    let mut places = Vec::new(alloc);
    let above = Above {
        layers: 0,
        codes: Codes::none(alloc),
    };
    if add_places(alloc, node, &above, most, &mut places)? {
        Ok(Some(places))
    } else {
        Ok(None)
    }
}

/// The one leaf that the records of a file's node are gathered from. `None`: there are more, or
/// some layer codes a value that isn't in a body. `NoMemory`: there was none for the codes.
pub(crate) fn place_of(alloc: Global, node: &Node<AnyMapping>) -> Result<Option<Place>, NoMemory>
    requires valid { IsValid any_rule (tree_of node.now) }
    requires plain { AreKeyFields (tree_form any_rule (tree_of node.now)).fields }
    ensures { IfOk result
        (λ found. IfSome found (λ place. ArePlaces 0 (tree_of node.now) (place ∷ []))) }
{
    let above = Above {
        layers: 0,
        codes: Codes::none(alloc),
    };
    place_below(alloc, node, above)
}

/// The leaf of a node that is one layer `actual` over a leaf, which is known with no walk.
pub(crate) fn leaf_below_actual(alloc: Global, node: &Node<AnyMapping>) -> Option<Place>
    requires { IsValid any_rule (tree_of node.now) }
    ensures { IfSome result (λ place. ArePlaces 0 (tree_of node.now) (place ∷ [])) }
{
    let Node::Layer(layer) = node else {
        return None;
    };
    let AnyMapping::Actual(_) = &layer.mapping else {
        return None;
    };
    let Node::Leaf(below) = &layer.kids[0] else {
        return None;
    };
    Some(Place {
        leaf: below.leaf,
        lengths: 0,
        codes: Codes::none(alloc),
    })
}

// The same of a node below others, which change its records so.
fn place_below(
    alloc: Global,
    node: &Node<AnyMapping>,
    changed: Above,
) -> Result<Option<Place>, NoMemory>
    requires valid { IsValid any_rule (tree_of node.now) }
    requires plain { changed.layers ≡ 0 → changed.codes ≡ [] →
        AreKeyFields (tree_form any_rule (tree_of node.now)).fields }
    ensures { IfOk result (λ found. IfSome found
        (λ place. ArePlacesBelow changed.layers changed.codes (tree_of node.now) (place ∷ []))) }
{
    match node {
        Node::Leaf(node) => {
            if changed.layers == 0 && !changed.codes.is_empty() {
                return Ok(None);
            }
            Ok(Some(Place {
                leaf: node.leaf,
                lengths: changed.layers.saturating_sub(1),
                codes: changed.codes,
            }))
        }
        Node::Layer(layer) => {
            if layer.mapping.kids() != 1 {
                return Ok(None);
            }
            if !layer.mapping.holds_rest(0) {
                return Ok(None);
            }
            let Some(below) = passed_on(alloc, &layer.mapping, &changed)? else {
                return Ok(None);
            };
            place_below(alloc, &layer.kids[0], below)
        }
    }
}

// The places of a node below others, and whether each of its records stands whole in one place, and
// the places aren't more than `most`.
fn add_places(
    alloc: Global,
    node: &Node<AnyMapping>,
    above: &Above,
    most: usize,
    places: &mut Vec<Place>,
) -> Result<bool, NoMemory>
    requires valid { IsValid any_rule (tree_of node.now) }
    requires plain { above.now.layers ≡ 0 → above.now.codes ≡ [] →
        AreKeyFields (tree_form any_rule (tree_of node.now)).fields }
    ensures { IfOk result (λ whole. whole ≡ true →
        (added : List ThePlace) × (places.new.items ≡ places.old.items ++ added)
        × ArePlacesBelow above.now.layers above.now.codes (tree_of node.now) added) }
{
    if places.len() >= most {
        return Ok(false);
    }
    match node {
        Node::Leaf(node) => {
            if above.layers == 0 && !above.codes.is_empty() {
                return Ok(false);
            }
            places.push(Place {
                leaf: node.leaf,
                lengths: above.layers.saturating_sub(1),
                codes: above.codes.copy(alloc)?,
            })?;
            Ok(true)
        }
        Node::Layer(layer) => {
            let Some(below) = passed_on(alloc, &layer.mapping, above)? else {
                return Ok(false);
            };
            for child in 0..layer.mapping.kids() {
                if layer.mapping.holds_rest(child) {
                    let kid = &layer.kids[child as usize];
                    if !add_places(alloc, kid, &below, most, places)? {
                        return Ok(false);
                    }
                }
            }
            Ok(true)
        }
    }
}

// What is changed above the data children of a layer. `None`: it splits its records, or codes a
// value that can't be told apart below.
fn passed_on(alloc: Global, mapping: &AnyMapping, above: &Above) -> Result<Option<Above>, NoMemory>
    ensures { IfOk result (λ passed. IfSome passed
        (λ b. PassesOn (any_rule mapping.now) above.now.layers above.now.codes b.layers b.codes)) }
{
    match mapping {
        AnyMapping::Index(_) => Ok(Some(above.copy(alloc)?)),
        AnyMapping::Encode(mapping) => above.with_code(alloc, mapping.field(), mapping.code()),
        _ => match mapping.passing() {
            Passing::Whole => Ok(Some(above.copy(alloc)?)),
            Passing::Wrapped => above.with_layer(alloc),
            Passing::Apart => Ok(None),
        },
    }
}

impl Above {
    fn copy(&self, alloc: Global) -> Result<Above, NoMemory>
        ensures layers { IfOk result (λ a. a.layers ≡ self.now.layers) }
        ensures codes { IfOk result (λ a. a.codes ≡ self.now.codes) }
    {
        Ok(Above {
            layers: self.layers,
            codes: self.codes.copy(alloc)?,
        })
    }

    // With one more layer `actual`. `None`: they are too many to count.
    fn with_layer(&self, alloc: Global) -> Result<Option<Above>, NoMemory>
        ensures layers { IfOk result (λ made. IfSome made (λ a. a.layers ≡ self.now.layers + 1)) }
        ensures codes { IfOk result (λ made. IfSome made (λ a. a.codes ≡ self.now.codes)) }
    {
        let Some(layers) = self.layers.checked_add(1) else {
            return Ok(None);
        };
        Ok(Some(Above {
            layers,
            codes: self.codes.copy(alloc)?,
        }))
    }

    // With the code of one more field. `None`: it has one, or stands in a body.
    fn with_code(&self, alloc: Global, field: u16, code: Code) -> Result<Option<Above>, NoMemory>
        ensures outside { IfOk result (λ made. IfSome made (λ a. self.now.layers ≡ 0)) }
        ensures layers { IfOk result (λ made. IfSome made (λ a. a.layers ≡ 0)) }
        ensures codes { IfOk result
            (λ made. IfSome made (λ a. IsWithCode self.now.codes field code a.codes)) }
    {
        if self.layers > 0 {
            return Ok(None);
        }
        let Some(codes) = self.codes.with_code(alloc, field, code)? else {
            return Ok(None);
        };
        Ok(Some(Above { layers: 0, codes }))
    }
}
