// The bodies of the leaf entries of a record, made of its data without the record.
ghost use Rattle.std.specs.Prelude.{◌≡◌, ◌≤◌, ◌∷◌, [], ℕ, length, IfOk};
ghost use Rattle.gx_values.specs.Values.{AreFit};
ghost use Rattle.gx_values.specs.declared.values.Value.TheVariants as value;
ghost use Rattle.gx_encode.specs.Forms.{changed as changed_at};
ghost use Rattle.gx_encode.specs.Rules.{coded as coded_value, field_of, form_of, used_code_of};
ghost use Rattle.gx_stack.specs.Tree.{leaf_body, tree_form, IsValid};
ghost use Rattle.gx_stack.specs.Seen.{tree_of};
ghost use Rattle.gx_types.specs.Any.{any_rule};
ghost use Rattle.gx_entries.specs.Entries.{AreBodies, AreDataOf, AreTwoLeaves, IsFirstBody, IsOnlyBody, IsOnlyLeaf};

use crate::groups::{first_group, two_groups};
use crate::plain::{is_plain, plain_bodies, plain_body};
use gx_actual::body_bytes;
use gx_encode::{Encode, coded};
use gx_mapping::Mapping;
use gx_stack::Node;
use gx_types::AnyMapping;
use gx_values::{NoMemory, Octets, Value, Values};
use std::alloc::Global;

/// The body of the one entry of each record with these data: the layers keep the key, so it isn't
/// asked for. `NoMemory`: there was none for it.
pub fn only_body(alloc: Global, node: &Node<AnyMapping>, fields: Values) -> Result<Octets, NoMemory>
    requires valid { IsValid any_rule (tree_of node.now) }
    requires only { (n : ℕ) × IsOnlyLeaf (tree_of node.now) n }
    requires of_form { AreDataOf (tree_form any_rule (tree_of node.now)) fields }
    ensures { IfOk result (IsOnlyBody (tree_of node.now) fields) }
{
    match node {
        Node::Leaf(_) => Ok(the_bytes(alloc, fields)),
        Node::Layer(layer) => {
            let first = &layer.kids[0];
            match &layer.mapping {
                AnyMapping::Actual(mapping) => {
                    let body = body_bytes(alloc, &mapping.form().fields.0, &fields.0)?;
                    if let Node::Leaf(_) = first {
                        return Ok(body);
                    }
                    only_body(alloc, first, one_value(alloc, body)?)
                }
                AnyMapping::Encode(mapping) => {
                    let made = coded_fields(alloc, mapping, fields)?;
                    only_body(alloc, first, made)
                }
                _ => unreachable!(),
            }
        }
    }
}

/// The bodies of the entries of each record with these data in both leaves of a segment. In the
/// second there is none where each value of the second group is the default of its field.
/// `NoMemory`: there was none for them.
pub fn both_bodies(
    alloc: Global,
    node: &Node<AnyMapping>,
    fields: Values,
) -> Result<(Octets, Option<Octets>), NoMemory>
    requires valid { IsValid any_rule (tree_of node.now) }
    requires two { (n : ℕ) × (k : ℕ) × AreTwoLeaves (tree_of node.now) n k }
    requires of_form { AreDataOf (tree_form any_rule (tree_of node.now)) fields }
    ensures { IfOk result (λ made. AreBodies (tree_of node.now) fields made.0 made.1) }
{
    let Node::Layer(layer) = node else {
        unreachable!();
    };
    let AnyMapping::Segment(mapping) = &layer.mapping else {
        unreachable!();
    };
    let first = &layer.kids[0];
    let second = &layer.kids[1];
    if is_plain(first) && is_plain(second) {
        return plain_bodies(alloc, mapping, &fields);
    }
    let (chosen, others) = two_groups(alloc, mapping, fields)?;
    let body = only_body(alloc, first, chosen)?;
    match others {
        None => Ok((body, None)),
        Some(others) => {
            let other = only_body(alloc, second, others)?;
            Ok((body, Some(other)))
        }
    }
}

/// The body of the entry of each record with these data in the first leaf of a segment. `NoMemory`:
/// there was none for it.
pub fn first_body(
    alloc: Global,
    node: &Node<AnyMapping>,
    fields: Values,
) -> Result<Octets, NoMemory>
    requires valid { IsValid any_rule (tree_of node.now) }
    requires two { (n : ℕ) × (k : ℕ) × AreTwoLeaves (tree_of node.now) n k }
    requires of_form { AreDataOf (tree_form any_rule (tree_of node.now)) fields }
    ensures { IfOk result (IsFirstBody (tree_of node.now) fields) }
{
    let Node::Layer(layer) = node else {
        unreachable!();
    };
    let AnyMapping::Segment(mapping) = &layer.mapping else {
        unreachable!();
    };
    let first = &layer.kids[0];
    if is_plain(first) {
        return plain_body(alloc, mapping.mask(), true, &fields.0);
    }
    let chosen = first_group(alloc, mapping, fields)?;
    only_body(alloc, first, chosen)
}

// The bytes of the only value; none where there is none.
fn the_bytes(alloc: Global, fields: Values) -> Octets
    requires { length fields ≤ 1 }
    ensures { result ≡ leaf_body fields }
{
    let mut values = fields.0;
    match values.pop() {
        Some(Value::Bytes(bytes)) => bytes,
        _ => Octets(Vec::new(alloc)),
    }
}

// The bytes as the only value.
fn one_value(alloc: Global, bytes: Octets) -> Result<Values, NoMemory>
    ensures { IfOk result (λ values. values ≡ value.Bytes bytes ∷ []) }
{
    let mut values = Vec::with_capacity(alloc, 1)?;
    values.push(Value::Bytes(bytes))?;
    Ok(Values(values))
}

// The values with the code of the one that the layer has by its code, in its place.
fn coded_fields(alloc: Global, mapping: &Encode, fields: Values) -> Result<Values, NoMemory>
    requires { AreFit (form_of mapping.now).fields fields }
    ensures { IfOk result (λ made. made
        ≡ changed_at (field_of mapping.now) (coded_value (used_code_of mapping.now)) fields) }
{
    let number = usize::from(mapping.field());
    let mut values = fields.0;
    let bytes = coded(alloc, mapping.code(), &values[number])?;
    values[number] = Value::Bytes(bytes);
    Ok(Values(values))
}
