// The data of a record under a segment, in their two groups, and changes of them.
ghost use Rattle.std.specs.Prelude.{◌≡◌, ◌-◌, ◌++◌, ◌∷◌, [], List, length, map, not, true, false, slice_index_or, if◌then◌else◌, IfOk};
ghost use Rattle.std.specs.List.{AllByRecursion};
ghost use Rattle.gx_values.specs.declared.values.Value.{Value as TheValue};
ghost use Rattle.gx_values.specs.Values.{AreFit};
ghost use Rattle.gx_split.specs.Groups.{chosen};
ghost use Rattle.gx_split.specs.SegmentRules.{form_of, mask_of};
ghost use Rattle.gx_stack.specs.Seen.{tree_of};
ghost use Rattle.gx_model.specs.Commands.{with_changes};
ghost use Rattle.gx_entries.specs.Entries.{others_in, others_of};

use gx_commands::Changes;
use gx_split::Segment;
use gx_stack::Node;
use gx_types::AnyMapping;
use gx_values::{NoMemory, Value, Values};
use std::alloc::Global;

/// The values of the first group, and those of the others unless each has its default.
pub(crate) fn two_groups(
    alloc: Global,
    mapping: &Segment,
    values: Values,
) -> Result<(Values, Option<Values>), NoMemory>
    requires { AreFit (form_of mapping.now).fields values }
    ensures { IfOk result (λ made. (made.0 ≡ chosen (mask_of mapping.now) values)
        × (made.1 ≡ others_of mapping.now values)) }
{
    let is_short = mapping.are_others_default(&values);
    let (first, others) = grouped(alloc, mapping.mask(), values)?;
    if is_short {
        return Ok((first, None));
    }
    Ok((first, Some(others)))
}

/// The values of the first group.
pub(crate) fn first_group(
    alloc: Global,
    mapping: &Segment,
    values: Values,
) -> Result<Values, NoMemory>
    requires { AreFit (form_of mapping.now).fields values }
    ensures { IfOk result (λ made. made ≡ chosen (mask_of mapping.now) values) }
{
    let (first, _) = grouped(alloc, mapping.mask(), values)?;
    Ok(first)
}

/// Whether each change is of a field of the first group of a segment, so that the values of the
/// second entry stay.
pub fn others_stay(node: &Node<AnyMapping>, changes: &Changes) -> bool
    ensures { result ≡ true → (values : List TheValue) →
        others_in (tree_of node.now) (with_changes values changes.now)
        ≡ others_in (tree_of node.now) values }
{
    if let Node::Layer(layer) = node
        && let AnyMapping::Segment(mapping) = &layer.mapping
    {
        return are_first(mapping.mask(), changes);
    }
    false
}

// Whether each change is of a field of the first group.
fn are_first(mask: &[bool], changes: &Changes) -> bool
    ensures { result ≡ true →
        AllByRecursion (λ c. slice_index_or mask.now (c.field - 1) false ≡ true) changes.now }
{
    for change in changes.0.iter() {
        if !is_first(mask, change.field) {
            return false;
        }
    }
    true
}

// Whether the mask has the data field with this number, from 1.
fn is_first(mask: &[bool], field: u16) -> bool
    ensures { result ≡ true → slice_index_or mask.now (field - 1) false ≡ true }
{
    if field == 0 {
        return false;
    }
    let at = usize::from(field) - 1;
    at < mask.len() && mask[at]
}

// The values that the mask chooses, and the others, each in their order.
fn grouped(alloc: Global, mask: &[bool], values: Values) -> Result<(Values, Values), NoMemory>
    requires { length mask.now ≡ length values }
    ensures { IfOk result (λ made. (made.0 ≡ chosen mask.now values)
        × (made.1 ≡ chosen (map not mask.now) values)) }
{
    let mut first = Vec::with_capacity(alloc, mask.len())?;
    let mut others = Vec::with_capacity(alloc, mask.len())?;
    let mut at = 0;
    for value in values.0 {
        push_either(&mut first, &mut others, mask[at], value)?;
        at += 1;
    }
    Ok((Values(first), Values(others)))
}

fn push_either(
    first: &mut Vec<Value>,
    others: &mut Vec<Value>,
    is_first: bool,
    value: Value,
) -> Result<(), NoMemory>
    ensures first { IfOk result (λ _. first.new.items
        ≡ first.old.items ++ (if is_first then value ∷ [] else [])) }
    ensures others { IfOk result (λ _. others.new.items
        ≡ others.old.items ++ (if not is_first then value ∷ [] else [])) }
{
    if is_first {
        first.push(value)?;
    } else {
        others.push(value)?;
    }
    Ok(())
}
