// The values of a body, each at the number of its field.
ghost use Rattle.std.specs.Prelude.{◌≡◌, ◌<◌, List, length, map, slice_set, slice_index_or, true, IfOk};
ghost use Rattle.gx_values.specs.declared.values.Value.{Value as FieldValue};
ghost use Rattle.gx_values.specs.Values.{AreFit, no_field};
ghost use Rattle.gx_actual.specs.Bodies.{body_of, AreShort};
ghost use Rattle.gx_codec.specs.Slots.{pick, AreSlots, AreStorable};
ghost use Rattle.gx_gets.specs.Restored.{restored};

use gx_codec::{Slot, read_front, split_stored};
use gx_values::{Field, NoMemory, Value};
use std::alloc::Global;

/// Puts the value of each slot of a body at the number of its field, where the body is that of some
/// values. `false`: it is the body of none. `NoMemory`: there was none for a value.
pub(crate) fn place_values(
    alloc: Global,
    fields: &[Field],
    slots: &[Slot],
    body: &[u8],
    out: &mut [Value],
) -> Result<bool, NoMemory>
    requires short { AreShort fields.now }
    requires slots { AreSlots (length fields.now) slots.now }
    requires long { length out.old ≡ length fields.now }
    ensures placed { (vs : List FieldValue) → AreStorable fields.now slots.now vs →
        body.now ≡ body_of (map (pick vs) slots.now) →
        IfOk result (λ all. (all ≡ true) × (out.new ≡ restored slots.now vs out.old)) }
    ensures fit { AreFit fields.now out.old → AreFit fields.now out.new }
    ensures same_length { length out.new ≡ length out.old }
{
    let mut rest = body;
    for slot in slots {
        let field = field_at(fields, slot.number);
        let Some((front, more)) = split_stored(field.kind, slot.code, rest) else {
            return Ok(false);
        };
        let Some(value) = read_front(alloc, field.kind, slot.code, front)? else {
            return Ok(false);
        };
        set_value(out, slot.number, value);
        rest = more;
    }
    Ok(rest.is_empty())
}

/// The field of this number.
pub(crate) fn field_at(fields: &[Field], number: usize) -> &Field
    requires { number < length fields.now }
    ensures { result.now ≡ slice_index_or fields.now number no_field }
{
    &fields[number]
}

/// Puts the value at this number.
pub(crate) fn set_value(out: &mut [Value], number: usize, value: Value)
    requires { number < length out.old }
    ensures set { out.new ≡ slice_set out.old number value }
    ensures same_length { length out.new ≡ length out.old }
{
    out[number] = value;
}
