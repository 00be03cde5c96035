// The values at the front of a fragment's body, each at the number of its field.
ghost use Rattle.std.specs.Prelude.{◌≡◌, ◌<◌, List, length, map, slice_set, slice_index_or, true};
ghost use Rattle.gx_values.specs.declared.values.Value.{Value as FieldValue};
ghost use Rattle.gx_values.specs.Values.{no_field};
ghost use Rattle.gx_values.specs.Borrowed.{value_of};
ghost use Rattle.gx_actual.specs.Bodies.{body_of, AreShort};
ghost use Rattle.gx_codec.specs.Slots.{pick, placed, AreSlots, AreStorable};

use crate::fronts::split_stored;
use crate::slots::Slot;
use gx_values::{Field, ValueRef};

// The field of this number.
fn field_at(fields: &[Field], number: usize) -> &Field
    requires { number < length fields.now }
    ensures { result.now ≡ slice_index_or fields.now number no_field }
{
    &fields[number]
}

// Puts it at this number.
fn set_front<'a>(out: &mut [ValueRef<'a>], number: usize, front: ValueRef<'a>)
    requires { number < length out.old }
    ensures { (map value_of out.new ≡ slice_set (map value_of out.old) number (value_of front.entry))
        × (length out.new ≡ length out.old) }
{
    out[number] = front;
}

/// Puts what stands in a fragment's body for each of its slots at the number of the field, where
/// the body is that of some values. `false`: it is the body of none.
pub fn place_fronts<'a>(
    fields: &[Field],
    slots: &[Slot],
    body: &'a [u8],
    out: &mut [ValueRef<'a>],
) -> bool
    requires short { AreShort fields.now }
    requires slots { AreSlots (length fields.now) slots.now }
    requires long { length out.old ≡ length fields.now }
    ensures placed { (vs : List FieldValue) → AreStorable fields.now slots.now vs →
        body.now ≡ body_of (map (pick vs) slots.now) →
        (result ≡ true) × (map value_of out.new ≡ placed slots.now vs (map value_of out.old)) }
    ensures same_length { length out.new ≡ length out.old }
{
    let mut rest = body;
    for slot in slots {
        let field = field_at(fields, slot.number);
        let Some((front, more)) = split_stored(field.kind, slot.code, rest) else {
            return false;
        };
        set_front(out, slot.number, front);
        rest = more;
    }
    rest.is_empty()
}
