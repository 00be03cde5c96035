// Bodies, made of the values of a record.
ghost use Rattle.std.specs.Prelude.{◌≡◌, ◌++◌, [], IfOk};
ghost use Rattle.std.specs.List.{AllByRecursion};
ghost use Rattle.gx_actual.specs.Bodies.{field_bytes, body_of, HasLength};
ghost use Rattle.gx_codec.specs.Layouts.{laid, with_slot, HasSlot, HaveSlots};
ghost use Rattle.gx_codec.specs.Stored.{stored_value, HasCode};

use crate::layout::Layout;
use gx_actual::{push_value, width_of};
use gx_encode::coded;
use gx_values::{Code, NoMemory, Octets, Value};
use std::alloc::Global;

/// The body of a record's values by a layout. `NoMemory`: there was none for it.
pub fn write_body<L: Layout>(
    alloc: Global,
    layout: &L,
    values: &[Value],
) -> Result<Octets, NoMemory>
    requires have { HaveSlots (L.slots layout.now) 0 values.now }
    requires lengths { AllByRecursion HasLength (laid (L.slots layout.now) 0 values.now) }
    ensures { IfOk result (λ body. body ≡ body_of (laid (L.slots layout.now) 0 values.now)) }
{
    let mut body = Vec::with_capacity(alloc, room_for(layout, values))?;
    for (at, value) in values.iter().enumerate() {
        push_slot(alloc, &mut body, layout.slot_of(at), value)?;
    }
    Ok(Octets(body))
}

// How many bytes the values take, so that the body never has to grow: a code is mostly shorter.
fn room_for<L: Layout>(layout: &L, values: &[Value]) -> usize {
    let mut room = 0usize;
    for (at, value) in values.iter().enumerate() {
        if layout.slot_of(at).is_some() {
            room = room.saturating_add(width_of(value));
        }
    }
    room
}

// Appends the bytes of the value, if it has a slot.
fn push_slot(
    alloc: Global,
    body: &mut Vec<u8>,
    slot: Option<Option<Code>>,
    value: &Value,
) -> Result<(), NoMemory>
    requires have { HasSlot slot value.now }
    requires length { AllByRecursion HasLength (with_slot slot value.now []) }
    ensures { IfOk result (λ _. body.new.items
        ≡ body.old.items ++ body_of (with_slot slot value.now [])) }
{
    match slot {
        Some(code) => push_stored(alloc, body, code, value),
        None => Ok(()),
    }
}

/// Appends the bytes of a value, by its code if it has one. `NoMemory`: there was none for them.
pub fn push_stored(
    alloc: Global,
    body: &mut Vec<u8>,
    code: Option<Code>,
    value: &Value,
) -> Result<(), NoMemory>
    requires have { HasCode code value.now }
    requires length { HasLength (stored_value code value.now) }
    ensures { IfOk result (λ _. body.new.items
        ≡ body.old.items ++ field_bytes (stored_value code value.now)) }
{
    match code {
        Some(code) => {
            let bytes = coded(alloc, code, value)?;
            push_value(body, &Value::Bytes(bytes))?;
        }
        None => push_value(body, value)?,
    }
    Ok(())
}
