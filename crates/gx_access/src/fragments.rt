// Fragments, with the bytes of their defaults.
ghost use Rattle.std.specs.Prelude.{◌≡◌, IfOk};
ghost use Rattle.gx_actual.specs.Bodies.{HasLength};
ghost use Rattle.gx_split.specs.Groups.{defaults_of};
ghost use Rattle.gx_codec.specs.Slots.{pick};
ghost use Rattle.gx_access.specs.Access.{fragment_of, defaults_in, defaults_body};

use crate::access::{Fragment, Slots, View};
use gx_actual::push_value;
use gx_codec::Slot;
use gx_values::{Fields, NoMemory, Octets, Value, default_of};
use std::alloc::Global;

/// The fragment of a view of a file with these data fields. `NoMemory`: there was none for it.
pub(crate) fn fragment_of(
    alloc: Global,
    fields: &Fields,
    leaf: u32,
    piece: Option<u16>,
    view: &View,
) -> Result<Fragment, NoMemory>
    ensures { IfOk result (λ made. made ≡ fragment_of fields.now leaf piece view.now) }
{
    Ok(Fragment {
        leaf,
        piece,
        view: view.copy(alloc)?,
        defaults: defaults_in(alloc, fields, view)?,
    })
}

// The bytes of its defaults, where the view is in a group.
fn defaults_in(alloc: Global, fields: &Fields, view: &View) -> Result<Option<Octets>, NoMemory>
    ensures { IfOk result
        (λ found. found ≡ defaults_in fields.now view.now.slots view.now.groups) }
{
    if view.groups.0.is_empty() {
        return Ok(None);
    }
    Ok(Some(defaults_body(alloc, fields, &view.slots)?))
}

fn defaults_body(alloc: Global, fields: &Fields, slots: &Slots) -> Result<Octets, NoMemory>
    ensures { IfOk result (λ body. body ≡ defaults_body fields.now slots.now) }
{
    let mut body = Vec::new(alloc);
    for slot in slots.0.iter() {
        push_value(&mut body, &stored_default(alloc, fields, *slot))?;
    }
    Ok(Octets(body))
}

// The default of the slot's field, by its code if it has one. An int by its code has no byte, nor
// has a text.
fn stored_default(alloc: Global, fields: &Fields, slot: Slot) -> Value
    ensures value { result ≡ pick (defaults_of fields.now) slot }
    ensures short { HasLength result }
{
    if slot.code.is_some() {
        return Value::Bytes(Octets(Vec::new(alloc)));
    }
    if slot.number < fields.0.len() {
        default_of(alloc, &fields.0[slot.number])
    } else {
        Value::Int(0)
    }
}
