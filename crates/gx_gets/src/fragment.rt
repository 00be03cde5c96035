// The values of a fragment, from the entries in its leaf.
ghost use Rattle.std.specs.Prelude.{◌≡◌, ◌<◌, ◌++◌, List, length, map, slice_set, slice_index_or, true, OnOk, IfOk, Some};
ghost use Rattle.std.specs.List.{flat_map};
ghost use Rattle.gx_values.specs.declared.records.Rec.{Rec as Record};
ghost use Rattle.gx_values.specs.declared.values.Value.{Value as FieldValue};
ghost use Rattle.gx_values.specs.declared.values.Code.{Code as FieldCode};
ghost use Rattle.gx_values.specs.Values.{Fits, AreFit, no_field};
ghost use Rattle.gx_encode.specs.Codes.{code_of, IsCodable};
ghost use Rattle.gx_actual.specs.Bodies.{AreShort};
ghost use Rattle.gx_codec.specs.Slots.{pick, AreSlots, AreStorable};
ghost use Rattle.gx_access.specs.Access.{seen, leaf_entries};
ghost use Rattle.gx_access.specs.Held.{leaf_pair};
ghost use Rattle.gx_stack.specs.Tree.{leaf_body};
ghost use Rattle.gx_gets.specs.Restored.{restored, IsBare, IsReadable};

use crate::values::{field_at, place_values, set_value};
use gx_access::{Fragment, View};
use gx_codec::{Slot, behind_lengths, read_front};
use gx_ports::Entries;
use gx_values::{Field, NoMemory, Value, ValueRef};
use std::alloc::{AllocError, Global};

/// Puts the values of a fragment at the numbers of their fields, where these are the entries that
/// its leaf has of some record. `false`: they are those of none. `NoMemory`: there was none for a
/// value or for the bytes of pieces.
pub(crate) fn place_fragment(
    alloc: Global,
    fields: &[Field],
    fragment: &Fragment,
    entries: &Entries,
    out: &mut [Value],
) -> Result<bool, NoMemory>
    requires short { AreShort fields.now }
    requires readable { IsReadable (length fields.now) fragment.now.view }
    requires long { length out.old ≡ length fields.now }
    ensures placed { (r : Record) → AreStorable fields.now fragment.now.view.slots r.fields →
        entries.now ≡ map leaf_pair
        (leaf_entries fragment.now.leaf fragment.now.piece (seen fragment.now.view r)) →
        IfOk result (λ all. (all ≡ true)
        × (out.new ≡ restored fragment.now.view.slots r.fields out.old)) }
    ensures fit { AreFit fields.now out.old → AreFit fields.now out.new }
    ensures same_length { length out.new ≡ length out.old }
{
    if entries.len() == 1 && fragment.piece.is_none() {
        return place_body(alloc, fields, &fragment.view, entries.entry(0).body, out);
    }
    let mut bytes = Vec::new(alloc);
    join(entries, &mut bytes)?;
    place_body(alloc, fields, &fragment.view, bytes.as_slice(), out)
}

// Appends the bodies of the entries.
fn join(entries: &Entries, bytes: &mut Vec<u8>) -> Result<(), AllocError>
    ensures { OnOk result
        (bytes.new.items ≡ bytes.old.items ++ flat_map (λ e. e.body) entries.now) }
{
    for index in 0..entries.len() {
        bytes.extend_from_slice(entries.entry(index).body)?;
    }
    Ok(())
}

// Puts the values of the body that a leaf has of what is seen of a record.
fn place_body(
    alloc: Global,
    fields: &[Field],
    view: &View,
    body: &[u8],
    out: &mut [Value],
) -> Result<bool, NoMemory>
    requires short { AreShort fields.now }
    requires readable { IsReadable (length fields.now) view.now }
    requires long { length out.old ≡ length fields.now }
    ensures placed { (r : Record) → AreStorable fields.now view.now.slots r.fields →
        body.now ≡ leaf_body (seen view.now r).fields →
        IfOk result (λ all. (all ≡ true) × (out.new ≡ restored view.now.slots r.fields out.old)) }
    ensures fit { AreFit fields.now out.old → AreFit fields.now out.new }
    ensures same_length { length out.new ≡ length out.old }
{
    if view.wraps == 0 {
        return place_bare(alloc, fields, view.slots.0.as_slice(), body, out);
    }
    let lengths = u32::from(view.wraps) - 1;
    match behind_lengths(body, lengths) {
        Some(values) => place_values(alloc, fields, view.slots.0.as_slice(), values, out),
        None => Ok(false),
    }
}

// Puts the value of the one slot, if there is one, whose code stands bare.
fn place_bare(
    alloc: Global,
    fields: &[Field],
    slots: &[Slot],
    body: &[u8],
    out: &mut [Value],
) -> Result<bool, NoMemory>
    requires slots { AreSlots (length fields.now) slots.now }
    requires bare { IsBare slots.now }
    requires long { length out.old ≡ length fields.now }
    ensures placed { (vs : List FieldValue) → AreStorable fields.now slots.now vs →
        body.now ≡ leaf_body (map (pick vs) slots.now) →
        IfOk result (λ all. (all ≡ true) × (out.new ≡ restored slots.now vs out.old)) }
    ensures fit { AreFit fields.now out.old → AreFit fields.now out.new }
    ensures same_length { length out.new ≡ length out.old }
{
    match slots {
        [] => Ok(body.is_empty()),
        [slot] => place_code(alloc, fields, *slot, body, out),
        _ => Ok(false),
    }
}

// Puts the value of a slot whose code stands bare.
fn place_code(
    alloc: Global,
    fields: &[Field],
    slot: Slot,
    body: &[u8],
    out: &mut [Value],
) -> Result<bool, NoMemory>
    requires there { slot.number < length fields.now }
    requires long { length out.old ≡ length fields.now }
    ensures placed { (c : FieldCode) (v : FieldValue) → slot.code ≡ Some c → IsCodable c v →
        Fits (slice_index_or fields.now slot.number no_field).kind v → body.now ≡ code_of c v →
        IfOk result (λ all. (all ≡ true) × (out.new ≡ slice_set out.old slot.number v)) }
    ensures fit { AreFit fields.now out.old → AreFit fields.now out.new }
    ensures same_length { length out.new ≡ length out.old }
{
    let field = field_at(fields, slot.number);
    let Some(value) = read_front(alloc, field.kind, slot.code, ValueRef::Bytes(body))? else {
        return Ok(false);
    };
    set_value(out, slot.number, value);
    Ok(true)
}
