// Records read back from the entries of a leaf.
ghost use Rattle.std.specs.Prelude.{◌≡◌, ◌≢◌, ◌<◌, ℕ, length, OnOk, IsErrOf, IfOk};
ghost use Rattle.gx_ports.specs.Calls.{ReadsMaps};
ghost use Rattle.gx_values.specs.declared.records.Rec.{Rec as Record};
ghost use Rattle.gx_ports.specs.LeafMaps.{map_at, Extends};
ghost use Rattle.gx_ports.specs.declared.leaves.Entry.{Entry as LeafPair};
ghost use Rattle.gx_mapping.specs.Rule.{In, IsOf};
ghost use Rattle.gx_stack.specs.Tree.{IsLeafForm};
ghost use Rattle.gx_stack.specs.Internal.{HasLeafSet};
ghost use Rattle.gx_stack.specs.Read.{leaf_most, IsDataOf, IsRecordOf, AreRecords, IsLeafFound, entry_of_rec};

use gx_gather::{NO_BLOCK, Recs};
use gx_ports::{Entries, Leaves, Stop};
use gx_values::{Fields, Form, Kind, NoMemory, Octets, Rec, Span, Value, Values, read_key};
use std::alloc::Global;

// Appends the records of one leaf whose keys are inside the span, in the order of the keys.
pub fn select_leaf<B: Leaves>(
    alloc: Global,
    leaves: &mut B,
    leaf: u32,
    form: &Form,
    span: &Span,
    out: &mut Recs,
) -> Result<(), Stop>
    requires leaf { leaf < length (B.working leaves.old) }
    requires form { IsLeafForm form.now }
    ensures found { OnOk result
        (IsLeafFound form.now (B.whole leaves.old) (map_at (B.working leaves.old) leaf) span.now
        (B.work leaves.old) (B.work leaves.new) out.old out.new) }
    ensures front { Extends out.old out.new }
    ensures reads { ReadsMaps B.View
        (B.whole leaves.old × HasLeafSet form.now (map_at (B.working leaves.old) leaf))
        leaves.old leaves.new result }
{
    let mut entries = Entries::new(alloc);
    leaves.select(alloc, leaf, span, &mut entries)?;
    read_records(alloc, form, &entries, out)
}

// The records of entries, in the same order.
pub fn read_records(
    alloc: Global,
    form: &Form,
    entries: &Entries,
    out: &mut Recs,
) -> Result<(), Stop>
    requires form { IsLeafForm form.now }
    ensures read { OnOk result (AreRecords form.now entries.now out.old out.new) }
    ensures front { Extends out.old out.new }
    ensures damaged { (block : ℕ) → IsErrOf result (Stop.Damaged block) →
        (e : LeafPair) × In e entries.now × ((r : Record) → IsOf form.now r → entry_of_rec r ≢ e) }
    ensures block { (n : ℕ) → IsErrOf result (Stop.Damaged n) → n ≡ 0 }
    ensures not_full { ¬ IsErrOf result Stop.Full }
    ensures not_fault { ¬ IsErrOf result Stop.Fault }
{
    for index in 0..entries.len() {
        let entry = entries.entry(index);
        match read_record(alloc, form, entry.key, entry.body)? {
            Some(rec) => out.0.push(rec)?,
            None => return Err(Stop::Damaged(NO_BLOCK)),
        }
    }
    Ok(())
}

// The record of an entry. `None`: it is the entry of no record of the form.
fn read_record(alloc: Global, form: &Form, key: &[u8], body: &[u8]) -> Result<Option<Rec>, NoMemory>
    requires { IsLeafForm form.now }
    ensures { IfOk result (IsRecordOf form.now (record { key = key.now; body = body.now })) }
{
    let Some(key) = read_key(alloc, &form.keys, key)? else {
        return Ok(None);
    };
    let Some(fields) = read_fields(alloc, form, body)? else {
        return Ok(None);
    };
    Ok(Some(Rec { key, fields }))
}

// The data of a leaf's record.
fn read_fields(alloc: Global, form: &Form, body: &[u8]) -> Result<Option<Values>, NoMemory>
    requires { IsLeafForm form.now }
    ensures { IfOk result (IsDataOf form.now.fields body.now) }
{
    match most_bytes(&form.fields) {
        None => Ok(body.is_empty().then_some(Values(Vec::new(alloc)))),
        Some(most) => {
            if body.len() > usize::from(most) {
                return Ok(None);
            }
            let mut values = Vec::with_capacity(alloc, 1)?;
            values.push(Value::Bytes(Octets::from_slice(alloc, body)?))?;
            Ok(Some(Values(values)))
        }
    }
}

// How many bytes the one data field has at most. `None`: there is no field.
fn most_bytes(fields: &Fields) -> Option<u16>
    ensures { result ≡ leaf_most fields.now }
{
    match fields.0.first()?.kind {
        Kind::Bytes(most) => Some(most),
        _ => None,
    }
}
