// Entries of leaves: those that come from a record, and the changes from those of one to those of
// another.
ghost use Rattle.std.specs.Prelude.{◌≡◌, ◌<◌, ◌≤◌, ◌+◌, length, Option, Some, None, true, false, IsTrue, IfOk, OnOk, IsErrOf, ◌↔◌};
ghost use Rattle.gx_ports.specs.LeafMaps.{entry_count, IsCrowdedBy};
ghost use Rattle.gx_ports.specs.Calls.{Keeps, Ends};
ghost use Rattle.gx_mapping.specs.Rule.{In, IsOf};
ghost use Rattle.gx_values.specs.Values.{AreFit};
ghost use Rattle.gx_values.specs.Keys.{key_of};
ghost use Rattle.gx_stack.specs.Tree.{IsLeafForm, entry_in, leaf_body, body_rec};
ghost use Rattle.gx_stack.specs.Internal.{IsPlace, IsAt, SomeAt, NoneAt, AreSmall, IsRemoved, IsPut, SameBut};

use arrayvec::ArrayVec;
use gx_ports::{Leaves, Stop};
use gx_values::{Form, KeyBuf, NoMemory, Octets, Rec, Value, Values, key_bytes};
use std::alloc::Global;

/// One entry of one leaf.
#[derive(Debug, Drop)]
pub struct LeafEntry {
    /// the number of the leaf
    pub leaf: u32,
    pub key: Octets,
    pub body: Octets,
}

// The entry of a record in a leaf.
pub fn leaf_entry(alloc: Global, leaf: u32, form: &Form, rec: &Rec) -> Result<LeafEntry, NoMemory>
    requires form { IsLeafForm form.now }
    requires of_form { IsOf form.now rec.now }
    ensures { IfOk result (λ e. e ≡ entry_in leaf rec.now) }
{
    let key = entry_key(alloc, form, &rec.key)?;
    let body = Octets::from_slice(alloc, body_of(rec))?;
    Ok(LeafEntry { leaf, key, body })
}

// The same of a record that needn't be kept.
pub fn into_entry(alloc: Global, leaf: u32, form: &Form, rec: Rec) -> Result<LeafEntry, NoMemory>
    requires form { IsLeafForm form.now }
    requires of_form { IsOf form.now rec }
    ensures { IfOk result (λ e. e ≡ entry_in leaf rec) }
{
    let key = entry_key(alloc, form, &rec.key)?;
    let body = into_body(alloc, rec.fields);
    Ok(LeafEntry { leaf, key, body })
}

// The same of the record with this key and these bytes as its data, which needn't be made.
pub fn body_entry(
    alloc: Global,
    leaf: u32,
    form: &Form,
    key: &Values,
    body: Octets,
) -> Result<LeafEntry, NoMemory>
    requires form { IsLeafForm form.now }
    requires of_form { IsOf form.now (body_rec key.now body) }
    ensures { IfOk result (λ e. e ≡ entry_in leaf (body_rec key.now body)) }
{
    let key = entry_key(alloc, form, key)?;
    Ok(LeafEntry { leaf, key, body })
}

// The bytes of a record's key. Those of one value are written in place: to return a `KeyBuf` copies
// it.
fn entry_key(alloc: Global, form: &Form, key: &Values) -> Result<Octets, NoMemory>
    requires form { IsLeafForm form.now }
    requires of_form { AreFit form.now.keys key.now }
    ensures { IfOk result (λ bytes. bytes ≡ key_of key.now) }
{
    let [value] = key.0.as_slice() else {
        return Octets::from_slice(alloc, key_bytes(&form.keys, key).as_slice());
    };
    let mut bytes = KeyBuf(ArrayVec::new());
    bytes.set_value(value);
    Octets::from_slice(alloc, bytes.as_slice())
}

// The record with this key and these bytes as its data.
pub fn body_record(alloc: Global, key: Values, body: Octets) -> Result<Rec, NoMemory>
    ensures { IfOk result (λ rec. rec ≡ body_rec key body) }
{
    let mut fields = Vec::with_capacity(alloc, 1)?;
    fields.push(Value::Bytes(body))?;
    Ok(Rec {
        key,
        fields: Values(fields),
    })
}

// The bytes of the first value; none where there is none.
fn into_body(alloc: Global, fields: Values) -> Octets
    ensures { result ≡ leaf_body fields }
{
    let mut fields = fields;
    fields.0.truncate(1);
    match fields.0.pop() {
        Some(Value::Bytes(bytes)) => bytes,
        _ => Octets(Vec::new(alloc)),
    }
}

fn body_of(rec: &Rec) -> &[u8]
    ensures { result.now ≡ leaf_body rec.now.fields }
{
    match rec.fields.0.first() {
        Some(Value::Bytes(bytes)) => bytes.as_slice(),
        _ => &[],
    }
}

fn is_same_place(a: &LeafEntry, b: &LeafEntry) -> bool
    ensures { IsTrue result ↔ IsAt b.now.leaf b.now.key a.now }
{
    a.leaf == b.leaf && a.key.as_slice() == b.key.as_slice()
}

// The number of the entry at the place of another one. Two lists of one tree mostly have it at the
// same number, so that is looked at first.
fn place_of(entries: &[LeafEntry], entry: &LeafEntry, guess: usize) -> Option<usize>
    ensures { IsPlace entries.now entry.now result }
{
    if guess < entries.len() && is_same_place(&entries[guess], entry) {
        return Some(guess);
    }
    for i in 0..entries.len() {
        if is_same_place(&entries[i], entry) {
            return Some(i);
        }
    }
    None
}

// Whether an entry stands at the place of another one.
fn has_place(entries: &[LeafEntry], entry: &LeafEntry, guess: usize) -> bool
    ensures some { result ≡ true → SomeAt entry.now.leaf entry.now.key entries.now }
    ensures none { result ≡ false → NoneAt entry.now.leaf entry.now.key entries.now }
{
    match place_of(entries, entry, guess) {
        Some(_) => true,
        None => false,
    }
}

// Whether the entry found at its place is the same.
fn has_entry(entries: &[LeafEntry], entry: &LeafEntry, guess: usize) -> bool
    ensures { result ≡ true → In entry.now entries.now }
{
    match place_of(entries, entry, guess) {
        Some(i) => entries[i].body.as_slice() == entry.body.as_slice(),
        None => false,
    }
}

// Takes out of their leaves the entries at whose places none of the others stands.
pub fn remove_others<B: Leaves>(
    alloc: Global,
    leaves: &mut B,
    gone: &[LeafEntry],
    come: &[LeafEntry],
) -> Result<(), Stop>
    requires small { AreSmall (length (B.working leaves.old)) gone.now }
    ensures done { B.whole leaves.old →
        OnOk result (IsRemoved gone.now come.now (B.working leaves.old) (B.working leaves.new)) }
    ensures fewer { B.whole leaves.old →
        OnOk result (entry_count (B.working leaves.new) ≤ entry_count (B.working leaves.old)) }
    ensures others { B.whole leaves.old → ¬ IsErrOf result Stop.Fault →
        SameBut gone.now (B.working leaves.old) (B.working leaves.new) }
    ensures keeps { Keeps B.View leaves.old leaves.new }
    ensures work { B.work leaves.new ≡ B.work leaves.old }
    ensures ends { Ends B.View (B.whole leaves.old) leaves.old leaves.new result }
    ensures not_full { ¬ IsErrOf result Stop.Full }
{
    for i in 0..gone.len() {
        let entry = &gone[i];
        if !has_place(come, entry, i) {
            leaves.remove(alloc, entry.leaf, entry.key.as_slice())?;
        }
    }
    Ok(())
}

// Puts into their leaves the entries that don't stand there yet.
pub fn put_new<B: Leaves>(
    alloc: Global,
    leaves: &mut B,
    gone: &[LeafEntry],
    come: &[LeafEntry],
) -> Result<(), Stop>
    requires small { AreSmall (length (B.working leaves.old)) come.now }
    ensures done { B.whole leaves.old →
        OnOk result (IsPut gone.now come.now (B.working leaves.old) (B.working leaves.new)) }
    ensures count { B.whole leaves.old → OnOk result
        (entry_count (B.working leaves.new)
        ≤ entry_count (B.working leaves.old) + length come.now) }
    ensures others { B.whole leaves.old → ¬ IsErrOf result Stop.Fault →
        SameBut come.now (B.working leaves.old) (B.working leaves.new) }
    ensures keeps { Keeps B.View leaves.old leaves.new }
    ensures work { B.work leaves.new ≡ B.work leaves.old }
    ensures ends { Ends B.View (B.whole leaves.old) leaves.old leaves.new result }
    ensures full { B.whole leaves.old → IsErrOf result Stop.Full →
        IsCrowdedBy (B.limit leaves.old) (entry_count (B.working leaves.old) + length come.now) }
    ensures full_of_some { IsErrOf result Stop.Full → 0 < length come.now }
{
    for i in 0..come.len() {
        let entry = &come[i];
        if !has_entry(gone, entry, i) {
            leaves.put(
                alloc,
                entry.leaf,
                entry.key.as_slice(),
                entry.body.as_slice(),
            )?;
        }
    }
    Ok(())
}
