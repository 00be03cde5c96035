// The records of pointer arrays.
ghost use Rattle.std.specs.Prelude.{◌≡◌, ◌≤◌, ◌<◌, ℕ, length, true, false, Ok, IfOk, IsErrOf};
ghost use Rattle.gx_values.specs.declared.values.Value.{Value as FieldValue};
ghost use Rattle.gx_values.specs.declared.records.Rec.{Rec as Record};
ghost use Rattle.gx_values.specs.Keys.{bytes_of, key_of, IsKeyKind};
ghost use Rattle.gx_values.specs.declared.bytes.TheConstants.{MAX_KEY_LEN};
ghost use Rattle.gx_mapping.specs.Rule.{In};
ghost use Rattle.gx_stack.specs.Tree.{leaf_body};
ghost use Rattle.gx_links.specs.Links.{with_member};
ghost use Rattle.gx_lists.specs.Arrays.{array_rec, first_body, place_in, WithMember, WithoutMember, IsOwnerAmong, AreOfNone};

use crate::pieces::cut_members;
use gx_gather::{NO_BLOCK, Recs};
use gx_ports::Stop;
use gx_values::{Kind, NoMemory, Octets, Rec, Value, Values, compare, value_key};
use std::alloc::Global;

// The key bytes of members, joined.
fn joined(alloc: Global, members: &[Value]) -> Result<Octets, NoMemory>
    requires { (m : FieldValue) → In m members.now → length (bytes_of m) ≤ MAX_KEY_LEN }
    ensures { IfOk result (λ bytes. bytes ≡ key_of members.now) }
{
    let mut bytes = Vec::new(alloc);
    for member in members {
        let key = value_key(member);
        bytes.extend_from_slice(key.as_slice())?;
    }
    Ok(Octets(bytes))
}

// The record of an owner with these members.
pub fn array_rec(alloc: Global, owner: &Value, members: &[Value]) -> Result<Rec, NoMemory>
    requires { (m : FieldValue) → In m members.now → length (bytes_of m) ≤ MAX_KEY_LEN }
    ensures { IfOk result (λ rec. rec ≡ array_rec owner.now members.now) }
{
    let mut key = Vec::with_capacity(alloc, 1)?;
    key.push(owner.copy(alloc)?)?;
    let mut fields = Vec::with_capacity(alloc, 1)?;
    fields.push(Value::Bytes(joined(alloc, members)?))?;
    Ok(Rec {
        key: Values(key),
        fields: Values(fields),
    })
}

// The bytes of a record's one field.
pub fn body_of(rec: &Rec) -> &[u8]
    ensures { result.now ≡ leaf_body rec.now.fields }
{
    match rec.fields.0.first() {
        Some(Value::Bytes(bytes)) => bytes.as_slice(),
        _ => &[],
    }
}

// Those of the first record.
pub fn first_body(found: &[Rec]) -> &[u8]
    ensures { result.now ≡ first_body found.now }
{
    match found.first() {
        Some(rec) => body_of(rec),
        None => &[],
    }
}

// How many of the members come before this one.
fn place_of(member: &Value, members: &[Value]) -> usize
    ensures place { result ≡ place_in member.now members.now }
    ensures within { result ≤ length members.now }
{
    for i in 0..members.len() {
        if compare(member, &members[i]).is_lt() {
            return i;
        }
    }
    members.len()
}

// The ascending members with one more.
pub fn with_member(alloc: Global, member: &Value, members: &Values) -> Result<Values, NoMemory>
    ensures { IfOk result (λ with. with ≡ with_member member.now members.now) }
{
    let mut with = members.copy(alloc)?;
    let at = place_of(member, &members.0);
    with.0.insert(at, member.copy(alloc)?)?;
    Ok(with)
}

// Whether a member is one of these.
fn is_among(member: &Value, members: &[Value]) -> bool
    ensures yes { result ≡ true → In member.now members.now }
    ensures no { result ≡ false → In member.now members.now → ⊥ }
{
    for other in members {
        if compare(other, member).is_eq() {
            return true;
        }
    }
    false
}

// Whether a member is one of those of a record. `Damaged`: the record is that of no members.
fn has_member(alloc: Global, kind: Kind, rec: &Rec, member: &Value) -> Result<bool, Stop>
    requires { IsKeyKind kind }
    ensures yes { result ≡ Ok true → WithMember kind rec.now member.now }
    ensures no { result ≡ Ok false → WithoutMember kind rec.now member.now }
    ensures damaged { (n : ℕ) → IsErrOf result (Stop.Damaged n) →
        AreOfNone kind (leaf_body rec.now.fields) }
    ensures block { (n : ℕ) → IsErrOf result (Stop.Damaged n) → n ≡ 0 }
    ensures not_full { ¬ IsErrOf result Stop.Full }
    ensures not_fault { ¬ IsErrOf result Stop.Fault }
{
    let mut members = Values(Vec::new(alloc));
    if cut_members(alloc, kind, body_of(rec), &mut members)? {
        Ok(is_among(member, &members.0))
    } else {
        Err(Stop::Damaged(NO_BLOCK))
    }
}

// The owner in the first record whose members this one is among. `Damaged`: some record is that of
// no members.
pub fn owner_among(
    alloc: Global,
    kind: Kind,
    found: &Recs,
    member: &Value,
) -> Result<Option<Value>, Stop>
    requires kind { IsKeyKind kind }
    requires some { (r : Record) → In r found.now → 0 < length r.key }
    ensures among { IfOk result (IsOwnerAmong kind member.now found.now) }
    ensures damaged { (n : ℕ) → IsErrOf result (Stop.Damaged n) →
        (r : Record) × In r found.now × AreOfNone kind (leaf_body r.fields) }
    ensures block { (n : ℕ) → IsErrOf result (Stop.Damaged n) → n ≡ 0 }
    ensures not_full { ¬ IsErrOf result Stop.Full }
    ensures not_fault { ¬ IsErrOf result Stop.Fault }
{
    for rec in found.0.iter() {
        if has_member(alloc, kind, rec, member)? {
            return Ok(Some(rec.key.0[0].copy(alloc)?));
        }
    }
    Ok(None)
}
