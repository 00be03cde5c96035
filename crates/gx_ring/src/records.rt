// The records of rings.
ghost use Rattle.std.specs.Prelude.{◌≡◌, ◌<◌, [], ◌∷◌, length, get_or, IfOk};
ghost use Rattle.gx_values.specs.declared.values.Value.TheVariants as value;
ghost use Rattle.gx_values.specs.Keys.{bytes_of};
ghost use Rattle.std.specs.Option.{option_map};
ghost use Rattle.gx_stack.specs.Internal.{IfThere};
ghost use Rattle.gx_values.specs.Values.{no_value};
ghost use Rattle.gx_ring.specs.Ring.{head_rec, chain_rec, head_if};
ghost use Rattle.gx_ring.specs.Records.{IsKeyValue, IsBehind};
ghost use Rattle.gx_values.specs.Keys.{IsKeyKind};

use gx_values::{Kind, NoMemory, Octets, Rec, Value, Values, read_value_key, value_key};
use std::alloc::Global;

// The record of an owner, with its first member.
pub fn head_rec(alloc: Global, owner: &Value, member: &Value) -> Result<Rec, NoMemory>
    ensures { IfOk result (λ rec. rec ≡ head_rec owner.now member.now) }
{
    Ok(Rec {
        key: one_value(alloc, owner)?,
        fields: one_value(alloc, member)?,
    })
}

// The record of an owner that may have no member.
pub fn head_if(
    alloc: Global,
    owner: &Value,
    member: Option<&Value>,
) -> Result<Option<Rec>, NoMemory>
    ensures { IfOk result (λ rec. rec ≡ head_if owner.now (option_map (λ v. v.now) member.entry)) }
{
    match member {
        Some(member) => Ok(Some(head_rec(alloc, owner, member)?)),
        None => Ok(None),
    }
}

// The record of a member, with the next one, if there is one, and the owner.
pub fn chain_rec(
    alloc: Global,
    owner: &Value,
    member: &Value,
    next: Option<&Value>,
) -> Result<Rec, NoMemory>
    requires owner { IsKeyValue owner.now }
    requires next { IfThere (option_map (λ v. v.now) next) IsKeyValue }
    ensures { IfOk result
        (λ rec. rec ≡ chain_rec owner.now member.now (option_map (λ v. v.now) next.entry)) }
{
    let key = one_value(alloc, member)?;
    let fields = match next {
        Some(next) => link_fields(alloc, 0, next, owner)?,
        None => link_fields(alloc, 1, owner, owner)?,
    };
    Ok(Rec { key, fields })
}

// What a record of the chain has besides its key.
fn link_fields(alloc: Global, last: i64, next: &Value, owner: &Value) -> Result<Values, NoMemory>
    requires { IsKeyValue next.now }
    ensures { IfOk result (λ values.
        values ≡ value.Int last ∷ value.Bytes (bytes_of next.now) ∷ owner.now ∷ []) }
{
    let bytes = value_key(next);
    let mut fields = Vec::with_capacity(alloc, 3)?;
    fields.push(Value::Int(last))?;
    fields.push(Value::Bytes(Octets::from_slice(alloc, bytes.as_slice())?))?;
    fields.push(owner.copy(alloc)?)?;
    Ok(Values(fields))
}

fn one_value(alloc: Global, value: &Value) -> Result<Values, NoMemory>
    ensures { IfOk result (λ values. values ≡ value.now ∷ []) }
{
    let mut values = Vec::with_capacity(alloc, 1)?;
    values.push(value.copy(alloc)?)?;
    Ok(Values(values))
}

// What stands behind a member.
#[derive(Drop)]
pub enum Behind {
    // no member
    Nothing,
    Member(Value),
    // the record is none of a chain
    Unknown,
}

// What stands behind the member of a record, where members are of this kind.
pub fn read_behind(alloc: Global, kind: Kind, rec: &Rec) -> Result<Behind, NoMemory>
    requires { IsKeyKind kind }
    ensures { IfOk result (IsBehind kind rec.now) }
{
    match rec.fields.0.as_slice() {
        [Value::Int(1), ..] => Ok(Behind::Nothing),
        [Value::Int(0), Value::Bytes(key), ..] => {
            match read_value_key(alloc, kind, key.as_slice())? {
                Some(member) => Ok(Behind::Member(member)),
                None => Ok(Behind::Unknown),
            }
        }
        _ => Ok(Behind::Unknown),
    }
}

// The value of one data field of a record.
pub fn take_field(rec: Rec, index: usize) -> Value
    requires { index < length rec.fields }
    ensures { result ≡ get_or rec.fields index no_value }
{
    let mut fields = rec.fields.0;
    fields.remove(index)
}
