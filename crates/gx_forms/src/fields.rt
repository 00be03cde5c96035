// Fields of a form by their names, and how wide they are.
ghost use Rattle.std.specs.Prelude.{◌≡◌, min, Option};
ghost use Rattle.gx_values.specs.Values.{first_kind, kind_in};
ghost use Rattle.gx_values.specs.Keys.{width_of, widths};
ghost use Rattle.gx_forms.specs.Fields.{body_width, body_widths, has_name};

use gx_values::{Field, Kind, Name};

/// How many bytes the key of such a value has at most, up to 65,535.
pub fn key_width(kind: Kind) -> u16
    ensures { result ≡ min 65535 (width_of kind) }
{
    match kind {
        Kind::Int => 8,
        Kind::Text(most) | Kind::Bytes(most) => most.saturating_add(1),
    }
}

/// How many bytes a key of the fields has at most, up to 65,535.
pub fn key_widths(keys: &[Field]) -> u16
    ensures { result ≡ min 65535 (widths keys.now) }
{
    let mut sum: u16 = 0;
    let mut rest = keys;
    while let [field, after @ ..] = rest {
        sum = sum.saturating_add(key_width(field.kind));
        rest = after;
    }
    sum
}

fn body_width(kind: Kind) -> u16
    ensures { result ≡ min 65535 (body_width kind) }
{
    match kind {
        Kind::Int => 8,
        Kind::Text(most) => most.saturating_add(1),
        Kind::Bytes(most) => most.saturating_add(2),
    }
}

/// How many bytes a body of the fields has at most, up to 65,535.
pub fn body_widths(fields: &[Field]) -> u16
    ensures { result ≡ min 65535 (body_widths fields.now) }
{
    let mut sum: u16 = 0;
    let mut rest = fields;
    while let [field, after @ ..] = rest {
        sum = sum.saturating_add(body_width(field.kind));
        rest = after;
    }
    sum
}

/// The kind of the first field of the name.
pub fn kind_in(fields: &[Field], name: &[u8]) -> Option<Kind>
    ensures { result ≡ kind_in fields.now name.now }
{
    let mut rest = fields;
    while let [field, after @ ..] = rest {
        if field.name.as_slice() == name {
            return Some(field.kind);
        }
        rest = after;
    }
    None
}

/// Whether the name is one of these.
pub fn has_name(names: &[Name], name: &[u8]) -> bool
    ensures { result ≡ has_name names.now name.now }
{
    names.iter().any(|other| other.as_slice() == name)
}

/// The kind of the first field; `Int` where there is none.
pub fn first_kind(fields: &[Field]) -> Kind
    ensures { result ≡ first_kind fields.now }
{
    match fields {
        [first, ..] => first.kind,
        [] => Kind::Int,
    }
}
