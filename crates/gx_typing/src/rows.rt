// What each head asks of the form that it gets.
ghost use Rattle.std.specs.Prelude.{◌≡◌, ◌≤◌, ◌==◌, length, OnOk};
ghost use Rattle.gx_values.specs.Keys.{widths};
ghost use Rattle.gx_values.specs.declared.bytes.TheConstants.{MAX_KEY_LEN};
ghost use Rattle.gx_typing.specs.Conditions.{is_bound, ascends, is_coded, is_key_kind, is_data, are_data, leaves_some};
ghost use Rattle.gx_forms.specs.Fields.{has_name};
ghost use Rattle.gx_equation.specs.Seen.{tree_of};
ghost use Rattle.gx_typing.specs.Typing.{term_row};
ghost use Rattle.gx_typing.specs.Rows.{tested, data_kind, any_kind, leaf_body, leaf_row, encode_row, segment_row, transpose_row, partition_row, divide_row, index_row};
ghost use Rattle.std.specs.List.{list_all};

use crate::reasons::TypeWhy;
use gx_equation::{Names, Term};
use gx_forms::{has_name, key_widths, kind_in};
use gx_ports::{MAX_ENTRY_LEN, MAX_KEY_LEN};
use gx_values::{Code, Field, Form, Kind, Name, Value, Values, compare, is_printable_text};

/// The reason, unless the condition is met.
pub fn tested(why: TypeWhy, met: bool) -> Result<(), TypeWhy>
    ensures { result ≡ tested why met }
{
    if met { Ok(()) } else { Err(why) }
}

// ---- fields by their names

// The kind of the data field of the name, which no key field may have.
fn data_kind(form: &Form, name: &[u8]) -> Result<Kind, TypeWhy>
    ensures { result ≡ data_kind form.now name.now }
{
    if kind_in(&form.keys.0, name).is_some() {
        return Err(TypeWhy::FieldName);
    }
    kind_in(&form.fields.0, name).ok_or(TypeWhy::FieldName)
}

// The kind of the field of the name, keys before data.
fn any_kind(form: &Form, name: &[u8]) -> Result<Kind, TypeWhy>
    ensures { result ≡ any_kind form.now name.now }
{
    match kind_in(&form.keys.0, name) {
        Some(kind) => Ok(kind),
        None => kind_in(&form.fields.0, name).ok_or(TypeWhy::FieldName),
    }
}

fn is_data(form: &Form, name: &[u8]) -> bool
    ensures { result ≡ is_data form.now name.now }
{
    kind_in(&form.keys.0, name).is_none() && kind_in(&form.fields.0, name).is_some()
}

// Whether each name is that of a data field, and stands once.
fn are_data(form: &Form, names: &[Name]) -> bool
    ensures { result ≡ are_data form.now names.now }
{
    let mut rest = names;
    while let [name, after @ ..] = rest {
        if !is_data(form, name.as_slice()) || has_name(after, name.as_slice()) {
            return false;
        }
        rest = after;
    }
    true
}

// Whether a field has a name other than these.
fn leaves_some(fields: &[Field], names: &[Name]) -> bool
    ensures { result ≡ leaves_some fields.now names.now }
{
    fields
        .iter()
        .any(|field| !has_name(names, field.name.as_slice()))
}

// ---- bounds

fn is_key_kind(kind: Kind) -> bool
    ensures { result ≡ is_key_kind kind }
{
    matches!(kind, Kind::Int | Kind::Text(_))
}

// Whether the value may bound a field of the kind: an int one of ints, and a text one of texts that
// it fits.
fn is_bound(kind: Kind, bound: &Value) -> bool
    ensures { result ≡ is_bound kind bound.now }
{
    match (kind, bound) {
        (Kind::Int, Value::Int(_)) => true,
        (Kind::Text(most), Value::Text(text)) => {
            text.as_slice().len() <= usize::from(most) && is_printable_text(text.as_slice())
        }
        _ => false,
    }
}

fn are_bounds(kind: Kind, bounds: &[Value]) -> bool
    ensures { result ≡ list_all (is_bound kind) bounds.now }
{
    bounds.iter().all(|bound| is_bound(kind, bound))
}

fn ascends(bounds: &[Value]) -> bool
    ensures { result ≡ ascends bounds.now }
{
    let mut rest = bounds;
    while let [first, after @ ..] = rest {
        if let [second, ..] = after {
            if !compare(first, second).is_lt() {
                return false;
            }
        }
        rest = after;
    }
    true
}

// ---- heads

fn leaf_body(fields: &[Field]) -> Result<u16, TypeWhy>
    ensures { result ≡ leaf_body fields.now }
{
    match fields {
        [] => Ok(0),
        [field] => match field.kind {
            Kind::Bytes(most) => Ok(most),
            _ => Err(TypeWhy::LeafForm),
        },
        _ => Err(TypeWhy::LeafForm),
    }
}

/// What a leaf asks: no data field, or one of bytes; and a short key and a short entry.
pub fn leaf_row(form: &Form) -> Result<(), TypeWhy>
    ensures short { OnOk result (widths form.now.keys ≤ MAX_KEY_LEN) }
    ensures exact { result ≡ leaf_row form.now }
{
    let body = leaf_body(&form.fields.0)?;
    let key = key_widths(&form.keys.0);
    tested(TypeWhy::KeyLength, usize::from(key) <= MAX_KEY_LEN)?;
    let entry = usize::from(key) + usize::from(body);
    tested(TypeWhy::EntryLength, entry <= MAX_ENTRY_LEN)
}

fn is_coded(code: Code, kind: Kind) -> bool
    ensures { result ≡ is_coded code kind }
{
    match code {
        Code::Pack => matches!(kind, Kind::Int),
        Code::Rle => matches!(kind, Kind::Text(_)),
    }
}

/// What `encode` asks: a data field of the kind that the code is for.
pub fn encode_row(form: &Form, name: &Name, code: Code) -> Result<(), TypeWhy>
    ensures { result ≡ encode_row name.now code form.now }
{
    let kind = data_kind(form, name.as_slice())?;
    tested(TypeWhy::FieldKind, is_coded(code, kind))
}

/// What `segment` asks: names of data fields, each once, that leave a field over.
pub fn segment_row(form: &Form, names: &Names) -> Result<(), TypeWhy>
    ensures { result ≡ segment_row names.now form.now }
{
    tested(TypeWhy::FieldName, are_data(form, &names.0))?;
    tested(TypeWhy::Groups, leaves_some(&form.fields.0, &names.0))
}

/// What `transpose` asks of its form and of how many children it has: a child for each data field,
/// of which there is one.
pub fn transpose_row(form: &Form, kids: usize) -> Result<(), TypeWhy>
    ensures same { OnOk result (kids ≡ length form.now.fields) }
    ensures exact { result ≡ transpose_row form.now kids }
{
    let fields = form.fields.0.len();
    tested(TypeWhy::Children, fields > 0 && kids == fields)
}

/// What `partition` asks of its form and of how many children it has: a field with bounds that fit
/// it and ascend, and a child more than bounds.
pub fn partition_row(form: &Form, name: &Name, bounds: &Values, kids: usize) -> Result<(), TypeWhy>
    ensures { result ≡ partition_row name.now bounds.now form.now kids }
{
    let kind = any_kind(form, name.as_slice())?;
    tested(
        TypeWhy::FieldKind,
        is_key_kind(kind) && are_bounds(kind, &bounds.0),
    )?;
    tested(TypeWhy::Bounds, ascends(&bounds.0))?;
    tested(TypeWhy::Children, kids > 0 && kids - 1 == bounds.0.len())
}

/// What `divide` asks: one data field, of bytes.
pub fn divide_row(form: &Form) -> Result<(), TypeWhy>
    ensures { result ≡ divide_row form.now }
{
    match form.fields.0.as_slice() {
        [field] => tested(TypeWhy::OneBytes, matches!(field.kind, Kind::Bytes(_))),
        _ => Err(TypeWhy::OneBytes),
    }
}

/// What `index` asks: a data field of ints or of texts.
pub fn index_row(form: &Form, name: &Name) -> Result<(), TypeWhy>
    ensures { result ≡ index_row name.now form.now }
{
    let kind = data_kind(form, name.as_slice())?;
    tested(TypeWhy::FieldKind, is_key_kind(kind))
}

/// What the head of a term asks of the form that it gets, and of how many children it has.
pub fn term_row(form: &Form, term: &Term) -> Result<(), TypeWhy>
    ensures { result ≡ term_row form.now (tree_of term.now) }
{
    match term {
        Term::Leaf(_) => leaf_row(form),
        Term::Actual(_) => Ok(()),
        Term::Encode(name, code, _) => encode_row(form, name, *code),
        Term::Segment(names, _, _) => segment_row(form, names),
        Term::Transpose(kids) => transpose_row(form, kids.len()),
        Term::Partition(name, bounds, kids) => partition_row(form, name, bounds, kids.len()),
        Term::Divide(_, _) => divide_row(form),
        Term::Index(name, _, _) => index_row(form, name),
    }
}
