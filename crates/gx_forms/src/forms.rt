// The forms that heads give to their children.
ghost use Rattle.std.specs.Prelude.{◌≡◌, ◌<◌, ◌≤◌, ◌∷◌, [], not, length, filter, IfOk};
ghost use Rattle.gx_values.specs.Values.{coded_kind};
ghost use Rattle.gx_equation.specs.Seen.{tree_of};
ghost use Rattle.gx_equation.specs.Trees.{head_of, arity, One_kid, Two_kids};
ghost use Rattle.gx_forms.specs.Fields.{field, has_name};
ghost use Rattle.gx_forms.specs.Forms.{coded_field, actual_form, encode_form, named_form, others_form, one_field, divide_form, index_form, index_kind, kid_form};
ghost use Rattle.gx_forms.specs.Narrow.{narrow, narrow_kind, narrow_field};

use crate::fields::{body_widths, has_name, kind_in};
use gx_equation::{Names, Term};
use gx_values::{Code, Field, Fields, Form, Kind, Name};
use std::alloc::{AllocError, Global};

/// A field of this name, of at most 16 bytes, and this kind.
pub fn make_field(name: &[u8], kind: Kind) -> Field
    requires { length name.now ≤ 16 }
    ensures { result ≡ field name.now kind }
{
    Field {
        name: Name::from_slice(name),
        kind,
    }
}

fn copy_field(field: &Field) -> Field
    ensures { result ≡ field.now }
{
    make_field(field.name.as_slice(), field.kind)
}

/// Equal fields.
pub fn copy_fields(alloc: Global, fields: &[Field]) -> Result<Fields, AllocError>
    ensures { IfOk result (λ copy. copy ≡ fields.now) }
{
    let mut copy = Vec::with_capacity(alloc, fields.len())?;
    for field in fields {
        copy.push(copy_field(field))?;
    }
    Ok(Fields(copy))
}

fn form_of(alloc: Global, keys: &Fields, field: Field) -> Result<Form, AllocError>
    ensures { IfOk result (λ made. made ≡ record { keys = keys.now; fields = field ∷ [] }) }
{
    let keys = copy_fields(alloc, &keys.0)?;
    let mut fields = Vec::new(alloc);
    fields.push(field)?;
    Ok(Form {
        keys,
        fields: Fields(fields),
    })
}

/// The form of the child of `actual`. A body counts as no longer than 65,535 bytes, which is past
/// what a leaf takes.
pub fn actual_form(alloc: Global, form: &Form) -> Result<Form, AllocError>
    ensures { IfOk result (λ made. narrow made ≡ narrow (actual_form form.now)) }
{
    let width = body_widths(&form.fields.0);
    form_of(alloc, &form.keys, make_field(b"_body", Kind::Bytes(width)))
}

// The kind that a field has by its code.
fn coded_kind(code: Code, kind: Kind) -> Kind
    ensures { narrow_kind result ≡ narrow_kind (coded_kind code kind) }
{
    match (code, kind) {
        (Code::Pack, _) => Kind::Bytes(8),
        (Code::Rle, Kind::Text(most)) => Kind::Bytes(most.saturating_mul(2)),
        (Code::Rle, other) => other,
    }
}

fn coded_field(field: &Field, name: &Name, code: Code) -> Field
    ensures { narrow_field result ≡ narrow_field (coded_field name.now code field.now) }
{
    let mut coded = copy_field(field);
    if field.name.as_slice() == name.as_slice() {
        coded.kind = coded_kind(code, field.kind);
    }
    coded
}

/// The form of the child of `encode`.
pub fn encode_form(alloc: Global, form: &Form, name: &Name, code: Code) -> Result<Form, AllocError>
    ensures { IfOk result (λ made. narrow made ≡ narrow (encode_form name.now code form.now)) }
{
    let keys = copy_fields(alloc, &form.keys.0)?;
    let mut fields = Vec::with_capacity(alloc, form.fields.0.len())?;
    for field in form.fields.0.iter() {
        fields.push(coded_field(field, name, code))?;
    }
    Ok(Form {
        keys,
        fields: Fields(fields),
    })
}

// The fields that have one of the names, and the others.
fn split_fields(
    alloc: Global,
    fields: &[Field],
    names: &Names,
) -> Result<(Fields, Fields), AllocError>
    ensures { IfOk result (λ parts. (parts.0 ≡ filter (λ f. has_name names.now f.name) fields.now)
        × (parts.1 ≡ filter (λ f. not (has_name names.now f.name)) fields.now)) }
{
    let mut named = Vec::new(alloc);
    let mut others = Vec::new(alloc);
    for field in fields {
        if has_name(&names.0, field.name.as_slice()) {
            named.push(copy_field(field))?;
        } else {
            others.push(copy_field(field))?;
        }
    }
    Ok((Fields(named), Fields(others)))
}

/// The forms of the two children of `segment`: the named fields, and the others.
pub fn segment_forms(alloc: Global, form: &Form, names: &Names) -> Result<(Form, Form), AllocError>
    ensures { IfOk result (λ made. (made.0 ≡ named_form names.now form.now)
        × (made.1 ≡ others_form names.now form.now)) }
{
    let (named, others) = split_fields(alloc, &form.fields.0, names)?;
    let first = Form {
        keys: copy_fields(alloc, &form.keys.0)?,
        fields: named,
    };
    let second = Form {
        keys: copy_fields(alloc, &form.keys.0)?,
        fields: others,
    };
    Ok((first, second))
}

/// The form of the child of `transpose` with the number, counted from 0.
pub fn one_field(alloc: Global, form: &Form, number: usize) -> Result<Form, AllocError>
    requires { number < length form.now.fields }
    ensures { IfOk result (λ made. made ≡ one_field form.now number) }
{
    form_of(alloc, &form.keys, copy_field(&form.fields.0[number]))
}

/// The form of the child of `divide` in pieces of so many bytes.
pub fn divide_form(alloc: Global, form: &Form, size: u16) -> Result<Form, AllocError>
    ensures { IfOk result (λ made. made ≡ divide_form size form.now) }
{
    let mut made = form_of(alloc, &form.keys, make_field(b"_piece", Kind::Bytes(size)))?;
    made.keys.0.push(make_field(b"_seq", Kind::Int))?;
    Ok(made)
}

// The kind of an indexed field: an int or a text.
fn index_kind(kind: Option<Kind>) -> Kind
    ensures { result ≡ index_kind kind }
{
    match kind {
        Some(Kind::Text(most)) => Kind::Text(most),
        _ => Kind::Int,
    }
}

/// The form of the second child of `index`: the field before the keys, and no data.
pub fn index_form(alloc: Global, form: &Form, name: &Name) -> Result<Form, AllocError>
    ensures { IfOk result (λ made. made ≡ index_form name.now form.now) }
{
    let kind = index_kind(kind_in(&form.fields.0, name.as_slice()));
    let mut keys = Vec::with_capacity(alloc, form.keys.0.len() + 1)?;
    keys.push(make_field(name.as_slice(), kind))?;
    for key in form.keys.0.iter() {
        keys.push(copy_field(key))?;
    }
    Ok(Form {
        keys: Fields(keys),
        fields: Fields(Vec::new(alloc)),
    })
}

// The forms of the two children of `index`: the records, and their entries.
fn index_forms(alloc: Global, form: &Form, name: &Name) -> Result<(Form, Form), AllocError>
    ensures { IfOk result (λ made. (made.0 ≡ form.now) × (made.1 ≡ index_form name.now form.now)) }
{
    let records = Form {
        keys: copy_fields(alloc, &form.keys.0)?,
        fields: copy_fields(alloc, &form.fields.0)?,
    };
    Ok((records, index_form(alloc, form, name)?))
}

// ---- by the head of a term

/// The form of the child of a term that has one.
pub fn only_form(alloc: Global, form: &Form, term: &Term) -> Result<Form, AllocError>
    requires { arity (head_of (tree_of term.now)) ≡ One_kid }
    ensures { IfOk result
        (λ made. narrow made ≡ narrow (kid_form (head_of (tree_of term.now)) form.now 0)) }
{
    match term {
        Term::Actual(_) => actual_form(alloc, form),
        Term::Encode(name, code, _) => encode_form(alloc, form, name, *code),
        Term::Divide(size, _) => divide_form(alloc, form, *size),
        _ => unreachable!(),
    }
}

/// The forms of the children of a term that has two.
pub fn two_forms(alloc: Global, form: &Form, term: &Term) -> Result<(Form, Form), AllocError>
    requires { arity (head_of (tree_of term.now)) ≡ Two_kids }
    ensures first { IfOk result
        (λ made. narrow made.0 ≡ narrow (kid_form (head_of (tree_of term.now)) form.now 0)) }
    ensures second { IfOk result
        (λ made. narrow made.1 ≡ narrow (kid_form (head_of (tree_of term.now)) form.now 1)) }
{
    match term {
        Term::Segment(names, _, _) => segment_forms(alloc, form, names),
        Term::Index(name, _, _) => index_forms(alloc, form, name),
        _ => unreachable!(),
    }
}
