// How a layer is made.
ghost use Rattle.std.specs.Prelude.{◌≡◌, ◌<◌, length, slice_index_or, IfOk};
ghost use Rattle.gx_encode.specs.Codes.{IsCodeKind};
ghost use Rattle.gx_values.specs.Values.{no_field, coded_kind};
ghost use Rattle.gx_encode.specs.Forms.{changed, coded_field, encode_form, IsEncode};
ghost use Rattle.gx_encode.specs.Rules.{form_of, field_of, used_code_of};

use crate::layer::Encode;
use gx_values::{Code, Field, Fields, Form, Kind, NoMemory};
use std::alloc::Global;

/// The layer of records of this form, with the data field of the number, from 0, by its code.
/// `NoMemory`: there was none for its forms.
pub fn encode(alloc: Global, form: &Form, field: u16, code: Code) -> Result<Encode, NoMemory>
    requires { IsEncode form.now field code }
    ensures form { IfOk result (λ made. form_of made ≡ form.now) }
    ensures field { IfOk result (λ made. field_of made ≡ field) }
    ensures code { IfOk result (λ made. used_code_of made ≡ code) }
{
    Ok(Encode {
        form: form.copy(alloc)?,
        kid: coded_form(alloc, form, usize::from(field), code)?,
        field,
        code,
    })
}

fn coded_form(alloc: Global, form: &Form, field: usize, code: Code) -> Result<Form, NoMemory>
    requires { IsEncode form.now field code }
    ensures { IfOk result (λ made. made ≡ encode_form field code form.now) }
{
    let coded = coded_field(code, field_at(&form.fields, field));
    Ok(Form {
        keys: form.keys.copy(alloc)?,
        fields: with_field(alloc, &form.fields, field, coded)?,
    })
}

fn field_at(fields: &Fields, number: usize) -> &Field
    requires { number < length fields.now }
    ensures { result.now ≡ slice_index_or fields.now number no_field }
{
    &fields.0[number]
}

// The fields with another one in the place of the one with the number.
fn with_field(
    alloc: Global,
    fields: &Fields,
    number: usize,
    field: Field,
) -> Result<Fields, NoMemory>
    requires { number < length fields.now }
    ensures { IfOk result (λ made. made ≡ changed number (λ _. field) fields.now) }
{
    let mut made = fields.copy(alloc)?;
    made.0[number] = field;
    Ok(made)
}

fn coded_field(code: Code, field: &Field) -> Field
    requires { IsCodeKind code field.now.kind }
    ensures { result ≡ coded_field code field.now }
{
    let copy = field.copy();
    Field {
        name: copy.name,
        kind: coded_kind(code, field.kind),
    }
}

// An int is at most 8 bytes, and a text at most two for each of its bytes.
fn coded_kind(code: Code, kind: Kind) -> Kind
    requires { IsCodeKind code kind }
    ensures { result ≡ coded_kind code kind }
{
    match (code, kind) {
        (Code::Pack, _) => Kind::Bytes(8),
        (Code::Rle, Kind::Text(most)) => Kind::Bytes(2 * most),
        (Code::Rle, _) => unreachable!(),
    }
}
