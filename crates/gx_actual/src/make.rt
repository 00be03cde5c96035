// How a layer is made.
ghost use Rattle.std.specs.Prelude.{◌≡◌, ◌≤◌, IfOk};
ghost use Rattle.gx_actual.specs.Bodies.{field_width, field_widths, AreShortTexts};
ghost use Rattle.gx_actual.specs.Forms.{body_field, actual_form};
ghost use Rattle.gx_actual.specs.Rules.{form_of};

use crate::layer::Actual;
use gx_values::{Field, Fields, Form, Kind, Name, NoMemory};
use std::alloc::Global;

/// The layer of records of this form. `NoMemory`: there was none for its forms.
pub fn actual(alloc: Global, form: &Form) -> Result<Actual, NoMemory>
    requires texts { AreShortTexts form.now.fields }
    requires narrow { field_widths form.now.fields ≤ 65535 }
    ensures { IfOk result (λ made. form_of made ≡ form.now) }
{
    Ok(Actual {
        form: form.copy(alloc)?,
        kid: body_form(alloc, form)?,
    })
}

fn body_form(alloc: Global, form: &Form) -> Result<Form, NoMemory>
    requires { field_widths form.now.fields ≤ 65535 }
    ensures { IfOk result (λ made. made ≡ actual_form form.now) }
{
    let mut fields = Vec::with_capacity(alloc, 1)?;
    fields.push(body_field(body_width(&form.fields)))?;
    Ok(Form {
        keys: form.keys.copy(alloc)?,
        fields: Fields(fields),
    })
}

fn body_field(width: u16) -> Field
    ensures { result ≡ body_field width }
{
    Field {
        name: Name::from_slice(b"_body"),
        kind: Kind::Bytes(width),
    }
}

// How many bytes the values of these fields take in a body at most.
fn body_width(fields: &Fields) -> u16
    requires { field_widths fields.now ≤ 65535 }
    ensures { result ≡ field_widths fields.now }
{
    let mut width = 0;
    for field in fields.0.iter() {
        width += value_width(field.kind);
    }
    width
}

fn value_width(kind: Kind) -> u16
    requires { field_width kind ≤ 65535 }
    ensures { result ≡ field_width kind }
{
    match kind {
        Kind::Int => 8,
        Kind::Text(most) => most + 1,
        Kind::Bytes(most) => most + 2,
    }
}
