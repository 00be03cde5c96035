// How a layer is made.
ghost use Rattle.std.specs.Prelude.{◌≡◌, IfOk};
ghost use Rattle.gx_divide.specs.Forms.{seq_field, piece_field, divide_form, IsDivide};
ghost use Rattle.gx_divide.specs.Rules.{form_of, size_of};

use crate::layer::Divide;
use gx_values::{Field, Fields, Form, Kind, Name, NoMemory};
use std::alloc::Global;

/// The layer of records of this form, in pieces of `size` bytes and a last one of fewer.
/// `NoMemory`: there was none for its forms.
pub fn divide(alloc: Global, form: &Form, size: u16) -> Result<Divide, NoMemory>
    requires { IsDivide form.now size }
    ensures form { IfOk result (λ made. form_of made ≡ form.now) }
    ensures size { IfOk result (λ made. size_of made ≡ size) }
{
    Ok(Divide {
        form: form.copy(alloc)?,
        kid: piece_form(alloc, form, size)?,
        size,
    })
}

fn piece_form(alloc: Global, form: &Form, size: u16) -> Result<Form, NoMemory>
    ensures { IfOk result (λ made. made ≡ divide_form size form.now) }
{
    let mut keys = form.keys.copy(alloc)?.0;
    keys.push(seq_field())?;
    let mut fields = Vec::with_capacity(alloc, 1)?;
    fields.push(piece_field(size))?;
    Ok(Form {
        keys: Fields(keys),
        fields: Fields(fields),
    })
}

fn seq_field() -> Field
    ensures { result ≡ seq_field }
{
    Field {
        name: Name::from_slice(b"_seq"),
        kind: Kind::Int,
    }
}

fn piece_field(size: u16) -> Field
    ensures { result ≡ piece_field size }
{
    Field {
        name: Name::from_slice(b"_piece"),
        kind: Kind::Bytes(size),
    }
}
