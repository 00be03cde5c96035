// Bytes that may be missing, in the value itself where they are few.
ghost use Rattle.std.specs.Prelude.{◌≡◌, Some, None, IfOk, is_some};
ghost use Rattle.std.specs.Option.{option_copied};

use crate::short::Short;
use gx_values::NoMemory;
use std::alloc::Global;
use std::marker::Model;

// the most bytes in the value itself, which takes 32 with their length, as it does with a vector
const ROOM: usize = 30;

/// Bytes, or none. Few of them have no memory of their own.
#[derive(Drop)]
pub struct MaybeBytes {
    form: Form,
}

#[derive(Drop)]
enum Form {
    None,
    Short(Short<ROOM>),
    Long(Vec<u8>),
}

impl Model for MaybeBytes {
    ghost use Rattle.std.specs.Prelude.{List, ℕ, Option};
    ghost use Rattle.gx_memory_leaves.specs.Forms.{form_bytes};

    ghost Value = { Option (List ℕ) };

    ghost view = { λ b. form_bytes b.form };
}

impl MaybeBytes {
    /// None.
    pub fn none() -> MaybeBytes
        ensures { result ≡ None }
    {
        MaybeBytes { form: Form::None }
    }

    /// A copy of the bytes. `NoMemory`: there was none for it.
    pub fn from_slice(alloc: Global, bytes: &[u8]) -> Result<MaybeBytes, NoMemory>
        ensures { IfOk result (λ b. b ≡ Some bytes.now) }
    {
        let form = match Short::from_slice(bytes) {
            Some(short) => Form::Short(short),
            None => Form::Long(Vec::from_slice(alloc, bytes)?),
        };
        Ok(MaybeBytes { form })
    }

    /// Whether there are bytes.
    pub fn is_some(&self) -> bool
        ensures { result ≡ is_some self.now }
    {
        !matches!(&self.form, Form::None)
    }

    /// The bytes, where there are some.
    pub fn as_slice(&self) -> Option<&[u8]>
        ensures { option_copied result ≡ self.now }
    {
        match &self.form {
            Form::None => None,
            Form::Short(short) => Some(short.as_slice()),
            Form::Long(bytes) => Some(bytes.as_slice()),
        }
    }
}
