// Which data fields of records stand by their codes.
ghost use Rattle.std.specs.Prelude.{◌≡◌, [], true, IfOk, IfSome};
ghost use Rattle.gx_codec.specs.Stored.{code_at, IsWithCode};

use gx_values::{Code, NoMemory};
use std::alloc::Global;
use std::marker::Model;

/// Of each data field, from the first on, its code if it has one, seen as a list. Those past the
/// last have none.
#[derive(Debug, Drop)]
pub struct Codes(pub Vec<Option<Code>>);

impl Model for Codes {
    ghost use Rattle.std.specs.Prelude.{List, Option};
    ghost use Rattle.gx_values.specs.declared.values.Code.{Code as FieldCode};

    ghost Value = { List (Option FieldCode) };

    ghost view = { λ c. c.0.items };
}

impl Codes {
    /// No field has a code.
    pub fn none(alloc: Global) -> Codes
        ensures { result ≡ [] }
    {
        Codes(Vec::new(alloc))
    }

    /// Whether no field has a code.
    pub fn is_empty(&self) -> bool
        ensures yes { result ≡ true → self.now ≡ [] }
        ensures no { self.now ≡ [] → result ≡ true }
    {
        self.0.is_empty()
    }

    /// The codes as they stand.
    pub fn as_slice(&self) -> &[Option<Code>]
        ensures { result.now ≡ self.now }
    {
        self.0.as_slice()
    }

    /// The code of a field, if it has one.
    pub fn code_at(&self, field: usize) -> Option<Code>
        ensures { result ≡ code_at self.now field }
    {
        if field < self.0.len() {
            self.0[field]
        } else {
            None
        }
    }

    /// The same codes. `NoMemory`: there was none for them.
    pub fn copy(&self, alloc: Global) -> Result<Codes, NoMemory>
        ensures { IfOk result (λ made. made ≡ self.now) }
    {
        Ok(Codes(self.0.to_vec(alloc)?))
    }

    /// The codes with one more. `None`: that field has one. `NoMemory`: there was none for them.
    pub fn with_code(
        &self,
        alloc: Global,
        field: u16,
        code: Code,
    ) -> Result<Option<Codes>, NoMemory>
        ensures { IfOk result (λ made. IfSome made (IsWithCode self.now field code)) }
    {
        let field = usize::from(field);
        let mut codes = self.0.to_vec(alloc)?;
        for _ in codes.len()..field + 1 {
            codes.push(None)?;
        }
        if codes[field].is_some() {
            return Ok(None);
        }
        codes[field] = Some(code);
        Ok(Some(Codes(codes)))
    }
}
