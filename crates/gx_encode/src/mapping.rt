// The layer's mapping.
ghost use Rattle.std.specs.Prelude.{◌≡◌, ◌∷◌, [], IfOk};
ghost use Rattle.gx_mapping.specs.Rule.{IsOf, AreOfKey, IsGathered};
ghost use Rattle.gx_encode.specs.Rules.{field_of, form_of, only_part, rule_of, used_code_of};
ghost use Rattle.gx_encode.specs.Laws.{encode_laws};

use crate::codes::{bytes_at, coded, decoded, kind_at, value_at, with_value};
use crate::layer::Encode;
use gx_mapping::{Mapping, Part, Parts, field_number};
use gx_values::{Code, Form, Name, NoMemory, Rec, Span, Value, Values};
use std::alloc::Global;

impl Mapping for Encode {
    ghost rule = { rule_of };

    ghost laws = { λ m. encode_laws m.form m.field m.code m.sound };

    fn kids(&self) -> u16 {
        1
    }

    fn form(&self) -> &Form {
        &self.form
    }

    fn kid_form(&self, _child: u16) -> &Form {
        &self.kid
    }

    fn holds_rest(&self, _child: u16) -> bool {
        true
    }

    fn parts(&self, alloc: Global, rec: &Rec) -> Result<Parts, NoMemory> {
        let rec = rec.copy(alloc)?;
        self.part_of(alloc, rec)
    }

    fn into_parts(&self, alloc: Global, rec: Rec) -> Result<Parts, NoMemory> {
        self.part_of(alloc, rec)
    }

    fn gather(&self, alloc: Global, _key: &Values, parts: &Parts) -> Result<Option<Rec>, NoMemory> {
        match parts.0.as_slice() {
            [part] => {
                let rec = part.rec.copy(alloc)?;
                self.record_of(alloc, rec)
            }
            _ => Ok(None),
        }
    }

    fn gather_one(&self, alloc: Global, part: Part) -> Result<Option<Rec>, NoMemory> {
        self.record_of(alloc, part.rec)
    }

    fn skips(&self, _child: u16, _span: &Span) -> bool {
        false
    }

    fn only_searched(&self, _span: &Span) -> Option<u16> {
        Some(0)
    }

    fn indexes(&self, _field: &Name) -> Option<u16> {
        None
    }

    fn carries(&self, _child: u16, field: &Name) -> bool {
        match field_number(&self.form.fields, field) {
            Some(number) => number != usize::from(self.field),
            None => false,
        }
    }
}

impl Encode {
    /// The number of the data field that stands by its code, from 0.
    pub fn field(&self) -> u16
        ensures { result ≡ field_of self.now }
    {
        self.field
    }

    /// The code of that field.
    pub fn code(&self) -> Code
        ensures { result ≡ used_code_of self.now }
    {
        self.code
    }

    // The one part of a record.
    fn part_of(&self, alloc: Global, rec: Rec) -> Result<Parts, NoMemory>
        requires { IsOf (form_of self.now) rec }
        ensures { IfOk result (λ parts. parts ≡ (rule_of self.now).parts rec) }
    {
        let field = usize::from(self.field);
        let Rec { key, fields } = rec;
        let bytes = coded(alloc, self.code, value_at(&fields, field))?;
        let fields = with_value(fields, field, Value::Bytes(bytes));
        let rec = Rec { key, fields };
        Parts::one(alloc, Part { child: 0, rec })
    }

    // The record that has this as its one part.
    fn record_of(&self, alloc: Global, part: Rec) -> Result<Option<Rec>, NoMemory>
        requires { AreOfKey (rule_of self.now) part.key (only_part part ∷ []) }
        ensures { IfOk result (IsGathered (rule_of self.now) part.key (only_part part ∷ [])) }
    {
        let field = usize::from(self.field);
        let kind = kind_at(&self.form.fields, field);
        let Rec { key, fields } = part;
        let bytes = bytes_at(&fields, field);
        let Some(value) = decoded(alloc, self.code, kind, bytes)? else {
            return Ok(None);
        };
        let fields = with_value(fields, field, value);
        Ok(Some(Rec { key, fields }))
    }
}
