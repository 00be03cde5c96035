// The layer's mapping.
ghost use Rattle.std.specs.Prelude.{◌≡◌, ◌≢◌, ◌∷◌, [], List, ℕ, IfOk, IfSome, IfNone};
ghost use Rattle.gx_values.specs.Values.{AreFit};
ghost use Rattle.gx_values.specs.declared.values.Value.TheVariants as value;
ghost use Rattle.gx_mapping.specs.Rule.{AreOfKey, IsGathered};
ghost use Rattle.gx_actual.specs.Bodies.{AreShort};
ghost use Rattle.gx_actual.specs.Rules.{actual_part, actual_rule, body_part, form_of};
ghost use Rattle.gx_actual.specs.Laws.{actual_laws};

use crate::bodies::{body_bytes, read_body};
use crate::layer::Actual;
use gx_mapping::{Mapping, Part, Parts};
use gx_values::{Form, Name, NoMemory, Octets, Rec, Span, Value, Values};
use std::alloc::Global;

impl Mapping for Actual {
    ghost rule = { λ m. actual_rule (form_of m) };

    ghost laws = { λ m. actual_laws m.form m.short };

    fn kids(&self) -> u16 {
        1
    }

    fn form(&self) -> &Form {
        &self.form
    }

    fn kid_form(&self, _child: u16) -> &Form {
        &self.kid
    }

    fn holds_rest(&self, _child: u16) -> bool {
        true
    }

    fn parts(&self, alloc: Global, rec: &Rec) -> Result<Parts, NoMemory> {
        let key = rec.key.copy(alloc)?;
        with_body(alloc, &self.form, key, &rec.fields)
    }

    fn into_parts(&self, alloc: Global, rec: Rec) -> Result<Parts, NoMemory> {
        let Rec { key, fields } = rec;
        with_body(alloc, &self.form, key, &fields)
    }

    fn body(&self, alloc: Global, rec: &Rec) -> Result<Option<Octets>, NoMemory> {
        let body = body_bytes(alloc, &self.form.fields.0, &rec.fields.0)?;
        Ok(Some(body))
    }

    fn gather(&self, alloc: Global, key: &Values, parts: &Parts) -> Result<Option<Rec>, NoMemory> {
        match parts.0.as_slice() {
            [part] => {
                let key = key.copy(alloc)?;
                without_body(alloc, &self.form, key, &part.rec.fields)
            }
            _ => Ok(None),
        }
    }

    fn gather_one(&self, alloc: Global, part: Part) -> Result<Option<Rec>, NoMemory> {
        let Rec { key, fields } = part.rec;
        without_body(alloc, &self.form, key, &fields)
    }

    fn skips(&self, _child: u16, _span: &Span) -> bool {
        false
    }

    fn only_searched(&self, _span: &Span) -> Option<u16> {
        Some(0)
    }

    fn indexes(&self, _field: &Name) -> Option<u16> {
        None
    }

    fn carries(&self, _child: u16, _field: &Name) -> bool {
        false
    }
}

// The part of the record with this key and these data fields.
fn with_body(alloc: Global, form: &Form, key: Values, fields: &Values) -> Result<Parts, NoMemory>
    requires short { AreShort form.now.fields }
    requires fit { AreFit form.now.fields fields.now }
    ensures { IfOk result
        (λ parts. parts ≡ actual_part (record { key = key; fields = fields.now }) ∷ []) }
{
    let body = body_bytes(alloc, &form.fields.0, &fields.0)?;
    let fields = one_value(alloc, Value::Bytes(body))?;
    let rec = Rec { key, fields };
    Parts::one(alloc, Part { child: 0, rec })
}

fn one_value(alloc: Global, value: Value) -> Result<Values, NoMemory>
    ensures { IfOk result (λ values. values ≡ value ∷ []) }
{
    let mut values = Vec::with_capacity(alloc, 1)?;
    values.push(value)?;
    Ok(Values(values))
}

// The record with this key whose part has these data fields.
fn without_body(
    alloc: Global,
    form: &Form,
    key: Values,
    fields: &Values,
) -> Result<Option<Rec>, NoMemory>
    requires short { AreShort form.now.fields }
    requires under { AreOfKey (actual_rule form.now) key (body_part key fields.now ∷ []) }
    ensures { IfOk result (IsGathered (actual_rule form.now) key (body_part key fields.now ∷ [])) }
{
    let Some(body) = the_bytes(fields) else {
        return Ok(None);
    };
    let Some(fields) = read_body(alloc, &form.fields.0, body)? else {
        return Ok(None);
    };
    Ok(Some(Rec { key, fields }))
}

// The bytes of the one value. `None`: there are more or fewer, or it isn't bytes.
fn the_bytes(values: &Values) -> Option<&[u8]>
    ensures some { IfSome result (λ bytes. values.now ≡ value.Bytes bytes.now ∷ []) }
    ensures none { IfNone result ((bytes : List ℕ) → values.now ≢ value.Bytes bytes ∷ []) }
{
    match values.0.as_slice() {
        [Value::Bytes(bytes)] => Some(bytes.as_slice()),
        _ => None,
    }
}
