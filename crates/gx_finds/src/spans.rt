// The span of what meets all conditions on a field.
ghost use Rattle.std.specs.Prelude.{◌≡◌, ◌≢◌, ◌<◌, ◌⊎◌, ◌&&◌, List, ℕ, false, length, IsNone, IfSome};
ghost use Rattle.std.specs.List.{AllByRecursion};
ghost use Rattle.gx_values.specs.declared.values.Kind.{Kind as TheKind};
ghost use Rattle.gx_values.specs.declared.values.Value.{Value};
ghost use Rattle.gx_values.specs.declared.values.Op.TheVariants as the_op;
ghost use Rattle.gx_values.specs.Values.{Fits, value_cmp, is_met};
ghost use Rattle.gx_values.specs.Keys.{is_inside};
ghost use Rattle.gx_values.specs.Spans.{IsSpanKind, HoldsThoseMet, IsValueSpan};
ghost use Rattle.gx_schema.specs.Lookups.{field_at};
ghost use Rattle.gx_commands.specs.Commands.{IsCondOf};
ghost use Rattle.gx_finds.specs.Spans.{is_on, meets_on, HoldsAllMet, is_from, is_up_to};

use gx_commands::Cond;
use gx_schema::FileDef;
use gx_stack::whole_span;
use gx_values::{KeyBuf, Kind, Op, Span, span};

/// The span of the values of a field that meet all conditions on it, but for those by `<>`. `None`:
/// no value meets them all.
pub(crate) fn span_of_conditions(file: &FileDef, field: u16, conds: &[Cond]) -> Option<Span>
    requires in_file { field < length file.now.fields }
    requires kind { IsSpanKind (field_at file.now field).kind }
    requires conds { AllByRecursion (IsCondOf file.now) conds.now }
    ensures meets { IfSome result (HoldsAllMet (field_at file.now field).kind field conds.now) }
    ensures whole { IfSome result (IsValueSpan (field_at file.now field).kind) }
    ensures nothing { IsNone result → (v : Value) → Fits (field_at file.now field).kind v →
        meets_on field conds.now v ≡ false }
{
    let kind = field_kind(file, field);
    let mut met = whole_span();
    let mut one = whole_span();
    for cond in conds {
        if has_span_on(field, cond) {
            set_span(&mut one, kind, cond)?;
            narrow(&mut met, &one);
        }
    }
    Some(met)
}

fn field_kind(file: &FileDef, field: u16) -> Kind
    requires { field < length file.now.fields }
    ensures { result ≡ (field_at file.now field).kind }
{
    file.fields.0[usize::from(field)].kind
}

// Whether a span of the field's values stands for the condition.
fn has_span_on(field: u16, cond: &Cond) -> bool
    ensures { result ≡ is_on field cond.now }
{
    cond.field == field && !matches!(cond.op, Op::Unequal)
}

// Makes this the span of the values that meet a condition. That of one value is written where it
// stands, as most conditions on a key are by `=`. `None`: no value meets the condition.
fn set_span(one: &mut Span, kind: Kind, cond: &Cond) -> Option<()>
    requires kind { IsSpanKind kind }
    requires fits { Fits kind cond.now.bound }
    requires op { cond.now.op ≢ the_op.Unequal }
    ensures meets { IfSome result (λ done. HoldsThoseMet kind cond.now.op cond.now.bound one.new) }
    ensures whole { IfSome result (λ done. IsValueSpan kind one.new) }
    ensures nothing { IsNone result → (v : Value) → Fits kind v →
        is_met cond.now.op (value_cmp v cond.now.bound) ≡ false }
{
    match cond.op {
        Op::Equal => {
            one.lo.set_value(&cond.bound);
            one.hi.set_value(&cond.bound);
        }
        op => *one = span(kind, op, &cond.bound)?,
    }
    Some(())
}

// Narrows a span to the keys that are inside another one too.
fn narrow(span: &mut Span, other: &Span)
    ensures both { (key : List ℕ) → is_inside span.new.lo span.new.hi key
        ≡ (is_inside span.old.lo span.old.hi key && is_inside other.now.lo other.now.hi key) }
    ensures whole { (kind : TheKind) → IsValueSpan kind span.old → IsValueSpan kind other.now →
        IsValueSpan kind span.new }
{
    raise_low(&mut span.lo, &other.lo);
    lower_high(&mut span.hi, &other.hi);
}

// Makes a lower end the one of the two that lets fewer keys through.
fn raise_low(low: &mut KeyBuf, other: &KeyBuf)
    ensures one { (low.new ≡ low.old) ⊎ (low.new ≡ other.now) }
    ensures both { (key : List ℕ) → is_from low.new key
        ≡ (is_from low.old key && is_from other.now key) }
{
    if low.as_slice().cmp(other.as_slice()).is_le() {
        set_key(low, other);
    }
}

// Makes an upper end the one of the two that lets fewer keys through. All that begin with an end
// are let through, so an end is after each longer one that begins with it.
fn lower_high(high: &mut KeyBuf, other: &KeyBuf)
    ensures one { (high.new ≡ high.old) ⊎ (high.new ≡ other.now) }
    ensures both { (key : List ℕ) → is_up_to high.new key
        ≡ (is_up_to high.old key && is_up_to other.now key) }
{
    let (a, b) = (high.as_slice(), other.as_slice());
    let front = a.len().min(b.len());
    let order = a[..front].cmp(&b[..front]).then(b.len().cmp(&a.len()));
    if order.is_gt() {
        set_key(high, other);
    }
}

// Makes this a copy of a key, of which no more than its bytes are moved.
fn set_key(key: &mut KeyBuf, other: &KeyBuf)
    ensures { key.new ≡ other.now }
{
    key.0.clear();
    key.0.try_extend_from_slice(other.as_slice()).unwrap();
}
