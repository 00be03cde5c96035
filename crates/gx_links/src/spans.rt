// The span of the keys that begin with one value.
ghost use Rattle.std.specs.Prelude.{◌≡◌, ◌<◌, List, length};
ghost use Rattle.gx_values.specs.declared.values.Value.{Value as FieldValue};
ghost use Rattle.gx_values.specs.Values.{Fits, AreFit, first_kind};
ghost use Rattle.gx_values.specs.Keys.{key_of, is_inside};
ghost use Rattle.gx_values.specs.Spans.{IsSpanKind};
ghost use Rattle.gx_stack.specs.Selected.{IsKeySpan};
ghost use Rattle.gx_links.specs.Spans.{begins_with};

use gx_values::{Form, Op, Span, Value, span};

/// The span of the keys of a form that begin with a value.
pub fn value_span(form: &Form, value: &Value) -> Span
    requires some { 0 < length form.now.keys }
    requires kind { IsSpanKind (first_kind form.now.keys) }
    requires fits { Fits (first_kind form.now.keys) value.now }
    ensures whole { IsKeySpan form.now result }
    ensures those { (key : List FieldValue) → AreFit form.now.keys key →
        is_inside result.lo result.hi (key_of key) ≡ begins_with value.now key }
{
    let kind = form.keys.0[0].kind;
    span(kind, Op::Equal, value).unwrap()
}
