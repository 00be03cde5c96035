// One value of a body: the walk ends there.
ghost use Rattle.std.specs.Prelude.{◌≡◌, ◌<◌, List, ℕ, length, slice_index_or};
ghost use Rattle.gx_values.specs.declared.values.Value.{Value as FieldValue};
ghost use Rattle.gx_values.specs.Values.{AreFit, no_value};
ghost use Rattle.gx_actual.specs.Bodies.{body_of, AreShort};
ghost use Rattle.gx_codec.specs.Layouts.{laid, HaveSlots, IsFront};

use crate::fronts::split_stored;
use crate::layout::Layout;
use gx_values::{Field, ValueRef};

/// What stands in a body for the value of one of these fields. `None`: the layout hasn't the field,
/// or the body is that of no values.
pub fn front_at<'a, L: Layout>(
    fields: &[Field],
    layout: &L,
    index: usize,
    body: &'a [u8],
) -> Option<ValueRef<'a>>
    requires short { AreShort fields.now }
    requires there { index < length fields.now }
    ensures { (vs : List FieldValue) → AreFit fields.now vs →
        HaveSlots (L.slots layout.now) 0 vs → body.now ≡ body_of (laid (L.slots layout.now) 0 vs) →
        IsFront (L.slots layout.now index) (slice_index_or vs index no_value) result }
{
    let mut rest = body;
    for at in 0..index {
        if let Some(code) = layout.slot_of(at) {
            let (_, more) = split_stored(fields[at].kind, code, rest)?;
            rest = more;
        }
    }
    let code = layout.slot_of(index)?;
    let (front, _) = split_stored(fields[index].kind, code, rest)?;
    Some(front)
}
