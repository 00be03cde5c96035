// Which fields have their values in a body, and by which codes.
ghost use Rattle.std.specs.Prelude.{◌≡◌, false, slice_index_or};
ghost use Rattle.gx_codec.specs.Layouts.{of_group};

use crate::codes::Codes;
use gx_values::Code;

/// Which of the fields of a record have their values in a body, in the order of the fields, and by
/// which codes.
pub trait Layout {
    ghost use Rattle.std.specs.Prelude.{ℕ, Option};
    ghost use Rattle.gx_values.specs.declared.values.Code.{Code as FieldCode};

    /// By the number of a field: no slot where the body hasn't its value, else its code if it has
    /// one.
    ghost slots: { Self → ℕ → Option (Option FieldCode) };

    /// The slot of the field with this number.
    fn slot_of(&self, number: usize) -> Option<Option<Code>>
        ensures { result ≡ slots self.now number };
}

/// The body has all values as they are.
#[derive(Clone, Copy, Debug)]
pub struct Plain;

impl Layout for Plain {
    ghost use Rattle.gx_codec.specs.Layouts.{plain_slot};

    ghost slots = { λ p. plain_slot };

    fn slot_of(&self, _number: usize) -> Option<Option<Code>> {
        Some(None)
    }
}

/// The body has all values, some by these codes.
impl Layout for Codes {
    ghost use Rattle.gx_codec.specs.Layouts.{coded_slot};

    ghost slots = { λ c. coded_slot c };

    fn slot_of(&self, number: usize) -> Option<Option<Code>> {
        Some(self.code_at(number))
    }
}

/// The body has the values of one of two groups of fields, as they are.
#[derive(Clone, Copy, Debug)]
pub struct Group<'a> {
    /// of each field, whether it is in the first group
    pub mask: &'a [bool],
    /// whether the body is that of the first group
    pub is_first: bool,
}

impl Layout for Group<'_> {
    ghost use Rattle.gx_codec.specs.Layouts.{marked_slot, of_group};

    ghost slots = { λ g. marked_slot (of_group g.is_first g.mask.now) };

    fn slot_of(&self, number: usize) -> Option<Option<Code>> {
        if is_in_group(self.mask, self.is_first, number) {
            Some(None)
        } else {
            None
        }
    }
}

// Whether the field with this number is of the group.
fn is_in_group(mask: &[bool], is_first: bool, number: usize) -> bool
    ensures { result ≡ slice_index_or (of_group is_first mask.now) number false }
{
    if number >= mask.len() {
        return false;
    }
    if is_first {
        mask[number]
    } else {
        !mask[number]
    }
}
