// Why an equation isn't typed under a schema.
ghost use Rattle.std.specs.Prelude.{◌≡◌};
ghost use Rattle.gx_typing.specs.Reasons.{words_of};

use gx_values::NoMemory;
use std::alloc::{AllocError, AllocFailed};

/// Why an equation isn't typed: the reason that holds of its first place that fails, in the order
/// of the text. At one place the first reason of this list is said.
#[derive(Clone, Copy, Debug, PartialEq, Eq)]
pub enum TypeWhy {
    /// The name isn't that of the file or of the link that is due, or none is due; or a definition
    /// is missing at the end.
    Definition,
    /// A file has a head of links, or a link has none.
    Linkset,
    /// A name is that of no field of the form, is that of a key field where a data field is needed,
    /// or stands twice in a `segment`.
    FieldName,
    /// The field or a bound has another kind than is needed, or a bound doesn't fit the field.
    FieldKind,
    /// The bounds don't ascend strictly.
    Bounds,
    /// The number of children is another one, or `transpose` has no data field.
    Children,
    /// A `segment` leaves no field for its second child.
    Groups,
    /// `divide` has other data than one field of bytes.
    OneBytes,
    /// A leaf has other data than none or one field of bytes.
    LeafForm,
    /// The key of a leaf may have more than `MAX_KEY_LEN` bytes.
    KeyLength,
    /// The key and the bytes of a leaf may together be more than 1,000.
    EntryLength,
    /// The leaf is the 256th.
    Leaves,
}

impl TypeWhy {
    /// The words that are printed of the reason.
    pub fn words(self) -> &'static str
        ensures { result.now ≡ words_of self }
    {
        match self {
            TypeWhy::Definition => "definition",
            TypeWhy::Linkset => "linkset",
            TypeWhy::FieldName => "field",
            TypeWhy::FieldKind => "kind",
            TypeWhy::Bounds => "bounds",
            TypeWhy::Children => "children",
            TypeWhy::Groups => "groups",
            TypeWhy::OneBytes => "one bytes",
            TypeWhy::LeafForm => "leaf",
            TypeWhy::KeyLength => "key too long",
            TypeWhy::EntryLength => "entry too long",
            TypeWhy::Leaves => "leaves",
        }
    }
}

/// Why there are no leaves of an equation.
#[derive(Clone, Copy, Debug, PartialEq, Eq)]
pub enum Untyped {
    /// The equation isn't typed under the schema: the line of its first place that fails, counted
    /// from 1, and the reason.
    Mistyped(u32, TypeWhy),
    /// There was no memory for what the equation gives.
    NoMemory,
}

impl From<AllocError> for Untyped {
    ghost use Rattle.std.specs.Prelude.{◌≡◌};
    ghost use Rattle.gx_typing.specs.declared.reasons.Untyped.TheVariants as untyped;

    ghost from_gives = { λ _ e. e ≡ untyped.NoMemory };

    fn from(_: AllocError) -> Untyped {
        Untyped::NoMemory
    }
}

impl<T: Drop> From<AllocFailed<T>> for Untyped {
    ghost use Rattle.std.specs.Prelude.{◌≡◌};
    ghost use Rattle.gx_typing.specs.declared.reasons.Untyped.TheVariants as untyped;

    ghost from_gives = { λ _ e. e ≡ untyped.NoMemory };

    fn from(_: AllocFailed<T>) -> Untyped {
        Untyped::NoMemory
    }
}

impl From<NoMemory> for Untyped {
    ghost use Rattle.std.specs.Prelude.{◌≡◌};
    ghost use Rattle.gx_typing.specs.declared.reasons.Untyped.TheVariants as untyped;

    ghost from_gives = { λ _ e. e ≡ untyped.NoMemory };

    fn from(_: NoMemory) -> Untyped {
        Untyped::NoMemory
    }
}
