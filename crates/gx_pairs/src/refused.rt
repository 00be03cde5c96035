// Why a command is refused.
ghost use Rattle.std.specs.Prelude.{◌≡◌};
ghost use Rattle.gx_model.specs.Commands.{refusal_text};
ghost use Rattle.gx_pairs.specs.Changes.{refusal_for};

/// Why a command on records or links is refused.
#[derive(Clone, Copy, Debug, PartialEq, Eq)]
pub enum Refused {
    /// a new record has the key of another one
    KeyExists,
    /// there is no record with the key
    NoRecord,
    /// the record is an end of a pair
    Linked,
    /// the member has an owner
    HasOwner,
    /// the owner has as many members as an owner can have
    TooManyMembers,
    /// the member has no owner
    NoOwner,
}

impl Refused {
    /// What is said of it.
    pub fn text(self) -> &'static [u8]
        ensures { result.now ≡ refusal_text (refusal_for self) }
    {
        match self {
            Refused::KeyExists => b"refused: key exists\n",
            Refused::NoRecord => b"refused: no record\n",
            Refused::Linked => b"refused: linked\n",
            Refused::HasOwner => b"refused: has owner\n",
            Refused::TooManyMembers => b"refused: too many members\n",
            Refused::NoOwner => b"refused: no owner\n",
        }
    }
}
