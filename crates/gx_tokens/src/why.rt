// Why a text isn't read.
ghost use Rattle.std.specs.Prelude.{◌≡◌};
ghost use Rattle.gx_tokens.specs.Whys.{word_of};

/// Why a text isn't read: the reason that holds of its first token, from left to right, of which
/// one holds. At one token the first reason of this list is said.
#[derive(Clone, Copy, Debug, PartialEq, Eq)]
pub enum Why {
    /// The token is malformed, or the byte begins none.
    Token,
    /// No text of the grammar goes on with the token.
    Unexpected,
    /// The text ends here, and no text of the grammar does.
    End,
    /// The number is out of the range of its place.
    Number,
    /// The token is the head of a term that stands too deep.
    Depth,
    /// The name breaks the rule of names.
    NameUse,
    /// The size is too great for the field that is the key.
    KeyField,
    /// The token begins one file, link or field too many.
    Count,
}

impl Why {
    /// The word that is printed of the reason.
    pub fn word(self) -> &'static str
        ensures { result.now ≡ word_of self }
    {
        match self {
            Why::Token => "token",
            Why::Unexpected => "unexpected",
            Why::End => "end",
            Why::Number => "number",
            Why::Depth => "depth",
            Why::NameUse => "name",
            Why::KeyField => "key",
            Why::Count => "count",
        }
    }
}

/// Why a whole text isn't read.
#[derive(Clone, Copy, Debug, PartialEq, Eq)]
pub enum Unread {
    /// The text isn't in the grammar: the line of its first fault, counted from 1, and the reason.
    Bad(u32, Why),
    /// There was no memory for what the text means.
    NoMemory,
}
