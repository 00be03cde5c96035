// Commands of a script, and why a line is none.
ghost use Rattle.std.specs.Prelude.{◌≡◌};
ghost use Rattle.gx_commands.specs.LineWhys.{word_of};
ghost use Rattle.gx_commands.specs.declared.command.NoCommand.TheVariants.{Bad, NoMemory};

use gx_values::{Op, Value, Values};
use std::alloc::{AllocError, AllocFailed};
use std::marker::Model;

/// A condition on a field: its number in the file, the key being field 0, and what it is compared
/// with.
#[derive(Debug, Drop)]
pub struct Cond {
    pub field: u16,
    pub op: Op,
    pub bound: Value,
}

/// Conditions, seen as a list.
#[derive(Debug, Drop)]
pub struct Conds(pub Vec<Cond>);

impl Model for Conds {
    ghost use Rattle.std.specs.Prelude.{List};
    ghost use Rattle.gx_commands.specs.declared.command.Cond.{Cond};

    ghost Value = { List Cond };

    ghost view = { λ c. c.0.items };
}

/// The members of one owner in a link.
#[derive(Debug, Drop)]
pub struct Of {
    pub link: u16,
    pub owner: Value,
}

/// The order of found records: by a field, ascending or descending. Ties ascend by the key.
#[derive(Clone, Copy, Debug, PartialEq, Eq)]
pub struct OrderBy {
    pub field: u16,
    pub desc: bool,
}

/// A `find`: the records of a file that meet every condition, and are members of the owner where
/// `of` stands. Without an order in the line they ascend by the key.
#[derive(Debug, Drop)]
pub struct Find {
    pub file: u16,
    pub conds: Conds,
    pub of: Option<Of>,
    pub order: OrderBy,
}

/// A new value of a field that isn't the key.
#[derive(Debug, Drop)]
pub struct Change {
    pub field: u16,
    pub value: Value,
}

/// Changes, seen as a list.
#[derive(Debug, Drop)]
pub struct Changes(pub Vec<Change>);

impl Model for Changes {
    ghost use Rattle.std.specs.Prelude.{List};
    ghost use Rattle.gx_commands.specs.declared.command.Change.{Change};

    ghost Value = { List Change };

    ghost view = { λ c. c.0.items };
}

/// What a line asks for. Files, links and fields are given by their numbers in the schema, counted
/// from 0; a single value is the key of a record.
#[derive(Debug, Drop)]
pub enum Command {
    Begin,
    Commit,
    Abort,
    /// a file, and one value for each of its fields
    Insert(u16, Values),
    Get(u16, Value),
    Update(u16, Value, Changes),
    Delete(u16, Value),
    /// a link, an owner and a member
    Connect(u16, Value, Value),
    /// a link and a member
    Disconnect(u16, Value),
    /// a link, an owner and the order of its members
    Members(u16, Value, OrderBy),
    /// a link and a member
    Owner(u16, Value),
    Find(Find),
    ReorganizeFile(u16),
    ReorganizeLink(u16),
    /// an empty line or a comment
    Nothing,
}

/// Why a line is no command, or ends the play.
#[derive(Clone, Copy, Debug, PartialEq, Eq)]
pub enum LineWhy {
    /// a byte other than a blank and 0x20 to 0x7E
    Character,
    /// more than 4,096 bytes
    TooLong,
    /// a quoted text that isn't closed, has a tab inside, or isn't followed by a blank or the end
    Quote,
    /// the first word is no number of a session, from 1 to 8 in one digit
    Session,
    /// an unknown command, keyword or operator, a word too many or a word missing
    Word,
    /// no file of this name; for `reorganize` no link either
    File,
    /// no link of this name, or one of another member file
    Link,
    /// no field of this name; a key field or a repeated one in `update`
    Field,
    /// no literal, or one that doesn't fit its field
    Value,
    /// `begin` inside a transaction
    InTransaction,
    /// a command that needs a transaction, outside
    NoTransaction,
    /// the script ended inside a transaction
    OpenTransaction,
    /// more than 16,777,216 bytes
    ScriptTooLong,
}

impl LineWhy {
    /// The words that are printed of the reason.
    pub fn word(self) -> &'static str
        ensures { result.now ≡ word_of self }
    {
        match self {
            LineWhy::Character => "character",
            LineWhy::TooLong => "too long",
            LineWhy::Quote => "quote",
            LineWhy::Session => "session",
            LineWhy::Word => "word",
            LineWhy::File => "file",
            LineWhy::Link => "link",
            LineWhy::Field => "field",
            LineWhy::Value => "value",
            LineWhy::InTransaction => "in transaction",
            LineWhy::NoTransaction => "no transaction",
            LineWhy::OpenTransaction => "open transaction",
            LineWhy::ScriptTooLong => "script too long",
        }
    }
}

/// Why a line gave no command.
#[derive(Clone, Copy, Debug, PartialEq, Eq)]
pub enum NoCommand {
    /// The line means no command: the first reason.
    Bad(LineWhy),
    /// There was no memory for what the command holds.
    NoMemory,
}

impl From<LineWhy> for NoCommand {
    ghost from_gives = { λ why error. error ≡ Bad why };

    fn from(why: LineWhy) -> NoCommand {
        NoCommand::Bad(why)
    }
}

impl From<AllocError> for NoCommand {
    ghost from_gives = { λ _ error. error ≡ NoMemory };

    fn from(_: AllocError) -> NoCommand {
        NoCommand::NoMemory
    }
}

impl<T: Drop> From<AllocFailed<T>> for NoCommand {
    ghost from_gives = { λ _ error. error ≡ NoMemory };

    fn from(_: AllocFailed<T>) -> NoCommand {
        NoCommand::NoMemory
    }
}
