// What the open transaction replaced in a leaf in memory, so that it can be put back.
use crate::bytes::MaybeBytes;
use crate::key::Key;

/// What stands at a key: its body, or none where the open transaction took it away.
pub type Cell = MaybeBytes;

/// A change of a cell in the open transaction, with what stood there before.
#[derive(Drop)]
pub struct Undo {
    pub key: Key,
    pub before: Cell,
    /// whether the change took the body away
    pub removes: bool,
}

/// How a transaction ends.
#[derive(Clone, Copy)]
pub enum End {
    Commit,
    Abort,
}
