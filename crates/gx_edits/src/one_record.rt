// A record that is put at the places of its own entries, and what stands there before.
ghost use Rattle.std.specs.Prelude.{◌≡◌, List, Some};
ghost use Rattle.gx_values.specs.declared.values.Value.{Value as TheValue};
ghost use Rattle.gx_stack.specs.Seen.{tree_of};
ghost use Rattle.gx_model.specs.Commands.{with_changes};
ghost use Rattle.gx_scan.specs.Files.{rec_of};
ghost use Rattle.gx_edits.specs.OneRecord.{has_record, StandsBefore};

use gx_commands::Changes;
use gx_entries::others_stay;
use gx_stack::Node;
use gx_types::AnyMapping;
use gx_values::{KeyBuf, Value, Values};

/// A record to be put, by its parts.
#[derive(Debug, Drop)]
pub struct RecordData<'a> {
    /// the key
    pub key: &'a Value,
    /// the bytes of the key
    pub bytes: &'a KeyBuf,
    /// the data
    pub fields: Values,
}

/// What stands at the key of a record before it is put.
#[derive(Clone, Copy, Debug)]
pub enum Previous {
    /// no record
    Absent,
    /// a record
    Present,
    /// a record whose second entry is that of the new one
    SameOthers,
}

impl Previous {
    /// Whether it is a record.
    pub(crate) fn has_record(self) -> bool
        ensures { result ≡ has_record self }
    {
        match self {
            Previous::Absent => false,
            Previous::SameOthers | Previous::Present => true,
        }
    }
}

/// What stands at the key of a record whose changed data are put.
pub(crate) fn before_changes(node: &Node<AnyMapping>, changes: &Changes) -> Previous
    ensures { (key : TheValue) (values : List TheValue) →
        StandsBefore result (tree_of node.now) (with_changes values changes.now)
        (Some (rec_of (key, values))) }
{
    if others_stay(node, changes) {
        Previous::SameOthers
    } else {
        Previous::Present
    }
}
