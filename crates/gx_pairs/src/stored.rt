// A link between two files, as it is stored, and the records at its ends.
ghost use Rattle.std.specs.Prelude.{◌≡◌, length, is_some};
ghost use Rattle.std.specs.FinMap as fin;
ghost use Rattle.gx_values.specs.Values.{Fits};
ghost use Rattle.gx_schema.specs.Lookups.{key_kind};
ghost use Rattle.gx_pairs.specs.Stored.{file_of, IsStoredFile};
ghost use Rattle.gx_pairs.specs.Search.{LooksInFile};

use gx_ports::{Leaves, Stop};
use gx_scan::{AnyMapping, find_values};
use gx_schema::FileDef;
use gx_stack::Node;
use gx_values::Value;
use std::alloc::Global;

/// A file, and the node that stores its records.
#[derive(Clone, Copy)]
pub struct StoredFile<'a> {
    /// the definition of the file
    pub file: &'a FileDef,
    /// the node that stores its records
    pub node: &'a Node<AnyMapping>,
}

/// A link, with the files of its owners and of its members.
#[derive(Drop)]
pub struct StoredLink<'a, L> {
    /// the file of the owners
    pub owners: StoredFile<'a>,
    /// the file of the members
    pub members: StoredFile<'a>,
    /// what keeps the link between them
    pub linkset: L,
}

// Whether the file has a record with this key.
pub(crate) fn has_record<B: Leaves>(
    alloc: Global,
    stored: &StoredFile,
    key: &Value,
    leaves: &mut B,
) -> Result<bool, Stop>
    requires stored { IsStoredFile stored.now (length (B.working leaves.old)) }
    requires key { Fits (key_kind (file_of stored.now)) key.now }
    ensures { LooksInFile B.View stored.now leaves.old leaves.new result
        (λ f has. has ≡ is_some (fin.get f key.now)) }
{
    Ok(find_values(alloc, stored.file, stored.node, key, leaves)?.is_some())
}
