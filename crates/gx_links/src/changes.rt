// Changes of records.
ghost use Rattle.std.specs.Prelude.{◌≡◌, ◌<◌, ◌+◌, ℕ, length, OnOk, IsErrOf};
ghost use Rattle.gx_ports.specs.LeafMaps.{map_at, entry_count, IsCrowdedBy};
ghost use Rattle.gx_ports.specs.Calls.{Keeps, Ends};
ghost use Rattle.gx_mapping.specs.Rule.{In};
ghost use Rattle.gx_stack.specs.Tree.{leaves_of, tree_form, IsValid};
ghost use Rattle.gx_stack.specs.Seen.{tree_of};
ghost use Rattle.gx_stack.specs.Internal.{entries_if};
ghost use Rattle.gx_links.specs.Changes.{FitsChange, AreReplaced, coming, reversed};

use gx_mapping::Mapping;
use gx_ports::{Leaves, Stop};
use gx_stack::Node;
use gx_values::Rec;
use std::alloc::Global;

/// A record before and after, of one key.
#[derive(Drop)]
pub struct Change {
    /// The record before. `None`: there was none of the key.
    pub old: Option<Rec>,
    /// The record after. `None`: there is none of the key.
    pub new: Option<Rec>,
}

impl Change {
    /// A record that comes.
    pub fn coming(rec: Rec) -> Change
        ensures { result ≡ coming rec }
    {
        Change {
            old: None,
            new: Some(rec),
        }
    }

    /// The change undone.
    pub fn reversed(self) -> Change
        ensures { result ≡ reversed self }
    {
        Change {
            old: self.new,
            new: self.old,
        }
    }
}

/// Changes a record of one node and then one of another or of the same.
///
/// `Full`: the pages may not be enough for the entries of the new records, besides all that there
/// are.
/// `Damaged`: some leaf's stored form isn't whole. `Fault`: the count of faults rose; with any
/// other answer it stays. `NoMemory`: there was none. After a refusal a part of the changes may be
/// made.
pub fn replace_both<M: Mapping, B: Leaves>(
    alloc: Global,
    leaves: &mut B,
    first: &Node<M>,
    first_change: Change,
    second: &Node<M>,
    second_change: Change,
) -> Result<(), Stop>
    requires first_valid { IsValid M.rule (tree_of first.now) }
    requires second_valid { IsValid M.rule (tree_of second.now) }
    requires first_below { (n : ℕ) → In n (leaves_of (tree_of first.now)) →
        n < length (B.working leaves.old) }
    requires second_below { (n : ℕ) → In n (leaves_of (tree_of second.now)) →
        n < length (B.working leaves.old) }
    requires first_fits { FitsChange (tree_form M.rule (tree_of first.now))
        first_change }
    requires second_fits { FitsChange (tree_form M.rule (tree_of second.now))
        second_change }
    ensures changed { B.whole leaves.old → OnOk result
        (AreReplaced M.rule (tree_of first.now) (tree_of second.now) first_change second_change
        (B.working leaves.old) (B.working leaves.new)) }
    ensures others { (n : ℕ) → B.whole leaves.old → ¬ IsErrOf result Stop.Fault →
        ¬ In n (leaves_of (tree_of first.now)) → ¬ In n (leaves_of (tree_of second.now)) →
        map_at (B.working leaves.new) n ≡ map_at (B.working leaves.old) n }
    ensures keeps { Keeps B.View leaves.old leaves.new }
    ensures work { B.work leaves.new ≡ B.work leaves.old }
    ensures ends { Ends B.View (B.whole leaves.old) leaves.old leaves.new result }
    ensures full { B.whole leaves.old → IsErrOf result Stop.Full →
        IsCrowdedBy (B.limit leaves.old)
        (entry_count (B.working leaves.old)
        + (length (entries_if M.rule (tree_of first.now) first_change.new)
        + length (entries_if M.rule (tree_of second.now) second_change.new))) }
{
    first.replace(alloc, leaves, first_change.old, first_change.new)?;
    second.replace(alloc, leaves, second_change.old, second_change.new)
}
