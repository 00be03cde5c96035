// Laying out the leaves of a file or a link anew.
ghost use Rattle.std.specs.Prelude.{◌≡◌, ◌≤◌, ℕ, length, slice_get, OnOk, IsErrOf, Some};
ghost use Rattle.gx_ports.specs.LeafMaps.{IsCrowded};
ghost use Rattle.gx_ports.specs.Calls.{Keeps, Ends};
ghost use Rattle.gx_ports.specs.declared.kinds.TheConstants.{MAX_LEAVES};

use gx_ports::{Leaves, Stop};
use gx_typing::Owners;
use std::alloc::Global;

/// Lays the entries of each leaf of a file or a link out anew. What they hold stays. The
/// definitions are numbered as the owners of the leaves are: the files first, and then the links.
pub(crate) fn reorganize<B: Leaves>(
    alloc: Global,
    owners: &Owners,
    definition: usize,
    leaves: &mut B,
) -> Result<(), Stop>
    requires owned { length owners.now ≡ length (B.working leaves.old) }
    requires few { length owners.now ≤ MAX_LEAVES }
    ensures working { B.whole leaves.old →
        OnOk result (B.working leaves.new ≡ B.working leaves.old) }
    ensures fresh { B.whole leaves.old → OnOk result
        ((leaf : ℕ) → slice_get owners.now leaf ≡ Some definition → B.fresh leaves.new leaf) }
    ensures keeps { Keeps B.View leaves.old leaves.new }
    ensures ends { Ends B.View (B.whole leaves.old) leaves.old leaves.new result }
    ensures full { B.whole leaves.old → IsErrOf result Stop.Full →
        IsCrowded (B.limit leaves.old) (B.working leaves.old) }
{
    for leaf in 0..owners.0.len() {
        if usize::from(owners.0[leaf]) == definition {
            leaves.reorganize(alloc, leaf as u32)?;
        }
    }
    Ok(())
}
