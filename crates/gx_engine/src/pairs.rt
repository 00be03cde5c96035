// The pairs of a link, appended, from leaves that hold a state.
ghost use Rattle.std.specs.Prelude.{◌≡◌, ◌<◌, ◌++◌, length, OnOk, OnErr};
ghost use Rattle.std.specs.FinMap as fin;
ghost use Rattle.gx_ports.specs.Calls.{ReadsMaps};
ghost use Rattle.gx_model.specs.States.{State, link_in};
ghost use Rattle.gx_states.specs.Internal.{AreFor, AreInternal, HaveState};

use gx_links::{Linkset, Pairs};
use gx_ports::{Leaves, Stop};
use gx_schema::Schema;
use gx_states::stored_link;
use gx_types::Built;
use std::alloc::Global;

/// Appends the pairs of a link, each a member with its owner, in the order of the members.
pub(crate) fn append_pairs<B: Leaves>(
    alloc: Global,
    schema: &Schema,
    built: &Built,
    link: u16,
    leaves: &mut B,
    out: &mut Pairs,
) -> Result<(), Stop>
    requires ready { AreFor schema.now built.now (length (B.working leaves.old)) }
    requires link { link < length schema.now.links }
    ensures pairs { (s : State) → B.whole leaves.old →
        AreInternal schema.now built.now (B.working leaves.old) s →
        OnOk result (out.new ≡ out.old ++ fin.entries (link_in s link)) }
    ensures unsaid { OnErr result (out.new ≡ out.old) }
    ensures reads { ReadsMaps B.View
        (B.whole leaves.old × HaveState schema.now built.now (B.working leaves.old)) leaves.old
        leaves.new result }
{
    let stored = stored_link(schema, built, link);
    let Some(mut pairs) = stored.linkset.pairs(alloc, leaves, &mut [])? else {
        return Err(Stop::Damaged(0));
    };
    out.0.append(&mut pairs.0)?;
    Ok(())
}
