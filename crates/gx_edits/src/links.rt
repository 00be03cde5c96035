// The commands that change links, and whether a record is an end of a pair.
ghost use Rattle.std.specs.Prelude.{◌≡◌, ◌<◌, ◌&&◌, true, length, IfOk};
ghost use Rattle.gx_values.specs.Values.{Fits};
ghost use Rattle.gx_schema.specs.Lookups.{file_at, link_at, key_kind};
ghost use Rattle.gx_commands.specs.declared.command.Command.TheVariants as command;
ghost use Rattle.gx_commands.specs.Commands.{IsOfSchema};
ghost use Rattle.gx_ports.specs.Calls.{OnlyReads};
ghost use Rattle.gx_model.specs.States.{State, link_in};
ghost use Rattle.gx_model.specs.Commands.{is_end_of, is_linked};
ghost use Rattle.gx_states.specs.Internal.{AreInternal, AreFor, HaveState};
ghost use Rattle.gx_edits.specs.Edits.{Edits};

use gx_linksets::link_def;
use gx_pairs::{Refused, connect_pair, disconnect_pair, has_members, has_owner};
use gx_ports::{Leaves, Stop};
use gx_schema::Schema;
use gx_states::stored_link;
use gx_types::Built;
use gx_values::Value;
use std::alloc::Global;

/// Connects a member to an owner, or answers why it doesn't.
pub(crate) fn connect<B: Leaves>(
    alloc: Global,
    schema: &Schema,
    built: &Built,
    link: u16,
    owner: &Value,
    member: &Value,
    leaves: &mut B,
) -> Result<Option<Refused>, Stop>
    requires ready { AreFor schema.now built.now (length (B.working leaves.old)) }
    requires of_schema { IsOfSchema schema.now (command.Connect link owner.now member.now) }
    ensures { Edits B.View schema.now built.now (command.Connect link owner.now member.now)
        leaves.old leaves.new result }
{
    let stored = stored_link(schema, built, link);
    connect_pair(alloc, &stored, owner, member, leaves)
}

/// Takes a member from its owner, or answers why it doesn't.
pub(crate) fn disconnect<B: Leaves>(
    alloc: Global,
    schema: &Schema,
    built: &Built,
    link: u16,
    member: &Value,
    leaves: &mut B,
) -> Result<Option<Refused>, Stop>
    requires ready { AreFor schema.now built.now (length (B.working leaves.old)) }
    requires of_schema { IsOfSchema schema.now (command.Disconnect link member.now) }
    ensures { Edits B.View schema.now built.now (command.Disconnect link member.now)
        leaves.old leaves.new result }
{
    let stored = stored_link(schema, built, link);
    disconnect_pair(alloc, &stored, member, leaves)
}

/// Whether the record with this key is an end of a pair of some link.
pub(crate) fn is_linked<B: Leaves>(
    alloc: Global,
    schema: &Schema,
    built: &Built,
    file: u16,
    key: &Value,
    leaves: &mut B,
) -> Result<bool, Stop>
    requires ready { AreFor schema.now built.now (length (B.working leaves.old)) }
    requires file { file < length schema.now.files }
    requires key { Fits (key_kind (file_at schema.now file)) key.now }
    ensures found { (s : State) → B.whole leaves.old →
        AreInternal schema.now built.now (B.working leaves.old) s →
        IfOk result (λ linked. linked ≡ is_linked schema.now.links s.links file key.now) }
    ensures reads { OnlyReads B.View
        (B.whole leaves.old × HaveState schema.now built.now (B.working leaves.old))
        leaves.old leaves.new result }
{
    for link in 0..schema.links.0.len() {
        if is_end_of(alloc, schema, built, link as u16, file, key, leaves)? {
            return Ok(true);
        }
    }
    Ok(false)
}

// Whether it is an end of a pair of this link.
fn is_end_of<B: Leaves>(
    alloc: Global,
    schema: &Schema,
    built: &Built,
    link: u16,
    file: u16,
    key: &Value,
    leaves: &mut B,
) -> Result<bool, Stop>
    requires ready { AreFor schema.now built.now (length (B.working leaves.old)) }
    requires link { link < length schema.now.links }
    requires key { Fits (key_kind (file_at schema.now file)) key.now }
    ensures found { (s : State) → B.whole leaves.old →
        AreInternal schema.now built.now (B.working leaves.old) s →
        IfOk result (λ is. is ≡ is_end_of (link_at schema.now link) (link_in s link) file key.now) }
    ensures reads { OnlyReads B.View
        (B.whole leaves.old × HaveState schema.now built.now (B.working leaves.old))
        leaves.old leaves.new result }
{
    let def = link_def(schema, link);
    let stored = stored_link(schema, built, link);
    if def.member == file && has_owner(alloc, &stored.linkset, key, leaves)? {
        return Ok(true);
    }
    Ok(def.owner == file && has_members(alloc, &stored.linkset, key, leaves)?)
}
