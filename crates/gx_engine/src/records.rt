// Records that are appended, from leaves that hold a state.
ghost use Rattle.std.specs.Prelude.{◌≡◌, ◌^◌, ◌<◌, ◌+◌, ◌*◌, ◌++◌, None, true, length, map, IfOk, OnOk, OnErr};
ghost use Rattle.std.specs.FinMap as fin;
ghost use Rattle.gx_values.specs.Values.{Fits};
ghost use Rattle.gx_schema.specs.Lookups.{file_at, link_at, key_kind};
ghost use Rattle.gx_commands.specs.declared.command.Command.TheVariants as command;
ghost use Rattle.gx_commands.specs.Commands.{IsOfSchema};
ghost use Rattle.gx_types.specs.Links.{linkset_at};
ghost use Rattle.gx_model.specs.States.{file_in, link_in};
ghost use Rattle.gx_model.specs.Found.{IsListed, meets_conds};
ghost use Rattle.gx_scan.specs.Files.{rec_of};
ghost use Rattle.gx_linksets.specs.Stored.{finds_owner};
ghost use Rattle.gx_pairs.specs.Members.{member_rows};
ghost use Rattle.gx_pairs.specs.Owners.{owner_look_ups};
ghost use Rattle.gx_states.specs.Internal.{AreFor};
ghost use Rattle.gx_answers.specs.Work.{candidates};
ghost use Rattle.gx_engine.specs.Records.{AreOwner, AppendsFrom};

use gx_commands::{Find, OrderBy};
use gx_finds::found_rows;
use gx_gather::Recs;
use gx_pairs::{Owned, add_members, find_owner};
use gx_ports::{Leaves, Stop};
use gx_rows::{Row, sort_rows};
use gx_schema::Schema;
use gx_states::{file_def, file_node, stored_link};
use gx_types::Built;
use gx_values::{Rec, Value, Values};
use std::alloc::{AllocError, Global};

/// Appends the records that a `find` without `of` gives, in its order.
pub(crate) fn append_found<B: Leaves>(
    alloc: Global,
    schema: &Schema,
    built: &Built,
    find: &Find,
    leaves: &mut B,
    out: &mut Recs,
) -> Result<(), Stop>
    requires ready { AreFor schema.now built.now (length (B.working leaves.old)) }
    requires of_schema { IsOfSchema schema.now (command.Find find.now) }
    requires few { length find.now.conds < 2 ^ 16 }
    requires alone { find.now.of ≡ None }
    ensures { AppendsFrom B.View schema.now built.now leaves.old leaves.new out.old out.new result
        (λ s rows. IsListed (file_in s find.now.file) (meets_conds find.now.conds) find.now.order
        rows) true (λ s. 2 * (length (candidates schema.now built.now s find.now) + 1)) }
{
    let def = file_def(schema, find.file);
    let node = file_node(built, find.file);
    let rows = found_rows(alloc, def, node, find, leaves)?;
    append_rows(alloc, rows, out)?;
    Ok(())
}

/// Appends the records of an owner's members, by ascending key.
pub(crate) fn append_members<B: Leaves>(
    alloc: Global,
    schema: &Schema,
    built: &Built,
    link: u16,
    owner: &Value,
    leaves: &mut B,
    out: &mut Recs,
) -> Result<(), Stop>
    requires ready { AreFor schema.now built.now (length (B.working leaves.old)) }
    requires link { link < length schema.now.links }
    requires owner { Fits (key_kind (file_at schema.now (link_at schema.now link).owner))
        owner.now }
    ensures { AppendsFrom B.View schema.now built.now leaves.old leaves.new out.old out.new result
        (λ s rows. rows
        ≡ member_rows (file_in s (link_at schema.now link).member) (link_in s link) owner.now)
        true (λ s. 2 * (length (member_rows (file_in s (link_at schema.now link).member)
        (link_in s link) owner.now) + 1)) }
{
    let stored = stored_link(schema, built, link);
    let mut rows = Vec::new(alloc);
    if !add_members(alloc, &stored, owner, &[], leaves, &mut rows)? {
        return Ok(());
    }
    let by_key = OrderBy {
        field: 0,
        desc: false,
    };
    sort_rows(&mut rows, by_key)?;
    append_rows(alloc, rows, out)?;
    Ok(())
}

/// Appends the record of a member's owner, and nothing where it has none.
pub(crate) fn append_owner<B: Leaves>(
    alloc: Global,
    schema: &Schema,
    built: &Built,
    link: u16,
    member: &Value,
    leaves: &mut B,
    out: &mut Recs,
) -> Result<(), Stop>
    requires ready { AreFor schema.now built.now (length (B.working leaves.old)) }
    requires link { link < length schema.now.links }
    requires member { Fits (key_kind (file_at schema.now (link_at schema.now link).member))
        member.now }
    ensures { AppendsFrom B.View schema.now built.now leaves.old leaves.new out.old out.new result
        (λ s rows. AreOwner (file_in s (link_at schema.now link).owner)
        (fin.get (link_in s link) member.now) rows)
        (finds_owner (linkset_at built.now.links link))
        (λ s. owner_look_ups (fin.get (link_in s link) member.now)) }
{
    let stored = stored_link(schema, built, link);
    match find_owner(alloc, &stored, member, leaves)? {
        Owned::NoMember | Owned::Free => Ok(()),
        Owned::By(record) => Ok(out.0.push(record)?),
    }
}

// Appends the records of rows, all of them or none.
fn append_rows(alloc: Global, rows: Vec<Row>, out: &mut Recs) -> Result<(), AllocError>
    ensures ok { OnOk result (out.new ≡ out.old ++ map rec_of rows.items) }
    ensures err { OnErr result (out.new ≡ out.old) }
{
    let mut records = Vec::with_capacity(alloc, rows.len())?;
    for row in rows {
        records.push(record_of(alloc, row)?)?;
    }
    out.0.append(&mut records)
}

fn record_of(alloc: Global, row: Row) -> Result<Rec, AllocError>
    ensures { IfOk result (λ made. made ≡ rec_of row) }
{
    let mut keys = Vec::with_capacity(alloc, 1)?;
    keys.push(row.key)?;
    Ok(Rec {
        key: Values(keys),
        fields: row.values,
    })
}
