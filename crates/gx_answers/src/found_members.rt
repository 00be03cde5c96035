// The members of an owner that a `find` gives.
ghost use Rattle.std.specs.Prelude.{◌≡◌, ◌^◌, ◌<◌, [], Some, length};
ghost use Rattle.std.specs.List.{AllByRecursion};
ghost use Rattle.gx_values.specs.Values.{Fits};
ghost use Rattle.gx_schema.specs.Lookups.{key_kind};
ghost use Rattle.gx_commands.specs.Commands.{IsCondOf};
ghost use Rattle.gx_pairs.specs.Stored.{file_of, IsStoredLink};
ghost use Rattle.gx_pairs.specs.Search.{FindsMembers};
ghost use Rattle.gx_pairs.specs.Members.{AreMembersOf};
ghost use Rattle.gx_answers.specs.Work.{member_look_ups};
ghost use Rattle.gx_answers.specs.Queries.{key_number};

use gx_commands::{Find, Of};
use gx_finds::{condition_at, indexed_fields};
use gx_links::Linkset;
use gx_pairs::{StoredLink, add_member_at, add_members};
use gx_planner::{Plan, plan};
use gx_ports::{Leaves, Stop};
use gx_rows::Row;
use std::alloc::Global;

/// Appends the owner's members that meet the conditions to none, in any order, and answers whether
/// there is a record of the owner. Where the key is given, no other record is looked at.
pub(crate) fn add_found_members<B: Leaves, L: Linkset>(
    alloc: Global,
    stored: &StoredLink<L>,
    find: &Find,
    of: &Of,
    leaves: &mut B,
    rows: &mut Vec<Row>,
) -> Result<bool, Stop>
    requires stored { IsStoredLink L.rule L.valid stored.now (length (B.working leaves.old)) }
    requires owner { Fits (key_kind (file_of stored.now.owners)) of.now.owner }
    requires conds { AllByRecursion (IsCondOf (file_of stored.now.members)) find.now.conds }
    requires few { length find.now.conds < 2 ^ 16 }
    requires of { find.now.of ≡ Some of.now }
    requires none { rows.old.items ≡ [] }
    ensures { FindsMembers B.View L.rule L.held stored.now of.now.owner leaves.old leaves.new
        result
        (λ members link. AreMembersOf members link of.now.owner find.now.conds rows.new.items)
        (λ members link. member_look_ups stored.now.members find.now of.now.owner members link) }
{
    let conds = find.conds.0.as_slice();
    let indexed = indexed_fields(alloc, stored.members.file, stored.members.node)?;
    match key_number(plan(find, &indexed)) {
        Some(number) => {
            let cond = condition_at(find, number);
            add_member_at(alloc, stored, &of.owner, &cond.bound, conds, leaves, rows)
        }
        None => add_members(alloc, stored, &of.owner, conds, leaves, rows),
    }
}

// The number of the condition that gives the key.
fn key_number(plan: Plan) -> Option<u16>
    ensures { result ≡ key_number plan }
{
    match plan {
        Plan::Key(number) => Some(number),
        _ => None,
    }
}
