// The members of an owner.
ghost use Rattle.std.specs.Prelude.{◌≡◌, ◌≤◌, ◌+◌, ◌*◌, ◌++◌, [], ℕ, length, filter, flat_map, OnOk, is_some};
ghost use Rattle.std.specs.FinMap as fin;
ghost use Rattle.std.specs.List.{AllByRecursion};
ghost use Rattle.gx_values.specs.declared.values.Value.{Value as FieldValue};
ghost use Rattle.gx_values.specs.Values.{Fits};
ghost use Rattle.gx_schema.specs.Lookups.{key_kind};
ghost use Rattle.gx_ports.specs.Calls.{ReadsMaps};
ghost use Rattle.gx_mapping.specs.Rule.{In};
ghost use Rattle.gx_model.specs.States.{File as FileMap};
ghost use Rattle.gx_model.specs.Found.{meets_conds};
ghost use Rattle.gx_stack.specs.Tree.{leaves_of};
ghost use Rattle.gx_scan.specs.Files.{IsInternal};
ghost use Rattle.gx_scan.specs.Steps.{HaveAtMost};
ghost use Rattle.gx_pairs.specs.Stored.{file_of, node_tree, IsStoredFile, IsStoredLinkset, IsStoredLink};
ghost use Rattle.gx_pairs.specs.Search.{LooksInFile, ReadsLink, FindsMembers};
ghost use Rattle.gx_pairs.specs.Members.{is_member_of, AreMembersOf, member_rows, has_member, rows_at, rows_meeting_at, HaveRecords};

use crate::kept::keep_members;
use crate::stored::{StoredFile, StoredLink, has_record};
use gx_commands::Cond;
use gx_gather::NO_BLOCK;
use gx_links::Linkset;
use gx_ports::{Leaves, Stop};
use gx_rows::Row;
use gx_scan::{find_values, meets_all};
use gx_values::{Value, Values};
use std::alloc::Global;

/// Appends the records of the owner's members that meet the conditions to none, in any order, and
/// answers whether there is a record of the owner. It takes at most `2 * (c + 1) * (w + l)` steps,
/// where c is the number of members, w the greatest number of leaf entries of a record or of an
/// owner, and l the number of leaves.
pub fn add_members<B: Leaves, L: Linkset>(
    alloc: Global,
    stored: &StoredLink<L>,
    owner: &Value,
    conds: &[Cond],
    leaves: &mut B,
    rows: &mut Vec<Row>,
) -> Result<bool, Stop>
    requires stored { IsStoredLink L.rule L.valid stored.now (length (B.working leaves.old)) }
    requires owner { Fits (key_kind (file_of stored.now.owners)) owner.now }
    requires none { rows.old.items ≡ [] }
    ensures { FindsMembers B.View L.rule L.held stored.now owner.now leaves.old leaves.new result
        (λ members link. AreMembersOf members link owner.now conds.now rows.new.items)
        (λ members link. 2 * (length (member_rows members link owner.now) + 1)) }
{
    if !has_record(alloc, &stored.owners, owner, leaves)? {
        return Ok(false);
    }
    let mut members = Values(Vec::new(alloc));
    stored.linkset.members(alloc, leaves, owner, &mut members)?;
    add_records(alloc, &stored.members, &members.0, conds, leaves, rows)?;
    Ok(true)
}

/// Appends the record with this key to none, where it is that of a member of the owner and meets
/// the conditions, and answers whether there is a record of the owner. No other record of the
/// members' file is looked at. It takes at most `(c + 2) * (w + l)` steps, where c is 1 where there
/// is such a record that meets the conditions and else 0, w the greatest number of leaf entries of
/// a record or of an owner, and l the number of leaves.
pub fn add_member_at<B: Leaves, L: Linkset>(
    alloc: Global,
    stored: &StoredLink<L>,
    owner: &Value,
    key: &Value,
    conds: &[Cond],
    leaves: &mut B,
    rows: &mut Vec<Row>,
) -> Result<bool, Stop>
    requires stored { IsStoredLink L.rule L.valid stored.now (length (B.working leaves.old)) }
    requires owner { Fits (key_kind (file_of stored.now.owners)) owner.now }
    requires key { Fits (key_kind (file_of stored.now.members)) key.now }
    requires none { rows.old.items ≡ [] }
    ensures { FindsMembers B.View L.rule L.held stored.now owner.now leaves.old leaves.new result
        (λ members link. rows.new.items
        ≡ filter (is_member_of link owner.now) (rows_meeting_at members conds.now key.now))
        (λ members link. length (rows_meeting_at members conds.now key.now) + 2) }
{
    if !has_record(alloc, &stored.owners, owner, leaves)? {
        return Ok(false);
    }
    let mut found = Vec::new(alloc);
    add_record(alloc, &stored.members, key, conds, leaves, &mut found)?;
    *rows = keep_members(alloc, &stored.linkset, owner, leaves, found)?;
    Ok(true)
}

// Appends the records of a file at these keys that meet the conditions.
fn add_records<B: Leaves>(
    alloc: Global,
    stored: &StoredFile,
    keys: &[Value],
    conds: &[Cond],
    leaves: &mut B,
    rows: &mut Vec<Row>,
) -> Result<(), Stop>
    requires stored { IsStoredFile stored.now (length (B.working leaves.old)) }
    requires fit { (key : FieldValue) → In key keys.now → Fits (key_kind (file_of stored.now)) key }
    ensures rows { (f : FileMap) → B.whole leaves.old →
        IsInternal (file_of stored.now) (node_tree stored.now) (B.working leaves.old) f →
        OnOk result (rows.new.items
        ≡ rows.old.items ++ filter (meets_conds conds.now) (flat_map (rows_at f) keys.now)) }
    ensures steps { (f : FileMap) (most : ℕ) → B.whole leaves.old →
        IsInternal (file_of stored.now) (node_tree stored.now) (B.working leaves.old) f →
        HaveAtMost most (node_tree stored.now) f → OnOk result
        (B.work leaves.new
        ≤ B.work leaves.old
        + length keys.now * (length (leaves_of (node_tree stored.now)) + most)) }
    ensures reads { ReadsMaps B.View
        (B.whole leaves.old × HaveRecords stored.now (B.working leaves.old) keys.now)
        leaves.old leaves.new result }
{
    for key in keys {
        if !add_record(alloc, stored, key, conds, leaves, rows)? {
            return Err(Stop::Damaged(NO_BLOCK));
        }
    }
    Ok(())
}

// Appends the record at a key, where it meets the conditions, and answers whether there is one.
fn add_record<B: Leaves>(
    alloc: Global,
    stored: &StoredFile,
    key: &Value,
    conds: &[Cond],
    leaves: &mut B,
    rows: &mut Vec<Row>,
) -> Result<bool, Stop>
    requires stored { IsStoredFile stored.now (length (B.working leaves.old)) }
    requires fit { Fits (key_kind (file_of stored.now)) key.now }
    ensures looks { LooksInFile B.View stored.now leaves.old leaves.new result
        (λ f there. (there ≡ is_some (fin.get f key.now))
        × (rows.new.items ≡ rows.old.items ++ rows_meeting_at f conds.now key.now)) }
    ensures fit { OnOk result
        (AllByRecursion (λ r. Fits (key_kind (file_of stored.now)) r.0) rows.old.items →
        AllByRecursion (λ r. Fits (key_kind (file_of stored.now)) r.0) rows.new.items) }
{
    let Some(values) = find_values(alloc, stored.file, stored.node, key, leaves)? else {
        return Ok(false);
    };
    let key = key.copy(alloc)?;
    let row = Row { key, values };
    if meets_all(conds, &row) {
        rows.push(row)?;
    }
    Ok(true)
}

/// Whether an owner has a member.
pub fn has_members<B: Leaves, L: Linkset>(
    alloc: Global,
    linkset: &L,
    owner: &Value,
    leaves: &mut B,
) -> Result<bool, Stop>
    requires stored { IsStoredLinkset L.rule L.valid linkset.now (length (B.working leaves.old)) }
    requires owner { Fits (L.rule linkset.now).owner owner.now }
    ensures { ReadsLink B.View L.rule L.held linkset.now leaves.old leaves.new result
        (λ link has. has ≡ has_member link owner.now) }
{
    let mut members = Values(Vec::new(alloc));
    linkset.members(alloc, leaves, owner, &mut members)?;
    Ok(!members.0.is_empty())
}
