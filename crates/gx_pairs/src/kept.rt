// Those of some rows that are members of an owner.
ghost use Rattle.std.specs.Prelude.{◌≡◌, length, filter, true, false};
ghost use Rattle.std.specs.FinMap as fin;
ghost use Rattle.std.specs.List.{AllByRecursion, list_any};
ghost use Rattle.gx_values.specs.Values.{Fits};
ghost use Rattle.gx_model.specs.States.{is_same};
ghost use Rattle.gx_model.specs.Found.{is_owner};
ghost use Rattle.gx_pairs.specs.Stored.{IsStoredLinkset};
ghost use Rattle.gx_pairs.specs.Search.{LooksInLink};
ghost use Rattle.gx_pairs.specs.Members.{is_member_of};

use gx_links::Linkset;
use gx_ports::{Leaves, Stop};
use gx_rows::Row;
use gx_values::{Value, Values, compare};
use std::alloc::Global;

/// Takes those of the rows away that aren't members of the owner. The steps are as many as those of
/// one look-up in the link for each row.
pub fn keep_members<B: Leaves, L: Linkset>(
    alloc: Global,
    linkset: &L,
    owner: &Value,
    leaves: &mut B,
    rows: Vec<Row>,
) -> Result<Vec<Row>, Stop>
    requires stored { IsStoredLinkset L.rule L.valid linkset.now (length (B.working leaves.old)) }
    requires owner { Fits (L.rule linkset.now).owner owner.now }
    requires members { AllByRecursion (λ r. Fits (L.rule linkset.now).member r.0) rows.items }
    ensures { LooksInLink B.View L.rule L.held linkset.now leaves.old leaves.new result
        (λ link kept. kept.items ≡ filter (is_member_of link owner.now) rows.items)
        (length rows.items) }
{
    if rows.is_empty() {
        return Ok(rows);
    }
    if linkset.finds() {
        keep_owned(alloc, linkset, owner, rows, leaves)
    } else {
        keep_found(alloc, linkset, owner, rows, leaves)
    }
}

// Keeps the rows whose owner, looked up for each, is this one.
fn keep_owned<B: Leaves, L: Linkset>(
    alloc: Global,
    linkset: &L,
    owner: &Value,
    rows: Vec<Row>,
    leaves: &mut B,
) -> Result<Vec<Row>, Stop>
    requires stored { IsStoredLinkset L.rule L.valid linkset.now (length (B.working leaves.old)) }
    requires finds { (L.rule linkset.now).finds ≡ true }
    requires members { AllByRecursion (λ r. Fits (L.rule linkset.now).member r.0) rows.items }
    ensures { LooksInLink B.View L.rule L.held linkset.now leaves.old leaves.new result
        (λ link kept. kept.items ≡ filter (is_member_of link owner.now) rows.items)
        (length rows.items) }
{
    let mut kept = Vec::new(alloc);
    for row in rows {
        if is_owned(alloc, linkset, owner, &row.key, leaves)? {
            kept.push(row)?;
        }
    }
    Ok(kept)
}

// Whether a member is one of the owner.
fn is_owned<B: Leaves, L: Linkset>(
    alloc: Global,
    linkset: &L,
    owner: &Value,
    member: &Value,
    leaves: &mut B,
) -> Result<bool, Stop>
    requires stored { IsStoredLinkset L.rule L.valid linkset.now (length (B.working leaves.old)) }
    requires finds { (L.rule linkset.now).finds ≡ true }
    requires member { Fits (L.rule linkset.now).member member.now }
    ensures { LooksInLink B.View L.rule L.held linkset.now leaves.old leaves.new result
        (λ link owned. owned ≡ is_owner owner.now (fin.get link member.now))
        1 }
{
    match linkset.owner(alloc, leaves, member)? {
        Some(found) => Ok(compare(&found, owner).is_eq()),
        None => Ok(false),
    }
}

// Keeps the rows that are among the members of the owner, which are looked up once.
fn keep_found<B: Leaves, L: Linkset>(
    alloc: Global,
    linkset: &L,
    owner: &Value,
    rows: Vec<Row>,
    leaves: &mut B,
) -> Result<Vec<Row>, Stop>
    requires stored { IsStoredLinkset L.rule L.valid linkset.now (length (B.working leaves.old)) }
    requires finds { (L.rule linkset.now).finds ≡ false }
    requires owner { Fits (L.rule linkset.now).owner owner.now }
    ensures { LooksInLink B.View L.rule L.held linkset.now leaves.old leaves.new result
        (λ link kept. kept.items ≡ filter (is_member_of link owner.now) rows.items)
        1 }
{
    let mut members = Values(Vec::new(alloc));
    linkset.members(alloc, leaves, owner, &mut members)?;
    Ok(rows_among(rows, &members.0))
}

// The rows whose keys are among these.
fn rows_among(rows: Vec<Row>, keys: &[Value]) -> Vec<Row>
    ensures { result.items ≡ filter (λ r. list_any (is_same r.0) keys.now) rows.items }
{
    let mut rows = rows;
    rows.retain(|row| is_among(keys, &row.key));
    rows
}

fn is_among(keys: &[Value], key: &Value) -> bool
    ensures { result ≡ list_any (is_same key.now) keys.now }
{
    keys.iter().any(|other| compare(key, other).is_eq())
}
