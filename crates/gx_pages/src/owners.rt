// The owners of pages, read off the table and written there.
ghost use Rattle.std.specs.Prelude.{◌≡◌, ◌<◌, ◌≤◌, ◌+◌, ◌*◌, ℕ, Some, length, slice_get, IsTrue, IfOk, IfSome, OnOk};
ghost use Rattle.gx_ports.specs.declared.pages.TheConstants.{OWNERS};
ghost use Rattle.gx_ports.specs.Sheets.{IsPast, IsOwnedAnew};
ghost use Rattle.gx_journal.specs.Journal.{size_of, working_of, IsUnchanged};
ghost use Rattle.gx_pages.specs.Owners.{owner_at, IsFoundFree, IsAllFree};
ghost use Rattle.gx_pages.specs.Paged.{ground_of, working_sheets, KeepsJournal};

use crate::table::{NUMBERS, clear_page, free_between, number, read_numbers, set_number};
use gx_device::{Device, Failed};
use gx_journal::Journal;
use gx_layout::table_pages;
use gx_ports::PAGE_LEN;

/// How many pages the table of the owners has.
pub(crate) fn tables<D: Device>(journal: &Journal<D>) -> u32
    ensures count { result ≡ (ground_of journal.now).tables }
    ensures few { result ≤ OWNERS }
{
    table_pages(journal.blocks())
}

/// The owner of a page, 0 where it is free.
pub(crate) fn owner<D: Device>(journal: &mut Journal<D>, page: u32) -> Result<u16, Failed>
    requires { page < size_of journal.old }
    ensures owner { IsTrue D.tells →
        IfOk result (λ owner. owner_at (working_of journal.old) page ≡ owner) }
    ensures working { working_of journal.new ≡ working_of journal.old }
    ensures unchanged { IsUnchanged journal.old → IsUnchanged journal.new }
    ensures keeps { KeepsJournal journal.old journal.new result }
{
    let mut table = [0; PAGE_LEN];
    journal.read_page(page / NUMBERS, &mut table)?;
    Ok(number(&table, page))
}

/// Reads the owners that stand on one page of the table.
pub(crate) fn owners_on<D: Device>(
    journal: &mut Journal<D>,
    table: u32,
    into: &mut [u16],
) -> Result<(), Failed>
    requires table { table < size_of journal.old }
    requires count { length into.old ≡ OWNERS }
    ensures owners { IsTrue D.tells → OnOk result ((i : ℕ) → i < OWNERS →
        slice_get into.new i ≡ Some (owner_at (working_of journal.old) (OWNERS * table + i))) }
    ensures count { length into.new ≡ OWNERS }
    ensures working { working_of journal.new ≡ working_of journal.old }
    ensures unchanged { IsUnchanged journal.old → IsUnchanged journal.new }
    ensures keeps { KeepsJournal journal.old journal.new result }
{
    let mut numbers = [0; PAGE_LEN];
    journal.read_page(table, &mut numbers)?;
    read_numbers(&numbers, into);
    Ok(())
}

/// Gives a page past the table to an owner.
pub(crate) fn set_owner<D: Device>(
    journal: &mut Journal<D>,
    page: u32,
    owner: u16,
) -> Result<(), Failed>
    requires { IsPast (ground_of journal.old) page }
    ensures owned { IsTrue D.tells → OnOk result
        (IsOwnedAnew page owner (ground_of journal.old) (working_sheets journal.old)
        (working_sheets journal.new)) }
    ensures keeps { KeepsJournal journal.old journal.new result }
{
    let mut table = [0; PAGE_LEN];
    journal.read_page(page / NUMBERS, &mut table)?;
    set_number(&mut table, page, owner);
    journal.write_page(page / NUMBERS, &table)
}

// A free page past the table whose number stands on this page of the table, looked for from `hint`
// on and then before it.
fn free_on<D: Device>(
    journal: &mut Journal<D>,
    table: u32,
    hint: u32,
) -> Result<Option<u32>, Failed>
    requires below { table < size_of journal.old }
    requires table { table < OWNERS }
    ensures free { IsTrue D.tells → IfOk result
        (IsFoundFree table (table + 1) (ground_of journal.old) (working_of journal.old)) }
    ensures past { IfOk result (λ found. IfSome found (IsPast (ground_of journal.old))) }
    ensures working { working_of journal.new ≡ working_of journal.old }
    ensures keeps { KeepsJournal journal.old journal.new result }
{
    let mut numbers = [0; PAGE_LEN];
    journal.read_page(table, &mut numbers)?;
    let start = table * NUMBERS;
    let end = journal.pages().min(start + NUMBERS);
    let first = start.max(tables(journal)).min(end);
    let middle = hint.clamp(first, end);
    if let Some(page) = free_between(&numbers, middle, end) {
        return Ok(Some(page));
    }
    Ok(free_between(&numbers, first, middle))
}

// A free page past the table whose number stands on one of these pages of the table.
fn free_among<D: Device>(
    journal: &mut Journal<D>,
    from: u32,
    end: u32,
    hint: u32,
) -> Result<Option<u32>, Failed>
    requires below { end ≤ size_of journal.old }
    requires table { end ≤ OWNERS }
    ensures free { IsTrue D.tells → IfOk result
        (IsFoundFree from end (ground_of journal.old) (working_of journal.old)) }
    ensures past { IfOk result (λ found. IfSome found (IsPast (ground_of journal.old))) }
    ensures working { working_of journal.new ≡ working_of journal.old }
    ensures keeps { KeepsJournal journal.old journal.new result }
{
    for table in from..end {
        if let Some(page) = free_on(journal, table, hint)? {
            return Ok(Some(page));
        }
    }
    Ok(None)
}

/// A free page past the table, looked for from `hint` on and once round. `None`: there is none.
/// Each page of the table is read once at most.
pub(crate) fn find_free<D: Device>(
    journal: &mut Journal<D>,
    hint: u32,
) -> Result<Option<u32>, Failed>
    ensures free { IsTrue D.tells → IfOk result
        (IsFoundFree 0 (ground_of journal.old).tables (ground_of journal.old)
        (working_of journal.old)) }
    ensures past { IfOk result (λ found. IfSome found (IsPast (ground_of journal.old))) }
    ensures working { working_of journal.new ≡ working_of journal.old }
    ensures keeps { KeepsJournal journal.old journal.new result }
{
    let end = journal.pages().div_ceil(NUMBERS).min(tables(journal));
    let first = end.min(hint / NUMBERS);
    if let Some(page) = free_among(journal, first, end, hint)? {
        return Ok(Some(page));
    }
    free_among(journal, 0, first, hint)
}

/// Writes the table so that no page past it has an owner. The pages past it stay.
pub(crate) fn clear_owners<D: Device>(journal: &mut Journal<D>) -> Result<(), Failed>
    ensures free { IsTrue D.tells → OnOk result
        (IsAllFree (ground_of journal.old) (working_sheets journal.new)) }
    ensures bytes { IsTrue D.tells → (other : ℕ) → (ground_of journal.old).tables ≤ other →
        slice_get (working_of journal.new) other ≡ slice_get (working_of journal.old) other }
    ensures keeps { KeepsJournal journal.old journal.new result }
{
    let tables = tables(journal);
    for table in 0..journal.pages().min(tables) {
        journal.write_page(table, &clear_page(tables, table))?;
    }
    Ok(())
}
