// The numbers on a page of the table of owners.
ghost use Rattle.std.specs.Prelude.{◌≡◌, ◌*◌, ◌%◌, ◌<◌, ◌≤◌, ℕ, Some, length, slice_get};
ghost use Rattle.std.specs.Int.{w16, to_be_bytes};
ghost use Rattle.gx_bytes.specs.Parts.{overwritten};
ghost use Rattle.gx_bytes.specs.declared.page.TheConstants.{PAGE_LEN};
ghost use Rattle.gx_ports.specs.declared.pages.TheConstants.{OWNERS};
ghost use Rattle.gx_pages.specs.Owners.{owner_number, IsFreeBetween, IsClear};

use gx_bytes::overwrite;
use gx_ports::{MAX_OWNER, OWNERS, PAGE_LEN};

/// The owner of a page of the table.
pub(crate) const TABLE_OWNER: u16 = MAX_OWNER + 1;

/// The number of a page without an owner.
pub(crate) const FREE: u16 = 0;

/// How many numbers a page of the table has.
pub(crate) const NUMBERS: u32 = OWNERS as u32;

const NUMBER_LEN: usize = 2;

// Where the number of a page begins on its page of the table.
fn place_of(page: u32) -> usize
    ensures { result ≡ 2 * (page % OWNERS) }
{
    (page % NUMBERS) as usize * NUMBER_LEN
}

/// The number of a page.
pub(crate) fn number(table: &[u8], page: u32) -> u16
    requires { length table.now ≡ PAGE_LEN }
    ensures { result ≡ owner_number table.now page }
{
    let place = place_of(page);
    u16::from_be_bytes([table[place], table[place + 1]])
}

/// Reads all numbers on a page of the table.
pub(crate) fn read_numbers(table: &[u8], into: &mut [u16])
    requires table { length table.now ≡ PAGE_LEN }
    requires count { length into.old ≡ OWNERS }
    ensures numbers { (i : ℕ) → i < OWNERS →
        slice_get into.new i ≡ Some (owner_number table.now i) }
    ensures count { length into.new ≡ OWNERS }
{
    for page in 0..NUMBERS {
        into[page as usize] = number(table, page);
    }
}

/// Writes the number of a page.
pub(crate) fn set_number(table: &mut [u8], page: u32, number: u16)
    requires { length table.old ≡ PAGE_LEN }
    ensures { table.new ≡ overwritten table.old (2 * (page % OWNERS)) (to_be_bytes w16 number) }
{
    overwrite(table, place_of(page), &number.to_be_bytes());
}

/// A page without an owner, from `from` on and before `end`. `None`: each of them has one.
pub(crate) fn free_between(table: &[u8], from: u32, end: u32) -> Option<u32>
    requires { length table.now ≡ PAGE_LEN }
    ensures { IsFreeBetween table.now from end result }
{
    for page in from..end {
        if number(table, page) == FREE {
            return Some(page);
        }
    }
    None
}

// The first page of a table of so many pages while no page past it has an owner.
fn first_clear(tables: u32) -> [u8; PAGE_LEN]
    requires { tables ≤ OWNERS }
    ensures { IsClear tables 0 result }
{
    let mut numbers = [0; PAGE_LEN];
    for page in 0..tables {
        set_number(&mut numbers, page, TABLE_OWNER);
    }
    numbers
}

/// A page of a table of so many pages while no page past it has an owner.
pub(crate) fn clear_page(tables: u32, table: u32) -> [u8; PAGE_LEN]
    requires { tables ≤ OWNERS }
    ensures { IsClear tables table result }
{
    if table == 0 {
        return first_clear(tables);
    }
    [0; PAGE_LEN]
}
