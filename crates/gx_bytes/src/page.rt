// The header of a page of records: the kind of page, 0, the number of records, and a page number.
ghost use Rattle.std.specs.Prelude.{◌≡◌, ◌≤◌, ◌↔◌, IsTrue, length, drop, slice_index};
ghost use Rattle.std.specs.Int.{w16, w32, to_be_bytes};
ghost use Rattle.gx_bytes.specs.Parts.{overwritten};
ghost use Rattle.gx_bytes.specs.Page.{header, count_of, number_of};

use crate::parts::overwrite;
use gx_device::BLOCK_LEN;

/// The number of bytes of a page: those of a block.
pub const PAGE_LEN: usize = BLOCK_LEN;

/// The number of bytes of the header that a page of records begins with.
pub const HEADER_LEN: usize = 8;

/// The page number that stands for no page.
pub const NONE: u32 = u32::MAX;

const COUNT_AT: usize = 2;

const NUMBER_AT: usize = 4;

/// Whether the page begins with the byte of this kind of page and a 0.
pub fn has_kind(page: &[u8], kind: u8) -> bool
    requires { 8 ≤ length page.now }
    ensures { IsTrue result ↔ ((slice_index page.now 0 ≡ kind) × (slice_index page.now 1 ≡ 0)) }
{
    page[0] == kind && page[1] == 0
}

/// The number of records that the header tells.
pub fn record_count(page: &[u8]) -> u16
    requires { 8 ≤ length page.now }
    ensures { result ≡ count_of page.now }
{
    u16::from_be_bytes([page[COUNT_AT], page[COUNT_AT + 1]])
}

/// The page number in the header.
pub fn page_number(page: &[u8]) -> u32
    requires { 8 ≤ length page.now }
    ensures { result ≡ number_of page.now }
{
    u32::from_be_bytes([
        page[NUMBER_AT],
        page[NUMBER_AT + 1],
        page[NUMBER_AT + 2],
        page[NUMBER_AT + 3],
    ])
}

/// The bytes behind the header.
pub fn page_body(page: &[u8]) -> &[u8]
    requires { 8 ≤ length page.now }
    ensures { result.now ≡ drop 8 page.now }
{
    let (_, body) = page.split_at(HEADER_LEN);
    body
}

/// Writes the header of a page of this kind.
pub fn write_header(page: &mut [u8], kind: u8, count: u16, number: u32)
    requires { 8 ≤ length page.old }
    ensures { page.new ≡ overwritten page.old 0 (header kind count number) }
{
    overwrite(page, 0, &[kind, 0]);
    set_record_count(page, count);
    set_page_number(page, number);
}

/// Writes the number of records into the header.
pub fn set_record_count(page: &mut [u8], count: u16)
    requires { 8 ≤ length page.old }
    ensures { page.new ≡ overwritten page.old 2 (to_be_bytes w16 count) }
{
    overwrite(page, COUNT_AT, &count.to_be_bytes());
}

/// Writes the page number into the header.
pub fn set_page_number(page: &mut [u8], number: u32)
    requires { 8 ≤ length page.old }
    ensures { page.new ≡ overwritten page.old 4 (to_be_bytes w32 number) }
{
    overwrite(page, NUMBER_AT, &number.to_be_bytes());
}
