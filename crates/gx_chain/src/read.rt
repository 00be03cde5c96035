// Pages of a chain are read.
ghost use Rattle.std.specs.Prelude.{◌≡◌, length, IsTrue, OnOk, IfOk, IsErrOf};
ghost use Rattle.gx_bytes.specs.declared.page.TheConstants.{PAGE_LEN};
ghost use Rattle.gx_ports.specs.Files.{EndsFile};
ghost use Rattle.gx_ports.specs.PageCalls.{ReadsPages};
ghost use Rattle.gx_ports.specs.Sheets.{IsPast, bytes_at};
ghost use Rattle.gx_slots.specs.Page.{IsEntryPage, next_of};
ghost use Rattle.gx_chain.specs.Chain.{IsEntryAt, IsBehind, LeadsOn};

use gx_bytes::{has_kind, page_number};
use gx_ports::{PAGE_LEN, Pages, Stop};
use gx_slots::{KIND, NONE, is_entries};

/// Reads an entry page. `Damaged`: the bytes of the page are none.
pub fn read_entries<P: Pages>(pages: &mut P, number: u32, page: &mut [u8]) -> Result<(), Stop>
    requires number { IsPast (P.ground pages.old) number }
    requires bytes { length page.old ≡ PAGE_LEN }
    ensures read { OnOk result (IsEntryPage page.new) }
    ensures bytes { IsTrue P.tells →
        OnOk result (page.new ≡ bytes_at (P.working pages.old) number) }
    ensures len { length page.new ≡ PAGE_LEN }
    ensures reads { ReadsPages P.PageView pages.old pages.new }
    ensures ends { EndsFile P.PageView (IsEntryAt P.PageView pages.old number)
        pages.old pages.new result }
    ensures not_full { ¬ IsErrOf result Stop.Full }
    ensures frugal { ¬ IsErrOf result Stop.NoMemory }
{
    pages.read(number, page)?;
    if !is_entries(page) {
        return Err(Stop::Damaged(pages.block(number)));
    }
    Ok(())
}

/// Reads a page, and tests no more of it than its kind. `Damaged`: by that it is no entry page.
pub(crate) fn read_kind<P: Pages>(pages: &mut P, number: u32, page: &mut [u8]) -> Result<(), Stop>
    requires number { IsPast (P.ground pages.old) number }
    requires bytes { length page.old ≡ PAGE_LEN }
    ensures bytes { IsTrue P.tells →
        OnOk result (page.new ≡ bytes_at (P.working pages.old) number) }
    ensures len { length page.new ≡ PAGE_LEN }
    ensures reads { ReadsPages P.PageView pages.old pages.new }
    ensures ends { EndsFile P.PageView (IsEntryAt P.PageView pages.old number)
        pages.old pages.new result }
    ensures not_full { ¬ IsErrOf result Stop.Full }
    ensures frugal { ¬ IsErrOf result Stop.NoMemory }
{
    pages.read(number, page)?;
    if !has_kind(page, KIND) {
        return Err(Stop::Damaged(pages.block(number)));
    }
    Ok(())
}

/// The page behind this one, None where it is the last. `Damaged`: the number is that of no page
/// past the table.
pub(crate) fn behind<P: Pages>(pages: &P, number: u32, page: &[u8]) -> Result<Option<u32>, Stop>
    requires number { IsPast (P.ground pages.now) number }
    requires bytes { length page.now ≡ PAGE_LEN }
    ensures behind { IfOk result (IsBehind (P.ground pages.now) (next_of page.now)) }
    ensures ends { EndsFile P.PageView (LeadsOn (P.ground pages.now) (next_of page.now))
        pages.now pages.now result }
    ensures not_full { ¬ IsErrOf result Stop.Full }
    ensures frugal { ¬ IsErrOf result Stop.NoMemory }
{
    let next = next_number(page);
    if next == NONE {
        return Ok(None);
    }
    if next < pages.tables() || next >= pages.pages() {
        return Err(Stop::Damaged(pages.block(number)));
    }
    Ok(Some(next))
}

// The number of the next page, by the header alone.
fn next_number(page: &[u8]) -> u32
    requires { length page.now ≡ PAGE_LEN }
    ensures { result ≡ next_of page.now }
{
    page_number(page)
}
