// The index page of an indexed sequential file is read.
ghost use Rattle.std.specs.Prelude.{◌≡◌, ◌<◌, ◌^◌, length, IsTrue, IfOk, OnOk, IsErrOf};
ghost use Rattle.gx_bytes.specs.declared.page.TheConstants.{PAGE_LEN};
ghost use Rattle.gx_ports.specs.Files.{EndsFile};
ghost use Rattle.gx_ports.specs.PageCalls.{ReadsPages};
ghost use Rattle.gx_ports.specs.Sheets.{IsPast, bytes_at};
ghost use Rattle.gx_chain.specs.Chain.{LeadsOn};
ghost use Rattle.gx_isam_index.specs.Index.{IsIndexPage, bucket_count, first_page_of};
ghost use Rattle.gx_isam.specs.Isam.{IsIndexAt};
ghost use Rattle.gx_isam.specs.Change.{IsFirst};

use gx_isam_index::{first, is_index};
use gx_ports::{PAGE_LEN, Pages, Stop};
use gx_slots::NONE;

/// Reads the index page. `Damaged`: the bytes of the root are none.
pub(crate) fn read_index<P: Pages>(pages: &mut P, root: u32, page: &mut [u8]) -> Result<(), Stop>
    requires root { IsPast (P.ground pages.old) root }
    requires bytes { length page.old ≡ PAGE_LEN }
    ensures read { OnOk result (IsIndexPage page.new) }
    ensures bytes { IsTrue P.tells →
        OnOk result (page.new ≡ bytes_at (P.working pages.old) root) }
    ensures len { length page.new ≡ PAGE_LEN }
    ensures reads { ReadsPages P.PageView pages.old pages.new }
    ensures ends { EndsFile P.PageView (IsIndexAt P.PageView pages.old root)
        pages.old pages.new result }
    ensures not_full { ¬ IsErrOf result Stop.Full }
    ensures frugal { ¬ IsErrOf result Stop.NoMemory }
{
    pages.read(root, page)?;
    if !is_index(page) {
        return Err(Stop::Damaged(pages.block(root)));
    }
    Ok(())
}

/// The first page of a bucket, None where it has no page. `Damaged`: the number is that of no page
/// past the table.
pub(crate) fn first_page<P: Pages>(
    pages: &P,
    root: u32,
    index: &[u8],
    bucket: u16,
) -> Result<Option<u32>, Stop>
    requires root { IsPast (P.ground pages.now) root }
    requires index { IsIndexPage index.now }
    requires bucket { bucket < bucket_count index.now }
    ensures first { IfOk result (IsFirst (P.ground pages.now) (first_page_of index.now bucket)) }
    ensures small { (P.ground pages.now).size < 2 ^ 32 }
    ensures ends { EndsFile P.PageView
        (LeadsOn (P.ground pages.now) (first_page_of index.now bucket))
        pages.now pages.now result }
    ensures not_full { ¬ IsErrOf result Stop.Full }
    ensures frugal { ¬ IsErrOf result Stop.NoMemory }
{
    let end = pages.pages();
    let first = first(index, bucket);
    if first == NONE {
        return Ok(None);
    }
    if first < pages.tables() || first >= end {
        return Err(Stop::Damaged(pages.block(root)));
    }
    Ok(Some(first))
}
