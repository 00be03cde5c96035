// Single pages of a chain are changed.
ghost use Rattle.std.specs.Prelude.{◌≡◌, ◌≢◌, ◌↔◌, ◌+◌, ◌≤◌, length, IsTrue, OnOk, IsErrOf};
ghost use Rattle.std.specs.Bool.{OnTrue};
ghost use Rattle.std.specs.List.{insert};
ghost use Rattle.gx_values.specs.declared.bytes.TheConstants.{MAX_KEY_LEN};
ghost use Rattle.gx_ports.specs.declared.leaves.TheConstants.{MAX_ENTRY_LEN};
ghost use Rattle.gx_bytes.specs.declared.page.TheConstants.{PAGE_LEN};
ghost use Rattle.gx_ports.specs.Files.{EndsFile};
ghost use Rattle.gx_ports.specs.PageCalls.{KeepsPages};
ghost use Rattle.gx_ports.specs.Sheets.{IsPast};
ghost use Rattle.gx_chain.specs.Chain.{IsEntryAt};
ghost use Rattle.gx_slots.specs.Page.{IsEntryPage, entries_of, next_of};
ghost use Rattle.gx_chain.specs.Changes.{HasRoomFor, HasKeyAt, HasRoomAt, IsTaken, IsAdded, IsAppended};

use crate::read::read_entries;
use gx_ports::{PAGE_LEN, Pages, Stop};
use gx_slots::{add, clear, count, find, set_next, take};

/// Adds an entry behind those of a page. False where an entry has the key, or where this one
/// doesn't fit; then nothing changes.
pub(crate) fn add_last(page: &mut [u8], key: &[u8], body: &[u8]) -> bool
    requires page { IsEntryPage page.old }
    requires key { length key.now ≤ MAX_KEY_LEN }
    requires entry { length key.now + length body.now ≤ MAX_ENTRY_LEN }
    ensures page { IsEntryPage page.new }
    ensures room { IsTrue result ↔ HasRoomFor (entries_of page.old) key.now body.now }
    ensures added { OnTrue result
        (entries_of page.new
        ≡ insert (entries_of page.old) (length (entries_of page.old))
        (record { key = key.now; body = body.now })) }
    ensures next { next_of page.new ≡ next_of page.old }
{
    match find(page, key) {
        Some(_) => false,
        None => add(page, count(page), key, body),
    }
}

/// Takes the entry with the key from a page.
pub(crate) fn take_from<P: Pages>(
    pages: &mut P,
    number: u32,
    key: &[u8],
    page: &mut [u8],
) -> Result<(), Stop>
    requires number { IsPast (P.ground pages.old) number }
    requires bytes { length page.old ≡ PAGE_LEN }
    ensures taken { IsTrue P.tells → OnOk result
        (IsTaken number key.now (P.working pages.old) (P.working pages.new)) }
    ensures len { length page.new ≡ PAGE_LEN }
    ensures keeps { KeepsPages P.PageView pages.old pages.new }
    ensures ends { EndsFile P.PageView (HasKeyAt P.PageView pages.old number key.now)
        pages.old pages.new result }
    ensures not_full { ¬ IsErrOf result Stop.Full }
    ensures frugal { ¬ IsErrOf result Stop.NoMemory }
{
    read_entries(pages, number, page)?;
    let Some(place) = find(page, key) else {
        return Err(Stop::Damaged(pages.block(number)));
    };
    take(page, place);
    pages.write(number, page)?;
    Ok(())
}

/// Adds an entry behind those of a page.
pub(crate) fn add_to<P: Pages>(
    pages: &mut P,
    number: u32,
    key: &[u8],
    body: &[u8],
    page: &mut [u8],
) -> Result<(), Stop>
    requires number { IsPast (P.ground pages.old) number }
    requires bytes { length page.old ≡ PAGE_LEN }
    requires key { length key.now ≤ MAX_KEY_LEN }
    requires entry { length key.now + length body.now ≤ MAX_ENTRY_LEN }
    ensures added { IsTrue P.tells → OnOk result
        (IsAdded number key.now body.now (P.working pages.old) (P.working pages.new)) }
    ensures len { length page.new ≡ PAGE_LEN }
    ensures keeps { KeepsPages P.PageView pages.old pages.new }
    ensures ends { EndsFile P.PageView
        (HasRoomAt P.PageView pages.old number key.now body.now)
        pages.old pages.new result }
    ensures not_full { ¬ IsErrOf result Stop.Full }
    ensures frugal { ¬ IsErrOf result Stop.NoMemory }
{
    read_entries(pages, number, page)?;
    if !add_last(page, key, body) {
        return Err(Stop::Damaged(pages.block(number)));
    }
    pages.write(number, page)?;
    Ok(())
}

/// Writes a page with this entry alone, and hangs it behind the last one.
pub(crate) fn append<P: Pages>(
    pages: &mut P,
    last: u32,
    fresh: u32,
    key: &[u8],
    body: &[u8],
    page: &mut [u8],
) -> Result<(), Stop>
    requires last { IsPast (P.ground pages.old) last }
    requires fresh { IsPast (P.ground pages.old) fresh }
    requires bytes { length page.old ≡ PAGE_LEN }
    requires key { length key.now ≤ MAX_KEY_LEN }
    requires entry { length key.now + length body.now ≤ MAX_ENTRY_LEN }
    ensures appended { IsTrue P.tells → last ≢ fresh → OnOk result
        (IsAppended last fresh key.now body.now (P.working pages.old) (P.working pages.new)) }
    ensures keeps { KeepsPages P.PageView pages.old pages.new }
    ensures ends { EndsFile P.PageView
        (IsEntryAt P.PageView pages.old last × (last ≢ fresh))
        pages.old pages.new result }
    ensures not_full { ¬ IsErrOf result Stop.Full }
    ensures frugal { ¬ IsErrOf result Stop.NoMemory }
{
    clear(page);
    add(page, 0, key, body);
    pages.write(fresh, page)?;
    read_entries(pages, last, page)?;
    set_next(page, fresh);
    pages.write(last, page)?;
    Ok(())
}
