// Pages with owners on a device in memory, with the owners worked out by hand.
ghost use Rattle.std.specs.Prelude.{◌≡◌, ◌≤◌, length, IsTrue};
ghost use Rattle.gx_ports.specs.Sheets.{IsPast};
ghost use Rattle.gx_bytes.specs.declared.page.TheConstants.{PAGE_LEN};
ghost use Rattle.gx_ports.specs.declared.pages.TheConstants.{MAX_OWNER};
ghost use Rattle.gx_pages.specs.Paged.{ground_of};
ghost use Rattle.gx_pages.specs.View.{journal_of};

use Step::{Abort, Claim, ClaimAt, Commit, Free, Write};
use gx_device::{Device, Machine};
use gx_journal::Journal;
use gx_memory_machine::MemoryMachine;
use gx_pages::Paged;
use gx_ports::{MAX_OWNER, PAGE_LEN, Pages, Stop};
use std::alloc::Global;
use std::process;
use std::test::Fail;

/// The blocks of a device of 20 pages, of which 4 are past the table of the owners.
const BLOCKS: u32 = 47;

/// The home of page 0.
const FIRST_HOME: u32 = 27;

#[derive(Clone, Copy)]
enum Step {
    /// A claim for an owner, and the page that it gives; None where no page is free.
    Claim(u16, Option<u32>),
    ClaimAt(u32, u16),
    Free(u32),
    Write(u32, u8),
    Commit,
    Abort,
}

fn is_past(pages: &Paged<MemoryMachine>, page: u32) -> bool
    ensures { IsTrue result → IsPast (ground_of (journal_of pages.now)) page }
{
    pages.tables() <= page && page < pages.pages()
}

fn is_owner(owner: u16) -> bool
    ensures { IsTrue result → (1 ≤ owner) × (owner ≤ MAX_OWNER) }
{
    1 <= owner && owner <= MAX_OWNER
}

/// Carries out a step, and says whether it went as it tells.
fn take(pages: &mut Paged<MemoryMachine>, step: Step) -> bool {
    match step {
        Claim(owner, page) if is_owner(owner) => match pages.claim(owner) {
            Ok(claimed) => page == Some(claimed),
            Err(stop) => stop == Stop::Full && page.is_none(),
        },
        ClaimAt(page, owner) if is_past(pages, page) && is_owner(owner) => pages
            .claim_at(page, owner)
            .is_ok(),
        Free(page) if is_past(pages, page) => pages.free(page).is_ok(),
        Write(page, fill) if is_past(pages, page) => pages.write(page, &[fill; PAGE_LEN]).is_ok(),
        Commit => pages.commit().is_ok(),
        Abort => {
            pages.abort();
            true
        }
        _ => false,
    }
}

/// Whether the pages from this one on have these owners.
fn are_owned(pages: &mut Paged<MemoryMachine>, first: u32, owners: &[u16]) -> bool
    requires first { first ≤ 16 }
    requires few { length owners.now ≤ 16 }
{
    let mut all = true;
    for (place, owner) in owners.iter().enumerate() {
        let page = first + place as u32;
        all = all && page < pages.pages() && pages.owner(page) == Ok(*owner);
    }
    all
}

/// Whether the first page of the table has these bytes for the pages past it.
fn are_numbers(table: &[u8], numbers: &[u8]) -> bool
    requires { length table.now ≡ PAGE_LEN }
{
    let (own, others) = table.split_at(32);
    let (owned, behind) = others.split_at(8);
    own.iter().all(|byte| *byte == 0xFF) && owned == numbers && behind.iter().all(|byte| *byte == 0)
}

fn machine(alloc: Global, rt: &impl process::Abort) -> Result<MemoryMachine, Fail> {
    let mut machine = MemoryMachine::new(alloc)?;
    machine.reserve(alloc, 1000, 1_000_000)?;
    assert!(rt; machine.attach(alloc, "d", Some(BLOCKS)) == Ok(()));
    Ok(machine)
}

/// New pages over a device.
fn made(alloc: Global, rt: &impl process::Abort) -> Result<Paged<MemoryMachine>, Fail> {
    let machine = machine(alloc, rt)?;
    assert!(rt; machine.blocks() == BLOCKS);
    let journal = Journal::format(alloc, machine, 8, b"", b"").ok();
    let journal = journal.expect(rt, "a journal");
    Ok(Paged::make(journal).ok().expect(rt, "pages"))
}

// Each row: steps, and then the owners of the pages past the table.
const ROWS: [(&[Step], [u16; 4]); 6] = [
    (
        &[Claim(1, Some(16)), Claim(2, Some(17)), Claim(1, Some(18))],
        [1, 2, 1, 0],
    ),
    (&[Free(17), Claim(3, Some(17))], [1, 3, 1, 0]),
    (&[ClaimAt(19, 65534), Claim(5, None)], [1, 3, 1, 65534]),
    (&[Commit, Free(16), Free(18)], [0, 3, 0, 65534]),
    (&[Abort], [1, 3, 1, 65534]),
    (
        &[
            Free(18),
            Free(16),
            Claim(258, Some(16)),
            Claim(7, Some(18)),
            Commit,
        ],
        [258, 3, 7, 65534],
    ),
];

#[test]
fn pages_are_claimed_and_freed(rt: HostRuntime) -> Result<(), Fail> {
    let mut pages = made(rt.alloc(), &rt)?;
    assert!(rt; are_owned(&mut pages, 0, &[65535; 16]));
    assert!(rt; are_owned(&mut pages, 16, &[0; 4]));
    for (steps, owners) in ROWS {
        for step in steps {
            assert!(rt; take(&mut pages, *step));
        }
        assert!(rt; are_owned(&mut pages, 16, &owners));
    }
    let mut machine = pages.into_journal().into_device();
    assert!(rt; machine.blocks() == BLOCKS);
    let mut table = [1; PAGE_LEN];
    assert!(rt; machine.read_block(FIRST_HOME, &mut table).is_ok());
    assert!(rt; are_numbers(&table, &[1, 2, 0, 3, 0, 7, 0xFF, 0xFE]));
    Ok(())
}

// What was committed and sealed is there when the device is opened again, and nothing else.
#[test]
fn kept_pages_are_adopted(rt: HostRuntime) -> Result<(), Fail> {
    let mut pages = made(rt.alloc(), &rt)?;
    for step in [
        Claim(9, Some(16)),
        Write(16, 0x5A),
        Commit,
        Write(16, 0x77),
        Claim(9, Some(17)),
    ] {
        assert!(rt; take(&mut pages, step));
    }
    let mut journal = pages.into_journal();
    assert!(rt; journal.seal().is_ok());
    let machine = journal.into_device();
    assert!(rt; machine.blocks() == BLOCKS);
    let journal = Journal::recover(rt.alloc(), machine, 8).ok();
    let mut pages = Paged::adopt(journal.expect(&rt, "a journal"));
    assert!(rt; are_owned(&mut pages, 16, &[9, 0, 0, 0]));
    let mut page = [0; PAGE_LEN];
    assert!(rt; pages.pages() == 20);
    assert!(rt; pages.read(16, &mut page).is_ok());
    assert!(rt; page.iter().all(|byte| *byte == 0x5A));
    let first = pages.look(16)?[0];
    assert!(rt; first == 0x5A);
    assert!(rt; take(&mut pages, Claim(1, Some(17))));
    Ok(())
}
