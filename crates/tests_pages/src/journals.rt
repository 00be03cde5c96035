// A device of 101 blocks, and the journal on it with 8 frames.
ghost use Rattle.std.specs.Prelude.{◌≡◌, length};

use gx_device::{Device, Machine};
use gx_journal::Journal;
use gx_memory_machine::MemoryMachine;
use gx_ports::PAGE_LEN;
use std::alloc::Global;
use std::process::Abort;
use std::test::Fail;

const FRAMES: u32 = 8;

/// Three of the 47 pages: the first, the last and one between.
pub(crate) const CHANGED: [u32; 3] = [0, 21, 46];

/// A machine with a closed device of 101 blocks, whose pages are zeros.
pub(crate) fn machine(rt: &impl Abort, alloc: Global) -> Result<MemoryMachine, Fail> {
    let mut machine = MemoryMachine::new(alloc)?;
    machine.reserve(alloc, 1000, 2_000_000)?;
    assert!(rt; machine.attach(alloc, "d", Some(101)) == Ok(()));
    assert!(rt; machine.blocks() == 101);
    match Journal::format(alloc, machine, FRAMES, b"", b"") {
        Ok(mut journal) => {
            assert!(rt; journal.seal().is_ok());
            Ok(journal.into_device())
        }
        Err((_, why)) => Err(why)?,
    }
}

/// The pages on the attached device.
pub(crate) fn recovered(
    alloc: Global,
    machine: MemoryMachine,
) -> Result<Journal<MemoryMachine>, Fail> {
    if machine.blocks() != 101 {
        return Err("the device has another size".into());
    }
    match Journal::recover(alloc, machine, FRAMES) {
        Ok(journal) => Ok(journal),
        Err((_, why)) => Err(why)?,
    }
}

/// Fills these pages with a byte.
pub(crate) fn write(
    rt: &impl Abort,
    journal: &mut Journal<MemoryMachine>,
    pages: &[u32],
    fill: u8,
) {
    for page in pages {
        assert!(rt; *page < journal.pages());
        assert!(rt; journal.write_page(*page, &[fill; PAGE_LEN]).is_ok());
    }
}

/// The byte with which a page is filled.
fn fill_of_page(rt: &impl Abort, journal: &mut Journal<MemoryMachine>, page: u32) -> Option<u8> {
    let mut bytes = [0; PAGE_LEN];
    assert!(rt; page < journal.pages());
    assert!(rt; journal.read_page(page, &mut bytes).is_ok());
    let fill = bytes[0];
    if bytes.iter().all(|byte| *byte == fill) {
        Some(fill)
    } else {
        None
    }
}

/// The byte with which all these pages are filled, if it is one.
pub(crate) fn fill_of(
    rt: &impl Abort,
    journal: &mut Journal<MemoryMachine>,
    pages: &[u32],
) -> Option<u8> {
    let mut fill = None;
    for (place, page) in pages.iter().enumerate() {
        let next = fill_of_page(rt, journal, *page);
        if place > 0 && next != fill {
            return None;
        }
        fill = next;
    }
    fill
}
