// Devices of the second layout, with the places of their blocks worked out by hand.
use crate::crashes::CHOICES;
use crate::sparse::SparseDevice;
use gx_device::Device;
use gx_journal::Journal;
use gx_memory_machine::Choice;
use gx_pages::Paged;
use gx_ports::{PAGE_LEN, Pages};
use std::alloc::Global;
use std::process::Abort;
use std::test::Fail;

const FRAMES: u32 = 8;

/// The smallest device of the layout has 32,765 pages, and the home of page 0 in block 14 + 32,765.
const SMALLEST: u32 = 65_544;

/// The largest one has 262,144 pages, one for each bit of its bitmap.
const LARGEST: u32 = 524_303;

/// The first and the last page, and those on each side of the end of the first block of bits.
const ENDS: [u32; 4] = [0, 32_767, 32_768, 262_143];

/// The blocks of the bitmap in which a bit is set then, a byte of each, and its value.
const BITS: [(u32, usize, u8); 4] = [(2, 0, 0x80), (2, 4095, 1), (3, 0, 0x80), (9, 4095, 1)];

/// A device of 32,769 pages. The bits of three of them are the first and the last one of block 2,
/// and the first one of block 3.
const BEYOND: u32 = 65_552;

const BESIDE: [u32; 3] = [0, 32_767, 32_768];

/// The journal on a new device of so many blocks.
fn journal(alloc: Global, blocks: u32) -> Result<Journal<SparseDevice>, Fail> {
    let device = SparseDevice::new(alloc, blocks);
    if device.blocks() < SMALLEST || device.blocks() > LARGEST {
        return Err("the device has another layout".into());
    }
    match Journal::format(alloc, device, FRAMES, b"", b"") {
        Ok(journal) => Ok(journal),
        Err((_, why)) => Err(why)?,
    }
}

/// The same device, opened again.
fn opened(alloc: Global, device: SparseDevice) -> Result<Journal<SparseDevice>, Fail> {
    if device.blocks() < SMALLEST || device.blocks() > LARGEST {
        return Err("the device has another layout".into());
    }
    match Journal::recover(alloc, device, FRAMES) {
        Ok(journal) => Ok(journal),
        Err((_, why)) => Err(why)?,
    }
}

/// Fills a page with a byte.
fn fill(rt: &impl Abort, journal: &mut Journal<SparseDevice>, page: u32, byte: u8) {
    assert!(rt; page < journal.pages());
    assert!(rt; journal.write_page(page, &[byte; PAGE_LEN]).is_ok());
}

/// Whether a page is filled with a byte.
fn is_filled(rt: &impl Abort, journal: &mut Journal<SparseDevice>, page: u32, byte: u8) -> bool {
    let mut bytes = [0; PAGE_LEN];
    assert!(rt; page < journal.pages());
    assert!(rt; journal.read_page(page, &mut bytes).is_ok());
    bytes.iter().all(|it| *it == byte)
}

/// Whether the bitmap has exactly the bits of the pages at the ends.
fn has_bits_of_ends(device: &SparseDevice) -> bool {
    let mut all = true;
    for block in 2..10 {
        let mut bytes = [0; PAGE_LEN];
        for (at, byte, value) in BITS {
            if at == block {
                bytes[byte] = value;
            }
        }
        all = all && device.bytes_of(block) == bytes;
    }
    all
}

/// Writes a block of the device, filled with a byte.
fn spoil(rt: &impl Abort, device: &mut SparseDevice, block: u32, byte: u8) {
    assert!(rt; block < device.blocks());
    assert!(rt; device.write_block(block, &[byte; PAGE_LEN]).is_ok());
}

#[test]
fn a_commit_writes_each_block_of_the_bitmap(rt: HostRuntime) -> Result<(), Fail> {
    let mut journal = journal(rt.alloc(), LARGEST)?;
    assert!(rt; journal.layout() == 2 && journal.pages() == 262_144);
    for page in ENDS {
        fill(&rt, &mut journal, page, 7);
    }
    assert!(rt; journal.commit().is_ok());
    assert!(rt; journal.seal().is_ok());
    let mut device = journal.into_device();
    assert!(rt; has_bits_of_ends(&device));
    assert!(rt; device.bytes_of(14) == [7; PAGE_LEN]);
    assert!(rt; device.bytes_of(14 + 262_144 + 262_143) == [7; PAGE_LEN]);
    // as a crash behind the commit point may leave it
    for page in ENDS {
        spoil(&rt, &mut device, 14 + 262_144 + page, 0);
    }
    spoil(&rt, &mut device, 1, 0xA5);
    let mut journal = opened(rt.alloc(), device)?;
    for page in ENDS {
        assert!(rt; is_filled(&rt, &mut journal, page, 7));
    }
    assert!(rt; is_filled(&rt, &mut journal, 1, 0));
    let device = journal.into_device();
    assert!(rt; device.bytes_of(1) == [0; PAGE_LEN]);
    Ok(())
}

#[test]
fn the_smallest_large_device_is_recovered(rt: HostRuntime) -> Result<(), Fail> {
    let mut journal = journal(rt.alloc(), SMALLEST)?;
    assert!(rt; journal.layout() == 2 && journal.pages() == 32_765);
    fill(&rt, &mut journal, 32_764, 9);
    assert!(rt; journal.commit().is_ok());
    assert!(rt; journal.seal().is_ok());
    let mut device = journal.into_device();
    assert!(rt; device.bytes_of(0).starts_with(b"GENESIS2"));
    assert!(rt; device.bytes_of(14 + 32_765 + 32_764) == [9; PAGE_LEN]);
    spoil(&rt, &mut device, 1, 0xA5);
    spoil(&rt, &mut device, 14 + 32_764, 8);
    let mut journal = opened(rt.alloc(), device)?;
    assert!(rt; is_filled(&rt, &mut journal, 32_764, 8));
    Ok(())
}

#[test]
fn a_large_table_has_128_pages(rt: HostRuntime) -> Result<(), Fail> {
    let journal = journal(rt.alloc(), SMALLEST)?;
    let mut pages = Paged::make(journal).ok().expect(&rt, "pages");
    assert!(rt; pages.tables() == 128 && pages.pages() == 32_765);
    assert!(rt; pages.owner(127) == Ok(65_535));
    assert!(rt; pages.owner(128) == Ok(0));
    assert!(rt; pages.claim(1) == Ok(128));
    assert!(rt; pages.owner(128) == Ok(1));
    Ok(())
}

/// A device on which the pages beside the end of a block of bits were filled with 1 and committed,
/// and then with 2. The moments are the one before the commits, and those behind each.
fn committed_twice(rt: &impl Abort, alloc: Global) -> Result<([usize; 3], SparseDevice), Fail> {
    let mut journal = journal(alloc, BEYOND)?;
    assert!(rt; journal.seal().is_ok());
    let mut device = journal.into_device();
    let mut moments = [device.moments(); 3];
    for number in 1..3 {
        let mut journal = opened(alloc, device)?;
        for page in BESIDE {
            fill(rt, &mut journal, page, number);
        }
        assert!(rt; journal.commit().is_ok());
        device = journal.into_device();
        moments[number as usize] = device.moments();
    }
    Ok((moments, device))
}

/// Whether all three are filled with a byte.
fn are_filled(rt: &impl Abort, journal: &mut Journal<SparseDevice>, byte: u8) -> bool {
    let mut all = true;
    for page in BESIDE {
        all = all && is_filled(rt, journal, page, byte);
    }
    all
}

/// Expects that a crash at each moment keeps the commits that had ended, and the next one whole or
/// not at all.
fn expect_kept(rt: &impl Abort, alloc: Global, choice: Choice) -> Result<(), Fail> {
    let ([begin, first, second], device) = committed_twice(rt, alloc)?;
    for moment in begin..=second {
        let mut journal = opened(alloc, device.crash(alloc, moment, choice)?)?;
        let kept = u8::from(first <= moment) + u8::from(second <= moment);
        let is_kept = are_filled(rt, &mut journal, kept);
        let is_next = kept < 2 && are_filled(rt, &mut journal, kept + 1);
        assert!(rt; is_kept || is_next, "{moment}");
    }
    Ok(())
}

#[test]
fn a_crash_keeps_the_commits_of_a_large_device(rt: HostRuntime) -> Result<(), Fail> {
    for choice in CHOICES {
        expect_kept(&rt, rt.alloc(), choice)?;
    }
    Ok(())
}
