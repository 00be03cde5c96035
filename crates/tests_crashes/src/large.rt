// Devices of the second layout, which begins at 65,544 blocks and ends at 524,303, and what is said
// at the sizes beside it.
use crate::databases::{
    ONE, RECORD, again, ask, block_of, expect, expect_kept, found, opened, with_device,
    without_device,
};
use crate::row::check_row;
use crate::sparse::SparseMachine;
use gx_device::{BLOCK_LEN, Device};
use gx_play::Status;
use std::alloc::Global;
use std::process::Abort;
use std::test::Fail;

// The commands that make a device, and what is said of it.
const MADE: [(&str, &str); 3] = [
    ("make S1 E1 d 65543", "made: 65543 blocks, 32768 pages\n"),
    ("make S1 E1 d 65544", "made: 65544 blocks, 32765 pages\n"),
    ("make S1 E1 d 524303", "made: 524303 blocks, 262144 pages\n"),
];

#[test]
fn devices_have_so_many_pages(rt: HostRuntime) -> Result<(), Fail> {
    for (making, said) in MADE {
        let machine = without_device(rt.alloc())?;
        let machine = expect(&rt, rt.alloc(), machine, making, (said, Status::Done))?;
        check_row(&rt, making, found(&rt, rt.alloc(), machine, &RECORD)? == 0);
    }
    Ok(())
}

#[test]
fn a_larger_device_is_not_made(rt: HostRuntime) -> Result<(), Fail> {
    let alloc = rt.alloc();
    for making in ["make S1 E1 d 524304", "work E2 d 524304 10"] {
        let said = ("device: size\n", Status::Device);
        let machine = expect(&rt, alloc, without_device(alloc)?, making, said)?;
        let said = ("device: missing\n", Status::Device);
        expect(&rt, alloc, machine, "run S1 E1 d", said)?;
    }
    Ok(())
}

// The machine, with another magic in block 0 of its device.
fn with_magic(
    rt: &impl Abort,
    alloc: Global,
    machine: SparseMachine,
    magic: &[u8; 8],
) -> Result<SparseMachine, Fail> {
    let mut machine = opened(rt, alloc, machine)?;
    let mut bytes = block_of(rt, alloc, &mut machine, 0)?;
    assert!(rt; bytes.len() == BLOCK_LEN);
    bytes[..8].copy_from_slice(magic);
    assert!(rt; 0 < machine.blocks());
    assert!(rt; machine.write_block(0, &bytes).is_ok());
    assert!(rt; machine.sync().is_ok());
    again(alloc, &machine)
}

// Devices of the first layout, the largest one among them, and of the second one, the smallest and
// the largest: each with its own magic and the other one.
const MAGICS: [(&str, &[u8; 8], &[u8; 8]); 4] = [
    ("make S1 E1 d 101", b"GENESIS1", b"GENESIS2"),
    ("make S1 E1 d 65543", b"GENESIS1", b"GENESIS2"),
    ("make S1 E1 d 65544", b"GENESIS2", b"GENESIS1"),
    ("make S1 E1 d 524303", b"GENESIS2", b"GENESIS1"),
];

#[test]
fn the_magic_is_that_of_the_size(rt: HostRuntime) -> Result<(), Fail> {
    let alloc = rt.alloc();
    let refused = ("device: no database\n", Status::Device);
    for (making, own, other) in MAGICS {
        let machine = with_device(&rt, alloc, making)?;
        let mut machine = opened(&rt, alloc, machine)?;
        check_row(
            &rt,
            making,
            block_of(&rt, alloc, &mut machine, 0)?.starts_with(own),
        );
        let machine = with_magic(&rt, alloc, machine, other)?;
        let machine = expect(&rt, alloc, machine, "run S1 E1 d", refused)?;
        let machine = expect(&rt, alloc, machine, "inspect S1 E1 d", refused)?;
        let machine = with_magic(&rt, alloc, machine, own)?;
        check_row(&rt, making, found(&rt, alloc, machine, &RECORD)? == 0);
    }
    Ok(())
}

#[test]
fn the_workload_makes_either_layout(rt: HostRuntime) -> Result<(), Fail> {
    let alloc = rt.alloc();
    for (line, magic) in [
        ("work E2 d 65543 1", b"GENESIS1"),
        ("work E2 d 65544 1", b"GENESIS2"),
    ] {
        let (status, ran) = ask(alloc, line, without_device(alloc)?, "")?;
        check_row(&rt, line, status == Status::Done);
        let mut machine = opened(&rt, alloc, again(alloc, &ran.machine)?)?;
        check_row(
            &rt,
            line,
            block_of(&rt, alloc, &mut machine, 0)?.starts_with(magic),
        );
    }
    Ok(())
}

// A page of entries with one entry: the key 7, and the text "ann".
const PAGE_OF_ANN: [u8; 24] = [
    0x44, 0x00, 0x00, 0x01, 0xFF, 0xFF, 0xFF, 0xFF, 0x00, 0x08, 0x00, 0x04, 0x80, 0x00, 0x00, 0x00,
    0x00, 0x00, 0x00, 0x07, 0x03, 0x61, 0x6E, 0x6E,
];

// The lengths of the texts, 25 and 17, and how the first one begins.
const TEXTS: &[u8] = b"\x00\x19\x00\x11file f";

// The bits of the pages up to 135, of which page 128 has the first one of its byte.
const BITS: [u8; 17] = [0, 0, 0, 0, 0, 0, 0, 0, 0, 0, 0, 0, 0, 0, 0, 0, 0x80];

// The commands that make a device, and the blocks of page 128, its first root, and of the slot of
// that page: blocks 14 + P + 128 and 14 + 128 of a device of P pages.
const ROOTS: [(&str, u32, u32); 2] = [
    ("make S1 E1 d 65544", 32_907, 142),
    ("make S1 E1 d 524303", 262_286, 142),
];

#[test]
fn the_first_root_is_page_128(rt: HostRuntime) -> Result<(), Fail> {
    let alloc = rt.alloc();
    for (making, root, slot) in ROOTS {
        let machine = with_device(&rt, alloc, making)?;
        let (status, ran) = ask(alloc, "run S1 E1 d", machine, ONE)?;
        check_row(&rt, making, status == Status::Done);
        let mut machine = opened(&rt, alloc, again(alloc, &ran.machine)?)?;
        for block in [root, slot] {
            let bytes = block_of(&rt, alloc, &mut machine, block)?;
            check_row(&rt, making, bytes.starts_with(&PAGE_OF_ANN));
        }
        // the bitmap begins in block 2, and the texts in block 10
        check_row(
            &rt,
            making,
            block_of(&rt, alloc, &mut machine, 2)?.starts_with(&BITS),
        );
        check_row(
            &rt,
            making,
            block_of(&rt, alloc, &mut machine, 10)?.starts_with(TEXTS),
        );
        check_row(&rt, making, found(&rt, alloc, machine, &RECORD)? == 1);
    }
    Ok(())
}

#[test]
fn a_crash_of_a_large_device_keeps_what_was_said(rt: HostRuntime) -> Result<(), Fail> {
    expect_kept(&rt, rt.alloc(), "make S1 E1 d 65544")
}

#[test]
fn a_crash_of_the_largest_device_keeps_what_was_said(rt: HostRuntime) -> Result<(), Fail> {
    expect_kept(&rt, rt.alloc(), "make S1 E1 d 524303")
}
