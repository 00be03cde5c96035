// The blocks of a device, worked out by hand from the layout.
ghost use Rattle.std.specs.Prelude.{◌≤◌};

use crate::databases::{EQUATION, SCHEMA, adopted, blocks_of, count, machine, make_on, put};
use crate::refusals::is_filled;
use gx_device::Device;
use gx_memory_machine::MemoryMachine;
use gx_ports::{LeafKind, LeafSpec, Stop};
use gx_store::{Store, Unopened, close, smallest_device};
use gx_values::Kind;
use std::alloc::Global;
use std::process::Abort;
use std::test::Fail;

/// 101 blocks have 47 pages: page p is block 54 + p, and its slot is block 7 + p.
const BLOCKS: u32 = 101;

/// The lengths of the texts, 25 and 17, and the texts.
const TEXTS: &[u8] = b"\x00\x19\x00\x11file f (k int, t text 5)\nf = actual(heap)\n";

/// An entry page with no entry and no next page.
const EMPTY_PAGE: [u8; 8] = [0x44, 0, 0, 0, 0xFF, 0xFF, 0xFF, 0xFF];

/// An entry page with one entry: the key 7, and the text "ann".
pub(crate) const PAGE_OF_ANN: [u8; 24] = [
    0x44, 0x00, 0x00, 0x01, 0xFF, 0xFF, 0xFF, 0xFF, 0x00, 0x08, 0x00, 0x04, 0x80, 0x00, 0x00, 0x00,
    0x00, 0x00, 0x00, 0x07, 0x03, 0x61, 0x6E, 0x6E,
];

fn made(rt: &impl Abort, alloc: Global) -> Result<MemoryMachine, Fail> {
    let (answer, machine) = make_on(alloc, machine(alloc)?, BLOCKS, (SCHEMA, EQUATION));
    assert!(rt; answer.is_ok());
    assert!(rt; machine.blocks() == BLOCKS);
    Ok(machine)
}

/// Whether a block begins so.
pub(crate) fn begins(blocks: &[[u8; 4096]], n: usize, front: &[u8]) -> bool {
    match blocks.get(n) {
        Some(block) => block.starts_with(front),
        None => false,
    }
}

/// Whether a block begins so, and goes on with zeros.
fn is(blocks: &[[u8; 4096]], n: usize, front: &[u8]) -> bool {
    match blocks.get(n) {
        Some(block) => block.starts_with(front) && is_filled(block, front.len()),
        None => false,
    }
}

// Expects the blocks of an empty database.
fn expect_empty(rt: &impl Abort, blocks: &[[u8; 4096]]) {
    assert!(rt; begins(blocks, 0, b"GENESIS1"));
    assert!(rt; !begins(blocks, 1, &[0xA5]));
    assert!(rt; is(blocks, 3, TEXTS));
    for text_block in 4..7 {
        assert!(rt; is(blocks, text_block, b""));
    }
    // The 16 pages of the table, the root page, and 30 free pages.
    let mut owners = [0; 94];
    owners[..32].fill(0xFF);
    owners[33] = 1;
    assert!(rt; begins(blocks, 54, &owners));
    assert!(rt; begins(blocks, 70, &EMPTY_PAGE));
}

#[test]
fn a_new_device_has_its_layout(rt: HostRuntime) -> Result<(), Fail> {
    let mut machine = made(&rt, rt.alloc())?;
    let blocks = blocks_of(rt.alloc(), &mut machine)?;
    expect_empty(&rt, blocks.as_slice());
    Ok(())
}

/// Whether all blocks but these are the same.
fn are_same_but(changed: [usize; 3], before: &[[u8; 4096]], after: &[[u8; 4096]]) -> bool {
    let mut same = true;
    for n in 0..BLOCKS as usize {
        same = same && (changed.contains(&n) || before.get(n) == after.get(n));
    }
    same
}

// Expects that page 16, its slot and the bitmap changed, and no other block.
fn expect_change(rt: &impl Abort, before: &[[u8; 4096]], after: &[[u8; 4096]]) {
    assert!(rt; after.len() == BLOCKS as usize);
    assert!(rt; begins(after, 70, &PAGE_OF_ANN));
    assert!(rt; begins(after, 23, &PAGE_OF_ANN));
    assert!(rt; is(after, 2, &[0, 0, 0x80]));
    assert!(rt; !begins(after, 1, &[0xA5]));
    assert!(rt; are_same_but([2, 23, 70], before, after));
}

// The device after an entry is committed.
fn with_entry(
    rt: &impl Abort,
    alloc: Global,
    machine: MemoryMachine,
    frames: u32,
) -> Result<MemoryMachine, Fail>
    requires least { 8 ≤ frames }
    requires most { frames ≤ 1024 }
{
    let mut store = adopted(alloc, machine, frames)?;
    assert!(rt; put(alloc, &mut store, 7, &[0x03, 0x61, 0x6E, 0x6E]).is_ok());
    assert!(rt; count(alloc, &mut store) == Ok(1));
    Ok(close(store))
}

// Expects so many entries on the device.
fn expect_entries(
    rt: &impl Abort,
    alloc: Global,
    machine: MemoryMachine,
    frames: u32,
    entries: usize,
) -> Result<(), Fail>
    requires least { 8 ≤ frames }
    requires most { frames ≤ 1024 }
{
    let mut store = adopted(alloc, machine, frames)?;
    assert!(rt; count(alloc, &mut store) == Ok(entries));
    Ok(())
}

// The device after an entry is committed, of which no other block changed.
fn with_entry_alone(
    rt: &impl Abort,
    alloc: Global,
    machine: MemoryMachine,
    frames: u32,
) -> Result<MemoryMachine, Fail>
    requires least { 8 ≤ frames }
    requires most { frames ≤ 1024 }
{
    let mut machine = machine;
    let before = blocks_of(alloc, &mut machine)?;
    let mut machine = with_entry(rt, alloc, machine, frames)?;
    let after = blocks_of(alloc, &mut machine)?;
    expect_change(rt, before.as_slice(), after.as_slice());
    Ok(machine)
}

fn an_entry_is_committed(rt: &impl Abort, alloc: Global, frames: u32) -> Result<(), Fail>
    requires least { 8 ≤ frames }
    requires most { frames ≤ 1024 }
{
    let machine = with_entry_alone(rt, alloc, made(rt, alloc)?, frames)?;
    expect_entries(rt, alloc, machine, frames, 1)
}

#[test]
fn an_entry_is_committed_by_eight_frames_and_by_more(rt: HostRuntime) -> Result<(), Fail> {
    an_entry_is_committed(&rt, rt.alloc(), 8)?;
    an_entry_is_committed(&rt, rt.alloc(), 64)
}

/// The texts of a database whose entries have 213 bytes.
const LONG: (&[u8], &[u8]) = (b"file f (k int, t text 200)\n", EQUATION);

// Puts 19 entries, and one for which there is no room.
fn fill(alloc: Global, store: &mut Store<MemoryMachine>) -> bool {
    let mut body = [b'x'; 201];
    body[0] = 200;
    let mut all = true;
    for key in 1..20 {
        all = put(alloc, store, key, &body).is_ok() && all;
    }
    all && put(alloc, store, 20, &body) == Err(Stop::Full)
}

// The smallest device has 17 pages, and its root page has room for 19 such entries.
fn the_smallest_device_fills(rt: &impl Abort, alloc: Global, frames: u32) -> Result<(), Fail>
    requires least { 8 ≤ frames }
    requires most { frames ≤ 1024 }
{
    let (answer, machine) = make_on(alloc, machine(alloc)?, 41, LONG);
    assert!(rt; answer.is_ok());
    let mut store = adopted(alloc, machine, frames)?;
    assert!(rt; fill(alloc, &mut store));
    expect_entries(rt, alloc, close(store), frames, 19)
}

#[test]
fn the_smallest_device_fills_by_eight_frames_and_by_more(rt: HostRuntime) -> Result<(), Fail> {
    the_smallest_device_fills(&rt, rt.alloc(), 8)?;
    the_smallest_device_fills(&rt, rt.alloc(), 64)
}

const HEAP: LeafSpec = LeafSpec {
    kind: LeafKind::Heap,
    first: Kind::Int,
    key_width: 8,
};

const HASHED: LeafSpec = LeafSpec {
    kind: LeafKind::Hash(64),
    first: Kind::Int,
    key_width: 8,
};

// The 7 blocks before the pages, and two for each of the 16 pages of the table and of 65 root
// pages.
#[test]
fn the_smallest_device_counts_root_pages(rt: HostRuntime) -> Result<(), Fail> {
    assert!(rt; smallest_device(&[HEAP, HASHED]) == 169);
    Ok(())
}

// Whether no device of so many blocks is made.
fn is_unmade(alloc: Global, machine: MemoryMachine, blocks: u32) -> bool {
    let (answer, machine) = make_on(alloc, machine, blocks, LONG);
    answer == Err(Unopened::Size) && machine.blocks() == 0
}

#[test]
fn a_device_of_another_size_is_not_made(rt: HostRuntime) -> Result<(), Fail> {
    for blocks in [0, 7, 40, 524304, 4_294_967_295] {
        assert!(rt;
            is_unmade(rt.alloc(), machine(rt.alloc())?, blocks),
            "{blocks} blocks"
        );
    }
    Ok(())
}
