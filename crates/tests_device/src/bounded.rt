// A leaf of many pages, of which a look-up reads few.
ghost use Rattle.std.specs.Prelude.{◌≤◌, IsTrue, length};
ghost use Rattle.gx_leaves.specs.Kinds.{are_built};
ghost use Rattle.gx_ports.specs.declared.kinds.TheConstants.{MAX_LEAVES};

use crate::databases::{EQUATION, SCHEMA};
use gx_device::Device;
use gx_journal::Journal;
use gx_leaves::PagedLeaves;
use gx_memory_machine::MemoryMachine;
use gx_pages::Paged;
use gx_ports::{Entries, LeafKind, LeafSpec, Leaves, Pages, root_pages};
use gx_store::{Store, close, make};
use gx_values::{KeyBuf, Kind, Span};
use std::alloc::Global;
use std::process::Abort;
use std::test::Fail;

/// 8,192 blocks have 4,092 pages.
const BLOCKS: u32 = 8192;

/// A text of 200 letters x, after its length.
fn body() -> [u8; 201] {
    let mut body = [b'x'; 201];
    body[0] = 200;
    body
}

fn tree() -> [LeafSpec; 1]
    ensures built { IsTrue (are_built result) }
{
    [LeafSpec {
        kind: LeafKind::Bplus,
        first: Kind::Int,
        key_width: 8,
    }]
}

fn key_of(key: u16) -> [u8; 8] {
    let [high, low] = key.to_be_bytes();
    [0x80, 0, 0, 0, 0, 0, high, low]
}

/// The pages on the attached device.
fn pages_on(
    alloc: Global,
    machine: MemoryMachine,
    frames: u32,
) -> Result<Paged<MemoryMachine>, Fail>
    requires least { 8 ≤ frames }
    requires most { frames ≤ 1024 }
{
    if machine.blocks() < 41 || machine.blocks() > 65543 {
        return Err("the device has another size".into());
    }
    match Journal::recover(alloc, machine, frames) {
        Ok(journal) => Ok(Paged::adopt(journal)),
        Err((_, why)) => Err(why)?,
    }
}

/// The leaves on the attached device, with so many pages in memory.
pub(crate) fn leaves_on(
    alloc: Global,
    machine: MemoryMachine,
    specs: &[LeafSpec],
    frames: u32,
) -> Result<Store<MemoryMachine>, Fail>
    requires few { length specs.now ≤ MAX_LEAVES }
    requires built { IsTrue (are_built specs.now) }
    requires least { 8 ≤ frames }
    requires most { frames ≤ 1024 }
{
    let pages = pages_on(alloc, machine, frames)?;
    let tables = pages.tables();
    if pages.pages() < tables || pages.pages() - tables < root_pages(specs) {
        return Err("there are too few pages".into());
    }
    match PagedLeaves::adopt(alloc, pages, specs) {
        Ok(store) => Ok(store),
        Err((_, why)) => Err(why)?,
    }
}

// Puts the keys 1 to 2,000 into the leaf, and commits.
fn fill(rt: &impl Abort, alloc: Global, store: &mut Store<MemoryMachine>) {
    for key in 1..2001 {
        if store.leaves() > 0 {
            assert!(rt; store.put(alloc, 0, &key_of(key), &body()).is_ok());
        }
    }
    assert!(rt; store.commit().is_ok());
}

fn filled(rt: &impl Abort, alloc: Global) -> Result<MemoryMachine, Fail> {
    let mut machine = MemoryMachine::new(alloc)?;
    machine.reserve(alloc, 100_000, 40_000_000)?;
    let (answer, machine) = make(alloc, machine, "d", BLOCKS, SCHEMA, EQUATION, &tree());
    assert!(rt; answer.is_ok());
    let mut store = leaves_on(alloc, machine, &tree(), 64)?;
    fill(rt, alloc, &mut store);
    Ok(close(store))
}

// How many of the first 4,092 pages belong to the leaf.
fn count_pages(rt: &impl Abort, alloc: Global, machine: MemoryMachine) -> Result<u32, Fail> {
    let mut pages = pages_on(alloc, machine, 64)?;
    let mut count: u32 = 0;
    for page in 0..4092 {
        if page < pages.pages() && pages.owner(page) == Ok(1) {
            count = count.saturating_add(1);
        }
    }
    assert!(rt; pages.pages() == 4092);
    Ok(count)
}

// Looks the key 1,000 up.
fn look_up(rt: &impl Abort, alloc: Global, store: &mut Store<MemoryMachine>) -> Result<(), Fail> {
    let key = Span {
        lo: KeyBuf::from_slice(&key_of(1000)),
        hi: KeyBuf::from_slice(&key_of(1000)),
    };
    let mut found = Entries::new(alloc);
    if store.leaves() > 0 {
        assert!(rt; store.select(alloc, 0, &key, &mut found).is_ok());
    }
    assert!(rt; found.len() == 1);
    Ok(())
}

/// By how many moments the clock rises while the leaf is opened with 8 frames, and a key is looked
/// up in it.
fn cost(
    rt: &impl Abort,
    alloc: Global,
    machine: MemoryMachine,
    looks: bool,
) -> Result<(u32, MemoryMachine), Fail> {
    let before = machine.moments();
    let mut store = leaves_on(alloc, machine, &tree(), 8)?;
    if looks {
        look_up(rt, alloc, &mut store)?;
    }
    let machine = close(store);
    Ok((machine.moments().saturating_sub(before), machine))
}

#[test]
fn a_look_up_reads_few_pages(rt: HostRuntime) -> Result<(), Fail> {
    let machine = filled(&rt, rt.alloc())?;
    let (opening, machine) = cost(&rt, rt.alloc(), machine, false)?;
    let (both, machine) = cost(&rt, rt.alloc(), machine, true)?;
    assert!(rt; both > opening);
    assert!(rt; both.saturating_sub(opening) <= 8);
    assert!(rt; count_pages(&rt, rt.alloc(), machine)? > 100);
    Ok(())
}
