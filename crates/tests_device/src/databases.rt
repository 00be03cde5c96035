// Databases of one heap under a key of one int.
ghost use Rattle.std.specs.Prelude.{◌≤◌, IsTrue};
ghost use Rattle.gx_leaves.specs.Kinds.{are_built};

use crate::bounded::leaves_on;
use gx_device::Device;
use gx_memory_machine::MemoryMachine;
use gx_ports::{Entries, LeafKind, LeafSpec, Leaves, Stop};
use gx_store::{Store, Unopened, make, open};
use gx_values::{KeyBuf, Kind, Span};
use std::alloc::Global;
use std::test::Fail;

pub(crate) const SCHEMA: &[u8] = b"file f (k int, t text 5)\n";

pub(crate) const EQUATION: &[u8] = b"f = actual(heap)\n";

fn heap() -> [LeafSpec; 1]
    ensures built { IsTrue (are_built result) }
{
    [LeafSpec {
        kind: LeafKind::Heap,
        first: Kind::Int,
        key_width: 8,
    }]
}

/// A machine without a device, with room for its calls.
pub(crate) fn machine(alloc: Global) -> Result<MemoryMachine, Fail> {
    let mut machine = MemoryMachine::new(alloc)?;
    machine.reserve(alloc, 1000, 1_000_000)?;
    Ok(machine)
}

/// Makes an empty database on a new device.
pub(crate) fn make_on(
    alloc: Global,
    machine: MemoryMachine,
    blocks: u32,
    (schema, equation): (&[u8], &[u8]),
) -> (Result<(), Unopened>, MemoryMachine) {
    let schema = &schema[..schema.len().min(8190)];
    let equation = &equation[..equation.len().min(8190)];
    make(alloc, machine, "d", blocks, schema, equation, &heap())
}

/// Opens the database on the device.
pub(crate) fn open_on(
    alloc: Global,
    machine: MemoryMachine,
    (schema, equation): (&[u8], &[u8]),
) -> Result<Store<MemoryMachine>, (MemoryMachine, Unopened)> {
    let schema = &schema[..schema.len().min(8190)];
    let equation = &equation[..equation.len().min(8190)];
    open(alloc, machine, "d", schema, equation, &heap())
}

/// The database on the device that is attached, with so many pages in memory.
pub(crate) fn adopted(
    alloc: Global,
    machine: MemoryMachine,
    frames: u32,
) -> Result<Store<MemoryMachine>, Fail>
    requires least { 8 ≤ frames }
    requires most { frames ≤ 1024 }
{
    leaves_on(alloc, machine, &heap(), frames)
}

/// Sets the pair at a key below 128, and commits.
pub(crate) fn put(
    alloc: Global,
    store: &mut Store<MemoryMachine>,
    key: u8,
    body: &[u8],
) -> Result<(), Stop> {
    if store.leaves() == 0 {
        return Err(Stop::Damaged(0));
    }
    let key = [0x80, 0, 0, 0, 0, 0, 0, key];
    store.put(alloc, 0, &key, &body[..body.len().min(400)])?;
    store.commit()?;
    Ok(())
}

/// How many entries there are.
pub(crate) fn count(alloc: Global, store: &mut Store<MemoryMachine>) -> Result<usize, Stop> {
    if store.leaves() == 0 {
        return Err(Stop::Damaged(0));
    }
    let all = Span {
        lo: KeyBuf::from_slice(b""),
        hi: KeyBuf::from_slice(b""),
    };
    let mut found = Entries::new(alloc);
    store.select(alloc, 0, &all, &mut found)?;
    Ok(found.len())
}

fn block_of(machine: &mut MemoryMachine, n: u32) -> Result<[u8; 4096], Fail> {
    let mut bytes = [0; 4096];
    if n < machine.blocks() {
        machine.read_block(n, &mut bytes)?;
    }
    Ok(bytes)
}

/// All blocks of the device.
pub(crate) fn blocks_of(
    alloc: Global,
    machine: &mut MemoryMachine,
) -> Result<Vec<[u8; 4096]>, Fail> {
    let mut blocks = Vec::new(alloc);
    for n in 0..machine.blocks() {
        blocks.push(block_of(machine, n)?)?;
    }
    Ok(blocks)
}
