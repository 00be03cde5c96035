// Each block of a device in turn is overwritten with zeros.
use crate::devices::{ONE_LEAF, ONE_RECORD, inspected, overwritten, played, tells_damage};
use gx_memory_machine::MemoryMachine;
use gx_play::Status;
use std::alloc::Global;
use std::process::Abort;
use std::test::Fail;

const SOUND: &[u8] = b"leaf 0 f heap entries 1
file f records 1
sound
";

// Ends the test and names the block, unless what it says holds.
fn check_block(rt: &impl Abort, block: u32, holds: bool) {
    assert!(rt; holds, "block {block}");
}

// What `inspect` has to say where this block is zeros. Block 0 has the magic, and block 3 the texts
// behind their lengths, of which the first byte is 0 anyway. Block 54 has the table of owners, and
// block 70 is the root. All other blocks are zeros, or aren't read.
fn is_due(alloc: Global, block: u32, status: Status, said: &[u8]) -> Result<bool, Fail> {
    Ok(match block {
        0 => status == Status::Device && said == b"device: no database\n".as_slice(),
        3 => status == Status::Device && said == b"device: other equation at 1\n".as_slice(),
        54 | 70 => status == Status::Device && tells_damage(alloc, said, 54..101)?,
        _ => status == Status::Done && said == SOUND,
    })
}

fn expect_inspected(
    rt: &impl Abort,
    alloc: Global,
    machine: &MemoryMachine,
    block: u32,
) -> Result<(), Fail> {
    let machine = overwritten(alloc, machine, block, 0, &[0; 4096])?;
    let (status, machine) = inspected(alloc, &machine)?;
    check_block(rt, block, is_due(alloc, block, status, machine.said())?);
    Ok(())
}

#[test]
fn blocks_of_zeros_are_inspected(rt: HostRuntime) -> Result<(), Fail> {
    let machine = played(&rt, rt.alloc(), ONE_LEAF, ONE_RECORD)?;
    for block in 0..101 {
        expect_inspected(&rt, rt.alloc(), &machine, block)?;
    }
    Ok(())
}
