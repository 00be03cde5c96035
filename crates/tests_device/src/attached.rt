// Two devices, attached in turn.
use gx_device::{AttachStop, Device, Machine};
use gx_memory_machine::MemoryMachine;
use std::alloc::Global;
use std::process::Abort;
use std::test::Fail;

fn first_byte(rt: &impl Abort, machine: &mut MemoryMachine) -> u8 {
    let mut block = [0; 4096];
    if machine.blocks() > 0 {
        assert!(rt; machine.read_block(0, &mut block).is_ok());
    }
    block[0]
}

fn write(rt: &impl Abort, machine: &mut MemoryMachine, byte: u8) {
    if machine.blocks() > 0 {
        assert!(rt; machine.write_block(0, &[byte; 4096]).is_ok());
    }
}

// Expects that the device is there, with so many blocks of which the first begins so.
fn expect_device(
    rt: &impl Abort,
    alloc: Global,
    machine: &mut MemoryMachine,
    name: &str,
    (blocks, byte): (u32, u8),
) {
    assert!(rt; machine.attach(alloc, name, None) == Ok(()));
    assert!(rt; machine.blocks() == blocks);
    assert!(rt; first_byte(rt, machine) == byte);
}

#[test]
fn devices_are_attached_in_turn(rt: HostRuntime) -> Result<(), Fail> {
    let alloc = rt.alloc();
    let mut machine = MemoryMachine::new(alloc)?;
    machine.reserve(alloc, 100, 100_000)?;
    assert!(rt; machine.attach(alloc, "d", Some(3)) == Ok(()));
    write(&rt, &mut machine, 7);
    // a block is pending
    assert!(rt; machine.attach(alloc, "e", Some(5)) == Err(AttachStop::NoMemory));
    assert!(rt; machine.sync().is_ok());
    assert!(rt; machine.attach(alloc, "d", Some(5)) == Err(AttachStop::Exists));
    assert!(rt; machine.attach(alloc, "e", None) == Err(AttachStop::Missing));
    assert!(rt; machine.attach(alloc, "e", Some(5)) == Ok(()));
    assert!(rt; first_byte(&rt, &mut machine) == 0);
    write(&rt, &mut machine, 9);
    assert!(rt; machine.sync().is_ok());
    expect_device(&rt, alloc, &mut machine, "e", (5, 9));
    expect_device(&rt, alloc, &mut machine, "d", (3, 7));
    write(&rt, &mut machine, 8);
    assert!(rt; machine.sync().is_ok());
    assert!(rt; machine.attach(alloc, "e", Some(4)) == Err(AttachStop::Exists));
    expect_device(&rt, alloc, &mut machine, "e", (5, 9));
    expect_device(&rt, alloc, &mut machine, "d", (3, 8));
    Ok(())
}
