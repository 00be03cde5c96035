// The machine in memory: what its calls give, and which of them fail.
use gx_device::{Device, Failed, FetchStop, Machine};
use gx_memory_machine::MemoryMachine;
use std::alloc::Global;
use std::process::Abort;
use std::test::Fail;

fn machine(alloc: Global, calls: u32, bytes: u32) -> Result<MemoryMachine, Fail> {
    let mut machine = MemoryMachine::new(alloc)?;
    machine.add_text(alloc, "S", b"old")?;
    machine.add_text(alloc, "E", b"12345")?;
    machine.add_text(alloc, "S", b"new one")?;
    machine.set_script(alloc, b"abcde")?;
    machine.reserve(alloc, calls, bytes)?;
    Ok(machine)
}

#[test]
fn a_script_is_heard_in_pieces(rt: HostRuntime) -> Result<(), Fail> {
    let mut machine = machine(rt.alloc(), 4, 0)?;
    let mut into = [0; 2];
    for (count, front) in [(2, b"ab"), (2, b"cd"), (1, b"ed"), (0, b"ed")] {
        assert!(rt; machine.hear(&mut into) == Ok(count));
        assert!(rt; into.as_slice() == front.as_slice());
    }
    assert!(rt; machine.hear(&mut into) == Err(Failed));
    Ok(())
}

// A machine with room for so many calls and bytes, of which this call fails.
fn failing_machine(
    alloc: Global,
    (calls, bytes): (u32, u32),
    failing: u32,
) -> Result<MemoryMachine, Fail> {
    let mut machine = machine(alloc, calls, 2)?;
    machine.reserve(alloc, 0, bytes)?;
    machine.fail_at(alloc, failing)?;
    Ok(machine)
}

// Says three pieces, each of which is taken whole or not at all.
fn say_pieces(rt: &impl Abort, machine: &mut MemoryMachine) {
    for piece in ["one", "three", "two"] {
        let answer = machine.say(piece.as_bytes());
        assert!(rt; answer == Ok(piece.len()) || answer == Err(Failed));
    }
}

// Each row: the calls and the bytes with room, the call that fails, and what is said.
#[test]
fn calls_fail_by_number_and_by_room(rt: HostRuntime) -> Result<(), Fail> {
    for (room, failing, said) in [
        ((4, 11), 9, "onethreetwo"),
        ((4, 11), 1, "onetwo"),
        ((2, 11), 9, "onethree"),
        ((0, 11), 9, ""),
        ((4, 10), 9, "onethree"),
        ((4, 6), 2, "onetwo"),
        ((4, 6), 1, "one"),
    ] {
        let mut machine = failing_machine(rt.alloc(), room, failing)?;
        say_pieces(&rt, &mut machine);
        assert!(rt; machine.said() == said.as_bytes());
    }
    Ok(())
}

// Expects a text of this name, of at most so many bytes.
fn expect_text(
    rt: &impl Abort,
    alloc: Global,
    machine: &mut MemoryMachine,
    (name, limit): (&str, u32),
    bytes: &[u8],
) {
    let text = machine.fetch(alloc, name, limit).expect(rt, "a text");
    assert!(rt; text.as_slice() == bytes);
}

#[test]
fn texts_are_fetched(rt: HostRuntime) -> Result<(), Fail> {
    let alloc = rt.alloc();
    let mut machine = machine(alloc, 0, 0)?;
    machine.fail_at(alloc, 3)?;
    expect_text(&rt, alloc, &mut machine, ("S", 7), b"new one");
    for (name, limit, stop) in [
        ("E", 4, FetchStop::TooLong),
        ("D", 4, FetchStop::Missing),
        ("E", 5, FetchStop::Fault),
    ] {
        assert!(rt; machine.fetch(alloc, name, limit).err() == Some(stop));
    }
    expect_text(&rt, alloc, &mut machine, ("E", 5), b"12345");
    Ok(())
}
