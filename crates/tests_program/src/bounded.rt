// A database of many pages, of which a request reads few.
use crate::requests::ask;
use gx_memory_machine::MemoryMachine;
use gx_play::Status;
use std::alloc::Global;
use std::process::Abort;
use std::test::Fail;

const SCHEMA: &[u8] = b"file f (k int, t text 200)\n";

const EQUATION: &[u8] = b"f = actual(bplus)\n";

fn machine(alloc: Global) -> Result<MemoryMachine, Fail> {
    let mut machine = MemoryMachine::new(alloc)?;
    machine.add_text(alloc, "S", SCHEMA)?;
    machine.add_text(alloc, "E", EQUATION)?;
    machine.reserve(alloc, 100_000, 40_000_000)?;
    Ok(machine)
}

// A record of this key, with 200 letters x, behind its first word.
fn line(alloc: Global, word: &str, key: u32) -> Result<Vec<u8>, Fail> {
    let mut line = format!(in alloc; "{word}f {key} \"")?.into_bytes();
    line.extend_from_slice(&vec![in alloc; b'x'; 200]?)?;
    line.extend_from_slice(b"\"\n")?;
    Ok(line)
}

// One transaction that inserts the keys 1 to 2,000.
fn script(alloc: Global) -> Result<Vec<u8>, Fail> {
    let mut script = b"begin\n".to_vec(alloc)?;
    for key in 1..2001 {
        script.extend_from_slice(&line(alloc, "insert ", key)?)?;
    }
    script.extend_from_slice(b"commit\n")?;
    Ok(script)
}

// Expects that a request on the machine ends with Done, with this said last.
pub(crate) fn expect_done(
    rt: &impl Abort,
    alloc: Global,
    machine: MemoryMachine,
    (words, script): (&str, &[u8]),
    said: &[u8],
) -> Result<MemoryMachine, Fail> {
    let mut machine = machine;
    machine.set_script(alloc, script)?;
    let (status, machine) = ask(alloc, words, machine)?;
    assert!(rt; status == Status::Done);
    assert!(rt; machine.said().ends_with(said));
    Ok(machine)
}

#[test]
fn a_record_is_found_in_few_calls(rt: HostRuntime) -> Result<(), Fail> {
    let alloc = rt.alloc();
    let made = b"made: 16407 blocks, 8200 pages\n";
    let machine = expect_done(&rt, alloc, machine(alloc)?, ("make S E d 16407", b""), made)?;
    let inserts = script(alloc)?;
    let run = ("run S E d", inserts.as_slice());
    let machine = expect_done(&rt, alloc, machine, run, b"ok\nok\ncommitted 1\n")?;
    let before = machine.moments();
    let record = line(alloc, "", 1000)?;
    let run: (&str, &[u8]) = ("run S E d", b"get f 1000\n");
    let machine = expect_done(&rt, alloc, machine, run, &record)?;
    assert!(rt; machine.moments().saturating_sub(before) <= 40);
    Ok(())
}
