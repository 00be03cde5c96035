// Each call of the device is refused once: what is opened then is the database before or after.
use crate::databases::{EQUATION, SCHEMA, count, machine, make_on, open_on, put};
use gx_device::Device;
use gx_memory_machine::MemoryMachine;
use gx_ports::Stop;
use gx_store::{Store, Unopened, close};
use std::alloc::Global;
use std::process::Abort;
use std::test::Fail;

const TEXTS: (&[u8], &[u8]) = (SCHEMA, EQUATION);

/// How far it came.
#[derive(Clone, Copy, Debug, PartialEq, Eq)]
enum Reached {
    /// No database was made.
    Nothing,
    /// There is an empty one, to which an entry was perhaps added.
    Made,
    /// The entry was committed.
    Committed,
}

// Adds an entry.
fn put_entry(rt: &impl Abort, alloc: Global, store: &mut Store<MemoryMachine>) -> Reached {
    match put(alloc, store, 7, b"ann") {
        Ok(()) => Reached::Committed,
        Err(stop) => {
            assert!(rt; stop == Stop::Fault);
            Reached::Made
        }
    }
}

// Opens the database, and adds an entry.
fn add(rt: &impl Abort, alloc: Global, machine: MemoryMachine) -> (Reached, MemoryMachine) {
    match open_on(alloc, machine, TEXTS) {
        Ok(mut store) => (put_entry(rt, alloc, &mut store), close(store)),
        Err((machine, why)) => {
            assert!(rt; why == Unopened::Fault);
            (Reached::Made, machine)
        }
    }
}

// A machine of which this call fails.
fn failing_machine(alloc: Global, call: u32) -> Result<MemoryMachine, Fail> {
    let mut machine = machine(alloc)?;
    machine.fail_at(alloc, call)?;
    Ok(machine)
}

// Makes a database and adds an entry.
fn make_and_add(
    rt: &impl Abort,
    alloc: Global,
    machine: MemoryMachine,
) -> (Reached, MemoryMachine) {
    let (answer, machine) = make_on(alloc, machine, 101, TEXTS);
    match answer {
        Ok(()) => add(rt, alloc, machine),
        Err(why) => {
            assert!(rt; why == Unopened::Fault);
            (Reached::Nothing, machine)
        }
    }
}

// How many entries there are, where they are found.
fn entries(alloc: Global, store: &mut Store<MemoryMachine>) -> Result<usize, Unopened> {
    match count(alloc, store) {
        Ok(count) => Ok(count),
        Err(_) => Err(Unopened::Fault),
    }
}

// How many entries `open` finds, where it finds a database. What is pending is synced before, since
// the device is attached again.
fn look(alloc: Global, mut machine: MemoryMachine) -> (Result<usize, Unopened>, MemoryMachine) {
    if machine.sync().is_err() {
        return (Err(Unopened::Fault), machine);
    }
    match open_on(alloc, machine, TEXTS) {
        Ok(mut store) => (entries(alloc, &mut store), close(store)),
        Err((machine, why)) => (Err(why), machine),
    }
}

/// The same. Where the call that fails is one of this `open`, the device is opened again.
fn found(alloc: Global, machine: MemoryMachine) -> Result<usize, Unopened> {
    match look(alloc, machine) {
        (Err(Unopened::Fault), machine) => look(alloc, machine).0,
        (found, _) => found,
    }
}

/// Whether that may be found.
fn may_find(reached: Reached, found: Result<usize, Unopened>) -> bool {
    match reached {
        Reached::Nothing => {
            matches!(
                found,
                Ok(0) | Err(Unopened::Missing) | Err(Unopened::NoDatabase)
            )
        }
        Reached::Made => matches!(found, Ok(0) | Ok(1)),
        Reached::Committed => found == Ok(1),
    }
}

// Expects that the database before or after is opened, where this call fails.
fn expect_one_of_both(rt: &impl Abort, alloc: Global, failing: u32) -> Result<Reached, Fail> {
    let (reached, machine) = make_and_add(rt, alloc, failing_machine(alloc, failing)?);
    assert!(rt; may_find(reached, found(alloc, machine)));
    Ok(reached)
}

// The first call makes the device, and the eightieth comes after the last.
#[test]
fn each_call_is_refused_once(rt: HostRuntime) -> Result<(), Fail> {
    for failing in 0..80 {
        let reached = expect_one_of_both(&rt, rt.alloc(), failing)?;
        assert!(rt; failing > 0 || reached == Reached::Nothing);
        assert!(rt; failing < 79 || reached == Reached::Committed);
    }
    Ok(())
}
