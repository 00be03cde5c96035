// Devices that aren't opened, and of which no block is written then.
use crate::databases::{blocks_of, machine, make_on, open_on};
use gx_device::Machine;
use gx_memory_machine::MemoryMachine;
use gx_store::{Unopened, close};
use std::alloc::Global;
use std::process::Abort;
use std::test::Fail;

const SCHEMA: &[u8] = b"file f (k int)\n";

const HEAP: &[u8] = b"f = heap\n";

/// Whether all bytes from this place on are zeros.
pub(crate) fn is_filled(bytes: &[u8], from: usize) -> bool {
    bytes.iter().skip(from).all(|byte| *byte == 0)
}

/// What is there before it is opened.
#[derive(Clone, Copy)]
enum Before {
    /// A database of `SCHEMA` and `HEAP`.
    Database,
    /// A device of so many blocks of zeros.
    Zeros(u32),
    /// No device.
    Nothing,
}

// A database that is refused: what is there, the texts that it is opened under, and why.
#[derive(Clone, Copy)]
struct Case {
    before: Before,
    schema: &'static [u8],
    equation: &'static [u8],
    why: Unopened,
}

const CASES: [Case; 5] = [
    // The kept texts have 15 and 9 bytes, the others 15 and 10: the last byte of the lengths is the
    // first one that differs.
    Case {
        before: Before::Database,
        schema: SCHEMA,
        equation: b"f = bplus\n",
        why: Unopened::OtherTexts(3),
    },
    Case {
        before: Before::Database,
        schema: b"file f (k int, t text 5)\n",
        equation: HEAP,
        why: Unopened::OtherTexts(1),
    },
    Case {
        before: Before::Zeros(101),
        schema: SCHEMA,
        equation: HEAP,
        why: Unopened::NoDatabase,
    },
    Case {
        before: Before::Zeros(40),
        schema: SCHEMA,
        equation: HEAP,
        why: Unopened::Size,
    },
    Case {
        before: Before::Nothing,
        schema: SCHEMA,
        equation: HEAP,
        why: Unopened::Missing,
    },
];

// Makes a database, and expects this answer.
fn make_again(
    rt: &impl Abort,
    alloc: Global,
    machine: MemoryMachine,
    want: Result<(), Unopened>,
) -> MemoryMachine {
    let (answer, machine) = make_on(alloc, machine, 101, (SCHEMA, HEAP));
    assert!(rt; answer == want);
    machine
}

fn machine_of(rt: &impl Abort, alloc: Global, before: Before) -> Result<MemoryMachine, Fail> {
    let mut new = machine(alloc)?;
    match before {
        Before::Database => Ok(make_again(rt, alloc, new, Ok(()))),
        Before::Zeros(blocks) => {
            assert!(rt; new.attach(alloc, "d", Some(blocks)).is_ok());
            Ok(new)
        }
        Before::Nothing => Ok(new),
    }
}

// Opens the device under the texts, which is refused for this reason.
fn expect_unopened(
    rt: &impl Abort,
    alloc: Global,
    machine: MemoryMachine,
    case: Case,
) -> MemoryMachine {
    match open_on(alloc, machine, (case.schema, case.equation)) {
        Ok(store) => {
            assert!(rt; false, "the device was opened");
            close(store)
        }
        Err((machine, why)) => {
            assert!(rt; why == case.why);
            machine
        }
    }
}

// Expects that the device has these blocks.
fn expect_blocks(
    rt: &impl Abort,
    alloc: Global,
    machine: &mut MemoryMachine,
    blocks: &[[u8; 4096]],
) -> Result<(), Fail> {
    let found = blocks_of(alloc, machine)?;
    assert!(rt; found.as_slice() == blocks);
    Ok(())
}

// Expects the refusal, and that nothing is written.
fn expect_refusal(
    rt: &impl Abort,
    alloc: Global,
    machine: MemoryMachine,
    case: Case,
) -> Result<(), Fail> {
    let mut machine = machine;
    let blocks = blocks_of(alloc, &mut machine)?;
    let mut machine = expect_unopened(rt, alloc, machine, case);
    expect_blocks(rt, alloc, &mut machine, blocks.as_slice())
}

#[test]
fn databases_are_refused(rt: HostRuntime) -> Result<(), Fail> {
    for case in CASES {
        let machine = machine_of(&rt, rt.alloc(), case.before)?;
        expect_refusal(&rt, rt.alloc(), machine, case)?;
    }
    Ok(())
}

#[test]
fn a_name_with_a_device_is_not_made(rt: HostRuntime) -> Result<(), Fail> {
    let mut machine = machine_of(&rt, rt.alloc(), Before::Database)?;
    let blocks = blocks_of(rt.alloc(), &mut machine)?;
    let mut machine = make_again(&rt, rt.alloc(), machine, Err(Unopened::Exists));
    expect_blocks(&rt, rt.alloc(), &mut machine, blocks.as_slice())
}
