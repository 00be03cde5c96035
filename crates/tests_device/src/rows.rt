// Two plays on a device whose pages are held in few frames and in many.
ghost use Rattle.std.specs.Prelude.{◌≤◌, IfOk};
ghost use Rattle.gx_requests.specs.Checked.{IsStored};

use crate::bounded::leaves_on;
use crate::databases::{EQUATION, SCHEMA, blocks_of};
use crate::layouts::{PAGE_OF_ANN, begins};
use gx_device::Device;
use gx_memory_machine::MemoryMachine;
use gx_play::play_over;
use gx_ports::Leaves;
use gx_requests::{Stored, prepare_stored};
use gx_store::{Store, close, make};
use std::alloc::Global;
use std::process::Abort;
use std::test::Fail;

/// A database, how many blocks its device has, and a script with what is said of it.
#[derive(Clone, Copy)]
struct Row<'a> {
    schema: &'a [u8],
    equation: &'a [u8],
    blocks: u32,
    script: &'a [u8],
    said: &'a [u8],
}

/// A machine without a device, with the texts and the script.
fn machine(alloc: Global, row: Row<'_>) -> Result<MemoryMachine, Fail> {
    let mut machine = MemoryMachine::new(alloc)?;
    machine.add_text(alloc, "S", row.schema)?;
    machine.add_text(alloc, "E", row.equation)?;
    machine.set_script(alloc, row.script)?;
    machine.reserve(alloc, 100_000, 40_000_000)?;
    Ok(machine)
}

/// What the texts give for a device.
fn stored(alloc: Global, machine: &mut MemoryMachine) -> Result<Stored, Fail>
    ensures { IfOk result IsStored }
{
    match prepare_stored(alloc, "S", "E", machine) {
        Ok(stored) => Ok(stored),
        Err(_) => Err("the texts are refused".into()),
    }
}

/// The machine with a new device, on which the database is empty.
fn made(
    alloc: Global,
    machine: MemoryMachine,
    blocks: u32,
    stored: &Stored,
) -> Result<MemoryMachine, Fail>
    requires { IsStored stored.now }
{
    let (answer, machine) = make(
        alloc,
        machine,
        "d",
        blocks,
        stored.schema_text.as_slice(),
        stored.equation_text.as_slice(),
        &stored.built.specs.0,
    );
    answer?;
    Ok(machine)
}

/// The leaves of the database on the attached device, with so many pages in memory.
fn adopted(
    alloc: Global,
    machine: MemoryMachine,
    stored: &Stored,
    frames: u32,
) -> Result<Store<MemoryMachine>, Fail>
    requires stored { IsStored stored.now }
    requires least { 8 ≤ frames }
    requires most { frames ≤ 1024 }
{
    leaves_on(alloc, machine, &stored.built.specs.0, frames)
}

/// Plays the script on the leaves.
fn played(alloc: Global, stored: Stored, store: Store<MemoryMachine>) -> Result<MemoryMachine, Fail>
    requires { IsStored stored }
{
    let Stored { schema, built, .. } = stored;
    if store.leaves() as usize != built.specs.0.len() {
        return Err("the device has other leaves".into());
    }
    let (ended, store) = play_over(alloc, schema, built, store);
    match ended {
        Ok(()) => Ok(close(store)),
        Err(_) => Err("the script isn't played to its end".into()),
    }
}

// Expects what a play on a new device says, with so many pages in memory.
fn expect_row(
    rt: &impl Abort,
    alloc: Global,
    row: Row<'_>,
    frames: u32,
) -> Result<MemoryMachine, Fail>
    requires least { 8 ≤ frames }
    requires most { frames ≤ 1024 }
{
    let mut machine = machine(alloc, row)?;
    let stored = stored(alloc, &mut machine)?;
    let machine = made(alloc, machine, row.blocks, &stored)?;
    let store = adopted(alloc, machine, &stored, frames)?;
    let machine = played(alloc, stored, store)?;
    assert!(rt; machine.said() == row.said);
    Ok(machine)
}

const ONE_RECORD: Row<'static> = Row {
    schema: SCHEMA,
    equation: EQUATION,
    blocks: 101,
    script: b"begin
insert f 7 \"ann\"
get f 7
get f 8
commit
",
    said: b"begun
ok
f 7 \"ann\"
none
committed 1
",
};

// The root page is page 16, whose block is 70.
fn expect_one_record(rt: &impl Abort, alloc: Global, frames: u32) -> Result<(), Fail>
    requires least { 8 ≤ frames }
    requires most { frames ≤ 1024 }
{
    let mut machine = expect_row(rt, alloc, ONE_RECORD, frames)?;
    let blocks = blocks_of(alloc, &mut machine)?;
    assert!(rt; begins(blocks.as_slice(), 70, &PAGE_OF_ANN));
    Ok(())
}

#[test]
fn a_record_is_played_by_eight_frames_and_by_more(rt: HostRuntime) -> Result<(), Fail> {
    expect_one_record(&rt, rt.alloc(), 8)?;
    expect_one_record(&rt, rt.alloc(), 64)
}

const LINKED: &[u8] = b"file dept (dno int, dname text 12)
file emp (eno int, name text 24, pay int, room text 8)
link works (dept, emp)
";

const LINKED_EQUATION: &[u8] = b"dept = actual(bplus)
emp = index(pay, segment(name pay, actual(bplus), actual(heap)), bplus)
works = ring(actual(hash(8)), actual(bplus))
";

/// The end of the script, after which two finds are answered.
const END: &[u8] = b"commit
find emp where pay = 1037 order eno
find emp where pay >= 1091 of works 3 order pay desc
";

const END_SAID: &[u8] = b"committed 1
emp 1 \"emp 1\" 1037 \"r7\"
emp 101 \"emp 101\" 1037 \"r7\"
found 2
emp 43 \"emp 43\" 1091 \"r7\"
emp 143 \"emp 143\" 1091 \"r7\"
found 2
";

/// The line that inserts this member.
fn member(alloc: Global, number: u8) -> Result<String, Fail> {
    let pay = 1000 + 37 * u32::from(number) % 100;
    let room = if number % 2 == 0 { "" } else { "r7" };
    Ok(format!(in alloc; "insert emp {number} \"emp {number}\" {pay} \"{room}\"\n")?)
}

/// The line that connects this member with its owner.
fn connection(alloc: Global, number: u8) -> Result<String, Fail> {
    let owner = number % 10;
    Ok(format!(in alloc; "connect works {owner} {number}\n")?)
}

/// Ten owners and two hundred members.
fn script(alloc: Global) -> Result<Vec<u8>, Fail> {
    let mut script = b"begin\n".to_vec(alloc)?;
    for owner in 0..10 {
        let line = format!(in alloc; "insert dept {owner} \"dept {owner}\"\n")?;
        script.extend_from_slice(line.as_bytes())?;
    }
    for number in 1..201 {
        script.extend_from_slice(member(alloc, number)?.as_bytes())?;
    }
    for number in 1..201 {
        script.extend_from_slice(connection(alloc, number)?.as_bytes())?;
    }
    script.extend_from_slice(END)?;
    Ok(script)
}

fn said(alloc: Global) -> Result<Vec<u8>, Fail> {
    let mut said = b"begun\n".to_vec(alloc)?;
    for _ in 0..410 {
        said.extend_from_slice(b"ok\n")?;
    }
    said.extend_from_slice(END_SAID)?;
    Ok(said)
}

fn expect_members(rt: &impl Abort, alloc: Global, frames: u32) -> Result<(), Fail>
    requires least { 8 ≤ frames }
    requires most { frames ≤ 1024 }
{
    let script = script(alloc)?;
    let said = said(alloc)?;
    let row = Row {
        schema: LINKED,
        equation: LINKED_EQUATION,
        blocks: 6007,
        script: &script,
        said: &said,
    };
    let machine = expect_row(rt, alloc, row, frames)?;
    assert!(rt; machine.blocks() == 6007);
    Ok(())
}

#[test]
fn members_are_played_by_eight_frames(rt: HostRuntime) -> Result<(), Fail> {
    expect_members(&rt, rt.alloc(), 8)
}

#[test]
fn members_are_played_by_more_frames(rt: HostRuntime) -> Result<(), Fail> {
    expect_members(&rt, rt.alloc(), 64)
}
