// Databases on a device, of which a block may be overwritten.
use gx_device::{Device, Machine};
use gx_memory_machine::{Choice, MemoryMachine};
use gx_play::Status;
use gx_top::top;
use std::alloc::Global;
use std::ops::Range;
use std::process::Abort;
use std::test::Fail;

/// The texts of a database, and the request that makes its device.
#[derive(Clone, Copy)]
pub(crate) struct Database {
    pub(crate) schema: &'static str,
    pub(crate) equation: &'static str,
    pub(crate) making: &'static str,
}

/// A file of one leaf on 101 blocks, which have 47 pages: page p is block 54 + p.
pub(crate) const ONE_LEAF: Database = Database {
    schema: "file f (k int, t text 5)\n",
    equation: "f = actual(heap)\n",
    making: "make S E d 101",
};

/// A script that leaves one record there.
pub(crate) const ONE_RECORD: &[u8] = b"begin
insert f 7 \"ann\"
get f 7
get f 8
commit
";

fn words(alloc: Global, line: &str) -> Result<Vec<String>, Fail> {
    let mut words = Vec::new(alloc);
    for word in line.split(' ') {
        words.push(String::from_str(alloc, word)?)?;
    }
    Ok(words)
}

// What a request answers on a machine, beside what it says.
fn ask(alloc: Global, line: &str, machine: MemoryMachine) -> Result<(Status, MemoryMachine), Fail> {
    Ok(top(alloc, &words(alloc, line)?, machine))
}

// The machine with the same texts and devices, on which nothing is said yet. A request on it that
// has more than 1,000 calls ends with `Outside`.
fn again(alloc: Global, machine: &MemoryMachine) -> Result<MemoryMachine, Fail> {
    let mut machine = machine.crash(alloc, machine.moments(), Choice::New)?;
    machine.reserve(alloc, 1000, 1_000_000)?;
    Ok(machine)
}

/// What `run` answers on the machine as it was left, beside what it says.
pub(crate) fn ran(
    alloc: Global,
    machine: &MemoryMachine,
    script: &[u8],
) -> Result<(Status, MemoryMachine), Fail> {
    let mut machine = again(alloc, machine)?;
    machine.set_script(alloc, script)?;
    ask(alloc, "run S E d", machine)
}

/// What `inspect` answers there.
pub(crate) fn inspected(
    alloc: Global,
    machine: &MemoryMachine,
) -> Result<(Status, MemoryMachine), Fail> {
    ask(alloc, "inspect S E d", again(alloc, machine)?)
}

// A machine with the texts of a database, and without a device.
fn without_device(alloc: Global, database: Database) -> Result<MemoryMachine, Fail> {
    let mut machine = MemoryMachine::new(alloc)?;
    machine.add_text(alloc, "S", database.schema.as_bytes())?;
    machine.add_text(alloc, "E", database.equation.as_bytes())?;
    machine.reserve(alloc, 100_000, 40_000_000)?;
    Ok(machine)
}

// Expects that a request on the machine is carried out.
fn expect_done(
    rt: &impl Abort,
    alloc: Global,
    line: &str,
    machine: MemoryMachine,
) -> Result<MemoryMachine, Fail> {
    let (status, machine) = ask(alloc, line, machine)?;
    assert!(rt; status == Status::Done);
    Ok(machine)
}

/// A machine with a device on which the script was played.
pub(crate) fn played(
    rt: &impl Abort,
    alloc: Global,
    database: Database,
    script: &[u8],
) -> Result<MemoryMachine, Fail> {
    let machine = without_device(alloc, database)?;
    let machine = expect_done(rt, alloc, database.making, machine)?;
    let mut machine = again(alloc, &machine)?;
    machine.set_script(alloc, script)?;
    machine.reserve(alloc, 100_000, 40_000_000)?;
    expect_done(rt, alloc, "run S E d", machine)
}

/// The machine as it was left, with its device attached.
pub(crate) fn attached(alloc: Global, machine: &MemoryMachine) -> Result<MemoryMachine, Fail> {
    let mut machine = again(alloc, machine)?;
    match machine.attach(alloc, "d", None) {
        Ok(()) => Ok(machine),
        Err(_) => Err("the device isn't attached".into()),
    }
}

/// Writes other bytes into a block of the attached device, from this place of it on.
pub(crate) fn write_at(
    machine: &mut MemoryMachine,
    block: u32,
    from: usize,
    bytes: &[u8],
) -> Result<(), Fail> {
    if block >= machine.blocks() {
        return Err("the device has no such block".into());
    }
    let mut page = [0; 4096];
    machine.read_block(block, &mut page)?;
    for (place, byte) in page.iter_mut().skip(from).zip(bytes.iter()) {
        *place = *byte;
    }
    if block < machine.blocks() {
        machine.write_block(block, &page)?;
    }
    Ok(())
}

/// The machine as it was left, with other bytes in a block of its device.
pub(crate) fn overwritten(
    alloc: Global,
    machine: &MemoryMachine,
    block: u32,
    from: usize,
    bytes: &[u8],
) -> Result<MemoryMachine, Fail> {
    let mut machine = attached(alloc, machine)?;
    write_at(&mut machine, block, from, bytes)?;
    machine.sync()?;
    Ok(machine)
}

/// Whether this is the line of damage in one of these blocks.
pub(crate) fn tells_damage_in(
    alloc: Global,
    said: &[u8],
    blocks: Range<u32>,
) -> Result<bool, Fail> {
    for block in blocks {
        let line = format!(in alloc; "device: damaged {block}\n")?;
        if said == line.as_bytes() {
            return Ok(true);
        }
    }
    Ok(false)
}

/// Whether damage is told in a block that was read: one before the slots, or the home of a page.
pub(crate) fn tells_damage(alloc: Global, said: &[u8], homes: Range<u32>) -> Result<bool, Fail> {
    Ok(tells_damage_in(alloc, said, 0..7)? || tells_damage_in(alloc, said, homes)?)
}

/// Whether `inspect` finds the device sound, and says this.
pub(crate) fn is_sound(alloc: Global, machine: &MemoryMachine, said: &[u8]) -> Result<bool, Fail> {
    let (status, machine) = inspected(alloc, machine)?;
    Ok(status == Status::Done && machine.said() == said)
}

/// Whether `inspect` ends with damage in a block that was read.
pub(crate) fn is_damaged(
    alloc: Global,
    machine: &MemoryMachine,
    homes: Range<u32>,
) -> Result<bool, Fail> {
    let (status, machine) = inspected(alloc, machine)?;
    Ok(status == Status::Device && tells_damage(alloc, machine.said(), homes)?)
}

/// How a script that reads the file ends.
pub(crate) fn read_file(alloc: Global, machine: &MemoryMachine) -> Result<Status, Fail> {
    let (status, _) = ran(alloc, machine, b"find f\n")?;
    Ok(status)
}

/// Whether such a script is played, or ends with damage.
pub(crate) fn returns(alloc: Global, machine: &MemoryMachine) -> Result<bool, Fail> {
    let status = read_file(alloc, machine)?;
    Ok(status == Status::Done || status == Status::Device)
}
