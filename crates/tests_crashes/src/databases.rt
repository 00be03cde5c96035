// Databases on a device, of one schema and one equation.
use crate::noting::Noting;
use crate::row::{check_moment, check_row};
use crate::sparse::SparseMachine;
use gx_device::{BLOCK_LEN, Device, Machine};
use gx_memory_machine::{Choice, MemoryMachine};
use gx_play::Status;
use gx_top::top;
use std::alloc::Global;
use std::process::Abort;
use std::test::Fail;

/// What a crash leaves in each block that is pending.
pub(crate) const CHOICES: [Choice; 4] = [
    Choice::Old,
    Choice::New,
    Choice::Fill(165),
    Choice::Split(1),
];

const SCHEMA: &[u8] = b"file f (k int, t text 5)\n";

const EQUATION: &[u8] = b"f = actual(heap)\n";

// An equation of the schema of the workload.
const WORKING: &[u8] =
    b"dept = actual(heap) emp = actual(heap) works = inverted(heap, actual(heap))\n";

/// One transaction.
pub(crate) const ONE: &str = r#"begin
insert f 7 "ann"
get f 7
get f 8
commit
"#;

/// What there is before it, and after it.
pub(crate) const RECORD: [&str; 2] = ["found 0\n", "f 7 \"ann\"\nfound 1\n"];

/// Two transactions.
pub(crate) const TWO: &str = r#"begin
insert f 1 "a"
commit
begin
insert f 2 "b"
commit
"#;

/// What there is after none of them, after the first, and after both.
pub(crate) const LISTS: [&str; 3] = [
    "found 0\n",
    "f 1 \"a\"\nfound 1\n",
    "f 1 \"a\"\nf 2 \"b\"\nfound 2\n",
];

fn words(alloc: Global, line: &str) -> Result<Vec<String>, Fail> {
    let mut words = Vec::new(alloc);
    for word in line.split(' ') {
        words.push(String::from_str(alloc, word)?)?;
    }
    Ok(words)
}

/// What a request with a script answers on a machine, beside what it says and when.
pub(crate) fn ask(
    alloc: Global,
    line: &str,
    machine: SparseMachine,
    script: &str,
) -> Result<(Status, Noting), Fail> {
    let mut machine = machine;
    machine.set_script(alloc, script.as_bytes())?;
    Ok(top(alloc, &words(alloc, line)?, Noting::new(machine)))
}

/// A machine with the texts, and without a device.
pub(crate) fn without_device(alloc: Global) -> Result<SparseMachine, Fail> {
    let mut machine = MemoryMachine::new(alloc)?;
    machine.add_text(alloc, "S1", SCHEMA)?;
    machine.add_text(alloc, "E1", EQUATION)?;
    machine.add_text(alloc, "E2", WORKING)?;
    Ok(SparseMachine::new(alloc, machine))
}

/// A machine with the same texts and device, on which nothing is said yet.
pub(crate) fn again(alloc: Global, machine: &SparseMachine) -> Result<SparseMachine, Fail> {
    machine.crash(alloc, machine.moments(), Choice::New)
}

/// Expects that a request says this and ends with this status, and answers the machine behind it.
pub(crate) fn expect(
    rt: &impl Abort,
    alloc: Global,
    machine: SparseMachine,
    line: &str,
    (said, wanted): (&str, Status),
) -> Result<SparseMachine, Fail> {
    let (status, after) = ask(alloc, line, machine, "")?;
    check_row(rt, line, after.machine.said() == said.as_bytes());
    check_row(rt, line, status == wanted);
    again(alloc, &after.machine)
}

/// A machine with the device that this request makes.
pub(crate) fn with_device(
    rt: &impl Abort,
    alloc: Global,
    making: &str,
) -> Result<SparseMachine, Fail> {
    let (status, made) = ask(alloc, making, without_device(alloc)?, "")?;
    check_row(rt, making, status == Status::Done);
    again(alloc, &made.machine)
}

/// The two transactions, played on the device that this request makes.
pub(crate) fn played(rt: &impl Abort, alloc: Global, making: &str) -> Result<Noting, Fail> {
    let machine = with_device(rt, alloc, making)?;
    let (status, played) = ask(alloc, "run S1 E1 d", machine, TWO)?;
    assert!(rt; status == Status::Done);
    assert!(rt; played.kept_before(played.machine.moments()) == 2);
    Ok(played)
}

/// The device of the machine, opened by hand.
pub(crate) fn opened(
    rt: &impl Abort,
    alloc: Global,
    machine: SparseMachine,
) -> Result<SparseMachine, Fail> {
    let mut machine = machine;
    machine.set_script(alloc, b"")?;
    assert!(rt; machine.attach(alloc, "d", None) == Ok(()));
    Ok(machine)
}

/// The bytes of a block of the device that is opened.
pub(crate) fn block_of(
    rt: &impl Abort,
    alloc: Global,
    machine: &mut SparseMachine,
    block: u32,
) -> Result<Vec<u8>, Fail> {
    let mut bytes = vec![in alloc; 0; BLOCK_LEN]?;
    assert!(rt; block < machine.blocks());
    assert!(rt; machine.read_block(block, &mut bytes).is_ok());
    Ok(bytes)
}

/// Which of these lists a new `run` finds.
pub(crate) fn found(
    rt: &impl Abort,
    alloc: Global,
    machine: SparseMachine,
    lists: &[&str],
) -> Result<usize, Fail> {
    let (status, ran) = ask(alloc, "run S1 E1 d", machine, "find f\n")?;
    assert!(rt; status == Status::Done);
    for place in 0..lists.len() {
        if ran.machine.said() == lists[place].as_bytes() {
            return Ok(place);
        }
    }
    Err("it finds other records".into())
}

// Expects that a crash at a moment keeps what was said to be committed, and of what is more the
// next transaction at most.
fn expect_kept_at(
    rt: &impl Abort,
    alloc: Global,
    played: &Noting,
    moment: u32,
    choice: Choice,
) -> Result<(), Fail> {
    let crashed = played.machine.crash(alloc, moment, choice)?;
    let found = found(rt, alloc, crashed, &LISTS)?;
    let kept = played.kept_before(moment);
    check_moment(rt, moment, found == kept || found == kept.saturating_add(1));
    Ok(())
}

/// Expects that a crash at each moment of a `run`, on the device that this request makes, keeps
/// what was said to be committed.
pub(crate) fn expect_kept(rt: &impl Abort, alloc: Global, making: &str) -> Result<(), Fail> {
    let played = played(rt, alloc, making)?;
    for choice in CHOICES {
        for moment in 0..=played.machine.moments() {
            expect_kept_at(rt, alloc, &played, moment, choice)?;
        }
    }
    Ok(())
}
