// A commit of three pages, with a crash at each of its moments.
ghost use Rattle.std.specs.Prelude.{◌≤◌, length};

use crate::journals::{CHANGED, fill_of, machine, recovered, write};
use gx_device::Machine;
use gx_memory_machine::{Choice, MemoryMachine};
use std::alloc::Global;
use std::process::Abort;
use std::test::Fail;

pub(crate) const CHOICES: [Choice; 4] = [
    Choice::Old,
    Choice::New,
    Choice::Fill(165),
    Choice::Split(1),
];

/// What the pages are filled with before the commit, and after it.
const BEFORE: u8 = 0x11;

const AFTER: u8 = 0x22;

/// A machine whose three pages were committed twice, and the moment at which the device was opened
/// for the second commit.
fn committed_twice(rt: &impl Abort, alloc: Global) -> Result<(u32, MemoryMachine), Fail> {
    let mut journal = recovered(alloc, machine(rt, alloc)?)?;
    write(rt, &mut journal, &CHANGED, BEFORE);
    assert!(rt; journal.commit().is_ok());
    let machine = journal.into_device();
    let begin = machine.moments();
    let mut journal = recovered(alloc, machine)?;
    write(rt, &mut journal, &CHANGED, AFTER);
    assert!(rt; journal.commit().is_ok());
    Ok((begin, journal.into_device()))
}

/// What the pages are filled with after a crash at that moment.
fn fill_after(
    rt: &impl Abort,
    alloc: Global,
    machine: &MemoryMachine,
    moment: u32,
    choice: Choice,
) -> Result<Option<u8>, Fail>
    requires { moment ≤ length machine.now.past }
{
    let mut crashed = machine.crash(alloc, moment, choice)?;
    crashed.reserve(alloc, 200, 200_000)?;
    assert!(rt; crashed.attach(alloc, "d", None) == Ok(()));
    let mut journal = recovered(alloc, crashed)?;
    Ok(fill_of(rt, &mut journal, &CHANGED))
}

#[test]
fn a_crash_leaves_the_pages_before_or_after(rt: HostRuntime) -> Result<(), Fail> {
    let (begin, machine) = committed_twice(&rt, rt.alloc())?;
    let end = machine.moments();
    for choice in CHOICES {
        let mut last = Some(BEFORE);
        for moment in begin..=end {
            let fill = fill_after(&rt, rt.alloc(), &machine, moment, choice)?;
            assert!(rt; fill == Some(BEFORE) || fill == Some(AFTER));
            last = fill;
        }
        assert!(rt; last == Some(AFTER));
    }
    Ok(())
}
