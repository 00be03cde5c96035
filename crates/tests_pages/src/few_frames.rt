// Pages that are held in 8 frames, by the calls of the device that they take.
use crate::journals::{fill_of, machine, recovered, write};
use gx_memory_machine::MemoryMachine;
use std::alloc::Global;
use std::process::Abort;
use std::test::Fail;

const PAGES: [u32; 9] = [0, 1, 2, 3, 4, 5, 6, 7, 8];

/// By how many moments the clock rises while the device is opened and so many first pages are read
/// in ascending order, twice.
fn cost(
    rt: &impl Abort,
    alloc: Global,
    machine: MemoryMachine,
    count: usize,
) -> Result<(u32, MemoryMachine), Fail> {
    let before = machine.moments();
    let mut journal = recovered(alloc, machine)?;
    for _ in 0..2 {
        let fill = fill_of(rt, &mut journal, &PAGES[..count.min(9)]);
        assert!(rt; count == 0 || fill == Some(0));
    }
    let machine = journal.into_device();
    Ok((machine.moments().saturating_sub(before), machine))
}

// The page that was used longest ago leaves its frame first. So nine pages are each read twice, and
// eight once.
#[test]
fn pages_leave_their_frames_in_turn(rt: HostRuntime) -> Result<(), Fail> {
    let machine = machine(&rt, rt.alloc())?;
    let (opening, machine) = cost(&rt, rt.alloc(), machine, 0)?;
    let (nine, machine) = cost(&rt, rt.alloc(), machine, 9)?;
    let (eight, _) = cost(&rt, rt.alloc(), machine, 8)?;
    assert!(rt; nine.saturating_sub(opening) == 18);
    assert!(rt; eight.saturating_sub(opening) == 8);
    Ok(())
}

/// Twenty pages, more than twice as many as there are frames.
const MANY: [u32; 20] = [
    3, 4, 5, 6, 7, 8, 9, 10, 11, 12, 21, 22, 23, 24, 25, 26, 27, 28, 29, 30,
];

#[test]
fn more_pages_than_frames_are_committed(rt: HostRuntime) -> Result<(), Fail> {
    let machine = machine(&rt, rt.alloc())?;
    let mut journal = recovered(rt.alloc(), machine)?;
    write(&rt, &mut journal, &MANY, 0x5A);
    assert!(rt; journal.commit().is_ok());
    let mut journal = recovered(rt.alloc(), journal.into_device())?;
    assert!(rt; fill_of(&rt, &mut journal, &MANY) == Some(0x5A));
    assert!(rt; fill_of(&rt, &mut journal, &[0, 1, 2, 13, 20, 31, 46]) == Some(0));
    Ok(())
}
