// Requests on a device of 101 blocks, crashed at each of their moments, or with each of their calls
// failed.
use crate::databases::{
    CHOICES, LISTS, ONE, RECORD, again, ask, block_of, expect_kept, found, opened, played,
    with_device, without_device,
};
use crate::row::check_moment;
use crate::sparse::SparseMachine;
use gx_memory_machine::Choice;
use gx_play::Status;
use std::alloc::Global;
use std::process::Abort;
use std::test::Fail;

const MAKING: &str = "make S1 E1 d 101";

#[test]
fn a_crash_keeps_what_was_said(rt: HostRuntime) -> Result<(), Fail> {
    expect_kept(&rt, rt.alloc(), MAKING)
}

// Whether the gate of the device is open.
fn is_open(rt: &impl Abort, alloc: Global, machine: SparseMachine) -> Result<bool, Fail> {
    let mut machine = opened(rt, alloc, machine)?;
    Ok(block_of(rt, alloc, &mut machine, 1)?.starts_with(&[165]))
}

// The first moment from which a crash leaves the gate open for the second time.
fn second_opening(rt: &impl Abort, alloc: Global, machine: &SparseMachine) -> Result<u32, Fail> {
    let mut openings = 0usize;
    let mut was_open = false;
    for moment in 0..=machine.moments() {
        let open = is_open(rt, alloc, machine.crash(alloc, moment, Choice::Old)?)?;
        if open && !was_open {
            openings = openings.saturating_add(1);
        }
        if openings == 2 {
            return Ok(moment);
        }
        was_open = open;
    }
    Err("the gate isn't opened twice".into())
}

// Expects that a crash at the second gate is recovered from, also where that is crashed.
fn expect_recovered(rt: &impl Abort, alloc: Global, choice: Choice) -> Result<(), Fail> {
    let machine = played(rt, alloc, MAKING)?.machine;
    let moment = second_opening(rt, alloc, &machine)?;
    let crashed = machine.crash(alloc, moment, choice)?;
    let (status, recovered) = ask(alloc, "run S1 E1 d", crashed, "find f\n")?;
    let machine = recovered.machine;
    assert!(rt; status == Status::Done);
    assert!(rt; machine.said() == LISTS[2].as_bytes());
    for choice in CHOICES {
        for moment in 0..=machine.moments() {
            let crashed = machine.crash(alloc, moment, choice)?;
            check_moment(rt, moment, found(rt, alloc, crashed, &LISTS)? == 2);
        }
    }
    Ok(())
}

#[test]
fn a_recovery_is_crashed(rt: HostRuntime) -> Result<(), Fail> {
    for choice in CHOICES {
        expect_recovered(&rt, rt.alloc(), choice)?;
    }
    Ok(())
}

// Expects what a crash leaves where this call has failed.
fn expect_failed(
    rt: &impl Abort,
    alloc: Global,
    machine: SparseMachine,
    call: u32,
) -> Result<(), Fail> {
    let mut machine = machine;
    machine.fail_at(alloc, call)?;
    let (status, failed) = ask(alloc, "run S1 E1 d", machine, ONE)?;
    check_moment(rt, call, status == Status::Outside);
    for choice in CHOICES {
        for moment in call..=failed.machine.moments() {
            let crashed = failed.machine.crash(alloc, moment, choice)?;
            let found = found(rt, alloc, crashed, &RECORD)?;
            check_moment(rt, call, found >= failed.kept_before(moment));
        }
    }
    Ok(())
}

#[test]
fn each_call_of_a_run_fails(rt: HostRuntime) -> Result<(), Fail> {
    let alloc = rt.alloc();
    let device = with_device(&rt, alloc, MAKING)?;
    let (status, whole) = ask(alloc, "run S1 E1 d", again(alloc, &device)?, ONE)?;
    assert!(rt; status == Status::Done);
    for call in 0..whole.machine.moments() {
        expect_failed(&rt, alloc, again(alloc, &device)?, call)?;
    }
    Ok(())
}

// What a `run` of nothing may say where a device is made, and how it ends.
const UNMADE: [(&str, Status); 3] = [
    ("", Status::Done),
    ("device: missing\n", Status::Device),
    ("device: no database\n", Status::Device),
];

#[test]
fn a_device_is_made_or_not(rt: HostRuntime) -> Result<(), Fail> {
    let alloc = rt.alloc();
    let (status, made) = ask(alloc, MAKING, without_device(alloc)?, "")?;
    assert!(rt; status == Status::Done);
    assert!(rt; made.kept_before(made.machine.moments()) == 1);
    for choice in CHOICES {
        for moment in 0..=made.machine.moments() {
            let crashed = made.machine.crash(alloc, moment, choice)?;
            let (status, ran) = ask(alloc, "run S1 E1 d", crashed, "")?;
            let is_made = made.kept_before(moment) == 1;
            let allowed = if is_made { &UNMADE[..1] } else { &UNMADE[..] };
            let mut holds = false;
            for (said, wanted) in allowed {
                holds = holds || (ran.machine.said() == said.as_bytes() && status == *wanted);
            }
            check_moment(&rt, moment, holds);
        }
    }
    Ok(())
}
