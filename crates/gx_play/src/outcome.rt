// What is said where a play ends, or where a text was found.
ghost use Rattle.std.specs.Prelude.{◌≡◌, ◌≢◌, ◌≤◌, ◌⊎◌, Ok, false, IsTrue, IsErrOf};
ghost use Rattle.gx_device.specs.Faults.{Rose};
ghost use Rattle.gx_play.specs.Say.{OnlySays, SameDevices, SaysThrough};
ghost use Rattle.gx_play.specs.Endings.{IsFinished, IsTold, CountsOutside, FinishesThrough, TellsThrough, is_fault};

use crate::ending::{Ending, end};
use crate::say::say_all;
use crate::status::Status;
use gx_device::{Failed, Machine};
use gx_values::Octets;
use std::alloc::Global;

/// Says the line of the end of a play, where it has one, and answers the status. After a failed
/// call nothing is said.
#[tactic(auto, using(crate::proofs::SayLemmas::no_moments))]
pub fn finish<M: Machine>(alloc: Global, played: Result<(), Ending<'_>>, machine: &mut M) -> Status
    ensures finished { IsTrue M.tells →
        IsFinished played.entry (M.content machine.old) (M.content machine.new) result }
    ensures outside { result ≡ Status.Outside →
        IsErrOf played.entry Ending.Fault ⊎ Rose (M.faults machine.old) (M.faults machine.new) }
    ensures no_fault { result ≢ Status.Outside → is_fault played.entry ≡ false }
    ensures rest { OnlySays (M.content machine.old) (M.content machine.new) }
    ensures counted { result ≢ Status.Outside → M.faults machine.new ≡ M.faults machine.old }
    ensures devices { SameDevices (M.content machine.old) (M.content machine.new) }
    ensures moments { IsTrue M.tells →
        FinishesThrough played.entry (M.content machine.old) (M.content machine.new) }
    ensures later { M.faults machine.old ≤ M.faults machine.new }
{
    match played {
        Ok(()) => Status::Done,
        Err(ending) => end(alloc, ending, machine),
    }
}

/// Says a text that was found whole, or the line of the ending in its place, and answers the
/// status.
pub fn tell<M: Machine>(alloc: Global, found: Result<Octets, Ending<'_>>, machine: &mut M) -> Status
    ensures told { IsTrue M.tells →
        IsTold found.entry (M.content machine.old) (M.content machine.new) result }
    ensures outside { result ≡ Status.Outside →
        IsErrOf found.entry Ending.Fault ⊎ Rose (M.faults machine.old) (M.faults machine.new) }
    ensures no_fault { result ≢ Status.Outside → is_fault found.entry ≡ false }
    ensures rest { OnlySays (M.content machine.old) (M.content machine.new) }
    ensures devices { SameDevices (M.content machine.old) (M.content machine.new) }
    ensures moments { IsTrue M.tells →
        TellsThrough found.entry (M.content machine.old) (M.content machine.new) }
    ensures counted { result ≢ Status.Outside → M.faults machine.new ≡ M.faults machine.old }
    ensures later { M.faults machine.old ≤ M.faults machine.new }
{
    match found {
        Ok(text) => say_text(&text, machine),
        Err(ending) => end(alloc, ending, machine),
    }
}

// Says a text whole.
fn say_text<M: Machine>(text: &Octets, machine: &mut M) -> Status
    ensures told { IsTrue M.tells →
        IsTold (Ok text.now) (M.content machine.old) (M.content machine.new) result }
    ensures rest { OnlySays (M.content machine.old) (M.content machine.new) }
    ensures devices { SameDevices (M.content machine.old) (M.content machine.new) }
    ensures moments { IsTrue M.tells →
        SaysThrough text.now (M.content machine.old) (M.content machine.new) }
    ensures failures { CountsOutside (M.faults machine.old) (M.faults machine.new) result }
{
    match say_all(machine, text.as_slice()) {
        Ok(()) => Status::Done,
        Err(Failed) => Status::Outside,
    }
}
