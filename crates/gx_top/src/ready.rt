// What a request on a device is prepared from. Nothing is pending then.
ghost use Rattle.std.specs.Prelude.{◌≡◌, IsTrue, IfOk, IfErr};
ghost use Rattle.gx_work.specs.Schema.{work_schema};
ghost use Rattle.gx_requests.specs.Checked.{IsStored, IsStoredFor};
ghost use Rattle.gx_requests.specs.Fetched.{Fetches, Prepares};
ghost use Rattle.gx_requests.specs.Words.{AskOfTwo, AskOfOne};
ghost use Rattle.gx_top.specs.Readied.{Readies};

use gx_device::{Failed, Machine};
use gx_play::Ending;
use gx_requests::{Stored, prepare_stored, prepare_under};
use gx_work::schema;
use std::alloc::Global;

/// What the texts of these names give for a device. A device that was attached before is synced, so
/// that another may be attached in its place.
pub fn ready_stored<'a, M: Machine>(
    alloc: Global,
    schema: &'a str,
    equation: &'a str,
    machine: &mut M,
) -> Result<Stored, Ending<'a>>
    ensures prepared { IsTrue M.tells →
        Prepares (AskOfTwo schema.now equation.now) IsStoredFor (M.content machine.old).aside.texts
        (M.faults machine.old) (M.faults machine.new) result }
    ensures stored { IfOk result IsStored }
    ensures readies { Readies M.content M.faults M.tells machine.old machine.new result }
{
    let stored = prepare_stored(alloc, schema, equation, machine)?;
    settle(machine)?;
    Ok(stored)
}

/// The same of the equation of this name under the schema of the workload.
pub fn ready_work<'a, M: Machine>(
    alloc: Global,
    equation: &'a str,
    machine: &mut M,
) -> Result<Stored, Ending<'a>>
    ensures prepared { IsTrue M.tells →
        Prepares (AskOfOne equation.now) IsStoredFor (M.content machine.old).aside.texts
        (M.faults machine.old) (M.faults machine.new) result }
    ensures stored { IfOk result IsStored }
    ensures schema { IfOk result (λ x. x.schema ≡ work_schema) }
    ensures readies { Readies M.content M.faults M.tells machine.old machine.new result }
{
    let stored = prepare_work(alloc, equation, machine)?;
    settle(machine)?;
    Ok(stored)
}

// What the equation of this name gives under the schema of the workload.
fn prepare_work<'a, M: Machine>(
    alloc: Global,
    equation: &'a str,
    machine: &mut M,
) -> Result<Stored, Ending<'a>>
    ensures prepared { IsTrue M.tells →
        Prepares (AskOfOne equation.now) IsStoredFor (M.content machine.old).aside.texts
        (M.faults machine.old) (M.faults machine.new) result }
    ensures stored { IfOk result IsStored }
    ensures schema { IfOk result (λ x. x.schema ≡ work_schema) }
    ensures fetches { Fetches M.content M.faults machine.old machine.new result }
{
    let schema = schema(alloc)?;
    prepare_under(alloc, schema, equation, machine)
}

// Syncs the device that is attached, if one is.
fn settle<'a, M: Machine>(machine: &mut M) -> Result<(), Ending<'a>>
    ensures readies { Readies M.content M.faults M.tells machine.old machine.new result }
    ensures aside { (M.content machine.new).aside ≡ (M.content machine.old).aside }
    ensures fault { IfErr result (λ why. why ≡ Ending.Fault) }
{
    match machine.sync() {
        Ok(()) => Ok(()),
        Err(Failed) => Err(Ending::Fault),
    }
}
