// The request to play the workload on a device that is made.
ghost use Rattle.std.specs.Prelude.{◌≡◌, ◌⊎◌, ◌≤◌, length, replicate, IsTrue, OnOk};
ghost use Rattle.std.specs.FinMap.{empty};
ghost use Rattle.gx_device.specs.Content.{Silent};
ghost use Rattle.gx_device.specs.Crash.{EachImage};
ghost use Rattle.gx_work.specs.Schema.{work_schema};
ghost use Rattle.gx_store.specs.Crashes.{Unattached};
ghost use Rattle.gx_store.specs.Device.{Reopens};
ghost use Rattle.gx_store.specs.Store.{CanAttach, Attaches};
ghost use Rattle.gx_play.specs.Endings.{CountsFault, CountsOutside};
ghost use Rattle.gx_requests.specs.Checked.{IsStored};
ghost use Rattle.gx_operations.specs.Given.{Given, IsStoredAs, KeepsOthers};
ghost use Rattle.gx_operations.specs.Working.{IsPlayedOn, IsWorking, WorksThrough, EachReopens, LeavesWorking};
ghost use Rattle.gx_operations.specs.Works.{WorksOn};

use gx_device::Machine;
use gx_play::{Ending, Status, tell};
use gx_requests::{Stored, unopened_ending};
use gx_store::{close, make, open_attached};
use gx_values::Octets;
use gx_working::play_work;
use std::alloc::Global;

/// Makes a device of that name with so many blocks, plays the workload of so many records on it,
/// and says the line of its summary; or why the size or the name can't be had, and then no device is
/// made or changed at any moment. After `Done` and `Full` the device has so many blocks and is
/// settled with the last state that the play kept, and after `Done` each crash leaves that. A crash
/// before leaves none of that name, no database, an empty one, or the last state that first lines
/// kept, and so do want of memory and a failed call.
pub fn work<M: Machine + Drop>(
    alloc: Global,
    stored: Stored,
    device: &str,
    blocks: u32,
    records: u32,
    machine: M,
) -> (Status, M)
    requires stored { IsStored stored }
    requires schema { stored.schema ≡ work_schema }
    requires few { records ≤ 10000 }
    ensures promised { CanAttach M.tells (M.content machine) → (g : Given) →
        IsStoredAs g stored → WorksOn g device.now blocks records (M.content machine)
        (M.content result.1) result.0 }
    ensures keeps { CanAttach M.tells (M.content machine) →
        KeepsOthers device.now (M.content machine) (M.content result.1) }
    ensures failures { CountsOutside (M.faults machine) (M.faults result.1) result.0 }
{
    let (worked, mut machine) = make_and_play(alloc, stored, device, blocks, records, machine);
    let status = tell(alloc, worked, &mut machine);
    (status, machine)
}

// Makes the device, plays on it and closes it.
fn make_and_play<'a, M: Machine + Drop>(
    alloc: Global,
    stored: Stored,
    device: &str,
    blocks: u32,
    records: u32,
    machine: M,
) -> (Result<Octets, Ending<'a>>, M)
    requires stored { IsStored stored }
    requires schema { stored.schema ≡ work_schema }
    requires few { records ≤ 10000 }
    ensures worked { CanAttach M.tells (M.content machine) →
        IsWorking stored device.now blocks records (M.content machine) (M.content result.1)
        result.0 }
    ensures attaches { CanAttach M.tells (M.content machine) →
        Attaches device.now (M.content machine) (M.content result.1) }
    ensures through { CanAttach M.tells (M.content machine) →
        Unattached (M.content machine) (M.content result.1) ⊎
        WorksThrough stored device.now blocks records (M.content machine) (M.content result.1) }
    ensures each { CanAttach M.tells (M.content machine) →
        OnOk result.0 (EachReopens stored (M.content result.1)) }
    ensures failures { CountsFault (M.faults machine) (M.faults result.1) result.0 }
{
    let (made, machine) = make(
        alloc,
        machine,
        device,
        blocks,
        stored.schema_text.as_slice(),
        stored.equation_text.as_slice(),
        &stored.built.specs.0,
    );
    match made {
        Ok(()) => play_made(alloc, stored, records, machine),
        Err(why) => (Err(unopened_ending(why)), machine),
    }
}

// Plays the workload on the attached device, which holds an empty database, and closes it.
fn play_made<'a, M: Machine + Drop>(
    alloc: Global,
    stored: Stored,
    records: u32,
    machine: M,
) -> (Result<Octets, Ending<'a>>, M)
    requires stored { IsStored stored }
    requires schema { stored.schema ≡ work_schema }
    requires few { records ≤ 10000 }
    ensures worked { IsTrue M.tells →
        Reopens stored.schema_text stored.equation_text stored.built.specs
        (replicate (length stored.built.specs) empty) (M.content machine).now.blocks →
        IsPlayedOn stored (length (M.content machine).now.blocks) records
        (M.content result.1).now.blocks result.0 }
    ensures left { IsTrue M.tells →
        EachImage (λ image. Reopens stored.schema_text stored.equation_text stored.built.specs
        (replicate (length stored.built.specs) empty) image.blocks) (M.content machine).now →
        LeavesWorking stored records (M.content machine) (M.content result.1) result.0 }
    ensures count { IsTrue M.tells →
        length (M.content result.1).now.blocks ≡ length (M.content machine).now.blocks }
    ensures silent { Silent (M.content machine) (M.content result.1) }
    ensures failures { CountsFault (M.faults machine) (M.faults result.1) result.0 }
{
    let Stored {
        schema,
        built,
        schema_text,
        equation_text,
    } = stored;
    match open_attached(
        alloc,
        machine,
        schema_text.as_slice(),
        equation_text.as_slice(),
        &built.specs.0,
    ) {
        Ok(store) => {
            let (worked, store) = play_work(alloc, schema, built, records, store);
            (worked, close(store))
        }
        Err((machine, why)) => (Err(unopened_ending(why)), machine),
    }
}
