// The request to make a device with an empty database.
ghost use Rattle.std.specs.Prelude.{◌≡◌};
ghost use Rattle.gx_store.specs.Store.{CanAttach};
ghost use Rattle.gx_requests.specs.Checked.{IsStored};
ghost use Rattle.gx_play.specs.Endings.{CountsOutside};
ghost use Rattle.gx_operations.specs.Given.{Given, IsStoredAs, KeepsOthers};
ghost use Rattle.gx_operations.specs.Makes.{MakesOn};
ghost use Rattle.gx_operations.specs.Making.{making_ending};

use gx_device::Machine;
use gx_layout::page_count;
use gx_play::{Ending, Status, end};
use gx_requests::{Stored, unopened_ending};
use gx_store::{Unopened, make as make_leaves};
use std::alloc::Global;

/// Makes a device of that name with so many blocks, and an empty database of what is stored on it,
/// and says the line of what was made; or why the size or the name can't be had, and then no device
/// is made or changed at any moment. After `Done` each crash leaves the empty database. A crash
/// before leaves none of that name, one with no magic, or the empty database, and so do want of
/// memory and a failed call.
pub fn make<M: Machine + Drop>(
    alloc: Global,
    stored: Stored,
    device: &str,
    blocks: u32,
    machine: M,
) -> (Status, M)
    requires { IsStored stored }
    ensures promised { CanAttach M.tells (M.content machine) → (g : Given) →
        IsStoredAs g stored → MakesOn g device.now blocks (M.content machine)
        (M.content result.1) result.0 }
    ensures keeps { CanAttach M.tells (M.content machine) →
        KeepsOthers device.now (M.content machine) (M.content result.1) }
    ensures failures { CountsOutside (M.faults machine) (M.faults result.1) result.0 }
{
    let (made, mut machine) = make_leaves(
        alloc,
        machine,
        device,
        blocks,
        stored.schema_text.as_slice(),
        stored.equation_text.as_slice(),
        &stored.built.specs.0,
    );
    let status = end(alloc, making_ending(made, blocks), &mut machine);
    (status, machine)
}

// How the request ends where making its device ended so.
fn making_ending<'a>(made: Result<(), Unopened>, blocks: u32) -> Ending<'a>
    ensures { result ≡ making_ending blocks made }
{
    match made {
        Ok(()) => Ending::Made(blocks, page_count(blocks)),
        Err(why) => unopened_ending(why),
    }
}
