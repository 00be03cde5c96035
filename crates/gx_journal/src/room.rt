// Room in the frames.
ghost use Rattle.std.specs.Prelude.{◌≡◌, ◌<◌, ◌≤◌, ◌+◌, ◌⊎◌, ℕ, true, false, Some, None, length, slice_index_or, slice_set, vec_capacity, IsTrue, IsSomeAnd, OnOk};
ghost use Rattle.gx_device.specs.Content.{Written};
ghost use Rattle.gx_frames.specs.Pool.{Resident, IsResident, IsChanged, HasFreeFrame, find_page, to_front, with_residents};
ghost use Rattle.gx_layout.specs.Layout.{slot};
ghost use Rattle.gx_journal.specs.DeviceCalls.{HasPlaces, WritesBlock};
ghost use Rattle.gx_journal.specs.Publishing.{SameResidents};
ghost use Rattle.gx_journal.specs.Sources.{stored, IsListed};
ghost use Rattle.gx_journal.specs.Working.{size_in, IsUnchangedIn};
ghost use Rattle.gx_journal.specs.WorkingCalls.{IsBacked, KeepsWorking};

use crate::working::WorkingPages;
use gx_device::{Device, Failed};
use gx_frames::Frames;
use gx_layout::slot;

// Writes a resident page to its slot.
fn write_slot<D: Device>(device: &mut D, frames: &mut Frames, p: u32) -> Result<(), Failed>
    requires places { HasPlaces D.Device device.old frames.old.pages }
    requires below { p < frames.old.pages }
    requires resident { IsResident frames.old p }
    ensures frames { frames.new ≡ with_residents frames.old (to_front p frames.old.resident) }
    ensures written { IsTrue D.tells → (r : Resident) → find_page p frames.old.resident ≡ Some r →
        OnOk result
        (Written (slot (D.size device.old) p) r.bytes (D.content device.old)
        (D.content device.new)) }
    ensures writes { WritesBlock D.Device (slot (D.size device.old) p) device.old device.new
        result }
{
    let block = slot(device.blocks(), p);
    if let Some(bytes) = frames.get(p) {
        device.write_block(block, bytes)
    } else {
        Err(Failed)
    }
}

// Keeps that a page is spilled.
fn note(spilled: &mut Vec<bool>, listed: &mut Vec<u32>, p: u32)
    requires below { p < length spilled.old.items }
    requires listed { IsListed spilled.old.items listed.old.items }
    requires space { length spilled.old.items ≤ vec_capacity listed.old }
    ensures spilled { spilled.new.items ≡ slice_set spilled.old.items p true }
    ensures listed { IsListed spilled.new.items listed.new.items }
    ensures space { vec_capacity listed.old ≤ vec_capacity listed.new }
{
    if !spilled[p as usize] {
        spilled[p as usize] = true;
        let _pushed = listed.push(p);
    }
}

// A changed page goes to its slot.
pub(crate) fn spill<D: Device>(
    device: &mut D,
    working: &mut WorkingPages,
    p: u32,
) -> Result<(), Failed>
    requires below { p < size_in working.old }
    requires changed { IsChanged working.old.frames p }
    requires backed { IsBacked D.Device device.old working.old }
    ensures frames { working.new.frames
        ≡ with_residents working.old.frames (to_front p working.old.frames.resident) }
    ensures spilled { OnOk result (slice_index_or working.new.spilled.items p false ≡ true) }
    ensures stored { IsTrue D.tells → (r : Resident) →
        find_page p working.old.frames.resident ≡ Some r →
        OnOk result
        (stored (D.size device.old) (size_in working.old) (D.content device.new).now.blocks
        working.new.spilled.items p
        ≡ r.bytes) }
    ensures keeps { KeepsWorking D.Device device.old device.new working.old working.new result }
{
    write_slot(device, &mut working.frames, p)?;
    note(&mut working.spilled, &mut working.listed, p);
    Ok(())
}

// What is stored of a page is made what stands in its frame.
fn settle<D: Device>(
    device: &mut D,
    working: &mut WorkingPages,
    p: u32,
    changed: bool,
) -> Result<(), Failed>
    requires below { p < size_in working.old }
    requires resident { IsSomeAnd (find_page p working.old.frames.resident)
        (λ r. r.changed ≡ changed) }
    requires backed { IsBacked D.Device device.old working.old }
    ensures untouched { changed ≡ false → working.new ≡ working.old }
    ensures frames { SameResidents working.old.frames working.new.frames }
    ensures stored { IsTrue D.tells → (r : Resident) →
        find_page p working.old.frames.resident ≡ Some r →
        OnOk result
        (stored (D.size device.old) (size_in working.old) (D.content device.new).now.blocks
        working.new.spilled.items p
        ≡ r.bytes) }
    ensures keeps { KeepsWorking D.Device device.old device.new working.old working.new result }
{
    if !changed {
        return Ok(());
    }
    spill(device, working, p)
}

/// Makes room for a page in the frames: the page that was used longest ago leaves them, and goes to
/// its slot where it has changed.
pub(crate) fn make_room<D: Device>(device: &mut D, working: &mut WorkingPages) -> Result<(), Failed>
    requires backed { IsBacked D.Device device.old working.old }
    ensures free { OnOk result (HasFreeFrame working.new.frames) }
    ensures unchanged { IsUnchangedIn working.old → IsUnchangedIn working.new }
    ensures absent { (p : ℕ) → find_page p working.old.frames.resident ≡ None →
        find_page p working.new.frames.resident ≡ None }
    ensures keeps { KeepsWorking D.Device device.old device.new working.old working.new result }
{
    let Some((page, changed)) = working.frames.victim() else {
        return Ok(());
    };
    settle(device, working, page, changed)?;
    working.frames.evict(page);
    Ok(())
}

/// Makes sure that there is a frame for the page.
pub(crate) fn reserve<D: Device>(
    device: &mut D,
    working: &mut WorkingPages,
    p: u32,
) -> Result<(), Failed>
    requires below { p < size_in working.old }
    requires backed { IsBacked D.Device device.old working.old }
    ensures free { OnOk result (IsResident working.new.frames p ⊎ HasFreeFrame working.new.frames) }
    ensures keeps { KeepsWorking D.Device device.old device.new working.old working.new result }
{
    if working.frames.is_resident(p) {
        return Ok(());
    }
    make_room(device, working)
}
