// Reads and writes of pages, by way of the frames.
ghost use Rattle.std.specs.Prelude.{◌≡◌, ◌≢◌, ◌<◌, ◌+◌, ◌∷◌, ◌⊎◌, ℕ, true, [], length, slice_index_or, IsTrue, OnOk, OnErr, if◌then◌else◌};
ghost use Rattle.gx_frames.specs.Pool.{IsResident, HasFreeFrame, without, with_residents};
ghost use Rattle.gx_layout.specs.Layout.{slot, home};
ghost use Rattle.gx_journal.specs.DeviceCalls.{HasPlaces, ReadsOnly};
ghost use Rattle.gx_journal.specs.Sources.{SamePages};
ghost use Rattle.gx_journal.specs.Working.{size_in, page_in, IsUnchangedIn};
ghost use Rattle.gx_journal.specs.WorkingCalls.{IsBacked, WritesSlots, KeepsWorking};
ghost use Rattle.gx_device.specs.declared.device.TheConstants.{BLOCK_LEN};

use crate::room::{make_room, reserve};
use crate::working::WorkingPages;
use gx_device::{BLOCK_LEN, Device, Failed};
use gx_frames::{Call, Frames};
use gx_layout::{home, slot};

// A page stands in a frame, with these bytes, and counts as changed.
fn put(frames: &mut Frames, p: u32, from: &[u8])
    requires below { p < frames.old.pages }
    requires free { IsResident frames.old p ⊎ HasFreeFrame frames.old }
    requires size { length from.now ≡ BLOCK_LEN }
    ensures { frames.new
        ≡ with_residents frames.old (record { page = p; bytes = from.now; changed = true }
        ∷ without p frames.old.resident) }
{
    if !frames.is_resident(p) {
        frames.carry_out(Call::Admit(p, from));
    }
    frames.carry_out(Call::Write(p, from));
}

/// Writes a page. Nothing is read, and no home is written.
pub(crate) fn write<D: Device>(
    device: &mut D,
    working: &mut WorkingPages,
    p: u32,
    from: &[u8],
) -> Result<(), Failed>
    requires below { p < size_in working.old }
    requires bytes { length from.now ≡ BLOCK_LEN }
    requires backed { IsBacked D.Device device.old working.old }
    ensures page { IsTrue D.tells →
        OnOk result
        (page_in (D.size device.old) (size_in working.old) (D.content device.new) working.new p
        ≡ from.now) }
    ensures others { IsTrue D.tells → (q : ℕ) → p ≢ q →
        page_in (D.size device.old) (size_in working.old) (D.content device.new) working.new q
        ≡ page_in (D.size device.old) (size_in working.old) (D.content device.old) working.old q }
    ensures failed { IsTrue D.tells →
        OnErr result
        (SamePages
        (page_in (D.size device.old) (size_in working.old) (D.content device.old) working.old)
        (page_in (D.size device.old) (size_in working.old) (D.content device.new) working.new)) }
    ensures writes { WritesSlots D.Device device.old device.new working.old working.new result }
{
    reserve(device, working, p)?;
    put(&mut working.frames, p, from);
    Ok(())
}

// Reads a page as it is stored: in its slot where it is spilled, else at home.
fn fetch<D: Device>(
    device: &mut D,
    is_spilled: bool,
    pages: u32,
    p: u32,
    into: &mut [u8],
) -> Result<(), Failed>
    requires below { p < pages }
    requires bytes { length into.old ≡ BLOCK_LEN }
    requires places { HasPlaces D.Device device.old pages }
    ensures page { IsTrue D.tells →
        OnOk result
        (into.new ≡ (if is_spilled
        then slice_index_or (D.content device.old).now.blocks (slot (D.size device.old) p) []
        else slice_index_or (D.content device.old).now.blocks (home (D.size device.old) pages p)
        [])) }
    ensures reads { ReadsOnly D.Device device.old device.new result }
{
    let size = device.blocks();
    if is_spilled {
        device.read_block(slot(size, p), into)
    } else {
        device.read_block(home(size, pages, p), into)
    }
}

/// Makes a page stand in a frame, whose bytes are then those of the page.
pub(crate) fn bring<D: Device>(
    device: &mut D,
    working: &mut WorkingPages,
    p: u32,
) -> Result<(), Failed>
    requires below { p < size_in working.old }
    requires backed { IsBacked D.Device device.old working.old }
    ensures resident { OnOk result (IsResident working.new.frames p) }
    ensures unchanged { IsUnchangedIn working.old → IsUnchangedIn working.new }
    ensures keeps { KeepsWorking D.Device device.old device.new working.old working.new result }
{
    if working.frames.is_resident(p) {
        working.frames.carry_out(Call::Get(p));
        return Ok(());
    }
    make_room(device, working)?;
    let is_spilled = working.spilled[p as usize];
    let mut bytes = [0; BLOCK_LEN];
    fetch(device, is_spilled, working.count(), p, &mut bytes)?;
    working.frames.carry_out(Call::Admit(p, &bytes));
    Ok(())
}
