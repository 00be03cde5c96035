// The second half of a commit: what stands in the slots goes home behind an open gate.
ghost use Rattle.std.specs.Prelude.{◌≡◌, ◌<◌, ◌≤◌, ◌+◌, ℕ, List, true, false, length, slice_index_or, IsTrue, OnOk};
ghost use Rattle.gx_device.specs.Content.{NonePending, block_of};
ghost use Rattle.gx_layout.specs.Layout.{View, NamesListed, IsBitmap, first_text, has_bit_on, home, is_open, most_pages, slot};
ghost use Rattle.gx_journal.specs.DeviceCalls.{HasPlaces, TouchesOnly, WritesOnly, FlushesOnly};
ghost use Rattle.gx_journal.specs.Publishing.{SameResidents, AreCopiedHome, IsPrepared, Replaces, IsInSlot, AreInSlots, AreSpilled};
ghost use Rattle.gx_journal.specs.Sources.{IsHomeOf, IsCommitted};

use gx_device::{BLOCK_LEN, Device, Failed};
use gx_frames::Frames;
use gx_layout::{close_gate, home, open_gate, slot, write_bitmap};

// Copies a page from its slot to its home.
fn copy_home<D: Device>(device: &mut D, pages: u32, p: u32) -> Result<(), Failed>
    requires below { p < pages }
    requires places { HasPlaces D.Device device.old pages }
    ensures home { IsTrue D.tells →
        OnOk result (block_of (D.content device.new).now (home (D.size device.old) pages p)
        ≡ block_of (D.content device.old).now (slot (D.size device.old) p)) }
    ensures writes { WritesOnly D.Device (λ n. n ≡ home (D.size device.old) pages p) device.old
        device.new result }
{
    let size = device.blocks();
    let mut page = [0; BLOCK_LEN];
    device.read_block(slot(size, p), &mut page)?;
    device.write_block(home(size, pages, p), &page)
}

// Writes a page home, from its frame where it stands in one, else from its slot.
fn write_home<D: Device>(
    device: &mut D,
    frames: &mut Frames,
    pages: u32,
    p: u32,
) -> Result<(), Failed>
    requires below { p < pages }
    requires places { HasPlaces D.Device device.old pages }
    requires pages { frames.old.pages ≡ pages }
    requires slot { IsInSlot D.Device p frames.old device.old }
    ensures home { IsTrue D.tells →
        OnOk result (block_of (D.content device.new).now (home (D.size device.old) pages p)
        ≡ block_of (D.content device.old).now (slot (D.size device.old) p)) }
    ensures frames { SameResidents frames.old frames.new }
    ensures writes { WritesOnly D.Device (λ n. n ≡ home (D.size device.old) pages p) device.old
        device.new result }
{
    let block = home(device.blocks(), pages, p);
    if let Some(bytes) = frames.get(p) {
        device.write_block(block, bytes)
    } else {
        copy_home(device, pages, p)
    }
}

// The listed pages go home.
fn write_homes<D: Device>(
    device: &mut D,
    frames: &mut Frames,
    pages: u32,
    listed: &Vec<u32>,
) -> Result<(), Failed>
    requires places { HasPlaces D.Device device.old pages }
    requires listed { AreInSlots D.Device pages listed.now.items frames.old device.old }
    ensures homes { IsTrue D.tells →
        OnOk result (AreCopiedHome (D.size device.old) pages listed.now.items
        (D.content device.old).now (D.content device.new).now) }
    ensures frames { SameResidents frames.old frames.new }
    ensures writes { WritesOnly D.Device (IsHomeOf (D.size device.old) pages listed.now.items)
        device.old device.new result }
{
    for i in 0..listed.len() {
        write_home(device, frames, pages, listed[i])?;
    }
    Ok(())
}

// The bitmap names the listed pages.
fn log<D: Device>(device: &mut D, listed: &Vec<u32>) -> Result<(), Failed>
    requires room { first_text (D.size device.old) ≤ D.size device.old }
    requires listed { (i : ℕ) → i < length listed.now.items →
        slice_index_or listed.now.items i 0 < most_pages (D.size device.old) }
    ensures named { IsTrue D.tells → OnOk result
        (NamesListed listed.now.items (has_bit_on (D.content device.new).now.blocks)
        (most_pages (D.size device.old))) }
    ensures flushes { FlushesOnly D.Device (IsBitmap (D.size device.old)) device.old device.new
        result }
{
    write_bitmap(device, listed)?;
    device.sync()
}

// The listed pages stand at home, whatever happens.
fn bring_home<D: Device>(
    device: &mut D,
    frames: &mut Frames,
    pages: u32,
    listed: &Vec<u32>,
) -> Result<(), Failed>
    requires places { HasPlaces D.Device device.old pages }
    requires listed { AreInSlots D.Device pages listed.now.items frames.old device.old }
    ensures homes { IsTrue D.tells →
        OnOk result (AreCopiedHome (D.size device.old) pages listed.now.items
        (D.content device.old).now (D.content device.new).now) }
    ensures frames { SameResidents frames.old frames.new }
    ensures flushes { FlushesOnly D.Device (IsHomeOf (D.size device.old) pages listed.now.items)
        device.old device.new result }
{
    write_homes(device, frames, pages, listed)?;
    device.sync()
}

/// The pages in the slots go home: the bitmap and then the open gate say that the slots count, and
/// the gate is closed over the homes. Each step is synced before the next one.
pub(crate) fn publish<D: Device>(
    device: &mut D,
    frames: &mut Frames,
    spilled: &Vec<bool>,
    listed: &Vec<u32>,
) -> Result<(), Failed>
    requires places { HasPlaces D.Device device.old (length spilled.now.items) }
    requires spilled { AreSpilled D.Device spilled.now.items listed.now.items frames.old
        device.old }
    ensures homes { IsTrue D.tells →
        OnOk result ((p : ℕ) → slice_index_or spilled.now.items p false ≡ true →
        block_of (D.content device.new).now (home (D.size device.old) (length spilled.now.items) p)
        ≡ block_of (D.content device.old).now (slot (D.size device.old) p)) }
    ensures replaces { IsTrue D.tells → (kept : View) (pages : List (List ℕ)) →
        IsPrepared kept pages spilled.now.items (D.content device.old).now
        → Replaces kept pages (D.content device.old) (D.content device.new) result }
    ensures closed { IsTrue D.tells →
        OnOk result (is_open (block_of (D.content device.new).now 1) ≡ false) }
    ensures none_pending { IsTrue D.tells → OnOk result (NonePending (D.content device.new)) }
    ensures frames { SameResidents frames.old frames.new }
    ensures touches { TouchesOnly D.Device
        (IsCommitted (D.size device.old) (length spilled.now.items) listed.now.items)
        device.old device.new result }
{
    log(device, listed)?;
    open_gate(device)?;
    bring_home(device, frames, spilled.len() as u32, listed)?;
    close_gate(device)
}
