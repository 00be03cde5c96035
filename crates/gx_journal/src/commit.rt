// The first step of a commit: the changed pages go to their slots.
ghost use Rattle.std.specs.Prelude.{◌≡◌, ◌<◌, ◌≤◌, ℕ, true, false, [], length, slice_index_or, vec_capacity, IsTrue, OnOk};
ghost use Rattle.gx_device.specs.Content.{NonePending, block_of};
ghost use Rattle.gx_frames.specs.Pool.{IsChanged};
ghost use Rattle.gx_layout.specs.Layout.{View, AtRest, home, is_open};
ghost use Rattle.gx_journal.specs.Publishing.{Replaces};
ghost use Rattle.gx_journal.specs.Sources.{stored, SamePages, IsListed};
ghost use Rattle.gx_journal.specs.Working.{size_in, page_in, pages_in, IsUnchangedIn};
ghost use Rattle.gx_journal.specs.WorkingCalls.{IsBacked, KeepsWorking, KeepsHead};

use crate::publish::publish;
use crate::room::spill;
use crate::working::WorkingPages;
use gx_device::{Device, Failed};

// A changed page goes to its slot, and no longer counts as changed.
fn spill_one<D: Device>(device: &mut D, working: &mut WorkingPages, p: u32) -> Result<(), Failed>
    requires below { p < size_in working.old }
    requires changed { IsChanged working.old.frames p }
    requires backed { IsBacked D.Device device.old working.old }
    ensures clean { OnOk result (¬ IsChanged working.new.frames p) }
    ensures spilled { OnOk result (slice_index_or working.new.spilled.items p false ≡ true) }
    ensures still { OnOk result ((q : ℕ) → ¬ IsChanged working.old.frames q →
        ¬ IsChanged working.new.frames q) }
    ensures keeps { KeepsWorking D.Device device.old device.new working.old working.new result }
{
    spill(device, working, p)?;
    working.frames.clean(p);
    Ok(())
}

/// Each changed page goes to its slot: then each page is as it is stored.
pub(crate) fn spill_all<D: Device>(device: &mut D, working: &mut WorkingPages) -> Result<(), Failed>
    requires backed { IsBacked D.Device device.old working.old }
    ensures unchanged { ((q : ℕ) → ¬ IsChanged working.old.frames q) →
        (device.new ≡ device.old) × (working.new ≡ working.old) }
    ensures untouched { OnOk result
        (((q : ℕ) → slice_index_or working.new.spilled.items q false ≡ false) →
        working.new ≡ working.old) }
    ensures none_changed { OnOk result ((q : ℕ) → ¬ IsChanged working.new.frames q) }
    ensures stored { IsTrue D.tells →
        OnOk result ((q : ℕ) →
        page_in (D.size device.old) (size_in working.old) (D.content device.new) working.new q
        ≡ stored (D.size device.old) (size_in working.old)
        (D.content device.new).now.blocks working.new.spilled.items q) }
    ensures keeps { KeepsWorking D.Device device.old device.new working.old working.new result }
{
    let mut from = 0;
    while let Some(p) = working.frames.next_changed(from) {
        spill_one(device, working, p)?;
        from = p + 1;
    }
    Ok(())
}

/// No page counts as spilled any more.
pub(crate) fn clear(spilled: &mut Vec<bool>, listed: &mut Vec<u32>)
    requires { IsListed spilled.old.items listed.old.items }
    ensures none { (p : ℕ) → slice_index_or spilled.new.items p false ≡ false }
    ensures long { length spilled.new.items ≡ length spilled.old.items }
    ensures listed { IsListed spilled.new.items listed.new.items }
    ensures space { vec_capacity listed.old ≤ vec_capacity listed.new }
{
    for i in 0..listed.len() {
        spilled[listed[i] as usize] = false;
    }
    listed.clear();
}

/// Makes the pages as they are those at home, all at once.
pub(crate) fn commit<D: Device>(device: &mut D, working: &mut WorkingPages) -> Result<(), Failed>
    requires backed { IsBacked D.Device device.old working.old }
    ensures home { IsTrue D.tells →
        OnOk result ((q : ℕ) →
        page_in (D.size device.old) (size_in working.old) (D.content device.new) working.new q
        ≡ slice_index_or (D.content device.new).now.blocks
        (home (D.size device.old) (size_in working.old) q) []) }
    ensures same { IsTrue D.tells →
        OnOk result
        (SamePages
        (page_in (D.size device.old) (size_in working.old) (D.content device.old) working.old)
        (page_in (D.size device.old) (size_in working.old) (D.content device.new) working.new)) }
    ensures replaces { IsTrue D.tells → (kept : View) → length kept.pages ≡ size_in working.old →
        AtRest (D.content device.old).now kept
        → Replaces kept
        (pages_in D.tells (D.size device.old) (size_in working.old) (D.content device.old)
        working.old)
        (D.content device.old) (D.content device.new) result }
    ensures closed { IsTrue D.tells → is_open (block_of (D.content device.old).now 1) ≡ false →
        OnOk result (is_open (block_of (D.content device.new).now 1) ≡ false) }
    ensures none_pending { IsTrue D.tells → ¬ IsUnchangedIn working.old →
        OnOk result (NonePending (D.content device.new)) }
    ensures unchanged { IsUnchangedIn working.old → device.new ≡ device.old }
    ensures saved { OnOk result (IsUnchangedIn working.new) }
    ensures keeps { KeepsHead D.Device device.old device.new working.old working.new result }
{
    spill_all(device, working)?;
    if working.listed.is_empty() {
        return Ok(());
    }
    publish(
        device,
        &mut working.frames,
        &working.spilled,
        &working.listed,
    )?;
    clear(&mut working.spilled, &mut working.listed);
    Ok(())
}
