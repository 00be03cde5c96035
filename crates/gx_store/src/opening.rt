// A database's leaves are opened.
ghost use Rattle.std.specs.Prelude.{◌≡◌, ◌+◌, ◌≤◌, ℕ, List, Some, length, IsTrue, IfOk, IfErr, OnOk};
ghost use Rattle.gx_device.specs.Content.{device_at, Silent};
ghost use Rattle.gx_device.specs.Faults.{Counted};
ghost use Rattle.gx_layout.specs.declared.places.TheConstants.{MAX_TEXTS_LEN};
ghost use Rattle.gx_ports.specs.LeafMaps.{LeafMap};
ghost use Rattle.gx_leaves.specs.Kinds.{are_built};
ghost use Rattle.gx_leaves.specs.Places.{specs_of, places_of, IsRoomFor};
ghost use Rattle.gx_leaves.specs.Paged.{pages_of, places_in};
ghost use Rattle.gx_journal.specs.Journal.{IsSteady, device_of, working_of, kept_of, kept_head};
ghost use Rattle.gx_pages.specs.View.{journal_of};
ghost use Rattle.gx_pages.specs.Paged.{ground_of, kept_sheets};
ghost use Rattle.gx_store.specs.Device.{AreMaps, AreTexts, Reopens};
ghost use Rattle.gx_store.specs.Store.{CanAttach, Attaches, HoldsMaps, IsJustOpened, machine_left, goes_on};
ghost use Rattle.gx_store.specs.Opening.{AreUnopened, AreUnread, IsUnopened};
ghost use Rattle.gx_store.specs.Opened.{IsStoreOn, IsStoreOf, IsAdopted, IsOnlyRead, LeavesOpened, LeavesNamed};
ghost use Rattle.gx_ports.specs.declared.kinds.TheConstants.{MAX_LEAVES};

use crate::store::{FRAMES, Store, is_size};
use crate::unopened::Unopened;
use gx_device::{Failed, Machine};
use gx_journal::Journal;
use gx_leaves::PagedLeaves;
use gx_pages::Paged;
use gx_ports::LeafSpec;
use gx_values::NoMemory;
use std::alloc::Global;

/// Attaches the device of that name, settles what a crash left there, and opens its leaves, where
/// it holds a database under these two canonical texts. The specs are those of the texts.
///
/// Otherwise the machine is handed back, in this order: `Missing`, `Size`, `NoDatabase`,
/// `OtherTexts`. After the first three no block was written. `Fault`: the count of faults rose;
/// with every other answer it stays. `NoMemory`: there was none. Whatever it answers, the device
/// still reads as it did; with every answer but `Fault` one of another size or without the magic
/// has the same blocks. So what opened it opens it again. No block was written but by recovery, and
/// no device was made. After Ok, `NoDatabase` and `OtherTexts` nothing is pending on the device.
pub fn open<M: Machine + Drop>(
    alloc: Global,
    machine: M,
    name: &str,
    schema: &[u8],
    equation: &[u8],
    specs: &[LeafSpec],
) -> Result<Store<M>, (M, Unopened)>
    requires texts { length schema.now + length equation.now ≤ MAX_TEXTS_LEN }
    requires few { length specs.now ≤ MAX_LEAVES }
    requires built { IsTrue (are_built specs.now) }
    ensures holds { CanAttach M.tells (M.content machine) →
        (blocks : List (List ℕ)) (maps : List LeafMap) →
        device_at (M.content machine).now name.now ≡ Some blocks →
        Reopens schema.now equation.now specs.now maps blocks → IfOk result (HoldsMaps maps) }
    ensures opened { CanAttach M.tells (M.content machine) → IfOk result (λ s.
        IsStoreOf name.now schema.now equation.now specs.now (M.content machine) s) }
    ensures specs { IfOk result (λ s. specs_of (places_in s) ≡ specs.now) }
    ensures unopened { CanAttach M.tells (M.content machine) → IfErr result
        (λ e. IsUnopened name.now schema.now equation.now specs.now (M.content machine) e.1) }
    ensures left { CanAttach M.tells (M.content machine) →
        LeavesNamed name.now specs.now (M.content machine) result }
    ensures attaches { CanAttach M.tells (M.content machine) →
        Attaches name.now (M.content machine) (M.content (machine_left result)) }
    ensures faults { Counted (goes_on result) (M.faults machine) (M.faults (machine_left result)) }
{
    let mut machine = machine;
    if let Err(stop) = machine.attach(alloc, name, None) {
        return Err((machine, stop.into()));
    }
    open_attached(alloc, machine, schema, equation, specs)
}

/// Settles what a crash left on the device that is attached, and opens its leaves, where it holds a
/// database under these two canonical texts. The specs are those of the texts.
///
/// Otherwise the machine is handed back, as by `open`, which also attaches the device.
pub fn open_attached<M: Machine + Drop>(
    alloc: Global,
    machine: M,
    schema: &[u8],
    equation: &[u8],
    specs: &[LeafSpec],
) -> Result<Store<M>, (M, Unopened)>
    requires texts { length schema.now + length equation.now ≤ MAX_TEXTS_LEN }
    requires few { length specs.now ≤ MAX_LEAVES }
    requires built { IsTrue (are_built specs.now) }
    ensures holds { IsTrue M.tells → (maps : List LeafMap) →
        Reopens schema.now equation.now specs.now maps (M.content machine).now.blocks →
        IfOk result (HoldsMaps maps) }
    ensures opened { IsTrue M.tells → IfOk result (λ s.
        IsStoreOn schema.now equation.now specs.now (M.content machine) s) }
    ensures specs { IfOk result (λ s. specs_of (places_in s) ≡ specs.now) }
    ensures unopened { IsTrue M.tells → IfErr result (λ e.
        AreUnopened schema.now equation.now specs.now (M.content machine).now.blocks e.1) }
    ensures left { IsTrue M.tells → LeavesOpened specs.now (M.content machine) result }
    ensures silent { Silent (M.content machine) (M.content (machine_left result)) }
    ensures faults { Counted (goes_on result) (M.faults machine) (M.faults (machine_left result)) }
{
    if !is_size(specs, machine.blocks()) {
        return Err((machine, Unopened::Size));
    }
    match Journal::recover(alloc, machine, FRAMES) {
        Ok(journal) => open_journal(alloc, journal, schema, equation, specs),
        Err((machine, why)) => Err((machine, why.into())),
    }
}

// Opens the leaves over a journal.
fn open_journal<M: Machine + Drop>(
    alloc: Global,
    mut journal: Journal<M>,
    schema: &[u8],
    equation: &[u8],
    specs: &[LeafSpec],
) -> Result<Store<M>, (M, Unopened)>
    requires texts { length schema.now + length equation.now ≤ MAX_TEXTS_LEN }
    requires room { IsRoomFor (ground_of journal) specs.now }
    ensures holds { IsTrue M.tells → working_of journal ≡ kept_of journal → IsSteady journal →
        (maps : List LeafMap) →
        AreMaps (ground_of journal) specs.now maps (kept_sheets journal) →
        IfOk result (HoldsMaps maps) }
    ensures just_opened { working_of journal ≡ kept_of journal → IsSteady journal →
        IfOk result IsJustOpened }
    ensures adopted { IfOk result (λ s. IsAdopted specs.now journal s) }
    ensures texts { IsTrue M.tells → OnOk result
        (AreTexts schema.now equation.now (kept_head journal)) }
    ensures other { IsTrue M.tells → IfErr result
        (λ e. AreUnread schema.now equation.now (kept_head journal) e.1) }
    ensures read { IsOnlyRead journal (machine_left result) }
    ensures faults { Counted (goes_on result) (M.faults (device_of journal))
        (M.faults (machine_left result)) }
{
    match journal.texts_differ(schema, equation) {
        Ok(None) => adopt(alloc, journal, specs),
        Ok(Some(place)) => Err((journal.into_device(), Unopened::OtherTexts(place))),
        Err(Failed) => Err((journal.into_device(), Unopened::Fault)),
    }
}

// The leaves over a journal that has the texts.
fn adopt<M: Machine + Drop>(
    alloc: Global,
    journal: Journal<M>,
    specs: &[LeafSpec],
) -> Result<Store<M>, (M, Unopened)>
    requires room { IsRoomFor (ground_of journal) specs.now }
    ensures journal { IfOk result (λ s. journal_of (pages_of s) ≡ journal) }
    ensures places { IfOk result (λ s. places_in s ≡ places_of (ground_of journal) specs.now) }
    ensures back { IfErr result (λ e. e.0 ≡ device_of journal) }
    ensures no_memory { IfErr result (λ e. e.1 ≡ Unopened.NoMemory) }
{
    match PagedLeaves::adopt(alloc, Paged::adopt(journal), specs) {
        Ok(leaves) => Ok(leaves),
        Err((pages, NoMemory)) => Err((pages.into_journal().into_device(), Unopened::NoMemory)),
    }
}
