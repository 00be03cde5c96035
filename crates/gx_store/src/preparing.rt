// The leaves of a database that isn't there yet are laid out on a new device.
ghost use Rattle.std.specs.Prelude.{◌≡◌, ◌+◌, ◌≤◌, ℕ, List, [], length, slice_index_or, replicate, IsTrue, IfOk, IfErr, OnOk};
ghost use Rattle.std.specs.FinMap.{empty};
ghost use Rattle.gx_device.specs.Content.{block_of, NonePending, Silent};
ghost use Rattle.gx_device.specs.Crash.{LeavesOnly};
ghost use Rattle.gx_device.specs.Faults.{Counted};
ghost use Rattle.gx_layout.specs.Head.{HasMagic};
ghost use Rattle.gx_layout.specs.declared.places.TheConstants.{MAX_TEXTS_LEN};
ghost use Rattle.gx_leaves.specs.Kinds.{are_built};
ghost use Rattle.gx_leaves.specs.Places.{IsRoomFor, specs_of};
ghost use Rattle.gx_leaves.specs.Paged.{pages_of, places_in, working_of, head_of, IsWhole};
ghost use Rattle.gx_journal.specs.Journal.{IsCalm, IsSteady, device_of, content_of, kept_head};
ghost use Rattle.gx_pages.specs.Owners.{IsAllFree};
ghost use Rattle.gx_pages.specs.Paged.{ground_of, working_sheets};
ghost use Rattle.gx_pages.specs.View.{journal_of};
ghost use Rattle.gx_store.specs.Device.{IsSize};
ghost use Rattle.gx_store.specs.Store.{CanAttach, Attaches, HoldsMaps, machine_of, machine_left, goes_on};
ghost use Rattle.gx_store.specs.Crashes.{HasNoMagic};
ghost use Rattle.gx_store.specs.Opened.{IsAdopted};
ghost use Rattle.gx_store.specs.Making.{IsUnmade, IsUnmadeOn, IsUnlaid, AreMade, IsPrepared, IsPreparedBy, LeavesPreparing, not_laid};
ghost use Rattle.gx_ports.specs.declared.kinds.TheConstants.{MAX_LEAVES};

use crate::store::{FRAMES, Store, is_size};
use crate::unopened::Unopened;
use gx_device::{Failed, Machine};
use gx_journal::Journal;
use gx_leaves::PagedLeaves;
use gx_pages::Paged;
use gx_ports::{LeafSpec, Leaves, Stop};
use std::alloc::Global;

/// Makes a device of that name with so many blocks, and empty leaves on it under these two
/// canonical texts. There is no database on it before `seal`: until then a crash leaves none. The
/// specs are those of the texts. After Ok the device is attached.
///
/// Otherwise the machine is handed back, in this order: `Size` of the number, `Exists`; then no
/// device is made or changed. `Fault`: the count of faults rose; with every other answer it stays.
/// `NoMemory`: there was none. After these two there may be a device that wasn't there before: it
/// has so many blocks and no magic. A device that was there before reads as it did, whatever the
/// answer is.
pub fn prepare<M: Machine + Drop>(
    alloc: Global,
    machine: M,
    name: &str,
    blocks: u32,
    schema: &[u8],
    equation: &[u8],
    specs: &[LeafSpec],
) -> Result<Store<M>, (M, Unopened)>
    requires texts { length schema.now + length equation.now ≤ MAX_TEXTS_LEN }
    requires few { length specs.now ≤ MAX_LEAVES }
    requires built { IsTrue (are_built specs.now) }
    ensures prepared { CanAttach M.tells (M.content machine) → IfOk result (λ s.
        IsPreparedBy name.now blocks schema.now equation.now specs.now (M.content machine) s) }
    ensures specs { IfOk result (λ s. specs_of (places_in s) ≡ specs.now) }
    ensures size { OnOk result (IsSize specs.now blocks) }
    ensures unprepared { CanAttach M.tells (M.content machine) → IfErr result
        (λ e. IsUnmade name.now blocks specs.now (M.content machine) e.1) }
    ensures left { CanAttach M.tells (M.content machine) →
        LeavesPreparing name.now blocks specs.now (M.content machine) result }
    ensures attaches { CanAttach M.tells (M.content machine) →
        Attaches name.now (M.content machine) (M.content (machine_left result)) }
    ensures faults { Counted (goes_on result) (M.faults machine) (M.faults (machine_left result)) }
{
    let mut machine = machine;
    if !is_size(specs, blocks) {
        return Err((machine, Unopened::Size));
    }
    if let Err(stop) = machine.attach(alloc, name, Some(blocks)) {
        return Err((machine, stop.into()));
    }
    prepare_attached(alloc, machine, schema, equation, specs)
}

// Lays the leaves out on the attached device. No contract tells the size of one that a machine
// which tells nothing has made, so it is tried again.
fn prepare_attached<M: Machine + Drop>(
    alloc: Global,
    machine: M,
    schema: &[u8],
    equation: &[u8],
    specs: &[LeafSpec],
) -> Result<Store<M>, (M, Unopened)>
    requires texts { length schema.now + length equation.now ≤ MAX_TEXTS_LEN }
    requires few { length specs.now ≤ MAX_LEAVES }
    requires built { IsTrue (are_built specs.now) }
    ensures prepared { IsTrue M.tells →
        ¬ HasMagic (M.size machine) (block_of (M.content machine).now 0) →
        IfOk result (λ s. IsPrepared schema.now equation.now specs.now s) }
    ensures specs { IfOk result (λ s. specs_of (places_in s) ≡ specs.now) }
    ensures images { IsTrue M.tells → NonePending (M.content machine) →
        ¬ HasMagic (M.size machine) (block_of (M.content machine).now 0) →
        LeavesOnly (HasNoMagic (M.content machine).now) (M.content machine)
        (M.content (machine_left result)) }
    ensures unmade { IfErr result (λ e. IsUnmadeOn specs.now (M.size machine) e.1) }
    ensures silent { Silent (M.content machine) (M.content (machine_left result)) }
    ensures faults { Counted (goes_on result) (M.faults machine) (M.faults (machine_left result)) }
{
    if !is_size(specs, machine.blocks()) {
        return Err((machine, Unopened::Size));
    }
    match Journal::format(alloc, machine, FRAMES, schema, equation) {
        Ok(journal) => prepare_over(alloc, journal, specs),
        Err((machine, why)) => Err((machine, why.into())),
    }
}

// Makes empty leaves over a journal of a device that is laid out, and commits them.
fn prepare_over<M: Machine + Drop>(
    alloc: Global,
    journal: Journal<M>,
    specs: &[LeafSpec],
) -> Result<Store<M>, (M, Unopened)>
    requires room { IsRoomFor (ground_of journal) specs.now }
    ensures holds { IsTrue M.tells → IsSteady journal →
        IfOk result (HoldsMaps (replicate (length specs.now) empty)) }
    ensures over { IfOk result (λ s. IsAdopted specs.now journal s) }
    ensures images { IsTrue M.tells → IsCalm journal (content_of journal) →
        ¬ HasMagic (M.size (device_of journal)) (slice_index_or (kept_head journal) 0 []) →
        LeavesOnly (HasNoMagic (content_of journal).now) (content_of journal)
        (M.content (machine_left result)) }
    ensures unmade { IfErr result (λ e. IsUnlaid e.1) }
    ensures silent { Silent (content_of journal) (M.content (machine_left result)) }
    ensures faults { Counted (goes_on result) (M.faults (device_of journal))
        (M.faults (machine_left result)) }
{
    match make_leaves(alloc, journal, specs) {
        Ok(leaves) => commit_made(leaves),
        Err(refused) => Err(refused),
    }
}

// Commits leaves that were made.
fn commit_made<M: Machine + Drop>(mut leaves: Store<M>) -> Result<Store<M>, (M, Unopened)>
    ensures holds { IsWhole leaves → IfOk result (HoldsMaps (working_of leaves)) }
    ensures head { IfOk result (λ s. head_of s ≡ head_of leaves) }
    ensures calm { IsCalm (journal_of (pages_of leaves)) (M.content (machine_of leaves)) →
        IfOk result (λ s. IsCalm (journal_of (pages_of s)) (M.content (machine_of s))) }
    ensures images { IsTrue M.tells →
        IsCalm (journal_of (pages_of leaves)) (M.content (machine_of leaves)) →
        ¬ HasMagic (M.size (machine_of leaves))
        (slice_index_or (kept_head (journal_of (pages_of leaves))) 0 []) →
        LeavesOnly (HasNoMagic (M.content (machine_of leaves)).now)
        (M.content (machine_of leaves)) (M.content (machine_left result)) }
    ensures unmade { IfErr result (λ e. IsUnlaid e.1) }
    ensures silent { Silent (M.content (machine_of leaves)) (M.content (machine_left result)) }
    ensures faults { Counted (goes_on result) (M.faults (machine_of leaves))
        (M.faults (machine_left result)) }
{
    match leaves.commit() {
        Ok(()) => Ok(leaves),
        Err(Failed) => Err((
            leaves.into_pages().into_journal().into_device(),
            Unopened::Fault,
        )),
    }
}

// Makes empty leaves in the working pages.
fn make_leaves<M: Machine + Drop>(
    alloc: Global,
    journal: Journal<M>,
    specs: &[LeafSpec],
) -> Result<Store<M>, (M, Unopened)>
    requires room { IsRoomFor (ground_of journal) specs.now }
    ensures made { IsTrue M.tells → IsSteady journal → IfOk result (AreMade specs.now) }
    ensures over { IfOk result (λ s. IsAdopted specs.now journal s) }
    ensures images { IsTrue M.tells → IsCalm journal (content_of journal) →
        ¬ HasMagic (M.size (device_of journal)) (slice_index_or (kept_head journal) 0 []) →
        LeavesOnly (HasNoMagic (content_of journal).now) (content_of journal)
        (M.content (machine_left result)) }
    ensures unmade { IfErr result (λ e. IsUnlaid e.1) }
    ensures silent { Silent (content_of journal) (M.content (machine_left result)) }
    ensures faults { Counted (goes_on result) (M.faults (device_of journal))
        (M.faults (machine_left result)) }
{
    match Paged::make(journal) {
        Ok(pages) => make_in(alloc, pages, specs),
        Err((journal, Failed)) => Err((journal.into_device(), Unopened::Fault)),
    }
}

// Makes empty leaves in pages of which none past the table has an owner.
fn make_in<M: Machine + Drop>(
    alloc: Global,
    pages: Paged<M>,
    specs: &[LeafSpec],
) -> Result<Store<M>, (M, Unopened)>
    requires room { IsRoomFor (ground_of (journal_of pages)) specs.now }
    ensures made { IsTrue M.tells → IsSteady (journal_of pages) →
        IsAllFree (ground_of (journal_of pages)) (working_sheets (journal_of pages)) →
        IfOk result (AreMade specs.now) }
    ensures over { IfOk result (λ s. IsAdopted specs.now (journal_of pages) s) }
    ensures images { IsTrue M.tells →
        IsCalm (journal_of pages) (content_of (journal_of pages)) →
        ¬ HasMagic (M.size (device_of (journal_of pages)))
        (slice_index_or (kept_head (journal_of pages)) 0 []) →
        LeavesOnly (HasNoMagic (content_of (journal_of pages)).now)
        (content_of (journal_of pages)) (M.content (machine_left result)) }
    ensures unmade { IfErr result (λ e. IsUnlaid e.1) }
    ensures silent { Silent (content_of (journal_of pages)) (M.content (machine_left result)) }
    ensures faults { Counted (goes_on result) (M.faults (device_of (journal_of pages)))
        (M.faults (machine_left result)) }
{
    match PagedLeaves::make(alloc, pages, specs) {
        Ok(leaves) => Ok(leaves),
        Err((pages, why)) => Err((pages.into_journal().into_device(), not_made(why))),
    }
}

// The refusal of leaves that weren't made.
fn not_made(why: Stop) -> Unopened
    ensures { result ≡ not_laid why }
{
    match why {
        Stop::NoMemory => Unopened::NoMemory,
        Stop::Fault | Stop::Full | Stop::Damaged(_) => Unopened::Fault,
    }
}
