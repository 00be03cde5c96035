// The request to play a script on a device.
ghost use Rattle.std.specs.Prelude.{◌≡◌, ℕ, List, [], Ok, Err, Some, false, length, IsTrue, IfErr};
ghost use Rattle.gx_device.specs.Crash.{EachImage, LeavesOnly};
ghost use Rattle.gx_ports.specs.LeafMaps.{LeafMap};
ghost use Rattle.gx_schema.specs.WellFormed.{IsWellFormed};
ghost use Rattle.gx_leaves.specs.Wholeness.{limits_of};
ghost use Rattle.gx_leaves.specs.Paged.{pages_of, places_in, working_of, head_of};
ghost use Rattle.gx_leaves.specs.Places.{specs_of};
ghost use Rattle.gx_journal.specs.Journal.{IsCalm, content_of};
ghost use Rattle.gx_pages.specs.Paged.{ground_of};
ghost use Rattle.gx_pages.specs.View.{journal_of};
ghost use Rattle.gx_store.specs.Device.{IsHeadOf};
ghost use Rattle.gx_store.specs.Store.{CanAttach, HoldsMaps, machine_of};
ghost use Rattle.gx_model.specs.States.{State};
ghost use Rattle.gx_states.specs.Internal.{AreInternal, AreFor};
ghost use Rattle.gx_play.specs.Readings.{EndsAs};
ghost use Rattle.gx_play.specs.Endings.{IsPlayEnding, CountsFault, CountsOutside, is_fault};
ghost use Rattle.gx_play.specs.Overs.{IsPlayedOf, IsImageOf};
ghost use Rattle.gx_requests.specs.Checked.{IsStored};
ghost use Rattle.gx_operations.specs.Damage.{IsDamageBelow};
ghost use Rattle.gx_operations.specs.Given.{Given, IsStoredAs, KeepsOthers};
ghost use Rattle.gx_operations.specs.Held.{StoreState, StaysOn};
ghost use Rattle.gx_operations.specs.Kinds.{RunsAs, IsEndOfKind, over_play};
ghost use Rattle.gx_operations.specs.Settled.{IsSettledIn};

use crate::damage::damage_on;
use crate::kinds::{ScriptKind, play_as};
use gx_device::Machine;
use gx_play::{Ending, Status, end, finish};
use gx_requests::{Stored, unopened_ending};
use gx_schema::Schema;
use gx_store::{Store, close, open};
use gx_types::Built;
use std::alloc::Global;

/// Recovers the device of that name, hears the script, and plays it there from the state that the
/// device holds, and says each answer before more is heard; or says why the device is another than
/// was asked for. Afterwards it is settled with the last state that was kept; after want of memory
/// with none said it holds what it held, and after a failed call what is kept behind what was said.
/// A crash leaves the same for what was said until then, or, before an answer was said, what it
/// could have left when the device was attached. A device that is wrong stays as it was, but that
/// recovery may have settled one of other texts. On one that holds no state damage is told in a
/// block that it has, and `Done` and `Script` come where the script ends so by its lines alone.
/// None is made, and the texts and devices of other names stay. The kind tells whether the lines of
/// the script are commands and paths, or turns of sessions.
pub fn run<M: Machine + Drop>(
    alloc: Global,
    kind: ScriptKind,
    stored: Stored,
    device: &str,
    machine: M,
) -> (Status, M)
    requires { IsStored stored }
    ensures promised { CanAttach M.tells (M.content machine) → (g : Given) → IsStoredAs g stored →
        RunsAs kind g device.now (M.content machine) (M.content result.1) result.0 }
    ensures keeps { CanAttach M.tells (M.content machine) →
        KeepsOthers device.now (M.content machine) (M.content result.1) }
    ensures failures { CountsOutside (M.faults machine) (M.faults result.1) result.0 }
{
    let Stored {
        schema,
        built,
        schema_text,
        equation_text,
    } = stored;
    match open(
        alloc,
        machine,
        device,
        schema_text.as_slice(),
        equation_text.as_slice(),
        &built.specs.0,
    ) {
        Ok(store) => {
            let (played, mut machine) = play_stored(alloc, kind, schema, built, store);
            let status = finish(alloc, played, &mut machine);
            (status, machine)
        }
        Err((mut machine, why)) => {
            let status = end(alloc, unopened_ending(why), &mut machine);
            (status, machine)
        }
    }
}

// Hears the script, plays it on the device, and closes it. Where the device held a state it is
// settled with the last one that was kept, and the answers are those of the play.
fn play_stored<'a, M: Machine + Drop>(
    alloc: Global,
    kind: ScriptKind,
    schema: Schema,
    built: Built,
    store: Store<M>,
) -> (Result<(), Ending<'a>>, M)
    requires built { AreFor schema built (length (working_of store)) }
    requires well_formed { IsWellFormed schema }
    ensures answered { IsTrue M.tells → (s : State) (maps : List LeafMap) →
        HoldsMaps maps store → AreInternal schema built maps s → (texts : List ℕ × List ℕ) →
        IsHeadOf texts.0 texts.1 (specs_of (places_in store)) (head_of store) →
        IsCalm (journal_of (pages_of store)) (content_of (journal_of (pages_of store))) →
        IsPlayedOf (over_play kind schema built
        (Some (limits_of (ground_of (journal_of (pages_of store))) (places_in store))) s
        (M.content (machine_of store)).script)
        (λ k. IsSettledIn schema built texts.0 texts.1 (specs_of (places_in store))
        (M.content result.1).now.blocks k × (is_fault result.0 ≡ false → EachImage
        (λ image. StoreState schema built (head_of store) k image.blocks) (M.content result.1).now))
        (M.content (machine_of store)).now.said (M.content result.1).now.said result.0 }
    ensures crash { IsTrue M.tells → (s : State) (maps : List LeafMap) → HoldsMaps maps store →
        AreInternal schema built maps s →
        IsCalm (journal_of (pages_of store)) (content_of (journal_of (pages_of store))) →
        LeavesOnly (IsImageOf (over_play kind schema built
        (Some (limits_of (ground_of (journal_of (pages_of store))) (places_in store))) s
        (M.content (machine_of store)).script) (StoreState schema built (head_of store))
        (M.content (machine_of store)).now) (M.content (machine_of store)) (M.content result.1) }
    ensures heard { IsTrue M.tells → result.0 ≡ Ok tt → (M.content result.1).script ≡ [] }
    ensures reads { IsTrue M.tells →
        EndsAs (IsEndOfKind kind schema (M.content (machine_of store)).script) result.0 }
    ensures stays { IsTrue M.tells → StaysOn (M.content (machine_of store)) (M.content result.1) }
    ensures ending { IfErr result.0 IsPlayEnding }
    ensures damage { IsTrue M.tells →
        IfErr result.0 (IsDamageBelow (length (M.content result.1).now.blocks)) }
    ensures failures { CountsFault (M.faults (machine_of store)) (M.faults result.1) result.0 }
{
    let (played, store) = play_as(alloc, kind, schema, built, store);
    let machine = close(store);
    match played {
        Ok(()) => (Ok(()), machine),
        Err(why) => {
            let why = damage_on(why, machine.blocks());
            (Err(why), machine)
        }
    }
}
