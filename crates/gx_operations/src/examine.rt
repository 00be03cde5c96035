// Leaves that are examined whole.
ghost use Rattle.std.specs.Prelude.{◌≡◌, ◌<◌, ℕ, List, length, IsTrue, IfErr};
ghost use Rattle.gx_device.specs.Content.{Silent};
ghost use Rattle.gx_device.specs.Crash.{LeavesOnly};
ghost use Rattle.gx_ports.specs.Calls.{Reads};
ghost use Rattle.gx_leaves.specs.Paged.{pages_of, places_in, working_of, kept_of, head_of, IsWhole, WasWhole};
ghost use Rattle.gx_leaves.specs.Places.{specs_of};
ghost use Rattle.gx_journal.specs.Journal.{IsCalm, IsSteady};
ghost use Rattle.gx_pages.specs.View.{journal_of};
ghost use Rattle.gx_store.specs.Crashes.{IsReplayed};
ghost use Rattle.gx_store.specs.Device.{IsHeadOf, IsSettled};
ghost use Rattle.gx_store.specs.Store.{machine_of};
ghost use Rattle.gx_states.specs.Internal.{AreFor};
ghost use Rattle.gx_play.specs.Endings.{CountsFault};
ghost use Rattle.gx_operations.specs.Damage.{IsDamageBelow};
ghost use Rattle.gx_operations.specs.Examined.{IsExamined};

use crate::damage::damage_on;
use gx_audit::audit;
use gx_device::Machine;
use gx_play::{DeviceWhy, Ending, PlayEnd};
use gx_ports::Leaves;
use gx_schema::Schema;
use gx_store::{Store, close};
use gx_types::Built;
use gx_values::Octets;
use std::alloc::Global;

// Examines what the device holds, and closes it. The text that it gives tells of a state that the
// leaves hold; damage comes only where they hold none, and is told in a block of the device. A
// device that was whole is settled with what it held. Whole or not, it reads as it did, and a crash
// leaves only what reads so.
pub(crate) fn examine_store<'a, M: Machine + Drop>(
    alloc: Global,
    schema: Schema,
    built: Built,
    store: Store<M>,
) -> (Result<Octets, Ending<'a>>, M)
    requires ready { AreFor schema built (length (working_of store)) }
    requires specs { length built.specs ≡ length (working_of store) }
    requires some { 0 < length (working_of store) }
    ensures examined { IsTrue M.tells → IsSteady (journal_of (pages_of store)) →
        IsExamined schema built (working_of store) (IsWhole store) result.0 }
    ensures damage { IsTrue M.tells →
        IfErr result.0 (IsDamageBelow (length (M.content result.1).now.blocks)) }
    ensures settled { (texts : List ℕ × List ℕ) →
        IsHeadOf texts.0 texts.1 (specs_of (places_in store)) (head_of store) → WasWhole store →
        IsSettled texts.0 texts.1 (specs_of (places_in store)) (kept_of store)
        (M.content result.1).now.blocks }
    ensures replayed { IsTrue M.tells →
        IsCalm (journal_of (pages_of store)) (M.content (machine_of store)) →
        LeavesOnly (IsReplayed (M.content (machine_of store)).now) (M.content (machine_of store))
        (M.content result.1) }
    ensures silent { Silent (M.content (machine_of store)) (M.content result.1) }
    ensures failures { CountsFault (M.faults (machine_of store)) (M.faults result.1) result.0 }
{
    let mut store = store;
    let found = examine(alloc, &schema, &built, &mut store);
    let machine = close(store);
    match found {
        Ok(text) => (Ok(text), machine),
        Err(why) => {
            let why = damage_on(why, machine.blocks());
            (Err(why), machine)
        }
    }
}

// The text of what leaves hold, where they are whole and hold a valid state.
fn examine<'a, B: Leaves>(
    alloc: Global,
    schema: &Schema,
    built: &Built,
    leaves: &mut B,
) -> Result<Octets, Ending<'a>>
    requires ready { AreFor schema.now built.now (length (B.working leaves.old)) }
    requires specs { length built.now.specs ≡ length (B.working leaves.old) }
    requires some { 0 < length (B.working leaves.old) }
    ensures examined { IsTrue B.tells → B.steady leaves.old →
        IsExamined schema.now built.now (B.working leaves.old) (B.whole leaves.old) result }
    ensures reads { Reads B.View leaves.old leaves.new }
    ensures failures { CountsFault (B.faults leaves.old) (B.faults leaves.new) result }
{
    let mut text = Octets(Vec::new(alloc));
    match audit(alloc, schema, built, leaves, &mut text) {
        Ok(true) => Ok(text),
        Ok(false) => Err(Ending::Device(DeviceWhy::Damaged(0))),
        Err(stop) => Err(Ending::from(PlayEnd::Stop(stop))),
    }
}
