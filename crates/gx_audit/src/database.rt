// The audit of a database.
ghost use Rattle.std.specs.Prelude.{◌≡◌, ◌↔◌, ◌<◌, true, false, Ok, None, length, replicate, IsTrue, IfSome, IfOk, OnOk};
ghost use Rattle.gx_ports.specs.Calls.{ReadsMaps};
ghost use Rattle.gx_stack.specs.Held.{AreCounts};
ghost use Rattle.gx_states.specs.Internal.{AreFor, HaveState};
ghost use Rattle.gx_audit.specs.Audits.{IsAnswer, HasAsMany, IsSound};

use crate::files::{FileKeys, file_keys};
use crate::links::{PairCounts, pair_counts};
use crate::texts::inspect_text;
use gx_ports::{Leaves, Stop};
use gx_schema::Schema;
use gx_types::Built;
use gx_values::Octets;
use std::alloc::{AllocError, Global};

/// Examines the stored form of every leaf, and then whether the leaves stand for a valid state of
/// the schema. `true`: they do, and what `inspect` says of them is appended. `false`: each leaf is
/// whole, and they stand for none.
///
/// `Damaged`: some leaf's stored form isn't whole. `Fault`: the count of faults rose; with any
/// other answer it stays. `NoMemory`: there was none. It never answers `Full`. The maps stay, and
/// `out` too where it doesn't answer `true`.
pub fn audit<B: Leaves>(
    alloc: Global,
    schema: &Schema,
    built: &Built,
    leaves: &mut B,
    out: &mut Octets,
) -> Result<bool, Stop>
    requires ready { AreFor schema.now built.now (length (B.working leaves.old)) }
    requires specs { length built.now.specs ≡ length (B.working leaves.old) }

    // The leaves stand for a state, and its text was appended.
    ensures sound { B.whole leaves.old → result ≡ Ok true →
        IsSound schema.now built.now (B.working leaves.old) out.old out.new }
    ensures unsound { B.whole leaves.old → result ≡ Ok false →
        ¬ HaveState schema.now built.now (B.working leaves.old) }

    // Where the stored form tells, an answer is one of whole leaves.
    ensures whole { IsTrue B.tells → B.steady leaves.old → 0 < length (B.working leaves.old) →
        OnOk result (B.whole leaves.old) }

    // What is stored of leaves that aren't whole stays, and what they share.
    ensures untouched { IsTrue B.tells → B.steady leaves.old → 0 < length (B.working leaves.old) →
        ¬ B.whole leaves.old → B.stored leaves.new ≡ B.stored leaves.old }
    ensures steady { IsTrue B.tells → B.steady leaves.old → 0 < length (B.working leaves.old) →
        ¬ B.whole leaves.old → B.steady leaves.new }

    ensures unsaid { ¬ (result ≡ Ok true) → out.new ≡ out.old }
    ensures reads { ReadsMaps B.View (B.whole leaves.old) leaves.old leaves.new result }
{
    check_leaves(alloc, leaves)?;
    let mut entries = no_counts(alloc, leaves.leaves())?;
    let Some(found) = found_state(alloc, schema, built, leaves, &mut entries)? else {
        return Ok(false);
    };
    let text = inspect_text(
        alloc,
        schema,
        built,
        leaves,
        &entries,
        &found.keys,
        &found.counts,
    )?;
    out.0.extend_from_slice(&text)?;
    Ok(true)
}

// Examines the stored form of every leaf.
fn check_leaves<B: Leaves>(alloc: Global, leaves: &mut B) -> Result<(), Stop>
    ensures whole { IsTrue B.tells → B.steady leaves.old → 0 < length (B.working leaves.old) →
        OnOk result (B.whole leaves.old) }
    ensures stored { B.stored leaves.new ≡ B.stored leaves.old }
    ensures steady { B.steady leaves.old ↔ B.steady leaves.new }
    ensures reads { ReadsMaps B.View (B.whole leaves.old) leaves.old leaves.new result }
{
    for leaf in 0..leaves.leaves() {
        leaves.check(alloc, leaf)?;
    }
    Ok(())
}

// A place for the count of each leaf's entries, and no count yet.
fn no_counts(alloc: Global, leaves: u32) -> Result<Vec<Option<usize>>, AllocError>
    ensures { IfOk result (λ counts. counts.items ≡ replicate leaves None) }
{
    Ok(vec![in alloc; None; leaves as usize]?)
}

// What leaves were found to hold.
#[derive(Drop)]
struct Found {
    keys: FileKeys,
    counts: PairCounts,
}

// What the leaves hold of a valid state, and how many entries each leaf that was read has. `None`:
// they stand for none.
fn found_state<B: Leaves>(
    alloc: Global,
    schema: &Schema,
    built: &Built,
    leaves: &mut B,
    entries: &mut [Option<usize>],
) -> Result<Option<Found>, Stop>
    requires { AreFor schema.now built.now (length (B.working leaves.old)) }
    ensures found { IfOk result
        (IsAnswer schema.now built.now (B.whole leaves.old) (B.working leaves.old)) }
    ensures many { IfOk result (λ answer. IfSome answer (HasAsMany schema.now)) }
    ensures entries { B.whole leaves.old → AreCounts (B.working leaves.old) entries.old →
        AreCounts (B.working leaves.old) entries.new }
    ensures reads { ReadsMaps B.View (B.whole leaves.old) leaves.old leaves.new result }
{
    let Some(keys) = file_keys(alloc, schema, built, leaves, entries)? else {
        return Ok(None);
    };
    let Some(counts) = pair_counts(alloc, schema, built, leaves, &keys, entries)? else {
        return Ok(None);
    };
    Ok(Some(Found { keys, counts }))
}
