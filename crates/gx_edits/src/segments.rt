// Records that have an entry in one leaf and may have one in a second, both under their own key.
ghost use Rattle.std.specs.Prelude.{◌≡◌, ◌≢◌, ◌<◌, ◌≤◌, ◌+◌, ℕ, length, is_some, if◌then◌else◌, OnOk, IsErrOf};
ghost use Rattle.gx_ports.specs.LeafMaps.{map_at, with_entry, without_entry, entry_count, IsCrowdedBy};
ghost use Rattle.gx_ports.specs.declared.leaves.TheConstants.{MAX_ENTRY_LEN};
ghost use Rattle.gx_ports.specs.Calls.{Keeps, Ends};
ghost use Rattle.gx_stack.specs.Seen.{tree_of};
ghost use Rattle.gx_entries.specs.Entries.{AreOwnLeaves, AreTwoLeaves};
ghost use Rattle.gx_edits.specs.OneRecord.{CanTake, CanPut, Takes, Puts, has_record, StandsBefore};

use crate::alone::{put_alone, take_alone};
use crate::one_record::{Previous, RecordData};
use gx_entries::{OwnLeaves, both_bodies, first_body};
use gx_ports::{Leaves, Stop};
use gx_stack::Node;
use gx_types::AnyMapping;
use gx_values::{KeyBuf, Octets, Span, Value};
use std::alloc::Global;

/// Takes the record with this key, by the span of the key, out of its own leaves.
pub(crate) fn take_own<B: Leaves>(
    alloc: Global,
    node: &Node<AnyMapping>,
    own: OwnLeaves,
    key: &Value,
    span: &Span,
    leaves: &mut B,
) -> Result<(), Stop>
    requires can { CanTake (tree_of node.now) (length (B.working leaves.old)) key.now span.now.lo }
    requires own { AreOwnLeaves (tree_of node.now) own.first own.second }
    ensures { Takes B.View (tree_of node.now) key.now leaves.old leaves.new result }
{
    match own.second {
        None => take_alone(alloc, node, own.first, key, span, leaves),
        Some(second) => take_both(alloc, node, own.first, second, key, span, leaves),
    }
}

// The same of two leaves. There may be no entry in the second.
fn take_both<B: Leaves>(
    alloc: Global,
    node: &Node<AnyMapping>,
    first: u32,
    second: u32,
    key: &Value,
    span: &Span,
    leaves: &mut B,
) -> Result<(), Stop>
    requires can { CanTake (tree_of node.now) (length (B.working leaves.old)) key.now span.now.lo }
    requires two { AreTwoLeaves (tree_of node.now) first second }
    ensures { Takes B.View (tree_of node.now) key.now leaves.old leaves.new result }
{
    let (_, _) = (node, key);
    leaves.remove(alloc, second, span.lo.as_slice())?;
    leaves.remove(alloc, first, span.lo.as_slice())
}

/// Puts the record into its own leaves, in the place of what is there at the key. The second entry
/// is left alone where it stays.
pub(crate) fn put_own<B: Leaves>(
    alloc: Global,
    node: &Node<AnyMapping>,
    own: OwnLeaves,
    new: RecordData,
    previous: Previous,
    leaves: &mut B,
) -> Result<(), Stop>
    requires can { CanPut (tree_of node.now) (length (B.working leaves.old)) new }
    requires own { AreOwnLeaves (tree_of node.now) own.first own.second }
    ensures { Puts B.View (tree_of node.now) new.entry.key.now new.entry.fields
        (StandsBefore previous (tree_of node.now) new.entry.fields) leaves.old leaves.new result }
{
    let Some(second) = own.second else {
        return put_alone(alloc, node, own.first, new, leaves);
    };
    match previous {
        Previous::SameOthers => put_first(alloc, node, own.first, second, new, leaves),
        Previous::Absent | Previous::Present => {
            put_both(alloc, node, own.first, second, new, previous, leaves)
        }
    }
}

// The same of two leaves, of which the second stays.
fn put_first<B: Leaves>(
    alloc: Global,
    node: &Node<AnyMapping>,
    first: u32,
    second: u32,
    new: RecordData,
    leaves: &mut B,
) -> Result<(), Stop>
    requires can { CanPut (tree_of node.now) (length (B.working leaves.old)) new }
    requires two { AreTwoLeaves (tree_of node.now) first second }
    ensures { Puts B.View (tree_of node.now) new.entry.key.now new.entry.fields
        (StandsBefore Previous.SameOthers (tree_of node.now) new.entry.fields)
        leaves.old leaves.new result }
{
    let _second = second;
    let body = first_body(alloc, node, new.fields)?;
    leaves.put(alloc, first, new.bytes.as_slice(), body.as_slice())
}

// The same of two leaves, whatever stays.
fn put_both<B: Leaves>(
    alloc: Global,
    node: &Node<AnyMapping>,
    first: u32,
    second: u32,
    new: RecordData,
    previous: Previous,
    leaves: &mut B,
) -> Result<(), Stop>
    requires can { CanPut (tree_of node.now) (length (B.working leaves.old)) new }
    requires two { AreTwoLeaves (tree_of node.now) first second }
    ensures { Puts B.View (tree_of node.now) new.entry.key.now new.entry.fields
        (λ gone. is_some gone ≡ has_record previous) leaves.old leaves.new result }
{
    let (body, other) = both_bodies(alloc, node, new.fields)?;
    match other {
        None => put_short(alloc, first, second, new.bytes, &body, previous, leaves),
        Some(other) => put_each(alloc, first, second, new.bytes, &body, &other, leaves),
    }
}

// Puts the body at the key into the first leaf alone. There may be an old entry in the second.
fn put_short<B: Leaves>(
    alloc: Global,
    first: u32,
    second: u32,
    bytes: &KeyBuf,
    body: &Octets,
    previous: Previous,
    leaves: &mut B,
) -> Result<(), Stop>
    requires first { first < length (B.working leaves.old) }
    requires second { second < length (B.working leaves.old) }
    requires entry { length bytes.now + length body.now ≤ MAX_ENTRY_LEN }
    ensures done { B.whole leaves.old → OnOk result (B.working leaves.new
        ≡ with_entry (if has_record previous
        then without_entry (B.working leaves.old) second bytes.now
        else B.working leaves.old) first bytes.now body.now) }
    ensures others { (n : ℕ) → B.whole leaves.old → ¬ IsErrOf result Stop.Fault →
        n ≢ first → n ≢ second →
        map_at (B.working leaves.new) n ≡ map_at (B.working leaves.old) n }
    ensures keeps { Keeps B.View leaves.old leaves.new }
    ensures ends { Ends B.View (B.whole leaves.old) leaves.old leaves.new result }
    ensures full { B.whole leaves.old → IsErrOf result Stop.Full →
        IsCrowdedBy (B.limit leaves.old) (entry_count (B.working leaves.old)) }
{
    if previous.has_record() {
        leaves.remove(alloc, second, bytes.as_slice())?;
    }
    leaves.put(alloc, first, bytes.as_slice(), body.as_slice())
}

// Puts a body at the key into each of both leaves.
fn put_each<B: Leaves>(
    alloc: Global,
    first: u32,
    second: u32,
    bytes: &KeyBuf,
    body: &Octets,
    other: &Octets,
    leaves: &mut B,
) -> Result<(), Stop>
    requires first { first < length (B.working leaves.old) }
    requires second { second < length (B.working leaves.old) }
    requires entry { length bytes.now + length body.now ≤ MAX_ENTRY_LEN }
    requires other { length bytes.now + length other.now ≤ MAX_ENTRY_LEN }
    ensures done { B.whole leaves.old → OnOk result (B.working leaves.new
        ≡ with_entry (with_entry (B.working leaves.old) first bytes.now body.now)
        second bytes.now other.now) }
    ensures others { (n : ℕ) → B.whole leaves.old → ¬ IsErrOf result Stop.Fault →
        n ≢ first → n ≢ second →
        map_at (B.working leaves.new) n ≡ map_at (B.working leaves.old) n }
    ensures keeps { Keeps B.View leaves.old leaves.new }
    ensures ends { Ends B.View (B.whole leaves.old) leaves.old leaves.new result }
    ensures full { B.whole leaves.old → IsErrOf result Stop.Full →
        IsCrowdedBy (B.limit leaves.old) (entry_count (B.working leaves.old) + 1) }
{
    leaves.put(alloc, first, bytes.as_slice(), body.as_slice())?;
    leaves.put(alloc, second, bytes.as_slice(), other.as_slice())
}
