// The values of one fragment of the record at a key, from the leaves.
ghost use Rattle.std.specs.Prelude.{◌≡◌, ◌<◌, ◌+◌, [], not, false, length, map, IfOk, OnOk};
ghost use Rattle.gx_values.specs.declared.records.Rec.{Rec as Record};
ghost use Rattle.gx_values.specs.Values.{AreFit};
ghost use Rattle.gx_actual.specs.Bodies.{AreShort};
ghost use Rattle.gx_codec.specs.Slots.{AreStorable};
ghost use Rattle.gx_ports.specs.Calls.{ReadsMaps};
ghost use Rattle.gx_ports.specs.LeafMaps.{map_at, selected, counted};
ghost use Rattle.gx_access.specs.Access.{fragment_entries, is_absent};
ghost use Rattle.gx_access.specs.Held.{leaf_pair};
ghost use Rattle.gx_gets.specs.Restored.{put_fragment, IsReadable, IsOfOne};

use crate::fragment::place_fragment;
use gx_access::Fragment;
use gx_gather::NO_BLOCK;
use gx_ports::{Entries, Leaves, Stop};
use gx_values::{Field, Span, Value};
use std::alloc::Global;

/// Puts the values of a fragment at the numbers of their fields, where its leaf has an entry inside
/// the span of a record's key, and answers whether it has one. It counts one step, and one for each
/// entry.
///
/// `Damaged`: the leaf's stored form isn't whole, or its entries are those of no record, which is
/// said of block 0. `Fault`: the count of faults rose; with any other answer it stays. `NoMemory`:
/// there was none. After a refusal some of the values may be put.
pub fn read_fragment<B: Leaves>(
    alloc: Global,
    fields: &[Field],
    fragment: &Fragment,
    span: &Span,
    leaves: &mut B,
    out: &mut [Value],
) -> Result<bool, Stop>
    requires short { AreShort fields.now }
    requires readable { IsReadable (length fields.now) fragment.now.view }
    requires leaf { fragment.now.leaf < length (B.working leaves.old) }
    requires long { length out.old ≡ length fields.now }
    ensures read { (r : Record) → B.whole leaves.old →
        AreStorable fields.now fragment.now.view.slots r.fields →
        selected span.now.lo span.now.hi (map_at (B.working leaves.old) fragment.now.leaf)
        ≡ map leaf_pair (fragment_entries r fragment.now) →
        IfOk result (λ there. (there ≡ not (is_absent fragment.now.view.groups r.fields))
        × (out.new ≡ put_fragment fragment.now r.fields out.old)) }
    ensures none { B.whole leaves.old →
        selected span.now.lo span.now.hi (map_at (B.working leaves.old) fragment.now.leaf) ≡ [] →
        IfOk result (λ there. there ≡ false) }
    ensures fit { AreFit fields.now out.old → AreFit fields.now out.new }
    ensures same_length { length out.new ≡ length out.old }
    ensures steps { B.whole leaves.old → OnOk result
        (B.work leaves.new
        ≡ counted (B.work leaves.old) (1 + length
        (selected span.now.lo span.now.hi (map_at (B.working leaves.old) fragment.now.leaf)))) }
    ensures reads { ReadsMaps B.View
        (B.whole leaves.old × IsOfOne fields.now fragment.now
        (selected span.now.lo span.now.hi (map_at (B.working leaves.old) fragment.now.leaf)))
        leaves.old leaves.new result }
{
    let mut entries = Entries::new(alloc);
    leaves.select(alloc, fragment.leaf, span, &mut entries)?;
    if entries.is_empty() {
        return Ok(false);
    }
    if place_fragment(alloc, fields, fragment, &entries, out)? {
        Ok(true)
    } else {
        Err(Stop::Damaged(NO_BLOCK))
    }
}
