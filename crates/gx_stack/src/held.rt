// What the leaves of a tree hold, where they are read whole.
ghost use Rattle.std.specs.Prelude.{◌≡◌, ◌≢◌, ◌<◌, ◌≤◌, ◌+◌, ◌++◌, [], ℕ, List, true, false, not, length, slice_set, Some, OnOk, IfOk, IfErr};
ghost use Rattle.std.specs.List.{filter, flat_map};
ghost use Rattle.std.specs.FinMap.{len};
ghost use Rattle.gx_values.specs.declared.records.Form.{Form as TheForm};
ghost use Rattle.gx_values.specs.declared.records.Rec.{Rec as Record};
ghost use Rattle.gx_values.specs.Keys.{is_inside};
ghost use Rattle.gx_ports.specs.LeafMaps.{map_at};
ghost use Rattle.gx_ports.specs.Calls.{ReadsMaps};
ghost use Rattle.gx_mapping.specs.declared.parts.Part.{Part as ThePart};
ghost use Rattle.gx_mapping.specs.Rule.{In, IsOf};
ghost use Rattle.gx_stack.specs.Tree.{IsLeafForm};
ghost use Rattle.gx_gather.specs.Gather.{AreDataParts};
ghost use Rattle.gx_stack.specs.Selected.{IsKeySpan};
ghost use Rattle.gx_stack.specs.Held.{IsLeafHeld, AreCounts, other_parts, is_same_part, AreJoined};

use crate::read::read_records;
use gx_gather::{Recs, gather_parts, is_same_values, sort_parts};
use gx_mapping::{Mapping, Part, Parts};
use gx_ports::{Entries, Leaves, Stop};
use gx_values::{Form, KeyBuf, NoMemory, Span};
use std::alloc::{AllocError, Global};

// The records of one leaf, in the order of their keys. How many entries it has is noted at its
// number. `None`: some entry is that of no record.
pub fn held_leaf<B: Leaves>(
    alloc: Global,
    leaves: &mut B,
    leaf: u32,
    form: &Form,
    counts: &mut [Option<usize>],
) -> Result<Option<Recs>, Stop>
    requires leaf { leaf < length (B.working leaves.old) }
    requires form { IsLeafForm form.now }
    ensures held { IfOk result
        (IsLeafHeld form.now (B.whole leaves.old) (map_at (B.working leaves.old) leaf)) }
    ensures counts { B.whole leaves.old → AreCounts (B.working leaves.old) counts.old →
        AreCounts (B.working leaves.old) counts.new }
    ensures few_steps { B.whole leaves.old → OnOk result
        (B.work leaves.new
        ≤ B.work leaves.old + (1 + len (map_at (B.working leaves.old) leaf))) }
    ensures reads { ReadsMaps B.View (B.whole leaves.old) leaves.old leaves.new result }
{
    let mut entries = Entries::new(alloc);
    leaves.select(alloc, leaf, &whole_span(), &mut entries)?;
    note_count(counts, leaf, entries.len());
    let mut found = Recs::new(alloc);
    match read_records(alloc, form, &entries, &mut found) {
        Ok(()) => Ok(Some(found)),
        Err(Stop::Damaged(_)) => Ok(None),
        Err(stop) => Err(stop),
    }
}

// Notes a leaf's count, where there is a place for it.
fn note_count(counts: &mut [Option<usize>], leaf: u32, count: usize)
    ensures { counts.new ≡ slice_set counts.old leaf (Some count) }
{
    let place = leaf as usize;
    if place < counts.len() {
        counts[place] = Some(count);
    }
}

/// The span of all keys.
pub fn whole_span() -> Span
    ensures all { (key : List ℕ) → is_inside result.lo result.hi key ≡ true }
    ensures keys { (form : TheForm) → IsKeySpan form result }
    ensures lo { result.lo ≡ [] }
    ensures hi { result.hi ≡ [] }
{
    Span {
        lo: KeyBuf::from_slice(&[]),
        hi: KeyBuf::from_slice(&[]),
    }
}

// The records that the data parts make, where the other parts are just theirs. `None`: there are no
// such records.
pub fn join_parts<M: Mapping>(
    alloc: Global,
    mapping: &M,
    main: Parts,
    others: &Parts,
) -> Result<Option<Recs>, Stop>
    requires { AreDataParts (M.rule mapping.now) main }
    ensures joined { IfOk result (AreJoined (M.rule mapping.now) main others.now) }
    ensures cause { IfErr result (λ why. why ≡ Stop.NoMemory) }
{
    let mut found = Recs::new(alloc);
    match gather_parts(alloc, mapping, main, &mut found) {
        Ok(()) => {}
        Err(Stop::Damaged(_)) => return Ok(None),
        Err(stop) => return Err(stop),
    }
    let mut parts = others_of(alloc, mapping, &found)?.0;
    sort_parts(0, &mut parts)?;
    if are_same_parts(&parts, &others.0) {
        Ok(Some(found))
    } else {
        Ok(None)
    }
}

// The parts of records for children that aren't data children.
fn others_of<M: Mapping>(alloc: Global, mapping: &M, found: &Recs) -> Result<Parts, NoMemory>
    requires { (r : Record) → In r found.now → IsOf (M.rule mapping.now).form r }
    ensures { IfOk result
        (λ parts. parts ≡ flat_map (other_parts (M.rule mapping.now)) found.now) }
{
    let mut others = Parts(Vec::new(alloc));
    for rec in &found.0 {
        let parts = mapping.parts(alloc, rec)?;
        add_others(mapping, parts, &mut others)?;
    }
    Ok(others)
}

fn add_others<M: Mapping>(mapping: &M, parts: Parts, others: &mut Parts) -> Result<(), AllocError>
    requires { (p : ThePart) → In p parts → p.child < (M.rule mapping.now).kids }
    ensures { OnOk result
        (others.new
        ≡ others.old ++ filter (λ part. not ((M.rule mapping.now).holds_rest part.child)) parts) }
{
    for part in parts.0 {
        if !mapping.holds_rest(part.child) {
            others.0.push(part)?;
        }
    }
    Ok(())
}

fn is_same_part(a: &Part, b: &Part) -> bool
    ensures { result ≡ is_same_part a.now b.now }
{
    a.child == b.child
        && is_same_values(&a.rec.key.0, &b.rec.key.0)
        && is_same_values(&a.rec.fields.0, &b.rec.fields.0)
}

/// Whether two lists of parts are the same.
pub fn are_same_parts(a: &[Part], b: &[Part]) -> bool
    ensures yes { result ≡ true → a.now ≡ b.now }
    ensures no { result ≡ false → a.now ≢ b.now }
{
    if a.len() != b.len() {
        return false;
    }
    for i in 0..a.len() {
        if !is_same_part(&a[i], &b[i]) {
            return false;
        }
    }
    true
}
