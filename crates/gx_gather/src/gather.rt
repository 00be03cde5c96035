// Records gathered from the data parts that the children of a layer hold.
ghost use Rattle.std.specs.Prelude.{◌≡◌, ◌<◌, ◌++◌, ◌∷◌, [], ℕ, true, List, Some, None, length, map, take, OnOk, IsErrOf, IfOk, IfSome, IfNone};
ghost use Rattle.std.specs.List.Sorted.{IsSortedBy, IsStrictlySortedBy};
ghost use Rattle.std.specs.Ordering.{is_lt};
ghost use Rattle.gx_values.specs.declared.records.Rec.{Rec as Record};
ghost use Rattle.gx_ports.specs.LeafMaps.{Extends};
ghost use Rattle.gx_mapping.specs.Rule.{In, AreOfKey, IsGathered, part_cmp};
ghost use Rattle.gx_gather.specs.Gather.{gather_cmp, part_for, first_front, is_next, AreAlike, AreDataParts, AreEach, AreMade, AreMadeOf, IsUnmade};

use crate::order::{front, is_same_front, sort_parts};
use crate::recs::Recs;
use gx_mapping::{Mapping, Part, Parts};
use gx_ports::Stop;
use gx_values::{NoMemory, Rec, Value, Values};
use std::alloc::{AllocError, Global};
use std::mem;

/// The block that is reported where records show damage: no record knows from which block it was
/// read.
pub const NO_BLOCK: u32 = 0;

/// Appends the records of one child, as parts of that child. An error is an allocation failure.
pub fn add_parts(child: u16, found: Recs, parts: &mut Parts) -> Result<(), AllocError>
    ensures { OnOk result (parts.new ≡ parts.old ++ map (part_for child) found) }
{
    for rec in found.0 {
        parts.0.push(Part { child, rec })?;
    }
    Ok(())
}

/// Appends the records that these data parts make, in the order of their keys.
///
/// `Damaged`: some of the parts are those of no record; the block is `NO_BLOCK`. `NoMemory`: an
/// allocation failure. After either, records may have been appended, and those before stay.
pub fn gather_parts<M: Mapping>(
    alloc: Global,
    mapping: &M,
    parts: Parts,
    out: &mut Recs,
) -> Result<(), Stop>
    requires { AreDataParts (M.rule mapping.now) parts }
    ensures made { OnOk result
        ((found : List Record) × (out.new ≡ out.old ++ found)
        × AreMade (M.rule mapping.now) parts found) }
    ensures front { Extends out.old out.new }
    ensures damaged { (block : ℕ) → IsErrOf result (Stop.Damaged block) →
        IsUnmade (M.rule mapping.now) (length (M.rule mapping.now).form.keys)
        (IsStrictlySortedBy part_cmp parts) parts }
    ensures block { (n : ℕ) → IsErrOf result (Stop.Damaged n) → n ≡ 0 }
    ensures not_full { ¬ IsErrOf result Stop.Full }
    ensures not_fault { ¬ IsErrOf result Stop.Fault }
{
    let mut parts = parts;
    let width = mapping.form().keys.0.len();
    sort_parts(width, &mut parts.0)?;
    gather_sorted(alloc, mapping, width, parts, out)
}

/// Replaces each of these records of one child by the record that has it as its only data part,
/// under the same key. What is its own part already stays.
///
/// `Damaged`: one of them is the only data part of no record; the block is `NO_BLOCK`. `NoMemory`:
/// an allocation failure. After either, nothing is said of the records.
pub fn gather_each<M: Mapping>(
    alloc: Global,
    mapping: &M,
    child: u16,
    recs: &mut [Rec],
) -> Result<(), Stop>
    requires { (q : Record) → In q recs.old →
        AreOfKey (M.rule mapping.now) q.key (part_for child q ∷ []) }
    ensures made { OnOk result (AreEach (M.rule mapping.now) child recs.old recs.new) }
    ensures damaged { (block : ℕ) → IsErrOf result (Stop.Damaged block) →
        (q : Record) × In q recs.old
        × IsGathered (M.rule mapping.now) q.key (part_for child q ∷ []) None }
    ensures block { (n : ℕ) → IsErrOf result (Stop.Damaged n) → n ≡ 0 }
    ensures not_full { ¬ IsErrOf result Stop.Full }
    ensures not_fault { ¬ IsErrOf result Stop.Fault }
{
    for rec in recs.iter_mut() {
        if !mapping.is_own_part(child, rec) {
            gather_in_place(alloc, mapping, child, rec)?;
        }
    }
    Ok(())
}

// The same of one record.
fn gather_in_place<M: Mapping>(
    alloc: Global,
    mapping: &M,
    child: u16,
    rec: &mut Rec,
) -> Result<(), Stop>
    requires { AreOfKey (M.rule mapping.now) rec.old.key (part_for child rec.old ∷ []) }
    ensures made { OnOk result
        (IsGathered (M.rule mapping.now) rec.old.key (part_for child rec.old ∷ []) (Some rec.new)) }
    ensures damaged { (block : ℕ) → IsErrOf result (Stop.Damaged block) →
        IsGathered (M.rule mapping.now) rec.old.key (part_for child rec.old ∷ []) None }
    ensures block { (n : ℕ) → IsErrOf result (Stop.Damaged n) → n ≡ 0 }
    ensures not_full { ¬ IsErrOf result Stop.Full }
    ensures not_fault { ¬ IsErrOf result Stop.Fault }
{
    let nothing = Rec {
        key: Values(Vec::new(alloc)),
        fields: Values(Vec::new(alloc)),
    };
    let part = Part {
        child,
        rec: mem::replace(rec, nothing),
    };
    match mapping.gather_one(alloc, part)? {
        Some(made) => *rec = made,
        None => return Err(Stop::Damaged(NO_BLOCK)),
    }
    Ok(())
}

// The parts of one record stand together. They are put into a group of their own, where there are
// parts of other records too.
fn gather_sorted<M: Mapping>(
    alloc: Global,
    mapping: &M,
    width: usize,
    parts: Parts,
    out: &mut Recs,
) -> Result<(), Stop>
    requires parts { AreDataParts (M.rule mapping.now) parts }
    requires width { width ≡ length (M.rule mapping.now).form.keys }
    requires in_order { IsSortedBy (λ a b. is_lt (gather_cmp width a b)) parts }
    ensures made { OnOk result
        ((found : List Record) × (out.new ≡ out.old ++ found)
        × AreMadeOf (M.rule mapping.now) parts found) }
    ensures front { Extends out.old out.new }
    ensures damaged { (block : ℕ) → IsErrOf result (Stop.Damaged block) →
        IsUnmade (M.rule mapping.now) width (IsStrictlySortedBy (gather_cmp width) parts) parts }
    ensures block { (n : ℕ) → IsErrOf result (Stop.Damaged n) → n ≡ 0 }
    ensures not_full { ¬ IsErrOf result Stop.Full }
    ensures not_fault { ¬ IsErrOf result Stop.Fault }
{
    if is_one_group(width, &parts.0) {
        let mut parts = parts;
        return gather_group(alloc, mapping, width, &mut parts, out);
    }
    let mut group = Parts(Vec::new(alloc));
    for part in parts.0 {
        if begins_next(width, &group.0, &part) {
            gather_group(alloc, mapping, width, &mut group, out)?;
            group.0.clear();
        }
        group.0.push(part)?;
    }
    if group.0.is_empty() {
        return Ok(());
    }
    gather_group(alloc, mapping, width, &mut group, out)
}

// Whether there are parts, and all of one record: so it is where one was looked for by its key.
fn is_one_group(width: usize, parts: &[Part]) -> bool
    ensures some { result ≡ true → 0 < length parts.now }
    ensures alike { result ≡ true → AreAlike width parts.now }
{
    for i in 0..parts.len() {
        if begins_next(width, parts, &parts[i]) {
            return false;
        }
    }
    !parts.is_empty()
}

// Whether a part is of another record than those of a group.
fn begins_next(width: usize, group: &[Part], part: &Part) -> bool
    ensures { result ≡ is_next width group.now part.now }
{
    match group.first() {
        Some(first) => !is_same_front(width, &first.rec.key.0, &part.rec.key.0),
        None => false,
    }
}

// Appends the record of a group of parts. Nothing is said of what is left of the group.
fn gather_group<M: Mapping>(
    alloc: Global,
    mapping: &M,
    width: usize,
    group: &mut Parts,
    out: &mut Recs,
) -> Result<(), Stop>
    requires some { 0 < length group.old }
    requires of_key { AreOfKey (M.rule mapping.now) (first_front width group.old) group.old }
    ensures made { OnOk result
        ((r : Record) × (out.new ≡ out.old ++ r ∷ [])
        × IsGathered (M.rule mapping.now) (first_front width group.old) group.old (Some r)) }
    ensures front { Extends out.old out.new }
    ensures damaged { (block : ℕ) → IsErrOf result (Stop.Damaged block) →
        IsGathered (M.rule mapping.now) (first_front width group.old) group.old None }
    ensures block { (n : ℕ) → IsErrOf result (Stop.Damaged n) → n ≡ 0 }
    ensures not_full { ¬ IsErrOf result Stop.Full }
    ensures not_fault { ¬ IsErrOf result Stop.Fault }
{
    let made = match take_alone(width, group) {
        Some(part) => mapping.gather_one(alloc, part)?,
        None => gather_several(alloc, mapping, width, group)?,
    };
    match made {
        Some(rec) => out.0.push(rec)?,
        None => return Err(Stop::Damaged(NO_BLOCK)),
    }
    Ok(())
}

// Takes out the part where it is alone, and its key no longer than a record's.
fn take_alone(width: usize, group: &mut Parts) -> Option<Part>
    ensures some { IfSome result (λ p.
        (group.old ≡ p ∷ []) × (first_front width group.old ≡ p.rec.key)) }
    ensures none { IfNone result (group.new ≡ group.old) }
{
    match group.0.as_slice() {
        [part] if part.rec.key.0.len() <= width => group.0.pop(),
        _ => None,
    }
}

// The record of a group of parts.
fn gather_several<M: Mapping>(
    alloc: Global,
    mapping: &M,
    width: usize,
    group: &Parts,
) -> Result<Option<Rec>, NoMemory>
    requires some { 0 < length group.now }
    requires of_key { AreOfKey (M.rule mapping.now) (first_front width group.now) group.now }
    ensures { IfOk result
        (IsGathered (M.rule mapping.now) (first_front width group.now) group.now) }
{
    let first = &group.0[0].rec.key;
    if first.0.len() <= width {
        return mapping.gather(alloc, first, group);
    }
    let key = copy_front(alloc, width, &first.0)?;
    mapping.gather(alloc, &key, group)
}

// The key that a part's key begins with.
fn copy_front(alloc: Global, width: usize, key: &[Value]) -> Result<Values, NoMemory>
    ensures { IfOk result (λ copy. copy ≡ take width key.now) }
{
    let key = front(width, key);
    let mut values = Vec::with_capacity(alloc, key.len())?;
    for value in key {
        values.push(value.copy(alloc)?)?;
    }
    Ok(Values(values))
}
