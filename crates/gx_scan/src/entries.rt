// The entries of a place within a span, and the record of an entry's key and values where it meets
// conditions: what is the same where the entries of several leaves, or several of one, are joined.
ghost use Rattle.std.specs.Prelude.{◌≡◌, ◌<◌, ◌+◌, ◌++◌, ◌∷◌, [], length, filter, true, IfOk, OnOk};
ghost use Rattle.std.specs.List.{AllByRecursion};
ghost use Rattle.gx_values.specs.Keys.{bytes_of};
ghost use Rattle.gx_ports.specs.Calls.{ReadsMaps};
ghost use Rattle.gx_ports.specs.LeafMaps.{Extends, selected, map_at, counted};
ghost use Rattle.gx_actual.specs.Bodies.{body_of};
ghost use Rattle.gx_model.specs.States.{Row as TheRow, IsRowOf};
ghost use Rattle.gx_model.specs.Found.{meets_conds};
ghost use Rattle.gx_scan.specs.Files.{IsStorable};

use crate::places::Place;
use crate::scan::{meets_all, read_row};
use gx_commands::Cond;
use gx_ports::{Entries, Leaves, Stop};
use gx_rows::Row;
use gx_schema::FileDef;
use gx_values::{NoMemory, Span};
use std::alloc::Global;

/// Room for the body of a record of some short texts: most grow no further.
pub(crate) const PLAIN_ROOM: usize = 128;

/// The entries of a place within the span, in the order of their keys.
pub(crate) fn entries_at<B: Leaves>(
    alloc: Global,
    place: &Place,
    span: &Span,
    leaves: &mut B,
) -> Result<Entries, Stop>
    requires { place.now.leaf < length (B.working leaves.old) }
    ensures entries { B.whole leaves.old → IfOk result (λ found. found
        ≡ selected span.now.lo span.now.hi (map_at (B.working leaves.old) place.now.leaf)) }
    ensures steps { IfOk result (λ found. B.work leaves.new
        ≡ counted (B.work leaves.old) (1 + length found)) }
    ensures reads { ReadsMaps B.View (B.whole leaves.old) leaves.old leaves.new result }
{
    let mut entries = Entries::new(alloc);
    select_at(alloc, place, span, leaves, &mut entries)?;
    Ok(entries)
}

/// Puts the entries of a place within the span in the stead of what stood in the buffer.
pub(crate) fn select_at<B: Leaves>(
    alloc: Global,
    place: &Place,
    span: &Span,
    leaves: &mut B,
    entries: &mut Entries,
) -> Result<(), Stop>
    requires { place.now.leaf < length (B.working leaves.old) }
    ensures entries { B.whole leaves.old → OnOk result
        (entries.new
        ≡ selected span.now.lo span.now.hi (map_at (B.working leaves.old) place.now.leaf)) }
    ensures steps { OnOk result
        (B.work leaves.new ≡ counted (B.work leaves.old) (1 + length entries.new)) }
    ensures reads { ReadsMaps B.View (B.whole leaves.old) leaves.old leaves.new result }
{
    entries.clear();
    leaves.select(alloc, place.leaf, span, entries)?;
    Ok(())
}

/// Appends the record with this key and these bytes of its values, if it meets the conditions, and
/// answers whether it is one. `NoMemory`: there was none for the record.
pub(crate) fn add_met(
    alloc: Global,
    file: &FileDef,
    conds: &[Cond],
    key: &[u8],
    body: &[u8],
    rows: &mut Vec<Row>,
) -> Result<bool, NoMemory>
    requires { IsStorable file.now }
    ensures chosen { (r : TheRow) → IsRowOf file.now r → key.now ≡ bytes_of r.0 →
        body.now ≡ body_of r.1 → IfOk result (λ is. (is ≡ true)
        × (rows.new.items ≡ rows.old.items ++ filter (meets_conds conds.now) (r ∷ []))) }
    ensures front { Extends rows.old.items rows.new.items }
    ensures fit { AllByRecursion (IsRowOf file.now) rows.old.items →
        AllByRecursion (IsRowOf file.now) rows.new.items }
{
    let Some(is_met) = meets_all(file, conds, key, body) else {
        return Ok(false);
    };
    if !is_met {
        return Ok(true);
    }
    let Some(row) = read_row(alloc, file, key, body)? else {
        return Ok(false);
    };
    rows.push(row)?;
    Ok(true)
}
