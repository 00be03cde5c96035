// Finding by entries: where records stand whole in leaves, conditions are tested on the bytes of
// entries.
ghost use Rattle.std.specs.Prelude.{◌≡◌, ◌≤◌, ◌+◌, ◌∷◌, ◌++◌, [], length, filter, OnOk};
ghost use Rattle.std.specs.List.{AllByRecursion};
ghost use Rattle.gx_values.specs.Values.{Fits};
ghost use Rattle.gx_schema.specs.Lookups.{key_kind};
ghost use Rattle.gx_ports.specs.Calls.{ReadsMaps};
ghost use Rattle.gx_ports.specs.LeafMaps.{Extends};
ghost use Rattle.gx_stack.specs.Seen.{tree_of};
ghost use Rattle.gx_model.specs.States.{File as FileMap, IsRowOf};
ghost use Rattle.gx_scan.specs.Files.{IsInternal, HasFile, IsStorable, IsTreeFor};
ghost use Rattle.gx_scan.specs.Entries.{ArePlaces, IsPlaceOf, rows_at};
ghost use Rattle.gx_scan.specs.Within.{is_within};
ghost use Rattle.gx_scan.specs.Steps.{is_key_inside};
ghost use Rattle.gx_scan.specs.Search.{AddsWithin, AddsAtKey};

use crate::coded::add_rows_at;
use crate::places::Place;
use crate::records::set_key;
use gx_commands::Cond;
use gx_gather::NO_BLOCK;
use gx_ports::{Entries, Leaves, Stop};
use gx_rows::Row;
use gx_schema::FileDef;
use gx_stack::{Node, whole_span};
use gx_types::AnyMapping;
use gx_values::{Span, Value};
use std::alloc::Global;

/// In so many leaves an entry is looked for as fast as the node puts a record together. Of more
/// leaves, the node asks those alone that may have the key.
pub(crate) const FEW_PLACES: usize = 3;

/// What is used again where one key after another is looked up.
#[derive(Drop)]
pub(crate) struct KeyProbe {
    /// the span of the key
    span: Span,
    /// the entries there
    entries: Entries,
}

impl KeyProbe {
    /// One that has no key yet.
    pub(crate) fn new(alloc: Global) -> KeyProbe {
        KeyProbe {
            span: whole_span(),
            entries: Entries::new(alloc),
        }
    }
}

/// Appends the records of the file within the span that meet the conditions, in the order of the
/// places, which are those of the node. The entries are a buffer: what stood there is gone, and
/// nothing is said of what is left.
pub(crate) fn add_by_entries<B: Leaves>(
    alloc: Global,
    file: &FileDef,
    node: &Node<AnyMapping>,
    places: &[Place],
    span: &Span,
    conds: &[Cond],
    leaves: &mut B,
    entries: &mut Entries,
    rows: &mut Vec<Row>,
) -> Result<(), Stop>
    requires places { ArePlaces 0 (tree_of node.now) places.now }
    requires tree { IsTreeFor file.now (tree_of node.now) (length (B.working leaves.old)) }
    requires storable { IsStorable file.now }
    ensures adds { AddsWithin B.View file.now (tree_of node.now) span.now conds.now leaves.old
        leaves.new rows.old.items rows.new.items result }
    ensures fit { AllByRecursion (IsRowOf file.now) rows.old.items →
        AllByRecursion (IsRowOf file.now) rows.new.items }
{
    for place in places {
        add_at(alloc, file, node, place, span, conds, leaves, entries, rows)?;
    }
    Ok(())
}

/// Appends the record at a key, where there is one and it meets the conditions.
pub(crate) fn add_at_key<B: Leaves>(
    alloc: Global,
    file: &FileDef,
    node: &Node<AnyMapping>,
    places: &[Place],
    key: &Value,
    probe: &mut KeyProbe,
    conds: &[Cond],
    leaves: &mut B,
    rows: &mut Vec<Row>,
) -> Result<(), Stop>
    requires places { ArePlaces 0 (tree_of node.now) places.now }
    requires tree { IsTreeFor file.now (tree_of node.now) (length (B.working leaves.old)) }
    requires storable { IsStorable file.now }
    requires key { Fits (key_kind file.now) key.now }
    ensures adds { AddsAtKey B.View file.now (tree_of node.now) (key.now ∷ []) conds.now leaves.old
        leaves.new rows.old.items rows.new.items result }
    ensures fit { AllByRecursion (IsRowOf file.now) rows.old.items →
        AllByRecursion (IsRowOf file.now) rows.new.items }
{
    set_key(&mut probe.span, key);
    add_by_entries(
        alloc,
        file,
        node,
        places,
        &probe.span,
        conds,
        leaves,
        &mut probe.entries,
        rows,
    )
}

// Appends those in one leaf, in the order of their keys.
fn add_at<B: Leaves>(
    alloc: Global,
    file: &FileDef,
    node: &Node<AnyMapping>,
    place: &Place,
    span: &Span,
    conds: &[Cond],
    leaves: &mut B,
    entries: &mut Entries,
    rows: &mut Vec<Row>,
) -> Result<(), Stop>
    requires place { IsPlaceOf (tree_of node.now) place.now }
    requires tree { IsTreeFor file.now (tree_of node.now) (length (B.working leaves.old)) }
    requires storable { IsStorable file.now }
    ensures rows { (f : FileMap) → B.whole leaves.old →
        IsInternal file.now (tree_of node.now) (B.working leaves.old) f → OnOk result
        (rows.new.items
        ≡ rows.old.items ++ filter (is_within span.now conds.now)
        (rows_at (tree_of node.now) place.now.leaf f)) }
    ensures steps { (f : FileMap) → B.whole leaves.old →
        IsInternal file.now (tree_of node.now) (B.working leaves.old) f → OnOk result
        (B.work leaves.new
        ≤ B.work leaves.old
        + (1 + length (filter (is_key_inside span.now)
        (rows_at (tree_of node.now) place.now.leaf f)))) }
    ensures front { Extends rows.old.items rows.new.items }
    ensures fit { AllByRecursion (IsRowOf file.now) rows.old.items →
        AllByRecursion (IsRowOf file.now) rows.new.items }
    ensures reads { ReadsMaps B.View
        (B.whole leaves.old × HasFile file.now (tree_of node.now) (B.working leaves.old))
        leaves.old leaves.new result }
{
    node.internal_is_union();
    entries.clear();
    leaves.select(alloc, place.leaf, span, entries)?;
    if add_rows_at(alloc, file, place, conds, entries, rows)? {
        Ok(())
    } else {
        Err(Stop::Damaged(NO_BLOCK))
    }
}
