// The answer of a `find`.
ghost use Rattle.std.specs.Prelude.{◌≡◌, ◌^◌, ◌<◌, ◌≤◌, ◌+◌, [], ℕ, length, IfOk, OnOk};
ghost use Rattle.std.specs.List.{AllByRecursion};
ghost use Rattle.gx_commands.specs.Commands.{IsCondOf};
ghost use Rattle.gx_ports.specs.Calls.{ReadsMaps};
ghost use Rattle.gx_stack.specs.Seen.{tree_of};
ghost use Rattle.gx_model.specs.States.{File as FileMap};
ghost use Rattle.gx_model.specs.Found.{IsListed, meets_conds};
ghost use Rattle.gx_model.specs.Commands.{IsListText};
ghost use Rattle.gx_scan.specs.Files.{IsInternal, HasFile, IsStorable, IsTreeFor};
ghost use Rattle.gx_scan.specs.Where.{AreNamed};
ghost use Rattle.gx_scan.specs.Steps.{HaveAtMost};
ghost use Rattle.gx_finds.specs.Looked.{plan_bound, AddsFound};

use crate::by_index::{add_by_index, indexed_fields};
use crate::by_key::{add_by_key, condition_at};
use gx_commands::Find;
use gx_planner::{Plan, plan};
use gx_ports::{Leaves, Stop};
use gx_rows::{Row, records_text, sort_rows};
use gx_scan::rows_within;
use gx_schema::FileDef;
use gx_stack::{Node, whole_span};
use gx_types::AnyMapping;
use gx_values::Octets;
use std::alloc::Global;

/// The answer of a `find` on a file: the records that meet its conditions, in its order.
pub fn found_text<B: Leaves>(
    alloc: Global,
    file: &FileDef,
    node: &Node<AnyMapping>,
    find: &Find,
    leaves: &mut B,
) -> Result<Octets, Stop>
    requires tree { IsTreeFor file.now (tree_of node.now) (length (B.working leaves.old)) }
    requires storable { IsStorable file.now }
    requires named { AreNamed file.now }
    requires conds { AllByRecursion (IsCondOf file.now) find.now.conds }
    requires few { length find.now.conds < 2 ^ 16 }
    ensures listed { (f : FileMap) → B.whole leaves.old →
        IsInternal file.now (tree_of node.now) (B.working leaves.old) f →
        IfOk result (IsListText file.now f (meets_conds find.now.conds) find.now.order) }
    ensures steps { (f : FileMap) (most : ℕ) → B.whole leaves.old →
        IsInternal file.now (tree_of node.now) (B.working leaves.old) f →
        HaveAtMost most (tree_of node.now) f → OnOk result
        (B.work leaves.new
        ≤ B.work leaves.old + plan_bound (tree_of node.now) file.now find.now f most) }
    ensures reads { ReadsMaps B.View
        (B.whole leaves.old × HasFile file.now (tree_of node.now) (B.working leaves.old))
        leaves.old leaves.new result }
{
    let rows = found_rows(alloc, file, node, find, leaves)?;
    Ok(records_text(alloc, file, &rows)?)
}

/// The records of a file that meet the conditions of a `find`, in its order.
pub fn found_rows<B: Leaves>(
    alloc: Global,
    file: &FileDef,
    node: &Node<AnyMapping>,
    find: &Find,
    leaves: &mut B,
) -> Result<Vec<Row>, Stop>
    requires tree { IsTreeFor file.now (tree_of node.now) (length (B.working leaves.old)) }
    requires storable { IsStorable file.now }
    requires named { AreNamed file.now }
    requires conds { AllByRecursion (IsCondOf file.now) find.now.conds }
    requires few { length find.now.conds < 2 ^ 16 }
    ensures listed { (f : FileMap) → B.whole leaves.old →
        IsInternal file.now (tree_of node.now) (B.working leaves.old) f →
        IfOk result (λ rows. IsListed f (meets_conds find.now.conds) find.now.order rows.items) }
    ensures steps { (f : FileMap) (most : ℕ) → B.whole leaves.old →
        IsInternal file.now (tree_of node.now) (B.working leaves.old) f →
        HaveAtMost most (tree_of node.now) f → OnOk result
        (B.work leaves.new
        ≤ B.work leaves.old + plan_bound (tree_of node.now) file.now find.now f most) }
    ensures reads { ReadsMaps B.View
        (B.whole leaves.old × HasFile file.now (tree_of node.now) (B.working leaves.old))
        leaves.old leaves.new result }
{
    let mut rows = Vec::new(alloc);
    add_found(alloc, file, node, find, leaves, &mut rows)?;
    sort_rows(&mut rows, find.order)?;
    Ok(rows)
}

// Appends the records that meet the conditions to none, in any order. The plan says which records
// are looked at, and each of them is tested for all conditions.
fn add_found<B: Leaves>(
    alloc: Global,
    file: &FileDef,
    node: &Node<AnyMapping>,
    find: &Find,
    leaves: &mut B,
    rows: &mut Vec<Row>,
) -> Result<(), Stop>
    requires tree { IsTreeFor file.now (tree_of node.now) (length (B.working leaves.old)) }
    requires storable { IsStorable file.now }
    requires named { AreNamed file.now }
    requires conds { AllByRecursion (IsCondOf file.now) find.now.conds }
    requires few { length find.now.conds < 2 ^ 16 }
    requires none { rows.old.items ≡ [] }
    ensures { AddsFound B.View file.now (tree_of node.now) find.now.conds
        (plan_bound (tree_of node.now) file.now find.now) leaves.old leaves.new
        rows.old.items rows.new.items result }
{
    let conds = find.conds.0.as_slice();
    let indexed = indexed_fields(alloc, file, node)?;
    match plan(find, &indexed) {
        Plan::Key(number) | Plan::KeyRange(number) => {
            let on_key = condition_at(find, number);
            add_by_key(alloc, file, node, on_key, conds, leaves, rows)
        }
        Plan::Index(number) | Plan::IndexRange(number) => {
            let on_index = condition_at(find, number);
            add_by_index(alloc, file, node, on_index, conds, leaves, rows)
        }
        Plan::Link | Plan::Scan => {
            rows_within(alloc, file, node, &whole_span(), conds, leaves, rows)
        }
    }
}
