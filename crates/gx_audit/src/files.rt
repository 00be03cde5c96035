// The records of the files of a schema.
ghost use Rattle.std.specs.Prelude.{◌≡◌, ◌<◌, length, map, IfSome, IfOk};
ghost use Rattle.gx_values.specs.declared.records.Rec.{Rec as Record};
ghost use Rattle.gx_ports.specs.Calls.{ReadsMaps};
ghost use Rattle.gx_mapping.specs.Rule.{In, IsOf};
ghost use Rattle.gx_stack.specs.Seen.{tree_of};
ghost use Rattle.gx_stack.specs.Held.{AreCounts};
ghost use Rattle.gx_typing.specs.Dues.{file_form};
ghost use Rattle.gx_scan.specs.Files.{IsStorable, IsTreeFor};
ghost use Rattle.gx_scan.specs.Within.{row_of};
ghost use Rattle.gx_states.specs.Internal.{AreFor};
ghost use Rattle.gx_audit.specs.Audits.{AreKeys, AreAllKeys};

use gx_gather::Recs;
use gx_ports::{Leaves, Stop};
use gx_scan::into_row;
use gx_schema::{FileDef, Schema};
use gx_stack::Node;
use gx_types::{AnyMapping, Built};
use gx_values::Values;
use std::alloc::{AllocError, Global};
use std::marker::Model;

/// The keys of the records of each file, in the order of the files, seen as lists. Those of one
/// file ascend.
#[derive(Drop)]
pub(crate) struct FileKeys(pub(crate) Vec<Values>);

impl Model for FileKeys {
    ghost use Rattle.std.specs.Prelude.{List};
    ghost use Rattle.gx_values.specs.declared.values.Value.{Value as FieldValue};

    ghost Value = { List (List FieldValue) };

    ghost view = { λ k. k.0.items };
}

/// The keys of the records of each file. `None`: the leaves of some file's node hold no valid file.
pub(crate) fn file_keys<B: Leaves>(
    alloc: Global,
    schema: &Schema,
    built: &Built,
    leaves: &mut B,
    entries: &mut [Option<usize>],
) -> Result<Option<FileKeys>, Stop>
    requires { AreFor schema.now built.now (length (B.working leaves.old)) }
    ensures keys { IfOk result
        (AreAllKeys schema.now built.now.files (B.whole leaves.old) (B.working leaves.old)) }
    ensures many { IfOk result
        (λ found. IfSome found (λ keys. length keys ≡ length schema.now.files)) }
    ensures entries { B.whole leaves.old → AreCounts (B.working leaves.old) entries.old →
        AreCounts (B.working leaves.old) entries.new }
    ensures reads { ReadsMaps B.View (B.whole leaves.old) leaves.old leaves.new result }
{
    let mut keys = Vec::new(alloc);
    for file in 0..built.files.0.len() {
        let def = &schema.files.0[file];
        let Some(found) = node_keys(alloc, leaves, def, &built.files.0[file], entries)? else {
            return Ok(None);
        };
        keys.push(found)?;
    }
    Ok(Some(FileKeys(keys)))
}

// The keys of the records that a file's node holds. `None`: it holds no valid file.
fn node_keys<B: Leaves>(
    alloc: Global,
    leaves: &mut B,
    file: &FileDef,
    node: &Node<AnyMapping>,
    entries: &mut [Option<usize>],
) -> Result<Option<Values>, Stop>
    requires storable { IsStorable file.now }
    requires tree { IsTreeFor file.now (tree_of node.now) (length (B.working leaves.old)) }
    ensures keys { IfOk result
        (AreKeys file.now (tree_of node.now) (B.whole leaves.old) (B.working leaves.old)) }
    ensures entries { B.whole leaves.old → AreCounts (B.working leaves.old) entries.old →
        AreCounts (B.working leaves.old) entries.new }
    ensures reads { ReadsMaps B.View (B.whole leaves.old) leaves.old leaves.new result }
{
    match node.held(alloc, leaves, entries)? {
        Some(records) => Ok(Some(keys_of(alloc, file, records)?)),
        None => Ok(None),
    }
}

// The keys of records of a file.
fn keys_of(alloc: Global, file: &FileDef, records: Recs) -> Result<Values, AllocError>
    requires keyed { 0 < length file.now.fields }
    requires fit { (r : Record) → In r records → IsOf (file_form file.now) r }
    ensures { IfOk result (λ keys. keys ≡ map (λ r. (row_of r).0) records) }
{
    let mut keys = Vec::new(alloc);
    for record in records.0 {
        keys.push(into_row(file, record).key)?;
    }
    Ok(Values(keys))
}
