// Records that have one leaf entry each, under their own key: one is changed at its one place.
ghost use Rattle.std.specs.Prelude.{◌≡◌, length, is_some, IfOk};
ghost use Rattle.std.specs.FinMap as fin;
ghost use Rattle.gx_values.specs.Keys.{bytes_of};
ghost use Rattle.gx_ports.specs.Calls.{ReadsMaps};
ghost use Rattle.gx_stack.specs.Seen.{tree_of};
ghost use Rattle.gx_model.specs.States.{File as FileMap};
ghost use Rattle.gx_scan.specs.Files.{IsInternal as IsStored};
ghost use Rattle.gx_entries.specs.Entries.{AreOwnLeaves, IsOnlyLeaf};
ghost use Rattle.gx_edits.specs.OneRecord.{CanTake, CanPut, Takes, Puts};
ghost use Rattle.gx_edits.specs.Records.{CanEdit};

use crate::one_record::RecordData;
use gx_entries::{OwnLeaves, only_body};
use gx_ports::{Entries, Leaves, Stop};
use gx_schema::FileDef;
use gx_stack::Node;
use gx_types::AnyMapping;
use gx_values::{Span, Value};
use std::alloc::Global;

/// Whether the file has a record with this key, by the span of the key. Each of its records has an
/// entry in the first of the node's own leaves: its values needn't be read.
pub(crate) fn is_there<B: Leaves>(
    alloc: Global,
    file: &FileDef,
    node: &Node<AnyMapping>,
    own: OwnLeaves,
    key: &Value,
    span: &Span,
    leaves: &mut B,
) -> Result<bool, Stop>
    requires can { CanEdit file.now (tree_of node.now) (length (B.working leaves.old)) key.now }
    requires own { AreOwnLeaves (tree_of node.now) own.first own.second }
    requires lo { span.now.lo ≡ bytes_of key.now }
    requires hi { span.now.hi ≡ bytes_of key.now }
    ensures there { (f : FileMap) → B.whole leaves.old →
        IsStored file.now (tree_of node.now) (B.working leaves.old) f →
        IfOk result (λ there. there ≡ is_some (fin.get f key.now)) }
    ensures reads { ReadsMaps B.View (B.whole leaves.old) leaves.old leaves.new result }
{
    let (_, _, _) = (file, node, key);
    let mut entries = Entries::new(alloc);
    leaves.select(alloc, own.first, span, &mut entries)?;
    Ok(!entries.is_empty())
}

/// Takes the record with this key, by the span of the key, out of the only leaf of a node.
pub(crate) fn take_alone<B: Leaves>(
    alloc: Global,
    node: &Node<AnyMapping>,
    leaf: u32,
    key: &Value,
    span: &Span,
    leaves: &mut B,
) -> Result<(), Stop>
    requires can { CanTake (tree_of node.now) (length (B.working leaves.old)) key.now span.now.lo }
    requires only { IsOnlyLeaf (tree_of node.now) leaf }
    ensures { Takes B.View (tree_of node.now) key.now leaves.old leaves.new result }
{
    let (_, _) = (node, key);
    leaves.remove(alloc, leaf, span.lo.as_slice())
}

/// Puts the record into the only leaf of a node, in the place of what is there at the key.
pub(crate) fn put_alone<B: Leaves>(
    alloc: Global,
    node: &Node<AnyMapping>,
    leaf: u32,
    new: RecordData,
    leaves: &mut B,
) -> Result<(), Stop>
    requires can { CanPut (tree_of node.now) (length (B.working leaves.old)) new }
    requires only { IsOnlyLeaf (tree_of node.now) leaf }
    ensures { Puts B.View (tree_of node.now) new.entry.key.now new.entry.fields (λ gone. Unit {0})
        leaves.old leaves.new result }
{
    let body = only_body(alloc, node, new.fields)?;
    leaves.put(alloc, leaf, new.bytes.as_slice(), body.as_slice())
}
