// Single records of nodes.
ghost use Rattle.std.specs.Prelude.{◌≡◌, ◌<◌, ◌∷◌, [], ℕ, length, slice_get, IfOk};
ghost use Rattle.gx_values.specs.Values.{Fits, first_kind};
ghost use Rattle.gx_values.specs.Spans.{IsSpanKind};
ghost use Rattle.gx_ports.specs.Calls.{ReadsMaps};
ghost use Rattle.gx_mapping.specs.Rule.{In};
ghost use Rattle.gx_stack.specs.Tree.{leaves_of, tree_form, IsValid};
ghost use Rattle.gx_stack.specs.Seen.{tree_of};
ghost use Rattle.gx_stack.specs.Internal.{HasSet};
ghost use Rattle.gx_links.specs.Kinds.{kinds_of};
ghost use Rattle.gx_ring.specs.Reads.{IsRecordAt};

use gx_gather::Recs;
use gx_links::value_span;
use gx_mapping::Mapping;
use gx_ports::{Leaves, Stop};
use gx_stack::Node;
use gx_values::{Rec, Value};
use std::alloc::Global;

// The record at a key of one value, where there is one.
pub fn record_at<M: Mapping, B: Leaves>(
    alloc: Global,
    leaves: &mut B,
    node: &Node<M>,
    key: &Value,
) -> Result<Option<Rec>, Stop>
    requires valid { IsValid M.rule (tree_of node.now) }
    requires below { (n : ℕ) → In n (leaves_of (tree_of node.now)) →
        n < length (B.working leaves.old) }
    requires one { kinds_of (tree_form M.rule (tree_of node.now)).keys
        ≡ first_kind (tree_form M.rule (tree_of node.now)).keys ∷ [] }
    requires kind { IsSpanKind (first_kind (tree_form M.rule (tree_of node.now)).keys) }
    requires fits { Fits (first_kind (tree_form M.rule (tree_of node.now)).keys) key.now }
    ensures found { IfOk result
        (IsRecordAt M.rule (tree_of node.now) (B.whole leaves.old) (B.working leaves.old) key.now
        (B.work leaves.old) (B.work leaves.new)) }
    ensures reads { ReadsMaps B.View
        (B.whole leaves.old × HasSet M.rule (tree_of node.now) (B.working leaves.old))
        leaves.old leaves.new result }
{
    let mut found = Recs::new(alloc);
    let span = value_span(node.form(), key);
    node.select(alloc, leaves, &span, &mut found)?;
    Ok(first_rec(found))
}

fn first_rec(found: Recs) -> Option<Rec>
    ensures { result ≡ slice_get found 0 }
{
    found.0.into_iter().next()
}
