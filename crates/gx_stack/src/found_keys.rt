// The keys of records that are found by an indexed field.
ghost use Rattle.std.specs.Prelude.{◌≡◌, ◌<◌, ◌++◌, true, Some, ℕ, length, map, drop, OnOk};
ghost use Rattle.gx_values.specs.Values.{kind_in};
ghost use Rattle.gx_values.specs.declared.values.Kind.{Kind as TheKind};
ghost use Rattle.gx_values.specs.declared.records.Rec.{Rec as Record};
ghost use Rattle.gx_values.specs.Spans.{IsValueSpan};
ghost use Rattle.gx_ports.specs.LeafMaps.{Extends};
ghost use Rattle.gx_ports.specs.Calls.{ReadsMaps};
ghost use Rattle.gx_mapping.specs.Rule.{In};
ghost use Rattle.gx_stack.specs.Tree.{leaves_of, tree_form, IsValid};
ghost use Rattle.gx_stack.specs.Seen.{tree_of};
ghost use Rattle.gx_stack.specs.Internal.{HasSet};
ghost use Rattle.gx_stack.specs.Indexed.{is_indexed, AreKeysFound};

use crate::keys::Keys;
use crate::node::Node;
use gx_gather::Recs;
use gx_mapping::Mapping;
use gx_ports::{Leaves, Stop};
use gx_values::{Name, Span};
use std::alloc::{AllocError, Global};

impl<M: Mapping> Node<M> {
    /// Appends the keys of the records whose field's key bytes are inside the span, each once and
    /// in any order. The field is indexed, so that no other records are read.
    ///
    /// `Damaged`: some leaf's stored form isn't whole, or the leaves hold no set of records, which
    /// is said of block 0. `Fault`: the count of faults rose; with any other answer it stays.
    /// `NoMemory`: there was none. After a refusal `out` may have more at its end.
    pub fn keys_where<B: Leaves>(
        &self,
        alloc: Global,
        leaves: &mut B,
        field: &Name,
        span: &Span,
        out: &mut Keys,
    ) -> Result<(), Stop>
        requires valid { IsValid M.rule (tree_of self.now) }
        requires below { (n : ℕ) → In n (leaves_of (tree_of self.now)) →
            n < length (B.working leaves.old) }
        requires indexed { is_indexed M.rule (tree_of self.now) field.now ≡ true }
        requires span { (kind : TheKind) →
            kind_in (tree_form M.rule (tree_of self.now)).fields field.now ≡ Some kind →
            IsValueSpan kind span.now }
        ensures found { OnOk result
            (AreKeysFound M.rule (tree_of self.now) field.now span.now (B.whole leaves.old)
            (B.working leaves.old) (B.work leaves.old) (B.work leaves.new) out.old out.new) }

        ensures front { Extends out.old out.new }

        ensures reads { ReadsMaps B.View
            (B.whole leaves.old × HasSet M.rule (tree_of self.now) (B.working leaves.old))
            leaves.old leaves.new result }
    {
        match self {
            Node::Leaf(_) => Ok(()),
            Node::Layer(layer) => {
                if let Some(child) = layer.mapping.indexes(field) {
                    let mut found = Recs::new(alloc);
                    let kid = &layer.kids[child as usize];
                    kid.select(alloc, leaves, span, &mut found)?;
                    add_keys(found, out)?;
                    return Ok(());
                }
                for child in 0..layer.mapping.kids() {
                    if layer.mapping.carries(child, field) {
                        let kid = &layer.kids[child as usize];
                        kid.keys_where(alloc, leaves, field, span, out)?;
                    }
                }
                Ok(())
            }
        }
    }
}

// Appends the keys of the records that an index has found: what follows the field's value.
fn add_keys(found: Recs, out: &mut Keys) -> Result<(), AllocError>
    requires { (r : Record) → In r found → 0 < length r.key }
    ensures keys { OnOk result (out.new ≡ out.old ++ map (λ r. drop 1 r.key) found) }
    ensures front { Extends out.old out.new }
{
    for rec in found.0 {
        let mut key = rec.key;
        key.0.remove(0);
        out.0.push(key)?;
    }
    Ok(())
}
