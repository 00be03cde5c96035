// Nodes: trees of mappings, with leaves below.
ghost use Rattle.std.specs.Prelude.{◌≡◌, ◌<◌, ◌≤◌, ◌++◌, ◌∷◌, [], ◌↔◌, List, ℕ, Option, None, true, length, take, drop, OnOk, IsErrOf, IfOk};
ghost use Rattle.gx_ports.specs.LeafMaps.{LeafMap, Extends};
ghost use Rattle.gx_ports.specs.Calls.{ReadsMaps};
ghost use Rattle.gx_values.specs.declared.records.Rec.{Rec as Record};
ghost use Rattle.gx_mapping.specs.Rule.{In, IsOf, AreOfKey, IsGathered};
ghost use Rattle.gx_gather.specs.Gather.{part_for, AreEach};
ghost use Rattle.gx_stack.specs.Tree.{leaves_of, tree_form, entries_of, IsValid};
ghost use Rattle.gx_stack.specs.Seen.{tree_of};
ghost use Rattle.gx_stack.specs.Internal.{IsSet, IsInternal, IsUnion, IsChange, IfThere, HasSet, AreOfOne, changed, entries_if};
ghost use Rattle.gx_stack.specs.Replaces.{Replaces};
ghost use Rattle.gx_stack.specs.Selected.{IsKeySpan, IsFound};

use crate::entries::{
    LeafEntry, body_entry, body_record, into_entry, leaf_entry, put_new, remove_others,
};
use crate::read::select_leaf;
use crate::searched::is_searched;
use gx_gather::{Recs, add_parts, gather_each, gather_parts};
use gx_mapping::{Mapping, Parts, Whole};
use gx_ports::{Leaves, Stop};
use gx_values::{Form, NoMemory, Rec, Span};
use std::alloc::Global;

/// A tree of mappings. It holds the records of one form as the entries of its leaves.
#[cycle(node)]
#[derive(Drop)]
pub enum Node<M: Mapping> {
    /// one leaf, which holds the records themselves
    Leaf(LeafNode),
    /// a mapping, whose children hold the parts of the records
    Layer(LayerNode<M>),
}

/// A leaf of a tree.
#[derive(Drop)]
pub struct LeafNode {
    /// its number among all leaves
    pub leaf: u32,
    /// the form of its records: their data are the bytes of one field, or nothing
    pub form: Form,
}

/// A mapping and its children.
#[cycle(node)]
#[derive(Drop)]
pub struct LayerNode<M: Mapping> {
    pub mapping: M,
    /// a node for each child of the mapping
    pub kids: Vec<Node<M>>,
}

impl<M: Mapping> Node<M> {
    /// What the leaves hold for a set of records is said in two ways that are one: child by child,
    /// and as the union of the leaf entries that come from the records. It does nothing.
    pub fn internal_is_union(&self)
        requires { IsValid M.rule (tree_of self.now) }
        ensures { (R : List Record) (maps : List LeafMap) →
            IsInternal M.rule (tree_of self.now) R maps ↔ IsUnion M.rule (tree_of self.now) R maps }
    {}

    /// What the leaves hold tells the records: they hold one set of records at most. It does
    /// nothing.
    pub fn internal_tells_records(&self)
        requires { IsValid M.rule (tree_of self.now) }
        ensures { (R S : List Record) (maps : List LeafMap) (r : Record) →
            IsSet (tree_form M.rule (tree_of self.now)) R →
            IsSet (tree_form M.rule (tree_of self.now)) S →
            IsInternal M.rule (tree_of self.now) R maps →
            IsInternal M.rule (tree_of self.now) S maps → In r R → In r S }
    {}

    /// The form of the records.
    pub fn form(&self) -> &Form
        ensures { result.now ≡ tree_form M.rule (tree_of self.now) }
    {
        match self {
            Node::Leaf(node) => &node.form,
            Node::Layer(layer) => layer.mapping.form(),
        }
    }

    // Appends the leaf entries that come from one record.
    fn entries(&self, alloc: Global, rec: &Rec, out: &mut Vec<LeafEntry>) -> Result<(), NoMemory>
        requires valid { IsValid M.rule (tree_of self.now) }
        requires of_form { IsOf (tree_form M.rule (tree_of self.now)) rec.now }
        ensures { OnOk result
            (out.new.items ≡ out.old.items ++ entries_of M.rule (tree_of self.now) rec.now) }
    {
        match self {
            Node::Leaf(node) => {
                out.push(leaf_entry(alloc, node.leaf, &node.form, rec)?)?;
                Ok(())
            }
            Node::Layer(layer) => {
                if let Some(body) = layer.mapping.body(alloc, rec)? {
                    let first = &layer.kids[0];
                    if let Node::Leaf(node) = first {
                        out.push(body_entry(alloc, node.leaf, &node.form, &rec.key, body)?)?;
                        return Ok(());
                    }
                    let key = rec.key.copy(alloc)?;
                    return first.into_entries(alloc, body_record(alloc, key, body)?, out);
                }
                let parts = match layer.mapping.as_whole(alloc, rec)? {
                    Some(whole) => {
                        let first = &layer.kids[whole.child as usize];
                        first.entries(alloc, rec, out)?;
                        whole.others
                    }
                    None => layer.mapping.parts(alloc, rec)?,
                };
                for part in parts.0 {
                    let kid = &layer.kids[part.child as usize];
                    kid.into_entries(alloc, part.rec, out)?;
                }
                Ok(())
            }
        }
    }

    // The same of a record that needn't be kept: its key and its fields are handed down.
    fn into_entries(
        &self,
        alloc: Global,
        rec: Rec,
        out: &mut Vec<LeafEntry>,
    ) -> Result<(), NoMemory>
        requires valid { IsValid M.rule (tree_of self.now) }
        requires of_form { IsOf (tree_form M.rule (tree_of self.now)) rec }
        ensures { OnOk result
            (out.new.items ≡ out.old.items ++ entries_of M.rule (tree_of self.now) rec) }
    {
        match self {
            Node::Leaf(node) => {
                out.push(into_entry(alloc, node.leaf, &node.form, rec)?)?;
                Ok(())
            }
            Node::Layer(layer) => {
                if let Some(body) = layer.mapping.body(alloc, &rec)? {
                    let first = &layer.kids[0];
                    if let Node::Leaf(node) = first {
                        out.push(body_entry(alloc, node.leaf, &node.form, &rec.key, body)?)?;
                        return Ok(());
                    }
                    return first.into_entries(alloc, body_record(alloc, rec.key, body)?, out);
                }
                let parts = match layer.mapping.as_whole(alloc, &rec)? {
                    Some(whole) => {
                        let first = &layer.kids[whole.child as usize];
                        first.into_entries(alloc, rec, out)?;
                        if is_one_part(&whole) {
                            return Ok(());
                        }
                        whole.others
                    }
                    None => layer.mapping.into_parts(alloc, rec)?,
                };
                for part in parts.0 {
                    let kid = &layer.kids[part.child as usize];
                    kid.into_entries(alloc, part.rec, out)?;
                }
                Ok(())
            }
        }
    }

    // The leaf entries that come from an optional record.
    fn entries_if(&self, alloc: Global, rec: Option<Rec>) -> Result<Vec<LeafEntry>, NoMemory>
        requires valid { IsValid M.rule (tree_of self.now) }
        requires of_form { IfThere rec (IsOf (tree_form M.rule (tree_of self.now))) }
        ensures { IfOk result (λ es. es.items ≡ entries_if M.rule (tree_of self.now) rec) }
    {
        let mut entries = Vec::new(alloc);
        if let Some(rec) = rec {
            self.into_entries(alloc, rec, &mut entries)?;
        }
        Ok(entries)
    }

    /// The leaf entries that come from a record. `NoMemory`: there was none for them.
    pub fn entries_of(&self, alloc: Global, rec: &Rec) -> Result<Vec<LeafEntry>, NoMemory>
        requires valid { IsValid M.rule (tree_of self.now) }
        requires of_form { IsOf (tree_form M.rule (tree_of self.now)) rec.now }
        ensures { IfOk result (λ es. es.items ≡ entries_of M.rule (tree_of self.now) rec.now) }
    {
        let mut entries = Vec::new(alloc);
        self.entries(alloc, rec, &mut entries)?;
        Ok(entries)
    }

    /// Changes one record: `old` is what the node holds at the key, and `new` what it is to hold
    /// there. The entries that both have are left alone.
    ///
    /// `Full`: there is a `new`, and the pages may not be enough for its entries besides all that
    /// there are. `Damaged`: some leaf's stored form isn't whole. `Fault`: the count of faults
    /// rose; with any other answer it stays. `NoMemory`: there was none. After a refusal a part of
    /// the change may be made.
    pub fn replace<B: Leaves>(
        &self,
        alloc: Global,
        leaves: &mut B,
        old: Option<Rec>,
        new: Option<Rec>,
    ) -> Result<(), Stop>
        requires valid { IsValid M.rule (tree_of self.now) }
        requires below { (n : ℕ) → In n (leaves_of (tree_of self.now)) →
            n < length (B.working leaves.old) }
        requires old_fits { IfThere old (IsOf (tree_form M.rule (tree_of self.now))) }
        requires new_fits { IfThere new (IsOf (tree_form M.rule (tree_of self.now))) }

        // The leaves hold the records with the one changed.
        ensures internal { (R : List Record) → B.whole leaves.old →
            IsSet (tree_form M.rule (tree_of self.now)) R → IsChange R old new →
            IsInternal M.rule (tree_of self.now) R (B.working leaves.old) → OnOk result
            (IsInternal M.rule (tree_of self.now) (changed R old new) (B.working leaves.new)) }

        ensures replaces { Replaces B.View M.rule
            (tree_of self.now) new leaves.old leaves.new result }
    {
        let gone = self.entries_if(alloc, old)?;
        self.replace_entries(alloc, leaves, &gone, new)
    }

    /// The same, where `gone` has the leaf entries of what the node holds at the key.
    ///
    /// `Full`: there is a `new`, and the pages may not be enough for its entries besides all that
    /// there are. `Damaged`: some leaf's stored form isn't whole. `Fault`: the count of faults
    /// rose; with any other answer it stays. `NoMemory`: there was none. After a refusal a part of
    /// the change may be made.
    pub fn replace_entries<B: Leaves>(
        &self,
        alloc: Global,
        leaves: &mut B,
        gone: &[LeafEntry],
        new: Option<Rec>,
    ) -> Result<(), Stop>
        requires valid { IsValid M.rule (tree_of self.now) }
        requires below { (n : ℕ) → In n (leaves_of (tree_of self.now)) →
            n < length (B.working leaves.old) }
        requires gone { AreOfOne M.rule (tree_of self.now) gone.now }
        requires new_fits { IfThere new (IsOf (tree_form M.rule (tree_of self.now))) }

        // The leaves hold the records with the one changed.
        ensures internal { (R : List Record) (old : Option Record) → B.whole leaves.old →
            gone.now ≡ entries_if M.rule (tree_of self.now) old →
            IsSet (tree_form M.rule (tree_of self.now)) R → IsChange R old new →
            IsInternal M.rule (tree_of self.now) R (B.working leaves.old) → OnOk result
            (IsInternal M.rule (tree_of self.now) (changed R old new) (B.working leaves.new)) }

        ensures replaces { Replaces B.View M.rule
            (tree_of self.now) new leaves.old leaves.new result }
    {
        let come = self.entries_if(alloc, new)?;
        remove_others(alloc, leaves, gone, &come)?;
        put_new(alloc, leaves, gone, &come)
    }

    /// Appends the records whose key is inside the span, in ascending order of their keys.
    ///
    /// `Damaged`: some leaf's stored form isn't whole, or the leaves hold no set of records, which
    /// is said of block 0. `Fault`: the count of faults rose; with any other answer it stays.
    /// `NoMemory`: there was none. After a refusal `out` may have more at its end.
    pub fn select<B: Leaves>(
        &self,
        alloc: Global,
        leaves: &mut B,
        span: &Span,
        out: &mut Recs,
    ) -> Result<(), Stop>
        requires valid { IsValid M.rule (tree_of self.now) }
        requires below { (n : ℕ) → In n (leaves_of (tree_of self.now)) →
            n < length (B.working leaves.old) }
        requires span { IsKeySpan (tree_form M.rule (tree_of self.now)) span.now }
        ensures found { OnOk result
            (IsFound M.rule (tree_of self.now) (B.whole leaves.old) (B.working leaves.old) span.now
            (B.work leaves.old) (B.work leaves.new) out.old out.new) }

        ensures front { Extends out.old out.new }

        ensures reads { ReadsMaps B.View
            (B.whole leaves.old × HasSet M.rule (tree_of self.now) (B.working leaves.old))
            leaves.old leaves.new result }
    {
        match self {
            Node::Leaf(node) => select_leaf(alloc, leaves, node.leaf, &node.form, span, out),
            Node::Layer(layer) => {
                if layer.mapping.keeps() {
                    let first = &layer.kids[0];
                    return first.select(alloc, leaves, span, out);
                }
                if let Some(child) = layer.mapping.only_searched(span) {
                    let from = out.0.len();
                    let only = &layer.kids[child as usize];
                    only.select(alloc, leaves, span, out)?;
                    return gather_from(alloc, &layer.mapping, child, from, out);
                }
                let mut parts = Parts(Vec::new(alloc));
                for child in 0..layer.mapping.kids() {
                    if is_searched(&layer.mapping, child, span) {
                        let mut found = Recs::new(alloc);
                        let kid = &layer.kids[child as usize];
                        kid.select(alloc, leaves, span, &mut found)?;
                        add_parts(child, found, &mut parts)?;
                    }
                }
                gather_parts(alloc, &layer.mapping, parts, out)
            }
        }
    }
}

// Replaces each record from this place on, all of one child, by the one that has it as its only
// data part.
fn gather_from<M: Mapping>(
    alloc: Global,
    mapping: &M,
    child: u16,
    from: usize,
    out: &mut Recs,
) -> Result<(), Stop>
    requires from { from ≤ length out.old }
    requires parts { (q : Record) → In q (drop from out.old) →
        AreOfKey (M.rule mapping.now) q.key (part_for child q ∷ []) }
    ensures made { OnOk result ((made : List Record) × (out.new ≡ take from out.old ++ made)
        × AreEach (M.rule mapping.now) child (drop from out.old) made) }
    ensures front { Extends (take from out.old) out.new }
    ensures damaged { (block : ℕ) → IsErrOf result (Stop.Damaged block) →
        (q : Record) × In q (drop from out.old)
        × IsGathered (M.rule mapping.now) q.key (part_for child q ∷ []) None }
    ensures block { (n : ℕ) → IsErrOf result (Stop.Damaged n) → n ≡ 0 }
    ensures not_full { ¬ IsErrOf result Stop.Full }
    ensures not_fault { ¬ IsErrOf result Stop.Fault }
{
    gather_each(alloc, mapping, child, &mut out.0[from..])
}

// Whether the record itself is its one part.
fn is_one_part(whole: &Whole) -> bool
    ensures { result ≡ true → whole.now.others ≡ [] }
{
    whole.others.0.is_empty()
}
