// What is true of the access of a tree.
ghost use Rattle.std.specs.Prelude.{◌≡◌, ◌≤◌, List, Some, length};
ghost use Rattle.gx_values.specs.declared.records.Rec.{Rec as Record};
ghost use Rattle.gx_values.specs.declared.keys.Span.{Span as TheSpan};
ghost use Rattle.gx_ports.specs.LeafMaps.{LeafMap};
ghost use Rattle.gx_mapping.specs.Rule.{IsOf};
ghost use Rattle.gx_stack.specs.Internal.{IsSet, IsInternal};
ghost use Rattle.gx_stack.specs.Seen.{tree_of};
ghost use Rattle.gx_stack.specs.Selected.{IsKeySpan};
ghost use Rattle.gx_stack.specs.Tree.{IsValid, tree_form, entries_of};
ghost use Rattle.gx_access.specs.Access.{Choice, data_entries, fragments_entries, fragments_of};
ghost use Rattle.gx_access.specs.Whole.{access_of, IsAccess, data_leaves};
ghost use Rattle.gx_access.specs.Leaves.{choice_leaves};
ghost use Rattle.gx_access.specs.Held.{IsHeldBy, IsHeldInside};

use crate::arrangement::Arranged;
use gx_stack::Node;

/// The access that a node is found to have is one: of each record the entries in data leaves are
/// those of the fragments of one alternative. What leaves hold for records are these, and inside a
/// span those of the records inside it. It does nothing.
pub fn access_is_exact<M: Arranged>(node: &Node<M>)
    requires { IsValid M.rule (tree_of node.now) }
    ensures access { (ch : Choice) → access_of M.rule M.arranged (tree_of node.now) ≡ Some ch →
        IsAccess M.rule (tree_of node.now) ch }
    ensures held { (ch : Choice) (R : List Record) (maps : List LeafMap) →
        access_of M.rule M.arranged (tree_of node.now) ≡ Some ch →
        IsSet (tree_form M.rule (tree_of node.now)) R →
        IsInternal M.rule (tree_of node.now) R maps →
        IsHeldBy M.rule (tree_of node.now) ch R maps }
    ensures inside { (ch : Choice) (R : List Record) (maps : List LeafMap) (span : TheSpan) →
        access_of M.rule M.arranged (tree_of node.now) ≡ Some ch →
        IsSet (tree_form M.rule (tree_of node.now)) R →
        IsInternal M.rule (tree_of node.now) R maps →
        IsKeySpan (tree_form M.rule (tree_of node.now)) span →
        IsHeldInside M.rule (tree_of node.now) ch R maps span }
    ensures leaves { (ch : Choice) → access_of M.rule M.arranged (tree_of node.now) ≡ Some ch →
        choice_leaves ch ≡ data_leaves M.rule (tree_of node.now) }
    ensures same { (ch : Choice) (r : Record) →
        access_of M.rule M.arranged (tree_of node.now) ≡ Some ch →
        IsOf (tree_form M.rule (tree_of node.now)) r →
        data_entries M.rule (tree_of node.now) r ≡ fragments_entries (fragments_of ch r) r }
    ensures fewer { (r : Record) → length (data_entries M.rule (tree_of node.now) r) ≤ length
        (entries_of M.rule (tree_of node.now) r) }
{}
