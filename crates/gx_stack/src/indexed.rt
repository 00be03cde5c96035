// Whether a field is indexed.
ghost use Rattle.std.specs.Prelude.{◌≡◌};
ghost use Rattle.gx_stack.specs.Tree.{IsValid};
ghost use Rattle.gx_stack.specs.Seen.{tree_of};
ghost use Rattle.gx_stack.specs.Indexed.{is_indexed};

use crate::node::Node;
use gx_mapping::Mapping;
use gx_values::Name;

impl<M: Mapping> Node<M> {
    /// Whether the records are indexed by this data field: the mapping has an index by it, or some
    /// child carries it and each child that carries it is indexed by it.
    pub fn indexed(&self, field: &Name) -> bool
        requires { IsValid M.rule (tree_of self.now) }
        ensures { result ≡ is_indexed M.rule (tree_of self.now) field.now }
    {
        match self {
            Node::Leaf(_) => false,
            Node::Layer(layer) => {
                if layer.mapping.indexes(field).is_some() {
                    return true;
                }
                let mut carried = false;
                for child in 0..layer.mapping.kids() {
                    if layer.mapping.carries(child, field) {
                        let kid = &layer.kids[child as usize];
                        if !kid.indexed(field) {
                            return false;
                        }
                        carried = true;
                    }
                }
                carried
            }
        }
    }
}
