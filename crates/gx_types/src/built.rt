// What stores the records of a schema's files, and its links.
use crate::any::AnyMapping;
use gx_stack::Node;
use gx_typing::{Owners, Specs};
use std::marker::Model;

/// Nodes, seen as a list.
#[derive(Drop)]
pub struct Trees(pub Vec<Node<AnyMapping>>);

impl Model for Trees {
    ghost use Rattle.std.specs.Prelude.{List};
    ghost use Rattle.gx_stack.specs.declared.node.Node.{Node as TheNode};
    ghost use Rattle.gx_stack.specs.contracts.node.Node as node;
    ghost use Rattle.gx_types.specs.declared.any.AnyMapping.{AnyMapping as TheMapping};
    ghost use Rattle.gx_types.specs.contracts.any.AnyMapping as mapping;
    ghost use Rattle.std.specs.Coded.{codes};

    ghost Value = { List (TheNode TheMapping) };

    ghost coded = { Prim.hlevel (codes, (node.the_row mapping.the_row).coded) };

    ghost view = { λ t. t.0.items };
}

/// The nodes of a link, by the head of its side.
#[derive(Drop)]
pub enum LinkTree {
    /// for each owner its members
    Array(Node<AnyMapping>),
    /// for each owner its first member; for each member the next one
    Ring(Node<AnyMapping>, Node<AnyMapping>),
    /// owners with their members; for each member its owner
    Inverted(Node<AnyMapping>, Node<AnyMapping>),
}

/// Nodes of links, seen as a list.
#[derive(Drop)]
pub struct LinkTrees(pub Vec<LinkTree>);

impl Model for LinkTrees {
    ghost use Rattle.std.specs.Prelude.{List};
    ghost use Rattle.gx_stack.specs.contracts.node.Node as node;
    ghost use Rattle.gx_types.specs.contracts.any.AnyMapping as mapping;
    ghost use Rattle.gx_types.specs.declared.built.LinkTree.{LinkTree as TheLinkTree};
    ghost use Rattle.std.specs.Coded.{codes};

    ghost Value = { List TheLinkTree };

    ghost coded = { Prim.hlevel (codes, (node.the_row mapping.the_row).coded) };

    ghost view = { λ t. t.0.items };
}

/// A node for each file of a schema, the nodes of each link, and the leaves of all of them.
#[derive(Drop)]
pub struct Built {
    /// the nodes of the files, in their order
    pub files: Trees,
    /// the nodes of the links, in their order
    pub links: LinkTrees,
    /// what each leaf is
    pub specs: Specs,
    /// for each leaf the number of its definition, from 0: the files, and then the links
    pub owners: Owners,
}
