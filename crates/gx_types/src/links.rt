// Nodes of links.
ghost use Rattle.std.specs.Prelude.{◌≡◌, ◌+◌, OnOk, IfOk};
ghost use Rattle.gx_equation.specs.Seen.{tree_of, side_of, definitions_of};
ghost use Rattle.gx_stack.specs.Seen.{tree_of as node_tree};
ghost use Rattle.gx_types.specs.Build.{leaf_count, side_leaf_count, IsTreeOf, IsLinkTreeOfSide};
ghost use Rattle.gx_types.specs.Build.{AreTreesOfLinks, IsReady, IsReadyLinkSide, AreReadyLinks};

use crate::any::AnyMapping;
use crate::built::LinkTree;
use crate::nodes::node_of;
use gx_equation::{Definition, Side, Term};
use gx_forms::{array_form, inverted_forms, ring_forms};
use gx_schema::{FileDef, LinkDef};
use gx_stack::Node;
use gx_typing::link_kinds;
use gx_values::{Form, Kind, NoMemory};
use std::alloc::Global;

// The nodes of two terms, one behind the other.
fn both_nodes(
    alloc: Global,
    forms: &(Form, Form),
    first: &Term,
    second: &Term,
    next: &mut u32,
) -> Result<(Node<AnyMapping>, Node<AnyMapping>), NoMemory>
    requires first { IsReady next.old forms.now.0 (tree_of first.now) }
    requires second { IsReady (next.old + leaf_count (tree_of first.now))
        forms.now.1 (tree_of second.now) }
    ensures first { IfOk result
        (λ nodes. IsTreeOf next.old forms.now.0 (tree_of first.now) (node_tree nodes.0)) }
    ensures second { IfOk result
        (λ nodes. IsTreeOf (next.old + leaf_count (tree_of first.now))
        forms.now.1 (tree_of second.now) (node_tree nodes.1)) }
    ensures next { OnOk result (next.new ≡
        next.old + leaf_count (tree_of first.now) + leaf_count (tree_of second.now)) }
{
    let one = node_of(alloc, &forms.0, first, next)?;
    let other = node_of(alloc, &forms.1, second, next)?;
    Ok((one, other))
}

// The nodes of a link by the side of its definition, and by the kinds of the keys of its owner file
// and of its member file.
fn link_tree(
    alloc: Global,
    kinds: (Kind, Kind),
    side: &Side,
    next: &mut u32,
) -> Result<LinkTree, NoMemory>
    requires { IsReadyLinkSide next.old kinds.0 kinds.1 (side_of side.now) }
    ensures tree { IfOk result (IsLinkTreeOfSide next.old kinds.0 kinds.1 (side_of side.now)) }
    ensures next { OnOk result (next.new ≡ next.old + side_leaf_count (side_of side.now)) }
{
    let (owner, member) = kinds;
    match side {
        Side::Array(members) => {
            let form = array_form(alloc, owner, member)?;
            Ok(LinkTree::Array(node_of(alloc, &form, members, next)?))
        }
        Side::Ring(firsts, nexts) => {
            let forms = ring_forms(alloc, owner, member)?;
            let (firsts, nexts) = both_nodes(alloc, &forms, firsts, nexts, next)?;
            Ok(LinkTree::Ring(firsts, nexts))
        }
        Side::Inverted(pairs, owners) => {
            let forms = inverted_forms(alloc, owner, member)?;
            let (pairs, owners) = both_nodes(alloc, &forms, pairs, owners, next)?;
            Ok(LinkTree::Inverted(pairs, owners))
        }
        Side::File(_) => unreachable!(),
    }
}

/// The nodes of each link between two of the files by its definition, in the order of the links.
/// The leaves have the numbers from `next` on. `NoMemory`: there was none for them.
pub fn trees_of_links(
    alloc: Global,
    files: &[FileDef],
    links: &[LinkDef],
    definitions: &[Definition],
    next: &mut u32,
) -> Result<Vec<LinkTree>, NoMemory>
    requires { AreReadyLinks files.now next.old links.now (definitions_of definitions.now) }
    ensures { IfOk result (λ trees. AreTreesOfLinks files.now next.old links.now
        (definitions_of definitions.now) trees.items) }
{
    let mut trees = Vec::with_capacity(alloc, links.len())?;
    let mut left = links;
    let mut rest = definitions;
    while let [link, others @ ..] = left {
        let [definition, after @ ..] = rest else {
            unreachable!()
        };
        let kinds = link_kinds(files, link);
        trees.push(link_tree(alloc, kinds, &definition.side, next)?)?;
        left = others;
        rest = after;
    }
    Ok(trees)
}
