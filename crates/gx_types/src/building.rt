// What an equation gives: its leaves, and the nodes of files and links.
ghost use Rattle.std.specs.Prelude.{◌≡◌, ◌≤◌, length, IfOk};
ghost use Rattle.gx_schema.specs.Rules.{IsSchema};
ghost use Rattle.gx_equation.specs.Printing.{AreWritten};
ghost use Rattle.gx_equation.specs.Seen.{definitions_of};
ghost use Rattle.gx_types.specs.Build.{file_leaf_count, link_definitions};
ghost use Rattle.gx_types.specs.Build.{AreTreesOfFiles, AreTreesOfLinks};
ghost use Rattle.gx_types.specs.Nodes.{AreNodes, AreLinkNodes, AreOwned};
ghost use Rattle.gx_typing.specs.Typed.{IsTyped, leaves, typing_with};
ghost use Rattle.gx_ports.specs.declared.kinds.TheConstants.{MAX_LEAVES};

use crate::built::{Built, LinkTrees, Trees};
use crate::links::trees_of_links;
use crate::nodes::nodes_of_files;
use gx_equation::Equation;
use gx_schema::Schema;
use gx_typing::Typing;
use gx_values::NoMemory;
use std::alloc::Global;

/// The leaves of a typed equation, and the nodes of the files and of the links of its schema, whose
/// leaves have the numbers of the typing, from 0 on. `NoMemory` comes where there was none for the
/// nodes.
pub fn build(
    alloc: Global,
    schema: &Schema,
    equation: &Equation,
    typing: Typing,
) -> Result<Built, NoMemory>
    requires schema { IsSchema schema.now }
    requires written { AreWritten (definitions_of equation.now.definitions) }
    requires typed { IsTyped schema.now (definitions_of equation.now.definitions) }
    requires leaves { typing ≡ typing_with
        (leaves schema.now (definitions_of equation.now.definitions)) }
    // The leaves are those of the typing.
    ensures leaves { IfOk result
        (λ built. typing ≡ record { specs = built.specs; owners = built.owners }) }
    ensures few { IfOk result (λ built. length built.specs ≤ MAX_LEAVES) }
    // Each node is what the definition of its file or of its link means.
    ensures trees { IfOk result (λ built. AreTreesOfFiles 0 schema.now.files
        (definitions_of equation.now.definitions) built.files) }
    ensures link_trees { IfOk result (λ built. AreTreesOfLinks schema.now.files
        (file_leaf_count schema.now.files (definitions_of equation.now.definitions))
        schema.now.links
        (link_definitions schema.now.files (definitions_of equation.now.definitions)) built.links) }
    ensures nodes { IfOk result (λ built. AreNodes schema.now built.files (length built.specs)) }
    ensures link_nodes { IfOk result
        (λ built. AreLinkNodes schema.now built.files built.links (length built.specs)) }
    ensures owned { IfOk result
        (λ built. AreOwned schema.now built.files built.links built.owners (length built.specs)) }
{
    let of_files = schema.files.as_slice();
    let of_links = schema.links.as_slice();
    let definitions = equation.definitions.0.as_slice();
    let mut next = 0;
    let files = nodes_of_files(alloc, of_files, definitions, &mut next)?;
    let (_, behind) = definitions.split_at(of_files.len());
    let links = trees_of_links(alloc, of_files, of_links, behind, &mut next)?;
    Ok(Built {
        files: Trees(files),
        links: LinkTrees(links),
        specs: typing.specs,
        owners: typing.owners,
    })
}
