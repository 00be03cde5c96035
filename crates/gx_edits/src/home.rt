// The node of a file that has all leaf entries of a key's record.
ghost use Rattle.std.specs.Prelude.{◌≡◌};
ghost use Rattle.gx_values.specs.Values.{Fits};
ghost use Rattle.gx_schema.specs.Lookups.{key_kind};
ghost use Rattle.gx_stack.specs.Tree.{tree_form, IsValid};
ghost use Rattle.gx_stack.specs.Seen.{tree_of};
ghost use Rattle.gx_types.specs.Any.{any_rule};
ghost use Rattle.gx_typing.specs.Dues.{file_form};
ghost use Rattle.gx_scan.specs.Files.{IsStorable};
ghost use Rattle.gx_edits.specs.Home.{IsHome};

use gx_scan::searched_node;
use gx_schema::FileDef;
use gx_stack::{Node, whole_span};
use gx_types::{AnyMapping, Passing};
use gx_values::Value;

/// The lowest node, below layers that pass records whole, that has all leaf entries of the record
/// with this key.
pub(crate) fn home_of<'a>(
    file: &FileDef,
    node: &'a Node<AnyMapping>,
    key: &Value,
) -> &'a Node<AnyMapping>
    requires valid { IsValid any_rule (tree_of node.now) }
    requires form { tree_form any_rule (tree_of node.now) ≡ file_form file.now }
    requires storable { IsStorable file.now }
    requires key { Fits (key_kind file.now) key.now }
    ensures { IsHome file.now key.now (tree_of node.now) (tree_of result.now) }
{
    let _file = file;
    // The bytes of the key are made only where they are needed.
    let Node::Layer(layer) = node else {
        return node;
    };
    let Passing::Whole = layer.mapping.passing() else {
        return node;
    };
    let mut span = whole_span();
    span.lo.set_value(key);
    span.hi.set_value(key);
    searched_node(node, &span)
}
