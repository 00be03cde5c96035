// The files of a schema and their nodes.
ghost use Rattle.std.specs.Prelude.{◌≡◌, ◌<◌, ℕ, length};
ghost use Rattle.gx_schema.specs.declared.schema.Schema.{Schema as TheSchema};
ghost use Rattle.gx_schema.specs.Lookups.{file_at};
ghost use Rattle.gx_stack.specs.Seen.{tree_of};
ghost use Rattle.gx_types.specs.Nodes.{tree_at, AreNodes};
ghost use Rattle.gx_scan.specs.Files.{IsTreeFor};

use gx_schema::{FileDef, Schema};
use gx_stack::Node;
use gx_types::{AnyMapping, Built};

/// The schema's file with this number, counted from 0.
pub fn file_def(schema: &Schema, file: u16) -> &FileDef
    requires { file < length schema.now.files }
    ensures { result.now ≡ file_at schema.now file }
{
    &schema.files.0[usize::from(file)]
}

/// The node that stores the records of the file with this number, counted from 0.
pub fn file_node(built: &Built, file: u16) -> &Node<AnyMapping>
    requires { file < length built.now.files }
    ensures tree { tree_of result.now ≡ tree_at built.now.files file }
    ensures fit { (schema : TheSchema) (leaves : ℕ) → AreNodes schema built.now.files leaves →
        IsTreeFor (file_at schema file) (tree_of result.now) leaves }
{
    &built.files.0[usize::from(file)]
}
