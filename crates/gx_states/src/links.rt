// The links of a schema as they are stored.
ghost use Rattle.std.specs.Prelude.{◌≡◌, ◌<◌, ℕ, length};
ghost use Rattle.gx_schema.specs.Lookups.{file_at};
ghost use Rattle.gx_types.specs.Nodes.{tree_at};
ghost use Rattle.gx_linksets.specs.Any.{any_link_rule, IsHeldBy, IsValidLinkset};
ghost use Rattle.gx_pairs.specs.Stored.{file_of, node_tree};
ghost use Rattle.gx_states.specs.Internal.{AreFor};
ghost use Rattle.gx_states.specs.Stored.{IsStoredLinkOf};

use crate::files::{file_def, file_node};
use gx_linksets::{AnyLinkset, link_def, linkset_at};
use gx_pairs::{StoredFile, StoredLink};
use gx_schema::Schema;
use gx_types::Built;

/// The schema's link with this number, counted from 0, as it is stored.
pub fn stored_link<'a>(
    schema: &'a Schema,
    built: &'a Built,
    link: u16,
) -> StoredLink<'a, AnyLinkset<'a>>
    requires ready { (leaves : ℕ) × AreFor schema.now built.now leaves }
    requires link { link < length schema.now.links }
    ensures { IsStoredLinkOf any_link_rule IsHeldBy IsValidLinkset schema.now built.now link
        result }
{
    let def = link_def(schema, link);
    StoredLink {
        owners: stored_file(schema, built, def.owner),
        members: stored_file(schema, built, def.member),
        linkset: linkset_at(schema, built, link),
    }
}

fn stored_file<'a>(schema: &'a Schema, built: &'a Built, file: u16) -> StoredFile<'a>
    requires file { file < length schema.now.files }
    requires nodes { length built.now.files ≡ length schema.now.files }
    ensures file { file_of result ≡ file_at schema.now file }
    ensures tree { node_tree result ≡ tree_at built.now.files file }
{
    StoredFile {
        file: file_def(schema, file),
        node: file_node(built, file),
    }
}
