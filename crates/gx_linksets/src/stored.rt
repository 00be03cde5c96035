// The linkset of a schema's link.
ghost use Rattle.std.specs.Prelude.{◌≡◌, ◌↔◌, ◌<◌, ℕ, List, length};
ghost use Rattle.gx_schema.specs.Lookups.{link_at};
ghost use Rattle.gx_ports.specs.LeafMaps.{LeafMap};
ghost use Rattle.gx_types.specs.Nodes.{AreLinkNodes};
ghost use Rattle.gx_links.specs.Links.{Link};
ghost use Rattle.gx_linksets.specs.Stored.{rule_at, IsHeldAt, IsStorableLink, IsStoredAt};
ghost use Rattle.gx_linksets.specs.Any.{any_link_rule, IsHeldBy, IsValidLinkset};

use crate::any::AnyLinkset;
use gx_lists::{Inverted, PointerArray};
use gx_ring::Ring;
use gx_schema::{LinkDef, Schema};
use gx_types::{Built, LinkTree};
use gx_typing::link_kinds;

/// The linkset of the schema's link with this number, counted from 0.
pub fn linkset_at<'a>(schema: &Schema, built: &'a Built, link: u16) -> AnyLinkset<'a>
    requires link { link < length schema.now.links }
    requires storable { IsStorableLink schema.now.files (link_at schema.now link) }
    requires nodes { length built.now.links ≡ length schema.now.links }
    ensures held { (pairs : Link) (maps : List LeafMap) →
        IsHeldAt built.now.links link pairs maps ↔ IsHeldBy result pairs maps }
    ensures rule { (leaves : ℕ) →
        AreLinkNodes schema.now built.now.files built.now.links leaves →
        any_link_rule result ≡ rule_at schema.now built.now.links link }
    ensures valid { (leaves : ℕ) →
        AreLinkNodes schema.now built.now.files built.now.links leaves → IsValidLinkset result }
{
    match link_nodes(built, link) {
        LinkTree::Array(tree) => {
            let (_owner, member) = link_kinds(schema.files.as_slice(), link_def(schema, link));
            AnyLinkset::Array(PointerArray { tree, member })
        }
        LinkTree::Ring(heads, chain) => AnyLinkset::Ring(Ring { heads, chain }),
        LinkTree::Inverted(down, up) => AnyLinkset::Inverted(Inverted { down, up }),
    }
}

/// The schema's link with this number, counted from 0.
pub fn link_def(schema: &Schema, link: u16) -> &LinkDef
    requires { link < length schema.now.links }
    ensures { result.now ≡ link_at schema.now link }
{
    &schema.links.0[usize::from(link)]
}

fn link_nodes(built: &Built, link: u16) -> &LinkTree
    requires { link < length built.now.links }
    ensures { IsStoredAt built.now.links link result.now }
{
    &built.links.0[usize::from(link)]
}
