// Laws of leaves on pages.
ghost use Rattle.std.specs.Prelude.{◌≡◌, ◌+◌, ◌*◌, ◌≤◌, length};
ghost use Rattle.gx_ports.specs.LeafMaps.{entry_count};
ghost use Rattle.gx_ports.specs.Roots.{root_pages};
ghost use Rattle.gx_ports.specs.Sheets.{Ground, Sheets};
ghost use Rattle.gx_leaves.specs.Places.{places_of, IsRoomFor};
ghost use Rattle.gx_leaves.specs.Space.{taken_pages};
ghost use Rattle.gx_leaves.specs.Wholeness.{maps_of, AreLaid};

use gx_ports::LeafSpec;

/// Where each leaf is whole, the pages that aren't free are at most those of the table, the roots,
/// and two for each entry of all leaves. It does nothing.
pub fn few_pages(specs: &[LeafSpec])
    ensures { (base : Ground) (sheets : Sheets) → IsRoomFor base specs.now
        → length sheets.owners ≡ base.size → AreLaid base (places_of base specs.now) sheets
        → taken_pages sheets ≤ base.tables + root_pages specs.now
        + 2 * entry_count (maps_of base (places_of base specs.now) sheets) }
{}
