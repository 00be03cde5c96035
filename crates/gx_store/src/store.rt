// A database's leaves on a device, and how large the device may be.
ghost use Rattle.std.specs.Prelude.{◌≡◌, ◌↔◌, ◌≤◌, ◌<◌, ℕ, List, length, IsTrue};
ghost use Rattle.gx_leaves.specs.Paged.{places_in, kept_of, head_of, WasWhole};
ghost use Rattle.gx_leaves.specs.Places.{specs_of};
ghost use Rattle.gx_store.specs.Device.{smallest_device, IsSize, IsHeadOf, IsSettled};
ghost use Rattle.gx_store.specs.Store.{machine_of};
ghost use Rattle.gx_ports.specs.declared.kinds.TheConstants.{MAX_LEAVES};

use gx_device::Machine;
use gx_layout::{MAX_BLOCKS, head_blocks, table_pages};
use gx_leaves::PagedLeaves;
use gx_pages::Paged;
use gx_ports::{LeafSpec, root_pages};

/// How many pages of a device are in memory at once.
pub const FRAMES: u32 = 64;

/// The leaves of a database on a device of a machine.
pub type Store<M> = PagedLeaves<Paged<M>>;

/// The number of blocks of the smallest device with room for at most `MAX_LEAVES` leaves: those
/// before the pages, and two for each page of the table of owners and for each root page.
pub fn smallest_device(specs: &[LeafSpec]) -> u32
    requires { length specs.now ≤ MAX_LEAVES }
    ensures { result ≡ smallest_device specs.now }
{
    head_blocks(0) + 2 * (table_pages(0) + root_pages(specs))
}

/// Whether a device of so many blocks has room for at most `MAX_LEAVES` such leaves, and isn't too
/// large.
pub fn is_size(specs: &[LeafSpec], blocks: u32) -> bool
    requires { length specs.now ≤ MAX_LEAVES }
    ensures { IsTrue result ↔ IsSize specs.now blocks }
{
    smallest_device(specs) <= blocks && blocks <= MAX_BLOCKS
}

/// The machine. Where no commit failed, and the leaves were whole at the last one, its device holds
/// the maps that were kept then, and its gate is closed. What was changed since is gone.
pub fn close<M: Machine + Drop>(store: Store<M>) -> M
    ensures machine { result ≡ machine_of store }
    ensures settled { (schema equation : List ℕ) →
        IsHeadOf schema equation (specs_of (places_in store)) (head_of store) → WasWhole store →
        IsSettled schema equation (specs_of (places_in store)) (kept_of store)
        (M.content result).now.blocks }
{
    store.into_pages().into_journal().into_device()
}
