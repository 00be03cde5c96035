// What is said of texts that are accepted.
ghost use Rattle.std.specs.Prelude.{◌≡◌, ◌≤◌, length};
ghost use Rattle.gx_play.specs.Summaries.{summary_of};
ghost use Rattle.gx_ports.specs.declared.kinds.TheConstants.{MAX_LEAVES};

use gx_store::smallest_device;
use gx_typing::{Specs, root_pages};

/// What leaves an accepted equation has.
#[derive(Clone, Copy, Debug)]
pub struct Summary {
    /// How many there are.
    pub leaves: u32,
    /// How many pages they have from the start on.
    pub root_pages: u32,
    /// How many blocks the smallest device has that has room for them.
    pub smallest_device: u32,
}

/// The summary of at most `MAX_LEAVES` leaves.
pub fn summarize(specs: &Specs) -> Summary
    requires { length specs.now ≤ MAX_LEAVES }
    ensures { result ≡ summary_of specs.now }
{
    Summary {
        leaves: specs.0.len() as u32,
        root_pages: root_pages(specs),
        smallest_device: smallest_device(&specs.0),
    }
}
