// The leaves of an equation, and the pages that they need from the start on.
ghost use Rattle.std.specs.Prelude.{◌≡◌, ◌≤◌, ◌<◌, ◌^◌, length};
ghost use Rattle.gx_typing.specs.Leaves.{root_pages};
ghost use Rattle.gx_ports.specs.declared.kinds.TheConstants.{MAX_LEAVES};

use gx_ports::LeafSpec;
use std::marker::Model;

/// What leaves are, seen as a list.
#[derive(Debug, Drop)]
pub struct Specs(pub Vec<LeafSpec>);

impl Model for Specs {
    ghost use Rattle.std.specs.Prelude.{List};
    ghost use Rattle.gx_ports.specs.declared.kinds.LeafSpec.{LeafSpec};

    ghost Value = { List LeafSpec };

    ghost view = { λ s. s.0.items };
}

/// Numbers of definitions, counted from 0, seen as a list.
#[derive(Debug, Drop)]
pub struct Owners(pub Vec<u16>);

impl Model for Owners {
    ghost use Rattle.std.specs.Prelude.{List, ℕ};

    ghost Value = { List ℕ };

    ghost view = { λ o. o.0.items };
}

/// The leaves of an equation in the order of its text: what each is, and the number of the
/// definition that it stands in.
#[derive(Debug, Drop)]
pub struct Typing {
    pub specs: Specs,
    pub owners: Owners,
}

/// How many pages the leaves have from the start on: a hashed leaf one for each of its chains,
/// every other leaf one.
pub fn root_pages(specs: &Specs) -> u32
    requires { length specs.now ≤ MAX_LEAVES }
    ensures value { result ≡ root_pages specs.now }
    ensures small { result < 2 ^ 16 }
{
    gx_ports::root_pages(&specs.0)
}
