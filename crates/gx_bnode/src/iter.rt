// The branches of a page, one at a time.
ghost use Rattle.std.specs.Prelude.{◌≡◌};
ghost use Rattle.gx_bnode.specs.Branches.{branches_in, HoldsCount};

use crate::format::split_branch;
use std::marker::Model;

/// The branches of a page that are still to come, each a separator and the child right of it, in
/// their order. Seen as the list of these branches.
#[derive(Debug, Drop)]
pub struct Branches<'a> {
    left: u16,
    bytes: &'a [u8],
}

impl<'a> Model for Branches<'a> {
    ghost use Rattle.std.specs.Prelude.{List};
    ghost use Rattle.gx_bnode.specs.Branches.{Branch, branches_in, HoldsCount};

    ghost Value = { List Branch };

    ghost view = { λ b. branches_in b.left b.bytes.now };

    ghost invariant = { λ b. HoldsCount b.left b.bytes.now };
}

impl<'a> Branches<'a> {
    /// The first `count` branches of the bytes.
    pub(crate) fn new(bytes: &'a [u8], count: u16) -> Branches<'a>
        requires { HoldsCount count bytes.now }
        ensures { result ≡ branches_in count bytes.now }
    {
        Branches { left: count, bytes }
    }
}

impl<'a> Iterator for Branches<'a> {
    ghost use Rattle.std.specs.Iterator.{item_count};
    ghost use Rattle.std.specs.Map.Iter.{TakesFirst};
    ghost use Rattle.gx_bnode.specs.Branches.{lent};

    type Item = (&'a [u8], u32);

    ghost next_gives = { TakesFirst lent };

    ghost remaining = { item_count (λ branches. branches) };

    fn next(&mut self) -> Option<(&'a [u8], u32)> {
        if self.left == 0 {
            return None;
        }
        let (branch, rest) = split_branch(self.bytes)?;
        self.left -= 1;
        self.bytes = rest;
        Some(branch)
    }
}
