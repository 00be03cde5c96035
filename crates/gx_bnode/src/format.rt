// How a branch is written.
ghost use Rattle.std.specs.Prelude.{◌≡◌, ◌+◌, ◌<◌, ◌≤◌, length};
ghost use Rattle.std.specs.List.{sum_by};
ghost use Rattle.gx_bytes.specs.Parts.{overwritten};
ghost use Rattle.gx_bytes.specs.Records.{SplitsRecord};
ghost use Rattle.gx_bnode.specs.declared.format.TheConstants.{MAX_SEPARATOR_LEN};
ghost use Rattle.gx_bnode.specs.Branches.{IsFit, HoldsCount, branch_bytes, branch_len, branches_in, lent};

use gx_bytes::{overwrite, split_u16, split_u32};
use gx_values::MAX_KEY_LEN;

/// The greatest number of bytes of a separator: those of a key.
pub const MAX_SEPARATOR_LEN: usize = MAX_KEY_LEN;

/// The number of bytes of the length of a separator.
const LENGTH_LEN: usize = 2;

/// The number of bytes of a child.
const CHILD_LEN: usize = 4;

/// The number of bytes of the greatest branch.
pub(crate) const MAX_BRANCH_LEN: usize = LENGTH_LEN + MAX_SEPARATOR_LEN + CHILD_LEN;

/// The branch that the bytes begin with, its separator and its child, and the bytes behind it. None
/// where the bytes begin with no branch.
pub fn split_branch(bytes: &[u8]) -> Option<((&[u8], u32), &[u8])>
    ensures { SplitsRecord branch_bytes IsFit lent bytes.now result }
{
    let (len, rest) = split_u16(bytes)?;
    let len = usize::from(len);
    if len > MAX_SEPARATOR_LEN || len > rest.len() {
        return None;
    }
    let (separator, rest) = rest.split_at(len);
    let (child, rest) = split_u32(rest)?;
    Some(((separator, child), rest))
}

/// The number of bytes that a branch with this separator takes.
pub(crate) fn branch_len(separator: &[u8]) -> usize
    requires { length separator.now ≤ MAX_SEPARATOR_LEN }
    ensures { result ≡ 6 + length separator.now }
{
    LENGTH_LEN + separator.len() + CHILD_LEN
}

/// Writes a branch over the bytes from place `at` on.
pub(crate) fn write_branch(bytes: &mut [u8], at: usize, separator: &[u8], child: u32)
    requires short { length separator.now ≤ MAX_SEPARATOR_LEN }
    requires room { at + (6 + length separator.now) ≤ length bytes.old }
    ensures { bytes.new
        ≡ overwritten bytes.old at
        (branch_bytes (record { separator = separator.now; child = child })) }
{
    overwrite(bytes, at, &(separator.len() as u16).to_be_bytes());
    overwrite(bytes, at + LENGTH_LEN, separator);
    overwrite(
        bytes,
        at + LENGTH_LEN + separator.len(),
        &child.to_be_bytes(),
    );
}

/// The number of bytes that the first `count` branches take.
pub(crate) fn branches_len(bytes: &[u8], count: u16) -> usize
    requires { HoldsCount count bytes.now }
    ensures { result ≡ sum_by branch_len (branches_in count bytes.now) }
{
    let mut rest = bytes;
    for _ in 0..count {
        let (_, behind) = split_branch(rest).unwrap();
        rest = behind;
    }
    bytes.len() - rest.len()
}
