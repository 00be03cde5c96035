// Ints as their shortest two's complement bytes.
ghost use Rattle.std.specs.Prelude.{◌≡◌, ◌≤◌, length, true, IfOk};
ghost use Rattle.gx_encode.specs.Packs.{sign_of, extended, shortest, pack, IsPack, IsUnpacked};
ghost use Rattle.gx_encode.specs.PackLaws.{IsShortest};

use gx_values::{NoMemory, Octets};
use std::alloc::Global;

/// The code of an int: its shortest two's complement bytes, big endian, whose sign extension is the
/// int. 0 is no byte. At most 8 bytes. `NoMemory`: there was none for it.
pub fn pack_into(alloc: Global, value: i64) -> Result<Octets, NoMemory>
    ensures code { IfOk result (λ code. code ≡ pack value) }
    ensures shortest { IfOk result (IsPack value) }
{
    Octets::from_slice(alloc, shortest(&value.to_be_bytes()))
}

// The bytes without those in front that only repeat the sign of what follows.
fn shortest(bytes: &[u8]) -> &[u8]
    ensures code { result.now ≡ shortest bytes.now }
    ensures few { length result.now ≤ length bytes.now }
{
    let mut rest = bytes;
    while let [first, more @ ..] = rest {
        if *first != sign_of(more) {
            return rest;
        }
        rest = more;
    }
    rest
}

// The byte that may be put in front without a change of the number.
fn sign_of(bytes: &[u8]) -> u8
    ensures { result ≡ sign_of bytes.now }
{
    match bytes {
        [first, ..] if *first >= 128 => 255,
        _ => 0,
    }
}

/// The int whose code these bytes are. `None`: they are the code of no int.
pub fn unpack(bytes: &[u8]) -> Option<i64>
    ensures { IsUnpacked bytes.now result }
{
    if bytes.len() > 8 || !is_shortest(bytes) {
        return None;
    }
    Some(u64::from_be_bytes(extended(bytes)).cast_signed())
}

fn is_shortest(bytes: &[u8]) -> bool
    ensures yes { result ≡ true → IsShortest bytes.now }
    ensures no { IsShortest bytes.now → result ≡ true }
{
    match bytes {
        [first, rest @ ..] => *first != sign_of(rest),
        [] => true,
    }
}

// The bytes with their sign in front.
fn extended(bytes: &[u8]) -> [u8; 8]
    requires { length bytes.now ≤ 8 }
    ensures { result ≡ extended 8 bytes.now }
{
    let mut all = [sign_of(bytes); 8];
    let front = 8 - bytes.len();
    all[front..].copy_from_slice(bytes);
    all
}
