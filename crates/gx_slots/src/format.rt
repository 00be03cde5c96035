// How an entry is written.
ghost use Rattle.std.specs.Prelude.{◌≡◌, ◌+◌, ◌^◌, ◌<◌, ◌≤◌, ◌++◌, length, MatchOption};
ghost use Rattle.std.specs.Int.{w16, to_be_bytes};
ghost use Rattle.std.specs.List.{sum_by};
ghost use Rattle.gx_bytes.specs.Parts.{overwritten};
ghost use Rattle.gx_bytes.specs.Records.{SplitsRecord};
ghost use Rattle.gx_slots.specs.Entries.{IsFit, HoldsCount, entry_bytes, entry_len, entries_in, lent};

use gx_bytes::{overwrite, split_u16};
use gx_ports::{MAX_ENTRY_LEN, MAX_KEY_LEN};

/// The number of bytes of a length.
const LENGTH_LEN: usize = 2;

/// The number of bytes of the two lengths that an entry begins with.
const LENGTHS_LEN: usize = 2 * LENGTH_LEN;

/// The entry that the bytes begin with, its key and its body, and the bytes behind it. None where
/// the bytes begin with no entry.
pub fn split_entry(bytes: &[u8]) -> Option<((&[u8], &[u8]), &[u8])>
    ensures { SplitsRecord entry_bytes IsFit lent bytes.now result }
{
    let (key_len, body_len, rest) = split_lengths(bytes)?;
    let len = key_len + body_len;
    if key_len > MAX_KEY_LEN || len > MAX_ENTRY_LEN || len > rest.len() {
        return None;
    }
    let (key, rest) = rest.split_at(key_len);
    let (body, rest) = rest.split_at(body_len);
    Some(((key, body), rest))
}

// The lengths of a key and of a body, and the bytes behind them.
fn split_lengths(bytes: &[u8]) -> Option<(usize, usize, &[u8])>
    ensures { MatchOption result (length bytes.now < 4)
        (λ found. (found.0 < 2 ^ 16) × (found.1 < 2 ^ 16)
        × (bytes.now ≡ to_be_bytes w16 found.0 ++ (to_be_bytes w16 found.1 ++ found.2.now))) }
{
    let (key_len, rest) = split_u16(bytes)?;
    let (body_len, rest) = split_u16(rest)?;
    Some((usize::from(key_len), usize::from(body_len), rest))
}

/// The number of bytes that an entry takes.
pub(crate) fn entry_len(key: &[u8], body: &[u8]) -> usize
    requires { IsFit (record { key = key.now; body = body.now }) }
    ensures { result ≡ entry_len (record { key = key.now; body = body.now }) }
{
    LENGTHS_LEN + key.len() + body.len()
}

/// Writes an entry over the bytes from place `at` on.
pub(crate) fn write_entry(bytes: &mut [u8], at: usize, key: &[u8], body: &[u8])
    requires fit { IsFit (record { key = key.now; body = body.now }) }
    requires room { at + entry_len (record { key = key.now; body = body.now }) ≤ length bytes.old }
    ensures { bytes.new
        ≡ overwritten bytes.old at (entry_bytes (record { key = key.now; body = body.now })) }
{
    overwrite(bytes, at, &(key.len() as u16).to_be_bytes());
    overwrite(bytes, at + LENGTH_LEN, &(body.len() as u16).to_be_bytes());
    let at = at + LENGTHS_LEN;
    overwrite(bytes, at, key);
    overwrite(bytes, at + key.len(), body);
}

/// The number of bytes that the first `count` entries take.
pub(crate) fn entries_len(bytes: &[u8], count: u16) -> usize
    requires { HoldsCount count bytes.now }
    ensures { result ≡ sum_by entry_len (entries_in count bytes.now) }
{
    let mut rest = bytes;
    for _ in 0..count {
        let (_, behind) = split_entry(rest).unwrap();
        rest = behind;
    }
    bytes.len() - rest.len()
}
