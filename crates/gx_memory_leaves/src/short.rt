// A few bytes, in the value itself.
ghost use Rattle.std.specs.Prelude.{◌≡◌, ◌<◌, ◌≤◌, ◌^◌, length, IfSome, IsSome};
ghost use Rattle.gx_memory_leaves.specs.Fronts.{padded};

use std::marker::Model;

/// At most `ROOM` bytes, with zeros behind them. They have no memory of their own.
#[derive(Drop)]
pub struct Short<const ROOM: usize> {
    bytes: [u8; ROOM],
    len: u8,
}

impl<const ROOM: usize> Model for Short<ROOM> {
    ghost use Rattle.std.specs.Prelude.{◌≡◌, ◌≤◌, List, ℕ, take};
    ghost use Rattle.gx_memory_leaves.specs.Fronts.{padded};

    ghost Value = { List ℕ };

    ghost view = { λ s. take s.len s.bytes };

    ghost invariant = { λ s. (s.len ≤ ROOM) × (s.bytes ≡ padded ROOM (take s.len s.bytes)) };
}

impl<const ROOM: usize> Short<ROOM> {
    /// A copy of the bytes. None: there are more than `ROOM`, or more than 255.
    pub fn from_slice(bytes: &[u8]) -> Option<Short<ROOM>>
        ensures same { IfSome result (λ short. short ≡ bytes.now) }
        ensures some { length bytes.now ≤ ROOM → length bytes.now < 2 ^ 8 → IsSome result }
    {
        if bytes.len() > ROOM {
            return None;
        }
        let len = u8::try_from(bytes.len()).ok()?;
        let mut all = [0; ROOM];
        all[..bytes.len()].copy_from_slice(bytes);
        Some(Short { bytes: all, len })
    }

    /// The same bytes again.
    pub fn copy(&self) -> Short<ROOM>
        ensures { result ≡ self.now }
    {
        Short {
            bytes: self.bytes,
            len: self.len,
        }
    }

    /// The bytes.
    pub fn as_slice(&self) -> &[u8]
        ensures { result.now ≡ self.now }
    {
        &self.bytes[..self.len as usize]
    }

    /// The first eight bytes, with zeros behind fewer.
    pub fn front(&self) -> [u8; FRONT]
        ensures { result ≡ padded 8 self.now }
    {
        front(&self.bytes)
    }
}

/// How many bytes of a key decide most comparisons.
pub const FRONT: usize = 8;

/// The first eight bytes, with zeros behind fewer.
pub fn front(bytes: &[u8]) -> [u8; FRONT]
    ensures { result ≡ padded 8 bytes.now }
{
    match bytes.first_chunk::<FRONT>() {
        Some(front) => *front,
        None => short_front(bytes),
    }
}

fn short_front(bytes: &[u8]) -> [u8; FRONT]
    requires { length bytes.now < 8 }
    ensures { result ≡ padded 8 bytes.now }
{
    let mut front = [0; FRONT];
    front[..bytes.len()].copy_from_slice(bytes);
    front
}
