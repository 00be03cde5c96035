// Faults, and the lines that they stand in.
ghost use Rattle.std.specs.Prelude.{◌≡◌, ◌<◌, length};
ghost use Rattle.gx_tokens.specs.Lines.{line_of};
ghost use Rattle.gx_tokens.specs.Reading.{fault_at, unread_of};
ghost use Rattle.gx_tokens.specs.declared.fault.ReadError.TheVariants.{NoMemory, Bad};

use crate::blanks::after_blanks;
use crate::why::{Unread, Why};
use std::alloc::{AllocError, AllocFailed};

/// The first fault of a text: how many bytes are left where its token begins, with the token, and
/// what is wrong with it.
#[derive(Clone, Copy, Debug, PartialEq, Eq)]
pub struct Fault {
    pub left: usize,
    pub why: Why,
}

/// Why a piece of a text isn't read.
#[derive(Clone, Copy, Debug, PartialEq, Eq)]
pub enum ReadError {
    /// There was no memory for what the piece means.
    NoMemory,
    /// The text has this first fault.
    Bad(Fault),
}

impl From<Fault> for ReadError {
    ghost from_gives = { λ fault error. error ≡ Bad fault };

    fn from(fault: Fault) -> ReadError {
        ReadError::Bad(fault)
    }
}

impl From<AllocError> for ReadError {
    ghost from_gives = { λ _ error. error ≡ NoMemory };

    fn from(_: AllocError) -> ReadError {
        ReadError::NoMemory
    }
}

impl<T: Drop> From<AllocFailed<T>> for ReadError {
    ghost from_gives = { λ _ error. error ≡ NoMemory };

    fn from(_: AllocFailed<T>) -> ReadError {
        ReadError::NoMemory
    }
}

/// The fault at the first token of these bytes, which are the rest of a text.
pub fn fault_at(bytes: &[u8], why: Why) -> Fault
    ensures { result ≡ fault_at bytes.now why }
{
    Fault {
        left: after_blanks(bytes).len(),
        why,
    }
}

/// The line, counted from 1, of the byte with which `left` bytes of the text are left. An LF
/// belongs to the line that it ends. Where `left` is 0 it is the line of the last byte, and 1 for
/// the empty text.
pub fn line_of(bytes: &[u8], left: usize) -> u32
    requires { length bytes.now < 4294967295 }
    ensures { result ≡ line_of bytes.now left }
{
    let front = &bytes[..bytes.len().saturating_sub(left.max(1))];
    let ended = front.iter().filter(|byte| **byte == b'\n').count();
    1 + ended as u32
}

/// The error of the whole text, where one of its pieces has this error: a fault by its line.
pub fn unread(bytes: &[u8], error: ReadError) -> Unread
    requires { length bytes.now < 4294967295 }
    ensures { result ≡ unread_of bytes.now error }
{
    match error {
        ReadError::NoMemory => Unread::NoMemory,
        ReadError::Bad(fault) => Unread::Bad(line_of(bytes, fault.left), fault.why),
    }
}
