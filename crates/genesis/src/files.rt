// Texts are files, each read whole or not at all.
ghost use Rattle.std.specs.Prelude.{◌≡◌, ◌≤◌, ◌<◌, length, IfOk, IfSome, IsErrOf};
ghost use Rattle.std.specs.IoError.{error_kind};
ghost use Rattle.genesis.specs.Errors.{meaning};

use gx_device::FetchStop;
use std::alloc::Global;
use std::fs;
use std::io::{self, ErrorKind, Read};
use std::rt::Files;

/// The text in the file of that path, relative to the folder where the program runs.
pub fn read_file<R: Files>(
    files: &R,
    alloc: Global,
    path: &str,
    limit: u32,
) -> Result<Vec<u8>, FetchStop>
    ensures { IfOk result (λ text. length text.items ≤ limit) }
{
    match fs::open(files, path) {
        Ok(file) => read_text(alloc, file, limit),
        Err(error) => Err(stop_of(&error)),
    }
}

// All that a reader gives. Of a text that is too long no more is read than shows that.
fn read_text<F: Read + Drop>(alloc: Global, file: F, limit: u32) -> Result<Vec<u8>, FetchStop>
    ensures whole { IfOk result (λ text. IfSome (F.remaining file) (λ bytes. text.items ≡ bytes)) }
    ensures short { IfOk result (λ text. length text.items ≤ limit) }
    ensures too_long { IsErrOf result FetchStop.TooLong →
        IfSome (F.remaining file) (λ bytes. limit < length bytes) }
{
    let mut text = Vec::new(alloc);
    let mut front = file.take(u64::from(limit) + 1);
    match front.read_to_end(&mut text) {
        Ok(_) if text.len() <= limit as usize => Ok(text),
        Ok(_) => Err(FetchStop::TooLong),
        Err(error) => Err(stop_of(&error)),
    }
}

// What an error of a file means: that there is no such text, or a fault.
fn stop_of(error: &io::Error) -> FetchStop
    ensures { result ≡ meaning (error_kind error.now) }
{
    match error.kind() {
        ErrorKind::NotFound
        | ErrorKind::NotADirectory
        | ErrorKind::IsADirectory
        | ErrorKind::InvalidInput
        | ErrorKind::InvalidFilename => FetchStop::Missing,
        ErrorKind::OutOfMemory => FetchStop::NoMemory,
        _ => FetchStop::Fault,
    }
}
