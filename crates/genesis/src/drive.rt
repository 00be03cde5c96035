// A device in a file.
ghost use Rattle.std.specs.Prelude.{◌≡◌, ◌<◌, IsErrOf};
ghost use Rattle.genesis.specs.Errors.{open_stop, make_stop};
ghost use Rattle.std.specs.IoError.{error_kind};

use gx_device::{AttachStop, BLOCK_LEN};
use std::fs::{self, File, OpenOptions};
use std::io::{self, ErrorKind};
use std::os::unix::fs::FileExt;
use std::rt::Files;

const BLOCK_BYTES: u64 = BLOCK_LEN as u64;

/// A file of blocks, which this program alone has attached as long as it stands.
#[derive(Drop)]
pub struct Drive {
    file: File,
    blocks: u32,
}

impl Drive {
    /// The device in the file of that path. It has as many blocks as the file has whole ones, and
    /// no more than a number can count.
    pub fn open<R: Files<File = File>>(files: &R, path: &str) -> Result<Drive, AttachStop>
        ensures { ¬ IsErrOf result AttachStop.Exists }
    {
        let file = match OpenOptions::new().read(true).write(true).open(files, path) {
            Ok(file) => file,
            Err(error) => return Err(open_stop(&error)),
        };
        let Ok(metadata) = file.metadata() else {
            return Err(AttachStop::Fault);
        };
        let blocks = metadata.len() / BLOCK_BYTES;
        alone(Drive {
            file,
            blocks: u32::try_from(blocks).unwrap_or(u32::MAX),
        })
    }

    /// A device of so many blocks of zeros, in a new file of that path, whose name is on the disk.
    /// Where it can't be made whole, the file is removed again.
    pub fn make<R: Files<File = File>>(
        files: &R,
        path: &str,
        blocks: u32,
    ) -> Result<Drive, AttachStop>
        ensures { ¬ IsErrOf result AttachStop.Missing }
    {
        let file = match OpenOptions::new()
            .read(true)
            .write(true)
            .create_new(true)
            .open(files, path)
        {
            Ok(file) => file,
            Err(error) => return Err(make_stop(&error)),
        };
        if fill(&file, blocks).is_err() || sync_folder(files, path).is_err() {
            let _ = fs::remove_file(files, path);
            return Err(AttachStop::Fault);
        }
        alone(Drive { file, blocks })
    }

    /// The number of blocks.
    pub fn blocks(&self) -> u32
        ensures { result ≡ self.now.blocks }
    {
        self.blocks
    }

    /// Reads a block.
    pub fn read(&self, n: u32, into: &mut [u8]) -> io::Result<()> {
        self.file.read_exact_at(into, u64::from(n) * BLOCK_BYTES)
    }

    /// Writes a block.
    pub fn write(&self, n: u32, from: &[u8]) -> io::Result<()> {
        self.file.write_all_at(from, u64::from(n) * BLOCK_BYTES)
    }

    /// Makes sure that what was written is in the file.
    pub fn sync(&self) -> io::Result<()> {
        self.file.sync_data()
    }
}

// The device, where no other program has it attached.
fn alone(drive: Drive) -> Result<Drive, AttachStop>
    ensures missing { ¬ IsErrOf result AttachStop.Missing }
    ensures exists { ¬ IsErrOf result AttachStop.Exists }
{
    if drive.file.try_lock().is_err() {
        return Err(AttachStop::Fault);
    }
    Ok(drive)
}

// The file has so many blocks of zeros, and its length is on the disk.
fn fill(file: &File, blocks: u32) -> io::Result<()> {
    file.set_len(u64::from(blocks) * BLOCK_BYTES)?;
    file.sync_all()
}

// A new name in the folder of the path is on the disk.
fn sync_folder<R: Files<File = File>>(files: &R, path: &str) -> io::Result<()> {
    let folder = match path.rsplit_once('/') {
        None => ".",
        Some((folder, _)) if folder.is_empty() => "/",
        Some((folder, _)) => folder,
    };
    fs::open(files, folder)?.sync_all()
}

fn open_stop(error: &io::Error) -> AttachStop
    ensures { result ≡ open_stop (error_kind error.now) }
{
    match error.kind() {
        ErrorKind::NotFound
        | ErrorKind::NotADirectory
        | ErrorKind::IsADirectory
        | ErrorKind::InvalidInput
        | ErrorKind::InvalidFilename => AttachStop::Missing,
        ErrorKind::OutOfMemory => AttachStop::NoMemory,
        _ => AttachStop::Fault,
    }
}

fn make_stop(error: &io::Error) -> AttachStop
    ensures { result ≡ make_stop (error_kind error.now) }
{
    match error.kind() {
        ErrorKind::AlreadyExists => AttachStop::Exists,
        ErrorKind::OutOfMemory => AttachStop::NoMemory,
        _ => AttachStop::Fault,
    }
}
