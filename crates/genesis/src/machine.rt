// The real machine. A text and a device are files, the script is standard input, and what is said
// goes to standard output. It tells no content, so its clauses speak of the count of faults alone.
ghost use Rattle.std.specs.Prelude.{◌≡◌, ◌≤◌, true, false, Ok, IfOk, OnOk, OnErr, is_err};
ghost use Rattle.gx_device.specs.Content.{nothing_told};
ghost use Rattle.gx_device.specs.Faults.{Rose};

use crate::drives::Drives;
use crate::files::read_file;
use gx_device::{AttachStop, Device, Failed, FetchStop, Machine};
use std::alloc::Global;
use std::fs::File;
use std::io::{self, ErrorKind, Read};
use std::rt::Files;

/// The machine that the program runs on.
#[derive(Drop)]
pub struct HostMachine<R: Files<File = File> + Input + Print + Drop> {
    rt: R,
    drives: Drives,
    // how many calls have failed; it stands at its last value
    faults: u64,
}

impl<R: Files<File = File> + Input + Print + Drop> HostMachine<R> {
    /// A machine with no device, whose calls haven't failed.
    pub fn new(alloc: Global, rt: R) -> Self
        ensures { result.faults ≡ 0 }
    {
        HostMachine {
            rt,
            drives: Drives::new(alloc),
            faults: 0,
        }
    }

    fn count_fault(&mut self)
        ensures later { self.old.faults ≤ self.new.faults }
        ensures rose { Rose self.old.faults self.new.faults }
        ensures drives { self.new.drives ≡ self.old.drives }
    {
        self.faults = self.faults.saturating_add(1);
    }

    // What a call of the host means: what it gives, or a fault.
    fn answer<T: Drop>(&mut self, given: io::Result<T>) -> Result<T, Failed>
        ensures taken { IfOk given (λ value. result ≡ Ok value) }
        ensures failed { OnErr given (is_err result ≡ true) }
        ensures counted { OnOk given (self.new.faults ≡ self.old.faults) }
        ensures rose { OnErr given (Rose self.old.faults self.new.faults) }
        ensures later { self.old.faults ≤ self.new.faults }
        ensures drives { self.new.drives ≡ self.old.drives }
    {
        match given {
            Ok(value) => Ok(value),
            Err(_) => {
                self.count_fault();
                Err(Failed)
            }
        }
    }
}

impl<R: Files<File = File> + Input + Print + Drop> Device for HostMachine<R> {
    ghost use Rattle.genesis.specs.Drives.{size_of};

    ghost tells = { false };

    ghost content = { λ _. nothing_told };

    ghost faults = { λ m. m.faults };

    ghost size = { λ m. size_of m.drives.current };

    ghost sized = { λ _ told. Prim.cc };

    fn blocks(&self) -> u32 {
        self.drives.blocks()
    }

    fn read_block(&mut self, n: u32, into: &mut [u8]) -> Result<(), Failed> {
        let read = match self.drives.current() {
            Some(drive) => drive.read(n, into),
            None => Err(io::Error::from(ErrorKind::NotFound)),
        };
        self.answer(read)
    }

    fn write_block(&mut self, n: u32, from: &[u8]) -> Result<(), Failed> {
        let written = match self.drives.current() {
            Some(drive) => drive.write(n, from),
            None => Err(io::Error::from(ErrorKind::NotFound)),
        };
        self.answer(written)
    }

    // The file was synced whole when it was made, and its length never changes.
    fn sync(&mut self) -> Result<(), Failed> {
        let synced = match self.drives.current() {
            Some(drive) => drive.sync(),
            None => Ok(()),
        };
        self.answer(synced)
    }

    fn hear(&mut self, into: &mut [u8]) -> Result<usize, Failed> {
        let heard = self.rt.reader().read(into);
        self.answer(heard)
    }

    fn say(&mut self, from: &[u8]) -> Result<usize, Failed> {
        if from.is_empty() {
            return Ok(0);
        }
        let said = self.rt.write_some(from);
        let count = self.answer(said)?;
        if count == 0 {
            self.count_fault();
        }
        Ok(count)
    }
}

impl<R: Files<File = File> + Input + Print + Drop> Machine for HostMachine<R> {
    /// A text is the file of that path. A folder is no text, and neither is a path that leads
    /// nowhere. A file that is there and can't be read is a fault.
    fn fetch(&mut self, alloc: Global, name: &str, limit: u32) -> Result<Vec<u8>, FetchStop> {
        match read_file(&self.rt, alloc, name, limit) {
            Err(FetchStop::Fault) => {
                self.count_fault();
                Err(FetchStop::Fault)
            }
            fetched => fetched,
        }
    }

    /// A device is the file of that path, which no other program has attached meanwhile. A folder
    /// is no device. A file that is there and can't be opened for reading and writing is a fault,
    /// and so is one that another program has attached. A device that was attached before under
    /// that path is taken as it was kept; under another path of the same file it is a fault.
    fn attach(&mut self, alloc: Global, name: &str, make: Option<u32>) -> Result<(), AttachStop> {
        match self.drives.attach(alloc, &self.rt, name, make) {
            Err(AttachStop::Fault) => {
                self.count_fault();
                Err(AttachStop::Fault)
            }
            attached => attached,
        }
    }
}
