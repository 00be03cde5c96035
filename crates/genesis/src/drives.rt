// The devices that the program has attached, each with its lock.
ghost use Rattle.std.specs.Prelude.{◌≡◌, ◌<◌, None, OnErr, IsErrOf, IsSome, IfSome, vec_len};
ghost use Rattle.genesis.specs.Drives.{size_of};

use crate::drive::Drive;
use gx_device::AttachStop;
use std::alloc::Global;
use std::fs::File;
use std::rt::Files;

// A device, by the name under which it was attached.
#[derive(Drop)]
struct Named {
    name: String,
    drive: Drive,
}

/// The device that is attached, and those that were attached before. The file of each is kept, and
/// so its lock, as long as the program runs.
#[derive(Drop)]
pub struct Drives {
    current: Option<Named>,
    former: Vec<Named>,
}

impl Drives {
    /// No device.
    pub fn new(alloc: Global) -> Drives {
        Drives {
            current: None,
            former: Vec::new(alloc),
        }
    }

    /// The device that is attached.
    pub fn current(&self) -> Option<&Drive> {
        match &self.current {
            Some(named) => Some(&named.drive),
            None => None,
        }
    }

    /// How many blocks it has: none before a device is attached.
    pub fn blocks(&self) -> u32
        ensures { result ≡ size_of self.now.current }
    {
        match &self.current {
            Some(named) => named.drive.blocks(),
            None => 0,
        }
    }

    /// Attaches the device in the file of that path, and makes it where a number of blocks is given.
    /// One that was attached before is taken as it was kept, since its file is locked.
    pub fn attach<R: Files<File = File>>(
        &mut self,
        alloc: Global,
        files: &R,
        name: &str,
        make: Option<u32>,
    ) -> Result<(), AttachStop>
        ensures missing { IsErrOf result AttachStop.Missing → make ≡ None }
        ensures exists { IsErrOf result AttachStop.Exists → IsSome make }
        ensures refused { OnErr result (size_of self.new.current ≡ size_of self.old.current) }
    {
        if make.is_none() && self.is_current(name) {
            return Ok(());
        }
        let own = String::from_str(alloc, name)?;
        self.former.reserve(1)?;
        let next = match (make, self.place_of(name)) {
            (None, Some(place)) => self.former.swap_remove(place),
            (None, None) => Named {
                name: own,
                drive: Drive::open(files, name)?,
            },
            (Some(blocks), _) => Named {
                name: own,
                drive: Drive::make(files, name, blocks)?,
            },
        };
        if let Some(before) = self.current.replace(next) {
            self.former.push(before).unwrap();
        }
        Ok(())
    }

    fn is_current(&self, name: &str) -> bool {
        match &self.current {
            Some(named) => named.name.as_str() == name,
            None => false,
        }
    }

    // Where the device of that name stands among the former ones.
    fn place_of(&self, name: &str) -> Option<usize>
        ensures { IfSome result (λ place. place < vec_len self.now.former) }
    {
        for place in 0..self.former.len() {
            if self.former[place].name.as_str() == name {
                return Some(place);
            }
        }
        None
    }
}
