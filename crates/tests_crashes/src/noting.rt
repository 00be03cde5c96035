// A machine that notes when its answers say what is kept.
ghost use Rattle.std.specs.Prelude.{false};
ghost use Rattle.gx_device.specs.Content.{nothing_told};

use crate::sparse::SparseMachine;
use gx_device::{AttachStop, Device, Failed, FetchStop, Machine};
use std::alloc::Global;

// The moments behind the first two lines, where one more is said now.
fn noted([first, _]: [u32; 2], now: u32) -> [u32; 2] {
    [first.min(now), if first < now { now } else { u32::MAX }]
}

/// A machine that notes when a device was said to be made, or a transaction to be committed.
#[derive(Drop)]
pub(crate) struct Noting {
    pub(crate) machine: SparseMachine,
    // the moment behind the first such line, and that behind the second one
    kept_at: [u32; 2],
}

impl Noting {
    /// The machine, of which nothing is noted yet.
    pub(crate) fn new(machine: SparseMachine) -> Noting {
        Noting {
            machine,
            kept_at: [u32::MAX; 2],
        }
    }

    /// How many such lines were said before the moment.
    pub(crate) fn kept_before(&self, moment: u32) -> usize {
        let [first, second] = self.kept_at;
        usize::from(first <= moment) + usize::from(second <= moment)
    }
}

impl Device for Noting {
    ghost tells = { false };

    ghost content = { λ _. nothing_told };

    ghost faults = { λ m. m.machine.faults };

    ghost size = { λ m. m.machine.blocks };

    ghost sized = { λ _ told. Prim.cc };

    fn blocks(&self) -> u32 {
        self.machine.blocks()
    }

    fn read_block(&mut self, n: u32, into: &mut [u8]) -> Result<(), Failed> {
        self.machine.read_block(n, into)
    }

    fn write_block(&mut self, n: u32, from: &[u8]) -> Result<(), Failed> {
        self.machine.write_block(n, from)
    }

    fn sync(&mut self) -> Result<(), Failed> {
        self.machine.sync()
    }

    fn hear(&mut self, into: &mut [u8]) -> Result<usize, Failed> {
        self.machine.hear(into)
    }

    fn say(&mut self, from: &[u8]) -> Result<usize, Failed> {
        let count = self.machine.say(from)?;
        if from.starts_with(b"made: ") || from.starts_with(b"committed ") {
            self.kept_at = noted(self.kept_at, self.machine.moments());
        }
        Ok(count)
    }
}

impl Machine for Noting {
    fn fetch(&mut self, alloc: Global, name: &str, limit: u32) -> Result<Vec<u8>, FetchStop> {
        self.machine.fetch(alloc, name, limit)
    }

    fn attach(&mut self, alloc: Global, name: &str, make: Option<u32>) -> Result<(), AttachStop> {
        self.machine.attach(alloc, name, make)
    }
}
