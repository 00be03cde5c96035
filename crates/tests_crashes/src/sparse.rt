// A machine with a device that keeps only the blocks that were written, so that it may be a large
// one.
ghost use Rattle.std.specs.Prelude.{◌≡◌, ◌≤◌, false, length};
ghost use Rattle.gx_device.specs.Content.{nothing_told};
ghost use Rattle.gx_device.specs.Faults.{Rose, IsCounted};
ghost use Rattle.gx_device.specs.declared.device.TheConstants.{BLOCK_LEN};

use gx_device::{AttachStop, BLOCK_LEN, Device, Failed, FetchStop, Machine};
use gx_memory_machine::{Choice, MemoryMachine};
use std::alloc::Global;
use std::test::Fail;

// How many blocks of the device may be written.
const ROOM: u32 = 500;

/// A machine on which one device is made. Each of its calls is one of a machine in memory, whose
/// device has a block for each block that was written.
#[derive(Drop)]
pub(crate) struct SparseMachine {
    machine: MemoryMachine,
    // the blocks of the attached device, and of the device that was made
    blocks: u32,
    made: u32,
    // the block of this number stands at its place here in the machine
    written: Vec<u32>,
    faults: u64,
}

impl SparseMachine {
    /// This machine, on which no device was made yet.
    pub(crate) fn new(alloc: Global, machine: MemoryMachine) -> SparseMachine {
        SparseMachine {
            machine,
            blocks: 0,
            made: 0,
            written: Vec::new(alloc),
            faults: 0,
        }
    }

    /// The bytes said so far.
    pub(crate) fn said(&self) -> &[u8] {
        self.machine.said()
    }

    /// The clock: each call took a moment.
    pub(crate) fn moments(&self) -> u32 {
        self.machine.moments()
    }

    /// What a crash at a moment leaves; of a moment to come, what it leaves now.
    pub(crate) fn crash(
        &self,
        alloc: Global,
        moment: u32,
        choice: Choice,
    ) -> Result<SparseMachine, Fail> {
        let moment = moment.min(self.machine.moments());
        Ok(SparseMachine {
            machine: self.machine.crash(alloc, moment, choice)?,
            blocks: 0,
            made: self.made,
            written: self.written.to_vec(alloc)?,
            faults: 0,
        })
    }

    /// Gives the machine a script, and room for its calls.
    pub(crate) fn set_script(&mut self, alloc: Global, script: &[u8]) -> Result<(), Fail> {
        self.machine.set_script(alloc, script)?;
        self.machine.reserve(alloc, 2_000, 4_000_000)?;
        Ok(())
    }

    /// Makes the call of that number fail.
    pub(crate) fn fail_at(&mut self, alloc: Global, call: u32) -> Result<(), Fail> {
        Ok(self.machine.fail_at(alloc, call)?)
    }

    // Where a block stands in the machine, if it was written.
    fn place_of(&self, block: u32) -> Option<u32> {
        let place = self.written.iter().position(|it| *it == block)?;
        u32::try_from(place).ok()
    }

    // Where a block stands in the machine, or is to stand.
    fn place_for(&mut self, block: u32) -> Option<u32>
        ensures blocks { self.new.blocks ≡ self.old.blocks }
        ensures faults { self.new.faults ≡ self.old.faults }
    {
        if let Some(place) = self.place_of(block) {
            return Some(place);
        }
        self.written.push(block).ok()?;
        self.place_of(block)
    }

    fn count_fault(&mut self)
        ensures later { self.old.faults ≤ self.new.faults }
        ensures rose { Rose self.old.faults self.new.faults }
        ensures blocks { self.new.blocks ≡ self.old.blocks }
    {
        self.faults = self.faults.saturating_add(1);
    }

    // Counts a fault where a call failed.
    fn counted(&mut self, answer: Result<(), Failed>) -> Result<(), Failed>
        ensures same { result ≡ answer }
        ensures counted { IsCounted self.old.faults self.new.faults result }
        ensures blocks { self.new.blocks ≡ self.old.blocks }
    {
        if answer.is_err() {
            self.count_fault();
        }
        answer
    }

    // Reads what stands at a place of the machine.
    fn read_at(&mut self, place: u32, into: &mut [u8]) -> Result<(), Failed>
        requires { length into.old ≡ BLOCK_LEN }
        ensures room { length into.new ≡ length into.old }
        ensures blocks { self.new.blocks ≡ self.old.blocks }
        ensures faults { self.new.faults ≡ self.old.faults }
    {
        if place < self.machine.blocks() {
            self.machine.read_block(place, into)
        } else {
            Err(Failed)
        }
    }

    // Writes at a place of the machine, if it has one.
    fn write_at(&mut self, place: Option<u32>, from: &[u8]) -> Result<(), Failed>
        requires { length from.now ≡ BLOCK_LEN }
        ensures blocks { self.new.blocks ≡ self.old.blocks }
        ensures faults { self.new.faults ≡ self.old.faults }
    {
        match place {
            Some(place) if place < self.machine.blocks() => self.machine.write_block(place, from),
            _ => Err(Failed),
        }
    }
}

impl Device for SparseMachine {
    ghost tells = { false };

    ghost content = { λ _. nothing_told };

    ghost faults = { λ m. m.faults };

    ghost size = { λ m. m.blocks };

    ghost sized = { λ _ told. Prim.cc };

    fn blocks(&self) -> u32 {
        self.blocks
    }

    // A block that was never written is zeros. To read it is a call too, which may fail.
    fn read_block(&mut self, n: u32, into: &mut [u8]) -> Result<(), Failed> {
        let place = self.place_of(n);
        let answer = self.read_at(place.unwrap_or(0), into);
        if place.is_none() {
            into.fill(0);
        }
        self.counted(answer)
    }

    fn write_block(&mut self, n: u32, from: &[u8]) -> Result<(), Failed> {
        let place = self.place_for(n);
        let answer = self.write_at(place, from);
        self.counted(answer)
    }

    fn sync(&mut self) -> Result<(), Failed> {
        let answer = self.machine.sync();
        self.counted(answer)
    }

    fn hear(&mut self, into: &mut [u8]) -> Result<usize, Failed> {
        let answer = self.machine.hear(into);
        if answer.is_err() {
            self.count_fault();
        }
        answer
    }

    fn say(&mut self, from: &[u8]) -> Result<usize, Failed> {
        let answer = self.machine.say(from);
        if answer != Ok(from.len()) {
            self.count_fault();
        }
        answer
    }
}

impl Machine for SparseMachine {
    fn fetch(&mut self, alloc: Global, name: &str, limit: u32) -> Result<Vec<u8>, FetchStop> {
        let answer = self.machine.fetch(alloc, name, limit);
        if let Err(FetchStop::Fault) = answer {
            self.count_fault();
        }
        answer
    }

    fn attach(&mut self, alloc: Global, name: &str, make: Option<u32>) -> Result<(), AttachStop> {
        let room = make.map(|blocks| blocks.min(ROOM));
        let answer = self.machine.attach(alloc, name, room);
        if answer.is_ok() {
            self.made = make.unwrap_or(self.made);
            self.blocks = self.made;
        }
        if answer == Err(AttachStop::Fault) {
            self.count_fault();
        }
        answer
    }
}
