// A device that keeps only its writes and its syncs, so that it may be a large one, and what a
// crash leaves at each of its moments.
ghost use Rattle.std.specs.Prelude.{◌≡◌, ◌≤◌, false};
ghost use Rattle.gx_device.specs.Content.{nothing_told};
ghost use Rattle.gx_device.specs.Faults.{Rose, IsCounted};

use gx_device::{BLOCK_LEN, Device, Failed};
use gx_memory_machine::Choice;
use std::alloc::Global;
use std::test::Fail;

/// A call that changed the device.
#[derive(Clone, Copy)]
enum Step {
    Write { block: u32, bytes: [u8; BLOCK_LEN] },
    Sync,
}

/// The bytes that these calls wrote into a block last; zeros where they wrote none.
fn last_written(steps: &[Step], block: u32) -> [u8; BLOCK_LEN] {
    let mut last = [0; BLOCK_LEN];
    for step in steps {
        if let Step::Write {
            block: written,
            bytes,
        } = step
        {
            if *written == block {
                last = *bytes;
            }
        }
    }
    last
}

/// How many of these calls come before the last sync.
fn synced(steps: &[Step]) -> usize {
    let mut count = 0;
    for (place, step) in steps.iter().enumerate() {
        if let Step::Sync = step {
            count = place;
        }
    }
    count
}

/// What a crash leaves in a block that was written since the last sync.
fn left(choice: Choice, written: [u8; BLOCK_LEN], synced: [u8; BLOCK_LEN]) -> [u8; BLOCK_LEN] {
    match choice {
        Choice::Old => synced,
        Choice::New => written,
        Choice::Fill(byte) => [byte; BLOCK_LEN],
        Choice::Split(count) => {
            let mut bytes = synced;
            let count = (count as usize).min(BLOCK_LEN);
            bytes[..count].copy_from_slice(&written[..count]);
            bytes
        }
    }
}

/// A device of zeros, into which these blocks were written. It fails for want of memory alone, and
/// hears and says nothing.
#[derive(Drop)]
pub(crate) struct SparseDevice {
    blocks: u32,
    steps: Vec<Step>,
    faults: u64,
}

impl SparseDevice {
    /// A device of so many blocks.
    pub(crate) fn new(alloc: Global, blocks: u32) -> SparseDevice
        ensures { result.blocks ≡ blocks }
    {
        SparseDevice {
            blocks,
            steps: Vec::new(alloc),
            faults: 0,
        }
    }

    fn count_fault(&mut self)
        ensures later { self.old.faults ≤ self.new.faults }
        ensures rose { Rose self.old.faults self.new.faults }
        ensures blocks { self.new.blocks ≡ self.old.blocks }
    {
        self.faults = self.faults.saturating_add(1);
    }

    /// The bytes of a block.
    pub(crate) fn bytes_of(&self, block: u32) -> [u8; BLOCK_LEN] {
        last_written(&self.steps, block)
    }

    /// The clock: each write and each sync takes a moment.
    pub(crate) fn moments(&self) -> usize {
        self.steps.len()
    }

    /// What a crash at a moment leaves: a device in which each block that was written since the
    /// last sync before it is as chosen.
    pub(crate) fn crash(
        &self,
        alloc: Global,
        moment: usize,
        choice: Choice,
    ) -> Result<SparseDevice, Fail> {
        let past = &self.steps[..moment.min(self.steps.len())];
        let (kept, pending) = past.split_at(synced(past).min(past.len()));
        let mut crashed = SparseDevice::new(alloc, self.blocks);
        crashed.steps.extend_from_slice(kept)?;
        for step in pending {
            if let Step::Write { block, .. } = step {
                let bytes = left(
                    choice,
                    last_written(past, *block),
                    last_written(kept, *block),
                );
                crashed.steps.push(Step::Write {
                    block: *block,
                    bytes,
                })?;
            }
        }
        Ok(crashed)
    }

    fn note(&mut self, step: Step) -> Result<(), Failed>
        ensures counted { IsCounted self.old.faults self.new.faults result }
        ensures blocks { self.new.blocks ≡ self.old.blocks }
    {
        if self.steps.push(step).is_err() {
            self.count_fault();
            return Err(Failed);
        }
        Ok(())
    }
}

impl Device for SparseDevice {
    ghost tells = { false };

    ghost content = { λ _. nothing_told };

    ghost faults = { λ d. d.faults };

    ghost size = { λ d. d.blocks };

    ghost sized = { λ _ told. Prim.cc };

    fn blocks(&self) -> u32 {
        self.blocks
    }

    fn read_block(&mut self, n: u32, into: &mut [u8]) -> Result<(), Failed> {
        into.copy_from_slice(&self.bytes_of(n));
        Ok(())
    }

    fn write_block(&mut self, n: u32, from: &[u8]) -> Result<(), Failed> {
        let mut bytes = [0; BLOCK_LEN];
        bytes.copy_from_slice(from);
        self.note(Step::Write { block: n, bytes })
    }

    fn sync(&mut self) -> Result<(), Failed> {
        self.note(Step::Sync)
    }

    fn hear(&mut self, _into: &mut [u8]) -> Result<usize, Failed> {
        Ok(0)
    }

    fn say(&mut self, from: &[u8]) -> Result<usize, Failed> {
        Ok(from.len())
    }
}
