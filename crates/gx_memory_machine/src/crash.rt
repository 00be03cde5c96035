// What a crash leaves in a block that is pending.
ghost use Rattle.std.specs.Prelude.{◌≡◌, length};
ghost use Rattle.gx_device.specs.declared.device.TheConstants.{BLOCK_LEN};
ghost use Rattle.gx_memory_machine.specs.Crash.{chosen};

use gx_device::BLOCK_LEN;

/// What a crash leaves in each block that is pending.
#[derive(Clone, Copy, Debug, PartialEq, Eq)]
pub enum Choice {
    /// The bytes as of the last moment at which the block wasn't pending.
    Old,
    /// The bytes that the block reads as.
    New,
    /// This byte, 4,096 times.
    Fill(u8),
    /// So many first bytes as the block reads, and the others as in `Old`. More than 4,096 count as
    /// 4,096.
    Split(u16),
}

/// Makes of a block what a crash leaves, by its synced bytes.
pub fn spoil(block: &mut [u8; BLOCK_LEN], synced: &[u8; BLOCK_LEN], choice: Choice)
    ensures { block.new ≡ chosen choice synced.now block.old }
{
    match choice {
        Choice::Old => *block = *synced,
        Choice::New => {}
        Choice::Fill(byte) => *block = [byte; BLOCK_LEN],
        Choice::Split(count) => {
            let count = (count as usize).min(BLOCK_LEN);
            block[count..].copy_from_slice(&synced[count..]);
        }
    }
}
