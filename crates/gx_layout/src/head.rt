// The block of the magic.
ghost use Rattle.std.specs.Prelude.{◌≡◌, ◌↔◌, ◌<◌, IsTrue, IfOk, OnOk};
ghost use Rattle.gx_device.specs.Content.{OnlyTime, NonePending, block_of};
ghost use Rattle.gx_device.specs.Crash.{LeavesOnly};
ghost use Rattle.gx_device.specs.Faults.{IsCounted};
ghost use Rattle.gx_layout.specs.Layout.{View, AtRest, OnlyBlocks};
ghost use Rattle.gx_layout.specs.Head.{HasMagic};
ghost use Rattle.gx_layout.specs.Places.{magic_of};
ghost use Rattle.gx_layout.specs.Besides.{IsUnsealed};

use crate::places::FIRST_MOST;
use gx_bytes::overwrite;
use gx_device::{BLOCK_LEN, Device, Failed};

// The bytes that the first block of a database begins with, on a device of so many blocks.
fn magic_of(size: u32) -> &'static [u8]
    ensures { result.now ≡ magic_of size }
{
    if size <= FIRST_MOST {
        b"GENESIS1"
    } else {
        b"GENESIS2"
    }
}

/// Whether the device has the magic.
pub(crate) fn has_magic<D: Device>(device: &mut D) -> Result<bool, Failed>
    requires { 0 < D.size device.old }
    ensures magic { IsTrue D.tells → IfOk result
        (λ found. IsTrue found
        ↔ HasMagic (D.size device.old) (block_of (D.content device.old).now 0)) }
    ensures rest { OnlyTime (D.content device.old) (D.content device.new) }
    ensures size { D.size device.new ≡ D.size device.old }
    ensures faults { IsCounted (D.faults device.old) (D.faults device.new) result }
{
    let mut block = [0; BLOCK_LEN];
    device.read_block(0, &mut block)?;
    Ok(block.starts_with(magic_of(device.blocks())))
}

fn magic_block(size: u32) -> [u8; BLOCK_LEN]
    ensures { HasMagic size result }
{
    let mut block = [0; BLOCK_LEN];
    overwrite(&mut block, 0, magic_of(size));
    block
}

/// Writes the magic. After `Failed` block 0 may read as anything, and may be pending.
pub fn seal<D: Device>(device: &mut D) -> Result<(), Failed>
    requires { 0 < D.size device.old }
    ensures magic { IsTrue D.tells →
        OnOk result (HasMagic (D.size device.old) (block_of (D.content device.new).now 0)) }
    ensures none_pending { IsTrue D.tells → OnOk result (NonePending (D.content device.new)) }
    ensures images { (v : View) → AtRest (D.content device.old).now v
        → LeavesOnly (IsUnsealed v) (D.content device.old) (D.content device.new) }
    ensures rest { OnlyBlocks (λ n. n ≡ 0) (D.content device.old) (D.content device.new) }
    ensures size { D.size device.new ≡ D.size device.old }
    ensures faults { IsCounted (D.faults device.old) (D.faults device.new) result }
{
    let block = magic_block(device.blocks());
    device.write_block(0, &block)?;
    device.sync()
}
