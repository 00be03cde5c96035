// The bitmap: which pages count in their slots.
ghost use Rattle.std.specs.Prelude.{◌≡◌, ◌≢◌, ◌<◌, ◌≤◌, ℕ, IsTrue, true, length, slice_index_or, OnOk};
ghost use Rattle.gx_device.specs.Crash.{Through, Outside};
ghost use Rattle.gx_device.specs.Faults.{IsCounted};
ghost use Rattle.gx_layout.specs.Layout.{OnlyBlocks, NamesBlock, NamesListed, has_bit, has_bit_on};
ghost use Rattle.gx_layout.specs.Places.{IsBitmap, first_text, most_pages};
ghost use Rattle.gx_device.specs.declared.device.TheConstants.{BLOCK_LEN};
ghost use Rattle.gx_layout.specs.declared.bitmap.TheConstants.{BITS};

use crate::places::bitmap_blocks;
use gx_device::{BLOCK_LEN, Device, Failed};

/// How many bits a block of the bitmap has: one for each of so many pages.
pub const BITS: usize = 8 * BLOCK_LEN;

fn set_bit(bits: &mut [u8], p: usize)
    requires room { length bits.old ≡ BLOCK_LEN }
    requires below { p < BITS }
    ensures set { has_bit bits.new p ≡ true }
    ensures others { (q : ℕ) → q ≢ p → has_bit bits.new q ≡ has_bit bits.old q }
{
    bits[p / 8] |= 1 << (7 - p % 8);
}

// Block i of the bitmap of the listed pages.
fn bitmap_of(listed: &[u32], i: usize) -> [u8; BLOCK_LEN]
    ensures { NamesBlock listed.now i result }
{
    let mut bits = [0; BLOCK_LEN];
    for k in 0..listed.len() {
        let page = listed[k] as usize;
        if page / BITS == i {
            set_bit(&mut bits, page % BITS);
        }
    }
    bits
}

/// Writes the bitmap of these pages: their bits are set, in any order and however often a page is
/// listed, and no other bit is. After `Failed` the bitmap may read as anything, and may be pending.
pub fn write_bitmap<D: Device>(device: &mut D, listed: &[u32]) -> Result<(), Failed>
    requires room { first_text (D.size device.old) ≤ D.size device.old }
    requires listed { (i : ℕ) → i < length listed.now →
        slice_index_or listed.now i 0 < most_pages (D.size device.old) }
    ensures written { IsTrue D.tells → OnOk result
        (NamesListed listed.now (has_bit_on (D.content device.new).now.blocks)
        (most_pages (D.size device.old))) }
    ensures run { Through (Outside (IsBitmap (D.size device.old)) (D.content device.old).now)
        (D.content device.old) (D.content device.new) }
    ensures rest { OnlyBlocks (IsBitmap (D.size device.old)) (D.content device.old)
        (D.content device.new) }
    ensures size { D.size device.new ≡ D.size device.old }
    ensures faults { IsCounted (D.faults device.old) (D.faults device.new) result }
{
    for i in 0..bitmap_blocks(device.blocks()) {
        device.write_block(2 + i, &bitmap_of(listed, i as usize))?;
    }
    Ok(())
}
