// What a crash left is settled.
ghost use Rattle.std.specs.Prelude.{◌≡◌, ◌↔◌, ◌<◌, ◌≤◌, ◌+◌, ◌*◌, true, false, length, IsTrue, IfOk, OnOk};
ghost use Rattle.gx_device.specs.Content.{OnlyTime, NonePending, Silent, block_of};
ghost use Rattle.gx_device.specs.Faults.{IsCounted};
ghost use Rattle.gx_device.specs.Crash.{Through, Outside, LeavesOnly};
ghost use Rattle.gx_layout.specs.Layout.{View, is_open, has_bit, has_bit_on, bit_in, IsIn, flags, StandsFor, ReadsAs, AtRest, IsReady, CopiedBelow, OnlyBlocks};
ghost use Rattle.gx_layout.specs.Places.{head_blocks, home, most_pages};
ghost use Rattle.gx_layout.specs.Calls.{RecoversOnly};
ghost use Rattle.gx_layout.specs.Head.{HasMagic};
ghost use Rattle.gx_layout.specs.Recovered.{Recovers, IsOfRecovery};
ghost use Rattle.gx_device.specs.declared.device.TheConstants.{BLOCK_LEN};
ghost use Rattle.gx_layout.specs.declared.bitmap.TheConstants.{BITS};

use crate::bitmap::BITS;
use crate::gate::close_gate;
use crate::head::has_magic;
use crate::places::{bitmap_blocks, head_blocks};
use gx_device::{BLOCK_LEN, Device, Failed};

fn bit_of(bitmap: &[u8], p: usize) -> bool
    requires room { length bitmap.now ≡ BLOCK_LEN }
    requires below { p < BITS }
    ensures { result ≡ has_bit bitmap.now p }
{
    bitmap[p / 8] >> (7 - p % 8) & 1 == 1
}

fn is_gate_open<D: Device>(device: &mut D) -> Result<bool, Failed>
    requires { 1 < D.size device.old }
    ensures gate { IsTrue D.tells →
        IfOk result (λ opened. is_open (block_of (D.content device.old).now 1) ≡ opened) }
    ensures rest { OnlyTime (D.content device.old) (D.content device.new) }
    ensures size { D.size device.new ≡ D.size device.old }
    ensures faults { IsCounted (D.faults device.old) (D.faults device.new) result }
{
    let mut gate = [0; BLOCK_LEN];
    device.read_block(1, &mut gate)?;
    Ok(gate[0] == 0xA5)
}

fn copy_page<D: Device>(device: &mut D, slot: u32, home: u32) -> Result<(), Failed>
    requires slot { slot < D.size device.old }
    requires home { home < D.size device.old }
    ensures copied { IsTrue D.tells →
        OnOk result (block_of (D.content device.new).now home
        ≡ block_of (D.content device.old).now slot) }
    ensures rest { Through (Outside (λ n. n ≡ home) (D.content device.old).now)
        (D.content device.old) (D.content device.new) }
    ensures touched { OnlyBlocks (λ n. n ≡ home) (D.content device.old) (D.content device.new) }
    ensures size { D.size device.new ≡ D.size device.old }
    ensures faults { IsCounted (D.faults device.old) (D.faults device.new) result }
{
    let mut page = [0; BLOCK_LEN];
    device.read_block(slot, &mut page)?;
    device.write_block(home, &page)
}

// The pages that block i of the bitmap names, which has these bytes, go from their slots to their
// homes.
fn copy_named<D: Device>(device: &mut D, block: &[u8], i: u32, pages: u32) -> Result<(), Failed>
    requires room { head_blocks (D.size device.old) + 2 * pages ≤ D.size device.old }
    requires below { i < 8 }
    requires bits { length block.now ≡ BLOCK_LEN }
    ensures copied { IsTrue D.tells →
        OnOk result
        (CopiedBelow pages (D.size device.old) pages (bit_in i block.now)
        (D.content device.old).now (D.content device.new).now) }
    ensures rest { Through (Outside
        (IsIn (home (D.size device.old) pages 0) (flags (bit_in i block.now) pages))
        (D.content device.old).now) (D.content device.old) (D.content device.new) }
    ensures touched { OnlyBlocks
        (IsIn (home (D.size device.old) pages 0) (flags (bit_in i block.now) pages))
        (D.content device.old) (D.content device.new) }
    ensures size { D.size device.new ≡ D.size device.old }
    ensures faults { IsCounted (D.faults device.old) (D.faults device.new) result }
{
    let first = head_blocks(device.blocks());
    let from = i * BITS as u32;
    for p in from..pages.min(from + BITS as u32) {
        if bit_of(block, p as usize % BITS) {
            copy_page(device, first + p, first + pages + p)?;
        }
    }
    Ok(())
}

// The pages that the bitmap names go from their slots to their homes.
fn copy_home<D: Device>(device: &mut D, pages: u32) -> Result<(), Failed>
    requires room { head_blocks (D.size device.old) + 2 * pages ≤ D.size device.old }
    requires limit { pages ≤ most_pages (D.size device.old) }
    ensures copied { IsTrue D.tells →
        OnOk result
        (CopiedBelow pages (D.size device.old) pages (has_bit_on (D.content device.old).now.blocks)
        (D.content device.old).now (D.content device.new).now) }
    ensures rest { IsTrue D.tells → Through (Outside
        (IsIn (home (D.size device.old) pages 0)
        (flags (has_bit_on (D.content device.old).now.blocks) pages))
        (D.content device.old).now) (D.content device.old) (D.content device.new) }
    ensures touched { IsTrue D.tells → OnlyBlocks
        (IsIn (home (D.size device.old) pages 0)
        (flags (has_bit_on (D.content device.old).now.blocks) pages))
        (D.content device.old) (D.content device.new) }
    ensures silent { Silent (D.content device.old) (D.content device.new) }
    ensures size { D.size device.new ≡ D.size device.old }
    ensures faults { IsCounted (D.faults device.old) (D.faults device.new) result }
{
    for i in 0..bitmap_blocks(device.blocks()) {
        let mut block = [0; BLOCK_LEN];
        device.read_block(2 + i, &mut block)?;
        copy_named(device, &block, i, pages)?;
    }
    Ok(())
}

// Where the gate is open, the pages that the bitmap names go home.
fn bring_back<D: Device>(device: &mut D, pages: u32) -> Result<(), Failed>
    requires room { head_blocks (D.size device.old) + 2 * pages ≤ D.size device.old }
    requires limit { pages ≤ most_pages (D.size device.old) }
    ensures images { IsTrue D.tells → (v : View) → length v.pages ≡ pages →
        NonePending (D.content device.old) → ReadsAs (D.content device.old).now v
        → is_open (block_of (D.content device.old).now 1) ≡ true →
        LeavesOnly (StandsFor v) (D.content device.old) (D.content device.new) }
    ensures ready { IsTrue D.tells → (v : View) → length v.pages ≡ pages →
        NonePending (D.content device.old) → ReadsAs (D.content device.old).now v
        → is_open (block_of (D.content device.old).now 1) ≡ true
        → OnOk result
        (IsReady (D.content device.new).now v v
        (flags (has_bit_on (D.content device.old).now.blocks) pages)) }
    ensures touched { IsTrue D.tells →
        OnlyBlocks
        (IsIn (home (D.size device.old) pages 0)
        (flags (has_bit_on (D.content device.old).now.blocks) pages))
        (D.content device.old) (D.content device.new) }
    ensures silent { Silent (D.content device.old) (D.content device.new) }
    ensures size { D.size device.new ≡ D.size device.old }
    ensures faults { IsCounted (D.faults device.old) (D.faults device.new) result }
{
    copy_home(device, pages)?;
    device.sync()
}

// Settles what a crash left, after a sync: the gate is closed over the pages that the blocks stand
// for.
/// A crash at any moment leaves the same pages.
fn settle<D: Device>(device: &mut D, pages: u32) -> Result<(), Failed>
    requires room { head_blocks (D.size device.old) + 2 * pages ≤ D.size device.old }
    requires limit { pages ≤ most_pages (D.size device.old) }
    ensures images { IsTrue D.tells → (v : View) → length v.pages ≡ pages →
        NonePending (D.content device.old) → ReadsAs (D.content device.old).now v
        → LeavesOnly (StandsFor v) (D.content device.old) (D.content device.new) }
    ensures at_rest { IsTrue D.tells → (v : View) → length v.pages ≡ pages →
        NonePending (D.content device.old) → ReadsAs (D.content device.old).now v
        → OnOk result (AtRest (D.content device.new).now v) }
    ensures none_pending { IsTrue D.tells → NonePending (D.content device.old) →
        OnOk result (NonePending (D.content device.new)) }
    ensures touched { IsTrue D.tells →
        OnlyBlocks (IsOfRecovery pages (D.content device.old).now.blocks) (D.content device.old)
        (D.content device.new) }
    ensures silent { Silent (D.content device.old) (D.content device.new) }
    ensures size { D.size device.new ≡ D.size device.old }
    ensures faults { IsCounted (D.faults device.old) (D.faults device.new) result }
{
    if is_gate_open(device)? {
        bring_back(device, pages)?;
        close_gate(device)?;
    }
    Ok(())
}

/// Recovers what a crash left, where the device has the magic, and tells whether it has. It begins
/// with a sync. Until that sync a crash leaves what one right before the call could have left; from
/// then on it leaves the same pages. Without the magic no block is written, whatever is answered.
/// After an Ok no block is pending. After `Failed` a later call recovers the same pages.
#[tactic(auto, using(crate::proofs::RecoverLemmas::unwritten_read))]
pub fn recover<D: Device>(device: &mut D, pages: u32) -> Result<bool, Failed>
    requires room { head_blocks (D.size device.old) + 2 * pages ≤ D.size device.old }
    requires limit { pages ≤ most_pages (D.size device.old) }
    ensures magic { IsTrue D.tells → IfOk result
        (λ found. IsTrue found
        ↔ HasMagic (D.size device.old) (block_of (D.content device.old).now 0)) }
    ensures images { IsTrue D.tells → (v : View) → length v.pages ≡ pages →
        ReadsAs (D.content device.old).now v →
        Recovers v (D.content device.old) (D.content device.new) }
    ensures at_rest { IsTrue D.tells → (v : View) → length v.pages ≡ pages →
        ReadsAs (D.content device.old).now v
        → IfOk result (λ found. found ≡ true → AtRest (D.content device.new).now v) }
    ensures none_pending { IsTrue D.tells → OnOk result (NonePending (D.content device.new)) }
    ensures recovers { RecoversOnly D.Device pages device.old device.new result }
{
    device.sync()?;
    let found = has_magic(device)?;
    if found {
        settle(device, pages)?;
    }
    Ok(found)
}
