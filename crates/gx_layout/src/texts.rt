// The texts on a device are compared.
ghost use Rattle.std.specs.Prelude.{◌≡◌, ◌≢◌, ◌<◌, ◌≤◌, ◌+◌, ℕ, length, slice_index_or, IsTrue, IfOk, MatchOption};
ghost use Rattle.gx_device.specs.Faults.{IsCounted};
ghost use Rattle.gx_layout.specs.Layout.{head_of};
ghost use Rattle.gx_layout.specs.Head.{DifferFirst, text_at, text_area};
ghost use Rattle.gx_layout.specs.Calm.{OnlyReads};
ghost use Rattle.gx_layout.specs.Places.{head_blocks};
ghost use Rattle.gx_layout.specs.declared.places.TheConstants.{MAX_TEXTS_LEN};

use crate::formatting::{text_area, text_block};
use crate::places::{TEXT_BLOCKS, first_text};
use gx_device::{BLOCK_LEN, Device, Failed};

// The first place in which two blocks differ.
fn first_difference(xs: &[u8], ys: &[u8]) -> Option<usize>
    requires { length xs.now ≡ length ys.now }
    ensures { MatchOption result
        ((k : ℕ) → k < length xs.now → slice_index_or xs.now k 0 ≡ slice_index_or ys.now k 0)
        (λ at. (at < length xs.now) × (slice_index_or xs.now at 0 ≢ slice_index_or ys.now at 0)
        × ((k : ℕ) → k < at → slice_index_or xs.now k 0 ≡ slice_index_or ys.now k 0)) }
{
    for k in 0..xs.len() {
        if xs[k] != ys[k] {
            return Some(k);
        }
    }
    None
}

/// The first place of the text area, counted from 0, in which the device differs from these texts;
/// None where it has them.
pub fn texts_differ<D: Device>(
    device: &mut D,
    schema: &[u8],
    equation: &[u8],
) -> Result<Option<u16>, Failed>
    requires room { head_blocks (D.size device.old) ≤ D.size device.old }
    requires texts { length schema.now + length equation.now ≤ MAX_TEXTS_LEN }
    ensures place { IsTrue D.tells →
        IfOk result (DifferFirst (text_at (head_of (D.content device.old).now.blocks))
        (λ q. slice_index_or (text_area schema.now equation.now) q 0)) }
    ensures reads { OnlyReads (D.content device.old) (D.content device.new) }
    ensures size { D.size device.new ≡ D.size device.old }
    ensures faults { IsCounted (D.faults device.old) (D.faults device.new) result }
{
    let area = text_area(schema, equation);
    let first = first_text(device.blocks());
    for i in 0..TEXT_BLOCKS {
        let mut block = [0; BLOCK_LEN];
        device.read_block(first + i, &mut block)?;
        if let Some(at) = first_difference(&block, text_block(&area, i)) {
            return Ok(Some((BLOCK_LEN * i as usize + at) as u16));
        }
    }
    Ok(None)
}
