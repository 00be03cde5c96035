// A device is laid out: a closed gate, an empty bitmap, and the texts.
ghost use Rattle.std.specs.Prelude.{◌≡◌, ◌<◌, ◌≤◌, ◌+◌, ◌∷◌, ℕ, false, length, IsTrue, OnOk};
ghost use Rattle.std.specs.Int.{w16, to_be_bytes};
ghost use Rattle.gx_device.specs.Content.{NonePending, block_of};
ghost use Rattle.gx_device.specs.Crash.{Through, Outside, LeavesOnly};
ghost use Rattle.gx_device.specs.Faults.{IsCounted};
ghost use Rattle.gx_layout.specs.Layout.{OnlyBlocks, head_of, is_open, has_bit_on};
ghost use Rattle.gx_layout.specs.Places.{first_text, head_blocks, most_pages};
ghost use Rattle.gx_layout.specs.Head.{text_area, text_blocks, block_in, IsText, IsFormatted};
ghost use Rattle.gx_layout.specs.Besides.{IsImageBesides};
ghost use Rattle.gx_layout.specs.Calls.{TouchesOnly};
ghost use Rattle.gx_device.specs.declared.device.TheConstants.{BLOCK_LEN};
ghost use Rattle.gx_layout.specs.declared.places.TheConstants.{TEXT_BLOCKS, TEXT_AREA_LEN, MAX_TEXTS_LEN};

use crate::bitmap::write_bitmap;
use crate::gate::set_gate;
use crate::places::{LENGTH_LEN, MAX_TEXTS_LEN, TEXT_AREA_LEN, TEXT_BLOCKS, first_text};
use gx_bytes::overwrite;
use gx_device::{BLOCK_LEN, Device, Failed};

// The length of a text, as it is written.
fn length_bytes(text: &[u8]) -> [u8; LENGTH_LEN]
    requires { length text.now < 65536 }
    ensures { result ≡ to_be_bytes w16 (length text.now) }
{
    (text.len() as u16).to_be_bytes()
}

// The bytes of the text blocks.
pub(crate) fn text_area(schema: &[u8], equation: &[u8]) -> [u8; TEXT_AREA_LEN]
    requires { length schema.now + length equation.now ≤ MAX_TEXTS_LEN }
    ensures { result ≡ text_area schema.now equation.now }
{
    let mut area = [0; TEXT_AREA_LEN];
    overwrite(&mut area, 0, &length_bytes(schema));
    overwrite(&mut area, LENGTH_LEN, &length_bytes(equation));
    overwrite(&mut area, 2 * LENGTH_LEN, schema);
    overwrite(&mut area, 2 * LENGTH_LEN + schema.len(), equation);
    area
}

/// One of the text blocks.
pub(crate) fn text_block(area: &[u8], i: u32) -> &[u8]
    requires below { i < TEXT_BLOCKS }
    requires bytes { length area.now ≡ TEXT_AREA_LEN }
    ensures is { result.now ≡ block_in area.now i }
    ensures long { length result.now ≡ BLOCK_LEN }
{
    let at = BLOCK_LEN * i as usize;
    &area[at..at + BLOCK_LEN]
}

fn write_texts<D: Device>(device: &mut D, area: &[u8]) -> Result<(), Failed>
    requires room { head_blocks (D.size device.old) ≤ D.size device.old }
    requires bytes { length area.now ≡ TEXT_AREA_LEN }
    ensures texts { IsTrue D.tells → OnOk result
        ((i : ℕ) → i < TEXT_BLOCKS →
        block_of (D.content device.new).now (first_text (D.size device.old) + i)
        ≡ block_in area.now i) }
    ensures run { Through (Outside (IsText (D.size device.old)) (D.content device.old).now)
        (D.content device.old) (D.content device.new) }
    ensures rest { OnlyBlocks (IsText (D.size device.old)) (D.content device.old)
        (D.content device.new) }
    ensures size { D.size device.new ≡ D.size device.old }
    ensures faults { IsCounted (D.faults device.old) (D.faults device.new) result }
{
    let first = first_text(device.blocks());
    for i in 0..TEXT_BLOCKS {
        device.write_block(first + i, text_block(area, i))?;
    }
    Ok(())
}

// Writes all blocks of an empty layout.
fn lay_out<D: Device>(device: &mut D, schema: &[u8], equation: &[u8]) -> Result<(), Failed>
    requires room { head_blocks (D.size device.old) ≤ D.size device.old }
    requires texts { length schema.now + length equation.now ≤ MAX_TEXTS_LEN }
    ensures head { IsTrue D.tells → OnOk result (head_of (D.content device.new).now.blocks
        ≡ block_of (D.content device.old).now 0 ∷ text_blocks schema.now equation.now) }
    ensures closed { IsTrue D.tells →
        OnOk result (is_open (block_of (D.content device.new).now 1) ≡ false) }
    ensures bitmap { IsTrue D.tells → OnOk result ((p : ℕ) → p < most_pages (D.size device.old) →
        has_bit_on (D.content device.new).now.blocks p ≡ false) }
    ensures run { Through (Outside (IsFormatted (D.size device.old)) (D.content device.old).now)
        (D.content device.old) (D.content device.new) }
    ensures touches { TouchesOnly D.Device (IsFormatted (D.size device.old)) device.old device.new
        result }
{
    set_gate(device, false)?;
    write_bitmap(device, &[])?;
    write_texts(device, &text_area(schema, equation))
}

/// Lays out a device: the gate is closed, the bitmap is empty, and the text blocks hold the texts.
/// The block of the magic and the pages stay as they are.
pub fn format<D: Device>(device: &mut D, schema: &[u8], equation: &[u8]) -> Result<(), Failed>
    requires room { head_blocks (D.size device.old) ≤ D.size device.old }
    requires texts { length schema.now + length equation.now ≤ MAX_TEXTS_LEN }
    ensures head { IsTrue D.tells → OnOk result (head_of (D.content device.new).now.blocks
        ≡ block_of (D.content device.old).now 0 ∷ text_blocks schema.now equation.now) }
    ensures closed { IsTrue D.tells →
        OnOk result (is_open (block_of (D.content device.new).now 1) ≡ false) }
    ensures bitmap { IsTrue D.tells → OnOk result ((p : ℕ) → p < most_pages (D.size device.old) →
        has_bit_on (D.content device.new).now.blocks p ≡ false) }
    ensures none_pending { IsTrue D.tells → OnOk result (NonePending (D.content device.new)) }
    ensures images { LeavesOnly
        (IsImageBesides (IsFormatted (D.size device.old)) (D.content device.old).now)
        (D.content device.old) (D.content device.new) }
    ensures touches { TouchesOnly D.Device (IsFormatted (D.size device.old)) device.old device.new
        result }
{
    lay_out(device, schema, equation)?;
    device.sync()
}
