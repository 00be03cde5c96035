// Texts as their runs.
ghost use Rattle.std.specs.Prelude.{◌≡◌, ◌≤◌, ◌<◌, ◌++◌, length, drop, IfOk};
ghost use Rattle.std.proofs.Math.ListN.{replicate};
ghost use Rattle.gx_encode.specs.Runs.{rle, IsCodeOfRuns, IsUnrle, is_next, repeats};

use gx_values::{NoMemory, Octets};
use std::alloc::{AllocError, Global};

/// The code of a text of at most 200 bytes: for each of its longest runs of one byte the count and
/// the byte. `NoMemory`: there was none for it.
pub fn rle_into(alloc: Global, text: &[u8]) -> Result<Octets, NoMemory>
    requires { length text.now ≤ 200 }
    ensures code { IfOk result (λ code. code ≡ rle text.now) }
    ensures runs { IfOk result (IsCodeOfRuns text.now) }
{
    let mut code = Vec::with_capacity(alloc, 2 * text.len())?;
    let mut rest = text;
    while !rest.is_empty() {
        let count = push_first(&mut code, rest)?;
        rest = behind(rest, count);
    }
    Ok(Octets(code))
}

// Appends the code of the first run, and gives how many bytes it has.
fn push_first(code: &mut Vec<u8>, text: &[u8]) -> Result<usize, AllocError>
    requires some { 0 < length text.now }
    requires few { length text.now ≤ 200 }
    ensures code { IfOk result (λ count. code.new.items ++ rle (drop count text.now)
        ≡ code.old.items ++ rle text.now) }
    ensures some { IfOk result (λ count. 0 < count) }
    ensures few { IfOk result (λ count. count ≤ length text.now) }
{
    let byte = text[0];
    let count = repeats(byte, text);
    code.push(count as u8)?;
    code.push(byte)?;
    Ok(count)
}

fn behind(text: &[u8], count: usize) -> &[u8]
    requires { count ≤ length text.now }
    ensures { result.now ≡ drop count text.now }
{
    &text[count..]
}

// How many bytes at the front are this one.
fn repeats(byte: u8, text: &[u8]) -> usize
    ensures count { result ≡ repeats byte text.now }
    ensures few { result ≤ length text.now }
{
    for (i, other) in text.iter().enumerate() {
        if byte != *other {
            return i;
        }
    }
    text.len()
}

/// The text of at most `longest` printable bytes whose code these bytes are. `None`: they are the
/// code of no such text, as where a count is 0 or above 200, two runs of one byte follow each
/// other, or a count has no byte. `NoMemory`: there was none for the text.
pub fn unrle(alloc: Global, bytes: &[u8], longest: u16) -> Result<Option<Octets>, NoMemory>
    ensures { IfOk result (IsUnrle longest bytes.now) }
{
    let mut text = Vec::with_capacity(alloc, usize::from(longest))?;
    let mut previous = None;
    let mut rest = bytes;
    while let [count, byte, ..] = rest {
        if !is_next(previous, *count, *byte, usize::from(longest) - text.len()) {
            return Ok(None);
        }
        push_run(&mut text, *count, *byte)?;
        previous = Some(*byte);
        rest = behind(rest, 2);
    }
    if rest.is_empty() {
        Ok(Some(Octets(text)))
    } else {
        Ok(None)
    }
}

// Whether a run of the byte may come after the one before, where so many bytes have room.
fn is_next(previous: Option<u8>, count: u8, byte: u8, room: usize) -> bool
    ensures { result ≡ is_next previous count byte room }
{
    previous != Some(byte)
        && count >= 1
        && count <= 200
        && usize::from(count) <= room
        && matches!(byte, 0x20..=0x7E)
}

fn push_run(text: &mut Vec<u8>, count: u8, byte: u8) -> Result<(), AllocError>
    ensures { IfOk result (λ _. text.new.items ≡ text.old.items ++ replicate count byte) }
{
    for _ in 0..count {
        text.push(byte)?;
    }
    Ok(())
}
