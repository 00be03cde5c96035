// The lines of places.
ghost use Rattle.std.specs.Prelude.{◌≡◌, ◌<◌, ◌≤◌, ◌==◌, length, count_by, IfOk};
ghost use Rattle.gx_tokens.specs.Lines.{line_of};
ghost use Rattle.gx_equation.specs.Definitions.{lines_of};
ghost use Rattle.gx_equation.specs.Places.{AreInOrder};

use crate::equation::Lines;
use std::alloc::{AllocError, Global};

// How many lines end within the bytes.
fn count_ends(bytes: &[u8]) -> usize
    ensures value { result ≡ count_by (λ byte. byte == 10) bytes.now }
    ensures within { result ≤ length bytes.now }
{
    bytes.iter().filter(|byte| **byte == b'\n').count()
}

// The line of the place `to`, counted on from the line of the place `from`, which doesn't stand
// behind it.
fn line_from(bytes: &[u8], from: usize, line: u32, to: usize) -> u32
    requires short { length bytes.now < 4294967295 }
    requires start { line ≡ line_of bytes.now from }
    requires order { to ≤ from }
    ensures { result ≡ line_of bytes.now to }
{
    let start = bytes.len().saturating_sub(from.max(1));
    let end = bytes.len().saturating_sub(to.max(1));
    line + count_ends(&bytes[start..end]) as u32
}

/// The line of each place, and then the text's last. It goes through the text once.
pub fn lines_of(alloc: Global, bytes: &[u8], places: &[usize]) -> Result<Lines, AllocError>
    requires short { length bytes.now < 4294967295 }
    requires order { AreInOrder (length bytes.now) places.now }
    ensures { IfOk result (λ lines. lines ≡ lines_of bytes.now places.now) }
{
    let mut lines = Vec::new(alloc);
    let mut from = bytes.len();
    let mut line = 1;
    for place in places {
        line = line_from(bytes, from, line, *place);
        from = *place;
        lines.push(line)?;
    }
    lines.push(line_from(bytes, from, line, 0))?;
    Ok(Lines(lines))
}
