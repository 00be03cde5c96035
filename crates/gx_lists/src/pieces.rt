// Members joined by their key bytes.
ghost use Rattle.std.specs.Prelude.{◌≡◌, ◌==◌, ◌≤◌, length, take, drop, true, false, Ok};
ghost use Rattle.std.specs.List.{position};
ghost use Rattle.gx_values.specs.Keys.{IsKeyKind};
ghost use Rattle.gx_ports.specs.LeafMaps.{Extends};
ghost use Rattle.gx_lists.specs.Arrays.{IsFrontWidth, AreCut, AreOfNone};

use gx_values::{Kind, NoMemory, Values, read_value_key};
use std::alloc::Global;

// How many bytes a value of the kind has whose key bytes stand at the front.
fn front_width(kind: Kind, bytes: &[u8]) -> Option<usize>
    requires { IsKeyKind kind }
    ensures { IsFrontWidth kind bytes.now result }
{
    match kind {
        Kind::Int => {
            if bytes.len() < 8 {
                return None;
            }
            Some(8)
        }
        Kind::Text(_) => {
            let end = zero_at(bytes)?;
            Some(end + 1)
        }
        Kind::Bytes(_) => None,
    }
}

// Where the first 0 stands, with which a text ends.
fn zero_at(bytes: &[u8]) -> Option<usize>
    ensures { result ≡ position (λ byte. byte == 0) bytes.now }
{
    bytes.iter().position(|byte| *byte == 0)
}

fn front(bytes: &[u8], width: usize) -> &[u8]
    requires { width ≤ length bytes.now }
    ensures { result.now ≡ take width bytes.now }
{
    &bytes[..width]
}

fn behind(bytes: &[u8], width: usize) -> &[u8]
    requires { width ≤ length bytes.now }
    ensures { result.now ≡ drop width bytes.now }
{
    &bytes[width..]
}

// Appends the members with these bytes. False: they are those of no members.
pub fn cut_members(
    alloc: Global,
    kind: Kind,
    bytes: &[u8],
    out: &mut Values,
) -> Result<bool, NoMemory>
    requires { IsKeyKind kind }
    ensures yes { result ≡ Ok true → AreCut kind bytes.now out.old out.new }
    ensures no { result ≡ Ok false → AreOfNone kind bytes.now }
    ensures front { Extends out.old out.new }
{
    let mut rest = bytes;
    while !rest.is_empty() {
        let Some(width) = front_width(kind, rest) else {
            return Ok(false);
        };
        let Some(value) = read_value_key(alloc, kind, front(rest, width))? else {
            return Ok(false);
        };
        out.0.push(value)?;
        rest = behind(rest, width);
    }
    Ok(true)
}
