// The lines of a script.
ghost use Rattle.std.specs.Prelude.{◌≡◌, ◌+◌, ◌<◌, ◌≤◌, false, length, take, slice_index, ◌==◌, option_map, IfOk, IfSome};
ghost use Rattle.std.specs.List.{AllByRecursion};
ghost use Rattle.gx_tokens.specs.Reading.{map_ok};
ghost use Rattle.gx_commands.specs.Lines.{longest_line, longest_script, ArePartsOf, parts_of, without_cr, script_lines, IsNext};

use crate::command::LineWhy;
use memchr::memchr;
use std::marker::Model;

/// What is left of a script, seen as its lines: without LF, and without the CR that is dropped
/// before an LF.
#[derive(Debug, Drop)]
pub struct ScriptLines<'a> {
    rest: &'a [u8],
    most: usize,
}

impl<'a> Model for ScriptLines<'a> {
    ghost use Rattle.gx_commands.specs.Lines.{Lines, lines_within};

    ghost Value = { Lines };

    ghost view = { λ s. lines_within s.most s.rest.now };
}

/// How many bytes a line may have, with a CR and without its LF.
pub const LONGEST_LINE: usize = 4096;

/// How many bytes a script may have.
pub const LONGEST_SCRIPT: usize = 16_777_216;

// How many bytes stand before the first LF.
fn line_len(text: &[u8]) -> usize
    ensures before { AllByRecursion (λ b. (b == 10) ≡ false) (take result text.now) }
    ensures within { result ≤ length text.now }
    ensures ended { result < length text.now → slice_index text.now result ≡ 10 }
{
    match memchr(b'\n', text) {
        Some(at) => at,
        None => text.len(),
    }
}

// The line without a CR at its end.
fn without_cr(line: &[u8]) -> &[u8]
    ensures value { result.now ≡ without_cr line.now }
    ensures within { length result.now ≤ length line.now }
{
    let len = line.len();
    if len > 0 && line[len - 1] == b'\r' {
        &line[..len - 1]
    } else {
        line
    }
}

impl<'a> ScriptLines<'a> {
    /// The lines of a script.
    #[tactic(auto, unfolding(crate::specs::Lines::longest_script))]
    pub fn new(script: &'a [u8]) -> ScriptLines<'a>
        ensures lines { result ≡ script_lines script.now }
        // The parts of a script are its bytes, cut at each LF.
        ensures parts { ArePartsOf script.now (parts_of script.now) }
        // What stands behind the first byte too many has no bearing on them.
        ensures enough { script_lines (take (longest_script + 1) script.now)
            ≡ script_lines script.now }
    {
        ScriptLines {
            rest: script,
            most: LONGEST_SCRIPT,
        }
    }

    /// The next line, and none where there are no more. `TooLong`: exactly where that line has more
    /// than 4,096 bytes, a CR at its end counted and its LF not. `ScriptTooLong`: exactly where it
    /// has not, and in it stands the byte by which the script is too long. After an error, or where
    /// there are no more lines, the next call answers the same.
    pub fn next_line(&mut self) -> Result<Option<&'a [u8]>, LineWhy>
        ensures next { IsNext self.old self.new
            (map_ok (λ line. option_map (λ bytes. bytes.now) line) result) }
        ensures short { IfOk result
            (λ line. IfSome line (λ bytes. length bytes.now ≤ longest_line)) }
    {
        let seen = &self.rest[..self.rest.len().min(self.most)];
        let len = line_len(seen);
        if len > LONGEST_LINE {
            return Err(LineWhy::TooLong);
        }
        let line = &seen[..len];
        if len < seen.len() {
            self.rest = &self.rest[len + 1..];
            self.most -= len + 1;
            return Ok(Some(without_cr(line)));
        }
        if self.rest.len() > self.most {
            return Err(LineWhy::ScriptTooLong);
        }
        self.rest = &[];
        if line.is_empty() {
            return Ok(None);
        }
        Ok(Some(line))
    }
}
