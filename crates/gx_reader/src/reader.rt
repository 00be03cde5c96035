// A reader of the lines of a script that comes in pieces.
ghost use Rattle.std.specs.Prelude.{◌≡◌, ◌≢◌, ◌≤◌, ◌<◌, ◌+◌, ◌++◌, ◌∷◌, ◌⊎◌, ℕ, List, [], length, take, drop, slice_index, IfOk, IfErr, IfSome, OnErr};
ghost use Rattle.gx_commands.specs.Lines.{longest_line, script_lines, stopped, without_cr};
ghost use Rattle.gx_commands.specs.declared.lines.TheConstants.{LONGEST_LINE, LONGEST_SCRIPT};
ghost use Rattle.std.proofs.Props.{props};
ghost use Rattle.gx_reader.specs.Begun.{HasNoLf, unended};

use gx_commands::{LONGEST_LINE, LONGEST_SCRIPT, LineWhy};
use memchr::memchr;

/// What came of some bytes of a script.
#[derive(Clone, Copy, Debug, PartialEq, Eq)]
pub enum Fed {
    /// No line ended, and no limit was passed.
    More,
    /// A line ended.
    Line,
    /// The line has more than 4,096 bytes, a CR at its end counted.
    TooLong,
    /// The script has more than 16,777,216 bytes.
    ScriptTooLong,
}

/// A reader of the lines of a script that comes in pieces. It takes no memory besides its own.
#[derive(Drop)]
pub struct LineReader {
    line: [u8; LONGEST_LINE],
    len: usize,
    ended: bool,
    left: usize,
    number: u32,
    ghost few: { len ≤ LONGEST_LINE },
    ghost clean: { HasNoLf (unended ended len line) } by { Prim.hlevel props },
}

impl LineReader {
    ghost use Rattle.gx_reader.specs.Reader.{begun, left_of, bytes_of, line_of, number_of, meant, told_lines, IsOpen, IsFed, PassesLimit, IsFinished};
    ghost use Rattle.gx_reader.specs.Pieces.{taken_of, lines_of, IsNextIn, Passes, IsLastLine};

    /// A reader of a script of which nothing was fed.
    #[tactic(auto, unfolding(gx_commands::specs::Lines::longest_script))]
    pub fn new() -> LineReader
        ensures lines { (script : List ℕ) → meant result script ≡ script_lines script }
        ensures number { number_of result ≡ 0 }
        ensures open { IsOpen result }
    {
        LineReader {
            line: [0; LONGEST_LINE],
            len: 0,
            ended: true,
            left: LONGEST_SCRIPT,
            number: 0,
        }
    }

    /// Takes bytes up to the end of a line, and answers how many, and what came of them. What it
    /// answers holds whatever comes behind the piece, so the lines and their numbers are the same
    /// however the script is cut. `More`: exactly where the whole piece was taken, no line ended
    /// and neither limit was passed. `TooLong`: exactly at byte 4,097 of a line, its LF not
    /// counted. `ScriptTooLong`: exactly at byte 16,777,217 of the script, also where that is byte
    /// 4,097 of a line. After one of these two, or after `finish`, nothing is to be fed.
    pub fn feed(&mut self, piece: &[u8]) -> (usize, Fed)
        requires open { IsOpen self.old }
        ensures fed { (rest : List ℕ) →
            IsFed result.1 self.old (piece.now ++ rest) self.new (drop result.0 piece.now ++ rest) }
        ensures number { number_of self.new ≡ number_of self.old + told_lines result.1 }
        ensures within { result.0 ≤ length piece.now }
        ensures all { result.1 ≡ Fed.More → result.0 ≡ length piece.now }
        ensures some { result.1 ≢ Fed.More → 0 < result.0 }
        ensures limit { PassesLimit result.1 self.old result.0 }
        ensures open { result.1 ≢ Fed.ScriptTooLong → IsOpen self.new }
        // Each byte that was taken is one less of those that the script may still have.
        ensures left { result.1 ≢ Fed.ScriptTooLong →
            left_of self.new + result.0 ≡ left_of self.old }
    {
        let run = run_len(piece);
        let taken = self.push_run(&piece[..run]);
        if taken == piece.len() {
            return (taken, Fed::More);
        }
        (taken + 1, self.push_last(piece[taken]))
    }

    /// Says that the script has ended. `Line`: exactly where bytes stand behind the last LF, which
    /// are the last line. `More`: where none do. It has no other answer.
    pub fn finish(&mut self) -> Fed
        requires open { IsOpen self.old }
        ensures finished { IsFinished result self.old self.new }
        ensures number { number_of self.new ≡ number_of self.old + told_lines result }
    {
        let len = self.begun_len();
        self.len = len;
        self.ended = true;
        if len == 0 {
            return Fed::More;
        }
        self.number += 1;
        Fed::Line
    }

    /// Takes bytes of a piece up to the end of the next line, and answers how many. `None`: no line
    /// ends in the piece, and all of it was taken. `TooLong` and `ScriptTooLong`: the next line
    /// can't be had, as `feed` says; after that nothing is to be fed.
    pub fn next_line(&mut self, piece: &[u8]) -> Result<Option<usize>, LineWhy>
        requires open { IsOpen self.old }
        ensures next { (rest : List ℕ) → IfOk result
            (λ found. IsNextIn found piece.now rest self.old self.new) }
        ensures stops { (rest : List ℕ) → IfErr result
            (λ why. meant self.old (piece.now ++ rest) ≡ stopped why) }
        ensures passes { IfOk result (λ found. Passes self.old self.new
            (taken_of found (length piece.now)) (lines_of found)) }
        ensures within { IfOk result (λ found. IfSome found
            (λ count. (0 < count) × (count ≤ length piece.now))) }
        ensures number { OnErr result (number_of self.new ≡ number_of self.old + 1) }
    {
        let (count, fed) = self.feed(piece);
        match fed {
            Fed::More => Ok(None),
            Fed::Line => Ok(Some(count)),
            Fed::TooLong => Err(LineWhy::TooLong),
            Fed::ScriptTooLong => Err(LineWhy::ScriptTooLong),
        }
    }

    /// Whether a line is behind the last LF of a script that has ended. `line` and `number` are of
    /// it then.
    pub fn last_line(&mut self) -> bool
        requires open { IsOpen self.old }
        ensures { IsLastLine result self.old self.new }
    {
        match self.finish() {
            Fed::Line => true,
            _ => false,
        }
    }

    /// The line that the last `Line` spoke of, until the next call of `feed`: without its LF, and
    /// without a CR before that.
    #[tactic(auto, unfolding(gx_commands::specs::Lines::longest_line))]
    pub fn line(&self) -> &[u8]
        ensures line { result.now ≡ line_of self.now }
        ensures short { length result.now ≤ longest_line }
    {
        &self.line[..self.len]
    }

    /// The number of the line that the last `Line`, `TooLong` or `ScriptTooLong` spoke of, counted
    /// from 1, and 0 before the first of them.
    pub fn number(&self) -> u32
        ensures { result ≡ number_of self.now }
    {
        self.number
    }

    // How many bytes a line has that hasn't ended.
    fn begun_len(&self) -> usize
        ensures begun { begun self.now ≡ take result (bytes_of self.now) }
        ensures within { result ≤ LONGEST_LINE }
        ensures len { length (begun self.now) ≡ result }
    {
        if self.ended { 0 } else { self.len }
    }

    // Takes bytes without an LF, as many as the line and the script have room for, and answers how
    // many.
    fn push_run(&mut self, run: &[u8]) -> usize
        requires open { IsOpen self.old }
        requires clean { HasNoLf run.now }
        ensures fed { (rest : List ℕ) →
            meant self.old (run.now ++ rest) ≡ meant self.new (drop result run.now ++ rest) }
        ensures number { number_of self.new ≡ number_of self.old }
        ensures within { result ≤ length run.now }
        ensures stops { result < length run.now →
            (left_of self.new ≡ 0) ⊎ (length (begun self.new) ≡ LONGEST_LINE) }
        ensures open { IsOpen self.new }
        ensures left { left_of self.new + result ≡ left_of self.old }
        ensures len { length (begun self.new) ≡ length (begun self.old) + result }
    {
        let len = self.begun_len();
        let count = run.len().min(LONGEST_LINE - len).min(self.left);
        self.line[len..len + count].copy_from_slice(&run[..count]);
        self.len = len + count;
        self.ended = false;
        self.left -= count;
        count
    }

    // Takes the byte that ends the line, or is one too many.
    fn push_last(&mut self, byte: u8) -> Fed
        requires open { IsOpen self.old }
        requires last { (byte ≡ 10) ⊎ ((left_of self.old ≡ 0)
            ⊎ (length (begun self.old) ≡ LONGEST_LINE)) }
        ensures fed { (rest : List ℕ) → IsFed result self.old (byte ∷ rest) self.new rest }
        ensures number { number_of self.new ≡ number_of self.old + told_lines result }
        ensures ended { result ≢ Fed.More }
        ensures limit { PassesLimit result self.old 1 }
        ensures open { result ≢ Fed.ScriptTooLong → IsOpen self.new }
        ensures left { result ≢ Fed.ScriptTooLong → left_of self.new + 1 ≡ left_of self.old }
    {
        let len = self.begun_len();
        self.number += 1;
        if self.left == 0 {
            return Fed::ScriptTooLong;
        }
        self.left -= 1;
        if byte == b'\n' {
            self.len = line_len(&self.line[..len]);
            self.ended = true;
            return Fed::Line;
        }
        Fed::TooLong
    }
}

// How many bytes stand before the first LF.
fn run_len(text: &[u8]) -> usize
    ensures clean { HasNoLf (take result text.now) }
    ensures within { result ≤ length text.now }
    ensures ended { result < length text.now → slice_index text.now result ≡ 10 }
{
    match memchr(b'\n', text) {
        Some(at) => at,
        None => text.len(),
    }
}

// How many bytes a line has without a CR at its end.
fn line_len(line: &[u8]) -> usize
    ensures value { take result line.now ≡ without_cr line.now }
    ensures within { result ≤ length line.now }
{
    let len = line.len();
    if len > 0 && line[len - 1] == b'\r' {
        len - 1
    } else {
        len
    }
}
