// The words of a line.
ghost use Rattle.std.specs.Prelude.{◌≡◌, ◌≤◌, ◌↔◌, length, not, option_map, List, IsTrue, IfOk};
ghost use Rattle.std.specs.List.{list_all, prefix_len};
ghost use Rattle.gx_tokens.specs.Reading.{map_ok};
ghost use Rattle.gx_commands.specs.Words.{Word, AreWords, is_line_blank, is_character, past_blanks, is_comment};
ghost use Rattle.gx_commands.specs.Cutting.{word_of, ends_word, quoted_word, split_word, first_word, words_in, taken, is_end, IsRestOf};
ghost use Rattle.gx_tokens.specs.Lexemes.{split_quoted};

use crate::command::LineWhy;
use gx_tokens::split_quoted;
use memchr::memchr;

/// A word as it is spelled: a quoted text without the quotes around it, with each quote in it
/// twice.
#[derive(Clone, Copy, Debug, PartialEq, Eq)]
pub enum LineWord<'a> {
    Bare(&'a [u8]),
    Quoted(&'a [u8]),
}

pub(crate) fn is_blank(byte: u8) -> bool
    ensures { result ≡ is_line_blank byte }
{
    matches!(byte, b' ' | b'\t')
}

fn is_character(byte: u8) -> bool
    ensures { result ≡ is_character byte }
{
    is_blank(byte) || matches!(byte, b' '..=b'~')
}

/// Whether each byte is a blank, or one from 0x20 to 0x7E.
pub fn are_characters(line: &[u8]) -> bool
    ensures { result ≡ list_all is_character line.now }
{
    // No byte ends the loop early, so it is compiled to a few instructions for many bytes.
    let mut are = true;
    for byte in line {
        are &= is_character(*byte);
    }
    are
}

// What follows the blanks at the front.
pub(crate) fn after_blanks(line: &[u8]) -> &[u8]
    ensures { result.now ≡ past_blanks line.now }
{
    let mut rest = line;
    while let [first, after @ ..] = rest {
        if !is_blank(*first) {
            return rest;
        }
        rest = after;
    }
    rest
}

/// Whether the first byte that is no blank is `#`.
pub fn is_comment(line: &[u8]) -> bool
    ensures { result ≡ is_comment line.now }
{
    match after_blanks(line) {
        [] => false,
        [first, ..] => *first == b'#',
    }
}

// How many bytes stand before the first blank.
fn word_len(text: &[u8]) -> usize
    ensures value { result ≡ prefix_len (λ c. not (is_line_blank c)) text.now }
    ensures within { result ≤ length text.now }
{
    text.iter().take_while(|byte| !is_blank(**byte)).count()
}

fn ends_word(rest: &[u8]) -> bool
    ensures { result ≡ ends_word rest.now }
{
    match rest {
        [] => true,
        [first, ..] => is_blank(*first),
    }
}

// The quoted text whose first quote stands right before, where the word ends with it.
fn split_quoted_word(text: &[u8]) -> Option<(LineWord<'_>, &[u8])>
    ensures { option_map (λ x. (word_of x.0, x.1.now)) result
        ≡ quoted_word (split_quoted text.now) }
{
    let (quoted, rest) = split_quoted(text)?;
    if ends_word(rest) {
        Some((LineWord::Quoted(quoted), rest))
    } else {
        None
    }
}

// The word at the front of a text without a blank there, and what follows it. None where the text
// is empty or begins with a quoted text that isn't good.
fn split_word(text: &[u8]) -> Option<(LineWord<'_>, &[u8])>
    ensures { option_map (λ x. (word_of x.0, x.1.now)) result ≡ split_word text.now }
{
    match text {
        [] => None,
        [b'"', inside @ ..] => split_quoted_word(inside),
        _ => {
            let (word, rest) = text.split_at(word_len(text));
            Some((LineWord::Bare(word), rest))
        }
    }
}

#[tactic(auto, unfolding(crate::specs::Cutting::first_word))]
fn first_word(line: &[u8]) -> Option<(LineWord<'_>, &[u8])>
    ensures { option_map (λ x. (word_of x.0, x.1.now)) result ≡ first_word line.now }
{
    split_word(after_blanks(line))
}

// What stands behind words without a quote at the front of a line: a quote that begins a word, or
// nothing. It is the whole line where its first quote stands inside of a word.
fn from_quote(line: &[u8]) -> &[u8]
    ensures same { ((ws : List Word) × AreWords result.now ws) ↔
        ((ws : List Word) × AreWords line.now ws) }
    ensures within { length result.now ≤ length line.now }
{
    match memchr(b'"', line) {
        None => &[],
        Some(0) => line,
        Some(at) => {
            if is_blank(line[at - 1]) {
                &line[at..]
            } else {
                line
            }
        }
    }
}

/// Whether the line is words with blanks between them: each quoted text is closed, has no tab
/// inside, and is followed by a blank or the end.
pub fn are_words(line: &[u8]) -> bool
    ensures { IsTrue result ↔ ((ws : List Word) × AreWords line.now ws) }
{
    let mut rest = line;
    loop {
        // Only a quoted text may be bad.
        let quoted = from_quote(rest);
        match first_word(quoted) {
            None => return after_blanks(quoted).is_empty(),
            Some((_, after)) => rest = after,
        }
    }
}

/// The first word, and what follows it. `Word` where there is none.
pub fn take_word(line: &[u8]) -> Result<(LineWord<'_>, &[u8]), LineWhy>
    ensures word { map_ok (λ x. (word_of x.0, words_in x.1.now)) result
        ≡ taken (words_in line.now) }
    ensures left { IfOk result (λ x. IsRestOf line.now x.1.now) }
{
    match first_word(line) {
        None => Err(LineWhy::Word),
        Some(word) => Ok(word),
    }
}

/// Whether there is no word.
pub fn is_end(line: &[u8]) -> bool
    ensures { result ≡ is_end (words_in line.now) }
{
    match first_word(line) {
        None => true,
        Some(_) => false,
    }
}
