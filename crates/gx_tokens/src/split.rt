// Words, numbers and quoted texts at the front of a text.
ghost use Rattle.std.specs.Prelude.{◌≡◌, ◌<◌, ◌≤◌, length, false, option_map, IfSome};
ghost use Rattle.std.specs.List.{prefix_len, list_all};
ghost use Rattle.gx_tokens.specs.Lexemes.{is_word_byte, is_digit, is_printable, continues_run, after_quote, after_second, after_quoted, split_word, split_number, split_quoted};

use memchr::memchr;

const LONGEST_WORD: usize = 16;

pub fn is_digit(byte: u8) -> bool
    ensures { result ≡ is_digit byte }
{
    matches!(byte, b'0'..=b'9')
}

fn is_word_byte(byte: u8) -> bool
    ensures { result ≡ is_word_byte byte }
{
    matches!(byte, b'a'..=b'z' | b'_' | b'0'..=b'9')
}

fn is_printable(byte: u8) -> bool
    ensures { result ≡ is_printable byte }
{
    matches!(byte, b' '..=b'~')
}

// How many bytes at the front are those of a word.
fn word_len(bytes: &[u8]) -> usize
    ensures value { result ≡ prefix_len is_word_byte bytes.now }
    ensures within { result ≤ length bytes.now }
{
    bytes.iter().take_while(|byte| is_word_byte(**byte)).count()
}

// How many bytes at the front are digits.
fn digits_len(bytes: &[u8]) -> usize
    ensures value { result ≡ prefix_len is_digit bytes.now }
    ensures within { result ≤ length bytes.now }
{
    bytes.iter().take_while(|byte| is_digit(**byte)).count()
}

// Whether each byte is printable. The loop has no other end, so it is compiled to a few
// instructions for many bytes.
fn are_printable(bytes: &[u8]) -> bool
    ensures { result ≡ list_all is_printable bytes.now }
{
    let mut are = true;
    for byte in bytes {
        are &= is_printable(*byte);
    }
    are
}

// What follows the first quote; none where there is none, or a byte before it isn't printable.
fn after_quote(bytes: &[u8]) -> Option<&[u8]>
    ensures value { option_map (λ r. r.now) result ≡ after_quote bytes.now }
    ensures shorter { IfSome result (λ r. length r.now < length bytes.now) }
{
    match memchr(b'"', bytes) {
        Some(at) => {
            if are_printable(&bytes[..at]) {
                Some(&bytes[at + 1..])
            } else {
                None
            }
        }
        None => None,
    }
}

// What follows the second quote of a pair, where the first one stands right before; none where
// there is no second.
fn after_second(bytes: &[u8]) -> Option<&[u8]>
    ensures value { option_map (λ r. r.now) result ≡ after_second bytes.now }
    ensures shorter { IfSome result (λ r. length r.now < length bytes.now) }
{
    match bytes {
        [b'"', rest @ ..] => Some(rest),
        _ => None,
    }
}

// What follows the quote that ends a quoted text; none where it isn't ended, or holds a byte that
// isn't printable.
fn after_quoted(bytes: &[u8]) -> Option<&[u8]>
    ensures value { option_map (λ r. r.now) result ≡ after_quoted false bytes.now }
    ensures shorter { IfSome result (λ r. length r.now < length bytes.now) }
{
    let mut rest = bytes;
    while let Some(after) = after_quote(rest) {
        match after_second(after) {
            Some(second) => rest = second,
            None => return Some(after),
        }
    }
    None
}

// Whether a word or a number that stands right before would go on.
fn continues_run(rest: &[u8]) -> bool
    ensures { result ≡ continues_run rest.now }
{
    match rest {
        [] => false,
        [first, ..] => is_word_byte(*first) || *first == b'-',
    }
}

/// The word at the front, and what follows it. None where the run of its bytes is longer than a
/// word, or goes on as no word does.
pub fn split_word(bytes: &[u8]) -> Option<(&[u8], &[u8])>
    ensures { option_map (λ x. (x.0.now, x.1.now)) result ≡ split_word bytes.now }
{
    let len = word_len(bytes);
    let (text, rest) = bytes.split_at(len);
    if len > LONGEST_WORD || continues_run(rest) {
        return None;
    }
    Some((text, rest))
}

/// The number at the front, and what follows it. None where there are no digits, or the run goes on
/// as no number does.
pub fn split_number(bytes: &[u8]) -> Option<(&[u8], &[u8])>
    ensures { option_map (λ x. (x.0.now, x.1.now)) result ≡ split_number bytes.now }
{
    let sign = match bytes {
        [b'-', ..] => 1,
        _ => 0,
    };
    let digits = digits_len(&bytes[sign..]);
    let (text, rest) = bytes.split_at(sign + digits);
    if digits == 0 || continues_run(rest) {
        return None;
    }
    Some((text, rest))
}

/// The text up to the quote that ends it, and what follows that quote, where a quote stands right
/// before these bytes. Within the text a quote is written twice. None: exactly where no quote ends
/// it, or a byte in it isn't one from 0x20 to 0x7E.
pub fn split_quoted(bytes: &[u8]) -> Option<(&[u8], &[u8])>
    ensures { option_map (λ x. (x.0.now, x.1.now)) result ≡ split_quoted bytes.now }
{
    let rest = after_quoted(bytes)?;
    let text = &bytes[..bytes.len() - rest.len() - 1];
    Some((text, rest))
}
