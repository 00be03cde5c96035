// The tokens of a text, one after another.
ghost use Rattle.std.specs.Prelude.{◌≡◌, ℕ, List, Ok, IfOk};
ghost use Rattle.gx_tokens.specs.Lexemes.{Lexeme, lexeme_of, next_token};
ghost use Rattle.gx_tokens.specs.Reading.{map_ok};
ghost use Rattle.gx_tokens.specs.Spelling.{FirstToken};

use crate::blanks::after_blanks;
use crate::fault::Fault;
use crate::split::{split_number, split_quoted, split_word};
use crate::why::Why;

/// A token, as it is spelled.
#[derive(Clone, Copy, Debug, PartialEq, Eq)]
pub enum Token<'a> {
    /// 1 to 16 letters, digits and `_`, of which the first is no digit.
    Word(&'a [u8]),
    /// One or more digits, behind a `-` or not.
    Number(&'a [u8]),
    /// The bytes between the quotes, each from 0x20 to 0x7E, a quote twice.
    Quoted(&'a [u8]),
    Open,
    Close,
    Comma,
    Equals,
    /// The text ends.
    End,
}

fn token_at(bytes: &[u8]) -> Result<(Token<'_>, &[u8]), Fault>
    ensures { map_ok (λ x. (lexeme_of x.0, x.1.now)) result ≡ next_token bytes.now }
{
    let text = after_blanks(bytes);
    let fault = Fault {
        left: text.len(),
        why: Why::Token,
    };
    match text {
        [] => Ok((Token::End, text)),
        [b'(', rest @ ..] => Ok((Token::Open, rest)),
        [b')', rest @ ..] => Ok((Token::Close, rest)),
        [b',', rest @ ..] => Ok((Token::Comma, rest)),
        [b'=', rest @ ..] => Ok((Token::Equals, rest)),
        [b'"', inside @ ..] => match split_quoted(inside) {
            Some((quoted, rest)) => Ok((Token::Quoted(quoted), rest)),
            None => Err(fault),
        },
        [b'a'..=b'z' | b'_', ..] => match split_word(text) {
            Some((word, rest)) => Ok((Token::Word(word), rest)),
            None => Err(fault),
        },
        _ => match split_number(text) {
            Some((number, rest)) => Ok((Token::Number(number), rest)),
            None => Err(fault),
        },
    }
}

/// The first token of the text, behind blanks and comments, and what follows it. The fault is
/// `Token`: exactly where a malformed token stands there, or a byte that begins none.
pub fn next_token(bytes: &[u8]) -> Result<(Token<'_>, &[u8]), Fault>
    ensures found { IfOk result (λ x. FirstToken bytes.now (lexeme_of x.0) x.1.now) }
    // What is the first token is found.
    ensures only { (token : Lexeme) (rest : List ℕ) → FirstToken bytes.now token rest →
        map_ok {Y = Lexeme × List ℕ} (λ x. (lexeme_of x.0, x.1.now)) result ≡ Ok (token, rest) }
    ensures exact { map_ok (λ x. (lexeme_of x.0, x.1.now)) result ≡ next_token bytes.now }
{
    token_at(bytes)
}
