// Reading one token that may stand at a place, or the fault that another does.
ghost use Rattle.std.specs.Prelude.{◌≡◌, IfOk};
ghost use Rattle.gx_tokens.specs.Lexemes.{lexeme_of};
ghost use Rattle.gx_tokens.specs.Reading.{map_ok, fault_at, unexpected_why, want, a_word, a_number, an_open, a_close, a_comma, an_equals, comma_or_close};
ghost use Rattle.gx_tokens.specs.Spelling.{IsWord, IsNumber};

use crate::fault::{Fault, fault_at};
use crate::token::{Token, next_token};
use crate::why::Why;

/// The fault that this token, the first of the bytes, is none of those that may stand there: `End`
/// at the end of the text, else `Unexpected`.
pub fn unexpected(bytes: &[u8], token: Token) -> Fault
    ensures { result ≡ fault_at bytes.now (unexpected_why (lexeme_of token.entry)) }
{
    match token {
        Token::End => fault_at(bytes, Why::End),
        _ => fault_at(bytes, Why::Unexpected),
    }
}

/// A word, and what follows it.
pub fn read_word(bytes: &[u8]) -> Result<(&[u8], &[u8]), Fault>
    ensures word { IfOk result (λ x. IsWord x.0.now) }
    ensures exact { map_ok (λ x. (x.0.now, x.1.now)) result ≡ want a_word bytes.now }
{
    match next_token(bytes)? {
        (Token::Word(word), rest) => Ok((word, rest)),
        (token, _) => Err(unexpected(bytes, token)),
    }
}

/// A number as it is spelled, and what follows it.
pub fn read_number(bytes: &[u8]) -> Result<(&[u8], &[u8]), Fault>
    ensures number { IfOk result (λ x. IsNumber x.0.now) }
    ensures exact { map_ok (λ x. (x.0.now, x.1.now)) result ≡ want a_number bytes.now }
{
    match next_token(bytes)? {
        (Token::Number(number), rest) => Ok((number, rest)),
        (token, _) => Err(unexpected(bytes, token)),
    }
}

/// What follows a `(`.
pub fn read_open(bytes: &[u8]) -> Result<&[u8], Fault>
    ensures { map_ok (λ x. (tt, x.now)) result ≡ want an_open bytes.now }
{
    match next_token(bytes)? {
        (Token::Open, rest) => Ok(rest),
        (token, _) => Err(unexpected(bytes, token)),
    }
}

/// What follows a `)`.
pub fn read_close(bytes: &[u8]) -> Result<&[u8], Fault>
    ensures { map_ok (λ x. (tt, x.now)) result ≡ want a_close bytes.now }
{
    match next_token(bytes)? {
        (Token::Close, rest) => Ok(rest),
        (token, _) => Err(unexpected(bytes, token)),
    }
}

/// What follows a `,`.
pub fn read_comma(bytes: &[u8]) -> Result<&[u8], Fault>
    ensures { map_ok (λ x. (tt, x.now)) result ≡ want a_comma bytes.now }
{
    match next_token(bytes)? {
        (Token::Comma, rest) => Ok(rest),
        (token, _) => Err(unexpected(bytes, token)),
    }
}

/// What follows a `=`.
pub fn read_equals(bytes: &[u8]) -> Result<&[u8], Fault>
    ensures { map_ok (λ x. (tt, x.now)) result ≡ want an_equals bytes.now }
{
    match next_token(bytes)? {
        (Token::Equals, rest) => Ok(rest),
        (token, _) => Err(unexpected(bytes, token)),
    }
}

/// Whether a list goes on behind one of its items, which a `,` says and a `)` denies, and what
/// follows that token.
pub fn read_comma_or_close(bytes: &[u8]) -> Result<(bool, &[u8]), Fault>
    ensures { map_ok (λ x. (x.0, x.1.now)) result ≡ want comma_or_close bytes.now }
{
    match next_token(bytes)? {
        (Token::Comma, rest) => Ok((true, rest)),
        (Token::Close, rest) => Ok((false, rest)),
        (token, _) => Err(unexpected(bytes, token)),
    }
}
