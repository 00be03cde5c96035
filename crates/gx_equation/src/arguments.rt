// What stands in a head besides its word: names, numbers, codes and bounds.
ghost use Rattle.std.specs.Prelude.{◌≡◌, ◌≤◌, [], ◌∷◌, suc, length, IfOk, IfSome, option_map};
ghost use Rattle.gx_tokens.specs.Lexemes.{lexeme_of};
ghost use Rattle.gx_tokens.specs.Reading.{Gives, map_ok, met, want, a_word};
ghost use Rattle.gx_tokens.specs.Spelling.{IsWord};
ghost use Rattle.gx_equation.specs.Heads.{size_up_to, a_size, code_of_word, a_code, int_bound, a_bound, or_comma, items_at, hash_at, encode_at, segment_at, partition_at, divide_at, index_at};

use crate::equation::Names;
use crate::heads::Head;
use gx_ports::LeafKind;
use gx_tokens::{
    Fault, ReadError, Token, Why, fault_at, natural_number, next_token, quoted_value, read_close,
    read_comma, read_number, read_open, read_word, signed_number, unexpected,
};
use gx_values::{Code, Name, Octets, Value, Values};
use std::alloc::Global;

const MOST_BUCKETS: u16 = 64;

const LONGEST_PIECE: u16 = 16000;

// ---- numbers and codes

fn size_up_to(most: u16, text: &[u8]) -> Result<u16, Why>
    ensures within { IfOk result (λ size. size ≤ most) }
    ensures exact { result ≡ size_up_to most text.now }
{
    match natural_number(text, most) {
        None | Some(0) => Err(Why::Number),
        Some(size) => Ok(size),
    }
}

// A number from 1 to `most`.
fn read_size(most: u16, bytes: &[u8]) -> Result<(u16, &[u8]), Fault>
    ensures within { IfOk result (λ x. x.0 ≤ most) }
    ensures exact { map_ok (λ x. (x.0, x.1.now)) result ≡ want (a_size most) bytes.now }
{
    let (text, rest) = read_number(bytes)?;
    match size_up_to(most, text) {
        Ok(size) => Ok((size, rest)),
        Err(why) => Err(fault_at(bytes, why)),
    }
}

#[tactic(auto, unfolding(crate::specs::Heads::code_of_word))]
fn code_of_word(word: &[u8]) -> Result<Code, Why>
    ensures { result ≡ code_of_word word.now }
{
    if word == b"pack".as_slice() {
        Ok(Code::Pack)
    } else if word == b"rle".as_slice() {
        Ok(Code::Rle)
    } else {
        Err(Why::Unexpected)
    }
}

fn read_code(bytes: &[u8]) -> Result<(Code, &[u8]), Fault>
    ensures { map_ok (λ x. (x.0, x.1.now)) result ≡ want a_code bytes.now }
{
    let (word, rest) = read_word(bytes)?;
    match code_of_word(word) {
        Ok(code) => Ok((code, rest)),
        Err(why) => Err(fault_at(bytes, why)),
    }
}

// ---- names

// One more name, or none at the comma behind the last one.
fn read_name_or_comma(bytes: &[u8]) -> Result<(Option<&[u8]>, &[u8]), Fault>
    ensures word { IfOk result (λ x. IfSome x.0 (λ word. IsWord word.now)) }
    ensures exact { map_ok (λ x. (option_map (λ word. word.now) x.0, x.1.now)) result
        ≡ want (or_comma a_word) bytes.now }
{
    match next_token(bytes)? {
        (Token::Word(word), rest) => Ok((Some(word), rest)),
        (Token::Comma, rest) => Ok((None, rest)),
        (token, _) => Err(unexpected(bytes, token)),
    }
}

// The names behind the first, up to the comma.
fn read_names<'a>(
    alloc: Global,
    first: Name,
    bytes: &'a [u8],
) -> Result<(Names, &'a [u8]), ReadError>
    ensures { Gives (λ x. (x.0, x.1.now)) result
        (items_at a_word (suc (length bytes.now)) (first ∷ []) bytes.now) }
{
    let mut names = Vec::new(alloc);
    names.push(first)?;
    let mut rest = bytes;
    loop {
        let (name, after) = read_name_or_comma(rest)?;
        match name {
            None => return Ok((Names(names), after)),
            Some(name) => names.push(Name::from_slice(name))?,
        }
        rest = after;
    }
}

// ---- bounds

fn int_bound(number: Option<i64>) -> Result<Value, Why>
    ensures { result ≡ int_bound number }
{
    match number {
        None => Err(Why::Number),
        Some(number) => Ok(Value::Int(number)),
    }
}

// The bound that this token is, the first one of the bytes.
fn bound_of<'a>(
    alloc: Global,
    bytes: &[u8],
    token: Token,
    rest: &'a [u8],
) -> Result<(Value, &'a [u8]), ReadError>
    ensures { Gives (λ x. (x.0, x.1.now)) result
        (met bytes.now (a_bound (lexeme_of token.entry)) rest.now) }
{
    match token {
        Token::Number(text) => match int_bound(signed_number(text)) {
            Ok(bound) => Ok((bound, rest)),
            Err(why) => Err(ReadError::Bad(fault_at(bytes, why))),
        },
        Token::Quoted(text) => Ok((Value::Text(Octets(quoted_value(alloc, text)?)), rest)),
        token => Err(ReadError::Bad(unexpected(bytes, token))),
    }
}

fn read_bound(alloc: Global, bytes: &[u8]) -> Result<(Value, &[u8]), ReadError>
    ensures { Gives (λ x. (x.0, x.1.now)) result (want a_bound bytes.now) }
{
    let (token, rest) = next_token(bytes)?;
    bound_of(alloc, bytes, token, rest)
}

// One more bound, or none at the comma behind the last one.
fn read_bound_or_comma(alloc: Global, bytes: &[u8]) -> Result<(Option<Value>, &[u8]), ReadError>
    ensures { Gives (λ x. (x.0, x.1.now)) result (want (or_comma a_bound) bytes.now) }
{
    match next_token(bytes)? {
        (Token::Comma, rest) => Ok((None, rest)),
        (token, rest) => {
            let (bound, rest) = bound_of(alloc, bytes, token, rest)?;
            Ok((Some(bound), rest))
        }
    }
}

// The bounds behind the first, up to the comma.
fn read_bounds<'a>(
    alloc: Global,
    first: Value,
    bytes: &'a [u8],
) -> Result<(Values, &'a [u8]), ReadError>
    ensures { Gives (λ x. (x.0, x.1.now)) result
        (items_at a_bound (suc (length bytes.now)) (first ∷ []) bytes.now) }
{
    let mut bounds = Vec::new(alloc);
    bounds.push(first)?;
    let mut rest = bytes;
    loop {
        let (bound, after) = read_bound_or_comma(alloc, rest)?;
        match bound {
            None => return Ok((Values(bounds), after)),
            Some(bound) => bounds.push(bound)?,
        }
        rest = after;
    }
}

// ---- what stands behind the word of a head, up to its first child

#[tactic(auto, unfolding(crate::specs::Heads::hash_at))]
pub fn read_hash(bytes: &[u8]) -> Result<(Head, &[u8]), Fault>
    ensures { map_ok (λ x. (x.0, x.1.now)) result ≡ hash_at bytes.now }
{
    let rest = read_open(bytes)?;
    let (buckets, rest) = read_size(MOST_BUCKETS, rest)?;
    let rest = read_close(rest)?;
    Ok((Head::Leaf(LeafKind::Hash(buckets as u8)), rest))
}

#[tactic(auto, unfolding(crate::specs::Heads::encode_at))]
pub fn read_encode(bytes: &[u8]) -> Result<(Head, &[u8]), Fault>
    ensures { map_ok (λ x. (x.0, x.1.now)) result ≡ encode_at bytes.now }
{
    let rest = read_open(bytes)?;
    let (name, rest) = read_word(rest)?;
    let (code, rest) = read_code(rest)?;
    let rest = read_comma(rest)?;
    Ok((Head::Encode(Name::from_slice(name), code), rest))
}

#[tactic(auto, unfolding(crate::specs::Heads::segment_at))]
pub fn read_segment(alloc: Global, bytes: &[u8]) -> Result<(Head, &[u8]), ReadError>
    ensures { Gives (λ x. (x.0, x.1.now)) result (segment_at bytes.now) }
{
    let rest = read_open(bytes)?;
    let (first, rest) = read_word(rest)?;
    let (names, rest) = read_names(alloc, Name::from_slice(first), rest)?;
    Ok((Head::Segment(names), rest))
}

#[tactic(auto, unfolding(crate::specs::Heads::partition_at))]
pub fn read_partition(alloc: Global, bytes: &[u8]) -> Result<(Head, &[u8]), ReadError>
    ensures { Gives (λ x. (x.0, x.1.now)) result (partition_at bytes.now) }
{
    let rest = read_open(bytes)?;
    let (name, rest) = read_word(rest)?;
    let (first, rest) = read_bound(alloc, rest)?;
    let (bounds, rest) = read_bounds(alloc, first, rest)?;
    Ok((Head::Partition(Name::from_slice(name), bounds), rest))
}

#[tactic(auto, unfolding(crate::specs::Heads::divide_at))]
pub fn read_divide(bytes: &[u8]) -> Result<(Head, &[u8]), Fault>
    ensures { map_ok (λ x. (x.0, x.1.now)) result ≡ divide_at bytes.now }
{
    let rest = read_open(bytes)?;
    let (size, rest) = read_size(LONGEST_PIECE, rest)?;
    let rest = read_comma(rest)?;
    Ok((Head::Divide(size), rest))
}

#[tactic(auto, unfolding(crate::specs::Heads::index_at))]
pub fn read_index(bytes: &[u8]) -> Result<(Head, &[u8]), Fault>
    ensures { map_ok (λ x. (x.0, x.1.now)) result ≡ index_at bytes.now }
{
    let rest = read_open(bytes)?;
    let (name, rest) = read_word(rest)?;
    let rest = read_comma(rest)?;
    Ok((Head::Index(Name::from_slice(name)), rest))
}
