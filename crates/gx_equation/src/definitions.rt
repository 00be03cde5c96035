// Reading definitions.
ghost use Rattle.std.specs.Prelude.{◌≡◌, [], ◌∷◌, suc, length, option_map, IfOk, IfSome};
ghost use Rattle.gx_tokens.specs.Reading.{Gives, map_ok, want};
ghost use Rattle.gx_tokens.specs.Spelling.{IsWord};
ghost use Rattle.gx_equation.specs.Seen.{side_of, definition_of, definitions_of};
ghost use Rattle.gx_equation.specs.Definitions.{linkset_of_word, a_side, a_start, file_side_at, link_side_at, side_at, definition_behind, definitions_at, equation_at};

use crate::equation::{Definition, Definitions, Side};
use crate::heads::Linkset;
use crate::terms::{push_place, read_kid, read_term, read_two_kids};
use gx_tokens::{
    Fault, ReadError, Token, next_token, read_equals, read_open, read_word, unexpected,
};
use gx_values::Name;
use std::alloc::Global;

// The head of a link's side counts as a level.
const LEVELS: u8 = 16;

const LEVELS_IN_LINKSET: u8 = LEVELS - 1;

#[tactic(auto, unfolding(crate::specs::Definitions::linkset_of_word))]
fn linkset_of_word(word: &[u8]) -> Option<Linkset>
    ensures { result ≡ linkset_of_word word.now }
{
    if word == b"array".as_slice() {
        Some(Linkset::Array)
    } else if word == b"ring".as_slice() {
        Some(Linkset::Ring)
    } else if word == b"inverted".as_slice() {
        Some(Linkset::Inverted)
    } else {
        None
    }
}

// The head of a link's side, or none where another token stands.
fn read_linkset_head(bytes: &[u8]) -> Result<(Option<Linkset>, &[u8]), Fault>
    ensures { map_ok (λ x. (x.0, x.1.now)) result ≡ want a_side bytes.now }
{
    match next_token(bytes)? {
        (Token::Word(word), rest) => Ok((linkset_of_word(word), rest)),
        (_, rest) => Ok((None, rest)),
    }
}

// The name of one more definition, or none at the end of the text.
fn read_start(bytes: &[u8]) -> Result<(Option<&[u8]>, &[u8]), Fault>
    ensures word { IfOk result (λ x. IfSome x.0 (λ word. IsWord word.now)) }
    ensures exact { map_ok (λ x. (option_map (λ word. word.now) x.0, x.1.now)) result
        ≡ want a_start bytes.now }
{
    match next_token(bytes)? {
        (Token::Word(word), rest) => Ok((Some(word), rest)),
        (Token::End, rest) => Ok((None, rest)),
        (token, _) => Err(unexpected(bytes, token)),
    }
}

#[tactic(auto, unfolding(crate::specs::Definitions::file_side_at))]
fn read_file_side<'a>(
    alloc: Global,
    places: &mut Vec<usize>,
    bytes: &'a [u8],
) -> Result<(Side, &'a [u8]), ReadError>
    ensures { Gives (λ x. ((side_of x.0, places.new.items), x.1.now)) result
        (file_side_at places.old.items bytes.now) }
{
    let (term, rest) = read_term(alloc, LEVELS, places, bytes)?;
    Ok((Side::File(term), rest))
}

#[tactic(auto, unfolding(crate::specs::Definitions::link_side_at))]
fn read_linkset_side<'a>(
    alloc: Global,
    linkset: Linkset,
    places: &mut Vec<usize>,
    bytes: &'a [u8],
) -> Result<(Side, &'a [u8]), ReadError>
    ensures { Gives (λ x. ((side_of x.0, places.new.items), x.1.now)) result
        (link_side_at linkset places.old.items bytes.now) }
{
    let rest = read_open(bytes)?;
    match linkset {
        Linkset::Array => {
            let (members, rest) = read_kid(alloc, LEVELS_IN_LINKSET, places, rest)?;
            Ok((Side::Array(members), rest))
        }
        Linkset::Ring => {
            let (firsts, nexts, rest) = read_two_kids(alloc, LEVELS_IN_LINKSET, places, rest)?;
            Ok((Side::Ring(firsts, nexts), rest))
        }
        Linkset::Inverted => {
            let (pairs, owners, rest) = read_two_kids(alloc, LEVELS_IN_LINKSET, places, rest)?;
            Ok((Side::Inverted(pairs, owners), rest))
        }
    }
}

#[tactic(auto, unfolding(crate::specs::Definitions::side_at))]
fn read_side<'a>(
    alloc: Global,
    places: &mut Vec<usize>,
    bytes: &'a [u8],
) -> Result<(Side, &'a [u8]), ReadError>
    ensures { Gives (λ x. ((side_of x.0, places.new.items), x.1.now)) result
        (side_at places.old.items bytes.now) }
{
    let (linkset, rest) = read_linkset_head(bytes)?;
    match linkset {
        None => read_file_side(alloc, places, bytes),
        Some(linkset) => {
            push_place(places, bytes)?;
            read_linkset_side(alloc, linkset, places, rest)
        }
    }
}

#[tactic(auto, unfolding(crate::specs::Definitions::definition_behind))]
fn read_definition_behind<'a>(
    alloc: Global,
    name: &[u8],
    places: &mut Vec<usize>,
    bytes: &'a [u8],
) -> Result<(Definition, &'a [u8]), ReadError>
    requires { IsWord name.now }
    ensures { Gives (λ x. ((definition_of x.0, places.new.items), x.1.now)) result
        (definition_behind name.now places.old.items bytes.now) }
{
    let rest = read_equals(bytes)?;
    let (side, rest) = read_side(alloc, places, rest)?;
    let name = Name::from_slice(name);
    Ok((Definition { name, side }, rest))
}

// The definitions behind the first, up to the end of the text.
fn read_more_definitions(
    alloc: Global,
    first: Definition,
    places: &mut Vec<usize>,
    bytes: &[u8],
) -> Result<Definitions, ReadError>
    ensures { Gives (λ ds. (definitions_of ds, places.new.items)) result
        (definitions_at (suc (length bytes.now))
        (definition_of first ∷ []) places.old.items bytes.now) }
{
    let mut definitions = Vec::new(alloc);
    definitions.push(first)?;
    let mut rest = bytes;
    loop {
        let (start, after) = read_start(rest)?;
        let Some(name) = start else {
            return Ok(Definitions(definitions));
        };
        push_place(places, rest)?;
        let (definition, after) = read_definition_behind(alloc, name, places, after)?;
        definitions.push(definition)?;
        rest = after;
    }
}

/// The definitions of a whole text, whose places are put down.
#[tactic(auto, unfolding(crate::specs::Definitions::equation_at))]
pub fn read_definitions(
    alloc: Global,
    places: &mut Vec<usize>,
    bytes: &[u8],
) -> Result<Definitions, ReadError>
    requires { places.now.items ≡ [] }
    ensures { Gives (λ ds. (definitions_of ds, places.new.items)) result (equation_at bytes.now) }
{
    let (name, rest) = read_word(bytes)?;
    push_place(places, bytes)?;
    let (first, rest) = read_definition_behind(alloc, name, places, rest)?;
    read_more_definitions(alloc, first, places, rest)
}
