// Typing of sides.
ghost use Rattle.gx_equation.specs.Seen.{side_of};
ghost use Rattle.gx_typing.specs.Sides.{link_typed, side_typed};
ghost use Rattle.gx_typing.specs.Typing.{Answers};

use crate::dues::Stored;
use crate::reasons::{TypeWhy, Untyped};
use crate::terms::{behind, both_typed, here, term_typed};
use crate::typing::Typing;
use gx_equation::Side;
use gx_forms::{array_form, inverted_forms, ring_forms};
use gx_values::Kind;
use std::alloc::Global;

// A side where that of a link is due, by the kinds of the keys of its owner file and of its member
// file.
fn link_typed<'a>(
    alloc: Global,
    number: u16,
    kinds: (Kind, Kind),
    side: &Side,
    lines: &'a [u32],
    typing: &mut Typing,
) -> Result<&'a [u32], Untyped>
    ensures { Answers (λ r. (r.now, typing.new)) result
        (link_typed number kinds.0 kinds.1 (side_of side.now) lines.now typing.old) }
{
    let (owner, member) = kinds;
    match side {
        Side::File(_) => Err(Untyped::Mistyped(here(lines), TypeWhy::Linkset)),
        Side::Array(members) => {
            let form = array_form(alloc, owner, member)?;
            term_typed(alloc, number, &form, members, behind(lines), typing)
        }
        Side::Ring(firsts, nexts) => {
            let forms = ring_forms(alloc, owner, member)?;
            both_typed(alloc, number, &forms, firsts, nexts, behind(lines), typing)
        }
        Side::Inverted(pairs, owners) => {
            let forms = inverted_forms(alloc, owner, member)?;
            both_typed(alloc, number, &forms, pairs, owners, behind(lines), typing)
        }
    }
}

/// The side of the definition with the number, for what is due: its leaves stand behind those
/// before it, and the result is the lines that are left. `Mistyped` and `NoMemory` come as for a
/// term; `Linkset` comes first where a file has the side of a link, or a link has none.
pub fn side_typed<'a>(
    alloc: Global,
    number: u16,
    stored: &Stored,
    side: &Side,
    lines: &'a [u32],
    typing: &mut Typing,
) -> Result<&'a [u32], Untyped>
    ensures { Answers (λ r. (r.now, typing.new)) result
        (side_typed number stored.now (side_of side.now) lines.now typing.old) }
{
    match stored {
        Stored::File(form) => match side {
            Side::File(term) => term_typed(alloc, number, form, term, lines, typing),
            _ => Err(Untyped::Mistyped(here(lines), TypeWhy::Linkset)),
        },
        Stored::Link(owner, member) => {
            link_typed(alloc, number, (*owner, *member), side, lines, typing)
        }
    }
}
