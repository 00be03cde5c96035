// Typing of terms.
ghost use Rattle.std.specs.Prelude.{◌≡◌, ℕ, length, Ok};
ghost use Rattle.gx_values.specs.declared.records.Form.{Form as FormOf};
ghost use Rattle.gx_equation.specs.Seen.{tree_of, trees_of};
ghost use Rattle.gx_equation.specs.Trees.{node, none, kid, kids_from};
ghost use Rattle.gx_equation.specs.declared.heads.Head.TheVariants as heads;
ghost use Rattle.gx_forms.specs.Forms.{one_field};
ghost use Rattle.gx_forms.specs.Narrow.{narrow};
ghost use Rattle.gx_typing.specs.Rows.{leaf_row};
ghost use Rattle.gx_typing.specs.Typing.{Answers, at, here, other_lines, with_leaf, typed_at, kids_typed};

use crate::reasons::{TypeWhy, Untyped};
use crate::rows::term_row;
use crate::typing::Typing;
use gx_equation::Term;
use gx_forms::{first_kind, key_widths, one_field, only_form, two_forms};
use gx_ports::{LeafKind, LeafSpec, MAX_LEAVES};
use gx_values::Form;
use std::alloc::Global;

/// The line of the place that is due, the first of those that are left.
pub fn here(lines: &[u32]) -> u32
    ensures { result ≡ here lines.now }
{
    match lines {
        [line, ..] => *line,
        [] => 0,
    }
}

/// The lines of the places behind the one that is due.
pub fn behind(lines: &[u32]) -> &[u32]
    ensures { result.now ≡ other_lines lines.now }
{
    match lines {
        [_, rest @ ..] => rest,
        [] => lines,
    }
}

/// The reason with the line of the place that is due.
pub fn at(lines: &[u32], row: Result<(), TypeWhy>) -> Result<(), Untyped>
    ensures { Answers (λ x. x) result (at lines.now row) }
{
    match row {
        Ok(()) => Ok(()),
        Err(why) => Err(Untyped::Mistyped(here(lines), why)),
    }
}

fn add_leaf(lines: &[u32], owner: u16, spec: LeafSpec, typing: &mut Typing) -> Result<(), Untyped>
    ensures { Answers (λ _. typing.new) result (at lines.now (with_leaf owner spec typing.old)) }
{
    if typing.specs.0.len() >= MAX_LEAVES {
        return Err(Untyped::Mistyped(here(lines), TypeWhy::Leaves));
    }
    typing.specs.0.push(spec)?;
    typing.owners.0.push(owner)?;
    Ok(())
}

fn leaf_typed<'a>(
    owner: u16,
    form: &Form,
    kind: LeafKind,
    lines: &'a [u32],
    typing: &mut Typing,
) -> Result<&'a [u32], Untyped>
    requires { leaf_row form.now ≡ Ok tt }
    ensures { Answers (λ r. (r.now, typing.new)) result
        (typed_at owner form.now (node (heads.Leaf kind) none) lines.now typing.old) }
{
    let spec = LeafSpec {
        kind,
        first: first_kind(&form.keys.0),
        key_width: key_widths(&form.keys.0),
    };
    add_leaf(lines, owner, spec, typing)?;
    Ok(behind(lines))
}

#[cycle(typing)]
fn same_typed<'a>(
    alloc: Global,
    owner: u16,
    form: &Form,
    kids: &[Term],
    lines: &'a [u32],
    typing: &mut Typing,
) -> Result<&'a [u32], Untyped>
    ensures { Answers (λ r. (r.now, typing.new)) result
        (kids_typed owner (λ _. form.now) 0 (kids_from (trees_of kids.now)) lines.now typing.old) }
{
    let mut left = lines;
    for kid in kids {
        left = term_typed(alloc, owner, form, kid, left, typing)?;
    }
    Ok(left)
}

#[cycle(typing)]
fn each_typed<'a>(
    alloc: Global,
    owner: u16,
    form: &Form,
    kids: &[Term],
    lines: &'a [u32],
    typing: &mut Typing,
) -> Result<&'a [u32], Untyped>
    requires { length kids.now ≡ length form.now.fields }
    ensures { Answers (λ r. (r.now, typing.new)) result
        (kids_typed owner (one_field form.now) 0
        (kids_from (trees_of kids.now)) lines.now typing.old) }
{
    let mut left = lines;
    for (i, kid) in kids.iter().enumerate() {
        let one = one_field(alloc, form, i)?;
        left = term_typed(alloc, owner, &one, kid, left, typing)?;
    }
    Ok(left)
}

/// Two terms one after the other, each at its form. Errors come as for a term.
#[cycle(typing)]
pub fn both_typed<'a>(
    alloc: Global,
    owner: u16,
    forms: &(Form, Form),
    first: &Term,
    second: &Term,
    lines: &'a [u32],
    typing: &mut Typing,
) -> Result<&'a [u32], Untyped>
    ensures { (due : ℕ → FormOf) → narrow forms.now.0 ≡ narrow (due 0) →
        narrow forms.now.1 ≡ narrow (due 1) →
        Answers (λ r. (r.now, typing.new)) result
        (kids_typed owner due 0
        (kid (tree_of first.now) (kid (tree_of second.now) none)) lines.now typing.old) }
{
    let left = term_typed(alloc, owner, &forms.0, first, lines, typing)?;
    term_typed(alloc, owner, &forms.1, second, left, typing)
}

/// A term of a definition at a form: its leaves stand behind those before it, and the result is the
/// lines that are left. `Mistyped` comes with the first of its places that fails, and `NoMemory`
/// where there was none for a form or a leaf. After an error the leaves are those of the places
/// before, or fewer owners by one.
#[cycle(typing)]
pub fn term_typed<'a>(
    alloc: Global,
    owner: u16,
    form: &Form,
    term: &Term,
    lines: &'a [u32],
    typing: &mut Typing,
) -> Result<&'a [u32], Untyped>
    ensures { Answers (λ r. (r.now, typing.new)) result
        (typed_at owner form.now (tree_of term.now) lines.now typing.old) }
{
    at(lines, term_row(form, term))?;
    match term {
        Term::Leaf(kind) => leaf_typed(owner, form, *kind, lines, typing),
        Term::Actual(kid) | Term::Encode(_, _, kid) | Term::Divide(_, kid) => {
            let made = only_form(alloc, form, term)?;
            term_typed(alloc, owner, &made, kid, behind(lines), typing)
        }
        Term::Segment(_, first, second) | Term::Index(_, first, second) => {
            let forms = two_forms(alloc, form, term)?;
            both_typed(alloc, owner, &forms, first, second, behind(lines), typing)
        }
        Term::Transpose(kids) => each_typed(alloc, owner, form, kids, behind(lines), typing),
        Term::Partition(_, _, kids) => same_typed(alloc, owner, form, kids, behind(lines), typing),
    }
}
