// Typing of a whole equation.
ghost use Rattle.std.specs.Prelude.{◌≡◌, ◌+◌, ◌<◌, ◌≤◌, ◌^◌, length, ℕ, Err, IfOk, IfErr};
ghost use Rattle.gx_schema.specs.Rules.{IsSchema};
ghost use Rattle.gx_equation.specs.Seen.{definition_of, definitions_of};
ghost use Rattle.gx_typing.specs.declared.reasons.TypeWhy.{TypeWhy as TypeWhyOf};
ghost use Rattle.gx_typing.specs.Places.{IsFirstFault, places};
ghost use Rattle.gx_typing.specs.Typed.{IsTyped, leaves, typing_with};
ghost use Rattle.gx_typing.specs.Typing.{Answers};
ghost use Rattle.gx_typing.specs.Whole.{definition_typed, definitions_typed, no_leaves, typing_of};
ghost use Rattle.gx_ports.specs.declared.kinds.TheConstants.{MAX_LEAVES};

use crate::dues::{Due, dues};
use crate::reasons::{TypeWhy, Untyped};
use crate::rows::tested;
use crate::sides::side_typed;
use crate::terms::{at, behind, here};
use crate::typing::{Owners, Specs, Typing};
use gx_equation::{Definition, Equation};
use gx_schema::Schema;
use std::alloc::Global;

fn definition_typed<'a>(
    alloc: Global,
    number: u16,
    due: &Due,
    definition: &Definition,
    lines: &'a [u32],
    typing: &mut Typing,
) -> Result<&'a [u32], Untyped>
    ensures { Answers (λ r. (r.now, typing.new)) result
        (definition_typed number due.now (definition_of definition.now) lines.now typing.old) }
{
    let named = due.name.as_slice() == definition.name.as_slice();
    at(lines, tested(TypeWhy::Definition, named))?;
    side_typed(
        alloc,
        number,
        &due.stored,
        &definition.side,
        behind(lines),
        typing,
    )
}

fn definitions_typed(
    alloc: Global,
    dues: &[Due],
    definitions: &[Definition],
    lines: &[u32],
) -> Result<Typing, Untyped>
    requires { length dues.now < 2 ^ 16 }
    ensures { Answers (λ x. x) result
        (definitions_typed 0 dues.now (definitions_of definitions.now) lines.now no_leaves) }
{
    let mut typing = Typing {
        specs: Specs(Vec::new(alloc)),
        owners: Owners(Vec::new(alloc)),
    };
    let mut number = 0;
    let mut due = dues;
    let mut rest = definitions;
    let mut left = lines;
    while let [definition, after @ ..] = rest {
        let [first, others @ ..] = due else {
            return Err(Untyped::Mistyped(here(left), TypeWhy::Definition));
        };
        left = definition_typed(alloc, number, first, definition, left, &mut typing)?;
        number += 1;
        due = others;
        rest = after;
    }
    match due {
        [] => Ok(typing),
        _ => Err(Untyped::Mistyped(here(left), TypeWhy::Definition)),
    }
}

fn typed_exactly(alloc: Global, schema: &Schema, equation: &Equation) -> Result<Typing, Untyped>
    requires { IsSchema schema.now }
    ensures { Answers (λ x. x) result
        (typing_of schema.now (definitions_of equation.now.definitions) equation.now.lines) }
{
    let due = dues(alloc, schema)?;
    definitions_typed(alloc, &due, &equation.definitions.0, &equation.lines.0)
}

/// The leaves of an equation under a schema, in the order of the definitions and in each from left
/// to right.
///
/// `Mistyped` comes exactly where the equation isn't typed under the schema, with the line of its
/// first place that fails and the first reason there. Places are the name of each definition and
/// then the heads of its side, in the order of the text; for a definition that is missing at the
/// end the line is the text's last. `NoMemory` comes where there was none for forms or leaves.
pub fn typed(alloc: Global, schema: &Schema, equation: &Equation) -> Result<Typing, Untyped>
    requires { IsSchema schema.now }
    // Leaves are given only where the equation is typed, and then they are its leaves.
    ensures typed { IfOk result
        (λ _. IsTyped schema.now (definitions_of equation.now.definitions)) }
    ensures leaves { IfOk result
        (λ typing. typing
        ≡ typing_with (leaves schema.now (definitions_of equation.now.definitions))) }
    ensures few { IfOk result (λ typing. length typing.specs ≤ MAX_LEAVES) }
    // Where it is typed they are given, unless there is no memory.
    ensures only { IsTyped schema.now (definitions_of equation.now.definitions) →
        IfErr result (λ error. error ≡ Untyped.NoMemory) }
    // The places of the text are gone through in order: the first that fails has this line, and
    // this is its first reason.
    ensures first { (line : ℕ) (reason : TypeWhyOf) → result ≡ Err (Untyped.Mistyped line reason) →
        IsFirstFault 0 (places schema.now (definitions_of equation.now.definitions))
        equation.now.lines line reason }
    // The same by recursion on the terms.
    ensures exact { Answers (λ x. x) result
        (typing_of schema.now (definitions_of equation.now.definitions) equation.now.lines) }
{
    typed_exactly(alloc, schema, equation)
}
