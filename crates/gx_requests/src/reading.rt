// Reading the two texts of a request, up to what the checker says of them.
ghost use Rattle.std.specs.Prelude.{◌≡◌, ◌≤◌, ◌<◌, length, List, ℕ, IsTrue, IfOk, IfErr, IsErrOf};
ghost use Rattle.gx_schema.specs.Grammar.{IsSchemaText};
ghost use Rattle.gx_schema.specs.Rules.{IsSchema};
ghost use Rattle.gx_schema.specs.WellFormed.{IsWellFormed};
ghost use Rattle.gx_equation.specs.Grammar.{Means};
ghost use Rattle.gx_equation.specs.Printing.{AreWritten};
ghost use Rattle.gx_equation.specs.Seen.{definitions_of};
ghost use Rattle.gx_typing.specs.Typed.{IsTyped, leaves, typing_with};
ghost use Rattle.gx_requests.specs.Words.{AskOfTwo, AskOfOne};
ghost use Rattle.gx_requests.specs.Lengths.{text_length};
ghost use Rattle.gx_work.specs.Schema.{schema_lines};
ghost use Rattle.gx_requests.specs.Checked.{IsUnread, IsUnreadEquation, IsUntyped, IsChecked, IsAcceptedAs, AreChecked};
ghost use Rattle.gx_requests.specs.Fetched.{Fetches, Prepares};
ghost use Rattle.gx_requests.specs.Requests.{AreUnchecked, text_limit};

use crate::texts::{TEXT_LIMIT, fetch_text};
use gx_device::Machine;
use gx_equation::{Equation, read_equation};
use gx_play::Ending;
use gx_printing::print_equation;
use gx_schema::{Schema, Unread, print_schema, read_schema};
use gx_typing::{Typing, Untyped, typed};
use gx_values::NoMemory;
use std::alloc::Global;

/// What two accepted texts give.
#[derive(Drop)]
pub struct Checked {
    /// What the first means.
    pub schema: Schema,
    /// What the second means.
    pub equation: Equation,
    /// The leaves of the equation under the schema.
    pub typing: Typing,
}

/// What the texts of these names give. Both are fetched before any is read. A refusal is the first
/// reason in the order of the texts, the schema, the equation, its types, and the length of the
/// canonical texts.
pub fn read_texts<'a, M: Machine>(
    alloc: Global,
    schema: &'a str,
    equation: &'a str,
    machine: &mut M,
) -> Result<Checked, Ending<'a>>
    ensures accepted { IsTrue M.tells →
        Prepares (AskOfTwo schema.now equation.now) IsAcceptedAs (M.content machine.old).aside.texts
        (M.faults machine.old) (M.faults machine.new) result }
    ensures checked { IfOk result IsChecked }
    ensures fetches { Fetches M.content M.faults machine.old machine.new result }
{
    let schema_text = fetch_text(alloc, schema, machine)?;
    let equation_text = fetch_text(alloc, equation, machine)?;
    check_texts(alloc, &schema_text, &equation_text)
}

/// What the text of this name gives under a schema that is there already. A refusal is the first
/// reason in the order of the text, the equation, its types, and the length of the canonical texts.
pub fn read_equation_text<'a, M: Machine>(
    alloc: Global,
    schema: Schema,
    equation: &'a str,
    machine: &mut M,
) -> Result<Checked, Ending<'a>>
    requires means { IsSchemaText schema_lines schema }
    requires rules { IsSchema schema }
    requires well_formed { IsWellFormed schema }
    ensures accepted { IsTrue M.tells →
        Prepares (AskOfOne equation.now) IsAcceptedAs (M.content machine.old).aside.texts
        (M.faults machine.old) (M.faults machine.new) result }
    ensures checked { IfOk result IsChecked }
    ensures schema { IfOk result (λ c. c.schema ≡ schema) }
    ensures fetches { Fetches M.content M.faults machine.old machine.new result }
{
    let equation_text = fetch_text(alloc, equation, machine)?;
    check_equation(alloc, schema, &equation_text)
}

// What the checker says of two texts.
fn check_texts<'a>(alloc: Global, schema: &[u8], equation: &[u8]) -> Result<Checked, Ending<'a>>
    requires schema { length schema.now ≤ text_limit }
    requires equation { length equation.now ≤ text_limit }
    ensures accepted { IfOk result (AreChecked schema.now equation.now) }
    ensures checked { IfOk result IsChecked }
    ensures unaccepted { IfErr result (AreUnchecked schema.now equation.now) }
    ensures no_fault { ¬ IsErrOf result Ending.Fault }
{
    let schema = schema_from(alloc, schema)?;
    check_equation(alloc, schema, equation)
}

// What it says of an equation under a schema.
fn check_equation<'a>(alloc: Global, schema: Schema, equation: &[u8]) -> Result<Checked, Ending<'a>>
    requires rules { IsSchema schema }
    requires well_formed { IsWellFormed schema }
    requires equation { length equation.now ≤ text_limit }
    ensures accepted { (text : List ℕ) → IsSchemaText text schema →
        IfOk result (AreChecked text equation.now) }
    ensures checked { IfOk result IsChecked }
    ensures schema { IfOk result (λ c. c.schema ≡ schema) }
    ensures unaccepted { (text : List ℕ) → IsSchemaText text schema →
        IfErr result (AreUnchecked text equation.now) }
    ensures no_fault { ¬ IsErrOf result Ending.Fault }
{
    let equation = equation_from(alloc, equation)?;
    let typing = typing_from(alloc, &schema, &equation)?;
    if canonical_length(alloc, &schema, &equation)? > TEXT_LIMIT as usize {
        return Err(Ending::TextsTooLong);
    }
    Ok(Checked {
        schema,
        equation,
        typing,
    })
}

fn schema_from<'a>(alloc: Global, text: &[u8]) -> Result<Schema, Ending<'a>>
    requires { length text.now ≤ text_limit }
    ensures read { IfOk result (IsSchemaText text.now) }
    ensures rules { IfOk result IsSchema }
    ensures well_formed { IfOk result IsWellFormed }
    ensures unread { IfErr result (IsUnread text.now) }
{
    match read_schema(alloc, text) {
        Ok(schema) => Ok(schema),
        Err(Unread::Bad(line, why)) => Err(Ending::Schema(line, why)),
        Err(Unread::NoMemory) => Err(Ending::NoMemory),
    }
}

fn equation_from<'a>(alloc: Global, text: &[u8]) -> Result<Equation, Ending<'a>>
    requires { length text.now ≤ text_limit }
    ensures read { IfOk result (λ e. Means text.now (definitions_of e.definitions, e.lines)) }
    ensures written { IfOk result (λ e. AreWritten (definitions_of e.definitions)) }
    ensures unread { IfErr result (IsUnreadEquation text.now) }
{
    match read_equation(alloc, text) {
        Ok(equation) => Ok(equation),
        Err(Unread::Bad(line, why)) => Err(Ending::Equation(line, why)),
        Err(Unread::NoMemory) => Err(Ending::NoMemory),
    }
}

fn typing_from<'a>(
    alloc: Global,
    schema: &Schema,
    equation: &Equation,
) -> Result<Typing, Ending<'a>>
    requires { IsSchema schema.now }
    ensures typed { IfOk result
        (λ _. IsTyped schema.now (definitions_of equation.now.definitions)) }
    ensures leaves { IfOk result
        (λ typing. typing
        ≡ typing_with (leaves schema.now (definitions_of equation.now.definitions))) }
    ensures untyped { IfErr result
        (IsUntyped schema.now (definitions_of equation.now.definitions) equation.now.lines) }
{
    match typed(alloc, schema, equation) {
        Ok(typing) => Ok(typing),
        Err(Untyped::Mistyped(line, why)) => Err(Ending::Type(line, why)),
        Err(Untyped::NoMemory) => Err(Ending::NoMemory),
    }
}

// How many bytes the canonical texts of the schema and of the equation have.
fn canonical_length(alloc: Global, schema: &Schema, equation: &Equation) -> Result<usize, NoMemory>
    requires { IsSchema schema.now }
    ensures { IfOk result
        (λ length. length ≡ text_length schema.now (definitions_of equation.now.definitions)) }
{
    let schema_text = print_schema(alloc, schema)?;
    let equation_text = print_equation(alloc, equation)?;
    Ok(schema_text.as_slice().len() + equation_text.as_slice().len())
}
