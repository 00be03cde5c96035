// Reading a whole equation.
ghost use Rattle.std.specs.Prelude.{◌≡◌, ◌<◌, length, List, ℕ, Ok, IfOk, IfErr};
ghost use Rattle.gx_equation.specs.Faults.{IsBad};
ghost use Rattle.gx_tokens.specs.Reading.{Gives, map_ok, with_fault_line, IsUnlessNoMemory};
ghost use Rattle.gx_equation.specs.Definitions.{equation_at, with_lines};
ghost use Rattle.gx_equation.specs.Grammar.{Means};
ghost use Rattle.gx_equation.specs.Printing.{AreWritten};
ghost use Rattle.gx_equation.specs.Seen.{definitions_of};
ghost use Rattle.gx_equation.specs.Trees.{DefinitionTree};

use crate::definitions::read_definitions;
use crate::equation::Equation;
use crate::lines::lines_of;
use gx_tokens::{ReadError, Unread, unread};
use std::alloc::Global;

fn equation_of(alloc: Global, bytes: &[u8]) -> Result<Equation, ReadError>
    requires { length bytes.now < 4294967295 }
    ensures { Gives (λ e. (definitions_of e.definitions, e.lines)) result
        (map_ok (with_lines bytes.now) (equation_at bytes.now)) }
{
    let mut places = Vec::new(alloc);
    let definitions = read_definitions(alloc, &mut places, bytes)?;
    let lines = lines_of(alloc, bytes, &places)?;
    Ok(Equation { definitions, lines })
}

fn read_exactly(alloc: Global, bytes: &[u8]) -> Result<Equation, Unread>
    requires { length bytes.now < 4294967295 }
    ensures { IsUnlessNoMemory (map_ok (λ e. (definitions_of e.definitions, e.lines)) result)
        (with_fault_line bytes.now (map_ok (with_lines bytes.now) (equation_at bytes.now))) }
{
    equation_of(alloc, bytes).map_err(|error| unread(bytes, error))
}

/// The equation that a text means: definitions, each a name, `=` and the side of a file (a term) or
/// of a link (`array`, `ring` or `inverted`). Blanks and comments may stand between the tokens. A
/// name is any word, and heads stand at most 16 deep, a leaf and the head of a link's side among
/// them.
///
/// `Bad` comes exactly where the text isn't in this grammar, with the line of its first fault,
/// counted from 1, and the reason: `Token`, `Unexpected`, `End`, `Number` (a number out of the
/// range of its place) or `Depth` (a head at depth 17). `NoMemory` comes where there was none for
/// the equation.
pub fn read_equation(alloc: Global, bytes: &[u8]) -> Result<Equation, Unread>
    requires { length bytes.now < 4294967295 }
    // What is read is what the text means, with the lines of its places.
    ensures found { IfOk result (λ e. Means bytes.now (definitions_of e.definitions, e.lines)) }
    // A text has one meaning.
    ensures one { (a b : List DefinitionTree × List ℕ) → Means bytes.now a → Means bytes.now b →
        a ≡ b }
    // What is read can be written.
    ensures written { IfOk result (λ e. AreWritten (definitions_of e.definitions)) }
    // What a text means is read, where there is memory for it.
    ensures only { (meaning : List DefinitionTree × List ℕ) → Means bytes.now meaning →
        IsUnlessNoMemory {X = List DefinitionTree × List ℕ}
        (map_ok (λ e. (definitions_of e.definitions, e.lines)) result) (Ok meaning) }
    // No text of the grammar goes on with the token of a fault behind those before it, which some
    // text begins with.
    ensures fault { IfErr result (λ error. IsBad bytes.now error) }
    // Which fault is the first, and its line.
    ensures exact { IsUnlessNoMemory (map_ok (λ e. (definitions_of e.definitions, e.lines)) result)
        (with_fault_line bytes.now (map_ok (with_lines bytes.now) (equation_at bytes.now))) }
{
    read_exactly(alloc, bytes)
}
