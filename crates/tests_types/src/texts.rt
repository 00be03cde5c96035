// A schema and an equation under it, read, typed and built.
ghost use Rattle.std.specs.Prelude.{◌≤◌, length, IfOk};
ghost use Rattle.gx_schema.specs.Rules.{IsSchema};
ghost use Rattle.gx_equation.specs.Printing.{AreWritten};
ghost use Rattle.gx_equation.specs.Seen.{definitions_of};

use gx_equation::{Equation, read_equation};
use gx_schema::{Schema, read_schema};
use gx_types::{Built, build};
use gx_typing::{Typing, Untyped, typed};
use std::alloc::Global;

fn schema_of(alloc: Global, text: &[u8]) -> Result<Schema, Untyped>
    ensures { IfOk result (λ schema. IsSchema schema) }
{
    if text.len() >= 4_294_967_295 {
        return Err(Untyped::NoMemory);
    }
    read_schema(alloc, text).map_err(|_| Untyped::NoMemory)
}

fn equation_of(alloc: Global, text: &[u8]) -> Result<Equation, Untyped>
    ensures { IfOk result (λ equation. AreWritten (definitions_of equation.definitions)) }
{
    if text.len() >= 4_294_967_295 {
        return Err(Untyped::NoMemory);
    }
    read_equation(alloc, text).map_err(|_| Untyped::NoMemory)
}

pub(crate) fn type_texts(alloc: Global, schema: &[u8], equation: &[u8]) -> Result<Typing, Untyped>
    ensures { IfOk result (λ typing. length typing.specs ≤ 255) }
{
    let schema = schema_of(alloc, schema)?;
    let equation = equation_of(alloc, equation)?;
    typed(alloc, &schema, &equation)
}

fn build_read(alloc: Global, schema: &Schema, equation: &Equation) -> Result<Built, Untyped>
    requires schema { IsSchema schema.now }
    requires equation { AreWritten (definitions_of equation.now.definitions) }
{
    let typing = typed(alloc, schema, equation)?;
    Ok(build(alloc, schema, equation, typing)?)
}

pub(crate) fn build_texts(alloc: Global, schema: &[u8], equation: &[u8]) -> Result<Built, Untyped> {
    let schema = schema_of(alloc, schema)?;
    let equation = equation_of(alloc, equation)?;
    build_read(alloc, &schema, &equation)
}
