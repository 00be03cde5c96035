// Engines over leaves in memory.
ghost use Rattle.std.specs.Prelude.{◌≡◌, ◌≤◌, None, false, length, IfOk};
ghost use Rattle.gx_schema.specs.Rules.{IsSchema};
ghost use Rattle.gx_schema.specs.WellFormed.{IsWellFormed};
ghost use Rattle.gx_equation.specs.Printing.{AreWritten};
ghost use Rattle.gx_equation.specs.Seen.{definitions_of};
ghost use Rattle.gx_types.specs.Nodes.{AreNodes, AreLinkNodes, AreOwned};
ghost use Rattle.gx_memory_leaves.specs.Plain.{working_of};
ghost use Rattle.gx_states.specs.Internal.{AreFor};
ghost use Rattle.gx_engine.specs.Steps.{schema_of, built_of, leaves_of, stop_of, is_open};

use gx_engine::Engine;
use gx_equation::{Equation, read_equation};
use gx_memory_leaves::PlainLeaves;
use gx_memory_machine::MemoryMachine;
use gx_schema::{Schema, read_schema};
use gx_types::{Built, build};
use gx_typing::typed;
use std::alloc::Global;
use std::test::Fail;

fn schema_of(alloc: Global, text: &[u8]) -> Result<Schema, Fail>
    ensures valid { IfOk result (λ schema. IsSchema schema) }
    ensures well_formed { IfOk result IsWellFormed }
{
    if text.len() >= 200 {
        return Err("a long schema".into());
    }
    Ok(read_schema(alloc, text)?)
}

fn equation_of(alloc: Global, text: &[u8]) -> Result<Equation, Fail>
    ensures { IfOk result (λ equation. AreWritten (definitions_of equation.definitions)) }
{
    if text.len() >= 200 {
        return Err("a long equation".into());
    }
    Ok(read_equation(alloc, text)?)
}

// How the files and the links of a schema are stored.
fn built_under(alloc: Global, schema: &Schema, equation: &[u8]) -> Result<Built, Fail>
    requires { IsSchema schema.now }
    ensures nodes { IfOk result (λ built. AreNodes schema.now built.files (length built.specs)) }
    ensures link_nodes { IfOk result
        (λ built. AreLinkNodes schema.now built.files built.links (length built.specs)) }
    ensures owned { IfOk result
        (λ built. AreOwned schema.now built.files built.links built.owners (length built.specs)) }
    ensures few { IfOk result (λ built. length built.specs ≤ 255) }
{
    let equation = equation_of(alloc, equation)?;
    let typing = typed(alloc, schema, &equation)?;
    Ok(build(alloc, schema, &equation, typing)?)
}

// A schema, and how its files and its links are stored.
fn built(alloc: Global, schema: &[u8], equation: &[u8]) -> Result<(Schema, Built), Fail>
    ensures stored { IfOk result (λ texts. AreFor texts.0 texts.1 (length texts.1.specs)) }
    ensures well_formed { IfOk result (λ texts. IsWellFormed texts.0) }
{
    let schema = schema_of(alloc, schema)?;
    let built = built_under(alloc, &schema, equation)?;
    Ok((schema, built))
}

fn empty_leaves(
    alloc: Global,
    count: u32,
    machine: MemoryMachine,
) -> Result<PlainLeaves<MemoryMachine>, Fail>
    ensures { IfOk result (λ leaves. length (working_of leaves) ≡ count) }
{
    match PlainLeaves::make(alloc, machine, count) {
        Ok(leaves) => Ok(leaves),
        Err((_, error)) => Err(error)?,
    }
}

// An engine of an empty database, over this machine.
pub(crate) fn started(
    alloc: Global,
    schema: &str,
    equation: &str,
    machine: MemoryMachine,
) -> Result<Engine<PlainLeaves<MemoryMachine>>, Fail>
    ensures ready { IfOk result (λ engine.
        AreFor (schema_of engine) (built_of engine) (length (working_of (leaves_of engine)))) }
    ensures well_formed { IfOk result (λ engine. IsWellFormed (schema_of engine)) }
    ensures shut { IfOk result (λ engine. is_open engine ≡ false) }
    ensures going { IfOk result (λ engine. stop_of engine ≡ None) }
{
    let (schema, built) = built(alloc, schema.as_bytes(), equation.as_bytes())?;
    let leaves = empty_leaves(alloc, built.specs.0.len() as u32, machine)?;
    Ok(Engine::start(schema, built, leaves))
}
