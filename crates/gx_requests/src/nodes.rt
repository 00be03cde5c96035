// What a request without a device is prepared from.
ghost use Rattle.std.specs.Prelude.{IsTrue, IfOk};
ghost use Rattle.gx_requests.specs.Words.{AskOfTwo};
ghost use Rattle.gx_requests.specs.Checked.{IsChecked, IsBuiltFor, IsPrepared, CanPlay};
ghost use Rattle.gx_requests.specs.Fetched.{Fetches, Prepares};

use crate::reading::{Checked, read_texts};
use gx_device::Machine;
use gx_play::Ending;
use gx_schema::Schema;
use gx_types::{Built, build};
use gx_values::NoMemory;
use std::alloc::Global;

/// The schema and the nodes of the texts of these names. A refusal is the first reason in the order
/// of the texts, the schema, the equation, its types, and the length of the canonical texts.
/// `Fault` comes only where a call of the machine failed.
pub fn prepare_nodes<'a, M: Machine>(
    alloc: Global,
    schema: &'a str,
    equation: &'a str,
    machine: &mut M,
) -> Result<(Schema, Built), Ending<'a>>
    ensures prepared { IsTrue M.tells →
        Prepares (AskOfTwo schema.now equation.now) IsPrepared (M.content machine.old).aside.texts
        (M.faults machine.old) (M.faults machine.new) result }
    ensures can_play { IfOk result CanPlay }
    ensures fetches { Fetches M.content M.faults machine.old machine.new result }
{
    let checked = read_texts(alloc, schema, equation, machine)?;
    Ok(build_nodes(alloc, checked)?)
}

// The same of accepted texts.
fn build_nodes(alloc: Global, checked: Checked) -> Result<(Schema, Built), NoMemory>
    requires { IsChecked checked }
    ensures built { IfOk result (IsBuiltFor checked) }
    ensures can_play { IfOk result CanPlay }
{
    let Checked {
        schema,
        equation,
        typing,
    } = checked;
    let built = build(alloc, &schema, &equation, typing)?;
    Ok((schema, built))
}
