// What a request on a device is prepared from, and why its device isn't had.
ghost use Rattle.std.specs.Prelude.{◌≡◌, IsTrue, IfOk};
ghost use Rattle.gx_schema.specs.Grammar.{IsSchemaText};
ghost use Rattle.gx_schema.specs.Rules.{IsSchema};
ghost use Rattle.gx_schema.specs.WellFormed.{IsWellFormed};
ghost use Rattle.gx_work.specs.Schema.{schema_lines};
ghost use Rattle.gx_requests.specs.Words.{AskOfTwo, AskOfOne};
ghost use Rattle.gx_requests.specs.Checked.{IsChecked, IsStoredOf, IsStoredFor, IsStored};
ghost use Rattle.gx_requests.specs.Fetched.{Fetches, Prepares};
ghost use Rattle.gx_play.specs.Endings.{unopened_ending};

use crate::reading::{Checked, read_equation_text, read_texts};
use gx_device::Machine;
use gx_play::{DeviceWhy, Ending};
use gx_printing::print_equation;
use gx_schema::{Schema, print_schema};
use gx_store::Unopened;
use gx_types::{Built, build};
use gx_values::{NoMemory, Octets};
use std::alloc::Global;

/// Accepted texts, as a device keeps them.
#[derive(Drop)]
pub struct Stored {
    /// The schema.
    pub schema: Schema,
    /// The nodes of its files and of its links, and the kinds of their leaves.
    pub built: Built,
    /// The canonical text of the schema.
    pub schema_text: Octets,
    /// The canonical text of the equation.
    pub equation_text: Octets,
}

/// What the texts of these names give for a device. A refusal is the first reason in the order of
/// the texts, the schema, the equation, its types, and the length of the canonical texts; it comes
/// before anything of the device. `Fault` comes only where a call of the machine failed.
pub fn prepare_stored<'a, M: Machine>(
    alloc: Global,
    schema: &'a str,
    equation: &'a str,
    machine: &mut M,
) -> Result<Stored, Ending<'a>>
    ensures prepared { IsTrue M.tells →
        Prepares (AskOfTwo schema.now equation.now) IsStoredFor (M.content machine.old).aside.texts
        (M.faults machine.old) (M.faults machine.new) result }
    ensures stored { IfOk result IsStored }
    ensures fetches { Fetches M.content M.faults machine.old machine.new result }
{
    let checked = read_texts(alloc, schema, equation, machine)?;
    Ok(build_stored(alloc, checked)?)
}

/// What the equation of this name gives for a device under a schema that is there already. A
/// refusal is the first reason in the order of the text, the equation, its types, and the length of
/// the canonical texts. `Fault` comes only where a call of the machine failed.
pub fn prepare_under<'a, M: Machine>(
    alloc: Global,
    schema: Schema,
    equation: &'a str,
    machine: &mut M,
) -> Result<Stored, Ending<'a>>
    requires means { IsSchemaText schema_lines schema }
    requires rules { IsSchema schema }
    requires well_formed { IsWellFormed schema }
    ensures prepared { IsTrue M.tells →
        Prepares (AskOfOne equation.now) IsStoredFor (M.content machine.old).aside.texts
        (M.faults machine.old) (M.faults machine.new) result }
    ensures stored { IfOk result IsStored }
    ensures schema { IfOk result (λ x. x.schema ≡ schema) }
    ensures fetches { Fetches M.content M.faults machine.old machine.new result }
{
    let checked = read_equation_text(alloc, schema, equation, machine)?;
    Ok(build_stored(alloc, checked)?)
}

// The same of accepted texts.
fn build_stored(alloc: Global, checked: Checked) -> Result<Stored, NoMemory>
    requires { IsChecked checked }
    ensures built { IfOk result (IsStoredOf checked) }
    ensures stored { IfOk result IsStored }
{
    let Checked {
        schema,
        equation,
        typing,
    } = checked;
    let schema_text = print_schema(alloc, &schema)?;
    let equation_text = print_equation(alloc, &equation)?;
    let built = build(alloc, &schema, &equation, typing)?;
    Ok(Stored {
        schema,
        built,
        schema_text,
        equation_text,
    })
}

/// How the request ends where its device isn't had.
pub fn unopened_ending<'a>(why: Unopened) -> Ending<'a>
    ensures { result ≡ unopened_ending why }
{
    match why {
        Unopened::Missing => Ending::Device(DeviceWhy::Missing),
        Unopened::Exists => Ending::Device(DeviceWhy::Exists),
        Unopened::Size => Ending::Device(DeviceWhy::Size),
        Unopened::NoDatabase => Ending::Device(DeviceWhy::NoDatabase),
        Unopened::OtherTexts(place) => Ending::Device(DeviceWhy::OtherEquation(place)),
        Unopened::Fault => Ending::Fault,
        Unopened::NoMemory => Ending::NoMemory,
    }
}
