// The access of the first file of an equation, as a text.
ghost use Rattle.std.specs.Prelude.{length, IfOk};
ghost use Rattle.gx_schema.specs.Rules.{IsSchema};
ghost use Rattle.gx_equation.specs.Printing.{AreWritten};
ghost use Rattle.gx_equation.specs.Seen.{definitions_of};
ghost use Rattle.gx_stack.specs.Seen.{tree_of};
ghost use Rattle.gx_stack.specs.Tree.{IsValid};
ghost use Rattle.gx_types.specs.Any.{any_rule};
ghost use Rattle.gx_types.specs.Nodes.{AreNodes};

use gx_access::{Access, Chooser, Fragment, access_of};
use gx_codec::Slot;
use gx_equation::{Equation, read_equation};
use gx_schema::{Schema, read_schema};
use gx_stack::Node;
use gx_types::{AnyMapping, Built, build};
use gx_typing::{Untyped, typed};
use gx_values::Code;
use std::alloc::Global;
use std::test::Fail;

fn schema_of(alloc: Global, text: &[u8]) -> Result<Schema, Untyped>
    ensures { IfOk result (λ schema. IsSchema schema) }
{
    if text.len() >= 4_294_967_295 {
        return Err(Untyped::NoMemory);
    }
    read_schema(alloc, text).map_err(|_| Untyped::NoMemory)
}

fn equation_of(alloc: Global, text: &[u8]) -> Result<Equation, Untyped>
    ensures { IfOk result (λ equation. AreWritten (definitions_of equation.definitions)) }
{
    if text.len() >= 4_294_967_295 {
        return Err(Untyped::NoMemory);
    }
    read_equation(alloc, text).map_err(|_| Untyped::NoMemory)
}

fn built_of(alloc: Global, schema: &Schema, equation: &Equation) -> Result<Built, Untyped>
    requires schema { IsSchema schema.now }
    requires equation { AreWritten (definitions_of equation.now.definitions) }
    ensures { IfOk result (λ built. AreNodes schema.now built.files (length built.specs)) }
{
    let typing = typed(alloc, schema, equation)?;
    Ok(build(alloc, schema, equation, typing)?)
}

// The access of the first file's node: a line for each fragment, `none` where there is none.
pub(crate) fn access_text(alloc: Global, schema: &str, equation: &str) -> Result<String, Fail> {
    let schema = schema_of(alloc, schema.as_bytes())?;
    let equation = equation_of(alloc, equation.as_bytes())?;
    let built = built_of(alloc, &schema, &equation)?;
    match built.files.0.as_slice() {
        [node, ..] => node_text(alloc, node),
        [] => Ok(String::new(alloc)),
    }
}

fn node_text(alloc: Global, node: &Node<AnyMapping>) -> Result<String, Fail>
    requires { IsValid any_rule (tree_of node.now) }
{
    let mut text = String::new(alloc);
    match access_of(alloc, node)? {
        Some(access) => push_access(alloc, &access, &mut text)?,
        None => text.push_str("none")?,
    }
    Ok(text)
}

fn push_access(alloc: Global, access: &Access, text: &mut String) -> Result<(), Fail> {
    match access {
        Access::Only(fragments) => {
            for fragment in &fragments.0 {
                push_fragment(alloc, fragment, text)?;
            }
        }
        Access::By(chooser, bounds, alternatives) => {
            push_chooser(alloc, *chooser, text)?;
            text.push_str(format!(in alloc; " {:?}\n", bounds.0)?.as_str())?;
            for alternative in alternatives {
                push_access(alloc, alternative, text)?;
            }
        }
    }
    Ok(())
}

fn push_chooser(alloc: Global, chooser: Chooser, text: &mut String) -> Result<(), Fail> {
    match chooser {
        Chooser::OfKey(number) => text.push_str(format!(in alloc; "key {number}")?.as_str())?,
        Chooser::OfData(slot) => push_slot(alloc, slot, text)?,
    }
    Ok(())
}

// The leaf, how often its fields are one of bytes, the fields, for each group the fields, the size
// of pieces, and the bytes of defaults.
fn push_fragment(alloc: Global, fragment: &Fragment, text: &mut String) -> Result<(), Fail> {
    let (leaf, wraps) = (fragment.leaf, fragment.view.wraps);
    text.push_str(format!(in alloc; "{leaf}: {wraps} of")?.as_str())?;
    for slot in &fragment.view.slots.0 {
        push_slot(alloc, *slot, text)?;
    }
    for group in &fragment.view.groups.0 {
        text.push_str(", in")?;
        for tested in &group.0 {
            push_slot(alloc, tested.slot, text)?;
        }
    }
    if let Some(size) = fragment.piece {
        text.push_str(format!(in alloc; ", by {size}")?.as_str())?;
    }
    if let Some(defaults) = &fragment.defaults {
        text.push_str(format!(in alloc; ", else {:?}", defaults.0)?.as_str())?;
    }
    text.push_str("\n")?;
    Ok(())
}

fn push_slot(alloc: Global, slot: Slot, text: &mut String) -> Result<(), Fail> {
    let number = slot.number;
    let code = match slot.code {
        None => "",
        Some(Code::Pack) => " pack",
        Some(Code::Rle) => " rle",
    };
    text.push_str(format!(in alloc; " {number}{code}")?.as_str())?;
    Ok(())
}
