// The printed lines of plans.
ghost use Rattle.std.specs.Prelude.{◌≡◌, ◌<◌, ◌++◌, length, IfOk, OnOk, codes};
ghost use Rattle.std.specs.List.{AllByRecursion, slice_get};
ghost use Rattle.gx_schema.specs.Lookups.{file_at};
ghost use Rattle.gx_commands.specs.Commands.{IsFindOf, IsCondOf};
ghost use Rattle.gx_planner.specs.Texts.{field_name, link_name, way_text, plan_text};

use crate::plans::Plan;
use gx_commands::{Cond, Find};
use gx_schema::{FileDef, Schema};
use gx_values::{NoMemory, Octets};
use itoa::Buffer;
use std::alloc::{AllocError, Global};

/// What is said of the plan of a `find` of the schema, which stands in the line of this number.
/// `NoMemory`: there was none for it.
pub fn plan_line(
    alloc: Global,
    schema: &Schema,
    line: u32,
    find: &Find,
    plan: Plan,
) -> Result<Octets, NoMemory>
    requires { IsFindOf schema.now find.now }
    ensures { IfOk result (λ text. text ≡ plan_text schema.now line find.now plan) }
{
    let mut text = b"line ".to_vec(alloc)?;
    let mut buffer = Buffer::new();
    text.extend_from_slice(buffer.format(line).as_bytes())?;
    text.extend_from_slice(b": ")?;
    push_way(&mut text, schema, find, plan)?;
    text.extend_from_slice(b"\n")?;
    Ok(Octets(text))
}

fn push_way(text: &mut Vec<u8>, schema: &Schema, find: &Find, plan: Plan) -> Result<(), AllocError>
    requires { IsFindOf schema.now find.now }
    ensures { OnOk result (text.new.items ≡ text.old.items ++ way_text schema.now find.now plan) }
{
    let file = file_of(schema, find);
    let conds = find.conds.0.as_slice();
    match plan {
        Plan::Key(number) => push_field(text, b"key ", file, conds, number),
        Plan::Link => push_link(text, schema, find),
        Plan::Index(number) => push_field(text, b"index ", file, conds, number),
        Plan::KeyRange(number) => push_field(text, b"key range ", file, conds, number),
        Plan::IndexRange(number) => push_field(text, b"index range ", file, conds, number),
        Plan::Scan => text.extend_from_slice(b"scan"),
    }
}

// The file of a `find`.
fn file_of<'a>(schema: &'a Schema, find: &Find) -> &'a FileDef
    requires { find.now.file < length schema.now.files }
    ensures { result.now ≡ file_at schema.now find.now.file }
{
    &schema.files.0[usize::from(find.file)]
}

// A word, and the name of the field of the condition of this number.
fn push_field(
    text: &mut Vec<u8>,
    word: &[u8],
    file: &FileDef,
    conds: &[Cond],
    number: u16,
) -> Result<(), AllocError>
    requires { AllByRecursion (IsCondOf file.now) conds.now }
    ensures { OnOk result
        (text.new.items
        ≡ text.old.items ++ (word.now ++ field_name file.now (slice_get conds.now number))) }
{
    text.extend_from_slice(word)?;
    match conds.get(usize::from(number)) {
        Some(cond) => text.extend_from_slice(
            file.fields.0[usize::from(cond.field)].name.as_slice(),
        ),
        None => Ok(()),
    }
}

// The name of the link of the owner.
fn push_link(text: &mut Vec<u8>, schema: &Schema, find: &Find) -> Result<(), AllocError>
    requires { IsFindOf schema.now find.now }
    ensures { OnOk result
        (text.new.items ≡ text.old.items ++ (codes "link " ++ link_name schema.now find.now.of)) }
{
    text.extend_from_slice(b"link ")?;
    match &find.of {
        Some(of) => text.extend_from_slice(schema.links.0[usize::from(of.link)].name.as_slice()),
        None => Ok(()),
    }
}
