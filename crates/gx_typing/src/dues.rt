// The files and links of a schema in the order in which they are to be defined.
ghost use Rattle.std.specs.Prelude.{◌≡◌, slice_index_or, take, drop, IfOk};
ghost use Rattle.gx_schema.specs.Lookups.{key_kind, no_file};
ghost use Rattle.gx_typing.specs.Dues.{file_form, file_due, link_due, dues};
ghost use Rattle.gx_typing.specs.Dues.{owner_kind, member_kind};

use gx_forms::{copy_fields, first_kind};
use gx_schema::{FileDef, LinkDef, Schema};
use gx_values::{Field, Form, Kind, Name};
use std::alloc::{AllocError, Global};

/// What is defined: a file with the form of its records, or a link with the kinds of the keys of
/// its owner file and of its member file.
#[derive(Drop)]
pub enum Stored {
    File(Form),
    Link(Kind, Kind),
}

/// A file or a link that is to be defined.
#[derive(Drop)]
pub struct Due {
    pub name: Name,
    pub stored: Stored,
}

fn copy_name(name: &Name) -> Name
    ensures { result ≡ name.now }
{
    Name::from_slice(name.as_slice())
}

// The first field and the others.
fn split_first(fields: &[Field]) -> (&[Field], &[Field])
    ensures keys { result.0.now ≡ take 1 fields.now }
    ensures others { result.1.now ≡ drop 1 fields.now }
{
    fields.split_at(fields.len().min(1))
}

/// The form of a file's records: the first field is the key.
pub fn file_form(alloc: Global, file: &FileDef) -> Result<Form, AllocError>
    ensures { IfOk result (λ form. form ≡ file_form file.now) }
{
    let (keys, others) = split_first(&file.fields.0);
    Ok(Form {
        keys: copy_fields(alloc, keys)?,
        fields: copy_fields(alloc, others)?,
    })
}

fn file_due(alloc: Global, file: &FileDef) -> Result<Due, AllocError>
    ensures { IfOk result (λ due. due ≡ file_due file.now) }
{
    Ok(Due {
        name: copy_name(&file.name),
        stored: Stored::File(file_form(alloc, file)?),
    })
}

// The kind of the key of the file with the number; `Int` where there is none.
fn key_kind(files: &[FileDef], number: u16) -> Kind
    ensures { result ≡ key_kind (slice_index_or files.now number no_file) }
{
    let number = usize::from(number);
    if number < files.len() {
        let file = &files[number];
        first_kind(&file.fields.0)
    } else {
        Kind::Int
    }
}

/// The kinds of the keys of the owner file and of the member file of a link between two of the
/// files.
pub fn link_kinds(files: &[FileDef], link: &LinkDef) -> (Kind, Kind)
    ensures owner { result.0 ≡ owner_kind files.now link.now }
    ensures member { result.1 ≡ member_kind files.now link.now }
{
    (key_kind(files, link.owner), key_kind(files, link.member))
}

fn link_due(files: &[FileDef], link: &LinkDef) -> Due
    ensures { result ≡ link_due files.now link.now }
{
    let (owner, member) = link_kinds(files, link);
    Due {
        name: copy_name(&link.name),
        stored: Stored::Link(owner, member),
    }
}

/// The files and then the links, each in the order of the schema.
pub fn dues(alloc: Global, schema: &Schema) -> Result<Vec<Due>, AllocError>
    ensures { IfOk result (λ made. made.items ≡ dues schema.now) }
{
    let files = schema.files.as_slice();
    let mut made = Vec::new(alloc);
    for file in files {
        made.push(file_due(alloc, file)?)?;
    }
    for link in schema.links.as_slice() {
        made.push(link_due(files, link))?;
    }
    Ok(made)
}
