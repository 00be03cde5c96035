// Printing a schema.
ghost use Rattle.std.specs.Prelude.{◌≡◌, ◌++◌, OnOk, IfOk, Ok};
ghost use Rattle.std.specs.Fmt.{decimal};
ghost use Rattle.gx_schema.specs.Grammar.{IsSchemaText};
ghost use Rattle.gx_schema.specs.Printing.{kind_text, field_text, more_fields_text, fields_text, file_text, files_text, name_at, link_text, links_text, schema_text};
ghost use Rattle.gx_schema.specs.Reading.{schema_of};
ghost use Rattle.gx_schema.specs.Rules.{IsSchema};

use crate::schema::{FileDef, LinkDef, Schema};
use gx_values::{Field, Kind, NoMemory, Octets};
use itoa::Buffer;
use std::alloc::{AllocError, Global};

fn push_number(out: &mut Vec<u8>, n: u16) -> Result<(), AllocError>
    ensures { OnOk result (out.new.items ≡ out.old.items ++ decimal n) }
{
    let mut buffer = Buffer::new();
    out.extend_from_slice(buffer.format(n).as_bytes())?;
    Ok(())
}

// No field of a schema has the kind `Bytes`, which has no text.
fn push_kind(out: &mut Vec<u8>, kind: Kind) -> Result<(), AllocError>
    ensures { OnOk result (out.new.items ≡ out.old.items ++ kind_text kind) }
{
    match kind {
        Kind::Int => out.extend_from_slice(b"int")?,
        Kind::Text(size) => {
            out.extend_from_slice(b"text ")?;
            push_number(out, size)?;
        }
        Kind::Bytes(_) => {}
    }
    Ok(())
}

fn push_field(out: &mut Vec<u8>, field: &Field) -> Result<(), AllocError>
    ensures { OnOk result (out.new.items ≡ out.old.items ++ field_text field.now) }
{
    out.extend_from_slice(field.name.as_slice())?;
    out.push(b' ')?;
    push_kind(out, field.kind)?;
    Ok(())
}

fn push_more_fields(out: &mut Vec<u8>, fields: &[Field]) -> Result<(), AllocError>
    ensures { OnOk result (out.new.items ≡ out.old.items ++ more_fields_text fields.now) }
{
    for field in fields {
        out.extend_from_slice(b", ")?;
        push_field(out, field)?;
    }
    Ok(())
}

fn push_fields(out: &mut Vec<u8>, fields: &[Field]) -> Result<(), AllocError>
    ensures { OnOk result (out.new.items ≡ out.old.items ++ fields_text fields.now) }
{
    match fields {
        [] => Ok(()),
        [first, others @ ..] => {
            push_field(out, first)?;
            push_more_fields(out, others)
        }
    }
}

fn push_file(out: &mut Vec<u8>, file: &FileDef) -> Result<(), AllocError>
    ensures { OnOk result (out.new.items ≡ out.old.items ++ file_text file.now) }
{
    out.extend_from_slice(b"file ")?;
    out.extend_from_slice(file.name.as_slice())?;
    out.extend_from_slice(b" (")?;
    push_fields(out, &file.fields.0)?;
    out.extend_from_slice(b")\n")?;
    Ok(())
}

fn push_files(out: &mut Vec<u8>, files: &[FileDef]) -> Result<(), AllocError>
    ensures { OnOk result (out.new.items ≡ out.old.items ++ files_text files.now) }
{
    for file in files {
        push_file(out, file)?;
    }
    Ok(())
}

// The name of the file of this number, empty where there is none.
fn name_at(files: &[FileDef], number: u16) -> &[u8]
    ensures { result.now ≡ name_at files.now number }
{
    let number = usize::from(number);
    if number < files.len() {
        files[number].name.as_slice()
    } else {
        b""
    }
}

fn push_link(out: &mut Vec<u8>, files: &[FileDef], link: &LinkDef) -> Result<(), AllocError>
    ensures { OnOk result (out.new.items ≡ out.old.items ++ link_text files.now link.now) }
{
    out.extend_from_slice(b"link ")?;
    out.extend_from_slice(link.name.as_slice())?;
    out.extend_from_slice(b" (")?;
    out.extend_from_slice(name_at(files, link.owner))?;
    out.extend_from_slice(b", ")?;
    out.extend_from_slice(name_at(files, link.member))?;
    out.extend_from_slice(b")\n")?;
    Ok(())
}

fn push_links(out: &mut Vec<u8>, files: &[FileDef], links: &[LinkDef]) -> Result<(), AllocError>
    ensures { OnOk result (out.new.items ≡ out.old.items ++ links_text files.now links.now) }
{
    for link in links {
        push_link(out, files, link)?;
    }
    Ok(())
}

fn print(alloc: Global, schema: &Schema) -> Result<Octets, NoMemory>
    ensures { IfOk result (λ text. text ≡ schema_text schema.now) }
{
    let mut out = Vec::new(alloc);
    push_files(&mut out, schema.files.as_slice())?;
    push_links(&mut out, schema.files.as_slice(), schema.links.as_slice())?;
    Ok(Octets(out))
}

/// The canonical text of a schema that some text means: its files in their order and then its links
/// in theirs, each in a line of its own that an LF ends, in the forms `file emp (eno int, name text
/// 24)` and `link works (dept, emp)`.
pub fn print_schema(alloc: Global, schema: &Schema) -> Result<Octets, NoMemory>
    requires { IsSchema schema.now }
    ensures exact { IfOk result (λ text. text ≡ schema_text schema.now) }

    // The text means the schema, and is read again as it.
    ensures means { IfOk result (λ text. IsSchemaText text schema.now) }
    ensures again { IfOk result (λ text. schema_of text ≡ Ok schema.now) }
{
    print(alloc, schema)
}
