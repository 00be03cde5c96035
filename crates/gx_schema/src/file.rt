// Reading files and links.
ghost use Rattle.std.specs.Prelude.{◌≡◌, ◌≤◌, length};
ghost use Rattle.gx_tokens.specs.Reading.{Gives, map_ok, want};
ghost use Rattle.gx_schema.specs.Reading.{a_new_name, file_behind, a_file_name, link_behind};

use crate::field::read_fields;
use crate::names::{file_position, has_file, has_link, starts_with_letter};
use crate::schema::{FileDef, LinkDef, Schema};
use gx_tokens::{Fault, ReadError, Why, fault_at, read_close, read_comma, read_open, read_word};
use gx_values::Name;
use std::alloc::Global;

// The name of a new file or link.
fn read_new_name<'a>(schema: &Schema, bytes: &'a [u8]) -> Result<(Name, &'a [u8]), Fault>
    ensures { map_ok (λ x. (x.0, x.1.now)) result ≡ want (a_new_name schema.now) bytes.now }
{
    let (word, rest) = read_word(bytes)?;
    let is_used = has_file(schema.files.as_slice(), word)
        || has_link(schema.links.as_slice(), word);
    if !starts_with_letter(word) || is_used {
        return Err(fault_at(bytes, Why::NameUse));
    }
    Ok((Name::from_slice(word), rest))
}

/// The file behind the word `file`, after the files and links of the schema, and what follows it.
#[tactic(auto, unfolding(crate::specs::Reading::file_behind))]
pub fn read_file<'a>(
    alloc: Global,
    schema: &Schema,
    bytes: &'a [u8],
) -> Result<(FileDef, &'a [u8]), ReadError>
    ensures { Gives (λ x. (x.0, x.1.now)) result (file_behind schema.now bytes.now) }
{
    let (name, rest) = read_new_name(schema, bytes)?;
    let rest = read_open(rest)?;
    let (fields, rest) = read_fields(alloc, rest)?;
    Ok((FileDef { name, fields }, rest))
}

// The number of the file that is named.
fn read_file_name<'a>(files: &[FileDef], bytes: &'a [u8]) -> Result<(u16, &'a [u8]), Fault>
    requires { length files.now ≤ 32 }
    ensures { map_ok (λ x. (x.0, x.1.now)) result ≡ want (a_file_name files.now) bytes.now }
{
    let (word, rest) = read_word(bytes)?;
    match file_position(files, word) {
        None => Err(fault_at(bytes, Why::NameUse)),
        Some(place) => Ok((place as u16, rest)),
    }
}

/// The link behind the word `link`, after the files and links of the schema, and what follows it.
#[tactic(auto, unfolding(crate::specs::Reading::link_behind))]
pub fn read_link<'a>(schema: &Schema, bytes: &'a [u8]) -> Result<(LinkDef, &'a [u8]), Fault>
    requires { length schema.now.files ≤ 32 }
    ensures { map_ok (λ x. (x.0, x.1.now)) result ≡ link_behind schema.now bytes.now }
{
    let files = schema.files.as_slice();
    let (name, rest) = read_new_name(schema, bytes)?;
    let rest = read_open(rest)?;
    let (owner, rest) = read_file_name(files, rest)?;
    let rest = read_comma(rest)?;
    let (member, rest) = read_file_name(files, rest)?;
    let rest = read_close(rest)?;
    Ok((
        LinkDef {
            name,
            owner,
            member,
        },
        rest,
    ))
}
