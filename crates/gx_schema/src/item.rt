// Reading all files and links of a text.
ghost use Rattle.std.specs.Prelude.{◌≡◌, ◌≤◌, length, IfOk, IfSome, OnOk};
ghost use Rattle.gx_tokens.specs.Reading.{Gives};
ghost use Rattle.gx_schema.specs.Items.{HasRoom, with_item};
ghost use Rattle.gx_schema.specs.Reading.{item_at, all_items};

use crate::file::{read_file, read_link};
use crate::schema::{FileDef, FileDefs, LinkDef, LinkDefs, Schema};
use gx_tokens::{ReadError, Token, Why, fault_at, next_token};
use std::alloc::{AllocError, Global};

const MOST_FILES: usize = 32;

const MOST_LINKS: usize = 32;

/// What a schema's text lists.
#[derive(Debug, Drop)]
pub enum Item {
    File(FileDef),
    Link(LinkDef),
}

fn add(schema: &mut Schema, item: Item) -> Result<(), AllocError>
    ensures { OnOk result (schema.new ≡ with_item schema.old item) }
{
    match item {
        Item::File(file) => schema.files.0.push(file)?,
        Item::Link(link) => schema.links.0.push(link)?,
    }
    Ok(())
}

// The next file or link after those of the schema, or none at the end, and what follows it.
#[tactic(auto, unfolding(crate::specs::Reading::item_at))]
fn read_item<'a>(
    alloc: Global,
    schema: &Schema,
    bytes: &'a [u8],
) -> Result<(Option<Item>, &'a [u8]), ReadError>
    requires { length schema.now.files ≤ 32 }
    ensures room { IfOk result (λ x. IfSome x.0 (λ item. HasRoom schema.now item)) }
    ensures exact { Gives (λ x. (x.0, x.1.now)) result (item_at schema.now bytes.now) }
{
    match next_token(bytes)? {
        (Token::Word(word), rest) => {
            if word == b"file".as_slice() {
                if schema.files.0.len() >= MOST_FILES {
                    return Err(ReadError::Bad(fault_at(bytes, Why::Count)));
                }
                let (file, rest) = read_file(alloc, schema, rest)?;
                return Ok((Some(Item::File(file)), rest));
            }
            if word == b"link".as_slice() {
                if schema.links.0.len() >= MOST_LINKS {
                    return Err(ReadError::Bad(fault_at(bytes, Why::Count)));
                }
                let (link, rest) = read_link(schema, rest)?;
                return Ok((Some(Item::Link(link)), rest));
            }
            Err(ReadError::Bad(fault_at(bytes, Why::Unexpected)))
        }
        (Token::End, rest) => {
            if schema.files.0.is_empty() {
                return Err(ReadError::Bad(fault_at(bytes, Why::End)));
            }
            Ok((None, rest))
        }
        _ => Err(ReadError::Bad(fault_at(bytes, Why::Unexpected))),
    }
}

/// The schema of all files and links of the text.
pub fn read_items(alloc: Global, bytes: &[u8]) -> Result<Schema, ReadError>
    ensures { Gives (λ schema. schema) result (all_items bytes.now) }
{
    let mut schema = Schema {
        files: FileDefs(Vec::new(alloc)),
        links: LinkDefs(Vec::new(alloc)),
    };
    let mut rest = bytes;
    loop {
        let (item, after) = read_item(alloc, &schema, rest)?;
        let Some(item) = item else {
            return Ok(schema);
        };
        add(&mut schema, item)?;
        rest = after;
    }
}
