// What is said of a path that is explained: from which end it is walked.
ghost use Rattle.std.specs.Prelude.{◌≡◌, ◌<◌, length, IfOk};
ghost use Rattle.gx_model.specs.Paths.{last_find};
ghost use Rattle.gx_types.specs.Nodes.{AreNodes};
ghost use Rattle.gx_walks.specs.Directions.{IsDuePath};
ghost use Rattle.gx_explain.specs.Explained.{direction_line, direction_word, path_line};
ghost use Rattle.gx_explain.specs.Explaining.{fields_in};

use gx_commands::{Find, Leg, PathQuery};
use gx_finds::indexed_fields;
use gx_schema::Schema;
use gx_states::{file_def, file_node};
use gx_types::Built;
use gx_values::{NoMemory, Octets};
use gx_walks::{Direction, direction};
use std::alloc::Global;

/// The direction of a path of the schema, whose files are stored in these nodes, in the line of
/// this number. `NoMemory`: there was none for it.
pub fn path_line(
    alloc: Global,
    schema: &Schema,
    built: &Built,
    number: u32,
    query: &PathQuery,
) -> Result<Octets, NoMemory>
    requires due { IsDuePath schema.now query.now }
    requires nodes { AreNodes schema.now built.now.files (length built.now.specs) }
    ensures { IfOk result (λ text.
        text ≡ path_line (fields_in schema.now built.now.files) number query.now) }
{
    let first = fields_of(alloc, schema, built, query.first.file)?;
    let last = fields_of(alloc, schema, built, last_file(query))?;
    direction_line(alloc, number, direction(query, &first, &last))
}

// The file of the last leg.
fn last_file(query: &PathQuery) -> u16
    ensures { result ≡ (last_find query.now.first query.now.legs).file }
{
    file_behind(&query.first, &query.legs.0)
}

// The file of the last of these legs, or else that of the `find` before them.
fn file_behind(first: &Find, legs: &[Leg]) -> u16
    ensures { result ≡ (last_find first.now legs.now).file }
{
    match legs.last() {
        Some(leg) => leg.find.file,
        None => first.file,
    }
}

// Which fields of the file of this number are indexed.
fn fields_of(
    alloc: Global,
    schema: &Schema,
    built: &Built,
    file: u16,
) -> Result<Vec<bool>, NoMemory>
    requires file { file < length schema.now.files }
    requires nodes { AreNodes schema.now built.now.files (length built.now.specs) }
    ensures { IfOk result (λ fields.
        fields.items ≡ fields_in schema.now built.now.files file) }
{
    indexed_fields(alloc, file_def(schema, file), file_node(built, file))
}

// The line of this number for a path that is walked so.
fn direction_line(alloc: Global, number: u32, direction: Direction) -> Result<Octets, NoMemory>
    ensures { IfOk result (λ text. text ≡ direction_line number direction) }
{
    let digits = number.to_string(alloc)?;
    let mut text = b"line ".to_vec(alloc)?;
    text.extend_from_slice(digits.as_bytes())?;
    text.extend_from_slice(b": path ")?;
    text.extend_from_slice(word_of(direction).as_bytes())?;
    text.extend_from_slice(b"\n")?;
    Ok(Octets(text))
}

fn word_of(direction: Direction) -> &'static str
    ensures { result.now ≡ direction_word direction }
{
    match direction {
        Direction::Forward => "forward",
        Direction::Backward => "backward",
    }
}
