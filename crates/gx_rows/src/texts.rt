// The texts of answers.
ghost use Rattle.std.specs.Prelude.{◌≡◌, ◌++◌, IfOk, OnOk, codes};
ghost use Rattle.std.specs.Fmt.{decimal, signed_decimal};
ghost use Rattle.std.specs.List.{flat_map};
ghost use Rattle.gx_model.specs.Play.{end_text, stopped};
ghost use Rattle.gx_model.specs.Texts.{row_text, rows_text, value_text};

use crate::row::Row;
use gx_commands::LineWhy;
use gx_schema::FileDef;
use gx_tokens::push_quoted;
use gx_values::{NoMemory, Octets, Value};
use itoa::Buffer;
use std::alloc::{AllocError, Global};

// How many bytes the text of an int has at most.
const LONGEST_INT: usize = 20;

/// The line of a record. `NoMemory`: there was none for it.
pub fn record_line(
    alloc: Global,
    file: &FileDef,
    key: &Value,
    values: &[Value],
) -> Result<Octets, NoMemory>
    ensures { IfOk result (λ line. line ≡ row_text file.now (key.now, values.now)) }
{
    let mut line = Vec::new(alloc);
    push_record(&mut line, file, key, values)?;
    Ok(Octets(line))
}

/// The lines of rows, in their order, and how many there are. `NoMemory`: there was none for them.
pub fn records_text(alloc: Global, file: &FileDef, rows: &[Row]) -> Result<Octets, NoMemory>
    ensures { IfOk result (λ text. text ≡ rows_text file.now rows.now) }
{
    let mut text = Vec::new(alloc);
    for row in rows {
        push_record(&mut text, file, &row.key, &row.values.0)?;
    }
    text.extend_from_slice(b"found ")?;
    push_number(&mut text, rows.len() as u64)?;
    text.extend_from_slice(b"\n")?;
    Ok(Octets(text))
}

fn push_record(
    text: &mut Vec<u8>,
    file: &FileDef,
    key: &Value,
    values: &[Value],
) -> Result<(), AllocError>
    ensures { OnOk result
        (text.new.items ≡ text.old.items ++ row_text file.now (key.now, values.now)) }
{
    text.reserve(record_room(file, key, values))?;
    text.extend_from_slice(file.name.as_slice())?;
    push_value(text, key)?;
    push_values(text, values)?;
    text.extend_from_slice(b"\n")
}

// How many bytes the line of a record has, or some more, where no text has a quote inside. So the
// line is seldom moved while it grows.
fn record_room(file: &FileDef, key: &Value, values: &[Value]) -> usize {
    let mut room = file.name.as_slice().len() + 1;
    room = room.saturating_add(value_room(key));
    for value in values {
        room = room.saturating_add(value_room(value));
    }
    room
}

// The same of a value behind a space.
fn value_room(value: &Value) -> usize {
    match value {
        Value::Int(_) => 1 + LONGEST_INT,
        Value::Text(content) => content.as_slice().len().saturating_add(3),
        Value::Bytes(_) => 1,
    }
}

fn push_values(text: &mut Vec<u8>, values: &[Value]) -> Result<(), AllocError>
    ensures { OnOk result
        (text.new.items ≡ text.old.items ++ flat_map (λ v. codes " " ++ value_text v) values.now) }
{
    for value in values {
        push_value(text, value)?;
    }
    Ok(())
}

// A value behind a space.
fn push_value(text: &mut Vec<u8>, value: &Value) -> Result<(), AllocError>
    ensures { OnOk result (text.new.items ≡ text.old.items ++ (codes " " ++ value_text value.now)) }
{
    text.extend_from_slice(b" ")?;
    match value {
        Value::Int(number) => push_int(text, *number),
        Value::Text(content) => push_quoted(text, content.as_slice()),
        Value::Bytes(_) => Ok(()),
    }
}

fn push_int(text: &mut Vec<u8>, number: i64) -> Result<(), AllocError>
    ensures { OnOk result (text.new.items ≡ text.old.items ++ signed_decimal number) }
{
    let mut buffer = Buffer::new();
    text.extend_from_slice(buffer.format(number).as_bytes())
}

fn push_number(text: &mut Vec<u8>, number: u64) -> Result<(), AllocError>
    ensures { OnOk result (text.new.items ≡ text.old.items ++ decimal number) }
{
    let mut buffer = Buffer::new();
    text.extend_from_slice(buffer.format(number).as_bytes())
}

/// The answer of the commit of this number. `NoMemory`: there was none for it.
pub fn commit_line(alloc: Global, number: u64) -> Result<Octets, NoMemory>
    ensures { IfOk result (λ line. line ≡ codes "committed " ++ decimal number ++ codes "\n") }
{
    let mut line = b"committed ".to_vec(alloc)?;
    push_number(&mut line, number)?;
    line.extend_from_slice(b"\n")?;
    Ok(Octets(line))
}

/// What is said of a play that ends at the line of this number. `NoMemory`: there was none for it.
pub fn stop_line(alloc: Global, number: u32, why: LineWhy) -> Result<Octets, NoMemory>
    ensures { IfOk result (λ line. line ≡ end_text (stopped number why)) }
{
    let mut line = b"stopped at line ".to_vec(alloc)?;
    push_number(&mut line, u64::from(number))?;
    line.extend_from_slice(b": ")?;
    line.extend_from_slice(why.word().as_bytes())?;
    line.extend_from_slice(b"\n")?;
    Ok(Octets(line))
}
