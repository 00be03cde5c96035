// Values as they are written in a line.
ghost use Rattle.std.specs.Prelude.{[], IfOk};
ghost use Rattle.gx_commands.specs.Cutting.{word_of, words_in, IsRestOf};
ghost use Rattle.gx_script.specs.Reading.{Gives, want, a_value, values_at};

use gx_commands::{LineWhy, LineWord, NoCommand, take_word};
use gx_tokens::{quoted_value, signed_number};
use gx_values::{Field, Kind, Octets, Value, Values};
use std::alloc::Global;

// The value of this kind that a word is. `Value` where it is none.
fn value_of(alloc: Global, kind: Kind, word: LineWord) -> Result<Value, NoCommand>
    ensures { Gives (λ v. v) result (a_value kind (word_of word.entry)) }
{
    match (kind, word) {
        (Kind::Int, LineWord::Bare(text)) => match signed_number(text) {
            Some(n) => Ok(Value::Int(n)),
            None => Err(NoCommand::Bad(LineWhy::Value)),
        },
        (Kind::Text(most), LineWord::Quoted(text)) => {
            let text = quoted_value(alloc, text)?;
            if text.len() <= usize::from(most) {
                Ok(Value::Text(Octets(text)))
            } else {
                Err(NoCommand::Bad(LineWhy::Value))
            }
        }
        _ => Err(NoCommand::Bad(LineWhy::Value)),
    }
}

/// The value of this kind that the first word is, and what follows it. `Value` where it is none.
pub fn read_value(alloc: Global, kind: Kind, line: &[u8]) -> Result<(Value, &[u8]), NoCommand>
    ensures exact { Gives (λ x. (x.0, words_in x.1.now)) result
        (want (a_value kind) (words_in line.now)) }
    ensures left { IfOk result (λ x. IsRestOf line.now x.1.now) }
{
    let (word, rest) = take_word(line)?;
    let value = value_of(alloc, kind, word)?;
    Ok((value, rest))
}

/// A value for each field, and what follows them.
pub fn read_values<'a>(
    alloc: Global,
    fields: &[Field],
    line: &'a [u8],
) -> Result<(Values, &'a [u8]), NoCommand>
    ensures { Gives (λ x. (x.0, words_in x.1.now)) result
        (values_at fields.now [] (words_in line.now)) }
{
    let mut values = Vec::new(alloc);
    let mut rest = line;
    for field in fields {
        let (value, after) = read_value(alloc, field.kind, rest)?;
        values.push(value)?;
        rest = after;
    }
    Ok((Values(values), rest))
}
