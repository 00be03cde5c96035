// Path lines and the paths that they mean.
ghost use Rattle.std.specs.Prelude.{◌≡◌, ◌↔◌, Ok, Result, IfOk, length};
ghost use Rattle.gx_schema.specs.WellFormed.{IsWellFormed};
ghost use Rattle.gx_commands.specs.declared.command.LineWhy.{LineWhy};
ghost use Rattle.gx_commands.specs.declared.path.PathQuery.{PathQuery};
ghost use Rattle.gx_commands.specs.Cutting.{words_in};
ghost use Rattle.gx_commands.specs.Paths.{IsPathOf};
ghost use Rattle.gx_script.specs.Reading.{Gives, AnswersUnlessNoMemory};
ghost use Rattle.gx_paths.specs.Few.{HasAtMost};
ghost use Rattle.gx_script.specs.Paths.{is_path, path_at, path_reading, IsPathLine, IsPathReading};

use crate::legs::{by_key, read_legs};
use gx_commands::{LineWhy, NoCommand, PathQuery, are_characters, are_words};
use gx_schema::Schema;
use gx_script::{after_keyword, read_file, where_part};
use std::alloc::Global;

/// Whether the first word of a line is `path`.
pub fn is_path(line: &[u8]) -> bool
    ensures { result ≡ is_path line.now }
{
    after_keyword(line, b"path").is_some()
}

// The path that the words behind the first mean.
#[tactic(auto, unfolding(gx_script::specs::Paths::path_at))]
fn read_query(alloc: Global, schema: &Schema, line: &[u8]) -> Result<PathQuery, NoCommand>
    requires { IsWellFormed schema.now }
    ensures { Gives (λ q. q) result (path_at schema.now (words_in line.now)) }
{
    let (file, rest) = read_file(schema, line)?;
    let (conds, taken) = where_part(alloc, schema, file, rest)?;
    let legs = read_legs(alloc, schema, file, &rest[taken..])?;
    let first = by_key(file, conds);
    Ok(PathQuery { first, legs })
}

// The path that the words of a line mean.
fn read_words(alloc: Global, schema: &Schema, line: &[u8]) -> Result<PathQuery, NoCommand>
    requires { IsWellFormed schema.now }
    ensures { Gives (λ q. q) result (path_reading schema.now (words_in line.now)) }
{
    match after_keyword(line, b"path") {
        None => Err(NoCommand::Bad(LineWhy::Word)),
        Some(rest) => read_query(alloc, schema, rest),
    }
}

/// The path that a line means. The line is without its LF and without the CR that is dropped before
/// it, and its length isn't looked at.
///
/// `Bad` is the first reason: `Character` and then `Quote` over the whole line, then the first of
/// its words that fails, from left to right. A first word other than `path`, a missing leg, the
/// ninth one, and any other word that may not stand there are `Word`; a link that isn't there, or
/// doesn't lead from the leg's file, is `Link`. `File`, `Field` and `Value` are as of `find`.
/// `NoMemory`: only where there was no memory for what the path holds.
pub fn read_path(alloc: Global, schema: &Schema, line: &[u8]) -> Result<PathQuery, NoCommand>
    requires { IsWellFormed schema.now }
    // What is read is in the grammar, and keeps the rules.
    ensures found { IfOk result (λ q. IsPathLine schema.now line.now q) }
    // A line is read as a path exactly where it means that path by the grammar.
    ensures means { (q : PathQuery) → IsPathReading schema.now line.now (Ok q) ↔
        IsPathLine schema.now line.now q }
    // A line that means no path has this first reason.
    ensures exact { AnswersUnlessNoMemory result (IsPathReading schema.now line.now) }
    // A line means one path at most, or has one first reason.
    ensures one { (given other : Result PathQuery LineWhy) →
        IsPathReading schema.now line.now given → IsPathReading schema.now line.now other →
        given ≡ other }
    ensures of_schema { IfOk result (λ q. IsPathOf schema.now q) }
    // No `find` has more conditions than the line has bytes.
    ensures few { IfOk result (λ q. HasAtMost (length line.now) q) }
{
    if !are_characters(line) {
        return Err(NoCommand::Bad(LineWhy::Character));
    }
    if !are_words(line) {
        return Err(NoCommand::Bad(LineWhy::Quote));
    }
    read_words(alloc, schema, line)
}
