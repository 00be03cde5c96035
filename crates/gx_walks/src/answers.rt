// The answer of a path.
ghost use Rattle.std.specs.Prelude.{◌≡◌, ◌<◌, ◌≤◌, ◌+◌, ◌*◌, ◌++◌, length, IfOk, OnOk, OnErr};
ghost use Rattle.gx_schema.specs.Lookups.{file_at};
ghost use Rattle.gx_model.specs.States.{State};
ghost use Rattle.gx_model.specs.Paths.{last_find, path_text};
ghost use Rattle.gx_model.specs.Texts.{rows_text};
ghost use Rattle.gx_walks.specs.declared.directions.Direction.{Direction as TheDirection};
ghost use Rattle.gx_walks.specs.Directions.{IsDirectionOf, IsDuePath};
ghost use Rattle.gx_walks.specs.Walks.{start_of, legs_of, visits};
ghost use Rattle.gx_walks.specs.Readers.{ended, Costs, AreFound};

use crate::choosing::{direction, last_find_of};
use crate::directions::Direction;
use crate::paths::path_rows;
use crate::reader::{LinkReader, or_stop};
use gx_commands::{Find, PathQuery};
use gx_rows::{Row, records_text};
use gx_schema::{FileDef, Schema};
use gx_values::{NoMemory, Octets};
use std::alloc::{AllocError, Global};

/// Appends what a path answers: the lines of its records, and how many there are. It takes
/// at most as many steps as `path_rows` says of the direction that the plans of its two ends give.
///
/// It is given up where a call of the reader is, or where there was no memory, and then `out` is as
/// before.
pub fn answer<R: LinkReader>(
    alloc: Global,
    reader: &mut R,
    query: &PathQuery,
    out: &mut Octets,
) -> Result<(), R::Stop>
    requires ready { R.ready reader.old }
    requires due { IsDuePath (R.schema reader.old) query.now }
    ensures text { (s : State) → R.holds reader.old s → OnOk result
        (out.new ≡ out.old ++ path_text (R.schema reader.old) s query.now) }
    ensures steps { (s : State) (c : Costs) (d : TheDirection) →
        IsDirectionOf query.now (R.indexed reader.old query.now.first.file)
        (R.indexed reader.old (last_find query.now.first query.now.legs).file) d →
        R.holds reader.old s → R.costs reader.old s c → AreFound c.finds (legs_of d query.now) →
        OnOk result (R.work reader.new ≤ R.work reader.old
        + 2 * (c.candidates (start_of d query.now) + visits d s query.now + 1) * c.look_up) }
    ensures unsaid { OnErr result (out.new ≡ out.old) }
    ensures calls { R.calls reader.old reader.new (ended result) }
{
    let Ok(direction) = direction_in(alloc, reader, query) else {
        return Err(reader.no_memory());
    };
    let rows = path_rows(alloc, reader, query, direction)?;
    let text = text_of(alloc, reader.schema(), query, &rows);
    let text = or_stop(reader, text)?;
    or_stop(reader, append(out, text.as_slice()))
}

// The direction of a path by the fields that are indexed at its ends.
fn direction_in<R: LinkReader>(
    alloc: Global,
    reader: &R,
    query: &PathQuery,
) -> Result<Direction, NoMemory>
    requires ready { R.ready reader.now }
    requires due { IsDuePath (R.schema reader.now) query.now }
    ensures { IfOk result (IsDirectionOf query.now (R.indexed reader.now query.now.first.file)
        (R.indexed reader.now (last_find query.now.first query.now.legs).file)) }
{
    let first = reader.indexed_fields(alloc, query.first.file)?;
    let last = reader.indexed_fields(alloc, last_find_of(query).file)?;
    Ok(direction(query, &first, &last))
}

// The lines of records of the last file of a path.
fn text_of(
    alloc: Global,
    schema: &Schema,
    query: &PathQuery,
    rows: &[Row],
) -> Result<Octets, NoMemory>
    requires { IsDuePath schema.now query.now }
    ensures { IfOk result (λ text. text
        ≡ rows_text (file_at schema.now (last_find query.now.first query.now.legs).file)
        rows.now) }
{
    let file = file_of(schema, last_find_of(query));
    records_text(alloc, file, rows)
}

// The file of a `find`.
fn file_of<'a>(schema: &'a Schema, find: &Find) -> &'a FileDef
    requires { find.now.file < length schema.now.files }
    ensures { result.now ≡ file_at schema.now find.now.file }
{
    &schema.files.0[usize::from(find.file)]
}

fn append(out: &mut Octets, bytes: &[u8]) -> Result<(), AllocError>
    ensures ok { OnOk result (out.new ≡ out.old ++ bytes.now) }
    ensures err { OnErr result (out.new ≡ out.old) }
{
    out.0.extend_from_slice(bytes)
}
