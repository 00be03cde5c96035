// Records and links of an engine, read for a walk.
ghost use Rattle.std.specs.Prelude.{◌≡◌, ◌↔◌, ◌^◌, ◌<◌, ◌≤◌, ◌+◌, ◌*◌, ◌++◌, IsTrue, true, length, map, get_or, pos, Ok, IfOk, OnOk};
ghost use Rattle.gx_values.specs.declared.values.Value.TheVariants as value;
ghost use Rattle.gx_values.specs.Values.{Fits};
ghost use Rattle.gx_schema.specs.WellFormed.{IsWellFormed};
ghost use Rattle.gx_schema.specs.Lookups.{file_at, link_at, key_kind};
ghost use Rattle.gx_commands.specs.declared.path.Way.TheVariants.{Down, Up};
ghost use Rattle.gx_commands.specs.Paths.{IsByKey};
ghost use Rattle.gx_model.specs.States.{State};
ghost use Rattle.gx_model.specs.Paths.{chosen};
ghost use Rattle.gx_scan.specs.Within.{row_of};
ghost use Rattle.gx_engine.specs.Steps.{schema_of, leaves_of, IsReady};
ghost use Rattle.gx_engine.specs.Parts.{EndsReading};
ghost use Rattle.gx_walks.specs.Walks.{linked};
ghost use Rattle.gx_walks.specs.Readers.{ended};
ghost use Rattle.gx_walks.specs.Engines.{CanWalk, Shows, indexed_in, finds_in, costs_in};

use gx_commands::Find;
use gx_engine::{Engine, StepStop};
use gx_gather::Recs;
use gx_linksets::link_def;
use gx_ports::Leaves;
use gx_rows::Row;
use gx_schema::Schema;
use gx_states::file_def;
use gx_values::{Kind, NoMemory, Rec, Value};
use std::alloc::{AllocError, Global};

/// Whether each field of a file is indexed, by the number of the field. `NoMemory`: there was none
/// for it.
pub(crate) fn indexed_fields<B: Leaves + Drop>(
    alloc: Global,
    engine: &Engine<B>,
    file: u16,
) -> Result<Vec<bool>, NoMemory>
    requires can { CanWalk B.View engine.now }
    requires file { file < length (schema_of engine.now).files }
    ensures { IfOk result (λ fields. fields.items ≡ indexed_in engine.now file) }
{
    let count = file_def(engine.schema(), file).fields.0.len();
    let mut indexed = Vec::new(alloc);
    for field in 0..count as u16 {
        indexed.push(engine.indexed(file, field))?;
    }
    Ok(indexed)
}

/// The records that a `find` gives, by ascending key.
pub(crate) fn read_found<B: Leaves + Drop>(
    alloc: Global,
    engine: &mut Engine<B>,
    find: &Find,
) -> Result<Vec<Row>, StepStop>
    requires ready { IsReady B.View engine.old }
    requires find { IsByKey (schema_of engine.old) find.now }
    requires few { length find.now.conds < 2 ^ 16 }
    ensures found { (s : State) → Shows B.View engine.old s →
        IfOk result (λ rows. rows.items ≡ chosen s find.now) }
    ensures steps { (s : State) → Shows B.View engine.old s → OnOk result
        (B.work (leaves_of engine.new) ≤ B.work (leaves_of engine.old)
        + 2 * ((costs_in B.View engine.old s).candidates find.now + 1)
        * (costs_in B.View engine.old s).look_up) }
    ensures ends { EndsReading B.View engine.old engine.new (ended result) }
{
    let mut found = Recs::new(alloc);
    engine.records(alloc, find, &mut found)?;
    let mut rows = Vec::new(alloc);
    add_rows(engine, found, &mut rows)?;
    Ok(rows)
}

/// Appends the records of an owner's members, by ascending key.
pub(crate) fn read_members<B: Leaves + Drop>(
    alloc: Global,
    engine: &mut Engine<B>,
    link: u16,
    owner: &Value,
    out: &mut Vec<Row>,
) -> Result<(), StepStop>
    requires can { CanWalk B.View engine.old }
    requires serving { EndsReading B.View engine.old engine.old (Ok tt) }
    requires link { link < length (schema_of engine.old).links }
    ensures found { (s : State) → Shows B.View engine.old s → OnOk result
        (out.new.items ≡ out.old.items
        ++ linked s (link_at (schema_of engine.old) link).member (Down link) owner.now) }
    ensures steps { (s : State) → Shows B.View engine.old s → OnOk result
        (B.work (leaves_of engine.new) ≤ B.work (leaves_of engine.old)
        + 2 * (length (linked s (link_at (schema_of engine.old) link).member (Down link) owner.now)
        + 1) * (costs_in B.View engine.old s).look_up) }
    ensures ends { EndsReading B.View engine.old engine.new result }
{
    let file = link_def(engine.schema(), link).owner;
    if !is_key(engine.schema(), file, owner) {
        return Ok(());
    }
    let mut found = Recs::new(alloc);
    engine.members_of(alloc, link, owner, &mut found)?;
    add_rows(engine, found, out)
}

/// Appends the record of a member's owner, and nothing where it has none.
pub(crate) fn read_owner<B: Leaves + Drop>(
    alloc: Global,
    engine: &mut Engine<B>,
    link: u16,
    member: &Value,
    out: &mut Vec<Row>,
) -> Result<(), StepStop>
    requires can { CanWalk B.View engine.old }
    requires serving { EndsReading B.View engine.old engine.old (Ok tt) }
    requires link { link < length (schema_of engine.old).links }
    ensures found { (s : State) → Shows B.View engine.old s → OnOk result
        (out.new.items ≡ out.old.items
        ++ linked s (link_at (schema_of engine.old) link).owner (Up link) member.now) }
    ensures steps { (s : State) → Shows B.View engine.old s → finds_in engine.old link ≡ true →
        OnOk result
        (B.work (leaves_of engine.new) ≤ B.work (leaves_of engine.old)
        + 2 * (length (linked s (link_at (schema_of engine.old) link).owner (Up link) member.now)
        + 1) * (costs_in B.View engine.old s).look_up) }
    ensures ends { EndsReading B.View engine.old engine.new result }
{
    let file = link_def(engine.schema(), link).member;
    if !is_key(engine.schema(), file, member) {
        return Ok(());
    }
    let mut found = Recs::new(alloc);
    engine.owner_of(alloc, link, member, &mut found)?;
    add_rows(engine, found, out)
}

// Whether a value fits the key of a file.
fn is_key(schema: &Schema, file: u16, value: &Value) -> bool
    requires well_formed { IsWellFormed schema.now }
    requires file { file < length schema.now.files }
    ensures { IsTrue result ↔ Fits (key_kind (file_at schema.now file)) value.now }
{
    value.borrowed().fits(key_kind(schema, file))
}

fn key_kind(schema: &Schema, file: u16) -> Kind
    requires well_formed { IsWellFormed schema.now }
    requires file { file < length schema.now.files }
    ensures { result ≡ key_kind (file_at schema.now file) }
{
    file_def(schema, file).fields.0[0].kind
}

// Appends records as rows. Where there is no memory for them, the engine gives up.
fn add_rows<B: Leaves + Drop>(
    engine: &mut Engine<B>,
    records: Recs,
    out: &mut Vec<Row>,
) -> Result<(), StepStop>
    requires serving { EndsReading B.View engine.old engine.old (Ok tt) }
    ensures added { OnOk result (out.new.items ≡ out.old.items ++ map row_of records) }
    ensures still { OnOk result (engine.new ≡ engine.old) }
    ensures ends { EndsReading B.View engine.old engine.new result }
{
    match push_rows(records, out) {
        Ok(()) => Ok(()),
        Err(_) => Err(engine.no_memory()),
    }
}

fn push_rows(records: Recs, rows: &mut Vec<Row>) -> Result<(), AllocError>
    ensures { OnOk result (rows.new.items ≡ rows.old.items ++ map row_of records) }
{
    for rec in records.0 {
        rows.push(into_row(rec))?;
    }
    Ok(())
}

fn into_row(rec: Rec) -> Row
    ensures { result ≡ row_of rec }
{
    Row {
        key: first_of(rec.key.0),
        values: rec.fields,
    }
}

// The first of some values.
fn first_of(values: Vec<Value>) -> Value
    ensures { result ≡ get_or values.items 0 (value.Int (pos 0)) }
{
    let mut values = values;
    if values.is_empty() {
        Value::Int(0)
    } else {
        values.swap_remove(0)
    }
}
