// The stock of a database is taken.
ghost use Rattle.std.specs.Prelude.{◌≡◌, ◌<◌, ◌++◌, [], None, Ok, false, length, map, IfOk, OnOk};
ghost use Rattle.gx_schema.specs.WellFormed.{IsWellFormed};
ghost use Rattle.gx_model.specs.States.{file_in, link_in};
ghost use Rattle.gx_model.specs.Play.{Playing, seen_state};
ghost use Rattle.gx_scan.specs.Files.{file_records};
ghost use Rattle.gx_engine.specs.Steps.{schema_of, stop_of, is_open, IsReady, IsAt};
ghost use Rattle.gx_engine.specs.Parts.{EndsReading};
ghost use Rattle.gx_walks.specs.Readers.{ended};
ghost use Rattle.gx_move.specs.Stocks.{pairs_in, IsStockOf};

use crate::stock::{Stock, Stocks, Ties};
use gx_commands::{Conds, Find, OrderBy};
use gx_engine::{Engine, StepStop};
use gx_gather::Recs;
use gx_links::Pairs;
use gx_ports::Leaves;
use std::alloc::Global;

/// The records and the pairs of the last committed state, where no transaction is open and no stop
/// is kept. They are held in memory, all of them. No map changes.
///
/// It ends as `records` of the engine does, whose `no_memory` answers its own want of memory.
pub fn take<B: Leaves + Drop>(alloc: Global, engine: &mut Engine<B>) -> Result<Stock, StepStop>
    requires ready { IsReady B.View engine.old }
    requires well_formed { IsWellFormed (schema_of engine.old) }
    requires going { stop_of engine.old ≡ None }
    requires shut { is_open engine.old ≡ false }
    ensures taken { (p : Playing) → IsAt B.View p engine.old → IfOk result (IsStockOf p.kept) }
    ensures ends { EndsReading B.View engine.old engine.new (ended result) }
{
    let files = take_files(alloc, engine)?;
    let links = take_links(alloc, engine)?;
    Ok(Stock { files, links })
}

// The records of each file.
fn take_files<B: Leaves + Drop>(alloc: Global, engine: &mut Engine<B>) -> Result<Stocks, StepStop>
    requires ready { IsReady B.View engine.old }
    requires well_formed { IsWellFormed (schema_of engine.old) }
    requires going { stop_of engine.old ≡ None }
    ensures taken { (p : Playing) → IsAt B.View p engine.old →
        IfOk result (λ files. files ≡ map file_records (seen_state p).files) }
    ensures ends { EndsReading B.View engine.old engine.new (ended result) }
{
    let count = engine.schema().files.0.len();
    let mut files = Vec::new(alloc);
    for file in 0..count {
        let records = records_of(alloc, engine, file as u16)?;
        or_stop(engine, files.push(records))?;
    }
    Ok(Stocks(files))
}

// The records of a file, by ascending key.
fn records_of<B: Leaves + Drop>(
    alloc: Global,
    engine: &mut Engine<B>,
    file: u16,
) -> Result<Recs, StepStop>
    requires ready { IsReady B.View engine.old }
    requires file { file < length (schema_of engine.old).files }
    ensures records { (p : Playing) → IsAt B.View p engine.old →
        IfOk result (λ records. records ≡ file_records (file_in (seen_state p) file)) }
    ensures ends { EndsReading B.View engine.old engine.new (ended result) }
{
    let mut records = Recs::new(alloc);
    engine.records(alloc, &all_of(alloc, file), &mut records)?;
    Ok(records)
}

// The `find` of all records of a file, by ascending key.
fn all_of(alloc: Global, file: u16) -> Find
    ensures { result ≡ record {
      file = file;
      conds = [];
      of = None;
      order = record { field = 0; desc = false };
    } }
{
    Find {
        file,
        conds: Conds(Vec::new(alloc)),
        of: None,
        order: OrderBy {
            field: 0,
            desc: false,
        },
    }
}

// The pairs of each link.
fn take_links<B: Leaves + Drop>(alloc: Global, engine: &mut Engine<B>) -> Result<Ties, StepStop>
    requires ready { IsReady B.View engine.old }
    requires well_formed { IsWellFormed (schema_of engine.old) }
    requires going { stop_of engine.old ≡ None }
    ensures taken { (p : Playing) → IsAt B.View p engine.old →
        IfOk result (λ links. links ≡ map pairs_in (seen_state p).links) }
    ensures ends { EndsReading B.View engine.old engine.new (ended result) }
{
    let count = engine.schema().links.0.len();
    let mut links = Vec::new(alloc);
    for link in 0..count {
        let pairs = pairs_of(alloc, engine, link as u16)?;
        or_stop(engine, links.push(pairs))?;
    }
    Ok(Ties(links))
}

// The pairs of a link, each a member with its owner.
fn pairs_of<B: Leaves + Drop>(
    alloc: Global,
    engine: &mut Engine<B>,
    link: u16,
) -> Result<Pairs, StepStop>
    requires ready { IsReady B.View engine.old }
    requires link { link < length (schema_of engine.old).links }
    ensures pairs { (p : Playing) → IsAt B.View p engine.old →
        IfOk result (λ pairs. pairs ≡ pairs_in (link_in (seen_state p) link)) }
    ensures ends { EndsReading B.View engine.old engine.new (ended result) }
{
    let mut pairs = Pairs(Vec::new(alloc));
    engine.pairs(alloc, link, &mut pairs)?;
    Ok(pairs)
}

/// What was made beside the engine, which gives up where there was no memory for it.
pub(crate) fn or_stop<B: Leaves + Drop, T: Drop, E: Drop>(
    engine: &mut Engine<B>,
    made: Result<T, E>,
) -> Result<T, StepStop>
    requires ready { IsReady B.View engine.old }
    requires going { stop_of engine.old ≡ None }
    ensures same { IfOk result (λ value. made ≡ Ok value) }
    ensures still { OnOk result (engine.new ≡ engine.old) }
    ensures ends { EndsReading B.View engine.old engine.new (ended result) }
{
    match made {
        Ok(value) => Ok(value),
        Err(_) => Err(engine.no_memory()),
    }
}
