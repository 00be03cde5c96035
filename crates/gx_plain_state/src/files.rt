// Files: records in the order of their keys.
ghost use Rattle.std.specs.Prelude.{◌≡◌, ◌≤◌, filter, length, not, IfOk, OnOk, OnErr};
ghost use Rattle.std.specs.List.{prefix_len};
ghost use Rattle.std.specs.Option.{option_map};
ghost use Rattle.std.specs.Ordering.{eq_by_cmp, is_gt};
ghost use Rattle.std.specs.FinMap as fin;
ghost use Rattle.gx_values.specs.Values.{value_cmp};

use gx_rows::Row;
use gx_values::{NoMemory, Value, Values, compare};
use std::alloc::Global;
use std::marker::Model;

/// A file: its records, each key once, in ascending order.
#[derive(Debug, Drop)]
pub struct PlainFile {
    rows: Vec<Row>,
}

impl Model for PlainFile {
    ghost use Rattle.std.specs.Prelude.{T};
    ghost use Rattle.std.specs.FinMap as fin;
    ghost use Rattle.std.specs.Coded.{codes};
    ghost use Rattle.gx_values.specs.Values.{value_cmp};
    ghost use Rattle.gx_model.specs.States.{File};
    ghost use Rattle.gx_plain_state.specs.Codes.{coded_file};

    ghost Value = { File };

    ghost coded = { Prim.hlevel (codes, coded_file) };

    ghost view = { λ f. fin.from_sorted f.rows.items };

    ghost invariant = { λ f. T (fin.is_sorted value_cmp f.rows.items) };
}

impl PlainFile {
    /// A file without records.
    pub fn new(alloc: Global) -> PlainFile
        ensures { result ≡ fin.empty }
    {
        PlainFile {
            rows: Vec::new(alloc),
        }
    }

    /// The records, in the order of their keys.
    pub fn rows(&self) -> &[Row]
        ensures { result.now ≡ fin.entries self.now }
    {
        &self.rows
    }

    /// The values of the record with this key, where there is one.
    pub fn get(&self, key: &Value) -> Option<&Values>
        ensures { option_map (λ values. values.now) result ≡ fin.get self.now key.now }
    {
        find_values(&self.rows, key)
    }

    /// Gives the record's key its values.
    pub fn insert(&mut self, row: Row) -> Result<(), NoMemory>
        ensures { OnOk result (self.new ≡ fin.insert self.old row.0 row.1) }
    {
        put_row(&mut self.rows, row)
    }

    /// Takes the record with this key away, if there is one.
    pub fn remove(&mut self, key: &Value)
        ensures { self.new ≡ fin.remove self.old key.now }
    {
        remove_row(&mut self.rows, key);
    }

    /// An equal file.
    pub fn copy(&self, alloc: Global) -> Result<PlainFile, NoMemory>
        ensures { IfOk result (λ copy. copy ≡ self.now) }
    {
        let rows = copy_rows(alloc, &self.rows)?;
        Ok(PlainFile { rows })
    }
}

fn find_values<'a>(rows: &'a [Row], key: &Value) -> Option<&'a Values>
    ensures { option_map (λ values. values.now) result ≡ fin.find value_cmp key.now rows.now }
{
    let mut rest = rows;
    while let [first, after @ ..] = rest {
        if compare(key, &first.key).is_eq() {
            return Some(&first.values);
        }
        rest = after;
    }
    None
}

// How many records stand before the place of a key.
fn place_of(rows: &[Row], key: &Value) -> usize
    ensures value { result ≡ prefix_len (λ r. is_gt (value_cmp key.now r.0)) rows.now }
    ensures within { result ≤ length rows.now }
{
    let mut rest = rows;
    while let [first, after @ ..] = rest {
        if !compare(key, &first.key).is_gt() {
            return rows.len() - rest.len();
        }
        rest = after;
    }
    rows.len()
}

fn put_row(rows: &mut Vec<Row>, row: Row) -> Result<(), NoMemory>
    ensures ok { OnOk result (rows.new.items ≡ fin.put value_cmp row.0 row.1 rows.old.items) }
    ensures err { OnErr result (rows.new.items ≡ rows.old.items) }
{
    let at = place_of(rows, &row.key);
    if at < rows.len() && compare(&row.key, &rows[at].key).is_eq() {
        rows[at] = row;
        return Ok(());
    }
    rows.insert(at, row)?;
    Ok(())
}

fn remove_row(rows: &mut Vec<Row>, key: &Value)
    ensures { rows.new.items ≡ filter (λ r. not (eq_by_cmp value_cmp key.now r.0)) rows.old.items }
{
    rows.retain(|row| !compare(key, &row.key).is_eq());
}

fn copy_rows(alloc: Global, rows: &[Row]) -> Result<Vec<Row>, NoMemory>
    ensures { IfOk result (λ copies. copies.items ≡ rows.now) }
{
    let mut copies = Vec::new(alloc);
    for row in rows {
        copies.push(copy_row(alloc, row)?)?;
    }
    Ok(copies)
}

/// An equal record.
pub fn copy_row(alloc: Global, row: &Row) -> Result<Row, NoMemory>
    ensures { IfOk result (λ copy. copy ≡ row.now) }
{
    Ok(Row {
        key: row.key.copy(alloc)?,
        values: row.values.copy(alloc)?,
    })
}
