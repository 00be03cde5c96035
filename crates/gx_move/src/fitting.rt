// Whether a stock is one for databases of a schema.
ghost use Rattle.std.specs.Prelude.{◌≡◌, ◌<◌, ◌++◌, ◌↔◌, IsTrue, true, length};
ghost use Rattle.gx_values.specs.Values.{AreFit};
ghost use Rattle.gx_schema.specs.WellFormed.{HasFields, IsWellFormed};
ghost use Rattle.gx_commands.specs.Commands.{IsKeyOf, IsOfSchema};
ghost use Rattle.gx_move.specs.Giving.{inserts_of, connect_of, connects_of, each_from, AreOfSchema, IsStockFor, IsValidStock};

use crate::stock::{Stock, Stocks, Ties};
use gx_gather::Recs;
use gx_links::Pairs;
use gx_schema::{FileDef, Schema};
use gx_values::{Field, Rec, Value, Values};

/// Whether the stock may be given to a database of the schema: it has as many files and links, each
/// record has a value for each field of its file, each pair the keys of its files, and each value
/// fits. The stock of a valid state of the schema always may.
pub fn fits(schema: &Schema, stock: &Stock) -> bool
    requires well_formed { IsWellFormed schema.now }
    ensures exact { IsTrue result ↔ IsStockFor schema.now stock.now }
    ensures valid { IsValidStock schema.now stock.now → result ≡ true }
{
    files_fit(schema, &stock.files) && links_fit(schema, &stock.links)
}

// Whether there are records for each file, and they fit.
fn files_fit(schema: &Schema, files: &Stocks) -> bool
    requires well_formed { IsWellFormed schema.now }
    ensures { IsTrue result ↔ ((length files.now ≡ length schema.now.files)
        × AreOfSchema schema.now (each_from inserts_of 0 files.now)) }
{
    if files.0.len() != schema.files.0.len() {
        return false;
    }
    for file in 0..files.0.len() {
        if !records_fit(schema, file, &files.0[file]) {
            return false;
        }
    }
    true
}

fn records_fit(schema: &Schema, file: usize, records: &Recs) -> bool
    requires file { file < length schema.now.files }
    ensures { IsTrue result ↔ AreOfSchema schema.now (inserts_of file records.now) }
{
    for i in 0..records.0.len() {
        if !record_fits(&schema.files.0[file], &records.0[i]) {
            return false;
        }
    }
    true
}

// Whether the record has a value for each field, and each fits.
fn record_fits(file: &FileDef, rec: &Rec) -> bool
    ensures { IsTrue result ↔ AreFit file.now.fields (rec.now.key ++ rec.now.fields) }
{
    match file.fields.0.split_at_checked(rec.key.0.len()) {
        Some((keys, others)) => values_fit(keys, &rec.key) && values_fit(others, &rec.fields),
        None => false,
    }
}

fn values_fit(fields: &[Field], values: &Values) -> bool
    ensures { IsTrue result ↔ AreFit fields.now values.now }
{
    if values.0.len() != fields.len() {
        return false;
    }
    for i in 0..fields.len() {
        if !values.0[i].borrowed().fits(fields[i].kind) {
            return false;
        }
    }
    true
}

// Whether there are pairs for each link, and they fit.
fn links_fit(schema: &Schema, links: &Ties) -> bool
    requires well_formed { IsWellFormed schema.now }
    ensures { IsTrue result ↔ ((length links.now ≡ length schema.now.links)
        × AreOfSchema schema.now (each_from connects_of 0 links.now)) }
{
    if links.0.len() != schema.links.0.len() {
        return false;
    }
    for link in 0..links.0.len() {
        if !pairs_fit(schema, link, &links.0[link]) {
            return false;
        }
    }
    true
}

fn pairs_fit(schema: &Schema, link: usize, pairs: &Pairs) -> bool
    requires well_formed { IsWellFormed schema.now }
    requires link { link < length schema.now.links }
    ensures { IsTrue result ↔ AreOfSchema schema.now (connects_of link pairs.now) }
{
    for i in 0..pairs.0.len() {
        if !pair_fits(schema, link, &pairs.0[i]) {
            return false;
        }
    }
    true
}

fn pair_fits(schema: &Schema, link: usize, pair: &(Value, Value)) -> bool
    requires well_formed { IsWellFormed schema.now }
    requires link { link < length schema.now.links }
    ensures { IsTrue result ↔ IsOfSchema schema.now (connect_of link pair.now) }
{
    let (member, owner) = pair;
    let ends = &schema.links.0[link];
    is_key_of(&schema.files.0[usize::from(ends.owner)], owner)
        && is_key_of(&schema.files.0[usize::from(ends.member)], member)
}

fn is_key_of(file: &FileDef, key: &Value) -> bool
    requires has_fields { HasFields file.now }
    ensures { IsTrue result ↔ IsKeyOf file.now key.now }
{
    key.borrowed().fits(file.fields.0[0].kind)
}
