// One leaf in memory: an ordered map from each key to its cell, and what the open transaction
// replaced there, so that its end looks no key up that it keeps, and takes no memory.
ghost use Rattle.std.specs.Prelude.{◌≡◌, ◌++◌, [], None, true, is_some, OnOk, OnErr};
ghost use Rattle.std.specs.Option.{option_and_then};
ghost use Rattle.std.specs.FinMap.{insert, remove, get};
ghost use Rattle.gx_ports.specs.LeafMaps.{selected, Extends};
ghost use Rattle.gx_memory_leaves.specs.Cells.{cells_of, IsAscending, bodies, undone, without, kept_cells, emptied, HasCell, IsOpen, ended, is_up_to, IsPastAll};
ghost use Rattle.gx_memory_leaves.specs.Pairs.{empty_pair};

use crate::key::Key;
use crate::undo::{Cell, End, Undo};
use gx_order::compare_bytes;
use gx_ports::Entries;
use gx_values::{NoMemory, Span};
use std::alloc::Global;
use std::cmp::Ord;
use std::collections::BTreeMap;
use std::marker::Model;
use std::mem;

#[derive(Drop)]
pub struct Leaf {
    cells: BTreeMap<Key, Cell>,
    // the keys whose cells the open transaction made: nothing stood there before
    made: Vec<Key>,
    // its changes of cells that stood there, the last one last
    undos: Vec<Undo>,
    // whether the last key that was looked for was past all: then the next one may be too, and is
    // first compared with the last
    ascending: bool,
}

impl Model for Leaf {
    ghost use Rattle.std.specs.Coded.{codes};
    ghost use Rattle.gx_ports.specs.LeafMaps.{coded_leaf_map};
    ghost use Rattle.gx_memory_leaves.specs.Cells.{LeafPair, cells_of, pair_of, IsOpen};

    ghost Value = { LeafPair };

    ghost coded = { Prim.hlevel (codes, coded_leaf_map) };

    ghost view = { λ l. pair_of (cells_of l.cells.entries) l.made.items l.undos.items };

    ghost invariant = { λ l. IsOpen l.cells.entries l.undos.items };
}

impl Leaf {
    pub fn new(alloc: Global) -> Leaf
        ensures { result ≡ empty_pair }
    {
        Leaf {
            cells: BTreeMap::new(alloc),
            made: Vec::new(alloc),
            undos: Vec::new(alloc),
            ascending: true,
        }
    }

    pub fn put(&mut self, alloc: Global, key: &[u8], body: &[u8]) -> Result<(), NoMemory>
        ensures ok { OnOk result
            (self.new ≡ record self.old { working = insert self.old.working key.now body.now }) }
        ensures err { OnErr result (self.new ≡ self.old) }
    {
        let key = Key::from_slice(alloc, key)?;
        let body = Cell::from_slice(alloc, body)?;
        replace(&mut self.cells, &mut self.made, &mut self.undos, key, body)
    }

    pub fn remove(&mut self, alloc: Global, key: &[u8]) -> Result<(), NoMemory>
        ensures ok { OnOk result
            (self.new ≡ record self.old { working = remove self.old.working key.now }) }
        ensures err { OnErr result (self.new ≡ self.old) }
    {
        let key = Key::from_slice(alloc, key)?;
        remove_body(&mut self.cells, &mut self.undos, key)
    }

    pub fn select(&mut self, alloc: Global, span: &Span, out: &mut Entries) -> Result<(), NoMemory>
        ensures ok { OnOk result
            (out.new ≡ out.old ++ selected span.now.lo span.now.hi self.old.working) }
        ensures extends { Extends out.old out.new }
        ensures same { self.new ≡ self.old }
    {
        self.ascending = select_cells(alloc, &self.cells, self.ascending, span, out)?;
        Ok(())
    }

    pub fn settle(&mut self, end: End)
        ensures { self.new ≡ ended end self.old }
    {
        match end {
            End::Commit => {
                keep(&mut self.cells, &mut self.undos);
                self.made.clear();
            }
            End::Abort => {
                undo(&mut self.cells, &mut self.undos);
                take_out(&mut self.cells, &mut self.made);
            }
        }
    }
}

fn has_body(cells: &BTreeMap<Key, Cell>, key: &Key) -> bool
    ensures { result ≡ is_some
        (option_and_then (λ c. c) (get (cells_of cells.now.entries) key.now)) }
{
    match cells.get(key) {
        Some(cell) => cell.is_some(),
        None => false,
    }
}

// Replaces a key's cell, and notes what stood there. After `NoMemory` all is as before.
fn replace(
    cells: &mut BTreeMap<Key, Cell>,
    made: &mut Vec<Key>,
    undos: &mut Vec<Undo>,
    key: Key,
    cell: Cell,
) -> Result<(), NoMemory>
    requires { IsOpen cells.old.entries undos.old.items }
    ensures ok { OnOk result
        (cells_of cells.new.entries ≡ insert (cells_of cells.old.entries) key cell) }
    ensures err { OnErr result (cells_of cells.new.entries ≡ cells_of cells.old.entries) }
    ensures kept { kept_cells made.new.items undos.new.items (cells_of cells.new.entries)
        ≡ kept_cells made.old.items undos.old.items (cells_of cells.old.entries) }
    ensures open { IsOpen cells.new.entries undos.new.items }
{
    let noted = key.copy()?;
    made.try_reserve(1)?;
    undos.try_reserve(1)?;
    match cells.insert(key, cell)? {
        None => made.push(noted)?,
        Some(before) => undos.push(Undo {
            key: noted,
            before,
            removes: false,
        })?,
    }
    Ok(())
}

// Takes a key's body away, and notes it.
fn remove_body(
    cells: &mut BTreeMap<Key, Cell>,
    undos: &mut Vec<Undo>,
    key: Key,
) -> Result<(), NoMemory>
    requires { IsOpen cells.old.entries undos.old.items }
    ensures ok { OnOk result (bodies (cells_of cells.new.entries)
        ≡ remove (bodies (cells_of cells.old.entries)) key) }
    ensures err { OnErr result (cells_of cells.new.entries ≡ cells_of cells.old.entries) }
    ensures undone { undone undos.new.items (cells_of cells.new.entries)
        ≡ undone undos.old.items (cells_of cells.old.entries) }
    ensures open { IsOpen cells.new.entries undos.new.items }
{
    undos.try_reserve(1)?;
    let before = take_body(cells, &key);
    if before.is_some() {
        undos.push(Undo {
            key,
            before,
            removes: true,
        })?;
    }
    Ok(())
}

// Takes a key's body out of its cell, if it has one.
fn take_body(cells: &mut BTreeMap<Key, Cell>, key: &Key) -> Cell
    requires { IsAscending cells.old.entries }
    ensures body { result ≡ option_and_then (λ c. c) (get (cells_of cells.old.entries) key.now) }
    ensures cells { cells_of cells.new.entries
        ≡ emptied (cells_of cells.old.entries) key.now result }
    ensures ascending { IsAscending cells.new.entries }
{
    match cells.get_mut(key) {
        Some(cell) => mem::replace(cell, Cell::none()),
        None => Cell::none(),
    }
}

// Ends the transaction with its changes kept. A key whose body went then has no cell.
fn keep(cells: &mut BTreeMap<Key, Cell>, undos: &mut Vec<Undo>)
    requires { IsOpen cells.old.entries undos.old.items }
    ensures bodies { bodies (cells_of cells.new.entries) ≡ bodies (cells_of cells.old.entries) }
    ensures undos { undos.new.items ≡ [] }
    ensures ascending { IsAscending cells.new.entries }
{
    while let Some(undo) = undos.pop() {
        if undo.removes {
            drop_removed(cells, &undo.key);
        }
    }
}

// Takes a key's cell away where it has no body.
fn drop_removed(cells: &mut BTreeMap<Key, Cell>, key: &Key)
    requires { IsAscending cells.old.entries }
    ensures bodies { bodies (cells_of cells.new.entries) ≡ bodies (cells_of cells.old.entries) }
    ensures ascending { IsAscending cells.new.entries }
{
    if !has_body(cells, key) {
        cells.remove(key);
    }
}

// Takes the changes back.
fn undo(cells: &mut BTreeMap<Key, Cell>, undos: &mut Vec<Undo>)
    requires { IsOpen cells.old.entries undos.old.items }
    ensures cells { cells_of cells.new.entries
        ≡ undone undos.old.items (cells_of cells.old.entries) }
    ensures undos { undos.new.items ≡ [] }
    ensures ascending { IsAscending cells.new.entries }
{
    while let Some(Undo { key, before, .. }) = undos.pop() {
        put_back(cells, &key, before);
    }
}

fn put_back(cells: &mut BTreeMap<Key, Cell>, key: &Key, before: Cell)
    requires place { HasCell (cells_of cells.old.entries) key.now }
    requires ascending { IsAscending cells.old.entries }
    ensures cells { cells_of cells.new.entries
        ≡ insert (cells_of cells.old.entries) key.now before }
    ensures ascending { IsAscending cells.new.entries }
{
    if let Some(cell) = cells.get_mut(key) {
        *cell = before;
    }
}

// Takes the cells out that were made.
fn take_out(cells: &mut BTreeMap<Key, Cell>, made: &mut Vec<Key>)
    requires { IsAscending cells.old.entries }
    ensures cells { cells_of cells.new.entries
        ≡ without made.old.items (cells_of cells.old.entries) }
    ensures made { made.new.items ≡ [] }
    ensures ascending { IsAscending cells.new.entries }
{
    while let Some(key) = made.pop() {
        cells.remove(&key);
    }
}

// Appends the entries inside the span: they stand together, from its lower end on. Answers whether
// that is past all keys; where it may be, it is first compared with the last one.
fn select_cells(
    alloc: Global,
    cells: &BTreeMap<Key, Cell>,
    ascending: bool,
    span: &Span,
    out: &mut Entries,
) -> Result<bool, NoMemory>
    requires { IsAscending cells.now.entries }
    ensures ok { OnOk result
        (out.new
        ≡ out.old ++ selected span.now.lo span.now.hi (bodies (cells_of cells.now.entries))) }
    ensures extends { Extends out.old out.new }
{
    let lo = Key::from_slice(alloc, span.lo.as_slice())?;
    if ascending && is_past_all(cells, &lo) {
        return Ok(true);
    }
    let mut is_past = true;
    for (key, cell) in cells.range(lo..) {
        is_past = false;
        let bytes = key.as_slice();
        if !is_up_to(span.hi.as_slice(), bytes) {
            return Ok(false);
        }
        if let Some(body) = cell.as_slice() {
            out.push(alloc, bytes, body)?;
        }
    }
    Ok(is_past)
}

// Whether the key is known to be past each key of the leaf, as one that comes in ascending order
// is.
fn is_past_all(cells: &BTreeMap<Key, Cell>, key: &Key) -> bool
    ensures { result ≡ true → IsPastAll key.now cells.now.entries }
{
    match cells.last_key_value() {
        Some((last, _)) => last.cmp(key).is_lt(),
        None => false,
    }
}

// Whether the first bytes of the key, as many as `hi` has, are at most `hi`.
fn is_up_to(hi: &[u8], key: &[u8]) -> bool
    ensures { result ≡ is_up_to hi.now key.now }
{
    let front = &key[..key.len().min(hi.len())];
    compare_bytes(front, hi).is_le()
}
