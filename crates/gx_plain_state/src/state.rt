// States: a file for each file of a schema, and a link for each link.
ghost use Rattle.std.specs.Prelude.{◌≡◌, ◌<◌, length, IfOk, OnOk, replicate};
ghost use Rattle.std.specs.FinMap as fin;
ghost use Rattle.gx_model.specs.States.{file_in, link_in, empty_state};
ghost use Rattle.gx_model.specs.Commands.{with_file, with_link};

use crate::files::PlainFile;
use crate::links::{Pair, PlainLink};
use gx_rows::Row;
use gx_schema::Schema;
use gx_values::{NoMemory, Value};
use std::alloc::Global;
use std::marker::Model;

/// The files and the links of a schema, in its order.
#[derive(Debug, Drop)]
pub struct PlainState {
    files: Vec<PlainFile>,
    links: Vec<PlainLink>,
}

impl Model for PlainState {
    ghost use Rattle.std.specs.Coded.{codes};
    ghost use Rattle.gx_model.specs.States.{State};
    ghost use Rattle.gx_plain_state.specs.Codes.{coded_state};

    ghost Value = { State };

    ghost coded = { Prim.hlevel (codes, coded_state) };

    ghost view = { λ s. record { files = s.files.items; links = s.links.items } };
}

impl PlainState {
    /// The state of a schema without records.
    pub fn empty(alloc: Global, schema: &Schema) -> Result<PlainState, NoMemory>
        ensures { IfOk result (λ state. state ≡ empty_state schema.now) }
    {
        let files = empty_files(alloc, schema.files.as_slice().len())?;
        let links = empty_links(alloc, schema.links.as_slice().len())?;
        Ok(PlainState { files, links })
    }

    /// An equal state.
    pub fn copy(&self, alloc: Global) -> Result<PlainState, NoMemory>
        ensures { IfOk result (λ copy. copy ≡ self.now) }
    {
        let files = copy_files(alloc, &self.files)?;
        let links = copy_links(alloc, &self.links)?;
        Ok(PlainState { files, links })
    }

    /// A file by its number.
    pub fn file(&self, file: u16) -> &PlainFile
        requires { file < length self.now.files }
        ensures { result.now ≡ file_in self.now file }
    {
        &self.files[usize::from(file)]
    }

    /// A link by its number.
    pub fn link(&self, link: u16) -> &PlainLink
        requires { link < length self.now.links }
        ensures { result.now ≡ link_in self.now link }
    {
        &self.links[usize::from(link)]
    }

    /// All links.
    pub fn links(&self) -> &[PlainLink]
        ensures { result.now ≡ self.now.links }
    {
        &self.links
    }

    /// Gives a record's key its values.
    pub fn insert(&mut self, file: u16, row: Row) -> Result<(), NoMemory>
        requires { file < length self.old.files }
        ensures { OnOk result
            (self.new ≡ with_file self.old file (fin.insert (file_in self.old file) row.0 row.1)) }
    {
        self.files[usize::from(file)].insert(row)
    }

    /// Takes a record away, if it is there.
    pub fn remove(&mut self, file: u16, key: &Value)
        requires { file < length self.old.files }
        ensures { self.new ≡ with_file self.old file (fin.remove (file_in self.old file) key.now) }
    {
        self.files[usize::from(file)].remove(key);
    }

    /// Gives a member its owner.
    pub fn connect(&mut self, link: u16, pair: Pair) -> Result<(), NoMemory>
        requires { link < length self.old.links }
        ensures { OnOk result
            (self.new ≡ with_link self.old link
            (fin.insert (link_in self.old link) pair.0 pair.1)) }
    {
        self.links[usize::from(link)].insert(pair)
    }

    /// Takes a member's owner away, if it has one.
    pub fn disconnect(&mut self, link: u16, member: &Value)
        requires { link < length self.old.links }
        ensures { self.new
            ≡ with_link self.old link (fin.remove (link_in self.old link) member.now) }
    {
        self.links[usize::from(link)].remove(member);
    }
}

fn empty_files(alloc: Global, count: usize) -> Result<Vec<PlainFile>, NoMemory>
    ensures { IfOk result (λ files. files.items ≡ replicate count fin.empty) }
{
    let mut files = Vec::new(alloc);
    for _ in 0..count {
        files.push(PlainFile::new(alloc))?;
    }
    Ok(files)
}

fn empty_links(alloc: Global, count: usize) -> Result<Vec<PlainLink>, NoMemory>
    ensures { IfOk result (λ links. links.items ≡ replicate count fin.empty) }
{
    let mut links = Vec::new(alloc);
    for _ in 0..count {
        links.push(PlainLink::new(alloc))?;
    }
    Ok(links)
}

fn copy_files(alloc: Global, files: &[PlainFile]) -> Result<Vec<PlainFile>, NoMemory>
    ensures { IfOk result (λ copies. copies.items ≡ files.now) }
{
    let mut copies = Vec::new(alloc);
    for file in files {
        copies.push(file.copy(alloc)?)?;
    }
    Ok(copies)
}

fn copy_links(alloc: Global, links: &[PlainLink]) -> Result<Vec<PlainLink>, NoMemory>
    ensures { IfOk result (λ copies. copies.items ≡ links.now) }
{
    let mut copies = Vec::new(alloc);
    for link in links {
        copies.push(link.copy(alloc)?)?;
    }
    Ok(copies)
}
