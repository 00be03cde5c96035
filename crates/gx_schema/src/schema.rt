// Schemas: files with their fields, and links between files.
ghost use Rattle.std.specs.Prelude.{◌≡◌};
ghost use Rattle.gx_schema.specs.Names.{file_position, link_position};

use crate::names::{file_position, link_position};
use gx_values::{Fields, Name};
use std::marker::Model;

/// A file: its name and its fields, of which the first is its unique key.
#[derive(Debug, Drop)]
pub struct FileDef {
    pub name: Name,
    pub fields: Fields,
}

/// The most members that an owner has in one link.
pub const MOST_MEMBERS: usize = 500;

/// A link: its name, and the numbers of its owner file and its member file, counted from 0.
#[derive(Debug, Drop)]
pub struct LinkDef {
    pub name: Name,
    pub owner: u16,
    pub member: u16,
}

/// Files, seen as a list.
#[derive(Debug, Drop)]
pub struct FileDefs(pub Vec<FileDef>);

impl Model for FileDefs {
    ghost use Rattle.std.specs.Prelude.{List};
    ghost use Rattle.gx_schema.specs.declared.schema.FileDef.{FileDef};

    ghost Value = { List FileDef };

    ghost view = { λ f. f.0.items };
}

impl FileDefs {
    /// The files.
    pub fn as_slice(&self) -> &[FileDef]
        ensures { result.now ≡ self.now }
    {
        &self.0
    }
}

/// Links, seen as a list.
#[derive(Debug, Drop)]
pub struct LinkDefs(pub Vec<LinkDef>);

impl Model for LinkDefs {
    ghost use Rattle.std.specs.Prelude.{List};
    ghost use Rattle.gx_schema.specs.declared.schema.LinkDef.{LinkDef};

    ghost Value = { List LinkDef };

    ghost view = { λ l. l.0.items };
}

impl LinkDefs {
    /// The links.
    pub fn as_slice(&self) -> &[LinkDef]
        ensures { result.now ≡ self.now }
    {
        &self.0
    }
}

/// A schema: its files and its links, each in the order of the text.
#[derive(Debug, Drop)]
pub struct Schema {
    pub files: FileDefs,
    pub links: LinkDefs,
}

impl Schema {
    /// The number of the file of this name, counted from 0. None: exactly where no file has it.
    pub fn file_position(&self, name: &[u8]) -> Option<usize>
        ensures { result ≡ file_position self.now.files name.now }
    {
        file_position(self.files.as_slice(), name)
    }

    /// The number of the link of this name, counted from 0. None: exactly where no link has it.
    pub fn link_position(&self, name: &[u8]) -> Option<usize>
        ensures { result ≡ link_position self.now.links name.now }
    {
        link_position(self.links.as_slice(), name)
    }
}
