// Names that files, links and fields have.
ghost use Rattle.std.specs.Prelude.{◌≡◌};
ghost use Rattle.gx_schema.specs.Names.{starts_with_letter, has_field, has_file, has_link, file_position, link_position};

use crate::schema::{FileDef, LinkDef};
use gx_values::Field;

pub fn starts_with_letter(name: &[u8]) -> bool
    ensures { result ≡ starts_with_letter name.now }
{
    matches!(name, [b'a'..=b'z', ..])
}

pub fn has_field(fields: &[Field], name: &[u8]) -> bool
    ensures { result ≡ has_field fields.now name.now }
{
    fields.iter().any(|field| field.name.as_slice() == name)
}

pub fn has_file(files: &[FileDef], name: &[u8]) -> bool
    ensures { result ≡ has_file files.now name.now }
{
    files.iter().any(|file| file.name.as_slice() == name)
}

pub fn has_link(links: &[LinkDef], name: &[u8]) -> bool
    ensures { result ≡ has_link links.now name.now }
{
    links.iter().any(|link| link.name.as_slice() == name)
}

pub fn file_position(files: &[FileDef], name: &[u8]) -> Option<usize>
    ensures { result ≡ file_position files.now name.now }
{
    files.iter().position(|file| file.name.as_slice() == name)
}

pub fn link_position(links: &[LinkDef], name: &[u8]) -> Option<usize>
    ensures { result ≡ link_position links.now name.now }
{
    links.iter().position(|link| link.name.as_slice() == name)
}
