// Files, links and fields by their names, and by their numbers.
ghost use Rattle.std.specs.Prelude.{◌≡◌, ◌<◌, length, IfOk, IfSome};
ghost use Rattle.gx_tokens.specs.Reading.{map_ok};
ghost use Rattle.gx_schema.specs.Lookups.{file_at, link_at, field_at};
ghost use Rattle.gx_schema.specs.WellFormed.{HasFields, IsWellFormed};
ghost use Rattle.gx_commands.specs.Cutting.{words_in, IsRestOf};
ghost use Rattle.gx_script.specs.Names.{file_number, link_number, field_number};
ghost use Rattle.gx_script.specs.Reading.{want, a_file, a_link, a_link_to, a_field, a_new_field, a_structure, is_changed};

use gx_commands::{Change, Command, LineWhy, LineWord, take_word};
use gx_schema::{FileDef, LinkDef, Schema};
use gx_values::{Field, Kind};

#[tactic(auto, unfolding(crate::specs::Names::file_number))]
fn file_place(files: &[FileDef], name: &[u8]) -> Option<usize>
    ensures value { result ≡ file_number files.now name.now }
    ensures within { IfSome result (λ place. place < length files.now) }
{
    files.iter().position(|file| file.name.as_slice() == name)
}

#[tactic(auto, unfolding(crate::specs::Names::link_number))]
fn link_place(links: &[LinkDef], name: &[u8]) -> Option<usize>
    ensures value { result ≡ link_number links.now name.now }
    ensures within { IfSome result (λ place. place < length links.now) }
{
    links.iter().position(|link| link.name.as_slice() == name)
}

#[tactic(auto, unfolding(crate::specs::Names::field_number))]
fn field_place(fields: &[Field], name: &[u8]) -> Option<usize>
    ensures value { result ≡ field_number fields.now name.now }
    ensures within { IfSome result (λ place. place < length fields.now) }
{
    fields
        .iter()
        .position(|field| field.name.as_slice() == name)
}

// The number of the file of this name.
fn file_number(schema: &Schema, name: &[u8]) -> Option<u16>
    requires { IsWellFormed schema.now }
    ensures value { result ≡ file_number schema.now.files name.now }
    ensures within { IfSome result (λ file. file < length schema.now.files) }
{
    match file_place(&schema.files.0, name) {
        Some(place) => Some(place as u16),
        None => None,
    }
}

// The number of the link of this name.
fn link_number(schema: &Schema, name: &[u8]) -> Option<u16>
    requires { IsWellFormed schema.now }
    ensures value { result ≡ link_number schema.now.links name.now }
    ensures within { IfSome result (λ link. link < length schema.now.links) }
{
    match link_place(&schema.links.0, name) {
        Some(place) => Some(place as u16),
        None => None,
    }
}

// The number of the field of this name.
fn field_number(file: &FileDef, name: &[u8]) -> Option<u16>
    requires { HasFields file.now }
    ensures value { result ≡ field_number file.now.fields name.now }
    ensures within { IfSome result (λ field. field < length file.now.fields) }
{
    match field_place(&file.fields.0, name) {
        Some(place) => Some(place as u16),
        None => None,
    }
}

/// The file of this number.
pub fn file_def(schema: &Schema, file: u16) -> &FileDef
    requires well_formed { IsWellFormed schema.now }
    requires file { file < length schema.now.files }
    ensures value { result.now ≡ file_at schema.now file }
    ensures fields { HasFields result.now }
{
    &schema.files.0[usize::from(file)]
}

/// The owner file of the link of this number.
pub fn owner_file(schema: &Schema, link: u16) -> &FileDef
    requires well_formed { IsWellFormed schema.now }
    requires link { link < length schema.now.links }
    ensures value { result.now ≡ file_at schema.now (link_at schema.now link).owner }
    ensures fields { HasFields result.now }
{
    file_def(schema, schema.links.0[usize::from(link)].owner)
}

// The number of the member file of the link of this number.
fn member_number(schema: &Schema, link: u16) -> u16
    requires well_formed { IsWellFormed schema.now }
    requires link { link < length schema.now.links }
    ensures value { result ≡ (link_at schema.now link).member }
    ensures within { result < length schema.now.files }
{
    schema.links.0[usize::from(link)].member
}

/// The member file of the link of this number.
pub fn member_file(schema: &Schema, link: u16) -> &FileDef
    requires well_formed { IsWellFormed schema.now }
    requires link { link < length schema.now.links }
    ensures value { result.now ≡ file_at schema.now (link_at schema.now link).member }
    ensures fields { HasFields result.now }
{
    file_def(schema, member_number(schema, link))
}

/// The kind of the field of this number.
pub fn field_kind(file: &FileDef, field: u16) -> Kind
    requires { field < length file.now.fields }
    ensures { result ≡ (field_at file.now field).kind }
{
    file.fields.0[usize::from(field)].kind
}

/// The number of the file that the first word names, and what follows it. `File` where it names
/// none.
pub fn read_file<'a>(schema: &Schema, line: &'a [u8]) -> Result<(u16, &'a [u8]), LineWhy>
    requires { IsWellFormed schema.now }
    ensures exact { map_ok (λ x. (x.0, words_in x.1.now)) result
        ≡ want (a_file schema.now) (words_in line.now) }
    ensures within { IfOk result (λ x. x.0 < length schema.now.files) }
{
    match take_word(line)? {
        (LineWord::Bare(name), rest) => match file_number(schema, name) {
            Some(file) => Ok((file, rest)),
            None => Err(LineWhy::File),
        },
        (LineWord::Quoted(_), _) => Err(LineWhy::File),
    }
}

/// The number of the link that the first word names, and what follows it. `Link` where it names
/// none.
pub fn read_link<'a>(schema: &Schema, line: &'a [u8]) -> Result<(u16, &'a [u8]), LineWhy>
    requires { IsWellFormed schema.now }
    ensures exact { map_ok (λ x. (x.0, words_in x.1.now)) result
        ≡ want (a_link schema.now) (words_in line.now) }
    ensures within { IfOk result (λ x. x.0 < length schema.now.links) }
{
    match take_word(line)? {
        (LineWord::Bare(name), rest) => match link_number(schema, name) {
            Some(link) => Ok((link, rest)),
            None => Err(LineWhy::Link),
        },
        (LineWord::Quoted(_), _) => Err(LineWhy::Link),
    }
}

/// The number of the link that the first word names, and what follows it. `Link` where it names
/// none, or one whose members are of another file.
pub fn read_link_to<'a>(
    schema: &Schema,
    file: u16,
    line: &'a [u8],
) -> Result<(u16, &'a [u8]), LineWhy>
    requires { IsWellFormed schema.now }
    ensures exact { map_ok (λ x. (x.0, words_in x.1.now)) result
        ≡ want (a_link_to schema.now file) (words_in line.now) }
    ensures within { IfOk result (λ x. x.0 < length schema.now.links) }
{
    let (link, rest) = read_link(schema, line)?;
    if member_number(schema, link) == file {
        Ok((link, rest))
    } else {
        Err(LineWhy::Link)
    }
}

/// The number of the field that the first word names, and what follows it. `Field` where it names
/// none.
pub fn read_field<'a>(file: &FileDef, line: &'a [u8]) -> Result<(u16, &'a [u8]), LineWhy>
    requires { HasFields file.now }
    ensures exact { map_ok (λ x. (x.0, words_in x.1.now)) result
        ≡ want (a_field file.now) (words_in line.now) }
    ensures within { IfOk result (λ x. x.0 < length file.now.fields) }
    ensures left { IfOk result (λ x. IsRestOf line.now x.1.now) }
{
    match take_word(line)? {
        (LineWord::Bare(name), rest) => match field_number(file, name) {
            Some(field) => Ok((field, rest)),
            None => Err(LineWhy::Field),
        },
        (LineWord::Quoted(_), _) => Err(LineWhy::Field),
    }
}

// Whether a change is of this field.
fn is_changed(changes: &[Change], field: u16) -> bool
    ensures { result ≡ is_changed changes.now field }
{
    changes.iter().any(|change| change.field == field)
}

/// The number of the field that the first word names, and what follows it. `Field` where it names
/// none, the key, or one that is changed before.
pub fn read_new_field<'a>(
    file: &FileDef,
    before: &[Change],
    line: &'a [u8],
) -> Result<(u16, &'a [u8]), LineWhy>
    requires { HasFields file.now }
    ensures exact { map_ok (λ x. (x.0, words_in x.1.now)) result
        ≡ want (a_new_field file.now before.now) (words_in line.now) }
    ensures within { IfOk result (λ x. x.0 < length file.now.fields) }
{
    let (field, rest) = read_field(file, line)?;
    if field == 0 || is_changed(before, field) {
        return Err(LineWhy::Field);
    }
    Ok((field, rest))
}

/// The command that reorganizes the file, or else the link, that the first word names, and what
/// follows it. `File` where it names neither.
pub fn read_structure<'a>(schema: &Schema, line: &'a [u8]) -> Result<(Command, &'a [u8]), LineWhy>
    requires { IsWellFormed schema.now }
    ensures { map_ok (λ x. (x.0, words_in x.1.now)) result
        ≡ want (a_structure schema.now) (words_in line.now) }
{
    match take_word(line)? {
        (LineWord::Bare(name), rest) => match file_number(schema, name) {
            Some(file) => Ok((Command::ReorganizeFile(file), rest)),
            None => match link_number(schema, name) {
                Some(link) => Ok((Command::ReorganizeLink(link), rest)),
                None => Err(LineWhy::File),
            },
        },
        (LineWord::Quoted(_), _) => Err(LineWhy::File),
    }
}
