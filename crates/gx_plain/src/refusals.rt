// Why a command is refused.
ghost use Rattle.std.specs.Prelude.{◌≡◌, ◌<◌, length, Some, None, if◌then◌else◌};
ghost use Rattle.std.specs.Option.{option_map};
ghost use Rattle.gx_schema.specs.Lookups.{link_at};
ghost use Rattle.gx_schema.specs.WellFormed.{IsWellFormed};
ghost use Rattle.gx_commands.specs.Commands.{IsOfSchema};
ghost use Rattle.gx_model.specs.Commands.{has_insert_key, has_record, is_end_of, is_linked, lacks_of};
ghost use Rattle.gx_commands.specs.declared.command.Command.TheVariants as command;
ghost use Rattle.gx_plain.specs.Plain.{HasParts, IsOfLink, refusal_line};

use gx_commands::{Command, Of};
use gx_plain_state::{PlainLink, PlainState};
use gx_schema::{LinkDef, MOST_MEMBERS, Schema};
use gx_values::Value;

const KEY_EXISTS: &[u8] = b"refused: key exists\n";

const NO_RECORD: &[u8] = b"refused: no record\n";

const LINKED: &[u8] = b"refused: linked\n";

const HAS_OWNER: &[u8] = b"refused: has owner\n";

const TOO_MANY_MEMBERS: &[u8] = b"refused: too many members\n";

const NO_OWNER: &[u8] = b"refused: no owner\n";

/// The line that says why a command of the schema is refused, where it is: of several reasons the
/// first.
pub(crate) fn refusal(
    schema: &Schema,
    state: &PlainState,
    command: &Command,
) -> Option<&'static [u8]>
    requires well_formed { IsWellFormed schema.now }
    requires parts { HasParts schema.now state.now }
    requires of_schema { IsOfSchema schema.now command.now }
    ensures { option_map (λ line. line.now) result ≡ refusal_line schema.now state.now command.now }
{
    match command {
        Command::Insert(file, values) => { line_if(has_first(state, *file, &values.0), KEY_EXISTS) }
        Command::Update(file, key, _) => line_if(!has_record(state, *file, key), NO_RECORD),
        Command::Delete(file, key) => refused_delete(schema, state, *file, key),
        Command::Connect(link, owner, member) => {
            refused_connect(schema, state, *link, owner, member)
        }
        Command::Disconnect(link, member) => refused_disconnect(schema, state, *link, member),
        Command::Members(link, owner, _) => line_if(
            !has_record(state, owner_number(schema, *link), owner),
            NO_RECORD,
        ),
        Command::Owner(link, member) => line_if(
            !has_record(state, member_number(schema, *link), member),
            NO_RECORD,
        ),
        Command::Find(find) => line_if(lacks_of(schema, state, &find.of), NO_RECORD),
        _ => None,
    }
}

fn line_if(test: bool, line: &'static [u8]) -> Option<&'static [u8]>
    ensures { option_map (λ line. line.now) result ≡ (if test then Some line.now else None) }
{
    if test { Some(line) } else { None }
}

fn refused_delete(
    schema: &Schema,
    state: &PlainState,
    file: u16,
    key: &Value,
) -> Option<&'static [u8]>
    requires { file < length state.now.files }
    ensures { option_map (λ line. line.now) result
        ≡ refusal_line schema.now state.now (command.Delete file key.now) }
{
    if !has_record(state, file, key) {
        return Some(NO_RECORD);
    }
    line_if(
        is_linked(schema.links.as_slice(), state.links(), file, key),
        LINKED,
    )
}

fn refused_disconnect(
    schema: &Schema,
    state: &PlainState,
    link: u16,
    member: &Value,
) -> Option<&'static [u8]>
    requires well_formed { IsWellFormed schema.now }
    requires parts { HasParts schema.now state.now }
    requires link { link < length schema.now.links }
    ensures { option_map (λ line. line.now) result
        ≡ refusal_line schema.now state.now (command.Disconnect link member.now) }
{
    if !has_record(state, member_number(schema, link), member) {
        return Some(NO_RECORD);
    }
    line_if(state.link(link).get(member).is_none(), NO_OWNER)
}

fn refused_connect(
    schema: &Schema,
    state: &PlainState,
    link: u16,
    owner: &Value,
    member: &Value,
) -> Option<&'static [u8]>
    requires well_formed { IsWellFormed schema.now }
    requires parts { HasParts schema.now state.now }
    requires link { link < length schema.now.links }
    ensures { option_map (λ line. line.now) result
        ≡ refusal_line schema.now state.now (command.Connect link owner.now member.now) }
{
    let are_there = has_record(state, owner_number(schema, link), owner)
        && has_record(state, member_number(schema, link), member);
    if !are_there {
        return Some(NO_RECORD);
    }
    if state.link(link).get(member).is_some() {
        return Some(HAS_OWNER);
    }
    line_if(
        state.link(link).members(owner) >= MOST_MEMBERS,
        TOO_MANY_MEMBERS,
    )
}

fn has_record(state: &PlainState, file: u16, key: &Value) -> bool
    requires { file < length state.now.files }
    ensures { result ≡ has_record state.now file key.now }
{
    state.file(file).get(key).is_some()
}

// Whether the file has a record with the first of the values as its key.
fn has_first(state: &PlainState, file: u16, values: &[Value]) -> bool
    requires { file < length state.now.files }
    ensures { result ≡ has_insert_key state.now file values.now }
{
    match values {
        [] => false,
        [key, ..] => has_record(state, file, key),
    }
}

// Whether an owner is asked for that isn't there.
fn lacks_of(schema: &Schema, state: &PlainState, of: &Option<Of>) -> bool
    requires well_formed { IsWellFormed schema.now }
    requires parts { HasParts schema.now state.now }
    requires link { IsOfLink state.now of.now }
    ensures { result ≡ lacks_of schema.now state.now of.now }
{
    match of {
        None => false,
        Some(of) => !has_record(state, owner_number(schema, of.link), &of.owner),
    }
}

// Whether the record is a member or an owner in one of the links.
fn is_linked(defs: &[LinkDef], links: &[PlainLink], file: u16, key: &Value) -> bool
    ensures { result ≡ is_linked defs.now links.now file key.now }
{
    let [def, more_defs @ ..] = defs else {
        return false;
    };
    let [link, more_links @ ..] = links else {
        return false;
    };
    is_end_of(def, link, file, key) || is_linked(more_defs, more_links, file, key)
}

fn is_end_of(def: &LinkDef, link: &PlainLink, file: u16, key: &Value) -> bool
    ensures { result ≡ is_end_of def.now link.now file key.now }
{
    (def.member == file && link.get(key).is_some()) || (def.owner == file && link.has_owner(key))
}

/// The number of a link's owner file.
pub(crate) fn owner_number(schema: &Schema, link: u16) -> u16
    requires well_formed { IsWellFormed schema.now }
    requires link { link < length schema.now.links }
    ensures value { result ≡ (link_at schema.now link).owner }
    ensures within { result < length schema.now.files }
{
    schema.links.0[usize::from(link)].owner
}

/// The number of a link's member file.
pub(crate) fn member_number(schema: &Schema, link: u16) -> u16
    requires well_formed { IsWellFormed schema.now }
    requires link { link < length schema.now.links }
    ensures value { result ≡ (link_at schema.now link).member }
    ensures within { result < length schema.now.files }
{
    schema.links.0[usize::from(link)].member
}
