// The legs of a path line.
ghost use Rattle.std.specs.Prelude.{◌≡◌, ◌<◌, [], length, codes, IfOk};
ghost use Rattle.gx_tokens.specs.Reading.{map_ok};
ghost use Rattle.gx_schema.specs.WellFormed.{IsWellFormed};
ghost use Rattle.gx_commands.specs.Cutting.{words_in};
ghost use Rattle.gx_commands.specs.Paths.{link_of, file_before, file_behind, by_key, most_legs};
ghost use Rattle.gx_script.specs.Reading.{Gives, behind};
ghost use Rattle.gx_script.specs.Paths.{way_from, way_at, leg_at, legs_at};

use gx_commands::{Conds, Find, Leg, Legs, LineWhy, MOST_LEGS, NoCommand, OrderBy, Way, is_end};
use gx_schema::Schema;
use gx_script::{after_keyword, read_link, where_part};
use std::alloc::Global;

/// The records of a file that meet the conditions, by ascending key.
pub fn by_key(file: u16, conds: Conds) -> Find
    ensures { result ≡ by_key file conds }
{
    Find {
        file,
        conds,
        of: None,
        order: OrderBy {
            field: 0,
            desc: false,
        },
    }
}

// The number of the file from which a way leads.
fn file_before(schema: &Schema, way: Way) -> u16
    requires { link_of way < length schema.now.links }
    ensures { result ≡ file_before schema.now way }
{
    match way {
        Way::Down(link) => schema.links.0[usize::from(link)].owner,
        Way::Up(link) => schema.links.0[usize::from(link)].member,
    }
}

// The number of the file to which a way leads.
fn file_behind(schema: &Schema, way: Way) -> u16
    requires well_formed { IsWellFormed schema.now }
    requires link { link_of way < length schema.now.links }
    ensures value { result ≡ file_behind schema.now way }
    ensures within { result < length schema.now.files }
{
    match way {
        Way::Down(link) => schema.links.0[usize::from(link)].member,
        Way::Up(link) => schema.links.0[usize::from(link)].owner,
    }
}

// `down` or `up` with a link, and what follows them.
fn read_any_way<'a>(schema: &Schema, line: &'a [u8]) -> Result<(Way, &'a [u8]), LineWhy>
    requires { IsWellFormed schema.now }
    ensures exact { map_ok (λ x. (x.0, words_in x.1.now)) result
        ≡ way_from schema.now (behind (codes "down") (words_in line.now))
        (behind (codes "up") (words_in line.now)) }
    ensures within { IfOk result (λ x. link_of x.0 < length schema.now.links) }
{
    if let Some(rest) = after_keyword(line, b"down") {
        let (link, rest) = read_link(schema, rest)?;
        return Ok((Way::Down(link), rest));
    }
    match after_keyword(line, b"up") {
        None => Err(LineWhy::Word),
        Some(rest) => {
            let (link, rest) = read_link(schema, rest)?;
            Ok((Way::Up(link), rest))
        }
    }
}

// The same with a link that leads from the file.
#[tactic(auto, unfolding(gx_script::specs::Paths::way_at))]
fn read_way<'a>(schema: &Schema, file: u16, line: &'a [u8]) -> Result<(Way, &'a [u8]), LineWhy>
    requires { IsWellFormed schema.now }
    ensures exact { map_ok (λ x. (x.0, words_in x.1.now)) result
        ≡ way_at schema.now file (words_in line.now) }
    ensures within { IfOk result (λ x. link_of x.0 < length schema.now.links) }
{
    let (way, rest) = read_any_way(schema, line)?;
    if file_before(schema, way) == file {
        Ok((way, rest))
    } else {
        Err(LineWhy::Link)
    }
}

// A leg from the file, and what follows it.
#[tactic(auto, unfolding(gx_script::specs::Paths::leg_at))]
fn read_leg<'a>(
    alloc: Global,
    schema: &Schema,
    file: u16,
    line: &'a [u8],
) -> Result<(Leg, &'a [u8]), NoCommand>
    requires { IsWellFormed schema.now }
    ensures { Gives (λ x. (x.0, words_in x.1.now)) result
        (leg_at schema.now file (words_in line.now)) }
{
    let (way, rest) = read_way(schema, file, line)?;
    let file = file_behind(schema, way);
    let (conds, taken) = where_part(alloc, schema, file, rest)?;
    let find = by_key(file, conds);
    Ok((Leg { way, find }, &rest[taken..]))
}

/// LEG {LEG}, from the file, up to the end of the line.
pub fn read_legs(alloc: Global, schema: &Schema, from: u16, line: &[u8]) -> Result<Legs, NoCommand>
    requires { IsWellFormed schema.now }
    ensures { Gives (λ legs. legs) result
        (legs_at most_legs schema.now from [] (words_in line.now)) }
{
    let mut legs: Vec<Leg> = Vec::new(alloc);
    let mut file = from;
    let mut rest = line;
    while legs.len() < MOST_LEGS {
        let (leg, after) = read_leg(alloc, schema, file, rest)?;
        file = leg.find.file;
        rest = after;
        legs.push(leg)?;
        if is_end(rest) {
            return Ok(Legs(legs));
        }
    }
    Err(NoCommand::Bad(LineWhy::Word))
}
