// The parts of commands: a record, an owner, a member, changes, conditions, and the order.
ghost use Rattle.std.specs.Prelude.{◌≡◌, ◌<◌, ◌≤◌, ◌-◌, false, true, None, [], length, drop, slice_index, codes, IfOk};
ghost use Rattle.std.specs.List.{AllByRecursion};
ghost use Rattle.gx_tokens.specs.Reading.{map_ok};
ghost use Rattle.gx_schema.specs.Lookups.{file_at};
ghost use Rattle.gx_schema.specs.WellFormed.{HasFields, IsWellFormed};
ghost use Rattle.gx_commands.specs.Words.{is_line_blank};
ghost use Rattle.gx_commands.specs.Cutting.{words_in, IsRestOf};
ghost use Rattle.gx_script.specs.Reading.{Gives, behind, record_at, link_and_owner, member_at, change_at, changes_at, cond_at, conds_at, where_at, owner_of_at, of_at, desc_at, order_at};

use crate::keywords::{after_keyword, read_op};
use crate::names::{
    field_kind, file_def, member_file, owner_file, read_field, read_file, read_link, read_link_to,
    read_new_field,
};
use crate::values::read_value;
use gx_commands::{Change, Changes, Cond, Conds, LineWhy, NoCommand, Of, OrderBy, is_end};
use gx_schema::{FileDef, Schema};
use gx_values::Value;
use std::alloc::Global;

/// FILE KEY, and what follows them.
#[tactic(auto, unfolding(crate::specs::Reading::record_at))]
pub fn read_record<'a>(
    alloc: Global,
    schema: &Schema,
    line: &'a [u8],
) -> Result<(u16, Value, &'a [u8]), NoCommand>
    requires { IsWellFormed schema.now }
    ensures exact { Gives (λ x. (x.0, x.1, words_in x.2.now)) result
        (record_at schema.now (words_in line.now)) }
    ensures within { IfOk result (λ x. x.0 < length schema.now.files) }
{
    let (file, rest) = read_file(schema, line)?;
    let kind = field_kind(file_def(schema, file), 0);
    let (key, rest) = read_value(alloc, kind, rest)?;
    Ok((file, key, rest))
}

/// LINK OWNER, and what follows them.
#[tactic(auto, unfolding(crate::specs::Reading::link_and_owner))]
pub fn read_owner<'a>(
    alloc: Global,
    schema: &Schema,
    line: &'a [u8],
) -> Result<(u16, Value, &'a [u8]), NoCommand>
    requires { IsWellFormed schema.now }
    ensures exact { Gives (λ x. (x.0, x.1, words_in x.2.now)) result
        (link_and_owner schema.now (words_in line.now)) }
    ensures within { IfOk result (λ x. x.0 < length schema.now.links) }
{
    let (link, rest) = read_link(schema, line)?;
    let kind = field_kind(owner_file(schema, link), 0);
    let (owner, rest) = read_value(alloc, kind, rest)?;
    Ok((link, owner, rest))
}

/// LINK MEMBER, and what follows them.
#[tactic(auto, unfolding(crate::specs::Reading::member_at))]
pub fn read_member<'a>(
    alloc: Global,
    schema: &Schema,
    line: &'a [u8],
) -> Result<(u16, Value, &'a [u8]), NoCommand>
    requires { IsWellFormed schema.now }
    ensures { Gives (λ x. (x.0, x.1, words_in x.2.now)) result
        (member_at schema.now (words_in line.now)) }
{
    let (link, rest) = read_link(schema, line)?;
    let kind = field_kind(member_file(schema, link), 0);
    let (member, rest) = read_value(alloc, kind, rest)?;
    Ok((link, member, rest))
}

// FIELD VALUE behind the changes before, and what follows them.
#[tactic(auto, unfolding(crate::specs::Reading::change_at))]
fn read_change<'a>(
    alloc: Global,
    file: &FileDef,
    before: &[Change],
    line: &'a [u8],
) -> Result<(Change, &'a [u8]), NoCommand>
    requires { HasFields file.now }
    ensures { Gives (λ x. (x.0, words_in x.1.now)) result
        (change_at file.now before.now (words_in line.now)) }
{
    let (field, rest) = read_new_field(file, before, line)?;
    let (value, rest) = read_value(alloc, field_kind(file, field), rest)?;
    Ok((Change { field, value }, rest))
}

/// FIELD VALUE {FIELD VALUE}, up to the end of the line.
pub fn read_changes<'a>(
    alloc: Global,
    file: &FileDef,
    line: &'a [u8],
) -> Result<(Changes, &'a [u8]), NoCommand>
    requires { HasFields file.now }
    ensures { Gives (λ x. (x.0, words_in x.1.now)) result
        (changes_at (length (words_in line.now)) file.now [] (words_in line.now)) }
{
    let mut changes = Vec::new(alloc);
    let mut rest = line;
    loop {
        let (change, after) = read_change(alloc, file, &changes, rest)?;
        changes.push(change)?;
        if is_end(after) {
            return Ok((Changes(changes), after));
        }
        rest = after;
    }
}

// FIELD OP VALUE, and what follows them.
#[tactic(auto, unfolding(crate::specs::Reading::cond_at))]
fn read_cond<'a>(
    alloc: Global,
    file: &FileDef,
    line: &'a [u8],
) -> Result<(Cond, &'a [u8]), NoCommand>
    requires { HasFields file.now }
    ensures exact { Gives (λ x. (x.0, words_in x.1.now)) result
        (cond_at file.now (words_in line.now)) }
    ensures left { IfOk result (λ x. IsRestOf line.now x.1.now) }
{
    let (field, rest) = read_field(file, line)?;
    let (op, rest) = read_op(rest)?;
    let (bound, rest) = read_value(alloc, field_kind(file, field), rest)?;
    Ok((Cond { field, op, bound }, rest))
}

// COND {and COND}, and what follows them.
fn read_conds<'a>(
    alloc: Global,
    file: &FileDef,
    line: &'a [u8],
) -> Result<(Conds, &'a [u8]), NoCommand>
    requires { HasFields file.now }
    ensures exact { Gives (λ x. (x.0, words_in x.1.now)) result
        (conds_at (length (words_in line.now)) file.now [] (words_in line.now)) }
    ensures left { IfOk result (λ x. IsRestOf line.now x.1.now) }
{
    let mut conds = Vec::new(alloc);
    let mut rest = line;
    loop {
        let (cond, after) = read_cond(alloc, file, rest)?;
        conds.push(cond)?;
        match after_keyword(after, b"and") {
            None => return Ok((Conds(conds), after)),
            Some(next) => rest = next,
        }
    }
}

/// [where COND {and COND}], and what follows.
#[tactic(auto, unfolding(crate::specs::Reading::where_at))]
pub fn read_where<'a>(
    alloc: Global,
    file: &FileDef,
    line: &'a [u8],
) -> Result<(Conds, &'a [u8]), NoCommand>
    requires { HasFields file.now }
    ensures exact { Gives (λ x. (x.0, words_in x.1.now)) result
        (where_at file.now (words_in line.now)) }
    ensures left { IfOk result (λ x. IsRestOf line.now x.1.now) }
{
    match after_keyword(line, b"where") {
        None => Ok((Conds(Vec::new(alloc)), line)),
        Some(rest) => read_conds(alloc, file, rest),
    }
}

// How many of the bytes are left without the blanks at their end.
fn without_blanks(bytes: &[u8]) -> usize
    ensures within { result ≤ length bytes.now }
    ensures blanks { AllByRecursion (λ b. is_line_blank b ≡ true) (drop result bytes.now) }
    ensures ends { 0 < result → is_line_blank (slice_index bytes.now (result - 1)) ≡ false }
{
    match bytes {
        [front @ .., b' ' | b'\t'] => without_blanks(front),
        _ => bytes.len(),
    }
}

// How many bytes stand before the rest, without the blanks right before it.
fn taken_before(bytes: &[u8], rest: &[u8]) -> usize
    requires { IsRestOf bytes.now rest.now }
    ensures words { words_in (drop result bytes.now) ≡ words_in rest.now }
    ensures within { result ≤ length bytes.now }
    ensures ends { 0 < result → is_line_blank (slice_index bytes.now (result - 1)) ≡ false }
{
    without_blanks(&bytes[..bytes.len() - rest.len()])
}

/// The conditions at the front of the bytes, for records of the file, and how many bytes they take
/// with their `where`, up to the end of their last word: none and 0 where the first word isn't
/// `where`. `Bad`: exactly the first reason why no conditions stand behind that word. `NoMemory`:
/// only where there was none for them.
#[tactic(auto, unfolding(crate::specs::Reading::where_at))]
pub fn where_part(
    alloc: Global,
    schema: &Schema,
    file: u16,
    bytes: &[u8],
) -> Result<(Conds, usize), NoCommand>
    requires well_formed { IsWellFormed schema.now }
    requires file { file < length schema.now.files }
    ensures exact { Gives (λ x. (x.0, words_in (drop x.1 bytes.now))) result
        (where_at (file_at schema.now file) (words_in bytes.now)) }
    // Without `where` nothing is taken, blanks neither.
    ensures none { behind (codes "where") (words_in bytes.now) ≡ None →
        IfOk result (λ x. x ≡ ([], 0)) }
    // The last byte taken is no blank: it ends the last word of the conditions.
    ensures ends { IfOk result (λ x. 0 < x.1 →
        is_line_blank (slice_index bytes.now (x.1 - 1)) ≡ false) }
    ensures within { IfOk result (λ x. x.1 ≤ length bytes.now) }
{
    match after_keyword(bytes, b"where") {
        None => Ok((Conds(Vec::new(alloc)), 0)),
        Some(rest) => {
            let (conds, rest) = read_conds(alloc, file_def(schema, file), rest)?;
            Ok((conds, taken_before(bytes, rest)))
        }
    }
}

// LINK OWNER, with a link whose members are of the file, and what follows them.
#[tactic(auto, unfolding(crate::specs::Reading::owner_of_at))]
fn read_owner_of<'a>(
    alloc: Global,
    schema: &Schema,
    file: u16,
    line: &'a [u8],
) -> Result<(Of, &'a [u8]), NoCommand>
    requires { IsWellFormed schema.now }
    ensures { Gives (λ x. (x.0, words_in x.1.now)) result
        (owner_of_at schema.now file (words_in line.now)) }
{
    let (link, rest) = read_link_to(schema, file, line)?;
    let kind = field_kind(owner_file(schema, link), 0);
    let (owner, rest) = read_value(alloc, kind, rest)?;
    Ok((Of { link, owner }, rest))
}

/// [of LINK OWNER], and what follows.
#[tactic(auto, unfolding(crate::specs::Reading::of_at))]
pub fn read_of<'a>(
    alloc: Global,
    schema: &Schema,
    file: u16,
    line: &'a [u8],
) -> Result<(Option<Of>, &'a [u8]), NoCommand>
    requires { IsWellFormed schema.now }
    ensures { Gives (λ x. (x.0, words_in x.1.now)) result
        (of_at schema.now file (words_in line.now)) }
{
    match after_keyword(line, b"of") {
        None => Ok((None, line)),
        Some(rest) => {
            let (of, rest) = read_owner_of(alloc, schema, file, rest)?;
            Ok((Some(of), rest))
        }
    }
}

// [desc] behind a field, and what follows.
#[tactic(auto, unfolding(crate::specs::Reading::desc_at))]
fn read_desc(field: u16, line: &[u8]) -> (OrderBy, &[u8])
    ensures { (result.0, words_in result.1.now) ≡ desc_at field (words_in line.now) }
{
    match after_keyword(line, b"desc") {
        None => (OrderBy { field, desc: false }, line),
        Some(rest) => (OrderBy { field, desc: true }, rest),
    }
}

/// [order FIELD [desc]], and what follows; without it the order is by the key, ascending.
#[tactic(auto, unfolding(crate::specs::Reading::order_at))]
pub fn read_order<'a>(file: &FileDef, line: &'a [u8]) -> Result<(OrderBy, &'a [u8]), LineWhy>
    requires { HasFields file.now }
    ensures { map_ok (λ x. (x.0, words_in x.1.now)) result ≡ order_at file.now (words_in line.now) }
{
    match after_keyword(line, b"order") {
        None => Ok((
            OrderBy {
                field: 0,
                desc: false,
            },
            line,
        )),
        Some(rest) => {
            let (field, rest) = read_field(file, rest)?;
            Ok(read_desc(field, rest))
        }
    }
}
