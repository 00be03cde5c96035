// What commands that follow a link answer.
ghost use Rattle.std.specs.Prelude.{◌≡◌, ◌^◌, ◌<◌, ◌*◌, [], ℕ, Bool, true, Some, length, filter, IfOk, IsErrOf, codes};
ghost use Rattle.std.specs.FinMap as fin;
ghost use Rattle.std.specs.List.Sorted.{IsPermutation};
ghost use Rattle.gx_commands.specs.declared.command.Command.TheVariants as command;
ghost use Rattle.gx_commands.specs.Commands.{IsOfSchema, conds_of};
ghost use Rattle.gx_model.specs.States.{File as FileMap, Row as TheRow};
ghost use Rattle.gx_model.specs.Texts.{row_text};
ghost use Rattle.gx_model.specs.Commands.{IsListText, refusal_text, no_record};
ghost use Rattle.gx_scan.specs.Files.{rec_of};
ghost use Rattle.gx_states.specs.Internal.{AreFor};
ghost use Rattle.gx_answers.specs.Queries.{Answers, follows_link};

use crate::found_members::add_found_members;
use gx_commands::{Command, Find, Of, OrderBy};
use gx_gather::NO_BLOCK;
use gx_pairs::{Owned, Refused, add_members, find_owner};
use gx_ports::{Leaves, Stop};
use gx_rows::{Row, record_line, records_text, sort_rows};
use gx_schema::{FileDef, Schema};
use gx_states::stored_link;
use gx_types::Built;
use gx_values::{NoMemory, Octets, Rec, Value};
use std::alloc::Global;

/// The answer of a command that follows a link, `owner`, `members` or a `find` with `of`: the text
/// that the abstract database answers, also where it is a refusal. The leaves hold what they held.
///
/// `members` and `find` take at most `2 * (c + 1) * (w + l)` steps, where c is the number of
/// records that meet the one condition of the plan, w the greatest number of leaf entries of a
/// record or of an owner, and l the number of leaves.
///
/// `Damaged`: the leaves stood for no state, which is said of block 0 where each is whole. `Fault`:
/// the count of faults rose; with any other answer it stays. `NoMemory`: an allocation failed.
/// Never `Full`.
pub fn answer<B: Leaves>(
    alloc: Global,
    schema: &Schema,
    built: &Built,
    command: &Command,
    leaves: &mut B,
) -> Result<Octets, Stop>
    requires ready { AreFor schema.now built.now (length (B.working leaves.old)) }
    requires of_schema { IsOfSchema schema.now command.now }
    requires few { length (conds_of command.now) < 2 ^ 16 }
    requires follows { follows_link command.now ≡ true }
    ensures { Answers B.View schema.now built.now command.now leaves.old leaves.new result }
{
    match command {
        Command::Members(link, owner, order) => {
            members_text(alloc, schema, built, *link, owner, *order, leaves)
        }
        Command::Owner(link, member) => owner_text(alloc, schema, built, *link, member, leaves),
        Command::Find(find) => match &find.of {
            Some(of) => found_members_text(alloc, schema, built, find, of, leaves),
            None => unreachable!(),
        },
        _ => unreachable!(),
    }
}

// The answer of `owner`.
fn owner_text<B: Leaves>(
    alloc: Global,
    schema: &Schema,
    built: &Built,
    link: u16,
    member: &Value,
    leaves: &mut B,
) -> Result<Octets, Stop>
    requires ready { AreFor schema.now built.now (length (B.working leaves.old)) }
    requires of_schema { IsOfSchema schema.now (command.Owner link member.now) }
    ensures { Answers B.View schema.now built.now (command.Owner link member.now) leaves.old
        leaves.new result }
{
    let stored = stored_link(schema, built, link);
    let owned = find_owner(alloc, &stored, member, leaves)?;
    match owned {
        Owned::NoMember => Ok(refusal_text(alloc)?),
        Owned::Free => Ok(none_text(alloc)?),
        Owned::By(record) => owner_line(alloc, stored.owners.file, &record),
    }
}

fn none_text(alloc: Global) -> Result<Octets, NoMemory>
    ensures { IfOk result (λ text. text ≡ codes "none\n") }
{
    Ok(Octets(b"none\n".to_vec(alloc)?))
}

// The line of a record of the file.
fn owner_line(alloc: Global, file: &FileDef, record: &Rec) -> Result<Octets, Stop>
    ensures line { (r : TheRow) → record.now ≡ rec_of r →
        IfOk result (λ text. text ≡ row_text file.now r) }
    ensures no_damage { (r : TheRow) (n : ℕ) → record.now ≡ rec_of r →
        ¬ IsErrOf result (Stop.Damaged n) }
    ensures block { (n : ℕ) → IsErrOf result (Stop.Damaged n) → n ≡ 0 }
    ensures no_fault { ¬ IsErrOf result Stop.Fault }
    ensures not_full { ¬ IsErrOf result Stop.Full }
{
    let [key] = record.key.0.as_slice() else {
        return Err(Stop::Damaged(NO_BLOCK));
    };
    Ok(record_line(alloc, file, key, &record.fields.0)?)
}

// The answer of `members`.
fn members_text<B: Leaves>(
    alloc: Global,
    schema: &Schema,
    built: &Built,
    link: u16,
    owner: &Value,
    order: OrderBy,
    leaves: &mut B,
) -> Result<Octets, Stop>
    requires ready { AreFor schema.now built.now (length (B.working leaves.old)) }
    requires of_schema { IsOfSchema schema.now (command.Members link owner.now order) }
    ensures { Answers B.View schema.now built.now (command.Members link owner.now order)
        leaves.old leaves.new result }
{
    let stored = stored_link(schema, built, link);
    let mut rows = Vec::new(alloc);
    if !add_members(alloc, &stored, owner, &[], leaves, &mut rows)? {
        return Ok(refusal_text(alloc)?);
    }
    Ok(sorted_text(alloc, stored.members.file, order, rows)?)
}

// The answer of a `find` among the members of an owner.
fn found_members_text<B: Leaves>(
    alloc: Global,
    schema: &Schema,
    built: &Built,
    find: &Find,
    of: &Of,
    leaves: &mut B,
) -> Result<Octets, Stop>
    requires ready { AreFor schema.now built.now (length (B.working leaves.old)) }
    requires of_schema { IsOfSchema schema.now (command.Find find.now) }
    requires few { length find.now.conds < 2 ^ 16 }
    requires of { find.now.of ≡ Some of.now }
    ensures { Answers B.View schema.now built.now (command.Find find.now) leaves.old leaves.new
        result }
{
    let stored = stored_link(schema, built, of.link);
    let mut rows = Vec::new(alloc);
    if !add_found_members(alloc, &stored, find, of, leaves, &mut rows)? {
        return Ok(refusal_text(alloc)?);
    }
    Ok(sorted_text(alloc, stored.members.file, find.order, rows)?)
}

// There is no record of the owner, or of the member.
fn refusal_text(alloc: Global) -> Result<Octets, NoMemory>
    ensures { IfOk result (λ text. text ≡ refusal_text no_record) }
{
    Ok(Octets(Refused::NoRecord.text().to_vec(alloc)?))
}

// The lines of records of a file, in the order.
fn sorted_text(
    alloc: Global,
    file: &FileDef,
    order: OrderBy,
    rows: Vec<Row>,
) -> Result<Octets, NoMemory>
    ensures { (f : FileMap) (test : TheRow → Bool) →
        IsPermutation (filter test (fin.entries f)) rows.items →
        IfOk result (IsListText file.now f test order) }
{
    let mut rows = rows;
    sort_rows(&mut rows, order)?;
    records_text(alloc, file, &rows)
}
