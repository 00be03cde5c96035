// Ten departments with 200 members, as a reader of links. It counts nothing, and its clauses
// promise nothing of a state: what it gives is seen in its code.
ghost use Rattle.std.specs.Prelude.{◌≡◌, ◌∷◌, [], true, IfOk};
ghost use Rattle.std.proofs.Common.{◌∙◌, refl};
ghost use Rattle.gx_schema.specs.WellFormed.{IsWellFormed};

use gx_commands::{Cond, Find, Way};
use gx_rows::{Row, field_value};
use gx_schema::{Schema, read_schema};
use gx_values::{NoMemory, Value, Values, meets};
use gx_walks::LinkReader;
use std::alloc::Global;
use std::test::Fail;

const DEPARTMENTS: i64 = 10;

const MEMBERS: i64 = 200;

/// The departments 1 to 10, whose key is their only field, and the members 1 to 200, each with its
/// pay. Member k works in department k mod 10, or 10, and its head is member k / 2, if there is one.
#[derive(Drop)]
pub(crate) struct Company {
    pub(crate) schema: Schema,
}

impl Company {
    pub(crate) fn new(alloc: Global) -> Result<Company, Fail>
        ensures { IfOk result (λ c. IsWellFormed c.schema) }
    {
        let text = b"file dept (dno int)
file emp (eno int, pay int)
link works (dept, emp)
link heads (emp, emp)
";
        Ok(Company {
            schema: read_schema(alloc, text)?,
        })
    }
}

impl LinkReader for Company {
    type Stop = NoMemory;

    ghost schema = { λ c. c.schema };

    ghost ready = { λ c. Unit {0} };

    ghost indexed = { λ c file. true ∷ [] };

    ghost holds = { λ c s. ⊥ };

    ghost costs = { λ c s p. ⊥ };

    ghost work = { λ c. 0 };

    ghost calls = { λ a b r. b.schema ≡ a.schema };

    fn schema(&self) -> &Schema {
        &self.schema
    }

    fn indexed_fields(&self, alloc: Global, file: u16) -> Result<Vec<bool>, NoMemory> {
        let _file = file;
        Ok(vec![in alloc; true]?)
    }

    fn records(&mut self, alloc: Global, find: &Find) -> Result<Vec<Row>, NoMemory> {
        let mut rows = Vec::new(alloc);
        for key in 1..=last_key(find.file) {
            let row = row_at(alloc, find.file, key)?;
            if find.conds.0.iter().all(|cond| meets_one(cond, &row)) {
                rows.push(row)?;
            }
        }
        Ok(rows)
    }

    fn add_linked(
        &mut self,
        alloc: Global,
        way: Way,
        key: &Value,
        out: &mut Vec<Row>,
    ) -> Result<(), NoMemory> {
        match way {
            Way::Down(link) => {
                for member in 1..=MEMBERS {
                    if is_owner(key, owner_in(link, member)) {
                        out.push(row_at(alloc, 1, member)?)?;
                    }
                }
            }
            Way::Up(link) => {
                for owner in 1..=last_key(link) {
                    if is_owner_of(link, key, owner) {
                        out.push(row_at(alloc, link, owner)?)?;
                    }
                }
            }
        }
        Ok(())
    }

    fn no_memory(&mut self) -> NoMemory {
        NoMemory
    }

    ghost at_rest = { λ a b h. refl };

    ghost in_turn = { λ a b c r h k. k ∙ h };

    ghost keeps_schema = { λ a b r h. h };

    ghost stays_ready = { λ a b r h k. tt };

    ghost keeps_state = { λ a b s h k. k };

    ghost keeps_costs = { λ a b s c h k. k };
}

// The greatest key of a file. The file of the owners in a link has the link's number.
fn last_key(file: u16) -> i64 {
    if file == 0 { DEPARTMENTS } else { MEMBERS }
}

fn row_at(alloc: Global, file: u16, key: i64) -> Result<Row, NoMemory> {
    let mut values = Vec::new(alloc);
    if file == 1 {
        values.push(Value::Int(1000 + key.wrapping_mul(37).rem_euclid(100)))?;
    }
    Ok(Row {
        key: Value::Int(key),
        values: Values(values),
    })
}

// The owner of a member in a link; 0 is none.
fn owner_in(link: u16, member: i64) -> i64 {
    if link == 0 {
        member.wrapping_sub(1).rem_euclid(10) + 1
    } else {
        member / 2
    }
}

fn is_owner(key: &Value, owner: i64) -> bool {
    matches!(key, Value::Int(found) if *found == owner)
}

// Whether this is the owner of the member with the key.
fn is_owner_of(link: u16, key: &Value, owner: i64) -> bool {
    matches!(key, Value::Int(member) if owner_in(link, *member) == owner)
}

fn meets_one(cond: &Cond, row: &Row) -> bool {
    let absent = Value::Int(0);
    meets(field_value(cond.field, row, &absent), cond.op, &cond.bound)
}
