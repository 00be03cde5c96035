// What a walk asks of a database.
ghost use Rattle.std.specs.Prelude.{◌≡◌, ◌^◌, ◌<◌, ◌≤◌, ◌+◌, ◌*◌, ◌++◌, ℕ, Bool, List, length, IfOk, OnOk, OnErr, Result, Ok, Err};
ghost use Rattle.gx_schema.specs.declared.schema.Schema.{Schema as TheSchema};
ghost use Rattle.gx_commands.specs.Paths.{IsByKey, link_of, file_behind};
ghost use Rattle.gx_model.specs.States.{State};
ghost use Rattle.gx_model.specs.Paths.{chosen};
ghost use Rattle.gx_walks.specs.Walks.{linked};
ghost use Rattle.gx_walks.specs.Readers.{ended, Costs, IsFound};

use gx_commands::{Find, Way};
use gx_rows::Row;
use gx_schema::Schema;
use gx_values::{NoMemory, Value};
use std::alloc::Global;

/// A database whose records and links are read. It holds a state, and counts its steps.
pub trait LinkReader {
    /// Why a call was given up.
    type Stop: Copy;

    /// The schema of its records.
    ghost schema: { Self → TheSchema };

    /// It can be asked.
    ghost ready: { Self → Type 0 };

    /// Which fields of a file are indexed.
    ghost indexed: { Self → ℕ → List Bool };

    /// It holds this state.
    ghost holds: { Self → State → Type 0 };

    /// What its steps in this state are bounded by.
    ghost costs: { Self → State → Costs → Type 0 };

    /// How many steps there were.
    ghost work: { Self → ℕ };

    /// What calls that ended so may have done to it.
    ghost calls: { Self → Self → Result (Unit {0}) Self.Stop → Type 0 };

    /// The schema of its records.
    fn schema(&self) -> &Schema
        ensures { result.now ≡ schema self.now };

    /// Whether each field of a file is indexed, by the number of the field; field 0 is the key.
    /// `NoMemory`: there was none for it.
    fn indexed_fields(&self, alloc: Global, file: u16) -> Result<Vec<bool>, NoMemory>
        requires ready { ready self.now }
        requires file { file < length (schema self.now).files }
        ensures { IfOk result (λ fields. fields.items ≡ indexed self.now file) };

    /// The records that a `find` gives, by ascending key.
    fn records(&mut self, alloc: Global, find: &Find) -> Result<Vec<Row>, Self::Stop>
        requires ready { ready self.old }
        requires find { IsByKey (schema self.old) find.now }
        requires few { length find.now.conds < 2 ^ 16 }
        ensures found { (s : State) → holds self.old s →
            IfOk result (λ rows. rows.items ≡ chosen s find.now) }
        ensures steps { (s : State) (c : Costs) → holds self.old s → costs self.old s c →
            OnOk result
            (work self.new ≤ work self.old + 2 * (c.candidates find.now + 1) * c.look_up) }
        ensures calls { calls self.old self.new (ended result) };

    /// Appends the records to which a link leads from a key, in the order of their keys. It is asked
    /// for that only after calls that weren't given up.
    fn add_linked(
        &mut self,
        alloc: Global,
        way: Way,
        key: &Value,
        out: &mut Vec<Row>,
    ) -> Result<(), Self::Stop>
        requires ready { ready self.old }
        requires serving { calls self.old self.old (Ok tt) }
        requires link { link_of way < length (schema self.old).links }
        ensures found { (s : State) → holds self.old s → OnOk result
            (out.new.items
            ≡ out.old.items ++ linked s (file_behind (schema self.old) way) way key.now) }
        ensures steps { (s : State) (c : Costs) → holds self.old s → costs self.old s c →
            IsFound c.finds way → OnOk result
            (work self.new ≤ work self.old
            + 2 * (length (linked s (file_behind (schema self.old) way) way key.now) + 1)
            * c.look_up) }
        ensures calls { calls self.old self.new (ended result) };

    /// Gives up for want of memory.
    fn no_memory(&mut self) -> Self::Stop
        requires { ready self.old }
        ensures { calls self.old self.new (Err result) };

    /// After calls that weren't given up, none since is as good as some.
    ghost at_rest: { (a b : Self) → calls a b (Ok tt) → calls b b (Ok tt) };

    /// Some calls, and then others.
    ghost in_turn: { (a b c : Self) (r : Result (Unit {0}) Self.Stop) → calls a b (Ok tt) →
        calls b c r → calls a c r };

    /// No call changes the schema, and after each it can be asked again.
    ghost keeps_schema: { (a b : Self) (r : Result (Unit {0}) Self.Stop) → calls a b r →
        schema b ≡ schema a };

    ghost stays_ready: { (a b : Self) (r : Result (Unit {0}) Self.Stop) → calls a b r → ready a →
        ready b };

    /// Calls that aren't given up change nothing that is read.
    ghost keeps_state: { (a b : Self) (s : State) → calls a b (Ok tt) → holds a s → holds b s };

    ghost keeps_costs: { (a b : Self) (s : State) (c : Costs) → calls a b (Ok tt) →
        costs a s c → costs b s c };
}

/// What was made without the reader, which gives up where there was no memory for it.
pub(crate) fn or_stop<T: Drop, E: Drop, R: LinkReader>(
    reader: &mut R,
    made: Result<T, E>,
) -> Result<T, R::Stop>
    requires ready { R.ready reader.old }
    requires serving { R.calls reader.old reader.old (Ok tt) }
    ensures same { IfOk result (λ value. made ≡ Ok value) }
    ensures refused { OnErr result ((why : E) × (made ≡ Err why)) }
    ensures still { OnOk result (reader.new ≡ reader.old) }
    ensures calls { R.calls reader.old reader.new (ended result) }
{
    match made {
        Ok(value) => Ok(value),
        Err(_) => Err(reader.no_memory()),
    }
}
