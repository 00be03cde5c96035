// An engine as a reader of records and links, and the answer of a path on it.
ghost use Rattle.std.specs.Prelude.{◌≡◌, ◌+◌, ◌*◌, ◌++◌, length, OnOk, OnErr};
ghost use Rattle.gx_schema.specs.WellFormed.{IsWellFormed};
ghost use Rattle.gx_model.specs.Play.{Playing, seen_state};
ghost use Rattle.gx_model.specs.Paths.{path_text};
ghost use Rattle.gx_answers.specs.Work.{candidates};
ghost use Rattle.gx_engine.specs.Steps.{schema_of, built_of, leaves_of, IsReady, IsAt};
ghost use Rattle.gx_engine.specs.Parts.{TakesLooks, EndsReading};
ghost use Rattle.gx_walks.specs.declared.directions.Direction.{Direction as TheDirection};
ghost use Rattle.gx_walks.specs.Directions.{IsDuePath};
ghost use Rattle.gx_walks.specs.Walks.{start_of, legs_of, visits};
ghost use Rattle.gx_walks.specs.Readers.{AreFound};
ghost use Rattle.gx_walks.specs.Engines.{CanWalk, Shows, IsDirectionIn, indexed_in, finds_in, costs_in};

use crate::answers::answer;
use crate::reader::LinkReader;
use crate::reading::{indexed_fields, read_found, read_members, read_owner};
use gx_commands::{Find, PathQuery, Way};
use gx_engine::{Engine, StepStop};
use gx_ports::Leaves;
use gx_rows::Row;
use gx_schema::Schema;
use gx_values::{NoMemory, Octets, Value};
use std::alloc::Global;

impl<B: Leaves + Drop> LinkReader for Engine<B> {
    ghost use Rattle.gx_walks.specs.EngineLaws.{at_rest, in_turn, schema_still, walks_still, shows_still, costs_still};

    type Stop = StepStop;

    ghost schema = { λ e. schema_of e };

    ghost ready = { λ e. CanWalk B.View e };

    ghost indexed = { λ e file. indexed_in e file };

    ghost holds = { λ e s. Shows B.View e s };

    ghost costs = { λ e s c. c ≡ costs_in B.View e s };

    ghost work = { λ e. B.work (leaves_of e) };

    ghost calls = { λ a b r. EndsReading B.View a b r };

    fn schema(&self) -> &Schema {
        Engine::schema(self)
    }

    fn indexed_fields(&self, alloc: Global, file: u16) -> Result<Vec<bool>, NoMemory> {
        indexed_fields(alloc, self, file)
    }

    fn records(&mut self, alloc: Global, find: &Find) -> Result<Vec<Row>, StepStop> {
        read_found(alloc, self, find)
    }

    fn add_linked(
        &mut self,
        alloc: Global,
        way: Way,
        key: &Value,
        out: &mut Vec<Row>,
    ) -> Result<(), StepStop> {
        match way {
            Way::Down(link) => read_members(alloc, self, link, key, out),
            Way::Up(link) => read_owner(alloc, self, link, key, out),
        }
    }

    fn no_memory(&mut self) -> StepStop {
        Engine::no_memory(self)
    }

    ghost at_rest = { λ a b h. at_rest B.View a b h };

    ghost in_turn = { λ a b c r h k. in_turn B.View a b c r h k };

    ghost keeps_schema = { λ a b r h. schema_still B.View a b r h };

    ghost stays_ready = { λ a b r h k. walks_still B.View a b r h k };

    ghost keeps_state = { λ a b s h k. shows_still B.View a b s h k };

    ghost keeps_costs = { λ a b s c h k. costs_still B.View a b s c h k };
}

/// Appends what a path of the engine's schema answers: the lines of its records, and how many there
/// are. An Ok changes no map.
///
/// Where no walked leg goes from a member to its owner through an `array`, it takes at most
/// `2 * (c + v + 1) * (w + l)` steps: c is the number of records that meet the one condition of the
/// plan of the `find` from which the path is walked, v the number of records before each leg of
/// each walk and of pairs that the leg follows, w the greatest number of leaf entries of a record
/// of any file or of an owner of any link, and l the number of leaves.
///
/// `Now` and `Stopped` are as those of `Engine::step`, but it is never `Full`: `out` is then as
/// before. Its own want of memory is `Now(NoMemory)`, which is kept.
pub fn answer_path<B: Leaves + Drop>(
    alloc: Global,
    engine: &mut Engine<B>,
    query: &PathQuery,
    out: &mut Octets,
) -> Result<(), StepStop>
    requires ready { IsReady B.View engine.old }
    requires well_formed { IsWellFormed (schema_of engine.old) }
    requires due { IsDuePath (schema_of engine.old) query.now }
    ensures text { (p : Playing) → IsAt B.View p engine.old → OnOk result
        (out.new ≡ out.old ++ path_text (schema_of engine.old) (seen_state p) query.now) }
    ensures steps { (d : TheDirection) → IsDirectionIn engine.old query.now d →
        AreFound (finds_in engine.old) (legs_of d query.now) →
        TakesLooks B.View engine.old engine.new result (λ s.
        2 * (length (candidates (schema_of engine.old) (built_of engine.old) s
        (start_of d query.now)) + visits d s query.now + 1)) }
    ensures unsaid { OnErr result (out.new ≡ out.old) }
    ensures ends { EndsReading B.View engine.old engine.new result }
{
    answer(alloc, engine, query, out)
}
