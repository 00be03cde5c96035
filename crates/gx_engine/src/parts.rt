// The parts of a step that only read records.
ghost use Rattle.std.specs.Prelude.{◌≡◌, ◌^◌, ◌<◌, ◌+◌, ◌*◌, ◌++◌, Err, None, true, length, OnOk, OnErr};
ghost use Rattle.std.specs.FinMap as fin;
ghost use Rattle.gx_values.specs.Values.{Fits};
ghost use Rattle.gx_schema.specs.Lookups.{field_at, file_at, link_at, key_kind};
ghost use Rattle.gx_commands.specs.declared.command.Command.TheVariants as command;
ghost use Rattle.gx_commands.specs.Commands.{IsOfSchema};
ghost use Rattle.gx_stack.specs.Indexed.{is_indexed};
ghost use Rattle.gx_types.specs.Any.{any_rule};
ghost use Rattle.gx_types.specs.Links.{linkset_at};
ghost use Rattle.gx_types.specs.Nodes.{tree_at};
ghost use Rattle.gx_model.specs.States.{file_in, link_in};
ghost use Rattle.gx_model.specs.Found.{IsListed, meets_conds};
ghost use Rattle.gx_model.specs.Play.{Playing, seen_state, after_command};
ghost use Rattle.gx_linksets.specs.Stored.{finds_owner};
ghost use Rattle.gx_pairs.specs.Members.{member_rows};
ghost use Rattle.gx_pairs.specs.Owners.{owner_look_ups};
ghost use Rattle.gx_answers.specs.Work.{candidates};
ghost use Rattle.gx_engine.specs.Records.{AreOwner};

use crate::engine::{Engine, StepStop};
use crate::pairs::append_pairs;
use crate::records::{append_found, append_members, append_owner};
use gx_commands::Find;
use gx_gather::Recs;
use gx_links::Pairs;
use gx_ports::{Leaves, Stop};
use gx_states::{file_def, file_node};
use gx_values::Value;
use std::alloc::Global;

impl<B: Leaves + Drop> Engine<B> {
    ghost use Rattle.gx_engine.specs.Steps.{schema_of, built_of, leaves_of, stop_of, IsReady, IsAt};
    ghost use Rattle.gx_engine.specs.Parts.{Appends, TakesLooks, EndsReading, first_answer, after_call};
    ghost use Rattle.gx_engine.specs.declared.engine.StepStop.TheVariants.{Now};

    /// Whether a field of a file of the schema is indexed: a `find` by its value needn't look at
    /// all records.
    pub fn indexed(&self, file: u16, field: u16) -> bool
        requires ready { IsReady B.View self.now }
        requires file { file < length (schema_of self.now).files }
        requires field { field < length (file_at (schema_of self.now) file).fields }
        ensures { result ≡ is_indexed any_rule (tree_at (built_of self.now).files file)
            (field_at (file_at (schema_of self.now) file) field).name }
    {
        let def = file_def(&self.schema, file);
        let field = &def.fields.0[usize::from(field)];
        file_node(&self.built, file).indexed(&field.name)
    }

    /// Appends the records that a `find` of the schema gives, in its order. The `find` has no `of`.
    /// It takes at most `2 * (c + 1) * (w + l)` steps, where c is the number of records that meet
    /// the one condition of the plan, w the greatest number of leaf entries of a record of any file
    /// or of an owner of any link, and l the number of leaves.
    ///
    /// An Ok changes no map, and a transaction that was open is open then. `Now` gives this call up
    /// and is kept: `out` is as before, whether a transaction is open isn't told, and each later
    /// call answers `Stopped` with it and does nothing. It is `Now(Fault)`: the count of faults
    /// rose; `Now(Damaged)`: the leaves stood for no state, which is said of block 0 where the
    /// stored form of each is whole; or `Now(NoMemory)`: there was no memory. What was last
    /// committed stays.
    pub fn records(&mut self, alloc: Global, find: &Find, out: &mut Recs) -> Result<(), StepStop>
        requires ready { IsReady B.View self.old }
        requires of_schema { IsOfSchema (schema_of self.old) (command.Find find.now) }
        requires few { length find.now.conds < 2 ^ 16 }
        requires alone { find.now.of ≡ None }
        ensures found { Appends B.View self.old out.old out.new result
            (λ s rows. IsListed (file_in s find.now.file) (meets_conds find.now.conds)
            find.now.order rows) }
        ensures steps { TakesLooks B.View self.old self.new result (λ s.
            2 * (length (candidates (schema_of self.old) (built_of self.old) s find.now) + 1)) }
        ensures unsaid { OnErr result (out.new ≡ out.old) }
        ensures ends { EndsReading B.View self.old self.new result }
    {
        if let Some(stop) = self.stopped {
            return Err(StepStop::Stopped(stop));
        }
        let read = append_found(
            alloc,
            &self.schema,
            &self.built,
            find,
            &mut self.leaves,
            out,
        );
        self.keep_stop(read)
    }

    /// Appends the records of the members of an owner, by ascending key, for a link of the schema
    /// and a value that fits the key of its owner file. Where no record has that key there are
    /// none. It takes at most `2 * (m + 1) * (w + l)` steps for m members, with w and l as for
    /// `records`.
    ///
    /// It ends as `records` does.
    pub fn members_of(
        &mut self,
        alloc: Global,
        link: u16,
        owner: &Value,
        out: &mut Recs,
    ) -> Result<(), StepStop>
        requires ready { IsReady B.View self.old }
        requires link { link < length (schema_of self.old).links }
        requires owner { Fits (key_kind (file_at (schema_of self.old)
            (link_at (schema_of self.old) link).owner)) owner.now }
        ensures found { Appends B.View self.old out.old out.new result
            (λ s rows. rows
            ≡ member_rows (file_in s (link_at (schema_of self.old) link).member) (link_in s link)
            owner.now) }
        ensures steps { TakesLooks B.View self.old self.new result (λ s.
            2 * (length (member_rows (file_in s (link_at (schema_of self.old) link).member)
            (link_in s link) owner.now) + 1)) }
        ensures unsaid { OnErr result (out.new ≡ out.old) }
        ensures ends { EndsReading B.View self.old self.new result }
    {
        if let Some(stop) = self.stopped {
            return Err(StepStop::Stopped(stop));
        }
        let (schema, built) = (&self.schema, &self.built);
        let read = append_members(alloc, schema, built, link, owner, &mut self.leaves, out);
        self.keep_stop(read)
    }

    /// Appends the record of the owner of a member, and nothing exactly where it has no owner, for
    /// a link of the schema and a value that fits the key of its member file. Where the link isn't
    /// an `array` it takes at most `3 * (w + l)` steps with an owner, and `2 * (w + l)` without,
    /// with w and l as for `records`.
    ///
    /// It ends as `records` does.
    pub fn owner_of(
        &mut self,
        alloc: Global,
        link: u16,
        member: &Value,
        out: &mut Recs,
    ) -> Result<(), StepStop>
        requires ready { IsReady B.View self.old }
        requires link { link < length (schema_of self.old).links }
        requires member { Fits (key_kind (file_at (schema_of self.old)
            (link_at (schema_of self.old) link).member)) member.now }
        ensures found { Appends B.View self.old out.old out.new result
            (λ s rows. AreOwner (file_in s (link_at (schema_of self.old) link).owner)
            (fin.get (link_in s link) member.now) rows) }
        ensures steps { finds_owner (linkset_at (built_of self.old).links link) ≡ true →
            TakesLooks B.View self.old self.new result
            (λ s. owner_look_ups (fin.get (link_in s link) member.now)) }
        ensures unsaid { OnErr result (out.new ≡ out.old) }
        ensures ends { EndsReading B.View self.old self.new result }
    {
        if let Some(stop) = self.stopped {
            return Err(StepStop::Stopped(stop));
        }
        let (schema, built) = (&self.schema, &self.built);
        let read = append_owner(alloc, schema, built, link, member, &mut self.leaves, out);
        self.keep_stop(read)
    }

    /// Appends the pairs of a link of the schema, each a member with its owner, in the order of the
    /// members.
    ///
    /// It ends as `records` does.
    pub fn pairs(&mut self, alloc: Global, link: u16, out: &mut Pairs) -> Result<(), StepStop>
        requires ready { IsReady B.View self.old }
        requires link { link < length (schema_of self.old).links }
        ensures found { (p : Playing) → IsAt B.View p self.old →
            OnOk result (out.new ≡ out.old ++ fin.entries (link_in (seen_state p) link)) }
        ensures unsaid { OnErr result (out.new ≡ out.old) }
        ensures ends { EndsReading B.View self.old self.new result }
    {
        if let Some(stop) = self.stopped {
            return Err(StepStop::Stopped(stop));
        }
        let (schema, built) = (&self.schema, &self.built);
        let read = append_pairs(alloc, schema, built, link, &mut self.leaves, out);
        self.keep_stop(read)
    }

    /// The stop of a caller that has no memory for what these calls gave it. The first stop is
    /// answered and kept: where there is none yet the working transaction is given up, and it is
    /// `Now(NoMemory)`. What was last committed stays.
    pub fn no_memory(&mut self) -> StepStop
        requires ready { IsReady B.View self.old }
        ensures why { stop_of self.old ≡ None → result ≡ Now Stop.NoMemory }
        ensures given_up { (p : Playing) → IsAt B.View p self.old → stop_of self.old ≡ None →
            IsAt B.View (after_command (schema_of self.old) p command.Abort) self.new }
        ensures work { B.work (leaves_of self.new) ≡ B.work (leaves_of self.old) }
        ensures ends { EndsReading B.View self.old self.new (Err result) }
    {
        if let Some(stop) = self.stopped {
            return StepStop::Stopped(stop);
        }
        self.leaves.abort();
        self.inside = false;
        self.stopped = Some(Stop::NoMemory);
        StepStop::Now(Stop::NoMemory)
    }

    // Keeps the stop of a call, where it is the first one.
    fn keep_stop(&mut self, asked: Result<(), Stop>) -> Result<(), StepStop>
        ensures answer { result ≡ first_answer asked }
        ensures kept { self.new ≡ after_call asked self.old }
    {
        match asked {
            Ok(()) => Ok(()),
            Err(stop) => {
                self.stopped = Some(stop);
                Err(StepStop::Now(stop))
            }
        }
    }
}
