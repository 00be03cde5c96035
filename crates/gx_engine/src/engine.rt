// The engine: one command after the other on leaves.
ghost use Rattle.std.specs.Prelude.{◌≡◌, ◌<◌, ◌++◌, List, Some, None, Ok, Err, true, false, length, OnOk, OnErr};
ghost use Rattle.gx_model.specs.States.{State};
ghost use Rattle.gx_model.specs.Play.{Playing, start_at};
ghost use Rattle.gx_ports.specs.LeafMaps.{LeafMap};
ghost use Rattle.gx_ports.specs.Calls.{Hearing, Saying};
ghost use Rattle.gx_device.specs.Content.{Content};
ghost use Rattle.gx_edits.specs.Edits.{is_edit};
ghost use Rattle.gx_engine.specs.Steps.{is_commit};

use crate::reorganize::reorganize;
use gx_answers::answer;
use gx_commands::{Command, Find};
use gx_device::Failed;
use gx_edits::{edit, edit_answer};
use gx_finds::found_text;
use gx_ports::{Leaves, Stop};
use gx_rows::{commit_line, record_line};
use gx_scan::find_values;
use gx_schema::Schema;
use gx_states::{file_def, file_node};
use gx_types::Built;
use gx_values::{Octets, Value};
use std::alloc::{AllocError, Global};

/// Why a step was given up.
#[derive(Clone, Copy, Debug, PartialEq, Eq)]
pub enum StepStop {
    /// in this call
    Now(Stop),
    /// in an earlier call, which is kept: nothing happened in this one
    Stopped(Stop),
}

/// The engine over leaves. Between two calls it keeps nothing of a state but the leaves themselves.
#[derive(Drop)]
pub struct Engine<B: Leaves + Drop> {
    pub(crate) schema: Schema,
    pub(crate) built: Built,
    pub(crate) leaves: B,
    pub(crate) inside: bool,
    commits: u64,
    pub(crate) stopped: Option<Stop>,
}

impl<B: Leaves + Drop> Engine<B> {
    ghost use Rattle.gx_commands.specs.declared.command.Command.TheVariants as command;
    ghost use Rattle.gx_states.specs.Internal.{AreInternal, AreFor};
    ghost use Rattle.gx_answers.specs.Queries.{follows_link};
    ghost use Rattle.gx_engine.specs.Steps.{schema_of, built_of, leaves_of, is_open, Begins, IsReady, IsDue, StandsFor, IsAt, IsShortFor, CarriesOut, AreFresh, IsStep, EndsStep, TakesFewSteps, IsSame, is_fault_now};
    ghost use Rattle.gx_engine.specs.Crashes.{LeavesStates};
    ghost use Rattle.gx_ports.specs.Stops.{is_fault};
    ghost use Rattle.gx_engine.specs.declared.engine.StepStop.TheVariants.{Now, Stopped};

    /// An engine over leaves, which hold the files and the links of the schema as they are built.
    /// No transaction is open, and no stop is kept.
    pub fn start(schema: Schema, built: Built, leaves: B) -> Engine<B>
        requires { AreFor schema built (length (B.working leaves)) }
        ensures begins { Begins schema built leaves result }
        ensures ready { IsReady B.View result }
        ensures stands { (s : State) → AreInternal schema built (B.working leaves) s →
            B.kept leaves ≡ B.working leaves → StandsFor B.View result (start_at s) }
    {
        Engine {
            schema,
            built,
            leaves,
            inside: false,
            commits: 0,
            stopped: None,
        }
    }

    /// The schema.
    pub fn schema(&self) -> &Schema
        ensures { result.now ≡ schema_of self.now }
    {
        &self.schema
    }

    /// Whether a transaction is open.
    pub fn inside(&self) -> bool
        ensures { result ≡ is_open self.now }
    {
        self.inside
    }

    /// Carries out a command of the schema, where the transaction rule lets it stand, and appends
    /// its answer, which is that of the abstract database; the leaves stand for what comes after
    /// it.
    ///
    /// `Now` gives this call up and is kept: `out` is as before, and each later call answers
    /// `Stopped` with it and does nothing. Where it isn't `Now(Fault)`, the state of the last
    /// commit stays. `Now(Fault)`: the count of faults rose; with any other answer it stays.
    /// `Now(Full)`: the command changes records or links, isn't refused and is no delete, or it
    /// lays leaves out anew, and the pages may be too few for the entries of the states before and
    /// after. `Now(Damaged)`: the leaves stood for no state, which is said of block 0 where the
    /// stored form of each is whole. `Now(NoMemory)`: there was no memory.
    ///
    /// After `ReorganizeFile` or `ReorganizeLink` each leaf of the file or the link is fresh.
    /// `Begin`, `Commit`, `Abort` and a line without a command take no step. `Get`, `Members` and
    /// `Find` take at most `2 * (c + 1) * (w + l)`, where c is the number of records that meet the
    /// one condition of the plan, w the greatest number of leaf entries of a record, and of an
    /// owner where the command asks for members, and l the number of leaves. Each command but
    /// `Commit` leaves what was last committed as it is.
    pub fn step(
        &mut self,
        alloc: Global,
        command: Command,
        out: &mut Octets,
    ) -> Result<(), StepStop>
        requires ready { IsReady B.View self.old }
        requires due { IsDue self.old command }
        ensures carried { (p : Playing) → IsAt B.View p self.old →
            OnOk result (CarriesOut B.View p command self.old self.new out.old out.new) }
        ensures full { (p : Playing) → IsAt B.View p self.old → result ≡ Err (Now Stop.Full) →
            IsShortFor B.View self.old p command }
        ensures few_steps { TakesFewSteps B.View command self.old self.new result }
        ensures fresh { B.whole (leaves_of self.old) →
            OnOk result (AreFresh B.View command self.new) }
        ensures images { (p : Playing) → IsAt B.View p self.old → (start : Content) →
            B.calm (leaves_of self.old) start →
            LeavesStates B.View p command self.old self.new (is_fault_now result) }
        ensures ends { EndsStep B.View self.old self.new command out.old out.new result }
    {
        if let Some(stop) = self.stopped {
            return Err(StepStop::Stopped(stop));
        }
        match self.carry_out(alloc, command, out) {
            Ok(()) => Ok(()),
            Err(stop) => {
                self.stopped = Some(stop);
                Err(StepStop::Now(stop))
            }
        }
    }

    /// The leaves stand for one state at most. It does nothing.
    pub fn leaves_tell_the_state(&self)
        requires { IsReady B.View self.now }
        ensures { (maps : List LeafMap) (s t : State) →
            AreInternal (schema_of self.now) (built_of self.now) maps s →
            AreInternal (schema_of self.now) (built_of self.now) maps t → s ≡ t }
    {}

    #[tactic(auto, using(crate::proofs::WorkLemmas::edit_uncounted))]
    fn carry_out(&mut self, alloc: Global, command: Command, out: &mut Octets) -> Result<(), Stop>
        requires ready { IsReady B.View self.old }
        requires due { IsDue self.old command }
        ensures step { IsStep B.View self.old self.new command out.old out.new result }
        ensures few_steps { TakesFewSteps B.View command self.old self.new result }
        ensures images { (p : Playing) → IsAt B.View p self.old → (start : Content) →
            B.calm (leaves_of self.old) start →
            LeavesStates B.View p command self.old self.new (is_fault result) }
    {
        if is_edit(&command) {
            return self.edit(alloc, command, out);
        }
        if is_commit(&command) {
            return self.commit(alloc, out);
        }
        self.carry_other(alloc, &command, out)
    }

    // A command that changes no record and no link, and commits nothing.
    #[tactic(auto, using(crate::proofs::WorkLemmas::nothing_counted))]
    fn carry_other(
        &mut self,
        alloc: Global,
        command: &Command,
        out: &mut Octets,
    ) -> Result<(), Stop>
        requires ready { IsReady B.View self.old }
        requires due { IsDue self.old command.now }
        requires other { is_edit command.now ≡ false }
        requires kept { is_commit command.now ≡ false }
        ensures step { IsStep B.View self.old self.new command.now out.old out.new result }
        ensures few_steps { TakesFewSteps B.View command.now self.old self.new result }
    {
        match command {
            Command::Begin => self.begin(out),
            Command::Abort => self.abort(out),
            Command::Commit
            | Command::Insert(..)
            | Command::Update(..)
            | Command::Delete(..)
            | Command::Connect(..)
            | Command::Disconnect(..) => unreachable!(),
            Command::Get(file, key) => self.get(alloc, *file, key, out),
            Command::Find(find) => match find.of {
                None => self.find(alloc, find, out),
                Some(_) => self.answer(alloc, command, out),
            },
            Command::ReorganizeFile(file) => self.reorganize_file(alloc, *file, out),
            Command::ReorganizeLink(link) => self.reorganize_link(alloc, *link, out),
            Command::Nothing => self.pass(out),
            Command::Members(..) | Command::Owner(..) => self.answer(alloc, command, out),
        }
    }

    // A line without a command says nothing.
    fn pass(&mut self, out: &mut Octets) -> Result<(), Stop>
        requires ready { IsReady B.View self.old }
        requires due { IsDue self.old command.Nothing }
        ensures { IsStep B.View self.old self.new command.Nothing out.old out.new result }
    {
        let _out = out;
        Ok(())
    }

    fn begin(&mut self, out: &mut Octets) -> Result<(), Stop>
        requires ready { IsReady B.View self.old }
        requires due { IsDue self.old command.Begin }
        ensures { IsStep B.View self.old self.new command.Begin out.old out.new result }
    {
        append(out, b"begun\n")?;
        self.inside = true;
        Ok(())
    }

    // The answer is there before the commit, and is taken back where the commit fails: so no want
    // of memory comes after it.
    fn commit(&mut self, alloc: Global, out: &mut Octets) -> Result<(), Stop>
        requires ready { IsReady B.View self.old }
        requires due { IsDue self.old command.Commit }
        ensures step { IsStep B.View self.old self.new command.Commit out.old out.new result }
        ensures images { (p : Playing) → IsAt B.View p self.old → (start : Content) →
            B.calm (leaves_of self.old) start →
            LeavesStates B.View p command.Commit self.old self.new (is_fault result) }
    {
        let commits = self.commits.saturating_add(1);
        let line = commit_line(alloc, commits)?;
        let before = out.0.len();
        append(out, line.as_slice())?;
        match self.leaves.commit() {
            Ok(()) => {
                self.inside = false;
                self.commits = commits;
                Ok(())
            }
            Err(Failed) => {
                out.0.truncate(before);
                Err(Stop::Fault)
            }
        }
    }

    fn abort(&mut self, out: &mut Octets) -> Result<(), Stop>
        requires ready { IsReady B.View self.old }
        requires due { IsDue self.old command.Abort }
        ensures { IsStep B.View self.old self.new command.Abort out.old out.new result }
    {
        append(out, b"dropped\n")?;
        self.leaves.abort();
        self.inside = false;
        Ok(())
    }

    // A command that changes records or links.
    fn edit(&mut self, alloc: Global, command: Command, out: &mut Octets) -> Result<(), Stop>
        requires ready { IsReady B.View self.old }
        requires due { IsDue self.old command }
        requires edit { is_edit command ≡ true }
        ensures { IsStep B.View self.old self.new command out.old out.new result }
    {
        let refused = edit(alloc, &self.schema, &self.built, command, &mut self.leaves)?;
        append(out, edit_answer(refused))?;
        Ok(())
    }

    fn get(&mut self, alloc: Global, file: u16, key: &Value, out: &mut Octets) -> Result<(), Stop>
        requires ready { IsReady B.View self.old }
        requires due { IsDue self.old (command.Get file key.now) }
        ensures step { IsStep B.View self.old self.new (command.Get file key.now) out.old out.new
            result }
        ensures few_steps { TakesFewSteps B.View (command.Get file key.now) self.old self.new
            result }
    {
        let def = file_def(&self.schema, file);
        let node = file_node(&self.built, file);
        let Some(found) = find_values(alloc, def, node, key, &mut self.leaves)? else {
            append(out, b"none\n")?;
            return Ok(());
        };
        let line = record_line(alloc, def, key, &found.0)?;
        append(out, line.as_slice())?;
        Ok(())
    }

    // A `find` without `of`.
    fn find(&mut self, alloc: Global, find: &Find, out: &mut Octets) -> Result<(), Stop>
        requires ready { IsReady B.View self.old }
        requires due { IsDue self.old (command.Find find.now) }
        requires alone { find.now.of ≡ None }
        ensures step { IsStep B.View self.old self.new (command.Find find.now) out.old out.new
            result }
        ensures few_steps { TakesFewSteps B.View (command.Find find.now) self.old self.new result }
    {
        let def = file_def(&self.schema, find.file);
        let node = file_node(&self.built, find.file);
        let text = found_text(alloc, def, node, find, &mut self.leaves)?;
        append(out, text.as_slice())?;
        Ok(())
    }

    // A command that follows a link.
    fn answer(&mut self, alloc: Global, command: &Command, out: &mut Octets) -> Result<(), Stop>
        requires ready { IsReady B.View self.old }
        requires due { IsDue self.old command.now }
        requires follows { follows_link command.now ≡ true }
        ensures step { IsStep B.View self.old self.new command.now out.old out.new result }
        ensures few_steps { TakesFewSteps B.View command.now self.old self.new result }
    {
        let text = answer(alloc, &self.schema, &self.built, command, &mut self.leaves)?;
        append(out, text.as_slice())?;
        Ok(())
    }

    fn reorganize_file(&mut self, alloc: Global, file: u16, out: &mut Octets) -> Result<(), Stop>
        requires ready { IsReady B.View self.old }
        requires due { IsDue self.old (command.ReorganizeFile file) }
        ensures { IsStep B.View self.old self.new (command.ReorganizeFile file) out.old out.new
            result }
    {
        reorganize(
            alloc,
            &self.built.owners,
            usize::from(file),
            &mut self.leaves,
        )?;
        append(out, b"ok\n")?;
        Ok(())
    }

    // The files are defined first, and then the links.
    fn reorganize_link(&mut self, alloc: Global, link: u16, out: &mut Octets) -> Result<(), Stop>
        requires ready { IsReady B.View self.old }
        requires due { IsDue self.old (command.ReorganizeLink link) }
        ensures { IsStep B.View self.old self.new (command.ReorganizeLink link) out.old out.new
            result }
    {
        let definition = self.schema.files.0.len() + usize::from(link);
        reorganize(alloc, &self.built.owners, definition, &mut self.leaves)?;
        append(out, b"ok\n")?;
        Ok(())
    }

    /// Hears the script, as a device does.
    pub fn hear(&mut self, into: &mut [u8]) -> Result<usize, Failed>
        requires { 0 < length into.old }
        ensures hears { Hearing B.View (leaves_of self.old) (leaves_of self.new) into.new result }
        ensures same { IsSame B.View self.old self.new }
    {
        self.leaves.hear(into)
    }

    /// Says the first bytes of a piece, as a device does.
    pub fn say(&mut self, from: &[u8]) -> Result<usize, Failed>
        ensures says { Saying B.View (leaves_of self.old) (leaves_of self.new) from.now result }
        ensures same { IsSame B.View self.old self.new }
    {
        self.leaves.say(from)
    }

    /// The leaves as they stand.
    pub fn into_leaves(self) -> B
        ensures { result ≡ leaves_of self }
    {
        // All fields are named here: an engine with one more doesn't compile.
        let Engine {
            schema: _,
            built: _,
            leaves,
            inside: _,
            commits: _,
            stopped: _,
        } = self;
        leaves
    }
}

// Whether the command changes records or links.
fn is_edit(command: &Command) -> bool
    ensures { result ≡ is_edit command.now }
{
    matches!(
        command,
        Command::Insert(..)
            | Command::Update(..)
            | Command::Delete(..)
            | Command::Connect(..)
            | Command::Disconnect(..)
    )
}

// Whether the command makes the working maps the kept ones.
fn is_commit(command: &Command) -> bool
    ensures { result ≡ is_commit command.now }
{
    matches!(command, Command::Commit)
}

fn append(out: &mut Octets, bytes: &[u8]) -> Result<(), AllocError>
    ensures ok { OnOk result (out.new ≡ out.old ++ bytes.now) }
    ensures err { OnErr result (out.new ≡ out.old) }
{
    out.0.extend_from_slice(bytes)
}
