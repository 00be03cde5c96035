// One session: where it stands, what of its transaction is kept, and the locks that this holds.
ghost use Rattle.std.specs.Prelude.{◌≡◌, ◌+◌, ◌++◌, List, [], ◌∷◌, length, true, IfOk, OnOk, OnErr};
ghost use Rattle.gx_schema.specs.declared.schema.Schema.{Schema as TheSchema};
ghost use Rattle.gx_commands.specs.declared.command.Command.{Command as TheCommand};
ghost use Rattle.gx_commands.specs.Commands.{IsOfSchema, inside_after};
ghost use Rattle.gx_sharing.specs.Kept.{is_kept, kept_of, IsClearOf};
ghost use Rattle.gx_sharing.specs.Sharing.{Session, outside, inside, holds, session_after};
ghost use Rattle.gx_sessions.specs.Standings.{stands_in, is_within, standing_after, bare, IsSession, IsWhole, AreStronger, AreFree};

use crate::locks::{Lock, lock_at};
use gx_commands::Command;
use gx_schema::Schema;
use gx_values::NoMemory;
use std::alloc::Global;

/// Where a session stands.
#[derive(Clone, Copy, Debug)]
pub(crate) enum Standing {
    /// It has no open transaction.
    Outside,
    /// Its transaction is open.
    Inside,
    /// Its transaction was ended; its lines are skipped up to the next `commit` or `abort`.
    Ended,
}

/// A session: where it stands, the commands of its open transaction that change something, and the
/// lock that it holds on each file and then on each link.
#[derive(Debug, Drop)]
pub(crate) struct SessionState {
    pub(crate) standing: Standing,
    pub(crate) kept: Vec<Command>,
    pub(crate) locks: Vec<Lock>,
}

impl SessionState {
    /// A session outside, over so many files and links.
    pub(crate) fn new(alloc: Global, places: usize) -> Result<SessionState, NoMemory>
        ensures outside { (schema : TheSchema) → IfOk result (IsSession schema outside) }
        ensures whole { (schema : TheSchema) →
            places ≡ length schema.files + length schema.links → IfOk result (IsWhole schema) }
    {
        let mut locks = Vec::with_capacity(alloc, places)?;
        for i in 0..places {
            locks.push(Lock::Free)?;
        }
        Ok(SessionState {
            standing: Standing::Outside,
            kept: Vec::new(alloc),
            locks,
        })
    }

    /// Stands so, with nothing kept and no lock.
    pub(crate) fn stand(&mut self, standing: Standing)
        ensures stands { (schema : TheSchema) → IsSession schema (bare standing) self.new }
        ensures whole { (schema : TheSchema) → IsWhole schema self.old → IsWhole schema self.new }
        ensures standing { self.new.standing ≡ standing }
    {
        self.standing = standing;
        self.kept.clear();
        free_all(&mut self.locks);
    }

    /// Goes on by a command of its own that was carried out or skipped. `NoMemory`: there was none
    /// for what of it is kept.
    pub(crate) fn follow(
        &mut self,
        alloc: Global,
        schema: &Schema,
        command: &Command,
    ) -> Result<(), NoMemory>
        requires whole { IsWhole schema.now self.old }
        requires of_schema { IsOfSchema schema.now command.now }
        ensures followed { (s : Session) → IsSession schema.now s self.old →
            OnOk result (IsSession schema.now (session_after s command.now) self.new) }
        ensures whole { IsWhole schema.now self.new }
        ensures inside { OnOk result
            (stands_in self.new.standing
            ≡ inside_after (stands_in self.old.standing) command.now) }
        ensures within { OnOk result
            (is_within self.new.standing
            ≡ inside_after (is_within self.old.standing) command.now) }
    {
        match after_control(command) {
            Some(standing) => {
                self.stand(standing);
                Ok(())
            }
            None => match self.standing {
                Standing::Inside => self.go_on(alloc, schema, command),
                Standing::Outside | Standing::Ended => Ok(()),
            },
        }
    }

    /// Whether no lock that it holds conflicts with one that the command takes.
    pub(crate) fn goes_with(&self, schema: &Schema, command: &Command) -> bool
        requires whole { IsWhole schema.now self.now }
        requires of_schema { IsOfSchema schema.now command.now }
        ensures { (s : Session) → IsSession schema.now s self.now → result ≡ true →
            IsClearOf schema.now command.now (holds schema.now s) }
    {
        for place in 0..self.locks.len() {
            if self.locks[place].conflicts(lock_at(schema, command, place)) {
                return false;
            }
        }
        true
    }

    // Goes on inside by a command, which is kept where it changes something.
    fn go_on(&mut self, alloc: Global, schema: &Schema, command: &Command) -> Result<(), NoMemory>
        requires whole { IsWhole schema.now self.old }
        requires of_schema { IsOfSchema schema.now command.now }
        ensures went { (cs : List TheCommand) → IsSession schema.now (inside cs) self.old →
            OnOk result (IsSession schema.now (inside (cs ++ command.now ∷ [])) self.new) }
        ensures whole { IsWhole schema.now self.new }
        ensures standing { self.new.standing ≡ self.old.standing }
    {
        keep(alloc, command, &mut self.kept)?;
        take_locks(schema, command, &mut self.locks);
        Ok(())
    }
}

/// Where a session stands after a command that begins a transaction or ends it.
pub(crate) fn after_control(command: &Command) -> Option<Standing>
    ensures { result ≡ standing_after command.now }
{
    match command {
        Command::Begin => Some(Standing::Inside),
        Command::Commit => Some(Standing::Outside),
        Command::Abort => Some(Standing::Outside),
        _ => None,
    }
}

// Keeps a copy of the command where it changes something.
fn keep(alloc: Global, command: &Command, kept: &mut Vec<Command>) -> Result<(), NoMemory>
    ensures ok { OnOk result (kept.new.items ≡ kept.old.items ++ kept_of (command.now ∷ [])) }
    ensures err { OnErr result (kept.new.items ≡ kept.old.items) }
{
    if is_kept(command) {
        let copy = command.copy(alloc)?;
        kept.push(copy)?;
    }
    Ok(())
}

// Whether the command changes records or links, or lays leaves out anew.
fn is_kept(command: &Command) -> bool
    ensures { result ≡ is_kept command.now }
{
    matches!(
        command,
        Command::Insert(..)
            | Command::Update(..)
            | Command::Delete(..)
            | Command::Connect(..)
            | Command::Disconnect(..)
            | Command::ReorganizeFile(_)
            | Command::ReorganizeLink(_)
    )
}

// Adds the locks of a command to those that are held.
fn take_locks(schema: &Schema, command: &Command, locks: &mut [Lock])
    requires places { length locks.old ≡ length schema.now.files + length schema.now.links }
    requires of_schema { IsOfSchema schema.now command.now }
    ensures { AreStronger schema.now command.now locks.old locks.new }
{
    for place in 0..locks.len() {
        let held = locks[place];
        locks[place] = held.stronger(lock_at(schema, command, place));
    }
}

fn free_all(locks: &mut [Lock])
    ensures { AreFree locks.new }
{
    for lock in locks.iter_mut() {
        *lock = Lock::Free;
    }
}
