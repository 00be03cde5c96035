// The engine that sessions share.
ghost use Rattle.std.specs.Prelude.{◌≡◌, ℕ, ◌++◌, ◌∷◌, [], Option, Some, None, Err, true, false, OnOk};
ghost use Rattle.gx_device.specs.Content.{Content};
ghost use Rattle.gx_commands.specs.Commands.{inside_after};
ghost use Rattle.gx_ports.specs.Stops.{is_fault};
ghost use Rattle.gx_model.specs.States.{State};
ghost use Rattle.gx_model.specs.Play.{Playing, after_command};
ghost use Rattle.gx_engine.specs.Steps.{IsReady, IsAt, IsDue, IsShortFor, schema_of, built_of, leaves_of, stop_of, is_open, is_commit};
ghost use Rattle.gx_sharing.specs.Sharing.{Sharing, Session, played, play_of, view_in, after_turn, answered};
ghost use Rattle.gx_sessions.specs.Standings.{AreKept, IsSession, IsWhole, IsAnswerable, commands_of, stands_in, is_within};
ghost use Rattle.gx_sessions.specs.Shared.{seeing, view_for, is_read, AreClear, IsShared, IsShortAmong, Carries, EndsCarry, LeavesTurn, IsCarriedFor};

use crate::session::{SessionState, Standing};
use crate::step::step;
use gx_commands::Command;
use gx_engine::Engine;
use gx_ports::{Leaves, Stop};
use gx_values::Octets;
use std::alloc::Global;

/// The engine that sessions share, and the one whose view it stands for, if any.
#[derive(Drop)]
pub(crate) struct SharedEngine<B: Leaves + Drop> {
    pub(crate) engine: Engine<B>,
    pub(crate) carried: Option<u8>,
}

impl<B: Leaves + Drop> SharedEngine<B> {
    /// It stands for no session.
    pub(crate) fn new(engine: Engine<B>) -> SharedEngine<B>
        ensures engine { result.engine ≡ engine }
        ensures carried { result.carried ≡ None }
    {
        SharedEngine {
            engine,
            carried: None,
        }
    }

    /// The engine as it stands.
    pub(crate) fn into_engine(self) -> Engine<B>
        ensures { result ≡ self.engine }
    {
        let SharedEngine { engine, carried: _ } = self;
        engine
    }

    /// It doesn't stand for this session any more.
    pub(crate) fn forget(&mut self, session: u8)
        ensures engine { self.new.engine ≡ self.old.engine }
        ensures forgot { self.new.carried ≡ Some session → ⊥ }
        ensures others { (n : ℕ) → self.new.carried ≡ Some n → self.old.carried ≡ Some n }
    {
        if self.stands_for(session) {
            self.carried = None;
        }
    }

    /// Carries out the command of a session on what this one sees, and appends its answer.
    pub(crate) fn carry_out(
        &mut self,
        alloc: Global,
        session: u8,
        state: &mut SessionState,
        command: Command,
        out: &mut Octets,
    ) -> Result<(), Stop>
        requires ready { IsReady B.View self.old.engine }
        requires going { stop_of self.old.engine ≡ None }
        requires whole { IsWhole (schema_of self.old.engine) state.old }
        requires own { self.old.carried ≡ Some session →
            is_open self.old.engine ≡ stands_in state.old.standing }
        requires due { IsAnswerable (schema_of self.old.engine) state.old command }
        ensures carried { (p : Sharing) → IsShared B.View p self.old.carried self.old.engine →
            IsSession (schema_of self.old.engine) (p.session session) state.old → OnOk result
            (IsCarriedFor B.View p session command (schema_of self.old.engine) self.new.carried
            self.new.engine state.new out.old out.new) }
        ensures full { (p : Sharing) → IsShared B.View p self.old.carried self.old.engine →
            IsSession (schema_of self.old.engine) (p.session session) state.old →
            result ≡ Err Stop.Full →
            IsShortAmong (schema_of self.old.engine) (built_of self.old.engine)
            (B.limit (leaves_of self.old.engine)) p
            (commands_of (p.session session) ++ command ∷ []) }
        ensures images { (p : Sharing) → IsShared B.View p self.old.carried self.old.engine →
            IsSession (schema_of self.old.engine) (p.session session) state.old →
            (start : Content) → B.calm (leaves_of self.old.engine) start →
            LeavesTurn B.View p (after_turn (schema_of self.old.engine) p session command answered)
            self.old.engine self.new.engine (is_fault result) }
        ensures ends { EndsCarry B.View command self.old.engine self.new.engine out.old out.new
            result }
        ensures whole { IsWhole (schema_of self.old.engine) state.new }
        ensures own { OnOk result ((self.new.carried ≡ Some session)
            × (is_open self.new.engine ≡ stands_in state.new.standing)) }
        ensures within { OnOk result (is_within state.new.standing
            ≡ inside_after (is_within state.old.standing) command) }
    {
        self.bring(alloc, session, state)?;
        state.follow(alloc, self.engine.schema(), &command)?;
        step(alloc, command, &mut self.engine, out)?;
        Ok(())
    }

    /// Answers a command that only reads on what the engine stands for, another session or none,
    /// and appends the answer. What is open there for no session is given up before. The engine
    /// stands for the same one afterwards.
    pub(crate) fn read(
        &mut self,
        alloc: Global,
        state: &mut SessionState,
        command: Command,
        out: &mut Octets,
    ) -> Result<(), Stop>
        requires ready { IsReady B.View self.old.engine }
        requires going { stop_of self.old.engine ≡ None }
        requires whole { IsWhole (schema_of self.old.engine) state.old }
        requires due { IsAnswerable (schema_of self.old.engine) state.old command }
        requires reads { is_read command ≡ true }
        ensures carried { (p : Sharing) (n : ℕ) →
            IsShared B.View p self.old.carried self.old.engine →
            IsSession (schema_of self.old.engine) (p.session n) state.old →
            (self.old.carried ≡ Some n → ⊥) →
            AreClear (schema_of self.old.engine) p n self.old.carried command → OnOk result
            (IsCarriedFor B.View p n command (schema_of self.old.engine) self.new.carried
            self.new.engine state.new out.old out.new) }
        ensures not_full { (p : Sharing) → IsShared B.View p self.old.carried self.old.engine →
            result ≡ Err Stop.Full → ⊥ }
        ensures ends { EndsCarry B.View command self.old.engine self.new.engine out.old out.new
            result }
        ensures whole { IsWhole (schema_of self.old.engine) state.new }
        ensures same { self.new.carried ≡ self.old.carried }
        ensures stays { OnOk result ((n : ℕ) → self.old.carried ≡ Some n →
            is_open self.new.engine ≡ is_open self.old.engine) }
        ensures within { OnOk result (is_within state.new.standing
            ≡ inside_after (is_within state.old.standing) command) }
    {
        self.give_up_stale(alloc)?;
        state.follow(alloc, self.engine.schema(), &command)?;
        step(alloc, command, &mut self.engine, out)?;
        Ok(())
    }

    // Gives up what is open for no session.
    fn give_up_stale(&mut self, alloc: Global) -> Result<(), Stop>
        requires ready { IsReady B.View self.old.engine }
        requires going { stop_of self.old.engine ≡ None }
        ensures stands { (p : Sharing) → IsShared B.View p self.old.carried self.old.engine →
            OnOk result (IsAt B.View
            (seeing p (view_for (schema_of self.old.engine) p self.old.carried))
            self.new.engine) }
        ensures not_full { (p : Sharing) → IsShared B.View p self.old.carried self.old.engine →
            result ≡ Err Stop.Full → ⊥ }
        ensures carries { Carries B.View self.old.engine self.new.engine result }
        ensures carried { self.new.carried ≡ self.old.carried }
        ensures stays { OnOk result ((n : ℕ) → self.old.carried ≡ Some n →
            is_open self.new.engine ≡ is_open self.old.engine) }
    {
        match self.carried {
            Some(_) => Ok(()),
            None => self.give_up(alloc),
        }
    }

    // Makes the engine stand for what a session sees. Where it doesn't, what is open there is given
    // up, and what is kept of the session's transaction is carried out again on the last kept
    // state.
    fn bring(&mut self, alloc: Global, session: u8, state: &SessionState) -> Result<(), Stop>
        requires ready { IsReady B.View self.old.engine }
        requires going { stop_of self.old.engine ≡ None }
        requires kept { AreKept (schema_of self.old.engine) state.now.kept.items }
        requires own { self.old.carried ≡ Some session →
            is_open self.old.engine ≡ stands_in state.now.standing }
        ensures brought { (p : Sharing) → IsShared B.View p self.old.carried self.old.engine →
            IsSession (schema_of self.old.engine) (p.session session) state.now → OnOk result
            (IsAt B.View (play_of (schema_of self.old.engine) p session) self.new.engine) }
        ensures own { OnOk result ((self.new.carried ≡ Some session)
            × (is_open self.new.engine ≡ stands_in state.now.standing)) }
        ensures full { (p : Sharing) → IsShared B.View p self.old.carried self.old.engine →
            IsSession (schema_of self.old.engine) (p.session session) state.now →
            result ≡ Err Stop.Full →
            IsShortAmong (schema_of self.old.engine) (built_of self.old.engine)
            (B.limit (leaves_of self.old.engine)) p state.now.kept.items }
        ensures carries { Carries B.View self.old.engine self.new.engine result }
    {
        if self.stands_for(session) {
            return Ok(());
        }
        self.carried = None;
        self.give_up(alloc)?;
        self.open(alloc, state)?;
        self.carried = Some(session);
        Ok(())
    }

    /// Whether the engine stands for what the session sees.
    pub(crate) fn stands_for(&self, session: u8) -> bool
        ensures yes { result ≡ true → self.now.carried ≡ Some session }
        ensures no { result ≡ false → self.now.carried ≡ Some session → ⊥ }
    {
        match self.carried {
            Some(carried) => carried == session,
            None => false,
        }
    }

    // Gives the open transaction up, if there is one.
    fn give_up(&mut self, alloc: Global) -> Result<(), Stop>
        requires ready { IsReady B.View self.old.engine }
        requires going { stop_of self.old.engine ≡ None }
        ensures given_up { (p : Sharing) (w : Option State) →
            IsAt B.View (seeing p w) self.old.engine →
            OnOk result (IsAt B.View (seeing p None) self.new.engine) }
        ensures shut { OnOk result (is_open self.new.engine ≡ false) }
        ensures not_full { (p : Sharing) (w : Option State) →
            IsAt B.View (seeing p w) self.old.engine → result ≡ Err Stop.Full → ⊥ }
        ensures carries { Carries B.View self.old.engine self.new.engine result }
        ensures carried { self.new.carried ≡ self.old.carried }
    {
        if !self.engine.inside() {
            return Ok(());
        }
        self.pass(alloc, Command::Abort)?;
        Ok(())
    }

    // Opens a transaction with what is kept of the session's, where that one is open.
    fn open(&mut self, alloc: Global, state: &SessionState) -> Result<(), Stop>
        requires ready { IsReady B.View self.old.engine }
        requires going { stop_of self.old.engine ≡ None }
        requires shut { is_open self.old.engine ≡ false }
        requires kept { AreKept (schema_of self.old.engine) state.now.kept.items }
        ensures opened { (p : Sharing) (s : Session) →
            IsAt B.View (seeing p None) self.old.engine →
            IsSession (schema_of self.old.engine) s state.now → OnOk result
            (IsAt B.View (seeing p (view_in (schema_of self.old.engine) p.kept s))
            self.new.engine) }
        ensures open { OnOk result
            (is_open self.new.engine ≡ stands_in state.now.standing) }
        ensures full { (p : Sharing) → IsAt B.View (seeing p None) self.old.engine →
            result ≡ Err Stop.Full →
            IsShortAmong (schema_of self.old.engine) (built_of self.old.engine)
            (B.limit (leaves_of self.old.engine)) p state.now.kept.items }
        ensures carries { Carries B.View self.old.engine self.new.engine result }
        ensures carried { self.new.carried ≡ self.old.carried }
    {
        match state.standing {
            Standing::Inside => {
                self.pass(alloc, Command::Begin)?;
                self.carry_again(alloc, &state.kept)?;
                Ok(())
            }
            Standing::Outside => Ok(()),
            Standing::Ended => Ok(()),
        }
    }

    // Carries out kept commands again in the open transaction.
    fn carry_again(&mut self, alloc: Global, kept: &[Command]) -> Result<(), Stop>
        requires ready { IsReady B.View self.old.engine }
        requires going { stop_of self.old.engine ≡ None }
        requires inside { is_open self.old.engine ≡ true }
        requires kept { AreKept (schema_of self.old.engine) kept.now }
        ensures again { (p : Sharing) → IsAt B.View (seeing p (Some p.kept)) self.old.engine →
            OnOk result (IsAt B.View
            (seeing p (Some (played (schema_of self.old.engine) p.kept kept.now)))
            self.new.engine) }
        ensures full { (p : Sharing) → IsAt B.View (seeing p (Some p.kept)) self.old.engine →
            result ≡ Err Stop.Full →
            IsShortAmong (schema_of self.old.engine) (built_of self.old.engine)
            (B.limit (leaves_of self.old.engine)) p kept.now }
        ensures inside { OnOk result (is_open self.new.engine ≡ true) }
        ensures carries { Carries B.View self.old.engine self.new.engine result }
        ensures carried { self.new.carried ≡ self.old.carried }
    {
        for i in 0..kept.len() {
            let command = kept[i].copy(alloc)?;
            self.pass(alloc, command)?;
        }
        Ok(())
    }

    // Carries out a command, and says nothing of its answer.
    fn pass(&mut self, alloc: Global, command: Command) -> Result<(), Stop>
        requires ready { IsReady B.View self.old.engine }
        requires going { stop_of self.old.engine ≡ None }
        requires due { IsDue self.old.engine command }
        requires quiet { is_commit command ≡ false }
        ensures passed { (p : Playing) → IsAt B.View p self.old.engine → OnOk result
            (IsAt B.View (after_command (schema_of self.old.engine) p command) self.new.engine) }
        ensures full { (p : Playing) → IsAt B.View p self.old.engine → result ≡ Err Stop.Full →
            IsShortFor B.View self.old.engine p command }
        ensures inside { OnOk result
            (is_open self.new.engine ≡ inside_after (is_open self.old.engine) command) }
        ensures carries { Carries B.View self.old.engine self.new.engine result }
        ensures carried { self.new.carried ≡ self.old.carried }
    {
        let mut unsaid = Octets(Vec::new(alloc));
        step(alloc, command, &mut self.engine, &mut unsaid)
    }
}
