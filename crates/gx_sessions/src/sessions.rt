// Sessions that take turns on one engine.
ghost use Rattle.std.specs.Prelude.{◌≡◌, ℕ, ◌<◌, ◌++◌, ◌∷◌, [], length, Some, None, Err, true, false, IfOk, IfErr, OnOk, OnErr};
ghost use Rattle.std.specs.Option.{option_map};
ghost use Rattle.gx_device.specs.Content.{Content};
ghost use Rattle.gx_ports.specs.Stops.{is_fault};
ghost use Rattle.gx_ports.specs.Calls.{Hearing, Saying};
ghost use Rattle.gx_model.specs.States.{State};
ghost use Rattle.gx_model.specs.Play.{start_at};
ghost use Rattle.gx_sharing.specs.Sharing.{outside};
ghost use Rattle.gx_sessions.specs.Standings.{AreSessions, AreWhole};
ghost use Rattle.gx_sessions.specs.Shared.{is_read};
ghost use Rattle.gx_sessions.specs.Turns.{answer_at_once};

use crate::holder::holder;
use crate::locks::places;
use crate::session::{SessionState, Standing, after_control};
use crate::shared::SharedEngine;
use gx_commands::Command;
use gx_device::Failed;
use gx_engine::{Engine, StepStop};
use gx_ports::{Leaves, Stop};
use gx_schema::Schema;
use gx_values::{NoMemory, Octets};
use std::alloc::{AllocError, Global};

/// How the turn of a session comes out.
#[derive(Clone, Copy, Debug, PartialEq, Eq)]
pub enum Turn {
    /// It was answered.
    Answer,
    /// It was skipped: the session's transaction was ended in an earlier turn.
    Skipped,
    /// It ended the session's transaction: this session, from 1 to 8, holds a lock on a file or a
    /// link that the command can't go with.
    Ended(u8),
}

/// Eight sessions, numbered from 1, that take turns on one engine. What a session sees in an open
/// transaction is the last kept state, followed by its own changes since `begin`.
#[derive(Drop)]
pub struct Sessions<B: Leaves + Drop> {
    shared: SharedEngine<B>,
    states: Vec<SessionState>,
    stopped: Option<Stop>,
}

impl<B: Leaves + Drop> Sessions<B> {
    ghost use Rattle.gx_engine.specs.Steps.{IsReady as IsEngineReady, IsAt, built_of, is_open, is_fault_now, stop_of as engine_stop};
    ghost use Rattle.gx_commands.specs.Commands.{IsOfSchema, place_reason, inside_after};
    ghost use Rattle.gx_sharing.specs.Kept.{IsClearOf};
    ghost use Rattle.gx_sharing.specs.Sharing.{Sharing, share_start, is_in, holds, outcome_of, after_turn, answered, with_session, session_after};
    ghost use Rattle.gx_sessions.specs.Standings.{commands_of, stands_in, is_within, bare};
    ghost use Rattle.gx_sessions.specs.Shared.{AreClear, IsShortAmong, IsShortFor, LeavesTurn};
    ghost use Rattle.gx_sessions.specs.Turns.{engine_of, schema_of, leaves_of, stop_of, standing_at, is_in_at, IsNumber, MovesTo, IsReady, IsDue, AreShared, turn_of, IsIdle, ComesOut, IsTurned, EndsTurn, EndsTaken, RestsOn, IsSame, rests, without_turn};

    /// Sessions that are all outside, over an engine without an open transaction and without a
    /// stop. `NoMemory`: there was none for them; the engine is given back.
    pub fn start(alloc: Global, engine: Engine<B>) -> Result<Sessions<B>, (Engine<B>, NoMemory)>
        requires ready { IsEngineReady B.View engine }
        requires shut { is_open engine ≡ false }
        requires going { engine_stop engine ≡ None }
        ensures starts { IfOk result (λ sessions. engine_of sessions ≡ engine) }
        ensures ready { IfOk result (IsReady B.View) }
        ensures no_stop { IfOk result (λ sessions. stop_of sessions ≡ None) }
        ensures stands { (s : State) → IsAt B.View (start_at s) engine →
            IfOk result (AreShared B.View (share_start s)) }
        ensures outside { IfOk result (λ sessions. (n : ℕ) → IsNumber n →
            is_in_at sessions n ≡ false) }
        ensures given_back { IfErr result (λ given. given.0 ≡ engine) }
    {
        match all_outside(alloc, engine.schema()) {
            Ok(states) => Ok(Sessions {
                shared: SharedEngine::new(engine),
                states,
                stopped: None,
            }),
            Err(NoMemory) => Err((engine, NoMemory)),
        }
    }

    /// The schema.
    pub fn schema(&self) -> &Schema
        ensures { result.now ≡ schema_of self.now }
    {
        self.shared.engine.schema()
    }

    /// Whether the last `begin`, `commit` or `abort` of the session, carried out or skipped, is a
    /// `begin`.
    pub fn inside(&self, session: u8) -> bool
        requires numbered { IsNumber session }
        requires ready { IsReady B.View self.now }
        ensures inside { result ≡ is_in_at self.now session }
        ensures is { (p : Sharing) → AreShared B.View p self.now →
            result ≡ is_in (p.session session) }
    {
        match self.states[usize::from(session) - 1].standing {
            Standing::Outside => false,
            Standing::Inside | Standing::Ended => true,
        }
    }

    /// Plays the turn of a session, from 1 to 8, with a command of the schema that may stand where
    /// the session is inside or outside. `Answer`: the answer of the command on what the session
    /// sees was appended. `Skipped` and `Ended`: nothing was appended, no leaf was reached, and
    /// after `Ended` nothing of the transaction is left.
    ///
    /// `Now` gives this call up and is kept: `out` is as before, and each later call answers
    /// `Stopped` with it and does nothing. Where it isn't `Now(Fault)`, the state of the last
    /// commit stays. `Now(Fault)`: the count of faults rose; with any other answer it stays.
    /// `Now(Full)`: the turn isn't skipped or ended, and the pages may be too few for one of the
    /// commands of the session's transaction since `begin`, this one with them, which are carried
    /// out in order on the last kept state.
    /// `Now(Damaged)`: the leaves stood for no state, which is said of block 0 where the stored
    /// form of each is whole. `Now(NoMemory)`: there was no memory.
    ///
    /// `Begin`, `Abort` and a line without a command reach no leaf, whatever the answer is. Each
    /// command but `Commit` leaves what was last committed as it is.
    pub fn turn(
        &mut self,
        alloc: Global,
        session: u8,
        command: Command,
        out: &mut Octets,
    ) -> Result<Turn, StepStop>
        requires ready { IsReady B.View self.old }
        requires numbered { IsNumber session }
        requires due { IsDue self.old session command }
        ensures turned { (p : Sharing) → AreShared B.View p self.old → IfOk result
            (λ turn. IsTurned B.View p session command turn self.old self.new out.old out.new) }
        ensures full { (p : Sharing) → AreShared B.View p self.old →
            result ≡ Err (StepStop.Now Stop.Full) →
            IsShortFor (schema_of self.old) (built_of (engine_of self.old))
            (B.limit (leaves_of self.old)) p session command }
        ensures images { (p : Sharing) → AreShared B.View p self.old → (start : Content) →
            B.calm (leaves_of self.old) start →
            LeavesTurn B.View p (after_turn (schema_of self.old) p session command
            (outcome_of (schema_of self.old) p session command)) (engine_of self.old)
            (engine_of self.new) (is_fault_now (without_turn result)) }
        ensures ends { EndsTurn B.View command self.old self.new out.old out.new result }
        ensures moves { OnOk result (MovesTo self.old self.new session
            (inside_after (is_in_at self.old session) command)) }
    {
        if let Some(stop) = self.stopped {
            return Err(StepStop::Stopped(stop));
        }
        let turn = self.outcome(session, &command);
        match self.carry(alloc, session, command, turn, out) {
            Ok(()) => Ok(turn),
            Err(stop) => {
                self.stopped = Some(stop);
                Err(StepStop::Now(stop))
            }
        }
    }

    // How the turn comes out, where nothing stops it.
    fn outcome(&self, session: u8, command: &Command) -> Turn
        requires ready { IsReady B.View self.now }
        requires numbered { IsNumber session }
        requires due { IsDue self.now session command.now }
        ensures outcome { (p : Sharing) → AreShared B.View p self.now →
            result ≡ turn_of (outcome_of (schema_of self.now) p session command.now) }
        ensures allowed { result ≡ Turn.Answer →
            place_reason (stands_in (standing_at self.now session)) command.now ≡ None }
        ensures ended { (m : ℕ) → result ≡ Turn.Ended m →
            inside_after (is_in_at self.now session) command.now ≡ true }
    {
        match self.states[usize::from(session) - 1].standing {
            Standing::Outside => Turn::Answer,
            Standing::Inside => match holder(self.schema(), &self.states, session, command) {
                None => Turn::Answer,
                Some(holder) => Turn::Ended(holder),
            },
            Standing::Ended => match command {
                Command::Nothing => Turn::Answer,
                _ => Turn::Skipped,
            },
        }
    }

    // Carries out a turn that comes out so.
    fn carry(
        &mut self,
        alloc: Global,
        session: u8,
        command: Command,
        turn: Turn,
        out: &mut Octets,
    ) -> Result<(), Stop>
        requires ready { IsReady B.View self.old }
        requires going { stop_of self.old ≡ None }
        requires numbered { IsNumber session }
        requires due { IsDue self.old session command }
        requires turn { (p : Sharing) → AreShared B.View p self.old →
            turn ≡ turn_of (outcome_of (schema_of self.old) p session command) }
        requires allowed { turn ≡ Turn.Answer →
            place_reason (stands_in (standing_at self.old session)) command ≡ None }
        requires ended { (m : ℕ) → turn ≡ Turn.Ended m →
            inside_after (is_in_at self.old session) command ≡ true }
        ensures comes { (p : Sharing) → AreShared B.View p self.old → OnOk result
            (ComesOut B.View p session command (outcome_of (schema_of self.old) p session command)
            self.old self.new out.old out.new) }
        ensures full { (p : Sharing) → AreShared B.View p self.old → result ≡ Err Stop.Full →
            IsShortFor (schema_of self.old) (built_of (engine_of self.old))
            (B.limit (leaves_of self.old)) p session command }
        ensures images { (p : Sharing) → AreShared B.View p self.old → (start : Content) →
            B.calm (leaves_of self.old) start →
            LeavesTurn B.View p (after_turn (schema_of self.old) p session command
            (outcome_of (schema_of self.old) p session command)) (engine_of self.old)
            (engine_of self.new) (is_fault result) }
        ensures ends { EndsTaken B.View command self.old self.new out.old out.new result }
        ensures moves { OnOk result (MovesTo self.old self.new session
            (inside_after (is_in_at self.old session) command)) }
        ensures rests { rests command turn ≡ true → engine_of self.new ≡ engine_of self.old }
    {
        match turn {
            Turn::Answer => self.answer(alloc, session, command, out),
            Turn::Skipped => {
                self.settle(session, &command);
                Ok(())
            }
            Turn::Ended(_) => {
                self.stand(session, Standing::Ended);
                Ok(())
            }
        }
    }

    // Answers the command of a session on what this one sees.
    fn answer(
        &mut self,
        alloc: Global,
        session: u8,
        command: Command,
        out: &mut Octets,
    ) -> Result<(), Stop>
        requires ready { IsReady B.View self.old }
        requires going { stop_of self.old ≡ None }
        requires numbered { IsNumber session }
        requires due { IsDue self.old session command }
        requires allowed { place_reason (stands_in (standing_at self.old session)) command ≡ None }
        ensures comes { (p : Sharing) → AreShared B.View p self.old → OnOk result
            (ComesOut B.View p session command answered self.old self.new out.old out.new) }
        ensures full { (p : Sharing) → AreShared B.View p self.old → result ≡ Err Stop.Full →
            IsShortAmong (schema_of self.old) (built_of (engine_of self.old))
            (B.limit (leaves_of self.old)) p (commands_of (p.session session) ++ command ∷ []) }
        ensures images { (p : Sharing) → AreShared B.View p self.old → (start : Content) →
            B.calm (leaves_of self.old) start →
            LeavesTurn B.View p (after_turn (schema_of self.old) p session command answered)
            (engine_of self.old) (engine_of self.new) (is_fault result) }
        ensures ends { EndsTaken B.View command self.old self.new out.old out.new result }
        ensures moves { OnOk result (MovesTo self.old self.new session
            (inside_after (is_in_at self.old session) command)) }
        ensures rests { rests command Turn.Answer ≡ true →
            engine_of self.new ≡ engine_of self.old }
    {
        match answer_at_once(&command) {
            Some(text) => {
                self.pass(session, &command, text, out)?;
                Ok(())
            }
            None => {
                let as_it_stands = self.answers_as_it_stands(session, &command);
                let state = &mut self.states[usize::from(session) - 1];
                if as_it_stands {
                    self.shared.read(alloc, state, command, out)
                } else {
                    self.shared.carry_out(alloc, session, state, command, out)
                }
            }
        }
    }

    // Whether the command may be answered as the engine stands, for another session or for none: it
    // reads, and neither that session nor this one has locked exclusively what it locks.
    fn answers_as_it_stands(&self, session: u8, command: &Command) -> bool
        requires ready { IsReady B.View self.now }
        requires of_schema { IsOfSchema (schema_of self.now) command.now }
        ensures reads { result ≡ true → is_read command.now ≡ true }
        ensures other { result ≡ true → self.now.shared.carried ≡ Some session → ⊥ }
        ensures clear { result ≡ true → (p : Sharing) →
            AreSessions (schema_of self.now) p.session self.now.states.items →
            AreClear (schema_of self.now) p session self.now.shared.carried command.now }
    {
        is_read(command)
            && !self.shared.stands_for(session)
            && self.goes_with(session, command)
            && self.goes_with_carried(command)
    }

    // Whether the session for which the engine stands, if any, holds no lock that conflicts with
    // one that the command takes.
    fn goes_with_carried(&self, command: &Command) -> bool
        requires ready { IsReady B.View self.now }
        requires of_schema { IsOfSchema (schema_of self.now) command.now }
        ensures { (p : Sharing) (n : ℕ) →
            AreSessions (schema_of self.now) p.session self.now.states.items →
            result ≡ true → self.now.shared.carried ≡ Some n →
            IsClearOf (schema_of self.now) command.now
            (holds (schema_of self.now) (p.session n)) }
    {
        match self.shared.carried {
            Some(other) => self.goes_with(other, command),
            None => true,
        }
    }

    // Whether the session is one of the eight and holds no lock that conflicts with one that the
    // command takes.
    fn goes_with(&self, session: u8, command: &Command) -> bool
        requires ready { IsReady B.View self.now }
        requires of_schema { IsOfSchema (schema_of self.now) command.now }
        ensures { (p : Sharing) →
            AreSessions (schema_of self.now) p.session self.now.states.items →
            result ≡ true →
            IsClearOf (schema_of self.now) command.now
            (holds (schema_of self.now) (p.session session)) }
    {
        if session == 0 || session > 8 {
            return false;
        }
        self.states[usize::from(session) - 1].goes_with(self.schema(), command)
    }

    // Says the answer of a command that reaches no leaf.
    fn pass(
        &mut self,
        session: u8,
        command: &Command,
        text: &[u8],
        out: &mut Octets,
    ) -> Result<(), AllocError>
        requires ready { IsReady B.View self.old }
        requires numbered { IsNumber session }
        requires text { answer_at_once command.now ≡ Some text.now }
        ensures comes { (p : Sharing) → AreShared B.View p self.old → OnOk result
            (ComesOut B.View p session command.now answered self.old self.new out.old out.new) }
        ensures rest { RestsOn B.View self.old self.new }
        ensures unsaid { OnErr result (out.new ≡ out.old) }
        ensures moves { OnOk result (MovesTo self.old self.new session
            (inside_after (is_in_at self.old session) command.now)) }
    {
        append(out, text)?;
        self.settle(session, command);
        Ok(())
    }

    // The session goes on by a command of its own that changes nothing.
    fn settle(&mut self, session: u8, command: &Command)
        requires ready { IsReady B.View self.old }
        requires numbered { IsNumber session }
        ensures settled { (p : Sharing) → AreShared B.View p self.old →
            IsIdle (p.session session) command.now →
            AreShared B.View (record p {
              session = with_session p.session session
                  (session_after (p.session session) command.now);
            }) self.new }
        ensures rest { RestsOn B.View self.old self.new }
        ensures moves { MovesTo self.old self.new session
            (inside_after (is_in_at self.old session) command.now) }
    {
        if let Some(standing) = after_control(command) {
            self.stand(session, standing);
        }
    }

    // The session stands so, and nothing of an earlier transaction is left.
    fn stand(&mut self, session: u8, standing: Standing)
        requires ready { IsReady B.View self.old }
        requires numbered { IsNumber session }
        ensures stands { (p : Sharing) → AreShared B.View p self.old →
            AreShared B.View (record p { session = with_session p.session session (bare standing) })
            self.new }
        ensures rest { RestsOn B.View self.old self.new }
        ensures moves { MovesTo self.old self.new session (is_within standing) }
    {
        self.states[usize::from(session) - 1].stand(standing);
        self.shared.forget(session);
    }

    /// Hears the script, as a device does.
    pub fn hear(&mut self, into: &mut [u8]) -> Result<usize, Failed>
        requires { 0 < length into.old }
        ensures hears { Hearing B.View (leaves_of self.old) (leaves_of self.new) into.new result }
        ensures same { IsSame B.View self.old self.new }
    {
        self.shared.engine.hear(into)
    }

    /// Says the first bytes of a piece, as a device does.
    pub fn say(&mut self, from: &[u8]) -> Result<usize, Failed>
        ensures says { Saying B.View (leaves_of self.old) (leaves_of self.new) from.now result }
        ensures same { IsSame B.View self.old self.new }
    {
        self.shared.engine.say(from)
    }

    /// The engine as it stands.
    pub fn into_engine(self) -> Engine<B>
        ensures { result ≡ engine_of self }
    {
        self.shared.into_engine()
    }
}

// Eight sessions that are all outside.
fn all_outside(alloc: Global, schema: &Schema) -> Result<Vec<SessionState>, NoMemory>
    ensures whole { IfOk result (λ states. AreWhole schema.now states.items) }
    ensures outside { IfOk result (λ states.
        AreSessions schema.now (λ n. outside) states.items) }
{
    let mut states = Vec::with_capacity(alloc, 8)?;
    for _ in 0..8u8 {
        states.push(SessionState::new(alloc, places(schema))?)?;
    }
    Ok(states)
}

// Whether the command only reads.
fn is_read(command: &Command) -> bool
    ensures { result ≡ is_read command.now }
{
    matches!(
        command,
        Command::Get(..) | Command::Members(..) | Command::Owner(..) | Command::Find(_)
    )
}

// The answer of a command that reaches no leaf.
fn answer_at_once(command: &Command) -> Option<&'static [u8]>
    ensures { option_map (λ text. text.now) result ≡ answer_at_once command.now }
{
    match command {
        Command::Begin => Some(b"begun\n"),
        Command::Abort => Some(b"dropped\n"),
        Command::Nothing => Some(b""),
        _ => None,
    }
}

fn append(out: &mut Octets, bytes: &[u8]) -> Result<(), AllocError>
    ensures ok { OnOk result (out.new ≡ out.old ++ bytes.now) }
    ensures err { OnErr result (out.new ≡ out.old) }
{
    out.0.extend_from_slice(bytes)
}
