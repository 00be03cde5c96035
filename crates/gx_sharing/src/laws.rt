// Laws of the definitions.
ghost use Rattle.std.specs.Prelude.{◌≡◌, ℕ, List, length};
ghost use Rattle.gx_commands.specs.declared.command.Command.{Command};
ghost use Rattle.gx_model.specs.States.{State};
ghost use Rattle.gx_model.specs.Commands.{IsAnswer};
ghost use Rattle.gx_model.specs.Play.{start_at};
ghost use Rattle.gx_model.specs.Languages.{RunsIn};
ghost use Rattle.gx_model.specs.Runs.{Runs};
ghost use Rattle.gx_sharing.specs.Locks.{held};
ghost use Rattle.gx_sharing.specs.Sharing.{Sharing, share_start, played, outcome_of, ended_by};
ghost use Rattle.gx_sharing.specs.Turns.{Turn, Shares, ArePlayed, committed_of, effective_of, lines_of, answers_of, resting, IsHolder};
ghost use Rattle.gx_sharing.specs.Texts.{turns, IsShareText};
ghost use Rattle.gx_sharing.specs.Kept.{kept_of, IsClearOf};

use gx_schema::Schema;

/// Turns from a state on: the lines of the transactions that committed, one transaction after
/// another in the order of their commits, are a play from that state; the answer at each line is
/// that of its turn, and the kept states are those of the turns. It does nothing.
pub fn share_is_play(schema: &Schema)
    // Each of them has at its line the answer of its own turn.
    ensures each { (start : State) (list : List Turn) (final : Sharing) →
        length start.files ≡ length schema.now.files →
        length start.links ≡ length schema.now.links →
        Shares schema.now (share_start start) list final →
        ArePlayed schema.now (start_at start) (committed_of list) (resting final) }
    // So the text of all their answers is that of a play of their lines.
    ensures text { (start : State) (list : List Turn) (final : Sharing) →
        length start.files ≡ length schema.now.files →
        length start.links ≡ length schema.now.links →
        Shares schema.now (share_start start) list final →
        Runs schema.now (start_at start) (lines_of (committed_of list))
        (answers_of (committed_of list)) (resting final) }
{}

/// The same of these lines with those between them that were answered outside a transaction, each
/// where it stands: so what is read outside fits the same order. It does nothing.
pub fn reads_fit(schema: &Schema)
    // Each of them has at its line the answer of its own turn.
    ensures each { (start : State) (list : List Turn) (final : Sharing) →
        length start.files ≡ length schema.now.files →
        length start.links ≡ length schema.now.links →
        Shares schema.now (share_start start) list final →
        ArePlayed schema.now (start_at start) (effective_of list) (resting final) }
    // So the text of all their answers is that of a play of their lines.
    ensures text { (start : State) (list : List Turn) (final : Sharing) →
        length start.files ≡ length schema.now.files →
        length start.links ≡ length schema.now.links →
        Shares schema.now (share_start start) list final →
        Runs schema.now (start_at start) (lines_of (effective_of list))
        (answers_of (effective_of list)) (resting final) }
{}

/// The turns of lines are turns one after another. It does nothing.
pub fn lines_are_turns(schema: &Schema)
    ensures { (start final : Sharing) (lines : List (List ℕ)) (list : List Turn) →
        RunsIn (turns schema.now) start lines list final →
        Shares schema.now start list final }
{}

/// A shared script from a state on has one text at most. It does nothing.
pub fn one_share_text(schema: &Schema)
    ensures { (start : State) (script text other : List ℕ) →
        IsShareText schema.now start script text → IsShareText schema.now start script other →
        text ≡ other }
{}

/// The commands of a transaction that change something make all of its view. It does nothing.
pub fn kept_make_the_view(schema: &Schema)
    ensures { (s : State) (commands : List Command) →
        played schema.now s (kept_of commands) ≡ played schema.now s commands }
{}

/// A command answers on the changes of one transaction what it answers on those of another, where
/// neither locks anything exclusively that the command locks. It does nothing.
pub fn answered_on_others(schema: &Schema)
    ensures { (kept : State) (own others : List Command) (command : Command) (text : List ℕ) →
        length kept.files ≡ length schema.now.files →
        length kept.links ≡ length schema.now.links →
        IsClearOf schema.now command (held schema.now own) →
        IsClearOf schema.now command (held schema.now others) →
        IsAnswer schema.now (played schema.now kept others) command text →
        IsAnswer schema.now (played schema.now kept own) command text }
{}

/// The session by which a transaction is ended holds a lock that doesn't go with one that was
/// wanted. It does nothing.
pub fn holder_holds(schema: &Schema)
    ensures { (p : Sharing) (n : ℕ) (command : Command) (m : ℕ) →
        outcome_of schema.now p n command ≡ ended_by m → IsHolder schema.now p n command m }
{}
