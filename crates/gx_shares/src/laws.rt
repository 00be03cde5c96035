// A law of commits of turns that were told of.
ghost use Rattle.std.specs.Prelude.{List, ℕ, Option};
ghost use Rattle.gx_schema.specs.declared.schema.Schema.{Schema};
ghost use Rattle.gx_commands.specs.Lines.{script_lines};
ghost use Rattle.gx_ports.specs.LeafMaps.{Limits};
ghost use Rattle.gx_equation.specs.Trees.{DefinitionTree};
ghost use Rattle.gx_model.specs.States.{State};
ghost use Rattle.gx_sharing.specs.Sharing.{Sharing, share_start};
ghost use Rattle.gx_play.specs.Player.{MayBeSaid};
ghost use Rattle.gx_shares.specs.Player.{share_play};
ghost use Rattle.gx_shares.specs.Acknowledged.{KeepsAckedTurns};

/// Whatever may be said of the play of a script of turns at some moment, with a front of the line
/// of its end or without one: the sessions stand after all commits that were told of, and after one
/// more at most. It does nothing.
pub fn acked_turns_are_kept()
    ensures { (schema : Schema) (ds : List DefinitionTree) (limit : Option Limits) (start : State)
        (script told : List ℕ) (m : Sharing)
        → MayBeSaid (share_play schema ds limit start script) told m
        → KeepsAckedTurns schema (share_start start) (script_lines script).lines m told }
{}
