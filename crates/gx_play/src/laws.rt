// A law of commits that were told of.
ghost use Rattle.std.specs.Prelude.{[], List, ℕ, Option};
ghost use Rattle.gx_schema.specs.declared.schema.Schema.{Schema};
ghost use Rattle.gx_commands.specs.Lines.{script_lines};
ghost use Rattle.gx_ports.specs.LeafMaps.{Limits};
ghost use Rattle.gx_equation.specs.Trees.{DefinitionTree};
ghost use Rattle.gx_model.specs.States.{State};
ghost use Rattle.gx_model.specs.Play.{Playing, start_at};
ghost use Rattle.gx_play.specs.Player.{MayBeSaid, line_play};
ghost use Rattle.gx_play.specs.Acknowledged.{KeepsAcked};

/// Whatever may be said of a script's play at some moment, with a front of the line of its end or
/// without one: the play stands after all commits that were told of, and after one more at most. It
/// does nothing.
pub fn acked_commits_are_kept()
    ensures { (schema : Schema) (ds : List DefinitionTree) (limit : Option Limits) (start : State)
        (script told : List ℕ) (m : Playing)
        → MayBeSaid (line_play schema ds limit start script) told m
        → KeepsAcked schema (start_at start) (script_lines script).lines m [] told }
{}
