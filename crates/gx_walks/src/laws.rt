// A law of paths, carried by a function that does nothing.
ghost use Rattle.std.specs.Prelude.{◌≡◌, List, filter};
ghost use Rattle.gx_commands.specs.declared.command.Find.{Find};
ghost use Rattle.gx_commands.specs.declared.path.Leg.{Leg};
ghost use Rattle.gx_model.specs.States.{State};
ghost use Rattle.gx_model.specs.Paths.{chosen, after_legs, last_find};
ghost use Rattle.gx_walks.specs.Walks.{comes_back};

/// What a path gives is those records of its last file from which the walk back ends at a record of
/// its first. It does nothing.
pub fn either_direction()
    ensures { (s : State) (first : Find) (legs : List Leg) →
        after_legs s legs (chosen s first)
        ≡ filter (comes_back s first legs) (chosen s (last_find first legs)) }
{}
