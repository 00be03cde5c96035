// Laws of the workload.
ghost use Rattle.std.specs.Prelude.{ℕ, ◌≤◌, ◌<◌, length};
ghost use Rattle.std.specs.List.{AllByRecursion};
ghost use Rattle.gx_commands.specs.Lines.{script_lines};
ghost use Rattle.gx_commands.specs.declared.lines.TheConstants.{LONGEST_LINE, LONGEST_SCRIPT};
ghost use Rattle.gx_model.specs.States.{State};
ghost use Rattle.gx_work.specs.Workload.{work_script};
ghost use Rattle.gx_work.specs.Laws.{PlaysToEnd, MeansCommands};

/// The script of at most 10,000 records means the commands of the workload, and plays from any
/// state to a good end. It does nothing.
pub fn script_plays()
    ensures plays { (n : ℕ) (start : State) → n ≤ 10000 → PlaysToEnd n start }
    ensures means { (n : ℕ) → n ≤ 10000 → MeansCommands n }
{}

/// The script and its lines are within the limits of scripts. It does nothing.
pub fn script_is_short()
    ensures script { (n : ℕ) → n ≤ 10000 → length (work_script n) < LONGEST_SCRIPT }
    ensures lines { (n : ℕ) → n ≤ 10000 →
        AllByRecursion (λ line. length line < LONGEST_LINE) (script_lines (work_script n)).lines }
{}
