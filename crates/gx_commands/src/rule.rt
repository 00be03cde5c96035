// The transaction rule.
ghost use Rattle.std.specs.Prelude.{◌≡◌};
ghost use Rattle.std.specs.Result.{result_err};
ghost use Rattle.gx_commands.specs.Commands.{place_reason};

use crate::command::{Command, LineWhy};

/// Whether the command may stand where it does, inside a transaction or outside: `begin` stands
/// outside alone; `commit`, `abort` and all that changes or reorganizes records and links stands
/// inside alone; what only reads, and an empty line or a comment, stands in both places.
/// `InTransaction`: exactly for `begin` inside. `NoTransaction`: exactly for a command outside that
/// stands inside alone.
pub fn allowed(inside: bool, command: &Command) -> Result<(), LineWhy>
    ensures { result_err result ≡ place_reason inside command.now }
{
    match command {
        Command::Begin if inside => Err(LineWhy::InTransaction),
        Command::Begin
        | Command::Get(_, _)
        | Command::Members(_, _, _)
        | Command::Owner(_, _)
        | Command::Find(_)
        | Command::Nothing => Ok(()),
        _ if inside => Ok(()),
        _ => Err(LineWhy::NoTransaction),
    }
}
