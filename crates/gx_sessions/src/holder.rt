// Which session holds a lock that another's command can't go with.
ghost use Rattle.std.specs.Prelude.{◌≡◌, ◌<◌, ◌+◌, length, find, None, true, is_some};
ghost use Rattle.gx_commands.specs.declared.command.Command.{Command as TheCommand};
ghost use Rattle.gx_commands.specs.Commands.{IsOfSchema};
ghost use Rattle.gx_sharing.specs.Locks.{free, conflict, lock_of, items_of};
ghost use Rattle.gx_sharing.specs.Sharing.{Sharing, sessions, is_barred, holder_among};
ghost use Rattle.gx_sessions.specs.Places.{mode_of, item_at};
ghost use Rattle.gx_sessions.specs.Standings.{lock_in, standing_after, AreSessions, AreWhole};

use crate::locks::{Lock, lock_at, places};
use crate::session::SessionState;
use gx_commands::Command;
use gx_schema::Schema;

/// The least session other than this that holds a lock which a command can't go with, at the first
/// file or link where there is one: the files stand first, and then the links.
pub(crate) fn holder(
    schema: &Schema,
    states: &[SessionState],
    session: u8,
    command: &Command,
) -> Option<u8>
    requires whole { AreWhole schema.now states.now }
    requires of_schema { IsOfSchema schema.now command.now }
    ensures wanting { is_some result ≡ true → standing_after command.now ≡ None }
    ensures least { (p : Sharing) → AreSessions schema.now p.session states.now →
        result ≡ holder_among schema.now p session command.now (items_of schema.now) }
{
    for place in 0..places(schema) {
        let found = holder_at(
            schema,
            states,
            session,
            place,
            lock_at(schema, command, place),
        );
        if found.is_some() {
            return found;
        }
    }
    None
}

// The least session other than this that holds a lock at a place which can't go with one that is
// wanted.
fn holder_at(
    schema: &Schema,
    states: &[SessionState],
    session: u8,
    place: usize,
    wanted: Lock,
) -> Option<u8>
    requires whole { AreWhole schema.now states.now }
    requires place { place < length schema.now.files + length schema.now.links }
    ensures wanting { is_some result ≡ true → mode_of wanted ≡ free → ⊥ }
    ensures least { (p : Sharing) (c : TheCommand) → AreSessions schema.now p.session states.now →
        mode_of wanted ≡ lock_of schema.now c (item_at schema.now place) →
        result ≡ find (is_barred schema.now p session c (item_at schema.now place)) sessions }
{
    for index in 0..8u8 {
        let other = index + 1;
        if other != session && bars(&states[usize::from(index)], place, wanted) {
            return Some(other);
        }
    }
    None
}

fn bars(state: &SessionState, place: usize, wanted: Lock) -> bool
    requires { place < length state.now.locks.items }
    ensures { result ≡ conflict (mode_of (lock_in state.now.locks.items place)) (mode_of wanted) }
{
    state.locks[place].conflicts(wanted)
}
