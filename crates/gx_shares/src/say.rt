// Saying what a turn says, with the number of its session before each line.
ghost use Rattle.std.specs.Prelude.{◌≡◌, ◌++◌, ◌∷◌, ◌<◌, [], codes};
ghost use Rattle.std.specs.Fmt.{decimal};
ghost use Rattle.gx_sharing.specs.Texts.{with_number};
ghost use Rattle.gx_sessions.specs.Turns.{leaves_of, IsSame, IsNumber};
ghost use Rattle.gx_play.specs.Say.{SaysAll};
ghost use Rattle.gx_shares.specs.Shares.{SaysTurn, HasLine};

use gx_device::Failed;
use gx_ports::Leaves;
use gx_sessions::{Sessions, Turn};
use memchr::memchr;

/// Says what a turn says, each line behind the number of the session and a space: its answer, or
/// that it was skipped or ended. After `Failed` a front of it was said.
pub(crate) fn say_turn<B: Leaves + Drop>(
    session: u8,
    turn: Turn,
    answer: &[u8],
    sessions: &mut Sessions<B>,
) -> Result<(), Failed>
    requires numbered { IsNumber session }
    ensures says { SaysTurn B.View session turn answer.now (leaves_of sessions.old)
        (leaves_of sessions.new) result }
    ensures same { IsSame B.View sessions.old sessions.new }
{
    match turn {
        Turn::Answer => say_lines(session, answer, sessions),
        Turn::Skipped => say_lines(session, b"skipped\n", sessions),
        Turn::Ended(holder) => say_lines(session, &ended_line(holder), sessions),
    }
}

// The line of a turn that ended its session's transaction, by the session that holds the lock.
fn ended_line(holder: u8) -> [u8; 17]
    ensures { holder < 10 → result ≡ codes "ended: held by " ++ decimal holder ++ codes "\n" }
{
    let mut line = *b"ended: held by 0\n";
    line[15] = b'0'.saturating_add(holder);
    line
}

// Says the lines that end in a text, each behind the number of the session and a space.
fn say_lines<B: Leaves + Drop>(
    session: u8,
    text: &[u8],
    sessions: &mut Sessions<B>,
) -> Result<(), Failed>
    requires numbered { IsNumber session }
    ensures says { SaysAll B.tells (B.content (leaves_of sessions.old))
        (B.content (leaves_of sessions.new)) (B.faults (leaves_of sessions.old))
        (B.faults (leaves_of sessions.new)) (with_number session text.now) result }
    ensures same { IsSame B.View sessions.old sessions.new }
{
    let mut rest = text;
    while let Some(len) = line_len(rest) {
        say_line(session, &rest[..len], sessions)?;
        rest = &rest[len..];
    }
    Ok(())
}

// How many bytes the first line has, with its LF, where one ends.
fn line_len(text: &[u8]) -> Option<usize>
    ensures { HasLine text.now result }
{
    match memchr(b'\n', text) {
        Some(at) => Some(at + 1),
        None => None,
    }
}

// Says a line behind the number of the session and a space.
fn say_line<B: Leaves + Drop>(
    session: u8,
    line: &[u8],
    sessions: &mut Sessions<B>,
) -> Result<(), Failed>
    requires numbered { IsNumber session }
    ensures says { SaysAll B.tells (B.content (leaves_of sessions.old))
        (B.content (leaves_of sessions.new)) (B.faults (leaves_of sessions.old))
        (B.faults (leaves_of sessions.new)) (decimal session ++ codes " " ++ line.now) result }
    ensures same { IsSame B.View sessions.old sessions.new }
{
    say_whole(&[b'0' + session, b' '], sessions)?;
    say_whole(line, sessions)
}

// Says a piece whole: where only a part is taken, the rest is offered next.
fn say_whole<B: Leaves + Drop>(piece: &[u8], sessions: &mut Sessions<B>) -> Result<(), Failed>
    ensures says { SaysAll B.tells (B.content (leaves_of sessions.old))
        (B.content (leaves_of sessions.new)) (B.faults (leaves_of sessions.old))
        (B.faults (leaves_of sessions.new)) piece.now result }
    ensures same { IsSame B.View sessions.old sessions.new }
{
    let mut rest = piece;
    while !rest.is_empty() {
        let count = sessions.say(rest)?;
        if count == 0 {
            return Err(Failed);
        }
        rest = &rest[count..];
    }
    Ok(())
}
