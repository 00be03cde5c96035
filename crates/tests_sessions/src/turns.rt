// What turns say, beside texts that were worked out by hand.
ghost use Rattle.std.specs.Prelude.{◌≡◌, None, false};
ghost use Rattle.gx_schema.specs.WellFormed.{IsWellFormed};
ghost use Rattle.gx_engine.specs.Steps.{IsReady as IsEngineReady, schema_of as engine_schema, is_open, stop_of};
ghost use Rattle.gx_sessions.specs.Turns.{IsReady, schema_of};

use crate::engines::started;
use crate::row::check_row;
use gx_commands::{LONGEST_LINE, LineWhy, allowed, read_turn};
use gx_engine::Engine;
use gx_memory_machine::MemoryMachine;
use gx_ports::Leaves;
use gx_script::read_command;
use gx_sessions::{Sessions, Turn};
use gx_values::Octets;
use std::alloc::Global;
use std::process::Abort;
use std::test::Fail;

// Turns on an empty database, and all that they say. Here the number of a session stands once
// before each answer.
#[derive(Clone, Copy)]
pub(crate) struct Case {
    pub(crate) schema: &'static str,
    pub(crate) equation: &'static str,
    pub(crate) turns: &'static str,
    pub(crate) answers: &'static str,
}

const ONE_FILE: &str = "file f (k int, t text 5)";

const ONE_LEAF: &str = "f = actual(heap)";

pub(crate) const STAFF: &str = "file dept (dno int, dname text 12)
file emp (eno int, name text 24, pay int, room text 8)
link works (dept, emp)";

pub(crate) const STORED: &str = "dept = actual(bplus)
emp = index(pay, segment(name pay, actual(bplus), actual(heap)), bplus)
works = ring(actual(hash(8)), actual(bplus))";

const CASES: &[Case] = &[
    // A session reads a file that another changed.
    Case {
        schema: ONE_FILE,
        equation: ONE_LEAF,
        turns: r#"1 begin
2 begin
1 insert f 1 "a"
2 get f 1
1 commit
2 commit"#,
        answers: "1 begun
2 begun
1 ok
2 ended: held by 1
1 committed 1
2 skipped
",
    },
    // Two sessions change two files, and commits of all sessions are counted.
    Case {
        schema: STAFF,
        equation: STORED,
        turns: r#"1 begin
2 begin
1 insert dept 1 "a"
2 insert emp 1 "b" 5 ""
2 commit
1 commit
1 find emp"#,
        answers: r#"1 begun
2 begun
1 ok
2 ok
2 committed 1
1 committed 2
1 emp 1 "b" 5 ""
found 1
"#,
    },
    // Two read one file, and neither may change it then.
    Case {
        schema: ONE_FILE,
        equation: ONE_LEAF,
        turns: r#"1 begin
2 begin
1 get f 1
2 get f 1
2 insert f 1 "a"
1 commit"#,
        answers: "1 begun
2 begun
1 none
2 none
2 ended: held by 1
1 committed 1
",
    },
    // Behind an end: a comment and a line without words are no turns, a number alone says nothing,
    // `begin` is skipped, and so is all up to the `commit`. Then a transaction begins anew, and
    // nothing is left of the first one.
    Case {
        schema: ONE_FILE,
        equation: ONE_LEAF,
        turns: r#"1 begin
2 begin
2 insert f 9 "z"
1 insert f 1 "a"
# a comment

1
1 # a comment
1 get f 9
1 commit
1 begin
2 abort
1 insert f 1 "b"
1 find f
1 commit"#,
        answers: r#"1 begun
2 begun
2 ok
1 ended: held by 2
1 skipped
1 skipped
1 begun
2 dropped
1 ok
1 f 1 "b"
found 1
1 committed 1
"#,
    },
    // What an ended transaction changed is given up: the next one doesn't see it, and neither does
    // a session outside.
    Case {
        schema: STAFF,
        equation: STORED,
        turns: r#"1 begin
1 insert dept 1 "a"
2 begin
2 insert emp 1 "b" 5 ""
1 insert emp 2 "c" 6 ""
3 find dept
1 abort
1 begin
1 find dept
2 insert dept 3 "d""#,
        answers: r#"1 begun
1 ok
2 begun
2 ok
1 ended: held by 2
3 found 0
1 skipped
1 begun
1 found 0
2 ended: held by 1
"#,
    },
    // Nobody outside sees what isn't committed, and the session itself does.
    Case {
        schema: ONE_FILE,
        equation: ONE_LEAF,
        turns: r#"1 begin
1 insert f 1 "a"
2 get f 1
3 find f
1 get f 1
1 commit
2 get f 1"#,
        answers: r#"1 begun
1 ok
2 none
3 found 0
1 f 1 "a"
1 committed 1
2 f 1 "a"
"#,
    },
    // A reader beside a writer: what it reads of its own file is its own.
    Case {
        schema: STAFF,
        equation: STORED,
        turns: r#"1 begin
2 begin
1 insert dept 1 "a"
2 insert emp 1 "b" 5 ""
1 get dept 1
2 get emp 1
1 get dept 1
3 begin
3 get emp 1
2 find emp
2 commit
1 commit"#,
        answers: r#"1 begun
2 begun
1 ok
2 ok
1 dept 1 "a"
2 emp 1 "b" 5 ""
1 dept 1 "a"
3 begun
3 ended: held by 2
2 emp 1 "b" 5 ""
found 1
2 committed 1
1 committed 2
"#,
    },
    // A `delete` shares the links of its file, so another may not connect.
    Case {
        schema: STAFF,
        equation: STORED,
        turns: r#"1 begin
1 insert dept 1 "a"
1 insert emp 1 "b" 5 ""
1 commit
1 begin
2 begin
1 delete emp 1
2 connect works 1 1
2 abort
1 commit
1 find emp"#,
        answers: "1 begun
1 ok
1 ok
1 committed 1
1 begun
2 begun
1 ok
2 ended: held by 1
2 skipped
1 committed 2
1 found 0
",
    },
    // A `find` of an owner shares the link and the file of the owners.
    Case {
        schema: STAFF,
        equation: STORED,
        turns: r#"4 begin
4 find emp of works 1
5 begin
5 insert dept 1 "a"
6 begin
6 disconnect works 1"#,
        answers: "4 begun
4 refused: no record
5 begun
5 ended: held by 4
6 begun
6 ended: held by 4
",
    },
    // The first item on which one stands is named: the file before the link, and of two holders the
    // lesser.
    Case {
        schema: STAFF,
        equation: STORED,
        turns: r#"8 begin
8 find emp
7 begin
7 find emp
6 begin
6 members works 1
5 begin
5 delete emp 1"#,
        answers: "8 begun
8 found 0
7 begun
7 found 0
6 begun
6 refused: no record
5 begun
5 ended: held by 6
",
    },
];

// Appends what a turn says, with the number of its session.
fn take_turn<B: Leaves + Drop>(
    alloc: Global,
    session: u8,
    line: &[u8],
    sessions: &mut Sessions<B>,
    said: &mut String,
) -> Result<(), Fail>
    requires ready { IsReady B.View sessions.old }
    requires well_formed { IsWellFormed (schema_of sessions.old) }
    ensures ready { IsReady B.View sessions.new }
    ensures schema { schema_of sessions.new ≡ schema_of sessions.old }
{
    if session == 0 || session > 8 {
        return Err("no session".into());
    }
    if line.len() > LONGEST_LINE {
        return Err(LineWhy::TooLong)?;
    }
    let command = read_command(alloc, sessions.schema(), line)?;
    allowed(sessions.inside(session), &command)?;
    let mut answer = Octets(Vec::new(alloc));
    let turn = sessions.turn(alloc, session, command, &mut answer)?;
    push_turn(alloc, session, turn, &answer, said)
}

fn push_turn(
    alloc: Global,
    session: u8,
    turn: Turn,
    answer: &Octets,
    said: &mut String,
) -> Result<(), Fail> {
    match turn {
        Turn::Answer => {
            if answer.0.is_empty() {
                return Ok(());
            }
            said.push_str(format!(in alloc; "{session} ")?.as_str())?;
            for byte in answer.as_slice() {
                said.push(char::from(*byte))?;
            }
        }
        Turn::Skipped => said.push_str(format!(in alloc; "{session} skipped\n")?.as_str())?,
        Turn::Ended(holder) => {
            said.push_str(format!(in alloc; "{session} ended: held by {holder}\n")?.as_str())?;
        }
    }
    Ok(())
}

// Plays the lines that are turns, and gives all that they say.
fn said_by<B: Leaves + Drop>(
    alloc: Global,
    turns: &str,
    sessions: &mut Sessions<B>,
) -> Result<String, Fail>
    requires ready { IsReady B.View sessions.old }
    requires well_formed { IsWellFormed (schema_of sessions.old) }
    ensures ready { IsReady B.View sessions.new }
    ensures schema { schema_of sessions.new ≡ schema_of sessions.old }
{
    let mut said = String::new(alloc);
    for line in turns.split('\n') {
        if let Some((session, place)) = read_turn(line.as_bytes())? {
            take_turn(
                alloc,
                session,
                &line.as_bytes()[place..],
                sessions,
                &mut said,
            )?;
        }
    }
    Ok(said)
}

// The same of sessions over an engine.
fn said_on<B: Leaves + Drop>(alloc: Global, turns: &str, engine: Engine<B>) -> Result<String, Fail>
    requires ready { IsEngineReady B.View engine }
    requires well_formed { IsWellFormed (engine_schema engine) }
    requires shut { is_open engine ≡ false }
    requires going { stop_of engine ≡ None }
{
    match Sessions::start(alloc, engine) {
        Ok(sessions) => {
            let mut sessions = sessions;
            said_by(alloc, turns, &mut sessions)
        }
        Err((_, error)) => Err(error)?,
    }
}

pub(crate) fn expect_case(rt: &impl Abort, alloc: Global, case: &Case) -> Result<(), Fail> {
    let machine = MemoryMachine::new(alloc)?;
    let engine = started(alloc, case.schema, case.equation, machine)?;
    let said = said_on(alloc, case.turns, engine)?;
    check_row(rt, said.as_str(), said.as_str() == case.answers);
    Ok(())
}

#[test]
fn turns_say_what_their_sessions_see(rt: HostRuntime) -> Result<(), Fail> {
    for case in CASES {
        expect_case(&rt, rt.alloc(), case)?;
    }
    Ok(())
}
