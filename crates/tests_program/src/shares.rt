// Scripts of turns: what each session is told, how a script ends, and what is found afterwards.

use crate::requests::ask;
use crate::row::check_row;
use gx_memory_machine::MemoryMachine;
use gx_play::Status;
use std::alloc::Global;
use std::process::Abort;
use std::test::Fail;

const ONE_FILE: (&str, &str) = ("file f (k int, t text 5)\n", "f = actual(heap)\n");

const TWO_FILES: (&str, &str) = (
    "file dept (dno int, dname text 12)
file emp (eno int, name text 24, pay int, room text 8)
link works (dept, emp)
",
    "dept = actual(bplus)
emp = index(pay, segment(name pay, actual(bplus), actual(heap)), bplus)
works = ring(actual(hash(8)), actual(bplus))
",
);

// A script under two texts, what is said of it, and the status.
#[derive(Clone, Copy)]
struct Case {
    texts: (&'static str, &'static str),
    script: &'static str,
    said: &'static str,
    status: Status,
}

const CASES: [Case; 5] = [
    Case {
        texts: ONE_FILE,
        script: r#"1 begin
2 begin
1 insert f 1 "a"
2 get f 1
1 commit
2 commit
"#,
        said: r#"1 begun
2 begun
1 ok
2 ended: held by 1
1 committed 1
2 skipped
"#,
        status: Status::Done,
    },
    // on two files both go on, and the later commit is the second
    Case {
        texts: TWO_FILES,
        script: r#"1 begin
2 begin
1 insert dept 1 "a"
2 insert emp 1 "b" 5 ""
2 commit
1 commit
1 find emp
"#,
        said: r#"1 begun
2 begun
1 ok
2 ok
2 committed 1
1 committed 2
1 emp 1 "b" 5 ""
1 found 1
"#,
        status: Status::Done,
    },
    Case {
        texts: ONE_FILE,
        script: "9 begin\n",
        said: "stopped at line 1: session\n",
        status: Status::Script,
    },
    // the answer before a bad line stands
    Case {
        texts: ONE_FILE,
        script: "1 begin\n1 begin\n",
        said: "1 begun\nstopped at line 2: in transaction\n",
        status: Status::Script,
    },
    // a transaction that was ended is open until its session ends it
    Case {
        texts: ONE_FILE,
        script: "1 begin\n1 insert f 1 \"a\"\n2 begin\n2 get f 1\n1 commit",
        said: r#"1 begun
1 ok
2 begun
2 ended: held by 1
1 committed 1
stopped at line 5: open transaction
"#,
        status: Status::Script,
    },
];

// A machine with the texts, and with an empty database of theirs on a device.
fn machine(alloc: Global, (schema, equation): (&str, &str)) -> Result<MemoryMachine, Fail> {
    let mut machine = MemoryMachine::new(alloc)?;
    machine.add_text(alloc, "S", schema.as_bytes())?;
    machine.add_text(alloc, "E", equation.as_bytes())?;
    machine.reserve(alloc, 3000, 4_000_000)?;
    let (_, machine) = ask(alloc, "make S E d 201", machine)?;
    Ok(machine)
}

// What a request with a script says on a machine, with its status.
fn expect(
    rt: &impl Abort,
    alloc: Global,
    machine: MemoryMachine,
    (line, script): (&str, &str),
    (wanted, end): (&str, Status),
) -> Result<MemoryMachine, Fail> {
    let mut machine = machine;
    machine.set_script(alloc, script.as_bytes())?;
    let mut said = Vec::new(alloc);
    said.extend_from_slice(machine.said())?;
    said.extend_from_slice(wanted.as_bytes())?;
    let (status, after) = ask(alloc, line, machine)?;
    check_row(rt, script, after.said() == said.as_slice());
    check_row(rt, script, status == end);
    Ok(after)
}

#[test]
fn turns_are_played(rt: HostRuntime) -> Result<(), Fail> {
    for case in CASES {
        let machine = machine(rt.alloc(), case.texts)?;
        let asked = ("share S E d", case.script);
        expect(&rt, rt.alloc(), machine, asked, (case.said, case.status))?;
    }
    Ok(())
}

// A request finds what the turns committed.
#[test]
fn commits_of_turns_are_found(rt: HostRuntime) -> Result<(), Fail> {
    let alloc = rt.alloc();
    let machine = machine(alloc, ONE_FILE)?;
    let first = CASES[0];
    let shared = ("share S E d", first.script);
    let machine = expect(&rt, alloc, machine, shared, (first.said, first.status))?;
    let found = ("f 1 \"a\"\n", Status::Done);
    let machine = expect(&rt, alloc, machine, ("run S E d", "get f 1\n"), found)?;
    let again = ("8 f 1 \"a\"\n", Status::Done);
    expect(&rt, alloc, machine, ("share S E d", "8 get f 1\n"), again)?;
    Ok(())
}

// The request is refused, or finds another device, as `run` is and does.
#[test]
fn shares_are_refused(rt: HostRuntime) -> Result<(), Fail> {
    let alloc = rt.alloc();
    let machine = machine(alloc, ONE_FILE)?;
    let words = ("refused: words\n", Status::Refused);
    let machine = expect(&rt, alloc, machine, ("share S E", ""), words)?;
    let missing = ("device: missing\n", Status::Device);
    expect(&rt, alloc, machine, ("share S E other", ""), missing)?;
    Ok(())
}
