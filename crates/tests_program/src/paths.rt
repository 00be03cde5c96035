// Paths over links: the records at their ends, and what is said of their directions.

use crate::bounded::expect_done;
use crate::requests::ask;
use crate::row::check_row;
use gx_memory_machine::MemoryMachine;
use gx_play::Status;
use std::alloc::Global;
use std::process::Abort;
use std::test::Fail;

const SCHEMA: &str = "file dept (dno int, dname text 12)
file emp (eno int, name text 24, pay int, room text 8)
link works (dept, emp)
";

const BY_RINGS: &str = "dept = actual(bplus)
emp = index(pay, segment(name pay, actual(bplus), actual(heap)), bplus)
works = ring(actual(hash(8)), actual(bplus))
";

// Equations that store the same records and links: by rings, by lists, and by one row an owner.
const EQUATIONS: [&str; 3] = [
    BY_RINGS,
    "dept = actual(hash(4))
emp = actual(heap)
works = inverted(heap, actual(heap))
",
    "dept = actual(hash(4))
emp = actual(isam)
works = array(divide(64, bplus))
",
];

const PATHS: &str = "path dept where dno = 3 down works where pay >= 1091
path emp where pay = 1037 up works
path dept down works where eno = 5
";

const FOUND: &str = "emp 43 \"emp 43\" 1091 \"r7\"
emp 143 \"emp 143\" 1091 \"r7\"
found 2
dept 1 \"dept 1\"
found 1
emp 5 \"emp 5\" 1085 \"r7\"
found 1
";

const DIRECTIONS: &str = "line 1: path forward
line 2: path forward
line 3: path backward
";

fn machine(alloc: Global, equation: &str, script: &[u8]) -> Result<MemoryMachine, Fail> {
    let mut machine = MemoryMachine::new(alloc)?;
    machine.add_text(alloc, "S", SCHEMA.as_bytes())?;
    machine.add_text(alloc, "E", equation.as_bytes())?;
    machine.set_script(alloc, script)?;
    machine.reserve(alloc, 1000, 60000)?;
    Ok(machine)
}

// The line that inserts this member.
fn member(alloc: Global, number: u8) -> Result<String, Fail> {
    let pay = 1000 + 37 * u32::from(number) % 100;
    let room = if number % 2 == 0 { "" } else { "r7" };
    Ok(format!(in alloc; "insert emp {number} \"emp {number}\" {pay} \"{room}\"\n")?)
}

// Ten owners and two hundred members, and then these lines.
fn script(alloc: Global, lines: &str) -> Result<Vec<u8>, Fail> {
    let mut script = b"begin\n".to_vec(alloc)?;
    for owner in 0..10 {
        let line = format!(in alloc; "insert dept {owner} \"dept {owner}\"\n")?;
        script.extend_from_slice(line.as_bytes())?;
    }
    for number in 1..201 {
        script.extend_from_slice(member(alloc, number)?.as_bytes())?;
    }
    for number in 1..201 {
        let owner = number % 10;
        let line = format!(in alloc; "connect works {owner} {number}\n")?;
        script.extend_from_slice(line.as_bytes())?;
    }
    script.extend_from_slice(lines.as_bytes())?;
    Ok(script)
}

// What is said of it: 410 lines that were carried out, and then this.
fn said(alloc: Global, last: &str) -> Result<Vec<u8>, Fail> {
    let mut said = b"begun\n".to_vec(alloc)?;
    for _ in 0..410 {
        said.extend_from_slice(b"ok\n")?;
    }
    said.extend_from_slice(last.as_bytes())?;
    Ok(said)
}

// Expects that a script of these lines behind the insertions says this.
fn expect_found(
    rt: &impl Abort,
    alloc: Global,
    equation: &str,
    (lines, last): (&str, &str),
) -> Result<(), Fail> {
    let machine = machine(alloc, equation, &script(alloc, lines)?)?;
    let (status, machine) = ask(alloc, "try S E", machine)?;
    check_row(
        rt,
        equation,
        machine.said() == said(alloc, last)?.as_slice(),
    );
    check_row(rt, equation, status == Status::Done);
    Ok(())
}

#[test]
fn paths_find_records(rt: HostRuntime) -> Result<(), Fail> {
    let alloc = rt.alloc();
    let lines = format!(in alloc; "commit\n{PATHS}")?;
    let last = format!(in alloc; "committed 1\n{FOUND}")?;
    for equation in EQUATIONS {
        expect_found(&rt, alloc, equation, (&lines, &last))?;
    }
    Ok(())
}

#[test]
fn paths_see_the_open_transaction(rt: HostRuntime) -> Result<(), Fail> {
    let alloc = rt.alloc();
    let lines = format!(in alloc; "{PATHS}abort\npath dept down works\n")?;
    let last = format!(in alloc; "{FOUND}dropped\nfound 0\n")?;
    expect_found(&rt, alloc, BY_RINGS, (&lines, &last))
}

// The database is kept on a device of 6,007 blocks. Three requests make it, fill it and walk on it.
#[test]
fn paths_find_records_on_a_device(rt: HostRuntime) -> Result<(), Fail> {
    let alloc = rt.alloc();
    let mut machine = machine(alloc, BY_RINGS, b"")?;
    machine.reserve(alloc, 100_000, 40_000_000)?;
    let made = b"made: 6007 blocks, 3000 pages\n";
    let machine = expect_done(&rt, alloc, machine, ("make S E d 6007", b""), made)?;
    let inserts = script(alloc, "commit\n")?;
    let run = ("run S E d", inserts.as_slice());
    let machine = expect_done(&rt, alloc, machine, run, b"ok\nok\ncommitted 1\n")?;
    let run = ("run S E d", PATHS.as_bytes());
    let said = format!(in alloc; "ok\ncommitted 1\n{FOUND}")?;
    expect_done(&rt, alloc, machine, run, said.as_bytes())?;
    Ok(())
}

const EIGHT_LEGS: &str = "path dept where dno = 3 down works up works down works up works \
down works up works down works up works where dname <> \"d\"\n";

#[test]
fn eight_legs_are_walked(rt: HostRuntime) -> Result<(), Fail> {
    let alloc = rt.alloc();
    let lines = format!(in alloc; "commit\n{EIGHT_LEGS}")?;
    let last = "committed 1\ndept 3 \"dept 3\"\nfound 1\n";
    expect_found(&rt, alloc, BY_RINGS, (&lines, last))
}

// Expects that a request on a script says this, and ends with this status.
fn expect(
    rt: &impl Abort,
    alloc: Global,
    (line, script): (&str, &str),
    (said, wanted): (&str, Status),
) -> Result<(), Fail> {
    let machine = machine(alloc, BY_RINGS, script.as_bytes())?;
    let (status, machine) = ask(alloc, line, machine)?;
    check_row(rt, script, machine.said() == said.as_bytes());
    check_row(rt, script, status == wanted);
    Ok(())
}

#[test]
fn directions_of_paths_are_explained(rt: HostRuntime) -> Result<(), Fail> {
    expect(
        &rt,
        rt.alloc(),
        ("explain S E", PATHS),
        (DIRECTIONS, Status::Done),
    )
}

const BAD: [(&str, &str); 5] = [
    ("path dept up works\n", "stopped at line 1: link\n"),
    ("path dept\n", "stopped at line 1: word\n"),
    ("path town down works\n", "stopped at line 1: file\n"),
    (
        "path dept down works where age = 1\n",
        "stopped at line 1: field\n",
    ),
    // a ninth leg
    (
        "path dept down works up works down works up works down works up works down works up works \
down works\n",
        "stopped at line 1: word\n",
    ),
];

#[test]
fn bad_paths_end_the_script(rt: HostRuntime) -> Result<(), Fail> {
    for (script, said) in BAD {
        for line in ["try S E", "explain S E"] {
            expect(&rt, rt.alloc(), (line, script), (said, Status::Script))?;
        }
    }
    Ok(())
}
