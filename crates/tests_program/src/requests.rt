// Whole requests: what is said, with which status, and what is left of the script.
use crate::row::check_row;
use gx_memory_machine::MemoryMachine;
use gx_play::Status;
use gx_top::top;
use std::alloc::Global;
use std::process::Abort;
use std::test::Fail;

const SCHEMA: &str = "file f (k int, t text 5)\n";

const EQUATION: &str = "f = actual(heap)\n";

const SCRIPT: &str = r#"begin
insert f 7 "ann"
get f 7
get f 8
commit
"#;

const SAID: &str = r#"begun
ok
f 7 "ann"
none
committed 1
"#;

fn machine(alloc: Global, script: &[u8]) -> Result<MemoryMachine, Fail> {
    let mut machine = MemoryMachine::new(alloc)?;
    machine.add_text(alloc, "S1", SCHEMA.as_bytes())?;
    machine.add_text(alloc, "E1", EQUATION.as_bytes())?;
    machine.set_script(alloc, script)?;
    machine.reserve(alloc, 1000, 10000)?;
    Ok(machine)
}

pub(crate) fn words(alloc: Global, line: &str) -> Result<Vec<String>, Fail> {
    let mut words = Vec::new(alloc);
    for word in line.split(' ') {
        words.push(String::from_str(alloc, word)?)?;
    }
    Ok(words)
}

// What a request answers on a machine, beside what it says.
pub(crate) fn ask(
    alloc: Global,
    line: &str,
    machine: MemoryMachine,
) -> Result<(Status, MemoryMachine), Fail> {
    Ok(top(alloc, &words(alloc, line)?, machine))
}

// Expects that a request on a machine says this, and ends with this status.
fn expect(
    rt: &impl Abort,
    alloc: Global,
    (line, machine): (&str, MemoryMachine),
    row: &str,
    (said, wanted): (&str, Status),
) -> Result<(), Fail> {
    let (status, machine) = ask(alloc, line, machine)?;
    check_row(rt, row, machine.said() == said.as_bytes());
    check_row(rt, row, status == wanted);
    Ok(())
}

// Expects that a script under `try` says this, and ends with this status.
fn expect_played(
    rt: &impl Abort,
    alloc: Global,
    script: &str,
    (said, wanted): (&str, Status),
) -> Result<(), Fail> {
    let machine = machine(alloc, script.as_bytes())?;
    expect(rt, alloc, ("try S1 E1", machine), script, (said, wanted))
}

// A script, and what is said of it.
#[derive(Clone, Copy)]
struct Case {
    script: &'static str,
    said: &'static str,
}

// Scripts that are played to their end.
const PLAYED: [Case; 8] = [
    Case {
        script: "",
        said: "",
    },
    Case {
        script: "get f 1",
        said: "none\n",
    },
    Case {
        script: SCRIPT,
        said: SAID,
    },
    Case {
        script: r#"begin
insert f 1 "a"
insert f 1 "b"
abort
begin
insert f 1 "b"
commit
get f 1
"#,
        said: r#"begun
ok
refused: key exists
dropped
begun
ok
committed 1
f 1 "b"
"#,
    },
    Case {
        script: r#"begin
insert f 1 "b"
insert f 2 "a"
insert f 3 "b"
commit
find f order t desc
find f where k < -9223372036854775808
"#,
        said: r#"begun
ok
ok
ok
committed 1
f 1 "b"
f 3 "b"
f 2 "a"
found 3
found 0
"#,
    },
    Case {
        script: r#"begin
insert f 1 "a"
update f 1 t "b"
update f 2 t "b"
find f
delete f 1
delete f 1
commit
get f 1
"#,
        said: r#"begun
ok
ok
refused: no record
f 1 "b"
found 1
ok
refused: no record
committed 1
none
"#,
    },
    Case {
        script: "# a comment\n\n \t\nget f -0\n",
        said: "none\n",
    },
    Case {
        script: r#"begin
insert f 1 "a"
commit
begin
delete f 1
insert f 2 ""
abort
find f
"#,
        said: r#"begun
ok
committed 1
begun
ok
ok
dropped
f 1 "a"
found 1
"#,
    },
];

#[test]
fn scripts_are_played(rt: HostRuntime) -> Result<(), Fail> {
    for case in PLAYED {
        expect_played(&rt, rt.alloc(), case.script, (case.said, Status::Done))?;
    }
    Ok(())
}

// Scripts that a line ends early.
const STOPPED: [Case; 6] = [
    Case {
        script: "begin
commit
begin
commit
grab f
",
        said: "begun
committed 1
begun
committed 2
stopped at line 5: word
",
    },
    Case {
        script: "begin\n",
        said: "begun
stopped at line 1: open transaction
",
    },
    Case {
        script: "insert f 1 \"abcdef\"\n",
        said: "stopped at line 1: value\n",
    },
    Case {
        script: "commit\n",
        said: "stopped at line 1: no transaction\n",
    },
    Case {
        script: "
begin

",
        said: "begun
stopped at line 3: open transaction
",
    },
    Case {
        script: "begin
begin
",
        said: "begun
stopped at line 2: in transaction
",
    },
];

#[test]
fn scripts_stop(rt: HostRuntime) -> Result<(), Fail> {
    for case in STOPPED {
        expect_played(&rt, rt.alloc(), case.script, (case.said, Status::Script))?;
    }
    Ok(())
}

// Requests that follow each other on one machine: what each says, and how it ends.
const TURNS: [(&str, &str, Status); 5] = [
    (
        "make S1 E1 d 101",
        "made: 101 blocks, 47 pages\n",
        Status::Done,
    ),
    ("run S1 E1 d", SAID, Status::Done),
    (
        "inspect S1 E1 d",
        "leaf 0 f heap entries 1\nfile f records 1\nsound\n",
        Status::Done,
    ),
    // the script was heard
    ("run S1 E1 d", "", Status::Done),
    ("make S1 E1 d 101", "device: exists\n", Status::Device),
];

// A request finds what the one before it left.
#[test]
fn requests_follow_on_one_machine(rt: HostRuntime) -> Result<(), Fail> {
    let alloc = rt.alloc();
    let mut machine = machine(alloc, SCRIPT.as_bytes())?;
    machine.reserve(alloc, 2000, 2_000_000)?;
    let mut said = Vec::new(alloc);
    for (line, more, wanted) in TURNS {
        let (status, after) = ask(alloc, line, machine)?;
        said.extend_from_slice(more.as_bytes())?;
        check_row(&rt, line, after.said() == said.as_slice());
        check_row(&rt, line, status == wanted);
        machine = after;
    }
    Ok(())
}

// A comment of so many bytes.
fn comment(alloc: Global, len: usize) -> Result<Vec<u8>, Fail> {
    let mut line = b"#".to_vec(alloc)?;
    line.extend_from_slice(&vec![in alloc; b'x'; len.saturating_sub(1)]?)?;
    line.push(b'\n')?;
    Ok(line)
}

// A line may have 4,096 bytes, and none more.
#[test]
fn lines_are_short(rt: HostRuntime) -> Result<(), Fail> {
    let alloc = rt.alloc();
    for (len, said, wanted) in [
        (4096, "", Status::Done),
        (4097, "stopped at line 1: too long\n", Status::Script),
    ] {
        let machine = machine(alloc, &comment(alloc, len)?)?;
        expect(
            &rt,
            alloc,
            ("try S1 E1", machine),
            "a comment",
            (said, wanted),
        )?;
    }
    Ok(())
}

// A machine of which this call fails.
fn failing_machine(alloc: Global, call: u32) -> Result<MemoryMachine, Fail> {
    let mut machine = machine(alloc, SCRIPT.as_bytes())?;
    machine.fail_at(alloc, call)?;
    Ok(machine)
}

// A call of the machine that fails ends the play, and what was said before stays.
#[test]
fn calls_fail(rt: HostRuntime) -> Result<(), Fail> {
    // two texts are fetched, the script is heard, five answers are said, and its end is heard
    for (call, row, said) in [
        (0, "call 0", ""),
        (1, "call 1", ""),
        (2, "call 2", ""),
        (3, "call 3", ""),
        (4, "call 4", "begun\n"),
        (5, "call 5", "begun\nok\n"),
        (8, "call 8", SAID),
    ] {
        let machine = failing_machine(rt.alloc(), call)?;
        expect(
            &rt,
            rt.alloc(),
            ("try S1 E1", machine),
            row,
            (said, Status::Outside),
        )?;
    }
    Ok(())
}

// Texts by their names.
const TEXTS: [(&str, &str); 7] = [
    ("keyed", "file f (k text 101)\n"),
    ("linked", "file f (k int)\nlink l (f, f)\n"),
    (
        "wide",
        "file g (k int, a text 200, b text 200, c text 200, d text 200, e text 200)\n",
    ),
    ("E3", "g = actual(heap)\n"),
    ("unended", "f =\nactual(heap"),
    ("pieces", "f = divide(64, actual(heap))"),
    ("ring", "f = heap l = ring(actual(heap), actual(heap))"),
];

// A machine with these texts, with one of the greatest length and with a longer one.
fn with_texts(alloc: Global) -> Result<MemoryMachine, Fail> {
    let mut machine = machine(alloc, SCRIPT.as_bytes())?;
    for (name, text) in TEXTS {
        machine.add_text(alloc, name, text.as_bytes())?;
    }
    let long = vec![in alloc; b'x'; 16381]?;
    machine.add_text(alloc, "limit", &long[..16380])?;
    machine.add_text(alloc, "long", &long)?;
    Ok(machine)
}

// Words that are no request, and texts that aren't there, too long, or not accepted.
const REFUSED: [(&str, &str); 21] = [
    ("", "refused: words\n"),
    ("try", "refused: words\n"),
    ("try S1", "refused: words\n"),
    ("try S1 E1 d", "refused: words\n"),
    ("check S1", "refused: words\n"),
    ("run a b", "refused: words\n"),
    ("Try S1 E1", "refused: words\n"),
    ("try nothing E1", "refused: missing nothing\n"),
    ("try S1 nothing", "refused: missing nothing\n"),
    ("check nothing long", "refused: missing nothing\n"),
    ("try long E1", "refused: too long long\n"),
    ("check S1 long", "refused: too long long\n"),
    ("try limit E1", "refused: schema line 1: token\n"),
    ("try keyed limit", "refused: schema line 1: key\n"),
    ("check S1 limit", "refused: equation line 1: token\n"),
    ("try S1 unended", "refused: equation line 2: end\n"),
    ("try linked E1", "refused: type line 1: definition\n"),
    ("check S1 pieces", "refused: type line 1: one bytes\n"),
    ("try wide E3", "refused: type line 1: entry too long\n"),
    ("explain S1", "refused: words\n"),
    ("explain S1 unended", "refused: equation line 2: end\n"),
];

#[test]
fn requests_are_refused(rt: HostRuntime) -> Result<(), Fail> {
    for (line, said) in REFUSED {
        let machine = with_texts(rt.alloc())?;
        expect(
            &rt,
            rt.alloc(),
            (line, machine),
            line,
            (said, Status::Refused),
        )?;
    }
    Ok(())
}

// A script on a link, what is said of it, and the plans of its finds.
const LINKED_SCRIPT: &str = "begin
insert f 1
insert f 2
connect l 1 2
commit
owner l 2
find f of l 1
find f where k > 1 of l 1
find f where k = 2 of l 1
";

const LINKED_SAID: &str = "begun
ok
ok
ok
committed 1
f 1
f 2
found 1
f 2
found 1
f 2
found 1
";

const LINKED_PLANS: &str = "line 7: link l
line 8: link l
line 9: key k
";

// A machine with these texts and the script on a link.
fn linked_machine(alloc: Global) -> Result<MemoryMachine, Fail> {
    let mut machine = with_texts(alloc)?;
    machine.set_script(alloc, LINKED_SCRIPT.as_bytes())?;
    Ok(machine)
}

#[test]
fn links_are_carried_out(rt: HostRuntime) -> Result<(), Fail> {
    for (line, said) in [
        ("try linked ring", LINKED_SAID),
        ("explain linked ring", LINKED_PLANS),
    ] {
        let machine = linked_machine(rt.alloc())?;
        expect(&rt, rt.alloc(), (line, machine), line, (said, Status::Done))?;
    }
    Ok(())
}

// A text that is accepted, with its leaves and the pages and blocks that those need.
#[test]
fn texts_are_checked(rt: HostRuntime) -> Result<(), Fail> {
    let alloc = rt.alloc();
    let equation = "# by key
f = partition(k 10,
  actual(hash(8)), actual(bplus))
";
    let said = "accepted: 2 leaves, 9 root pages, smallest device 57 blocks\n";
    let mut machine = machine(alloc, b"")?;
    machine.add_text(alloc, "E", equation.as_bytes())?;
    expect(
        &rt,
        alloc,
        ("check S1 E", machine),
        equation,
        (said, Status::Done),
    )
}

// Scripts that are explained, and how that ends: to their end, also inside a transaction, or at a
// line that is bad or may not stand where it does.
const EXPLAINED: [(Case, Status); 4] = [
    (
        Case {
            script: "find f where v = 3\nfind f where k > 2 and v = 3\nfind f\n",
            said: "line 1: index v\nline 2: index v\nline 3: scan\n",
        },
        Status::Done,
    ),
    (
        Case {
            script: "# k is the key\n\nbegin\ninsert f 1 5\nget f 1\nfind f where v > 3 and k = 1",
            said: "line 6: key k\n",
        },
        Status::Done,
    ),
    (
        Case {
            script: "find f where k < 3\ncommit\nfind f\n",
            said: "line 1: key range k\nstopped at line 2: no transaction\n",
        },
        Status::Script,
    ),
    (
        Case {
            script: "find f where v <> 3 and v <= 4\nfind g\nfind f\n",
            said: "line 1: index range v\nstopped at line 2: file\n",
        },
        Status::Script,
    ),
];

// A machine with a script and the texts of a file with an index.
fn indexed_machine(alloc: Global, script: &str) -> Result<MemoryMachine, Fail> {
    let mut machine = machine(alloc, script.as_bytes())?;
    machine.add_text(alloc, "S2", b"file f (k int, v int)\n")?;
    machine.add_text(alloc, "E2", b"f = index(v, actual(heap), heap)\n")?;
    Ok(machine)
}

#[test]
fn scripts_are_explained(rt: HostRuntime) -> Result<(), Fail> {
    for (case, wanted) in EXPLAINED {
        let machine = indexed_machine(rt.alloc(), case.script)?;
        expect(
            &rt,
            rt.alloc(),
            ("explain S2 E2", machine),
            case.script,
            (case.said, wanted),
        )?;
    }
    Ok(())
}
