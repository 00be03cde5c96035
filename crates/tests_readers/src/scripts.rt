// Worked lines: every command, the rule of transactions, and the limits of lines and scripts.
ghost use Rattle.std.specs.Prelude.{IfOk};
ghost use Rattle.gx_schema.specs.WellFormed.{IsWellFormed};

use crate::row::check_row;
use gx_commands::{Command, LineWhy, NoCommand, ScriptLines, allowed};
use gx_schema::{Schema, read_schema};
use gx_script::read_command;
use std::alloc::{AllocError, Global};
use std::test::Fail;

fn worked_schema(alloc: Global) -> Result<Schema, Fail>
    ensures { IfOk result (λ s. IsWellFormed s) }
{
    let text = b"file dept (dno int, dname text 12)
file emp (eno int, name text 24, pay int, room text 8)
file where (where int, of int)
link works (dept, emp)
";
    Ok(read_schema(alloc, text)?)
}

// A line, and its command as `Debug` prints it.
#[derive(Clone, Copy)]
struct Case {
    line: &'static str,
    command: &'static str,
}

const CASES: &[Case] = &[
    Case {
        line: "",
        command: "Nothing",
    },
    Case {
        line: " \t ",
        command: "Nothing",
    },
    Case {
        line: " \t# \x01 any \"",
        command: "Nothing",
    },
    Case {
        line: "\t begin\t",
        command: "Begin",
    },
    Case {
        line: "commit",
        command: "Commit",
    },
    Case {
        line: "abort",
        command: "Abort",
    },
    Case {
        line: r#"insert dept 7 "a""b""#,
        command: "Insert(0, Values([Int(7), Text(Octets([97, 34, 98]))]))",
    },
    Case {
        line: "insert emp -0 \"\"\t007 \"\" ",
        command: "Insert(1, Values([Int(0), Text(Octets([])), Int(7), Text(Octets([]))]))",
    },
    Case {
        line: "get dept 9223372036854775807",
        command: "Get(0, Int(9223372036854775807))",
    },
    Case {
        line: "get dept -0009223372036854775808",
        command: "Get(0, Int(-9223372036854775808))",
    },
    Case {
        line: "update emp 5 pay 1",
        command: "Update(1, Int(5), Changes([Change { field: 2, value: Int(1) }]))",
    },
    Case {
        line: r#"update emp 5 room "x y" pay 1"#,
        command: "\
            Update(1, Int(5), Changes([Change { field: 3, value: Text(Octets([120, 32, \
            121])) }, Change { field: 2, value: Int(1) }]))",
    },
    Case {
        line: "delete emp 5",
        command: "Delete(1, Int(5))",
    },
    Case {
        line: "connect works 3 5",
        command: "Connect(0, Int(3), Int(5))",
    },
    Case {
        line: "disconnect works 5",
        command: "Disconnect(0, Int(5))",
    },
    Case {
        line: "members works 3",
        command: "Members(0, Int(3), OrderBy { field: 0, desc: false })",
    },
    Case {
        line: "members works 3 order room",
        command: "Members(0, Int(3), OrderBy { field: 3, desc: false })",
    },
    Case {
        line: "members works 3 order pay desc",
        command: "Members(0, Int(3), OrderBy { field: 2, desc: true })",
    },
    Case {
        line: "owner works 5",
        command: "Owner(0, Int(5))",
    },
    Case {
        line: "find dept",
        command: "\
            Find(Find { file: 0, conds: Conds([]), of: None, order: OrderBy { field: 0, \
            desc: false } })",
    },
    Case {
        line: "find where where of = 5 and where > 0 order of desc",
        command: "\
            Find(Find { file: 2, conds: Conds([Cond { field: 1, op: Equal, \
            bound: Int(5) }, Cond { field: 0, op: Greater, bound: Int(0) }]), of: None, \
            order: OrderBy { field: 1, desc: true } })",
    },
    Case {
        line: "find emp where name <> \"x\" and pay <= 1 and pay >= 2 and pay < 3 \
            of works 4 order name",
        command: "\
            Find(Find { file: 1, conds: Conds([Cond { field: 1, op: Unequal, \
            bound: Text(Octets([120])) }, Cond { field: 2, op: AtMost, bound: Int(1) }, \
            Cond { field: 2, op: AtLeast, bound: Int(2) }, Cond { field: 2, op: Less, \
            bound: Int(3) }]), of: Some(Of { link: 0, owner: Int(4) }), \
            order: OrderBy { field: 1, desc: false } })",
    },
    Case {
        line: "find emp of works 4",
        command: "\
            Find(Find { file: 1, conds: Conds([]), of: Some(Of { link: 0, \
            owner: Int(4) }), order: OrderBy { field: 0, desc: false } })",
    },
    Case {
        line: "reorganize emp",
        command: "ReorganizeFile(1)",
    },
    Case {
        line: "reorganize works",
        command: "ReorganizeLink(0)",
    },
];

fn is_printed(alloc: Global, command: &Command, text: &str) -> Result<bool, Fail> {
    Ok(format!(in alloc; "{command:?}")?.as_str() == text)
}

// Whether a copy of the command of a line is as `Debug` prints it.
fn is_read(alloc: Global, schema: &Schema, case: &Case) -> Result<bool, Fail>
    requires { IsWellFormed schema.now }
{
    let command = read_command(alloc, schema, case.line.as_bytes())?;
    is_printed(alloc, &command.copy(alloc)?, case.command)
}

#[test]
fn reads_commands(rt: HostRuntime) -> Result<(), Fail> {
    let schema = worked_schema(rt.alloc())?;
    for case in CASES {
        check_row(&rt, case.line, is_read(rt.alloc(), &schema, case)?);
    }
    Ok(())
}

// Lines on a link, which the program doesn't carry out yet.
const LINES_ON_LINKS: &[(&str, LineWhy)] = &[
    ("connect works 3", LineWhy::Word),
    ("disconnect works 5 5", LineWhy::Word),
    ("members works 3 order", LineWhy::Word),
    ("members works 3 desc", LineWhy::Word),
    ("members works 3 order pay asc", LineWhy::Word),
    ("members works 3 \"order\" pay", LineWhy::Word),
    ("find emp of works", LineWhy::Word),
    ("find emp order pay of works 3", LineWhy::Word),
    ("get works 1", LineWhy::File),
    ("find works of zzz", LineWhy::File),
    ("owner \"works\" 1", LineWhy::Link),
    ("find dept of works 3", LineWhy::Link),
    ("members works 3 order dname", LineWhy::Field),
    ("find emp of works \"3\"", LineWhy::Value),
    ("connect works 3 \"5\"", LineWhy::Value),
];

// Whether the line has no command, for this reason.
fn is_bad(alloc: Global, schema: &Schema, line: &str, reason: LineWhy) -> bool
    requires { IsWellFormed schema.now }
{
    match read_command(alloc, schema, line.as_bytes()) {
        Err(NoCommand::Bad(why)) => why == reason,
        _ => false,
    }
}

#[test]
fn names_the_first_reason(rt: HostRuntime) -> Result<(), Fail> {
    let schema = worked_schema(rt.alloc())?;
    for (line, reason) in LINES_ON_LINKS {
        check_row(&rt, line, is_bad(rt.alloc(), &schema, line, *reason));
    }
    Ok(())
}

// Lines, and why the command of each may not stand inside a transaction, and outside.
const RULE: &[(&str, Option<LineWhy>, Option<LineWhy>)] = &[
    ("commit", None, Some(LineWhy::NoTransaction)),
    ("abort", None, Some(LineWhy::NoTransaction)),
    ("insert dept 1 \"a\"", None, Some(LineWhy::NoTransaction)),
    ("update emp 5 pay 1", None, Some(LineWhy::NoTransaction)),
    ("delete emp 5", None, Some(LineWhy::NoTransaction)),
    ("connect works 3 5", None, Some(LineWhy::NoTransaction)),
    ("disconnect works 5", None, Some(LineWhy::NoTransaction)),
    ("reorganize emp", None, Some(LineWhy::NoTransaction)),
    ("reorganize works", None, Some(LineWhy::NoTransaction)),
    ("get dept 1", None, None),
    ("members works 3", None, None),
    ("owner works 5", None, None),
    ("find emp", None, None),
    ("", None, None),
    ("# x", None, None),
    ("begin", Some(LineWhy::InTransaction), None),
];

// Whether the command of a line may stand inside a transaction and outside, but for these reasons.
fn is_allowed(
    alloc: Global,
    schema: &Schema,
    line: &str,
    inside: Option<LineWhy>,
    outside: Option<LineWhy>,
) -> Result<bool, Fail>
    requires { IsWellFormed schema.now }
{
    let command = read_command(alloc, schema, line.as_bytes())?;
    Ok(allowed(true, &command).err() == inside && allowed(false, &command).err() == outside)
}

#[test]
fn keeps_the_transaction_rule(rt: HostRuntime) -> Result<(), Fail> {
    let schema = worked_schema(rt.alloc())?;
    for (line, inside, outside) in RULE {
        let stands = is_allowed(rt.alloc(), &schema, line, *inside, *outside)?;
        check_row(&rt, line, stands);
    }
    assert!(rt; LineWhy::ScriptTooLong.word() == "script too long");
    Ok(())
}

// How many lines there are before the script is over or a line is too long, how many bytes they
// have, and what came then.
fn cut(script: &[u8]) -> (usize, usize, Option<LineWhy>) {
    let mut lines = ScriptLines::new(script);
    let mut count: usize = 0;
    let mut bytes: usize = 0;
    for _ in 0..5000 {
        match lines.next_line() {
            Ok(Some(line)) => {
                count = count.saturating_add(1);
                bytes = bytes.saturating_add(line.len());
            }
            Ok(None) => return (count, bytes, None),
            Err(reason) => return (count, bytes, Some(reason)),
        }
    }
    (count, bytes, None)
}

// So many bytes x, and then an end.
fn long_line(alloc: Global, len: usize, end: &[u8]) -> Result<Vec<u8>, AllocError> {
    let mut line = vec![in alloc; b'x'; len]?;
    line.extend_from_slice(end)?;
    Ok(line)
}

#[test]
fn cuts_scripts(rt: HostRuntime) -> Result<(), Fail> {
    let mut lines = ScriptLines::new(b"a\r\n\r\r\n\nb\r");
    let wanted: [&[u8]; 4] = [b"a", b"\r", b"", b"b\r"];
    for line in wanted {
        assert!(rt; lines.next_line() == Ok(Some(line)));
    }
    assert!(rt; lines.next_line() == Ok(None));
    Ok(())
}

#[test]
fn keeps_the_limit_of_lines(rt: HostRuntime) -> Result<(), Fail> {
    let alloc = rt.alloc();
    let lines: [(usize, &[u8], (usize, usize, Option<LineWhy>)); 6] = [
        (4096, b"", (1, 4096, None)),
        (4096, b"\nx", (2, 4097, None)),
        (4097, b"", (0, 0, Some(LineWhy::TooLong))),
        (4096, b"\r\n", (0, 0, Some(LineWhy::TooLong))),
        (4095, b"\r\n", (1, 4095, None)),
        (4095, b"\r", (1, 4096, None)),
    ];
    for (len, end, wanted) in lines {
        let script = long_line(alloc, len, end)?;
        assert!(rt; cut(&script) == wanted);
    }
    Ok(())
}

#[test]
fn keeps_the_limit_of_scripts(rt: HostRuntime) -> Result<(), Fail> {
    let alloc = rt.alloc();
    let line = long_line(alloc, 4095, b"\n")?;
    let mut script = Vec::new(alloc);
    for _ in 0..4096 {
        script.extend_from_slice(&line)?;
    }
    assert!(rt; cut(&script) == (4096, 16_773_120, None));
    script.extend_from_slice(b"\n")?;
    assert!(rt; cut(&script) == (4096, 16_773_120, Some(LineWhy::ScriptTooLong)));
    Ok(())
}
