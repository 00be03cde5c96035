// Path lines: what each asks for, and the first reason why a line is none.
ghost use Rattle.std.specs.Prelude.{IfOk};
ghost use Rattle.gx_schema.specs.WellFormed.{IsWellFormed};

use crate::row::check_row;
use gx_commands::{LineWhy, NoCommand};
use gx_paths::{is_path, read_path};
use gx_schema::{Schema, read_schema};
use std::alloc::Global;
use std::test::Fail;

fn worked_schema(alloc: Global) -> Result<Schema, Fail>
    ensures { IfOk result (λ s. IsWellFormed s) }
{
    let text = b"file dept (dno int, dname text 12)
file emp (eno int, name text 24, pay int)
file where (where int, down int)
link works (dept, emp)
link heads (emp, emp)
link up (where, dept)
";
    Ok(read_schema(alloc, text)?)
}

// A line, and its path as `Debug` prints it.
#[derive(Clone, Copy)]
struct Case {
    line: &'static str,
    path: &'static str,
}

const CASES: &[Case] = &[
    Case {
        line: "path dept down works",
        path: "\
            PathQuery { first: Find { file: 0, conds: Conds([]), of: None, \
            order: OrderBy { field: 0, desc: false } }, legs: Legs([\
            Leg { way: Down(0), find: Find { file: 1, conds: Conds([]), of: None, \
            order: OrderBy { field: 0, desc: false } } }]) }",
    },
    Case {
        line: "\tpath  emp where pay = 1037 up\tworks ",
        path: "\
            PathQuery { first: Find { file: 1, conds: Conds([Cond { field: 2, op: Equal, \
            bound: Int(1037) }]), of: None, order: OrderBy { field: 0, desc: false } }, \
            legs: Legs([Leg { way: Up(0), find: Find { file: 0, conds: Conds([]), of: None, \
            order: OrderBy { field: 0, desc: false } } }]) }",
    },
    Case {
        line: "path where where where > 0 and down < 3 down up where dno <> 1 down works",
        path: "\
            PathQuery { first: Find { file: 2, conds: Conds([Cond { field: 0, op: Greater, \
            bound: Int(0) }, Cond { field: 1, op: Less, bound: Int(3) }]), of: None, \
            order: OrderBy { field: 0, desc: false } }, legs: Legs([\
            Leg { way: Down(2), find: Find { file: 0, conds: Conds([Cond { field: 0, \
            op: Unequal, bound: Int(1) }]), of: None, \
            order: OrderBy { field: 0, desc: false } } }, \
            Leg { way: Down(0), find: Find { file: 1, conds: Conds([]), of: None, \
            order: OrderBy { field: 0, desc: false } } }]) }",
    },
];

fn is_read(alloc: Global, schema: &Schema, case: &Case) -> Result<bool, Fail>
    requires { IsWellFormed schema.now }
{
    let path = read_path(alloc, schema, case.line.as_bytes())?;
    Ok(format!(in alloc; "{path:?}")?.as_str() == case.path)
}

#[test]
fn reads_paths(rt: HostRuntime) -> Result<(), Fail> {
    let schema = worked_schema(rt.alloc())?;
    for case in CASES {
        check_row(&rt, case.line, is_read(rt.alloc(), &schema, case)?);
    }
    Ok(())
}

const BAD: &[(&str, LineWhy)] = &[
    ("path dept down works \x01", LineWhy::Character),
    ("path zzz \"", LineWhy::Quote),
    ("path", LineWhy::Word),
    ("find dept", LineWhy::Word),
    ("\"path\" dept down works", LineWhy::Word),
    ("path dept", LineWhy::Word),
    ("path dept where dno 1 down works", LineWhy::Word),
    ("path dept sideways works", LineWhy::Word),
    ("path dept down", LineWhy::Word),
    ("path dept down works order pay", LineWhy::Word),
    ("path dept down works and eno = 1", LineWhy::Word),
    ("path zzz down works", LineWhy::File),
    ("path works down works", LineWhy::File),
    ("path dept down zzz", LineWhy::Link),
    ("path dept down \"works\"", LineWhy::Link),
    ("path dept up works", LineWhy::Link),
    ("path dept down works down works", LineWhy::Link),
    ("path dept where pay = 1 down works", LineWhy::Field),
    ("path dept down works where dno = 1", LineWhy::Field),
    ("path dept where dno = \"a\" down works", LineWhy::Value),
];

// Whether the line means no path, for this reason.
fn is_bad(alloc: Global, schema: &Schema, line: &str, reason: LineWhy) -> bool
    requires { IsWellFormed schema.now }
{
    match read_path(alloc, schema, line.as_bytes()) {
        Err(NoCommand::Bad(why)) => why == reason,
        _ => false,
    }
}

#[test]
fn names_the_first_reason(rt: HostRuntime) -> Result<(), Fail> {
    let schema = worked_schema(rt.alloc())?;
    for (line, reason) in BAD {
        check_row(&rt, line, is_bad(rt.alloc(), &schema, line, *reason));
    }
    Ok(())
}

// A path from emp over so many legs, up and down a link from emp to itself, and then an end.
const EIGHT_LEGS: &str = "path emp down heads up heads down heads up heads down heads up heads \
    down heads where eno = 1 up heads";

const NINE_LEGS: &str = "path emp down heads up heads down heads up heads down heads up heads \
    down heads up heads down zzz";

#[test]
fn keeps_the_limit_of_legs(rt: HostRuntime) -> Result<(), Fail> {
    let schema = worked_schema(rt.alloc())?;
    let path = read_path(rt.alloc(), &schema, EIGHT_LEGS.as_bytes())?;
    assert!(rt; path.legs.0.len() == 8);
    assert!(rt; is_bad(rt.alloc(), &schema, NINE_LEGS, LineWhy::Word));
    Ok(())
}

#[test]
fn tells_path_lines(rt: HostRuntime) -> Result<(), Fail> {
    for line in ["path", " \tpath x", "path \"", "path\t\x01"] {
        check_row(&rt, line, is_path(line.as_bytes()));
    }
    for line in ["", "# path", "paths", "\"path\" x", "find path"] {
        check_row(&rt, line, !is_path(line.as_bytes()));
    }
    Ok(())
}
