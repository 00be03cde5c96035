// What paths answer on an engine, beside answers worked out by hand.
ghost use Rattle.std.specs.Prelude.{◌≡◌};
ghost use Rattle.gx_schema.specs.WellFormed.{IsWellFormed};
ghost use Rattle.gx_engine.specs.Steps.{IsReady, schema_of};

use crate::row::check_row;
use crate::structures::{played, started};
use gx_engine::{Engine, StepStop};
use gx_paths::read_path;
use gx_ports::{Leaves, Stop};
use gx_values::Octets;
use gx_walks::{answer_path, has_few_conds};
use std::alloc::Global;
use std::process::Abort;
use std::test::Fail;

const SCHEMA: &str = "file dept (dno int, dname text 12)
file emp (eno int, name text 24, pay int, room text 8)
link works (dept, emp)
";

// Under each kind of linkset; the pay is indexed in the first.
const EQUATIONS: &[&str] = &[
    "dept = actual(heap)
emp = index(pay, segment(name pay, actual(heap), actual(heap)), heap)
works = ring(actual(heap), actual(heap))",
    "dept = actual(heap) emp = actual(heap) works = inverted(heap, actual(heap))",
    "dept = actual(heap) emp = actual(heap) works = array(divide(64, heap))",
];

const DEPARTMENTS: i64 = 10;

const MEMBERS: i64 = 200;

// A line, and what its path answers.
#[derive(Clone, Copy)]
struct Asked {
    line: &'static str,
    text: &'static str,
}

const ASKED: &[Asked] = &[
    // Forward, down and up.
    Asked {
        line: "path dept where dno = 3 down works where pay >= 1091",
        text: r#"emp 43 "emp 43" 1091 "r7"
emp 143 "emp 143" 1091 "r7"
found 2
"#,
    },
    Asked {
        line: "path emp where pay = 1037 up works",
        text: r#"dept 1 "dept 1"
found 1
"#,
    },
    // Backward, up and down.
    Asked {
        line: "path dept down works where eno = 5",
        text: r#"emp 5 "emp 5" 1085 "r7"
found 1
"#,
    },
    Asked {
        line: "path emp where pay >= 1098 up works where dno = 4",
        text: r#"dept 4 "dept 4"
found 1
"#,
    },
    // More than one leg, over a link that leads back.
    Asked {
        line: "path emp where eno = 7 up works down works where eno < 30",
        text: r#"emp 7 "emp 7" 1059 "r7"
emp 17 "emp 17" 1029 "r7"
emp 27 "emp 27" 1099 "r7"
found 3
"#,
    },
    Asked {
        line: "path dept where dno > 9 down works",
        text: "found 0\n",
    },
];

// The lines that insert the records and connect them: member k has department k mod 10.
fn script(alloc: Global) -> Result<String, Fail> {
    let mut text = String::new(alloc);
    text.push_str("begin")?;
    for key in 0..DEPARTMENTS {
        text.push_str(format!(in alloc; "\ninsert dept {key} \"dept {key}\"")?.as_str())?;
    }
    for key in 1..=MEMBERS {
        text.push_str(member_lines(alloc, key)?.as_str())?;
    }
    Ok(text)
}

fn member_lines(alloc: Global, key: i64) -> Result<String, Fail> {
    let pay = 1000 + key.wrapping_mul(37).rem_euclid(100);
    let room = if key.rem_euclid(2) == 0 { "" } else { "r7" };
    let owner = key.rem_euclid(10);
    let insert = format!(in alloc; "\ninsert emp {key} \"emp {key}\" {pay} \"{room}\"")?;
    Ok(format!(in alloc; "{insert}\nconnect works {owner} {key}")?)
}

// What the path of a line answers.
fn answered<B: Leaves + Drop>(
    alloc: Global,
    line: &str,
    engine: &mut Engine<B>,
) -> Result<Result<Octets, StepStop>, Fail>
    requires ready { IsReady B.View engine.old }
    requires well_formed { IsWellFormed (schema_of engine.old) }
    ensures ready { IsReady B.View engine.new }
    ensures schema { schema_of engine.new ≡ schema_of engine.old }
{
    let query = read_path(alloc, engine.schema(), line.as_bytes())?;
    if !has_few_conds(&query) {
        return Err("too many conditions".into());
    }
    let mut text = Octets(Vec::new(alloc));
    match answer_path(alloc, engine, &query, &mut text) {
        Ok(()) => Ok(Ok(text)),
        Err(stop) => Ok(Err(stop)),
    }
}

fn expect_answers<B: Leaves + Drop>(
    rt: &impl Abort,
    alloc: Global,
    engine: &mut Engine<B>,
) -> Result<(), Fail>
    requires ready { IsReady B.View engine.old }
    requires well_formed { IsWellFormed (schema_of engine.old) }
{
    for asked in ASKED {
        let text = answered(alloc, asked.line, engine)??;
        check_row(rt, asked.line, text.as_slice() == asked.text.as_bytes());
    }
    Ok(())
}

fn expect_answers_under(rt: &impl Abort, alloc: Global, equation: &str) -> Result<(), Fail> {
    let mut engine = started(alloc, SCHEMA.as_bytes(), equation.as_bytes())?;
    played(alloc, script(alloc)?.as_str(), &mut engine)?;
    expect_answers(rt, alloc, &mut engine)
}

#[test]
fn paths_answer_from_either_end(rt: HostRuntime) -> Result<(), Fail> {
    for equation in EQUATIONS {
        expect_answers_under(&rt, rt.alloc(), equation)?;
    }
    Ok(())
}

#[test]
fn a_path_after_a_stop_answers_the_stop(rt: HostRuntime) -> Result<(), Fail> {
    let alloc = rt.alloc();
    let mut engine = started(alloc, SCHEMA.as_bytes(), EQUATIONS[1].as_bytes())?;
    assert_eq!(rt; engine.no_memory(), StepStop::Now(Stop::NoMemory));
    let text = answered(alloc, ASKED[0].line, &mut engine)?;
    assert!(rt; matches!(text, Err(StepStop::Stopped(Stop::NoMemory))));
    Ok(())
}
