// The records that the calls of an engine give which only read, beside those worked out by hand.
ghost use Rattle.std.specs.Prelude.{◌≡◌};
ghost use Rattle.gx_schema.specs.WellFormed.{IsWellFormed};
ghost use Rattle.gx_engine.specs.Steps.{IsReady, schema_of};

use crate::row::check_row;
use crate::structures::{leaves_text, played, started};
use gx_commands::{Command, LONGEST_LINE, LineWhy};
use gx_engine::{Engine, StepStop};
use gx_gather::Recs;
use gx_ports::{Leaves, Stop};
use gx_script::read_command;
use gx_values::{Rec, Value, Values};
use std::alloc::Global;
use std::process::Abort;
use std::test::Fail;

const SCHEMA: &str = "file d (k int, n text 5) file e (k int, v int) link l (d, e)";

// Under each kind of linkset.
const EQUATIONS: &[&str] = &[
    "d = actual(heap) e = index(v, actual(heap), heap) l = array(divide(64, heap))",
    "d = actual(heap) e = index(v, actual(heap), heap) l = ring(actual(heap), actual(heap))",
    "d = actual(heap) e = index(v, actual(heap), heap) l = inverted(heap, actual(heap))",
];

const SCRIPT: &str = r#"begin
insert d 1 "one"
insert d 2 "two"
insert e 5 60
insert e 7 50
insert e 9 70
connect l 1 9
connect l 1 5"#;

// Lines that are asked one after the other, and all records that they give.
#[derive(Clone, Copy)]
struct Asked {
    lines: &'static str,
    records: &'static str,
}

const ASKED: &[Asked] = &[
    Asked {
        lines: "find e where v >= 60 order v desc",
        records: "9 70
5 60
",
    },
    Asked {
        lines: "find e where v = 50",
        records: "7 50\n",
    },
    Asked {
        lines: "find e where k > 9",
        records: "",
    },
    // By key, though the last one was connected first.
    Asked {
        lines: "members l 1",
        records: "5 60
9 70
",
    },
    // An owner without a member, and one without a record.
    Asked {
        lines: "members l 2\nmembers l 3",
        records: "",
    },
    Asked {
        lines: "owner l 9",
        records: "1 one\n",
    },
    // A member without an owner, and one without a record.
    Asked {
        lines: "owner l 7\nowner l 8",
        records: "",
    },
    // What was there stays.
    Asked {
        lines: "owner l 5
members l 1
find d where n = \"two\"",
        records: "1 one
5 60
9 70
2 two
",
    },
];

// Appends the records that a line asks for, by the call that reads them, and answers what it does.
fn ask<B: Leaves + Drop>(
    alloc: Global,
    line: &[u8],
    engine: &mut Engine<B>,
    out: &mut Recs,
) -> Result<Result<(), StepStop>, Fail>
    requires ready { IsReady B.View engine.old }
    requires well_formed { IsWellFormed (schema_of engine.old) }
    ensures ready { IsReady B.View engine.new }
    ensures schema { schema_of engine.new ≡ schema_of engine.old }
{
    if line.len() > LONGEST_LINE {
        return Err(LineWhy::TooLong)?;
    }
    match read_command(alloc, engine.schema(), line)? {
        Command::Find(find) => {
            if find.of.is_some() {
                return Err("a find with an owner".into());
            }
            Ok(engine.records(alloc, &find, out))
        }
        Command::Members(link, owner, _) => Ok(engine.members_of(alloc, link, &owner, out)),
        Command::Owner(link, member) => Ok(engine.owner_of(alloc, link, &member, out)),
        _ => Err("a command that reads no records".into()),
    }
}

// The records that lines ask for.
fn records_of<B: Leaves + Drop>(
    alloc: Global,
    lines: &str,
    engine: &mut Engine<B>,
) -> Result<Recs, Fail>
    requires ready { IsReady B.View engine.old }
    requires well_formed { IsWellFormed (schema_of engine.old) }
    ensures ready { IsReady B.View engine.new }
    ensures schema { schema_of engine.new ≡ schema_of engine.old }
{
    let mut records = Recs::new(alloc);
    for line in lines.split('\n') {
        ask(alloc, line.as_bytes(), engine, &mut records)??;
    }
    Ok(records)
}

fn push_value(alloc: Global, value: &Value, text: &mut String) -> Result<(), Fail> {
    match value {
        Value::Int(number) => text.push_str(format!(in alloc; "{number}")?.as_str())?,
        Value::Text(content) => {
            for byte in content.as_slice() {
                text.push(char::from(*byte))?;
            }
        }
        Value::Bytes(_) => text.push_str("bytes")?,
    }
    Ok(())
}

// Appends a record as a line: its key, and each other value behind a space.
fn push_record(alloc: Global, record: &Rec, text: &mut String) -> Result<(), Fail> {
    for key in &record.key.0 {
        push_value(alloc, key, text)?;
    }
    for value in &record.fields.0 {
        text.push_str(" ")?;
        push_value(alloc, value, text)?;
    }
    text.push_str("\n")?;
    Ok(())
}

fn records_text(alloc: Global, records: &Recs) -> Result<String, Fail> {
    let mut text = String::new(alloc);
    for record in &records.0 {
        push_record(alloc, record, &mut text)?;
    }
    Ok(text)
}

fn expect_asked<B: Leaves + Drop>(
    rt: &impl Abort,
    alloc: Global,
    engine: &mut Engine<B>,
) -> Result<(), Fail>
    requires ready { IsReady B.View engine.old }
    requires well_formed { IsWellFormed (schema_of engine.old) }
{
    for asked in ASKED {
        let records = records_of(alloc, asked.lines, engine)?;
        let text = records_text(alloc, &records)?;
        check_row(rt, asked.lines, text.as_str() == asked.records);
    }
    Ok(())
}

fn expect_asked_under(rt: &impl Abort, alloc: Global, equation: &str) -> Result<(), Fail> {
    let mut engine = started(alloc, SCHEMA.as_bytes(), equation.as_bytes())?;
    played(alloc, SCRIPT, &mut engine)?;
    expect_asked(rt, alloc, &mut engine)
}

#[test]
fn records_are_those_that_are_asked_for(rt: HostRuntime) -> Result<(), Fail> {
    for equation in EQUATIONS {
        expect_asked_under(&rt, rt.alloc(), equation)?;
    }
    Ok(())
}

// Whether a field is indexed, of a file and a field that there are.
fn is_indexed<B: Leaves + Drop>(engine: &Engine<B>, file: u16, field: u16) -> Result<bool, Fail>
    requires { IsReady B.View engine.now }
{
    let files = &engine.schema().files.0;
    if usize::from(file) >= files.len() {
        return Err("no such file".into());
    }
    if usize::from(field) >= files[usize::from(file)].fields.0.len() {
        return Err("no such field".into());
    }
    Ok(engine.indexed(file, field))
}

#[test]
fn a_field_is_indexed_where_an_index_is_by_it(rt: HostRuntime) -> Result<(), Fail> {
    let engine = started(rt.alloc(), SCHEMA.as_bytes(), EQUATIONS[0].as_bytes())?;
    assert!(rt; !is_indexed(&engine, 0, 1)?);
    assert!(rt; !is_indexed(&engine, 1, 0)?);
    assert!(rt; is_indexed(&engine, 1, 1)?);
    Ok(())
}

#[test]
fn want_of_memory_is_kept_and_gives_the_changes_up(rt: HostRuntime) -> Result<(), Fail> {
    let alloc = rt.alloc();
    let mut engine = started(alloc, SCHEMA.as_bytes(), EQUATIONS[0].as_bytes())?;
    played(alloc, SCRIPT, &mut engine)?;
    assert_eq!(rt; engine.no_memory(), StepStop::Now(Stop::NoMemory));
    assert!(rt; !engine.inside());
    assert_eq!(rt; engine.no_memory(), StepStop::Stopped(Stop::NoMemory));
    let mut records = Recs::new(alloc);
    let asked = ask(alloc, b"find d", &mut engine, &mut records)?;
    assert_eq!(rt; asked, Err(StepStop::Stopped(Stop::NoMemory)));
    assert_eq!(rt; records.0.len(), 0);
    let mut leaves = engine.into_leaves();
    assert_eq!(rt; leaves_text(alloc, &mut leaves)?.as_str(), "");
    Ok(())
}
