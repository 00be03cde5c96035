// What stands in the leaves after a script, beside entries that were worked out by hand.
ghost use Rattle.std.specs.Prelude.{◌≡◌, ◌≤◌, length, IfOk};
ghost use Rattle.gx_schema.specs.Rules.{IsSchema};
ghost use Rattle.gx_schema.specs.WellFormed.{IsWellFormed};
ghost use Rattle.gx_equation.specs.Printing.{AreWritten};
ghost use Rattle.gx_equation.specs.Seen.{definitions_of};
ghost use Rattle.gx_types.specs.Nodes.{AreNodes, AreLinkNodes, AreOwned};
ghost use Rattle.gx_memory_leaves.specs.Plain.{working_of};
ghost use Rattle.gx_states.specs.Internal.{AreFor};
ghost use Rattle.gx_engine.specs.Steps.{IsReady, schema_of, built_of, leaves_of};

use crate::row::check_row;
use gx_commands::{LONGEST_LINE, LineWhy, allowed};
use gx_engine::Engine;
use gx_equation::{Equation, read_equation};
use gx_memory_leaves::PlainLeaves;
use gx_memory_machine::MemoryMachine;
use gx_ports::{Entries, Leaves};
use gx_schema::{Schema, read_schema};
use gx_script::read_command;
use gx_types::{Built, build};
use gx_typing::typed;
use gx_values::{KeyBuf, Octets, Span};
use std::alloc::Global;
use std::process::Abort;
use std::test::Fail;

fn schema_of(alloc: Global, text: &[u8]) -> Result<Schema, Fail>
    ensures valid { IfOk result (λ schema. IsSchema schema) }
    ensures well_formed { IfOk result IsWellFormed }
{
    if text.len() >= 200 {
        return Err("a long schema".into());
    }
    Ok(read_schema(alloc, text)?)
}

fn equation_of(alloc: Global, text: &[u8]) -> Result<Equation, Fail>
    ensures { IfOk result (λ equation. AreWritten (definitions_of equation.definitions)) }
{
    if text.len() >= 200 {
        return Err("a long equation".into());
    }
    Ok(read_equation(alloc, text)?)
}

// How the files and the links of a schema are stored.
fn built_under(alloc: Global, schema: &Schema, equation: &[u8]) -> Result<Built, Fail>
    requires { IsSchema schema.now }
    ensures nodes { IfOk result (λ built. AreNodes schema.now built.files (length built.specs)) }
    ensures link_nodes { IfOk result
        (λ built. AreLinkNodes schema.now built.files built.links (length built.specs)) }
    ensures owned { IfOk result
        (λ built. AreOwned schema.now built.files built.links built.owners (length built.specs)) }
    ensures few { IfOk result (λ built. length built.specs ≤ 255) }
{
    let equation = equation_of(alloc, equation)?;
    let typing = typed(alloc, schema, &equation)?;
    Ok(build(alloc, schema, &equation, typing)?)
}

// A schema, and how its files and its links are stored.
fn built(alloc: Global, schema: &[u8], equation: &[u8]) -> Result<(Schema, Built), Fail>
    ensures stored { IfOk result (λ texts. AreFor texts.0 texts.1 (length texts.1.specs)) }
    ensures well_formed { IfOk result (λ texts. IsWellFormed texts.0) }
{
    let schema = schema_of(alloc, schema)?;
    let built = built_under(alloc, &schema, equation)?;
    Ok((schema, built))
}

fn empty_leaves(alloc: Global, count: u32) -> Result<PlainLeaves<MemoryMachine>, Fail>
    ensures { IfOk result (λ leaves. length (working_of leaves) ≡ count) }
{
    let machine = MemoryMachine::new(alloc)?;
    match PlainLeaves::make(alloc, machine, count) {
        Ok(leaves) => Ok(leaves),
        Err((_, error)) => Err(error)?,
    }
}

pub(crate) fn started(
    alloc: Global,
    schema: &[u8],
    equation: &[u8],
) -> Result<Engine<PlainLeaves<MemoryMachine>>, Fail>
    ensures ready { IfOk result
        (λ engine. AreFor (schema_of engine) (built_of engine) (length (working_of (leaves_of engine)))) }
    ensures well_formed { IfOk result (λ engine. IsWellFormed (schema_of engine)) }
{
    let (schema, built) = built(alloc, schema, equation)?;
    let leaves = empty_leaves(alloc, built.specs.0.len() as u32)?;
    Ok(Engine::start(schema, built, leaves))
}

// Carries out the command of a line, and appends its answer.
fn carry_out<B: Leaves + Drop>(
    alloc: Global,
    line: &[u8],
    engine: &mut Engine<B>,
    answers: &mut Octets,
) -> Result<(), Fail>
    requires ready { IsReady B.View engine.old }
    requires well_formed { IsWellFormed (schema_of engine.old) }
    ensures ready { IsReady B.View engine.new }
    ensures schema { schema_of engine.new ≡ schema_of engine.old }
{
    if line.len() > LONGEST_LINE {
        return Err(LineWhy::TooLong)?;
    }
    let command = read_command(alloc, engine.schema(), line)?;
    allowed(engine.inside(), &command)?;
    engine.step(alloc, command, answers)?;
    Ok(())
}

// The answers of a script's lines.
pub(crate) fn played<B: Leaves + Drop>(
    alloc: Global,
    script: &str,
    engine: &mut Engine<B>,
) -> Result<Octets, Fail>
    requires ready { IsReady B.View engine.old }
    requires well_formed { IsWellFormed (schema_of engine.old) }
    ensures ready { IsReady B.View engine.new }
    ensures schema { schema_of engine.new ≡ schema_of engine.old }
{
    let mut answers = Octets(Vec::new(alloc));
    for line in script.split('\n') {
        carry_out(alloc, line.as_bytes(), engine, &mut answers)?;
    }
    Ok(answers)
}

// Appends the bytes, each as two hexadecimal digits.
fn push_digits(alloc: Global, bytes: &[u8], text: &mut String) -> Result<(), Fail> {
    for byte in bytes {
        text.push_str(format!(in alloc; "{byte:02x}")?.as_str())?;
    }
    Ok(())
}

// Appends an entry as a line: the number of the leaf, the key and the body.
fn push_entry(
    alloc: Global,
    leaf: u32,
    (key, body): (&[u8], &[u8]),
    text: &mut String,
) -> Result<(), Fail> {
    text.push_str(format!(in alloc; "{leaf} ")?.as_str())?;
    push_digits(alloc, key, text)?;
    text.push_str("=")?;
    push_digits(alloc, body, text)?;
    text.push_str("\n")?;
    Ok(())
}

// Appends the entries of a leaf.
fn push_entries(
    alloc: Global,
    leaf: u32,
    entries: &Entries,
    text: &mut String,
) -> Result<(), Fail> {
    for index in 0..entries.len() {
        let entry = entries.entry(index);
        push_entry(alloc, leaf, (entry.key, entry.body), text)?;
    }
    Ok(())
}

// The entries of all leaves.
pub(crate) fn leaves_text<B: Leaves>(alloc: Global, leaves: &mut B) -> Result<String, Fail> {
    let mut text = String::new(alloc);
    let all = Span {
        lo: KeyBuf::from_slice(b""),
        hi: KeyBuf::from_slice(b""),
    };
    for leaf in 0..leaves.leaves() {
        let mut entries = Entries::new(alloc);
        leaves.select(alloc, leaf, &all, &mut entries)?;
        push_entries(alloc, leaf, &entries, &mut text)?;
    }
    Ok(text)
}

// A script on a database that is stored by an equation, its answers, and the entries that there are
// after it.
#[derive(Clone, Copy)]
struct Case {
    schema: &'static str,
    equation: &'static str,
    script: &'static str,
    answers: &'static str,
    entries: &'static str,
}

// A link between two files of keys alone.
const LINKED: &str = "file d (k int) file e (k int) link l (d, e)";

const CASES: &[Case] = &[
    // Parts by the key: each bound is the least key of its part.
    Case {
        schema: "file f (k int)",
        equation: "f = partition(k 10 20, heap, heap, heap)",
        script: "begin
insert f 19
insert f 20
insert f 9
insert f 10",
        answers: "begun
ok
ok
ok
ok
",
        entries: "0 8000000000000009=
1 800000000000000a=
1 8000000000000013=
2 8000000000000014=
",
    },
    // Parts by another field: a record stands in one part at a time.
    Case {
        schema: "file f (k int, v int)",
        equation: "f = partition(v 10, actual(heap), actual(heap))",
        script: "begin\ninsert f 1 10",
        answers: "begun
ok
",
        entries: "1 8000000000000001=000000000000000a\n",
    },
    Case {
        schema: "file f (k int, v int)",
        equation: "f = partition(v 10, actual(heap), actual(heap))",
        script: "begin
insert f 1 10
update f 1 v 9",
        answers: "begun
ok
ok
",
        entries: "0 8000000000000001=0000000000000009\n",
    },
    Case {
        schema: "file f (k int, v int)",
        equation: "f = partition(v 10, actual(heap), actual(heap))",
        script: "begin
insert f 1 10
update f 1 v 9
delete f 1",
        answers: "begun
ok
ok
ok
",
        entries: "",
    },
    // The key and a text, whose body has its length first.
    Case {
        schema: "file f (k int, t text 5)",
        equation: "f = actual(heap)",
        script: r#"begin
insert f 7 "ann"
get f 7
get f 8
commit"#,
        answers: r#"begun
ok
f 7 "ann"
none
committed 1
"#,
        entries: "0 8000000000000007=03616e6e\n",
    },
    // Eight bytes in pieces of four: the last piece of a full multiple is empty.
    Case {
        schema: "file f (k int, v int)",
        equation: "f = actual(divide(4, heap))",
        script: "begin
insert f 1 7
get f 1",
        answers: "begun
ok
f 1 7
",
        entries: "0 80000000000000018000000000000000=00000000
0 80000000000000018000000000000001=00000007
0 80000000000000018000000000000002=
",
    },
    // The second part of a record stands only where a field of it isn't its default.
    Case {
        schema: "file f (k int, a int, b text 3)",
        equation: "f = segment(a, actual(heap), actual(heap))",
        script: r#"begin
insert f 1 5 ""
update f 1 b "x""#,
        answers: "begun
ok
ok
",
        entries: "0 8000000000000001=0000000000000005
1 8000000000000001=0178
",
    },
    Case {
        schema: "file f (k int, a int, b text 3)",
        equation: "f = segment(a, actual(heap), actual(heap))",
        script: r#"begin
insert f 1 5 ""
update f 1 b "x"
update f 1 b """#,
        answers: "begun
ok
ok
ok
",
        entries: "0 8000000000000001=0000000000000005\n",
    },
    // A body within a body, whose length is in two bytes.
    Case {
        schema: "file f (k int, t text 5)",
        equation: "f = actual(actual(heap))",
        script: r#"begin
insert f 7 "ann""#,
        answers: "begun
ok
",
        entries: "0 8000000000000007=000403616e6e\n",
    },
    // A ring: the owner leads to its first member, a member to the next one, and the last to the
    // owner.
    Case {
        schema: LINKED,
        equation: "d = heap e = heap l = ring(actual(heap), actual(heap))",
        script: "begin
insert d 1
insert e 5
insert e 9
connect l 1 9
connect l 1 5",
        answers: "begun
ok
ok
ok
ok
ok
",
        entries: "0 8000000000000001=
1 8000000000000005=
1 8000000000000009=
2 8000000000000001=0000000000000005
3 8000000000000005=0000000000000000000880000000000000090000000000000001
3 8000000000000009=0000000000000001000880000000000000010000000000000001
",
    },
    // Its first member goes.
    Case {
        schema: LINKED,
        equation: "d = heap e = heap l = ring(actual(heap), actual(heap))",
        script: "begin
insert d 1
insert e 5
insert e 9
connect l 1 9
connect l 1 5
disconnect l 5",
        answers: "begun
ok
ok
ok
ok
ok
ok
",
        entries: "0 8000000000000001=
1 8000000000000005=
1 8000000000000009=
2 8000000000000001=0000000000000009
3 8000000000000009=0000000000000001000880000000000000010000000000000001
",
    },
    // Its last member goes.
    Case {
        schema: LINKED,
        equation: "d = heap e = heap l = ring(actual(heap), actual(heap))",
        script: "begin
insert d 1
insert e 5
insert e 9
connect l 1 9
connect l 1 5
disconnect l 9",
        answers: "begun
ok
ok
ok
ok
ok
ok
",
        entries: "0 8000000000000001=
1 8000000000000005=
1 8000000000000009=
2 8000000000000001=0000000000000005
3 8000000000000005=0000000000000001000880000000000000010000000000000001
",
    },
    // Both go, and one goes twice.
    Case {
        schema: LINKED,
        equation: "d = heap e = heap l = ring(actual(heap), actual(heap))",
        script: "begin
insert d 1
insert e 5
insert e 9
connect l 1 9
connect l 1 5
disconnect l 5
disconnect l 9
disconnect l 9",
        answers: "begun
ok
ok
ok
ok
ok
ok
ok
refused: no owner
",
        entries: "0 8000000000000001=
1 8000000000000005=
1 8000000000000009=
",
    },
    // An inverted list: each pair under its owner, and the owner under each member.
    Case {
        schema: LINKED,
        equation: "d = heap e = heap l = inverted(heap, actual(heap))",
        script: "begin
insert d 1
insert e 5
insert e 9
connect l 1 9
connect l 1 5",
        answers: "begun
ok
ok
ok
ok
ok
",
        entries: "0 8000000000000001=
1 8000000000000005=
1 8000000000000009=
2 80000000000000018000000000000005=
2 80000000000000018000000000000009=
3 8000000000000005=0000000000000001
3 8000000000000009=0000000000000001
",
    },
    // One member stays.
    Case {
        schema: LINKED,
        equation: "d = heap e = heap l = inverted(heap, actual(heap))",
        script: "begin
insert d 1
insert e 5
insert e 9
connect l 1 9
connect l 1 5
disconnect l 5",
        answers: "begun
ok
ok
ok
ok
ok
ok
",
        entries: "0 8000000000000001=
1 8000000000000005=
1 8000000000000009=
2 80000000000000018000000000000009=
3 8000000000000009=0000000000000001
",
    },
    // An array in pieces: the keys of all members under their owner.
    Case {
        schema: LINKED,
        equation: "d = heap e = heap l = array(divide(64, heap))",
        script: "begin
insert d 1
insert e 5
insert e 9
connect l 1 9
connect l 1 5",
        answers: "begun
ok
ok
ok
ok
ok
",
        entries: "0 8000000000000001=
1 8000000000000005=
1 8000000000000009=
2 80000000000000018000000000000000=80000000000000058000000000000009
",
    },
    // The last of them goes.
    Case {
        schema: LINKED,
        equation: "d = heap e = heap l = array(divide(64, heap))",
        script: "begin
insert d 1
insert e 5
insert e 9
connect l 1 9
connect l 1 5
disconnect l 9",
        answers: "begun
ok
ok
ok
ok
ok
ok
",
        entries: "0 8000000000000001=
1 8000000000000005=
1 8000000000000009=
2 80000000000000018000000000000000=8000000000000005
",
    },
    // Both go.
    Case {
        schema: LINKED,
        equation: "d = heap e = heap l = array(divide(64, heap))",
        script: "begin
insert d 1
insert e 5
insert e 9
connect l 1 9
connect l 1 5
disconnect l 9
disconnect l 5",
        answers: "begun
ok
ok
ok
ok
ok
ok
ok
",
        entries: "0 8000000000000001=
1 8000000000000005=
1 8000000000000009=
",
    },
];

// Whether the script of a case has its answers.
fn is_answered<B: Leaves + Drop>(
    alloc: Global,
    case: &Case,
    engine: &mut Engine<B>,
) -> Result<bool, Fail>
    requires ready { IsReady B.View engine.old }
    requires well_formed { IsWellFormed (schema_of engine.old) }
{
    Ok(played(alloc, case.script, engine)?.as_slice() == case.answers.as_bytes())
}

// Whether the leaves have the entries of a case.
fn have_entries<B: Leaves>(alloc: Global, case: &Case, leaves: &mut B) -> Result<bool, Fail> {
    Ok(leaves_text(alloc, leaves)?.as_str() == case.entries)
}

fn expect_case(rt: &impl Abort, alloc: Global, case: &Case) -> Result<(), Fail> {
    let mut engine = started(alloc, case.schema.as_bytes(), case.equation.as_bytes())?;
    check_row(rt, case.script, is_answered(alloc, case, &mut engine)?);
    let mut leaves = engine.into_leaves();
    check_row(rt, case.script, have_entries(alloc, case, &mut leaves)?);
    Ok(())
}

#[test]
fn leaves_hold_the_parts_of_records(rt: HostRuntime) -> Result<(), Fail> {
    for case in CASES {
        expect_case(&rt, rt.alloc(), case)?;
    }
    Ok(())
}
