// Plays of scripts: the plain program and the program beside texts worked out by hand, and the
// program beside the plain one.
use crate::linked::LINKED_EQUATIONS;
use crate::row::check_row;
use gx_memory_machine::MemoryMachine;
use gx_plain::play;
use gx_schema::read_schema;
use gx_top::top;
use std::alloc::Global;
use std::process::Abort;
use std::test::Fail;

const FILES: &str = "file dept (dno int, dname text 12)
file emp (eno int, name text 24, pay int, room text 8)
file word (w text 6, n int)
";

// Equations that store the same records in other ways: by kinds of leaves, by parts, and by layers
// one below the other.
const EQUATIONS: [&str; 4] = [
    "dept = actual(heap)
emp = actual(heap)
word = actual(heap)
",
    "dept = actual(bplus)
emp = actual(hash(8))
word = actual(isam)
",
    r#"dept = partition(dno 2 5, actual(heap), actual(bplus), actual(isam))
emp = partition(pay 0 10, actual(heap), actual(hash(2)), actual(heap))
word = partition(w "a" "b", actual(heap), actual(heap), actual(heap))
"#,
    r#"dept = actual(partition(dno 2 5, heap, bplus, isam))
emp = partition(eno 6, partition(pay 0, actual(heap), actual(heap)),
    partition(room "8", actual(heap), actual(actual(heap))))
word = actual(actual(heap))
"#,
];

pub(crate) const LINKED: &str = "file dept (dno int, dname text 12)
file emp (eno int, name text 24, pay int, room text 8)
link works (dept, emp)
link boss (emp, emp)
";

// What the plain program says of a script.
pub(crate) fn plain(alloc: Global, schema: &str, script: &[u8]) -> Result<Vec<u8>, Fail> {
    let schema = schema.as_bytes();
    let schema = read_schema(alloc, &schema[..schema.len().min(16380)])?;
    let text = play(alloc, &schema, script)?;
    Ok(text.0)
}

// A machine with two texts and a script, and room for what is said.
fn machine(
    alloc: Global,
    (schema, equation): (&str, &str),
    script: &[u8],
) -> Result<MemoryMachine, Fail> {
    let mut machine = MemoryMachine::new(alloc)?;
    machine.add_text(alloc, "S", schema.as_bytes())?;
    machine.add_text(alloc, "E", equation.as_bytes())?;
    machine.set_script(alloc, script)?;
    machine.reserve(alloc, 1000, 60000)?;
    Ok(machine)
}

// The words of a request on the two texts.
fn words(alloc: Global, request: &str) -> Result<Vec<String>, Fail> {
    let mut words = Vec::new(alloc);
    for word in [request, "S", "E"] {
        words.push(String::from_str(alloc, word)?)?;
    }
    Ok(words)
}

// A machine that a request on a script left.
fn asked(
    alloc: Global,
    request: &str,
    texts: (&str, &str),
    script: &[u8],
) -> Result<MemoryMachine, Fail> {
    let machine = machine(alloc, texts, script)?;
    Ok(top(alloc, &words(alloc, request)?, machine).1)
}

// Whether the program says this of a script that it plays.
pub(crate) fn says(
    alloc: Global,
    texts: (&str, &str),
    script: &[u8],
    said: &[u8],
) -> Result<bool, Fail> {
    let machine = asked(alloc, "try", texts, script)?;
    Ok(machine.said() == said)
}

// Whether the program says this of the plans of a script.
pub(crate) fn explains(
    alloc: Global,
    texts: (&str, &str),
    script: &[u8],
    said: &[u8],
) -> Result<bool, Fail> {
    let machine = asked(alloc, "explain", texts, script)?;
    Ok(machine.said() == said)
}

// A script, and what is said of it.
#[derive(Clone, Copy)]
struct Case {
    script: &'static str,
    said: &'static str,
}

const PLAIN_CASES: [Case; 10] = [
    Case {
        script: "",
        said: "",
    },
    Case {
        script: "# nothing\n\n \t\nget dept -0\n",
        said: "none\n",
    },
    Case {
        script: r#"begin
insert dept 7 "a""b"
insert dept -3 ""
get dept 7
commit
get dept -3
find dept
"#,
        said: r#"begun
ok
ok
dept 7 "a""b"
committed 1
dept -3 ""
dept -3 ""
dept 7 "a""b"
found 2
"#,
    },
    Case {
        script: r#"begin
insert dept 1 "a"
insert dept 1 "b"
abort
begin
insert dept 1 "b"
commit
get dept 1
begin
commit
"#,
        said: r#"begun
ok
refused: key exists
dropped
begun
ok
committed 1
dept 1 "b"
begun
committed 2
"#,
    },
    Case {
        script: r#"begin
insert dept 1 "b"
insert dept 2 "a"
insert dept 3 "b"
find dept order dname desc
find dept order dname
find dept where dno >= 2 and dname = "b"
find dept where dno <> 2
find dept order dno desc
"#,
        said: r#"begun
ok
ok
ok
dept 1 "b"
dept 3 "b"
dept 2 "a"
found 3
dept 2 "a"
dept 1 "b"
dept 3 "b"
found 3
dept 3 "b"
found 1
dept 1 "b"
dept 3 "b"
found 2
dept 3 "b"
dept 2 "a"
dept 1 "b"
found 3
stopped at line 9: open transaction
"#,
    },
    Case {
        script: r#"begin
insert emp 5 "e" 10 "r"
update emp 5 room "s" pay -1
update emp 6 pay 1
get emp 5
delete emp 5
delete emp 5
get emp 5
reorganize emp
reorganize works
commit
"#,
        said: r#"begun
ok
ok
refused: no record
emp 5 "e" -1 "s"
ok
refused: no record
none
ok
ok
committed 1
"#,
    },
    Case {
        script: r#"begin
insert dept 1 "d"
insert emp 5 "e" 2 ""
insert emp 9 "f" 1 ""
connect works 7 5
connect works 1 5
connect works 1 5
connect works 1 9
members works 1
members works 1 order pay
members works 2
owner works 5
owner works 6
delete emp 5
delete dept 1
find emp of works 1
find emp where pay = 2 of works 1
find emp of works 3
disconnect works 5
disconnect works 5
disconnect works 6
owner works 5
delete emp 5
members works 1
commit
"#,
        said: r#"begun
ok
ok
ok
refused: no record
ok
refused: has owner
ok
emp 5 "e" 2 ""
emp 9 "f" 1 ""
found 2
emp 9 "f" 1 ""
emp 5 "e" 2 ""
found 2
refused: no record
dept 1 "d"
refused: no record
refused: linked
refused: linked
emp 5 "e" 2 ""
emp 9 "f" 1 ""
found 2
emp 5 "e" 2 ""
found 1
refused: no record
ok
refused: no owner
refused: no record
none
ok
emp 9 "f" 1 ""
found 1
committed 1
"#,
    },
    Case {
        script: r#"begin
insert emp 1 "" 0 ""
connect boss 1 1
owner boss 1
delete emp 1
disconnect boss 1
delete emp 1
commit"#,
        said: r#"begun
ok
ok
emp 1 "" 0 ""
refused: linked
ok
ok
committed 1
"#,
    },
    Case {
        script: r#"begin
insert dept 1 "a"
commit
begin
delete dept 1
find dept
abort
find dept
grab dept
"#,
        said: r#"begun
ok
committed 1
begun
ok
found 0
dropped
dept 1 "a"
found 1
stopped at line 9: word
"#,
    },
    Case {
        script: "get dept 1
commit
",
        said: "none
stopped at line 2: no transaction
",
    },
];

// Commands, refusals and orders on links, and some on records.
// Expects that the plain program says this of a script, and so does the program under each linkset.
fn expect_case(rt: &impl Abort, alloc: Global, case: Case) -> Result<(), Fail> {
    let said = plain(alloc, LINKED, case.script.as_bytes())?;
    check_row(rt, case.script, said.as_slice() == case.said.as_bytes());
    for equation in LINKED_EQUATIONS {
        let script = case.script.as_bytes();
        check_row(
            rt,
            case.script,
            says(alloc, (LINKED, equation), script, &said)?,
        );
    }
    Ok(())
}

#[test]
fn plays_say_what_was_worked_out(rt: HostRuntime) -> Result<(), Fail> {
    for case in PLAIN_CASES {
        expect_case(&rt, rt.alloc(), case)?;
    }
    Ok(())
}

// Every command on records, every refusal, every order, and every end, and records that move
// between parts.
const SCRIPTS: [&str; 28] = [
    "",
    "\n\
# x\n\
 \t\n\
get dept -0\n\
get word \"\"\n\
find emp\n\
find word order n desc",
    "begin\r\n\
insert dept 7 \"a\"\"b\"\r\n\
insert dept -3 \"\"\n\
get dept 7\n\
commit\n\
get dept -3\n\
find dept\n",
    r#"begin
insert dept 1 "a"
insert dept 1 "b"
abort
begin
insert dept 1 "b"
commit
get dept 1
begin
commit
"#,
    r#"begin
insert dept 1 "b"
insert dept 2 "a"
insert dept 3 "b"
find dept order dname desc
find dept order dname
find dept order dno desc
find dept order dno
"#,
    r#"begin
insert dept 1 "b"
insert dept 2 "a"
insert dept 3 "b"
commit
find dept where dno >= 2 and dname = "b"
find dept where dno <> 2
find dept where dname < "b" and dname > ""
find dept where dno <= 2 order dname
find dept where dno < -9223372036854775808
find dept where dno <= 9223372036854775807 order dno desc
"#,
    r#"begin
insert emp 5 "e" 10 "r"
update emp 5 room "s" pay -1
update emp 6 pay 1
get emp 5
find emp where pay < 0 and room = "s" and name <> "f"
delete emp 5
delete emp 5
get emp 5
reorganize emp
commit
"#,
    r#"begin
insert word "b" 1
insert word "ab" 1
insert word "a" 2
insert word "" 2
insert word "~ " 1
find word
find word order n
find word order n desc
find word order w desc
find word where w > "a"
find word where w <= "ab" and n = 2
commit
"#,
    r#"begin
insert emp 9223372036854775807 "max" -9223372036854775808 ""
insert emp -9223372036854775808 "min" 9223372036854775807 ""
find emp
find emp order pay
update emp 9223372036854775807 name "" pay 0 room "8 bytes!"
get emp 9223372036854775807
commit
"#,
    r#"begin
insert dept 1 "a"
commit
begin
delete dept 1
find dept
get dept 1
abort
find dept
get dept 1
"#,
    r#"begin
insert dept 1 "a"
commit
begin
update dept 1 dname "b"
commit
begin
update dept 1 dname "c"
abort
get dept 1
begin
delete dept 1
commit
get dept 1
"#,
    r#"begin
insert dept 0007 "x"
get dept 7
get dept -7
delete dept 07
get dept 7
commit
"#,
    r#"begin
insert dept 1 "a"
"#,
    "begin
get dept 1

",
    "begin
begin
get dept 1
",
    "get dept 1
commit
get dept 1
",
    "abort\n",
    "insert dept 1 \"a\"\n",
    "get dept 1
reorganize dept
",
    "get dept 1
grab dept
",
    "get dept 1
get dept
",
    "get dept 1
get nothing 1
",
    "get dept 1
members works 1
",
    r#"begin
insert dept 1 "a"
update dept 1 dno 2
"#,
    r#"begin
insert dept 1 "a"
insert dept 2 "thirteen byte"
"#,
    "get dept 1\nget word \"a\x01\"\n",
    r#"begin
insert dept 6 "f"
insert dept 1 "a"
insert dept 5 "b"
insert dept 2 "b"
insert dept 4 ""
insert dept 2 "c"
find dept
find dept where dno >= 2 and dno < 5
find dept where dname = "b" order dno desc
delete dept 5
get dept 5
reorganize dept
find dept order dname
commit
"#,
    r#"begin
insert emp 7 "g" 0 "8"
insert emp 5 "e" -1 "s"
insert emp 6 "f" 10 ""
insert emp -1 "n" 9 "7"
find emp order pay
update emp 5 pay 10
update emp 7 room "" pay -5
update emp 6 room "9"
insert emp 5 "again" 0 ""
find emp
find emp where pay >= 0 and pay < 10
get emp 7
commit
begin
update emp 5 pay -9
delete emp 6
find emp
abort
find emp where room > "7"
"#,
];

// Expects that the program says the same of a script under each equation as the plain one.
fn expect_alike(rt: &impl Abort, alloc: Global, script: &str) -> Result<(), Fail> {
    let said = plain(alloc, FILES, script.as_bytes())?;
    for equation in EQUATIONS {
        check_row(
            rt,
            script,
            says(alloc, (FILES, equation), script.as_bytes(), &said)?,
        );
    }
    Ok(())
}

#[test]
fn the_program_says_what_the_plain_one_does(rt: HostRuntime) -> Result<(), Fail> {
    for script in SCRIPTS {
        expect_alike(&rt, rt.alloc(), script)?;
    }
    Ok(())
}

// A script with a comment of so many letters.
fn commented(alloc: Global, letters: usize) -> Result<Vec<u8>, Fail> {
    let mut script = b"begin\ninsert dept 1 \"a\"\ncommit\n#".to_vec(alloc)?;
    script.extend_from_slice(&vec![in alloc; b'x'; letters]?)?;
    script.extend_from_slice(b"\nget dept 1\n")?;
    Ok(script)
}

// Expects that both the program and the plain one say this of a script.
fn expect_both(rt: &impl Abort, alloc: Global, script: &[u8], said: &str) -> Result<(), Fail> {
    assert!(rt; says(alloc, (FILES, EQUATIONS[0]), script, said.as_bytes())?);
    let plain = plain(alloc, FILES, script)?;
    assert!(rt; plain.as_slice() == said.as_bytes());
    Ok(())
}

// A line of 4,096 bytes.
#[test]
fn a_line_of_full_length_is_read(rt: HostRuntime) -> Result<(), Fail> {
    let script = commented(rt.alloc(), 4095)?;
    let said = "begun\nok\ncommitted 1\ndept 1 \"a\"\n";
    expect_both(&rt, rt.alloc(), &script, said)
}

// A line of 4,097 bytes.
#[test]
fn a_longer_line_stops_a_script(rt: HostRuntime) -> Result<(), Fail> {
    let script = commented(rt.alloc(), 4096)?;
    let said = "begun\nok\ncommitted 1\nstopped at line 4: too long\n";
    expect_both(&rt, rt.alloc(), &script, said)
}

// A script that ends in a quoted text.
#[test]
fn a_cut_script_is_told_alike(rt: HostRuntime) -> Result<(), Fail> {
    let script = b"get dept 1\nget word \"a".as_slice();
    let said = "none\nstopped at line 2: quote\n";
    expect_both(&rt, rt.alloc(), script, said)
}
