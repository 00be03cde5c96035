// Plays of paths on databases that are drawn by a seed: the program beside the plain one.
ghost use Rattle.std.specs.Prelude.{◌<◌, length};

use crate::linked::{EDITS, LINKED_EQUATIONS, Numbers, push_line};
use crate::plays::{LINKED, explains, plain, says};
use crate::row::check_row;
use std::alloc::Global;
use std::test::Fail;

// The file at which a path is.
#[derive(Clone, Copy, PartialEq, Eq)]
enum At {
    Dept,
    Emp,
}

// Conditions on the records of a file, or none. D stands for a department, E for a person and O for
// a number, as in the lines that edit.
const DEPT_CONDS: [&str; 6] = [
    "",
    "",
    "",
    " where dno = D",
    " where dno <> D",
    " where dname > \"c\"",
];

const EMP_CONDS: [&str; 12] = [
    "",
    "",
    "",
    "",
    "",
    "",
    " where eno = E",
    " where eno >= E",
    " where pay = O",
    " where pay > O",
    " where room = \"r\"",
    " where pay > 3 and eno <> E",
];

// Lines that fill a database where they are carried out often. Some are refused.
const FILLING: [&str; 6] = [
    "insert dept D \"d\"\n",
    "insert emp E \"n\" O \"r\"\n",
    "insert emp E \"m\" O \"s\"\n",
    "connect works D E\n",
    "connect boss O E\n",
    "connect boss O E\n",
];

fn push_conds(text: &mut Vec<u8>, numbers: &mut Numbers, at: At) -> Result<(), Fail> {
    match at {
        At::Dept => push_line(text, numbers, &DEPT_CONDS),
        At::Emp => push_line(text, numbers, &EMP_CONDS),
    }
}

// Appends the way of a leg, and tells the file to which it leads.
fn push_way(text: &mut Vec<u8>, numbers: &mut Numbers, at: At) -> Result<At, Fail> {
    let (way, to) = match (at, numbers.below(3)) {
        (At::Dept, _) => (" down works", At::Emp),
        (At::Emp, 0) => (" up works", At::Dept),
        (At::Emp, 1) => (" down boss", At::Emp),
        (At::Emp, _) => (" up boss", At::Emp),
    };
    text.extend_from_slice(way.as_bytes())?;
    Ok(to)
}

// Appends a path of so many legs, with any conditions.
fn push_path(text: &mut Vec<u8>, numbers: &mut Numbers, legs: u8) -> Result<(), Fail> {
    let (file, mut at) = if numbers.below(2) == 0 {
        ("path dept", At::Dept)
    } else {
        ("path emp", At::Emp)
    };
    text.extend_from_slice(file.as_bytes())?;
    push_conds(text, numbers, at)?;
    for _ in 0..legs {
        at = push_way(text, numbers, at)?;
        push_conds(text, numbers, at)?;
    }
    Ok(text.push(b'\n')?)
}

// Appends two paths of each number of legs, from one to eight.
fn push_paths(text: &mut Vec<u8>, numbers: &mut Numbers) -> Result<(), Fail> {
    for legs in 1..9 {
        push_path(text, numbers, legs)?;
        push_path(text, numbers, legs)?;
    }
    Ok(())
}

fn push_lines(
    text: &mut Vec<u8>,
    numbers: &mut Numbers,
    lines: &[&str],
    count: u8,
) -> Result<(), Fail>
    requires { 0 < length lines.now }
{
    for _ in 0..count {
        push_line(text, numbers, lines)?;
    }
    Ok(())
}

// Paths inside a transaction that fills the database, behind it, inside one that is given up, and
// behind that.
fn script(alloc: Global, numbers: &mut Numbers) -> Result<Vec<u8>, Fail> {
    let mut text = b"begin\n".to_vec(alloc)?;
    push_lines(&mut text, numbers, &FILLING, 200)?;
    push_paths(&mut text, numbers)?;
    text.extend_from_slice(b"commit\n")?;
    push_paths(&mut text, numbers)?;
    text.extend_from_slice(b"begin\n")?;
    push_lines(&mut text, numbers, &EDITS, 24)?;
    push_paths(&mut text, numbers)?;
    text.extend_from_slice(b"abort\n")?;
    push_paths(&mut text, numbers)?;
    Ok(text)
}

#[test]
fn paths_say_the_same_under_each_equation(rt: HostRuntime) -> Result<(), Fail> {
    for seed in 0..3 {
        let script = script(rt.alloc(), &mut Numbers(seed))?;
        let said = plain(rt.alloc(), LINKED, &script)?;
        for equation in LINKED_EQUATIONS {
            check_row(
                &rt,
                equation,
                says(rt.alloc(), (LINKED, equation), &script, &said)?,
            );
        }
    }
    Ok(())
}

// Equations in which people have an index, and the direction of a path whose first people are those
// of a room, and whose last ones those of a pay.
const BY_AN_INDEX: [(&str, &str); 3] = [
    (
        "dept = actual(bplus)
emp = index(room, actual(bplus), bplus)
works = inverted(bplus, actual(bplus))
boss = ring(actual(bplus), actual(bplus))
",
        "path forward",
    ),
    (
        "dept = actual(heap)
emp = index(pay, actual(bplus), heap)
works = ring(actual(heap), actual(bplus))
boss = inverted(bplus, actual(heap))
",
        "path backward",
    ),
    (
        "dept = actual(hash(4))
emp = index(pay, actual(isam), isam)
works = array(divide(64, bplus))
boss = array(divide(9, hash(3)))
",
        "path backward",
    ),
];

// Appends a path of so many legs, from people of a room to people of a pay.
fn push_path_of_people(text: &mut Vec<u8>, numbers: &mut Numbers, legs: u8) -> Result<(), Fail> {
    text.extend_from_slice(b"path emp where room = \"r\"")?;
    let mut at = At::Emp;
    for _ in 1..legs {
        at = push_way(text, numbers, at)?;
    }
    let way = match at {
        At::Dept => " down works",
        At::Emp => " down boss",
    };
    text.extend_from_slice(way.as_bytes())?;
    push_line(text, numbers, &[" where pay = O\n", " where pay >= O\n"])
}

// Four paths of each number of legs, from one to eight.
fn paths_of_people(alloc: Global, numbers: &mut Numbers) -> Result<Vec<u8>, Fail> {
    let mut text = Vec::new(alloc);
    for legs in 1..9 {
        for _ in 0..4 {
            push_path_of_people(&mut text, numbers, legs)?;
        }
    }
    Ok(text)
}

// The plans of those paths, which all are walked in one direction.
fn plans(alloc: Global, direction: &str) -> Result<Vec<u8>, Fail> {
    let mut said = Vec::new(alloc);
    for line in 1..33 {
        said.extend_from_slice(format!(in alloc; "line {line}: {direction}\n")?.as_bytes())?;
    }
    Ok(said)
}

// The lines that fill a database, and then these.
fn filled(alloc: Global, numbers: &mut Numbers, lines: &[u8]) -> Result<Vec<u8>, Fail> {
    let mut text = b"begin\n".to_vec(alloc)?;
    push_lines(&mut text, numbers, &FILLING, 200)?;
    text.extend_from_slice(b"commit\n")?;
    text.extend_from_slice(lines)?;
    Ok(text)
}

#[test]
fn an_index_forces_the_end_of_a_walk(rt: HostRuntime) -> Result<(), Fail> {
    let alloc = rt.alloc();
    for seed in 0..3 {
        let mut numbers = Numbers(seed);
        let paths = paths_of_people(alloc, &mut numbers)?;
        let script = filled(alloc, &mut numbers, &paths)?;
        let said = plain(alloc, LINKED, &script)?;
        for (equation, direction) in BY_AN_INDEX {
            let texts = (LINKED, equation);
            let plans = plans(alloc, direction)?;
            check_row(&rt, equation, explains(alloc, texts, &paths, &plans)?);
            check_row(&rt, equation, says(alloc, texts, &script, &said)?);
        }
    }
    Ok(())
}
