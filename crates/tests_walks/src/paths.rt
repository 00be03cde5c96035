// The records that paths give, by their keys, walked from either end.
use crate::company::Company;
use crate::row::check_row;
use gx_paths::read_path;
use gx_rows::Row;
use gx_values::{Octets, Value};
use gx_walks::{Direction, answer, direction, has_few_conds, path_rows};
use std::alloc::Global;
use std::test::Fail;

// A line, the keys that its path gives, and the direction of the path where the keys of both files
// are indexed.
#[derive(Clone, Copy)]
struct Case {
    line: &'static str,
    keys: &'static [i64],
    direction: Direction,
}

const CASES: &[Case] = &[
    Case {
        line: "path dept where dno = 3 down works where pay >= 1091",
        keys: &[43, 143],
        direction: Direction::Forward,
    },
    Case {
        line: "path emp where pay = 1037 up works",
        keys: &[1],
        direction: Direction::Forward,
    },
    Case {
        line: "path dept down works where eno = 5",
        keys: &[5],
        direction: Direction::Backward,
    },
    Case {
        line: "path emp up works",
        keys: &[1, 2, 3, 4, 5, 6, 7, 8, 9, 10],
        direction: Direction::Forward,
    },
    Case {
        line: "path emp down heads down heads where eno <= 7",
        keys: &[4, 5, 6, 7],
        direction: Direction::Backward,
    },
    Case {
        line: "path emp where eno = 7 up heads up heads",
        keys: &[1],
        direction: Direction::Forward,
    },
    Case {
        line: "path dept where dno > 8 down works where eno < 20 up heads down heads",
        keys: &[8, 9, 10, 11, 18, 19],
        direction: Direction::Forward,
    },
    Case {
        line: "path emp where eno = 150 down heads up works",
        keys: &[],
        direction: Direction::Forward,
    },
];

// Whether a walk of the path gives records with these keys.
fn gives(alloc: Global, case: &Case, direction: Direction) -> Result<bool, Fail> {
    let mut company = Company::new(alloc)?;
    let query = read_path(alloc, &company.schema, case.line.as_bytes())?;
    if !has_few_conds(&query) {
        return Err("too many conditions".into());
    }
    let rows = path_rows(alloc, &mut company, &query, direction)?;
    Ok(have_keys(&rows, case.keys))
}

fn have_keys(rows: &[Row], keys: &[i64]) -> bool {
    rows.len() == keys.len() && rows.iter().zip(keys).all(|(row, key)| has_key(row, *key))
}

fn has_key(row: &Row, key: i64) -> bool {
    matches!(row.key, Value::Int(found) if found == key)
}

// Whether the path has the direction.
fn is_directed(alloc: Global, case: &Case) -> Result<bool, Fail> {
    let company = Company::new(alloc)?;
    let query = read_path(alloc, &company.schema, case.line.as_bytes())?;
    if !has_few_conds(&query) {
        return Err("too many conditions".into());
    }
    Ok(direction(&query, &[true], &[true]) == case.direction)
}

#[test]
fn gives_the_records_from_either_end(rt: HostRuntime) -> Result<(), Fail> {
    for case in CASES {
        check_row(&rt, case.line, gives(rt.alloc(), case, Direction::Forward)?);
        check_row(
            &rt,
            case.line,
            gives(rt.alloc(), case, Direction::Backward)?,
        );
    }
    Ok(())
}

#[test]
fn goes_from_the_end_of_lesser_rank(rt: HostRuntime) -> Result<(), Fail> {
    for case in CASES {
        check_row(&rt, case.line, is_directed(rt.alloc(), case)?);
    }
    Ok(())
}

// What the path of a line answers.
fn text_of(alloc: Global, line: &[u8]) -> Result<Octets, Fail> {
    let mut company = Company::new(alloc)?;
    let query = read_path(alloc, &company.schema, line)?;
    if !has_few_conds(&query) {
        return Err("too many conditions".into());
    }
    let mut text = Octets(Vec::new(alloc));
    answer(alloc, &mut company, &query, &mut text)?;
    Ok(text)
}

#[test]
fn answers_by_the_lines_of_its_records(rt: HostRuntime) -> Result<(), Fail> {
    let line = b"path dept where dno = 3 down works where pay >= 1091";
    let text = text_of(rt.alloc(), line)?;
    assert!(rt; text.as_slice() == b"emp 43 1091\nemp 143 1091\nfound 2\n".as_slice());
    Ok(())
}
