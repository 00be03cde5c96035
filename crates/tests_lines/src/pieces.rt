// A script that is fed in pieces.
use gx_reader::{Fed, LineReader};
use std::alloc::{AllocError, Global};
use std::test::Fail;

// A line and its number.
#[derive(Debug, PartialEq, Eq, Drop)]
struct Numbered {
    number: u32,
    line: Vec<u8>,
}

// The lines of a script that is fed in pieces of so many bytes, and the end of them: `More`, or the
// limit that was passed, with its number.
fn cut(alloc: Global, script: &[u8], len: usize) -> Result<(Vec<Numbered>, Fed, u32), AllocError> {
    let mut reader = LineReader::new();
    let mut lines = Vec::new(alloc);
    let mut rest = script;
    while !rest.is_empty() {
        let (count, fed) = reader.feed(&rest[..rest.len().min(len.max(1))]);
        rest = &rest[count..];
        match fed {
            Fed::More => {}
            Fed::Line => add(alloc, &mut lines, &reader)?,
            Fed::TooLong | Fed::ScriptTooLong => return Ok((lines, fed, reader.number())),
        }
    }
    if reader.finish() == Fed::Line {
        add(alloc, &mut lines, &reader)?;
    }
    Ok((lines, Fed::More, reader.number()))
}

// The line that ended stands behind the others.
fn add(alloc: Global, lines: &mut Vec<Numbered>, reader: &LineReader) -> Result<(), AllocError> {
    let number = reader.number();
    let line = reader.line().to_vec(alloc)?;
    lines.push(Numbered { number, line })?;
    Ok(())
}

#[test]
fn lines_are_the_same_however_a_script_is_cut(rt: HostRuntime) -> Result<(), Fail> {
    let alloc = rt.alloc();
    let wanted: [&[u8]; 4] = [b"a", b"\r", b"", b"b\r"];
    for len in 1..10 {
        let (lines, end, number) = cut(alloc, b"a\r\n\r\r\n\nb\r", len)?;
        assert!(rt; end == Fed::More && number == 4 && lines.len() == 4);
        let mut number = 0u32;
        for (found, line) in lines.iter().zip(wanted) {
            number = number.saturating_add(1);
            assert!(rt; found.number == number && found.line.as_slice() == line);
        }
    }
    Ok(())
}

// So many bytes x, and then an end.
fn long_line(alloc: Global, len: usize, end: &[u8]) -> Result<Vec<u8>, AllocError> {
    let mut line = vec![in alloc; b'x'; len]?;
    line.extend_from_slice(end)?;
    Ok(line)
}

// A CR at the end of a line counts, also where it is dropped.
#[test]
fn the_limit_of_lines_is_kept(rt: HostRuntime) -> Result<(), Fail> {
    let alloc = rt.alloc();
    let rows: [(usize, &[u8], usize, Fed, u32); 6] = [
        (4096, b"", 1, Fed::More, 1),
        (4096, b"\nx", 2, Fed::More, 2),
        (4097, b"", 0, Fed::TooLong, 1),
        (4096, b"\r\n", 0, Fed::TooLong, 1),
        (4095, b"\r\n", 1, Fed::More, 1),
        (4095, b"\r", 1, Fed::More, 1),
    ];
    for (len, end, count, wanted, number) in rows {
        let script = long_line(alloc, len, end)?;
        for piece in [1, 1000, 4096, 5000] {
            let (lines, end, last) = cut(alloc, &script, piece)?;
            assert!(rt; lines.len() == count && end == wanted && last == number);
        }
    }
    Ok(())
}

// 4,096 lines of 4,096 bytes are all that a script may have.
#[test]
fn the_limit_of_scripts_is_kept(rt: HostRuntime) -> Result<(), Fail> {
    let alloc = rt.alloc();
    let line = long_line(alloc, 4095, b"\n")?;
    let mut script = Vec::new(alloc);
    for _ in 0..4096 {
        script.extend_from_slice(&line)?;
    }
    let (lines, end, number) = cut(alloc, &script, 1000)?;
    assert!(rt; lines.len() == 4096 && end == Fed::More && number == 4096);
    script.extend_from_slice(b"\n")?;
    let (lines, end, number) = cut(alloc, &script, 1000)?;
    assert!(rt; lines.len() == 4096 && end == Fed::ScriptTooLong && number == 4097);
    Ok(())
}
