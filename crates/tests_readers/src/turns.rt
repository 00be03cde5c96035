// Lines of interleaved sessions: the session of each, and where its own line begins.
use crate::row::check_row;
use gx_commands::{LineWhy, read_turn};
use std::test::Fail;

const TURNS: &[(&str, Result<Option<(u8, usize)>, LineWhy>)] = &[
    ("", Ok(None)),
    (" \t", Ok(None)),
    ("#", Ok(None)),
    ("  #1 \x01 \"", Ok(None)),
    ("1 begin", Ok(Some((1, 2)))),
    ("8 commit", Ok(Some((8, 2)))),
    ("  3 get f 1", Ok(Some((3, 4)))),
    ("1  begin", Ok(Some((1, 2)))),
    ("1\tbegin", Ok(Some((1, 2)))),
    ("1", Ok(Some((1, 1)))),
    ("\t8", Ok(Some((8, 2)))),
    ("1 ", Ok(Some((1, 2)))),
    // a comment behind the number is tested for nothing
    ("1 #\"\x01", Ok(Some((1, 2)))),
    ("1 # \x01", Ok(Some((1, 2)))),
    ("\"a #b", Err(LineWhy::Session)),
    ("x # \x01", Err(LineWhy::Session)),
    ("\x01 #", Err(LineWhy::Session)),
    ("0 begin", Err(LineWhy::Session)),
    ("9 begin", Err(LineWhy::Session)),
    ("12 begin", Err(LineWhy::Session)),
    ("1x begin", Err(LineWhy::Session)),
    ("begin", Err(LineWhy::Session)),
    ("1\"a\" begin", Err(LineWhy::Session)),
    ("\"1\" begin", Err(LineWhy::Session)),
    ("9 \x01", Err(LineWhy::Character)),
    ("1 a # \x01", Err(LineWhy::Character)),
    ("9 insert f \"a", Err(LineWhy::Quote)),
    ("1 insert f \"a #", Err(LineWhy::Quote)),
];

#[test]
fn reads_turns(rt: HostRuntime) -> Result<(), Fail> {
    for (line, wanted) in TURNS {
        check_row(&rt, line, read_turn(line.as_bytes()) == *wanted);
    }
    assert!(rt; LineWhy::Session.word() == "session");
    Ok(())
}
