// What reads say between the changes of other sessions, beside texts that were worked out by hand.
use crate::turns::{Case, STAFF, STORED, expect_case};
use std::test::Fail;

const THREE: &str = "file f (k int)
file g (k int)
file h (k int)";

const THREE_LEAVES: &str = "f = actual(heap)
g = actual(bplus)
h = actual(hash(8))";

const CASES: &[Case] = &[
    // One session reads in a transaction between the changes of another, of a file that the other
    // doesn't change.
    Case {
        schema: STAFF,
        equation: STORED,
        turns: r#"1 begin
1 insert dept 1 "a"
1 commit
1 begin
2 begin
1 insert emp 1 "b" 5 ""
2 get dept 1
1 insert emp 2 "c" 6 ""
2 find dept
1 find emp
2 commit
1 commit
2 find emp"#,
        answers: r#"1 begun
1 ok
1 committed 1
1 begun
2 begun
1 ok
2 dept 1 "a"
1 ok
2 dept 1 "a"
found 1
1 emp 1 "b" 5 ""
emp 2 "c" 6 ""
found 2
2 committed 2
1 committed 3
2 emp 1 "b" 5 ""
emp 2 "c" 6 ""
found 2
"#,
    },
    // The same outside. What the other changes is seen once it is committed.
    Case {
        schema: STAFF,
        equation: STORED,
        turns: r#"1 begin
1 insert dept 1 "a"
1 commit
1 begin
1 insert emp 1 "b" 5 ""
3 get dept 1
3 find emp
1 insert emp 2 "c" 6 ""
3 find dept
1 find emp
1 commit
3 find emp"#,
        answers: r#"1 begun
1 ok
1 committed 1
1 begun
1 ok
3 dept 1 "a"
3 found 0
1 ok
3 dept 1 "a"
found 1
1 emp 1 "b" 5 ""
emp 2 "c" 6 ""
found 2
1 committed 2
3 emp 1 "b" 5 ""
emp 2 "c" 6 ""
found 2
"#,
    },
    // A read of what another changed ends the transaction; outside it sees what was committed, and
    // the session that changed it sees its own.
    Case {
        schema: STAFF,
        equation: STORED,
        turns: r#"1 begin
1 insert emp 1 "b" 5 ""
1 commit
1 begin
1 update emp 1 pay 9
2 begin
2 get emp 1
3 get emp 1
1 get emp 1
2 abort
2 get emp 1
1 commit
3 get emp 1"#,
        answers: r#"1 begun
1 ok
1 committed 1
1 begun
1 ok
2 begun
2 ended: held by 1
3 emp 1 "b" 5 ""
1 emp 1 "b" 9 ""
2 skipped
2 emp 1 "b" 5 ""
1 committed 2
3 emp 1 "b" 9 ""
"#,
    },
    // Behind the commit of the writer, a transaction that was open before reads what it wrote.
    Case {
        schema: STAFF,
        equation: STORED,
        turns: r#"1 begin
2 begin
1 insert emp 1 "b" 5 ""
2 find dept
1 commit
2 find emp
2 insert dept 1 "a"
2 commit
3 find dept"#,
        answers: r#"1 begun
2 begun
1 ok
2 found 0
1 committed 1
2 emp 1 "b" 5 ""
found 1
2 ok
2 committed 2
3 dept 1 "a"
found 1
"#,
    },
    // Behind its abort nobody reads it, inside or outside.
    Case {
        schema: STAFF,
        equation: STORED,
        turns: r#"1 begin
1 insert emp 1 "b" 5 ""
2 begin
2 find dept
1 abort
2 find emp
3 find emp
1 begin
1 insert emp 1 "c" 6 ""
3 find emp
1 abort
3 find emp
2 commit"#,
        answers: r#"1 begun
1 ok
2 begun
2 found 0
1 dropped
2 found 0
3 found 0
1 begun
1 ended: held by 2
3 found 0
1 skipped
3 found 0
2 committed 1
"#,
    },
    // Each of two writers reads its own change, also where the other's stands in the engine.
    Case {
        schema: STAFF,
        equation: STORED,
        turns: r#"1 begin
2 begin
1 insert dept 1 "a"
2 insert emp 1 "b" 5 ""
1 get dept 1
2 get emp 1
1 update dept 1 dname "z"
2 update emp 1 pay 7
1 get dept 1
2 find emp
2 find dept
1 commit
3 find emp
3 find dept"#,
        answers: r#"1 begun
2 begun
1 ok
2 ok
1 dept 1 "a"
2 emp 1 "b" 5 ""
1 ok
2 ok
1 dept 1 "z"
2 emp 1 "b" 7 ""
found 1
2 ended: held by 1
1 committed 1
3 found 0
3 dept 1 "z"
found 1
"#,
    },
    // A `find` of an owner reads the link and the file of the owners too: neither is read where
    // another changed it.
    Case {
        schema: STAFF,
        equation: STORED,
        turns: r#"1 begin
1 insert dept 1 "a"
1 insert emp 1 "b" 5 ""
1 commit
1 begin
1 connect works 1 1
2 find emp of works 1
2 find emp
1 find emp of works 1
1 commit
2 find emp of works 1
1 begin
1 insert dept 2 "c"
2 find emp of works 2
1 find emp of works 2
3 begin
3 find emp
3 find emp of works 1"#,
        answers: r#"1 begun
1 ok
1 ok
1 committed 1
1 begun
1 ok
2 found 0
2 emp 1 "b" 5 ""
found 1
1 emp 1 "b" 5 ""
found 1
1 committed 2
2 emp 1 "b" 5 ""
found 1
1 begun
1 ok
2 refused: no record
1 found 0
3 begun
3 emp 1 "b" 5 ""
found 1
3 ended: held by 1
"#,
    },
    // So do `members` and `owner`.
    Case {
        schema: STAFF,
        equation: STORED,
        turns: r#"1 begin
1 insert dept 1 "a"
1 insert emp 1 "b" 5 ""
1 commit
1 begin
1 connect works 1 1
2 members works 1
2 owner works 1
1 owner works 1
1 abort
2 owner works 1
1 begin
1 insert emp 2 "c" 6 ""
2 owner works 2
2 get dept 1
2 members works 2
1 owner works 2"#,
        answers: r#"1 begun
1 ok
1 ok
1 committed 1
1 begun
1 ok
2 found 0
2 none
1 dept 1 "a"
1 dropped
2 none
1 begun
1 ok
2 refused: no record
2 dept 1 "a"
2 refused: no record
1 none
"#,
    },
    // Two writers of two files both read a third; what one holds so the other may not change.
    Case {
        schema: THREE,
        equation: THREE_LEAVES,
        turns: r#"1 begin
1 insert h 1
1 commit
1 begin
2 begin
1 insert f 1
2 insert g 1
1 get h 1
2 get h 1
1 find f
2 find g
3 get h 1
3 find f
3 find g
2 insert h 2
1 commit
3 find f
3 find g"#,
        answers: r#"1 begun
1 ok
1 committed 1
1 begun
2 begun
1 ok
2 ok
1 h 1
2 h 1
1 f 1
found 1
2 g 1
found 1
3 h 1
3 found 0
3 found 0
2 ended: held by 1
1 committed 2
3 f 1
found 1
3 found 0
"#,
    },
    // What was read where another's changes stand is locked: the other may not change it.
    Case {
        schema: STAFF,
        equation: STORED,
        turns: r#"1 begin
2 begin
1 insert emp 1 "b" 5 ""
2 get dept 1
1 insert dept 1 "a"
2 find emp
3 find emp
1 get dept 1
1 commit
2 commit"#,
        answers: r#"1 begun
2 begun
1 ok
2 none
1 ended: held by 2
2 found 0
3 found 0
1 skipped
1 skipped
2 committed 1
"#,
    },
];

#[test]
fn reads_say_what_their_sessions_see(rt: HostRuntime) -> Result<(), Fail> {
    for case in CASES {
        expect_case(&rt, rt.alloc(), case)?;
    }
    Ok(())
}
