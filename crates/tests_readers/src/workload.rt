// The script of the workload, for few records.
use crate::row::check_row;
use gx_work::script;
use std::test::Fail;

const DEPARTMENTS: &[u8] = br#"begin
insert dept 0 "dept 0"
insert dept 1 "dept 1"
insert dept 2 "dept 2"
insert dept 3 "dept 3"
insert dept 4 "dept 4"
insert dept 5 "dept 5"
insert dept 6 "dept 6"
insert dept 7 "dept 7"
insert dept 8 "dept 8"
insert dept 9 "dept 9"
commit
"#;

// How many records, and what their script ends with.
#[derive(Clone, Copy)]
struct Case {
    name: &'static str,
    records: u32,
    end: &'static [u8],
}

const CASES: [Case; 4] = [
    Case {
        name: "no record",
        records: 0,
        end: br#"insert dept 9 "dept 9"
commit
begin
commit
find emp where pay = 1500
find emp of works 3
"#,
    },
    Case {
        name: "one record",
        records: 1,
        end: br#"insert dept 9 "dept 9"
commit
begin
insert emp 1 "emp 1" 1037 "r7"
connect works 1 1
commit
begin
commit
find emp where pay = 1500
find emp of works 3
"#,
    },
    Case {
        name: "a whole group",
        records: 20,
        end: br#"insert emp 19 "emp 19" 1003 "r7"
connect works 9 19
insert emp 20 "emp 20" 1040 ""
connect works 0 20
commit
begin
update emp 3 pay 1500
update emp 6 pay 1500
update emp 9 pay 1500
update emp 12 pay 1500
update emp 15 pay 1500
update emp 18 pay 1500
commit
find emp where pay = 1500
find emp of works 3
"#,
    },
    Case {
        name: "a group of one behind it",
        records: 21,
        end: br#"connect works 0 20
commit
begin
insert emp 21 "emp 21" 1077 "r7"
connect works 1 21
commit
begin
update emp 3 pay 1500
update emp 6 pay 1500
update emp 9 pay 1500
update emp 12 pay 1500
update emp 15 pay 1500
update emp 18 pay 1500
update emp 21 pay 1500
commit
find emp where pay = 1500
find emp of works 3
"#,
    },
];

#[test]
fn scripts_of_few_records(rt: HostRuntime) -> Result<(), Fail> {
    for case in CASES {
        let text = script(rt.alloc(), case.records)?;
        check_row(&rt, case.name, text.as_slice().starts_with(DEPARTMENTS));
        check_row(&rt, case.name, text.as_slice().ends_with(case.end));
    }
    Ok(())
}
