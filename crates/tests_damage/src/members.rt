// A database of several leaves, of which a root page is overwritten with zeros.
use crate::devices::{Database, is_damaged, is_sound, overwritten, played};
use std::alloc::Global;
use std::test::Fail;

/// 6,007 blocks have 3,000 pages: page p is block 3,007 + p.
const MEMBERS: Database = Database {
    schema: "file dept (dno int, dname text 12)
file emp (eno int, name text 24, pay int, room text 8)
link works (dept, emp)
",
    equation: "dept = actual(bplus)
emp = index(pay, segment(name pay, actual(bplus), actual(heap)), bplus)
works = ring(actual(hash(8)), actual(bplus))
",
    making: "make S E d 6007",
};

/// The root page of leaf 1 is page 17, in this block.
const BLOCK: u32 = 3024;

const SOUND: &[u8] = b"leaf 0 dept bplus entries 10
leaf 1 emp bplus entries 200
leaf 2 emp heap entries 100
leaf 3 emp bplus entries 200
leaf 4 works hash(8) entries 10
leaf 5 works bplus entries 200
file dept records 10
file emp records 200
link works members 200
sound
";

/// The line that inserts this member.
fn member(alloc: Global, number: u8) -> Result<String, Fail> {
    let pay = 1000 + 37 * u32::from(number) % 100;
    let room = if number % 2 == 0 { "" } else { "r7" };
    Ok(format!(in alloc; "insert emp {number} \"emp {number}\" {pay} \"{room}\"\n")?)
}

/// The line that connects this member with its owner.
fn connection(alloc: Global, number: u8) -> Result<String, Fail> {
    let owner = number % 10;
    Ok(format!(in alloc; "connect works {owner} {number}\n")?)
}

/// Ten owners and two hundred members.
fn script(alloc: Global) -> Result<Vec<u8>, Fail> {
    let mut script = b"begin\n".to_vec(alloc)?;
    for owner in 0..10 {
        let line = format!(in alloc; "insert dept {owner} \"dept {owner}\"\n")?;
        script.extend_from_slice(line.as_bytes())?;
    }
    for number in 1..201 {
        script.extend_from_slice(member(alloc, number)?.as_bytes())?;
    }
    for number in 1..201 {
        script.extend_from_slice(connection(alloc, number)?.as_bytes())?;
    }
    script.extend_from_slice(b"commit\n")?;
    Ok(script)
}

#[test]
fn a_root_among_several_is_damaged(rt: HostRuntime) -> Result<(), Fail> {
    let alloc = rt.alloc();
    let machine = played(&rt, alloc, MEMBERS, &script(alloc)?)?;
    assert!(&rt; is_sound(alloc, &machine, SOUND)?);
    let machine = overwritten(alloc, &machine, BLOCK, 0, &[0; 4096])?;
    assert!(&rt; is_damaged(alloc, &machine, 3007..6007)?);
    Ok(())
}
