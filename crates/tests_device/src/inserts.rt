// An entry is inserted where its key is absent, and counted, by leaves on pages.
use crate::databases::{EQUATION, SCHEMA, adopted, machine, make_on};
use gx_ports::Leaves;
use gx_values::{KeyBuf, Span};
use std::test::Fail;

const KEY: [u8; 8] = [0x80, 0, 0, 0, 0, 0, 0, 7];

#[test]
fn an_absent_key_is_inserted_and_counted(rt: HostRuntime) -> Result<(), Fail> {
    let alloc = rt.alloc();
    let (answer, machine) = make_on(alloc, machine(alloc)?, 101, (SCHEMA, EQUATION));
    assert!(rt; answer.is_ok());
    let mut store = adopted(alloc, machine, 64)?;
    assert!(rt; store.leaves() == 1);
    assert!(rt; store.insert(alloc, 0, &KEY, b"one")?);
    assert!(rt; !store.insert(alloc, 0, &KEY, b"two")?);
    store.commit()?;
    let all = Span {
        lo: KeyBuf::from_slice(b""),
        hi: KeyBuf::from_slice(b""),
    };
    assert!(rt; store.leaves() == 1);
    assert!(rt; store.count(alloc, 0, &all, 9)? == 1);
    assert!(rt; store.count(alloc, 0, &all, 0)? == 0);
    Ok(())
}
