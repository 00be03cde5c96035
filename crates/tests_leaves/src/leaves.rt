// Leaves in memory: what a transaction makes of them.
use Step::{Abort, Commit, Put, Remove};
use gx_memory_leaves::PlainLeaves;
use gx_memory_machine::MemoryMachine;
use gx_ports::{Entries, Leaves};
use gx_values::{KeyBuf, Span};
use std::alloc::Global;
use std::process;
use std::test::Fail;

#[derive(Clone, Copy)]
enum Step {
    Put(u8, u8),
    Remove(u8),
    Commit,
    Abort,
}

fn made(alloc: Global, machine: MemoryMachine) -> Result<PlainLeaves<MemoryMachine>, Fail> {
    Ok(PlainLeaves::make(alloc, machine, 2).map_err(|e| e.1)?)
}

fn span(lo: &[u8], hi: &[u8]) -> Span {
    Span {
        lo: KeyBuf::from_slice(&lo[..lo.len().min(400)]),
        hi: KeyBuf::from_slice(&hi[..hi.len().min(400)]),
    }
}

// Each entry as its key, its body and a blank.
fn text(alloc: Global, entries: &Entries) -> Result<Vec<u8>, Fail> {
    let mut text = Vec::new(alloc);
    for index in 0..entries.len() {
        let entry = entries.entry(index);
        text.extend_from_slice(entry.key)?;
        text.extend_from_slice(entry.body)?;
        text.push(b' ')?;
    }
    Ok(text)
}

const A: Step = Put(b'a', b'1');

const OTHER_A: Step = Put(b'a', b'2');

const NO_A: Step = Remove(b'a');

const B: Step = Put(b'b', b'3');

const NO_B: Step = Remove(b'b');

const C: Step = Put(b'c', b'4');

// What is done with one leaf, and the entries that it then has.
const CHANGES: [(&[Step], &str); 14] = [
    (&[], ""),
    (&[B, C, A], "a1 b3 c4 "),
    (&[A, OTHER_A], "a2 "),
    (&[A, NO_A], ""),
    (&[B, NO_A], "b3 "),
    (&[A, Abort], ""),
    (&[A, Commit, OTHER_A, Abort], "a1 "),
    (&[A, Commit, NO_A], ""),
    (&[A, Commit, NO_A, Abort], "a1 "),
    (&[A, Commit, NO_A, OTHER_A], "a2 "),
    (&[A, Commit, NO_A, OTHER_A, Abort], "a1 "),
    (&[A, Commit, NO_A, Commit, Abort], ""),
    (&[A, Commit, Commit, Abort], "a1 "),
    (&[A, B, Commit, NO_A, C, Commit, NO_B, Abort], "b3 c4 "),
];

// Carries out a step on the second of two leaves.
fn carry_out(
    alloc: Global,
    leaves: &mut PlainLeaves<MemoryMachine>,
    step: Step,
) -> Result<(), Fail> {
    if leaves.leaves() != 2 {
        return Err("two leaves".into());
    }
    match step {
        Put(key, body) => leaves.put(alloc, 1, &[key], &[body])?,
        Remove(key) => leaves.remove(alloc, 1, &[key])?,
        Commit => leaves.commit()?,
        Abort => leaves.abort(),
    }
    Ok(())
}

// Whether these are the entries of one of two leaves inside a span.
fn has_entries(
    alloc: Global,
    leaves: &mut PlainLeaves<MemoryMachine>,
    leaf: u32,
    (lo, hi): (&str, &str),
    stated: &str,
) -> Result<bool, Fail> {
    if leaves.leaves() != 2 || leaf >= 2 {
        return Err("two leaves".into());
    }
    let mut found = Entries::new(alloc);
    leaves.select(alloc, leaf, &span(lo.as_bytes(), hi.as_bytes()), &mut found)?;
    Ok(text(alloc, &found)?.as_slice() == stated.as_bytes())
}

// Two leaves on the second of which these steps were carried out.
fn changed(alloc: Global, steps: &[Step]) -> Result<PlainLeaves<MemoryMachine>, Fail> {
    let mut leaves = made(alloc, MemoryMachine::new(alloc)?)?;
    for step in steps {
        carry_out(alloc, &mut leaves, *step)?;
    }
    Ok(leaves)
}

// Expects an empty leaf, and these entries in the second one after it is laid out anew.
fn expect_second(
    rt: &impl process::Abort,
    alloc: Global,
    leaves: &mut PlainLeaves<MemoryMachine>,
    stated: &str,
) -> Result<(), Fail> {
    assert!(rt; has_entries(alloc, leaves, 0, ("", ""), "")?);
    assert!(rt; leaves.leaves() == 2);
    leaves.reorganize(alloc, 1)?;
    assert!(rt; has_entries(alloc, leaves, 1, ("", ""), stated)?);
    Ok(())
}

#[test]
fn changes_are_kept_or_given_up(rt: HostRuntime) -> Result<(), Fail> {
    for (steps, after) in CHANGES {
        let mut leaves = changed(rt.alloc(), steps)?;
        expect_second(&rt, rt.alloc(), &mut leaves, after)?;
    }
    Ok(())
}

// The two ends of a span, and the keys inside.
const SPANS: [((&str, &str), &str); 9] = [
    (("", ""), " a ab abc b ba "),
    (("", "a"), " a ab abc "),
    (("a", "a"), "a ab abc "),
    (("a", "ab"), "a ab abc "),
    (("ab", "a"), "ab abc "),
    (("abd", "b"), "b ba "),
    (("b", ""), "b ba "),
    (("b", "a"), ""),
    (("c", "c"), ""),
];

// Puts keys out of order into the first of two leaves.
fn put_keys(alloc: Global, leaves: &mut PlainLeaves<MemoryMachine>) -> Result<(), Fail> {
    for key in ["ba", "a", "abc", "", "b", "ab"] {
        if leaves.leaves() != 2 {
            return Err("two leaves".into());
        }
        let key = key.as_bytes();
        leaves.put(alloc, 0, &key[..key.len().min(3)], b"")?;
    }
    Ok(())
}

#[test]
fn spans_select_in_order(rt: HostRuntime) -> Result<(), Fail> {
    let alloc = rt.alloc();
    let mut leaves = made(alloc, MemoryMachine::new(alloc)?)?;
    put_keys(alloc, &mut leaves)?;
    for (ends, inside) in SPANS {
        assert!(rt; has_entries(alloc, &mut leaves, 0, ends, inside)?);
    }
    Ok(())
}

// The keys and bodies that are inserted, in this order, and whether the key was absent.
const INSERTS: [(&str, &str, bool); 5] = [
    ("ab", "1", true),
    ("a", "2", true),
    ("a", "3", false),
    ("ab", "4", false),
    ("b", "5", true),
];

// The two ends of a span, a limit, and how many entries are counted then.
const COUNTS: [((&str, &str), u32, u32); 6] = [
    (("", ""), 9, 3),
    (("", ""), 3, 3),
    (("", ""), 2, 2),
    (("a", "a"), 9, 2),
    (("b", "a"), 9, 0),
    (("", ""), 0, 0),
];

#[test]
fn absent_keys_are_inserted_and_counted(rt: HostRuntime) -> Result<(), Fail> {
    let alloc = rt.alloc();
    let mut leaves = made(alloc, MemoryMachine::new(alloc)?)?;
    for (key, body, absent) in INSERTS {
        assert!(rt; leaves.leaves() == 2);
        let (key, body) = (key.as_bytes(), body.as_bytes());
        let (key, body) = (&key[..key.len().min(2)], &body[..body.len().min(1)]);
        assert!(rt; leaves.insert(alloc, 0, key, body)? == absent);
    }
    assert!(rt; has_entries(alloc, &mut leaves, 0, ("", ""), "a2 ab1 b5 ")?);
    for ((lo, hi), limit, count) in COUNTS {
        assert!(rt; leaves.leaves() == 2);
        let inside = span(lo.as_bytes(), hi.as_bytes());
        assert!(rt; leaves.count(alloc, 0, &inside, limit)? == count);
    }
    Ok(())
}

// A machine with a script, and room to say four bytes.
fn heard_machine(alloc: Global) -> Result<MemoryMachine, Fail> {
    let mut machine = MemoryMachine::new(alloc)?;
    machine.set_script(alloc, b"heard")?;
    machine.reserve(alloc, 2, 4)?;
    Ok(machine)
}

#[test]
fn a_device_is_kept(rt: HostRuntime) -> Result<(), Fail> {
    let alloc = rt.alloc();
    let mut leaves = made(alloc, heard_machine(alloc)?)?;
    let mut into = [0; 8];
    let heard = leaves.hear(&mut into)?;
    assert!(rt; &into[..heard] == b"heard".as_slice());
    assert!(rt; leaves.say(b"said") == Ok(4));
    assert!(rt; leaves.into_device().said() == b"said".as_slice());
    Ok(())
}
