// Each call on a file of each kind, with the entries and the pages worked out by hand.
ghost use Rattle.std.specs.Prelude.{◌+◌};

use crate::files::{File, OWNER, ROOT, made};
use Step::{Put, Remove, Select};
use gx_ports::{Entries, LeafKind};
use gx_values::{KeyBuf, Kind, Span};
use std::alloc::Global;
use std::test::Fail;

type Bytes = &'static [u8];

#[derive(Clone, Copy)]
enum Step {
    Put(Bytes, Bytes),
    Remove(Bytes),
    /// A span, and the entries inside it.
    Select(Bytes, Bytes, &'static [(Bytes, Bytes)]),
}

const STEPS: [Step; 16] = [
    Select(b"", b"", &[]),
    Remove(b"a\0"),
    Put(b"b\0", b"2"),
    Put(b"a\0", b"1"),
    Put(b"ab\0", b"12"),
    Put(b"b\0", b"3"),
    Select(
        b"",
        b"",
        &[(b"a\0", b"1"), (b"ab\0", b"12"), (b"b\0", b"3")],
    ),
    Select(b"ab\0", b"", &[(b"ab\0", b"12"), (b"b\0", b"3")]),
    Select(b"", b"a", &[(b"a\0", b"1"), (b"ab\0", b"12")]),
    Select(b"b\0", b"b\0", &[(b"b\0", b"3")]),
    Remove(b"a\0"),
    Remove(b"c\0"),
    Select(b"", b"", &[(b"ab\0", b"12"), (b"b\0", b"3")]),
    Remove(b"b\0"),
    Remove(b"ab\0"),
    Select(b"", b"", &[]),
];

/// Whether these are the entries, in this order.
fn are(entries: &Entries, expected: &[(Bytes, Bytes)]) -> bool {
    let mut same = entries.len() == expected.len();
    for (place, (key, body)) in expected.iter().enumerate() {
        same = same && place < entries.len() && is(entries, place, key, body);
    }
    same
}

/// Whether an entry has this key and this body.
fn is(entries: &Entries, place: usize, key: &[u8], body: &[u8]) -> bool {
    if place >= entries.len() {
        return false;
    }
    let entry = entries.entry(place);
    entry.key == key && entry.body == body
}

/// Carries out a step, and says whether it went as it tells.
fn take(alloc: Global, file: &mut File, step: Step) -> bool {
    match step {
        Put(key, body) if key.len() <= 400 && body.len() <= 600 => file.put(key, body),
        Remove(key) if key.len() <= 400 => file.remove(key),
        Select(lo, hi, expected) if lo.len() <= 400 && hi.len() <= 400 => {
            let span = Span {
                lo: KeyBuf::from_slice(lo),
                hi: KeyBuf::from_slice(hi),
            };
            match file.select(alloc, &span) {
                Some(entries) => are(&entries, expected),
                None => false,
            }
        }
        _ => false,
    }
}

#[test]
fn each_call_is_carried_out(rt: HostRuntime) -> Result<(), Fail> {
    let kinds = [
        (LeafKind::Heap, 1),
        (LeafKind::Hash(8), 8),
        (LeafKind::Isam, 1),
        (LeafKind::Bplus, 1),
    ];
    for (kind, roots) in kinds {
        let mut file = made(rt.alloc(), &rt, kind, Kind::Text(10))?;
        for step in STEPS {
            assert!(rt; take(rt.alloc(), &mut file, step));
            assert!(rt; file.check(rt.alloc()));
        }
        assert!(rt; file.pages_of(OWNER) == roots);
    }
    Ok(())
}

// The keys of the ints 0 and 1 and of the text `a`, and the chains of 16 on which they stand.
#[test]
fn entries_stand_on_the_chain_of_their_key(rt: HostRuntime) -> Result<(), Fail> {
    let cases: [(Kind, Bytes, u32, Bytes); 3] = [
        (
            Kind::Int,
            &[0x80, 0, 0, 0, 0, 0, 0, 0],
            5,
            &[
                0x44, 0, 0, 1, 0xFF, 0xFF, 0xFF, 0xFF, 0, 8, 0, 1, 0x80, 0, 0, 0, 0, 0, 0, 0, 9,
            ],
        ),
        (
            Kind::Int,
            &[0x80, 0, 0, 0, 0, 0, 0, 1],
            2,
            &[
                0x44, 0, 0, 1, 0xFF, 0xFF, 0xFF, 0xFF, 0, 8, 0, 1, 0x80, 0, 0, 0, 0, 0, 0, 1, 9,
            ],
        ),
        (
            Kind::Text(10),
            b"a\0",
            4,
            &[
                0x44, 0, 0, 1, 0xFF, 0xFF, 0xFF, 0xFF, 0, 2, 0, 1, b'a', 0, 9,
            ],
        ),
    ];
    for (first, key, bucket, front) in cases {
        let mut file = made(rt.alloc(), &rt, LeafKind::Hash(16), first)?;
        assert!(rt; take(rt.alloc(), &mut file, Put(key, &[9])));
        assert!(rt; file.begins(ROOT + bucket, front));
    }
    Ok(())
}
