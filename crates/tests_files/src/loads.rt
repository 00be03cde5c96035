// B+ trees that are loaded with 2,000 entries in some order, and then emptied.
ghost use Rattle.std.specs.Prelude.{◌≤◌, length};
ghost use Rattle.tests_files.specs.declared.loads.TheConstants.{LONG_LEN};

use crate::files::{File, OWNER, PAGES, TABLE_OWNER, made};
use Length::{Long, Short};
use Order::{Ascending, Random};
use gx_ports::{Entries, LeafKind};
use gx_values::{KeyBuf, Kind, Span};
use std::alloc::Global;
use std::test::Fail;

const COUNT: u64 = 2000;

const SHORT_LEN: usize = 100;

const LONG_LEN: usize = 388;

/// How long the body of each entry is.
#[derive(Clone, Copy)]
enum Length {
    Short,
    Long,
}

impl Length {
    fn bytes(self) -> usize
        ensures { result ≤ LONG_LEN }
    {
        match self {
            Short => SHORT_LEN,
            Long => LONG_LEN,
        }
    }

    /// The bytes of all entries, each with its two lengths of 2 bytes, its key and its body.
    fn of_all(self) -> u64 {
        COUNT * (2 + 2 + 8 + self.bytes() as u64)
    }
}

/// The order in which keys are put.
#[derive(Clone, Copy)]
enum Order {
    Ascending,
    Random,
}

/// The key that comes at a place, another one at each.
fn key(order: Order, place: u64) -> [u8; 8] {
    match order {
        Ascending => place.to_be_bytes(),
        Random => mixed(place).to_be_bytes(),
    }
}

/// The bits of a place mixed: another number for each place.
fn mixed(place: u64) -> u64 {
    let mut number = place.wrapping_mul(0x9E37_79B9_7F4A_7C15);
    number = (number ^ (number >> 30)).wrapping_mul(0xBF58_476D_1CE4_E5B9);
    number = (number ^ (number >> 27)).wrapping_mul(0x94D0_49BB_1331_11EB);
    number ^ (number >> 31)
}

/// The long body of the entry at a key, of which the short one is the front.
fn body(key: [u8; 8]) -> [u8; LONG_LEN] {
    [key[7]; LONG_LEN]
}

/// Puts all entries, and says whether the file took them.
fn load(file: &mut File, order: Order, length: Length) -> bool {
    let mut all = true;
    for place in 0..COUNT {
        let key = key(order, place);
        let body = body(key);
        all = file.put(&key, &body[..length.bytes()]) && all;
    }
    all
}

/// The entries from one key to another one.
fn select(alloc: Global, file: &mut File, lo: &[u8], hi: &[u8]) -> Option<Entries>
    requires lo { length lo.now ≤ 400 }
    requires hi { length hi.now ≤ 400 }
{
    let span = Span {
        lo: KeyBuf::from_slice(lo),
        hi: KeyBuf::from_slice(hi),
    };
    file.select(alloc, &span)
}

/// Whether each entry is found at its key, alone.
fn are_found(alloc: Global, file: &mut File, order: Order, length: Length) -> bool {
    let mut all = true;
    for place in 0..COUNT {
        let key = key(order, place);
        all = all && is_found(alloc, file, key, length);
    }
    all
}

fn is_found(alloc: Global, file: &mut File, key: [u8; 8], length: Length) -> bool {
    match select(alloc, file, &key, &key) {
        Some(entries) if entries.len() == 1 => {
            let entry = entries.entry(0);
            entry.key == key.as_slice() && entry.body == &body(key)[..length.bytes()]
        }
        _ => false,
    }
}

/// Whether there are as many entries as were put, in ascending order of their keys.
fn are_ascending(entries: &Entries) -> bool {
    let mut all = entries.len() == COUNT as usize;
    for place in 1..entries.len() {
        let before = entries.entry(place - 1).key;
        all = all && before.cmp(entries.entry(place).key).is_lt();
    }
    all
}

/// Takes all keys away, and says whether the file went on.
fn unload(file: &mut File, order: Order) -> bool {
    let mut all = true;
    for place in 0..COUNT {
        all = file.remove(&key(order, place)) && all;
    }
    all
}

#[test]
fn trees_are_loaded_and_emptied(rt: HostRuntime) -> Result<(), Fail> {
    let alloc = rt.alloc();
    for (order, length, tenths) in [(Ascending, Short, 9), (Random, Short, 6), (Random, Long, 6)] {
        let mut file = made(alloc, &rt, LeafKind::Bplus, Kind::Int)?;
        assert!(rt; load(&mut file, order, length));
        assert!(rt; file.check(alloc));
        assert!(rt; are_found(alloc, &mut file, order, length));
        let entries = select(alloc, &mut file, b"", b"").expect(&rt, "entries");
        assert!(rt; are_ascending(&entries));
        assert!(rt; file.pages_are_filled(length.of_all(), tenths));
        assert!(rt; unload(&mut file, order));
        assert!(rt; file.check(alloc));
        assert!(rt; file.pages_of(OWNER) == 1);
        assert!(rt; file.pages_of(TABLE_OWNER) == 16);
        assert!(rt; file.pages_of(0) == PAGES - 17);
    }
    Ok(())
}
