// Files with a page that leads back to one before it, in 8 frames, by the calls of the device that a
// call on them takes.
ghost use Rattle.std.specs.Prelude.{◌≤◌, ◌<◌};

use crate::files::{File, PAGES, ROOT, made_in};
use Call::{Check, Put, Remove, Reorganize, Select};
use LeafKind::{Bplus, Hash, Heap, Isam};
use gx_ports::LeafKind;
use gx_values::{KeyBuf, Kind, Span};
use std::alloc::Global;
use std::process::Abort;
use std::test::Fail;

#[derive(Clone, Copy)]
enum Call {
    Check,
    Select,
    Put,
    Remove,
    Reorganize,
}

const CALLS: [Call; 5] = [Check, Select, Put, Remove, Reorganize];

// A page before this one: an inner page of a tree, or an entry page with this key.
fn page_before(next: u32, kind: LeafKind, letter: u8) -> [u8; 16] {
    let [a, b, c, d] = next.to_be_bytes();
    match kind {
        Bplus => [0x49, 0, 0, 1, a, b, c, d, 0, 2, letter, 0, a, b, c, d],
        _ => [0x44, 0, 0, 1, a, b, c, d, 0, 2, 0, 0, letter, 0, 0, 0],
    }
}

// An index page of one bucket.
fn index_before(first: u32) -> [u8; 16] {
    let [a, b, c, d] = first.to_be_bytes();
    [0x58, 0, 0, 1, a, b, c, d, 0, 0, 0, 0, 0, 0, 0, 0]
}

// A file of which so many pages lead to each other in a ring.
fn ring_of(rt: &impl Abort, alloc: Global, kind: LeafKind, length: u32) -> Result<File, Fail>
    requires some { 0 < length }
    requires few { length ≤ 16 }
{
    let mut file = made_in(alloc, rt, 8, kind, Kind::Text(10))?;
    let mut first = ROOT;
    if kind == Isam {
        first += 1;
        assert!(rt; file.give(ROOT, &index_before(first)));
    }
    for place in 0..length {
        let next = first + (place + 1) % length;
        let page = page_before(next, kind, b'a' + place as u8);
        assert!(rt; file.give(first + place, &page));
    }
    Ok(file)
}

// Carries out a call, and says whether the file went on.
fn carry_out(alloc: Global, file: &mut File, call: Call) -> bool {
    let all = Span {
        lo: KeyBuf::from_slice(b""),
        hi: KeyBuf::from_slice(b""),
    };
    match call {
        Check => file.check(alloc),
        Select => file.select(alloc, &all).is_some(),
        Put => file.put(b"x\0", b"1"),
        Remove => file.remove(b"x\0"),
        Reorganize => file.reorganize(alloc),
    }
}

// Expects that each call on such a file reads few pages, and that `check` finds the damage.
fn expect_few(rt: &impl Abort, alloc: Global, kind: LeafKind, length: u32) -> Result<(), Fail>
    requires some { 0 < length }
    requires few { length ≤ 16 }
{
    let idle = ring_of(rt, alloc, kind, length)?.calls();
    for call in CALLS {
        let mut file = ring_of(rt, alloc, kind, length)?;
        let goes_on = carry_out(alloc, &mut file, call);
        assert!(rt; !(goes_on && matches!(call, Check)));
        assert!(rt; file.calls().saturating_sub(idle) <= PAGES + 16);
    }
    Ok(())
}

// Rings of one page, of two, and of more pages than there are frames.
#[test]
fn a_ring_of_pages_is_followed_for_few_steps(rt: HostRuntime) -> Result<(), Fail> {
    for kind in [Heap, Hash(1), Isam, Bplus] {
        for length in [1, 2, 12] {
            expect_few(&rt, rt.alloc(), kind, length)?;
        }
    }
    Ok(())
}
