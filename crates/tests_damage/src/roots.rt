// The root page of a leaf is spoilt in each of its numbers.
use crate::devices::{ONE_LEAF, ONE_RECORD, is_damaged, overwritten, played, returns};
use gx_memory_machine::MemoryMachine;
use std::alloc::Global;
use std::process::Abort;
use std::test::Fail;

/// The root page is page 16, in this block: an entry page with one entry. Its bytes are the kind, a
/// zero, two of the count and four of the next page; then two of the key's length.
const BLOCK: u32 = 70;

// What stands in the page instead, and from which byte on.
#[derive(Clone, Copy)]
struct Damage {
    name: &'static str,
    from: usize,
    bytes: &'static [u8],
}

const DAMAGES: [Damage; 5] = [
    Damage {
        name: "the next page is this one",
        from: 4,
        bytes: &[0, 0, 0, 16],
    },
    Damage {
        name: "the next page is a free one",
        from: 4,
        bytes: &[0, 0, 0, 46],
    },
    Damage {
        name: "the next page is none of the device",
        from: 4,
        bytes: &[0xFF, 0xFF, 0xFF, 0xFE],
    },
    Damage {
        name: "there are too many entries",
        from: 2,
        bytes: &[0xFF, 0xFF],
    },
    Damage {
        name: "the key is too long",
        from: 8,
        bytes: &[0xFF, 0xFF],
    },
];

// Ends the test and names the damage, unless what it says holds.
fn check_damage(rt: &impl Abort, name: &str, holds: bool) {
    assert!(rt; holds, "{name}");
}

fn expect_damage(
    rt: &impl Abort,
    alloc: Global,
    machine: &MemoryMachine,
    damage: Damage,
) -> Result<(), Fail> {
    let machine = overwritten(alloc, machine, BLOCK, damage.from, damage.bytes)?;
    check_damage(rt, damage.name, is_damaged(alloc, &machine, 54..101)?);
    check_damage(rt, damage.name, returns(alloc, &machine)?);
    Ok(())
}

#[test]
fn damaged_roots_are_inspected_and_read(rt: HostRuntime) -> Result<(), Fail> {
    let machine = played(&rt, rt.alloc(), ONE_LEAF, ONE_RECORD)?;
    for damage in DAMAGES {
        expect_damage(&rt, rt.alloc(), &machine, damage)?;
    }
    Ok(())
}
