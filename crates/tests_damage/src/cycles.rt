// Pages that lead back to a page before them, in each kind of file.
use crate::devices::{
    Database, ONE_LEAF, ONE_RECORD, attached, is_damaged, is_sound, overwritten, played, read_file,
    returns, write_at,
};
use gx_device::Device;
use gx_memory_machine::MemoryMachine;
use gx_play::Status;
use std::alloc::Global;
use std::process::Abort;
use std::test::Fail;

// A file of so many records, and a page of it that leads to another one. Of an entry page that is
// the next one, of an inner page its first child, and of an index page its first bucket.
#[derive(Clone, Copy)]
struct Cycle {
    equation: &'static str,
    records: u32,
    page: u32,
    to: u8,
}

const CYCLES: [Cycle; 8] = [
    Cycle {
        equation: "f = actual(heap)\n",
        records: 1,
        page: 16,
        to: 16,
    },
    Cycle {
        equation: "f = actual(heap)\n",
        records: 300,
        page: 17,
        to: 16,
    },
    Cycle {
        equation: "f = actual(hash(1))\n",
        records: 1,
        page: 16,
        to: 16,
    },
    Cycle {
        equation: "f = actual(isam)\n",
        records: 1,
        page: 16,
        to: 16,
    },
    Cycle {
        equation: "f = actual(isam)\n",
        records: 1,
        page: 17,
        to: 17,
    },
    Cycle {
        equation: "f = actual(isam)\n",
        records: 300,
        page: 18,
        to: 17,
    },
    Cycle {
        equation: "f = actual(bplus)\n",
        records: 1,
        page: 16,
        to: 16,
    },
    Cycle {
        equation: "f = actual(bplus)\n",
        records: 300,
        page: 16,
        to: 16,
    },
];

/// So many records, in one transaction.
fn script(alloc: Global, records: u32) -> Result<Vec<u8>, Fail> {
    let mut script = b"begin\n".to_vec(alloc)?;
    for key in 0..records {
        let line = format!(in alloc; "insert f {key} \"ann\"\n")?;
        script.extend_from_slice(line.as_bytes())?;
    }
    script.extend_from_slice(b"commit\n")?;
    Ok(script)
}

// Ends the test and names the file and the page, unless what is said of them holds.
fn check_cycle(rt: &impl Abort, cycle: Cycle, holds: bool) {
    let Cycle { equation, page, .. } = cycle;
    assert!(rt; holds, "page {page} of {equation}");
}

// A machine with such a file.
fn with_cycle(rt: &impl Abort, alloc: Global, cycle: Cycle) -> Result<MemoryMachine, Fail> {
    let database = Database {
        equation: cycle.equation,
        ..ONE_LEAF
    };
    let machine = played(rt, alloc, database, &script(alloc, cycle.records)?)?;
    let block = cycle.page.saturating_add(54);
    overwritten(alloc, &machine, block, 4, &[0, 0, 0, cycle.to])
}

// Expects damage of `inspect`, and of a script that reads the file that it is played, or that it
// ends with damage.
fn expect_cycle(rt: &impl Abort, alloc: Global, cycle: Cycle) -> Result<(), Fail> {
    let machine = with_cycle(rt, alloc, cycle)?;
    check_cycle(rt, cycle, is_damaged(alloc, &machine, 54..101)?);
    check_cycle(rt, cycle, returns(alloc, &machine)?);
    Ok(())
}

#[test]
fn cycles_are_left_in_each_kind_of_file(rt: HostRuntime) -> Result<(), Fail> {
    for cycle in CYCLES {
        expect_cycle(&rt, rt.alloc(), cycle)?;
    }
    Ok(())
}

/// 401 blocks have 197 pages: page p is block 204 + p.
const LONG: Database = Database {
    making: "make S E d 401",
    ..ONE_LEAF
};

/// An entry page with one entry, the key of this number and the text "ann", and this next page.
fn entry_page(key: u8, [high, low]: [u8; 2]) -> [u8; 24] {
    [
        0x44, 0x00, 0x00, 0x01, high, high, high, low, 0x00, 0x08, 0x00, 0x04, 0x80, 0x00, 0x00,
        0x00, 0x00, 0x00, 0x00, key, 0x03, 0x61, 0x6E, 0x6E,
    ]
}

/// The machine as it was left, where the pages 16 to 99 are one chain of the leaf, which are more
/// than there are in memory. Behind the last stands this one.
fn chained(alloc: Global, machine: &MemoryMachine, behind: [u8; 2]) -> Result<MemoryMachine, Fail> {
    let mut machine = attached(alloc, machine)?;
    for page in 16..100 {
        let next = if page == 99 { behind } else { [0, page + 1] };
        let place = u32::from(page);
        write_at(&mut machine, 204 + place, 0, &entry_page(page, next))?;
        write_at(&mut machine, 204, 2 * usize::from(page), &[0, 1])?;
    }
    machine.sync()?;
    Ok(machine)
}

// A machine with such a chain.
fn with_chain(rt: &impl Abort, alloc: Global, behind: [u8; 2]) -> Result<MemoryMachine, Fail> {
    let machine = played(rt, alloc, LONG, ONE_RECORD)?;
    chained(alloc, &machine, behind)
}

const SOUND: &[u8] = b"leaf 0 f heap entries 84
file f records 84
sound
";

#[test]
fn a_long_chain_is_sound(rt: HostRuntime) -> Result<(), Fail> {
    let machine = with_chain(&rt, rt.alloc(), [0xFF, 0xFF])?;
    assert!(&rt; is_sound(rt.alloc(), &machine, SOUND)?);
    assert!(&rt; read_file(rt.alloc(), &machine)? == Status::Done);
    Ok(())
}

#[test]
fn a_long_chain_leads_back_to_its_root(rt: HostRuntime) -> Result<(), Fail> {
    let machine = with_chain(&rt, rt.alloc(), [0, 16])?;
    assert!(&rt; is_damaged(rt.alloc(), &machine, 204..401)?);
    assert!(&rt; returns(rt.alloc(), &machine)?);
    Ok(())
}
