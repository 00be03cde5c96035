// A partner at the other end of two pipes, who gives a script byte by byte and may wait for answers.
ghost use Rattle.std.specs.Prelude.{false, length};
ghost use Rattle.gx_device.specs.Content.{nothing_told};

use crate::requests::words;
use crate::row::check_row;
use gx_device::{AttachStop, Device, Failed, FetchStop, Machine};
use gx_memory_machine::MemoryMachine;
use gx_play::Status;
use gx_top::top;
use std::alloc::Global;
use std::process::Abort;
use std::test::Fail;

// When the partner gives the next byte.
#[derive(Clone, Copy, PartialEq, Eq)]
enum Gives {
    Always,
    // Only where each line that was given whole has its answer. Else the script ends.
    Answered,
}

// A machine whose script is given byte by byte.
#[derive(Drop)]
struct Partner {
    machine: MemoryMachine,
    gives: Gives,
    // how many lines were said before the script, and how many of the script were given whole
    given: usize,
}

// How many lines end in these bytes.
fn lines_in(said: &[u8]) -> usize {
    let mut lines = 0usize;
    for byte in said {
        if *byte == b'\n' {
            lines = lines.saturating_add(1);
        }
    }
    lines
}

impl Device for Partner {
    ghost tells = { false };

    ghost content = { λ _. nothing_told };

    ghost faults = { λ m. m.machine.counts.faults };

    ghost size = { λ m. length m.machine.now.blocks };

    ghost sized = { λ _ told. Prim.cc };

    fn blocks(&self) -> u32 {
        self.machine.blocks()
    }

    fn read_block(&mut self, n: u32, into: &mut [u8]) -> Result<(), Failed> {
        self.machine.read_block(n, into)
    }

    fn write_block(&mut self, n: u32, from: &[u8]) -> Result<(), Failed> {
        self.machine.write_block(n, from)
    }

    fn sync(&mut self) -> Result<(), Failed> {
        self.machine.sync()
    }

    fn hear(&mut self, into: &mut [u8]) -> Result<usize, Failed> {
        if self.gives == Gives::Answered && lines_in(self.machine.said()) < self.given {
            return Ok(0);
        }
        let count = self.machine.hear(&mut into[..1])?;
        if count > 0 && into[0] == b'\n' {
            self.given = self.given.saturating_add(1);
        }
        Ok(count)
    }

    fn say(&mut self, from: &[u8]) -> Result<usize, Failed> {
        self.machine.say(from)
    }
}

impl Machine for Partner {
    fn fetch(&mut self, alloc: Global, name: &str, limit: u32) -> Result<Vec<u8>, FetchStop> {
        self.machine.fetch(alloc, name, limit)
    }

    fn attach(&mut self, alloc: Global, name: &str, make: Option<u32>) -> Result<(), AttachStop> {
        self.machine.attach(alloc, name, make)
    }
}

// A machine with the texts of a file and of a link.
fn machine(alloc: Global) -> Result<MemoryMachine, Fail> {
    let mut machine = MemoryMachine::new(alloc)?;
    machine.add_text(alloc, "S", b"file f (k int)\nlink l (f, f)\n")?;
    machine.add_text(
        alloc,
        "E",
        b"f = actual(bplus)\nl = ring(actual(heap), actual(heap))\n",
    )?;
    machine.reserve(alloc, 10_000, 1_000_000)?;
    Ok(machine)
}

// Expects that a request whose script a partner gives says this, and ends with this status.
fn expect(
    rt: &impl Abort,
    alloc: Global,
    (line, script): (&str, &str),
    (said, wanted): (&str, Status),
) -> Result<(), Fail> {
    for gives in [Gives::Always, Gives::Answered] {
        let (_, mut machine) = top(alloc, &words(alloc, "make S E d 101")?, machine(alloc)?);
        machine.set_script(alloc, script.as_bytes())?;
        let partner = Partner {
            given: lines_in(machine.said()),
            machine,
            gives,
        };
        let (status, partner) = top(alloc, &words(alloc, line)?, partner);
        check_row(rt, line, partner.machine.said().ends_with(said.as_bytes()));
        check_row(rt, line, status == wanted);
    }
    Ok(())
}

// Each of these lines has one line of answer.
const SCRIPT: &str = "begin
insert f 1
insert f 2
connect l 1 2
owner l 2
commit
get f 2
";

const SAID: &str = "made: 101 blocks, 47 pages
begun
ok
ok
ok
f 1
committed 1
f 2
";

#[test]
fn each_line_is_answered_before_more_is_heard(rt: HostRuntime) -> Result<(), Fail> {
    for line in ["try S E", "run S E d"] {
        expect(&rt, rt.alloc(), (line, SCRIPT), (SAID, Status::Done))?;
    }
    Ok(())
}

// The script has no LF at its end.
#[test]
fn the_last_line_is_answered_where_the_script_ends(rt: HostRuntime) -> Result<(), Fail> {
    let said = "made: 101 blocks, 47 pages\nnone\nnone\n";
    for line in ["try S E", "run S E d"] {
        expect(
            &rt,
            rt.alloc(),
            (line, "get f 1\nget f 2"),
            (said, Status::Done),
        )?;
    }
    Ok(())
}

#[test]
fn a_script_ends_at_its_first_bad_line(rt: HostRuntime) -> Result<(), Fail> {
    let said = "made: 101 blocks, 47 pages\nbegun\nok\nstopped at line 3: in transaction\n";
    for line in ["try S E", "run S E d"] {
        let script = "begin\ninsert f 1\nbegin\nabort\n";
        expect(&rt, rt.alloc(), (line, script), (said, Status::Script))?;
    }
    Ok(())
}

#[test]
fn each_plan_is_said_before_more_is_heard(rt: HostRuntime) -> Result<(), Fail> {
    let script = "find f of l 1\nfind f where k > 1 of l 1\nfind f where k = 2 of l 1\n";
    let said = "made: 101 blocks, 47 pages\nline 1: link l\nline 2: link l\nline 3: key k\n";
    expect(
        &rt,
        rt.alloc(),
        ("explain S E", script),
        (said, Status::Done),
    )
}
