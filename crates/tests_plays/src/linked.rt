// Plays of scripts on links, which are drawn by a seed: the program beside the plain one.
ghost use Rattle.std.specs.Prelude.{◌<◌, ◌≤◌, length};

use crate::plays::{LINKED, plain, says};
use crate::row::check_row;
use std::alloc::Global;
use std::test::Fail;

// Equations that store the same links by each linkset, over kinds of leaves and over layers.
pub(crate) const LINKED_EQUATIONS: [&str; 6] = [
    "dept = actual(heap)
emp = actual(heap)
works = inverted(heap, actual(heap))
boss = inverted(bplus, actual(bplus))
",
    "dept = actual(hash(4))
emp = actual(isam)
works = array(divide(64, bplus))
boss = array(divide(9, hash(3)))
",
    "dept = actual(bplus)
emp = index(pay, segment(name pay, actual(bplus), actual(heap)), bplus)
works = ring(actual(hash(8)), actual(bplus))
boss = ring(actual(bplus), actual(heap))
",
    "dept = actual(isam)
emp = transpose(actual(bplus), actual(heap), actual(hash(8)))
works = inverted(partition(owner 2, heap, bplus), index(owner, actual(bplus), heap))
boss = ring(actual(heap), encode(owner pack, actual(isam)))
",
    "dept = actual(hash(4))
emp = encode(pay pack, actual(divide(16, bplus)))
works = ring(actual(heap), actual(isam))
boss = array(divide(17, heap))
",
    "dept = actual(hash(4))
emp = partition(pay 3 6, index(pay, actual(heap), bplus), actual(isam), actual(bplus))
works = array(divide(200, isam))
boss = inverted(isam, partition(member 4, actual(hash(2)), actual(heap)))
",
];

// Numbers of a linear congruential generator.
#[derive(Drop)]
pub(crate) struct Numbers(pub(crate) u64);

impl Numbers {
    pub(crate) fn below(&mut self, count: u64) -> u64
        requires { 0 < count }
        ensures { result < count }
    {
        self.0 = self
            .0
            .wrapping_mul(6364136223846793005)
            .wrapping_add(1442695040888963407);
        (self.0 >> 33) % count
    }

    // The digit of a number below this one.
    fn digit(&mut self, count: u64) -> u8
        requires some { 0 < count }
        requires few { count ≤ 10 }
    {
        b'0' + self.below(count) as u8
    }

    fn one_of<'a>(&mut self, lines: &[&'a str]) -> &'a str
        requires { 0 < length lines.now }
    {
        lines[self.below(lines.len() as u64) as usize]
    }
}

// Lines that change a few departments and people, and the links between them. D stands for a
// department, and E and O for people.
pub(crate) const EDITS: [&str; 12] = [
    "insert dept D \"d\"\n",
    "insert emp E \"n\" O \"r\"\n",
    "insert emp E \"n\" O \"r\"\n",
    "connect works D E\n",
    "connect works D E\n",
    "connect boss O E\n",
    "connect boss O E\n",
    "disconnect works E\n",
    "disconnect boss E\n",
    "update emp E pay O\n",
    "delete emp E\n",
    "delete dept D\n",
];

// Lines that ask.
const QUESTIONS: [&str; 9] = [
    "members works D order pay desc\n",
    "members boss E\n",
    "owner works E\n",
    "owner boss E\n",
    "find emp where eno = E of works D\n",
    "find emp where pay > 3 and pay <> 5 of boss E\n",
    "find emp where eno = E and pay < O of boss O\n",
    "find emp of works D order pay\n",
    "reorganize works\nreorganize boss\nfind emp order name\n",
];

// Appends one of the lines, with one of four departments and two of eight people.
pub(crate) fn push_line(
    text: &mut Vec<u8>,
    numbers: &mut Numbers,
    lines: &[&str],
) -> Result<(), Fail>
    requires { 0 < length lines.now }
{
    let (dept, emp, other) = (numbers.digit(4), numbers.digit(8), numbers.digit(8));
    for byte in numbers.one_of(lines).bytes() {
        text.push(match byte {
            b'D' => dept,
            b'E' => emp,
            b'O' => other,
            _ => byte,
        })?;
    }
    Ok(())
}

// Appends a transaction with edits and questions, which is given up or not.
fn push_transaction(text: &mut Vec<u8>, numbers: &mut Numbers) -> Result<(), Fail> {
    text.extend_from_slice(b"begin\n")?;
    for _ in 0..24 {
        push_line(text, numbers, &EDITS)?;
        push_line(text, numbers, &QUESTIONS)?;
    }
    let end = if numbers.below(4) == 0 {
        "abort\n"
    } else {
        "commit\n"
    };
    text.extend_from_slice(end.as_bytes())?;
    text.extend_from_slice(b"find emp\nfind dept\n")?;
    Ok(())
}

// A script of eight transactions.
fn script(alloc: Global, seed: u64) -> Result<Vec<u8>, Fail> {
    let mut numbers = Numbers(seed);
    let mut text = Vec::new(alloc);
    for _ in 0..8 {
        push_transaction(&mut text, &mut numbers)?;
    }
    Ok(text)
}

#[test]
fn links_say_the_same_under_each_linkset(rt: HostRuntime) -> Result<(), Fail> {
    for seed in 0..4 {
        let script = script(rt.alloc(), seed)?;
        let said = plain(rt.alloc(), LINKED, &script)?;
        for equation in LINKED_EQUATIONS {
            check_row(
                &rt,
                equation,
                says(rt.alloc(), (LINKED, equation), &script, &said)?,
            );
        }
    }
    Ok(())
}
