// Files beside a map, through random steps.
ghost use Rattle.std.specs.Prelude.{◌<◌};

use crate::files::{File, OWNER, made};
use gx_ports::{Entries, LeafKind};
use gx_values::{KeyBuf, Kind, Span};
use std::alloc::Global;
use std::collections::BTreeMap;
use std::process::Abort;
use std::test::Fail;

type Map = BTreeMap<Vec<u8>, Vec<u8>>;

/// How many steps a round has.
const STEPS: u32 = 100;

/// A linear congruential generator, of the same numbers in each run.
#[derive(Drop)]
struct Random(u64);

impl Random {
    /// A number below this one.
    fn below(&mut self, bound: u32) -> u32
        requires { 0 < bound }
        ensures { result < bound }
    {
        self.0 = self
            .0
            .wrapping_mul(6_364_136_223_846_793_005)
            .wrapping_add(1_442_695_040_888_963_407);
        ((self.0 >> 33) % u64::from(bound)) as u32
    }
}

/// The span of all keys.
fn whole() -> Span {
    Span {
        lo: KeyBuf::from_slice(b""),
        hi: KeyBuf::from_slice(b""),
    }
}

/// A key of 1 to 400 bytes, of four values, so that many of them share a front.
fn key(number: u32) -> KeyBuf {
    let mut random = Random(u64::from(number));
    let len = 1 + random.below(400);
    let mut bytes = [0; 400];
    for place in 0..400 {
        bytes[place] = random.below(4) as u8;
    }
    KeyBuf::from_slice(&bytes[..len as usize])
}

/// Puts a random body at a random key of the first `keys`, in the file and in the map.
fn put(
    alloc: Global,
    random: &mut Random,
    keys: u32,
    file: &mut File,
    map: &mut Map,
) -> Result<bool, Fail>
    requires { 0 < keys }
{
    let key = key(random.below(keys));
    let key = key.as_slice();
    let len = random.below(1001 - key.len() as u32) as usize;
    let body = [random.below(256) as u8; 1000];
    map.insert(key.to_vec(alloc)?, body[..len].to_vec(alloc)?)?;
    Ok(file.put(key, &body[..len]))
}

/// Takes a random key of the first `keys` away, in the file and in the map.
fn remove(random: &mut Random, keys: u32, file: &mut File, map: &mut Map) -> bool
    requires { 0 < keys }
{
    let key = key(random.below(keys));
    map.remove(key.as_slice());
    file.remove(key.as_slice())
}

/// Whether the file is whole, and has the entries of the map, in its order.
fn is_map(alloc: Global, file: &mut File, map: &Map) -> bool {
    match file.select(alloc, &whole()) {
        Some(entries) => file.check(alloc) && are_same(&entries, map),
        None => false,
    }
}

fn are_same(entries: &Entries, map: &Map) -> bool {
    let mut same = entries.len() == map.len();
    for (place, (key, body)) in map.iter().enumerate() {
        if place >= entries.len() {
            return false;
        }
        let entry = entries.entry(place);
        same = same && entry.key == key.as_slice() && entry.body == body.as_slice();
    }
    same
}

/// How a file is tried: so many rounds of puts and removes, each at one of the first `keys`.
/// The emptied file has the pages that it began with.
#[derive(Clone, Copy)]
struct Trial {
    kind: LeafKind,
    roots: u32,
    keys: u32,
    rounds: u32,
}

/// Carries out a round of steps, and says whether the file went on in each.
fn round(
    alloc: Global,
    random: &mut Random,
    keys: u32,
    file: &mut File,
    map: &mut Map,
) -> Result<bool, Fail>
    requires { 0 < keys }
{
    let mut all = true;
    for _ in 0..STEPS {
        let went = if random.below(2) == 0 {
            put(alloc, random, keys, file, map)?
        } else {
            remove(random, keys, file, map)
        };
        all = went && all;
    }
    Ok(all)
}

/// Takes all keys away, and says whether the file went on.
fn empty(keys: u32, file: &mut File) -> bool {
    let mut all = true;
    for number in 0..keys {
        all = file.remove(key(number).as_slice()) && all;
    }
    all
}

fn play(rt: &impl Abort, alloc: Global, trial: Trial) -> Result<(), Fail>
    requires { 0 < trial.keys }
{
    let mut file = made(alloc, rt, trial.kind, Kind::Text(200))?;
    let mut map = BTreeMap::new(alloc);
    let mut random = Random(1);
    for _ in 0..trial.rounds {
        assert!(rt; round(alloc, &mut random, trial.keys, &mut file, &mut map)?);
        assert!(rt; is_map(alloc, &mut file, &map));
        if trial.kind == LeafKind::Isam {
            assert!(rt; file.reorganize(alloc));
            assert!(rt; is_map(alloc, &mut file, &map));
        }
    }
    assert!(rt; empty(trial.keys, &mut file));
    assert!(rt; file.check(alloc));
    assert!(rt; file.pages_of(OWNER) == trial.roots);
    Ok(())
}

#[test]
fn files_hold_what_a_map_holds(rt: HostRuntime) -> Result<(), Fail> {
    let trials = [
        Trial {
            kind: LeafKind::Bplus,
            roots: 1,
            keys: 1500,
            rounds: 200,
        },
        Trial {
            kind: LeafKind::Hash(8),
            roots: 8,
            keys: 300,
            rounds: 30,
        },
    ];
    for trial in trials {
        play(&rt, rt.alloc(), trial)?;
    }
    Ok(())
}

// Between two rounds the file is laid out anew.
#[test]
fn indexed_files_hold_what_a_map_holds(rt: HostRuntime) -> Result<(), Fail> {
    let trial = Trial {
        kind: LeafKind::Isam,
        roots: 1,
        keys: 300,
        rounds: 20,
    };
    play(&rt, rt.alloc(), trial)
}
