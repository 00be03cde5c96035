// What stood on a device at each moment, kept as the devices at its start and a log of calls.
ghost use Rattle.std.specs.Prelude.{◌≡◌, ◌≤◌, ◌<◌, ◌+◌, ◌^◌, ◌++◌, ◌∷◌, [], ℕ, length, take, drop, replicate, slice_index_or, vec_len, vec_capacity, None, Some, MatchOption, IfOk, IfSome, OnOk, OnErr, option_map, false};
ghost use Rattle.std.specs.FinMap.{get};
ghost use Rattle.std.specs.List.{list_any};
ghost use Rattle.gx_device.specs.Content.{nothing_told, zero_blocks, block_of, is_pending, HasWholeBlocks, devices_of, with_named};
ghost use Rattle.gx_memory_machine.specs.Crash.{moment_at, IsLeft, IsSpoiled, AreSpoiled, StaysSynced};
ghost use Rattle.gx_memory_machine.specs.Log.{uses, advance, first, with_block, all_synced, with_said, with_device};
ghost use Rattle.gx_memory_machine.specs.Names.{by_name};
ghost use Rattle.gx_memory_machine.specs.Trace.{Adds, AreFew, HasAttachCause, blocks_given, attaching};
ghost use Rattle.gx_device.specs.declared.device.TheConstants.{BLOCK_LEN};

use crate::crash::{Choice, spoil};
use crate::names::{copied_map, find};
use gx_device::{AttachStop, BLOCK_LEN, NoMemory};
use std::alloc::{AllocError, Global};
use std::collections::BTreeMap;
use std::marker::Model;

/// A call in a log. Its bytes, if it has any, stand beside the log.
#[derive(Clone, Copy)]
pub enum Step {
    Still,
    Write { block: u32 },
    Sync,
    Say { count: usize },
    Open { name: usize },
    Make { name: usize, blocks: u32 },
}

/// What stands now, and what stood at each earlier moment.
#[derive(Drop)]
pub struct Trace {
    start: BTreeMap<Vec<u8>, Vec<[u8; BLOCK_LEN]>>,
    others: BTreeMap<Vec<u8>, Vec<[u8; BLOCK_LEN]>>,
    name: Option<Vec<u8>>,
    blocks: Vec<[u8; BLOCK_LEN]>,
    pending: Vec<bool>,
    said: Vec<u8>,
    steps: Vec<Step>,
    written: Vec<u8>,
}

impl Model for Trace {
    ghost use Rattle.std.specs.Prelude.{◌-◌, min, vec_len, vec_capacity};
    ghost use Rattle.std.specs.Coded.{codes};
    ghost use Rattle.gx_device.specs.Content.{coded_devices};
    ghost use Rattle.gx_memory_machine.specs.Names.{by_name};
    ghost use Rattle.gx_memory_machine.specs.Log.{first, earlier};
    ghost use Rattle.gx_memory_machine.specs.Trace.{Traced, shelf_of, IsTrace};

    ghost Value = { Traced };

    ghost coded = { Prim.hlevel (codes, coded_devices) };

    ghost view = { λ t. record {
      now = record {
        blocks = t.blocks.items;
        pending = t.pending.items;
        said = t.said.items;
        shelf = shelf_of t.name (by_name t.others.entries);
      };
      past = earlier (first (by_name t.start.entries)) t.steps.items t.written.items;
      calls = vec_capacity t.steps - vec_len t.steps;
      bytes = min (vec_capacity t.written - vec_len t.written)
          (vec_capacity t.said - vec_len t.said);
    } };

    ghost invariant = { λ t. IsTrace (first (by_name t.start.entries)) t.steps.items t.written.items
        (record {
          blocks = t.blocks.items;
          pending = t.pending.items;
          said = t.said.items;
          shelf = shelf_of t.name (by_name t.others.entries);
        }) };
}

// Puts bytes at the end, for which there is room.
fn append(bytes: &mut Vec<u8>, more: &[u8])
    requires room { vec_len bytes.old + length more.now ≤ vec_capacity bytes.old }
    ensures items { bytes.new.items ≡ bytes.old.items ++ more.now }
    ensures long { vec_len bytes.new ≡ vec_len bytes.old + length more.now }
    ensures capacity { vec_capacity bytes.old ≤ vec_capacity bytes.new }
{
    bytes.extend_from_slice(more).unwrap();
}

// Notes a call and its bytes, for which there is room.
fn note(steps: &mut Vec<Step>, written: &mut Vec<u8>, step: Step, bytes: &[u8])
    requires place { vec_len steps.old < vec_capacity steps.old }
    requires room { vec_len written.old + length bytes.now ≤ vec_capacity written.old }
    ensures steps { steps.new.items ≡ steps.old.items ++ step ∷ [] }
    ensures written { written.new.items ≡ written.old.items ++ bytes.now }
    ensures count { vec_len steps.new ≡ vec_len steps.old + 1 }
    ensures long { vec_len written.new ≡ vec_len written.old + length bytes.now }
    ensures places { vec_capacity steps.old ≤ vec_capacity steps.new }
    ensures capacity { vec_capacity written.old ≤ vec_capacity written.new }
{
    steps.push(step).unwrap();
    append(written, bytes);
}

fn clear(flags: &mut Vec<bool>)
    ensures { flags.new.items ≡ replicate (length flags.old.items) false }
{
    for i in 0..flags.len() {
        flags[i] = false;
    }
}

// Each block has its size.
fn are_whole(blocks: &[[u8; BLOCK_LEN]])
    ensures { (n : ℕ) → n < length blocks.now →
        length (slice_index_or blocks.now n []) ≡ BLOCK_LEN }
{}

impl Trace {
    /// No device, call or room.
    pub fn new(alloc: Global) -> Trace
        ensures now { result.now ≡ nothing_told.now }
        ensures past { result.past ≡ [] }
    {
        Trace {
            start: BTreeMap::new(alloc),
            others: BTreeMap::new(alloc),
            name: None,
            blocks: Vec::new(alloc),
            pending: Vec::new(alloc),
            said: Vec::new(alloc),
            steps: Vec::new(alloc),
            written: Vec::new(alloc),
        }
    }

    // Nothing but these devices, of which the second map is a copy.
    fn of_devices(
        alloc: Global,
        start: BTreeMap<Vec<u8>, Vec<[u8; BLOCK_LEN]>>,
        others: BTreeMap<Vec<u8>, Vec<[u8; BLOCK_LEN]>>,
    ) -> Trace
        requires same { by_name start.entries ≡ by_name others.entries }
        requires few { AreFew (by_name others.entries) }
        ensures now { result.now ≡ first (by_name others.entries) }
        ensures past { result.past ≡ [] }
    {
        Trace {
            start,
            others,
            name: None,
            blocks: Vec::new(alloc),
            pending: Vec::new(alloc),
            said: Vec::new(alloc),
            steps: Vec::new(alloc),
            written: Vec::new(alloc),
        }
    }

    /// Makes room for so many calls and bytes.
    pub fn reserve(&mut self, calls: usize, bytes: usize) -> Result<(), NoMemory>
        ensures calls { OnOk result (calls ≤ self.new.calls) }
        ensures bytes { OnOk result (bytes ≤ self.new.bytes) }
        ensures more_calls { self.old.calls ≤ self.new.calls }
        ensures more_bytes { self.old.bytes ≤ self.new.bytes }
        ensures now { self.new.now ≡ self.old.now }
        ensures past { self.new.past ≡ self.old.past }
    {
        self.steps.reserve(calls)?;
        self.written.reserve(bytes)?;
        self.said.reserve(bytes)?;
        Ok(())
    }

    /// The number of blocks, of which each has its size.
    pub fn blocks(&self) -> u32
        ensures count { result ≡ length self.now.now.blocks }
        ensures whole { HasWholeBlocks self.now.now }
    {
        are_whole(&self.blocks);
        self.blocks.len() as u32
    }

    /// The bytes said so far.
    pub fn said(&self) -> &[u8]
        ensures { result.now ≡ self.now.now.said }
    {
        &self.said
    }

    /// Reads a block.
    pub fn read(&self, n: u32, into: &mut [u8])
        requires below { n < length self.now.now.blocks }
        requires room { length into.old ≡ BLOCK_LEN }
        ensures { into.new ≡ block_of self.now.now n }
    {
        into.copy_from_slice(&self.blocks[n as usize]);
    }

    /// Each block has its size.
    pub fn are_whole(&self)
        ensures { HasWholeBlocks self.now.now }
    {
        are_whole(&self.blocks);
    }

    /// Whether a crash may spoil a block.
    pub fn is_pending(&self) -> bool
        ensures { result ≡ list_any (λ pending. pending) self.now.now.pending }
    {
        self.pending.iter().any(|pending| *pending)
    }

    /// A call that changes nothing.
    pub fn pass(&mut self)
        requires { 0 < self.old.calls }
        ensures { Adds 0 self.old.now self.old self.new }
    {
        note(&mut self.steps, &mut self.written, Step::Still, &[]);
    }

    /// A block is written.
    pub fn write(&mut self, n: u32, from: &[u8])
        requires below { n < length self.old.now.blocks }
        requires block { length from.now ≡ BLOCK_LEN }
        requires place { 0 < self.old.calls }
        requires room { BLOCK_LEN ≤ self.old.bytes }
        ensures { Adds BLOCK_LEN (with_block self.old.now n from.now) self.old self.new }
    {
        note(
            &mut self.steps,
            &mut self.written,
            Step::Write { block: n },
            from,
        );
        self.blocks[n as usize].copy_from_slice(from);
        self.pending[n as usize] = true;
    }

    /// The blocks are synced.
    pub fn sync(&mut self)
        requires { 0 < self.old.calls }
        ensures { Adds 0 (all_synced self.old.now) self.old self.new }
    {
        note(&mut self.steps, &mut self.written, Step::Sync, &[]);
        clear(&mut self.pending);
    }

    /// A piece is said.
    pub fn say(&mut self, piece: &[u8])
        requires place { 0 < self.old.calls }
        requires room { length piece.now ≤ self.old.bytes }
        ensures { Adds (length piece.now) (with_said self.old.now piece.now) self.old self.new }
    {
        note(
            &mut self.steps,
            &mut self.written,
            Step::Say { count: piece.len() },
            piece,
        );
        append(&mut self.said, piece);
    }
}

// A device that is to be attached.
#[derive(Drop)]
struct Drive {
    name: Vec<u8>,
    blocks: Vec<[u8; BLOCK_LEN]>,
    pending: Vec<bool>,
}

fn copied(alloc: Global, blocks: &[[u8; BLOCK_LEN]]) -> Result<Vec<[u8; BLOCK_LEN]>, AllocError>
    ensures { IfOk result (λ copy. copy.items ≡ blocks.now) }
{
    let mut copy = Vec::new(alloc);
    copy.extend_from_slice(blocks)?;
    Ok(copy)
}

fn zeros(alloc: Global, count: u32) -> Result<Vec<[u8; BLOCK_LEN]>, AllocError>
    ensures zeros { IfOk result (λ blocks. blocks.items ≡ zero_blocks count) }
    ensures few { IfOk result (λ blocks. length blocks.items < 2 ^ 32) }
{
    let mut blocks = Vec::new(alloc);
    blocks.resize(count as usize, [0; BLOCK_LEN])?;
    Ok(blocks)
}

// Puts a copy of the attached device's blocks among the others, where one is attached.
fn keep(
    alloc: Global,
    others: &mut BTreeMap<Vec<u8>, Vec<[u8; BLOCK_LEN]>>,
    name: &Option<Vec<u8>>,
    blocks: &[[u8; BLOCK_LEN]],
) -> Result<(), NoMemory>
    ensures kept { OnOk result (by_name others.new.entries
        ≡ with_named (option_map (λ name. name.items) name.now) blocks.now
        (by_name others.old.entries)) }
    ensures err { OnErr result (others.new.entries ≡ others.old.entries) }
{
    let Some(name) = name else {
        return Ok(());
    };
    let name = name.as_slice().to_vec(alloc)?;
    let blocks = copied(alloc, blocks)?;
    others.insert(name, blocks)?;
    Ok(())
}

fn prepare(alloc: Global, name: &[u8], blocks: Vec<[u8; BLOCK_LEN]>) -> Result<Drive, NoMemory>
    ensures name { IfOk result (λ drive. drive.name.items ≡ name.now) }
    ensures blocks { IfOk result (λ drive. drive.blocks ≡ blocks) }
    ensures pending { IfOk result (λ drive. drive.pending.items
        ≡ replicate (length blocks.items) false) }
{
    Ok(Drive {
        name: name.to_vec(alloc)?,
        pending: vec![in alloc; false; blocks.len()]?,
        blocks,
    })
}

impl Trace {
    // The blocks of the device of that name, attached or not.
    fn device(&self, name: &[u8]) -> Option<&[[u8; BLOCK_LEN]]>
        ensures found { MatchOption result (get (devices_of self.now.now) name.now ≡ None)
            (λ blocks. get (devices_of self.now.now) name.now ≡ Some blocks.now) }
        ensures few { IfSome result (λ blocks. length blocks.now < 2 ^ 32) }
    {
        let Some(own) = &self.name else {
            return find(&self.others, name);
        };
        if name.cmp(own.as_slice()).is_eq() {
            Some(&self.blocks)
        } else {
            find(&self.others, name)
        }
    }

    // The blocks of a device of that name: those that it has, or so many new ones.
    fn blocks_of(
        &self,
        alloc: Global,
        name: &[u8],
        make: Option<u32>,
    ) -> Result<Vec<[u8; BLOCK_LEN]>, AttachStop>
        ensures blocks { IfOk result
            (λ blocks. blocks.items ≡ blocks_given (devices_of self.now.now) name.now make) }
        ensures few { IfOk result (λ blocks. length blocks.items < 2 ^ 32) }
        ensures cause { HasAttachCause (devices_of self.now.now) name.now make result }
    {
        match (self.device(name), make) {
            (Some(blocks), None) => Ok(copied(alloc, blocks)?),
            (None, Some(count)) => Ok(zeros(alloc, count)?),
            (None, None) => Err(AttachStop::Missing),
            (Some(_), Some(_)) => Err(AttachStop::Exists),
        }
    }

    /// Attaches a device. One that was attached before stands among the others with its blocks as
    /// they read. It takes its moment, whatever it answers.
    pub fn attach(
        &mut self,
        alloc: Global,
        name: &[u8],
        make: Option<u32>,
    ) -> Result<(), AttachStop>
        requires place { 0 < self.old.calls }
        requires room { length name.now ≤ self.old.bytes }
        ensures ok { OnOk result
            (Adds (length name.now)
            (with_device self.old.now name.now
            (blocks_given (devices_of self.old.now) name.now make)) self.old self.new) }
        ensures err { OnErr result (Adds 0 self.old.now self.old self.new) }
        ensures cause { HasAttachCause (devices_of self.old.now) name.now make result }
    {
        let blocks = match self.blocks_of(alloc, name, make) {
            Ok(blocks) => blocks,
            Err(stop) => {
                self.pass();
                return Err(stop);
            }
        };
        let Ok(drive) = prepare(alloc, name, blocks) else {
            self.pass();
            return Err(AttachStop::NoMemory);
        };
        if keep(alloc, &mut self.others, &self.name, &self.blocks).is_err() {
            self.pass();
            return Err(AttachStop::NoMemory);
        }
        note(
            &mut self.steps,
            &mut self.written,
            step_of(name, make),
            name,
        );
        self.name = Some(drive.name);
        self.blocks = drive.blocks;
        self.pending = drive.pending;
        Ok(())
    }
}

fn step_of(name: &[u8], make: Option<u32>) -> Step
    ensures { result ≡ attaching (length name.now) make }
{
    let name = name.len();
    match make {
        None => Step::Open { name },
        Some(blocks) => Step::Make { name, blocks },
    }
}

impl Step {
    // How many of the bytes beside the log a call has.
    fn uses(self) -> usize
        ensures { result ≡ uses self }
    {
        match self {
            Step::Still | Step::Sync => 0,
            Step::Write { .. } => BLOCK_LEN,
            Step::Say { count } => count,
            Step::Open { name } | Step::Make { name, .. } => name,
        }
    }
}

impl Trace {
    /// How many moments went by.
    pub fn moments(&self) -> usize
        ensures { result ≡ length self.now.past }
    {
        self.steps.len()
    }

    // Keeps the bytes of a block that isn't pending, and writes it.
    fn write_over(&mut self, synced: &mut [[u8; BLOCK_LEN]], n: u32, from: &[u8])
        requires below { n < length self.old.now.blocks }
        requires count { length synced.old ≡ length self.old.now.blocks }
        requires block { length from.now ≡ BLOCK_LEN }
        requires place { 0 < self.old.calls }
        requires room { BLOCK_LEN ≤ self.old.bytes }
        ensures adds { Adds BLOCK_LEN (with_block self.old.now n from.now) self.old self.new }
        ensures count { length synced.new ≡ length self.new.now.blocks }
        ensures kept { StaysSynced self.old.now self.new.now synced.old synced.new }
    {
        let place = n as usize;
        if !self.pending[place] {
            synced[place] = self.blocks[place];
        }
        self.write(n, from);
    }

    // Attaches a device, and makes room for the bytes of its blocks.
    fn attach_over(
        &mut self,
        alloc: Global,
        synced: &mut Vec<[u8; BLOCK_LEN]>,
        name: &[u8],
        make: Option<u32>,
    ) -> Result<(), NoMemory>
        requires place { 0 < self.old.calls }
        requires room { length name.now ≤ self.old.bytes }
        ensures adds { OnOk result
            (Adds (length name.now)
            (with_device self.old.now name.now
            (blocks_given (devices_of self.old.now) name.now make)) self.old self.new) }
        ensures count { OnOk result (length synced.new.items ≡ length self.new.now.blocks) }
        ensures none { OnOk result ((n : ℕ) → is_pending self.new.now n ≡ false) }
    {
        self.attach(alloc, name, make).map_err(|_| NoMemory)?;
        synced.resize(self.blocks.len(), [0; BLOCK_LEN])?;
        Ok(())
    }

    // Carries out a call of a log again. The bytes that stood in a block before it was pending are
    // kept.
    fn repeat(
        &mut self,
        alloc: Global,
        synced: &mut Vec<[u8; BLOCK_LEN]>,
        step: Step,
        bytes: &[u8],
    ) -> Result<(), NoMemory>
        requires own { length bytes.now ≡ uses step }
        requires count { length synced.old.items ≡ length self.old.now.blocks }
        requires place { 0 < self.old.calls }
        requires room { length bytes.now ≤ self.old.bytes }
        ensures adds { OnOk result
            (Adds (length bytes.now) (advance self.old.now step bytes.now) self.old self.new) }
        ensures count { OnOk result (length synced.new.items ≡ length self.new.now.blocks) }
        ensures kept { OnOk result
            (StaysSynced self.old.now self.new.now synced.old.items synced.new.items) }
    {
        match step {
            Step::Still => self.pass(),
            Step::Write { block } if block < self.blocks() => self.write_over(synced, block, bytes),
            Step::Write { .. } => return Err(NoMemory),
            Step::Sync => self.sync(),
            Step::Say { .. } => self.say(bytes),
            Step::Open { .. } => self.attach_over(alloc, synced, bytes, None)?,
            Step::Make { blocks, .. } => self.attach_over(alloc, synced, bytes, Some(blocks))?,
        }
        Ok(())
    }

    // What a crash now leaves, by the bytes that stood in each block before it was pending.
    fn left(
        mut self,
        alloc: Global,
        synced: &[[u8; BLOCK_LEN]],
        choice: Choice,
    ) -> Result<Trace, NoMemory>
        requires { length synced.now ≡ length self.now.blocks }
        ensures devices { IfOk result (λ t. IsSpoiled choice synced.now self.now t.now) }
        ensures past { IfOk result (λ t. t.past ≡ []) }
    {
        spoil_all(&mut self.blocks, &self.pending, synced, choice);
        keep(alloc, &mut self.others, &self.name, &self.blocks)?;
        let start = copied_map(alloc, &self.others)?;
        Ok(Trace::of_devices(alloc, start, self.others))
    }

    /// What a crash at a moment leaves.
    pub fn crashed(&self, alloc: Global, moment: usize, choice: Choice) -> Result<Trace, NoMemory>
        requires { moment ≤ length self.now.past }
        ensures left { IfOk result
            (λ t. IsLeft (moment_at self.now.past self.now.now) moment choice t.now) }
        ensures past { IfOk result (λ t. t.past ≡ []) }
    {
        let start = copied_map(alloc, &self.start)?;
        let others = copied_map(alloc, &self.start)?;
        let mut trace = Trace::of_devices(alloc, start, others);
        trace.reserve(moment, self.written.len())?;
        let mut synced = Vec::new(alloc);
        let mut used = 0;
        for i in 0..moment {
            let step = self.steps[i];
            let bytes = part(&self.written, used, step.uses());
            trace.repeat(alloc, &mut synced, step, bytes)?;
            used += bytes.len();
        }
        trace.left(alloc, &synced, choice)
    }
}

fn part(bytes: &[u8], at: usize, count: usize) -> &[u8]
    requires { at + count ≤ length bytes.now }
    ensures value { result.now ≡ take count (drop at bytes.now) }
    ensures long { length result.now ≡ count }
{
    &bytes[at..at + count]
}

// Makes of each block that is pending what a crash leaves.
fn spoil_all(
    blocks: &mut [[u8; BLOCK_LEN]],
    pending: &[bool],
    synced: &[[u8; BLOCK_LEN]],
    choice: Choice,
)
    requires flags { length pending.now ≡ length blocks.old }
    requires count { length synced.now ≡ length blocks.old }
    ensures { AreSpoiled choice synced.now pending.now blocks.old blocks.new }
{
    for n in 0..blocks.len() {
        if pending[n] {
            spoil(&mut blocks[n], &synced[n], choice);
        }
    }
}
