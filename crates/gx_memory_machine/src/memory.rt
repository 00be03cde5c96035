// A machine in memory, which tells everything. Tests give it texts and a script, and make its calls
// fail.
ghost use Rattle.std.specs.Prelude.{◌≡◌, ◌⊎◌, ◌≤◌, ◌<◌, ◌+◌, ◌^◌, ◌||◌, [], ◌∷◌, ◌++◌, ℕ, not, length, min, max, true, false, IsTrue, Some, None, Ok, IfOk, OnOk, OnErr, IsErrOf, IsSomeAnd, IsSome, is_err, if◌then◌else◌};
ghost use Rattle.std.specs.FinMap.{insert, get};
ghost use Rattle.std.specs.List.{list_any};
ghost use Rattle.gx_device.specs.Content.{Ticks, OnlyTime, Writes, Written, Syncs, NonePending, SameContent, Hears, Listens, Says, Speaks, IsOpened, IsMade, block_of, device_at};
ghost use Rattle.gx_device.specs.Faults.{Rose, HasCause, Counted, is_fault, is_attach_fault};
ghost use Rattle.gx_memory_machine.specs.Counts.{fails, called, is_short, is_used_up, fails_itself, is_given, numbered};
ghost use Rattle.gx_memory_machine.specs.Crash.{moment_at, IsLeft};
ghost use Rattle.gx_memory_machine.specs.Memory.{empty_machine, content_of, past_after, passed_itself};
ghost use Rattle.gx_device.specs.declared.device.TheConstants.{BLOCK_LEN};

use crate::counter::Counter;
use crate::crash::Choice;
use crate::names::{copied_map, find};
use crate::trace::Trace;
use gx_device::{AttachStop, BLOCK_LEN, Device, Failed, FetchStop, Machine, NoMemory};
use std::alloc::Global;
use std::collections::BTreeMap;
use std::marker::Model;

/// A machine in memory, for tests.
///
/// Its calls as a device and a machine but `blocks` are numbered from 0, and those given to
/// `fail_at` fail. Its record has room for so many calls, which is 0 until `reserve`: each call of
/// a device uses one spare call, `write_block` uses 4,096 spare bytes, and `say` as many as the
/// piece has. A call whose room is short fails without a number or a moment, and changes nothing
/// but the count of faults.
#[derive(Drop)]
pub struct MemoryMachine {
    texts: BTreeMap<Vec<u8>, Vec<u8>>,
    script: Vec<u8>,
    heard: usize,
    trace: Trace,
    counter: Counter,
}

impl Model for MemoryMachine {
    ghost use Rattle.std.specs.Prelude.{◌≡◌, ◌≤◌, drop, length, vec_len};
    ghost use Rattle.std.specs.Coded.{codes};
    ghost use Rattle.gx_device.specs.Content.{coded_texts, coded_devices};
    ghost use Rattle.gx_memory_machine.specs.Memory.{Memory, texts_of};

    ghost Value = { Memory };

    ghost coded = { Prim.hlevel (codes, coded_texts, coded_devices) };

    ghost view = { λ m. record {
      texts = texts_of m.texts.entries;
      script = drop m.heard m.script.items;
      now = m.trace.now;
      past = m.trace.past;
      counts = m.counter;
    } };

    // There is room for the spare calls and their bytes, and each call with a number took a moment.
    ghost invariant = { λ m. (m.heard ≤ vec_len m.script)
        × (m.counter.spare_calls ≤ m.trace.calls) × (m.counter.spare_bytes ≤ m.trace.bytes)
        × (length m.trace.past ≡ m.counter.calls) };
}

impl MemoryMachine {
    /// A machine with no text, device, script, said byte, fault, call or room.
    pub fn new(alloc: Global) -> Result<MemoryMachine, NoMemory>
        ensures { IfOk result (λ m. m ≡ empty_machine) }
    {
        Ok(MemoryMachine {
            texts: BTreeMap::new(alloc),
            script: Vec::new(alloc),
            heard: 0,
            trace: Trace::new(alloc),
            counter: Counter::new(alloc),
        })
    }

    /// Sets the text of that name. After `NoMemory` the machine is as before.
    pub fn add_text(&mut self, alloc: Global, name: &str, bytes: &[u8]) -> Result<(), NoMemory>
        ensures ok { OnOk result (self.new
            ≡ record self.old { texts = insert self.old.texts name.now bytes.now }) }
        ensures err { OnErr result (self.new ≡ self.old) }
    {
        let name = name.as_bytes().to_vec(alloc)?;
        let bytes = bytes.to_vec(alloc)?;
        self.texts.insert(name, bytes)?;
        Ok(())
    }

    /// Sets the script, of which nothing is heard yet. After `NoMemory` the machine is as before.
    pub fn set_script(&mut self, alloc: Global, bytes: &[u8]) -> Result<(), NoMemory>
        ensures ok { OnOk result (self.new ≡ record self.old { script = bytes.now }) }
        ensures err { OnErr result (self.new ≡ self.old) }
    {
        self.script = bytes.to_vec(alloc)?;
        self.heard = 0;
        Ok(())
    }

    /// Makes the call of that number fail. After `NoMemory` the machine is as before.
    pub fn fail_at(&mut self, alloc: Global, call: u32) -> Result<(), NoMemory>
        ensures ok { OnOk result (self.new ≡ record self.old {
          counts = record self.old.counts {
            failing = self.old.counts.failing ++ call ∷ [];
          };
        }) }
        ensures err { OnErr result (self.new ≡ self.old) }
    {
        let _ = alloc;
        self.counter.fail_at(call)
    }

    /// Makes room for at least so many calls and so many bytes. After `NoMemory`, which also says
    /// that the calls would be more than 4,294,967,295 in all, the machine is as before.
    pub fn reserve(&mut self, alloc: Global, calls: u32, bytes: u32) -> Result<(), NoMemory>
        ensures ok { OnOk result (self.new ≡ record self.old {
          counts = record self.old.counts {
            spare_calls = max self.old.counts.spare_calls calls;
            spare_bytes = max self.old.counts.spare_bytes bytes;
          };
        }) }
        ensures err { OnErr result (self.new ≡ self.old) }
    {
        let _ = alloc;
        let places = self.counter.spare_calls().max(calls);
        let room = self.counter.spare_bytes().max(bytes);
        self.trace.reserve(places as usize, room as usize)?;
        self.counter.reserve(calls, bytes)
    }

    /// The bytes said so far.
    pub fn said(&self) -> &[u8]
        ensures { result.now ≡ self.now.now.said }
    {
        self.trace.said()
    }

    /// The clock: how many moments went by. Each call with a number took one.
    pub fn moments(&self) -> u32
        ensures { result ≡ length self.now.past }
    {
        self.counter.calls()
    }

    /// What a crash at a moment leaves: a machine with the same texts and all devices of that
    /// moment. The device that was attached holds each block that wasn't pending as it read, and
    /// each other one as chosen. No device is attached, and there is no script, said byte, fault,
    /// call or room. The moment is at most `moments()`: 0 is before the first call, and the last is
    /// now. `NoMemory` is its one error.
    pub fn crash(
        &self,
        alloc: Global,
        moment: u32,
        choice: Choice,
    ) -> Result<MemoryMachine, NoMemory>
        requires { moment ≤ length self.now.past }
        ensures left { IfOk result
            (λ m. IsLeft (moment_at self.now.past self.now.now) moment choice m.now) }
        ensures rest { IfOk result
            (λ m. m ≡ record empty_machine { texts = self.now.texts; now = m.now }) }
    {
        Ok(MemoryMachine {
            texts: copied_map(alloc, &self.texts)?,
            script: Vec::new(alloc),
            heard: 0,
            trace: self.trace.crashed(alloc, moment as usize, choice)?,
            counter: Counter::new(alloc),
        })
    }
}

// Counts a call of a device with so many bytes, and answers whether it goes on. A call that has a
// number and doesn't go on takes its moment here.
fn begins(counter: &mut Counter, trace: &mut Trace, bytes: usize) -> bool
    requires places { counter.old.spare_calls ≤ trace.old.calls }
    requires room { counter.old.spare_bytes ≤ trace.old.bytes }
    requires clock { length trace.old.past ≡ counter.old.calls }
    ensures goes_on { result ≡ not (fails counter.old bytes) }
    ensures counts { counter.new ≡ called counter.old bytes }
    ensures cause { Counted result counter.old.faults counter.new.faults }
    ensures room_for { result ≡ true → is_short counter.old bytes ≡ false }
    ensures now { trace.new.now ≡ trace.old.now }
    ensures past { trace.new.past
        ≡ (if result || is_short counter.old bytes then trace.old.past
        else trace.old.past ++ trace.old.now ∷ []) }
    ensures place { result ≡ true → counter.new.spare_calls < trace.new.calls }
    ensures bytes { result ≡ true → counter.new.spare_bytes + bytes ≤ trace.new.bytes }
    ensures places { counter.new.spare_calls ≤ trace.new.calls }
    ensures room { counter.new.spare_bytes ≤ trace.new.bytes }
    ensures clock { result ≡ true → length trace.new.past + 1 ≡ counter.new.calls }
    ensures still { result ≡ false → length trace.new.past ≡ counter.new.calls }
{
    if counter.is_short(bytes) {
        return counter.call(bytes);
    }
    if !counter.call(bytes) {
        trace.pass();
        return false;
    }
    true
}

// Gives a call that takes its own room its number, and answers whether it goes on. Its moment is
// still to come.
fn begins_itself(counter: &mut Counter, trace: &mut Trace, bytes: usize) -> Result<bool, NoMemory>
    requires places { counter.old.spare_calls ≤ trace.old.calls }
    requires room { counter.old.spare_bytes ≤ trace.old.bytes }
    requires clock { length trace.old.past ≡ counter.old.calls }
    requires bytes { bytes < 2 ^ 63 }
    ensures goes_on { IfOk result (λ goes_on. goes_on ≡ not (is_given counter.old)) }
    ensures used_up { OnOk result (is_used_up counter.old ≡ false) }
    ensures counts { OnOk result (counter.new ≡ numbered counter.old) }
    ensures cause { IfOk result (λ goes_on. Counted goes_on counter.old.faults counter.new.faults) }
    ensures uncounted { OnErr result (counter.new ≡ counter.old) }
    ensures now { trace.new.now ≡ trace.old.now }
    ensures past { trace.new.past ≡ trace.old.past }
    ensures place { OnOk result (counter.new.spare_calls < trace.new.calls) }
    ensures bytes { OnOk result (counter.new.spare_bytes + bytes ≤ trace.new.bytes) }
    ensures places { counter.new.spare_calls ≤ trace.new.calls }
    ensures room { counter.new.spare_bytes ≤ trace.new.bytes }
    ensures clock { OnOk result (length trace.new.past + 1 ≡ counter.new.calls) }
    ensures still { OnErr result (length trace.new.past ≡ counter.new.calls) }
{
    if counter.is_used_up() {
        return Err(NoMemory);
    }
    trace.reserve(
        counter.spare_calls() as usize + 1,
        counter.spare_bytes() as usize + bytes,
    )?;
    Ok(counter.number())
}

impl Device for MemoryMachine {
    ghost use Rattle.std.specs.Prelude.{length, true, refl};
    ghost use Rattle.gx_memory_machine.specs.Memory.{content_of};

    ghost tells = { true };

    ghost content = { content_of };

    ghost faults = { λ m. m.counts.faults };

    ghost size = { λ m. length m.now.blocks };

    ghost sized = { λ m told. refl };

    fn blocks(&self) -> u32 {
        self.trace.blocks()
    }

    fn read_block(&mut self, n: u32, into: &mut [u8]) -> Result<(), Failed>
        requires below { n < length self.old.now.blocks }
        requires room { length into.old ≡ BLOCK_LEN }
        ensures block { OnOk result (into.new ≡ block_of self.old.now n) }
        ensures rest { OnlyTime (content_of self.old) (content_of self.new) }
        ensures size { length self.new.now.blocks ≡ length self.old.now.blocks }
        ensures cause { HasCause self.old.counts.faults self.new.counts.faults result }
        ensures counted { OnOk result (self.new.counts.faults ≡ self.old.counts.faults) }

        // It fails exactly where its room is short or its number was given.
        ensures fails { is_err result ≡ fails self.old.counts 0 }
        ensures counts { self.new.counts ≡ called self.old.counts 0 }
        ensures past { self.new.past ≡ past_after self.old 0 }
    {
        if !begins(&mut self.counter, &mut self.trace, 0) {
            return Err(Failed);
        }
        self.trace.read(n, into);
        self.trace.pass();
        Ok(())
    }

    fn write_block(&mut self, n: u32, from: &[u8]) -> Result<(), Failed>
        requires below { n < length self.old.now.blocks }
        requires room { length from.now ≡ BLOCK_LEN }
        ensures block { OnOk result
            (Written n from.now (content_of self.old) (content_of self.new)) }
        ensures rest { Writes n (content_of self.old) (content_of self.new) }
        ensures size { length self.new.now.blocks ≡ length self.old.now.blocks }
        ensures cause { HasCause self.old.counts.faults self.new.counts.faults result }
        ensures counted { OnOk result (self.new.counts.faults ≡ self.old.counts.faults) }

        // It fails exactly where its room is short or its number was given, and then changes no
        // block.
        ensures same { OnErr result (self.new.now ≡ self.old.now) }
        ensures fails { is_err result ≡ fails self.old.counts BLOCK_LEN }
        ensures counts { self.new.counts ≡ called self.old.counts BLOCK_LEN }
        ensures past { self.new.past ≡ past_after self.old BLOCK_LEN }
    {
        self.trace.are_whole();
        if !begins(&mut self.counter, &mut self.trace, BLOCK_LEN) {
            return Err(Failed);
        }
        self.trace.write(n, from);
        Ok(())
    }

    fn sync(&mut self) -> Result<(), Failed>
        ensures none_pending { OnOk result (NonePending (content_of self.new)) }
        ensures still_pending { OnErr result ((content_of self.new).now.pending
            ≡ (content_of self.old).now.pending) }
        ensures rest { Syncs (content_of self.old) (content_of self.new) }
        ensures size { length self.new.now.blocks ≡ length self.old.now.blocks }
        ensures cause { HasCause self.old.counts.faults self.new.counts.faults result }
        ensures counted { OnOk result (self.new.counts.faults ≡ self.old.counts.faults) }

        // It fails exactly where its room is short or its number was given.
        ensures fails { is_err result ≡ fails self.old.counts 0 }
        ensures counts { self.new.counts ≡ called self.old.counts 0 }
        ensures past { self.new.past ≡ past_after self.old 0 }
    {
        if !begins(&mut self.counter, &mut self.trace, 0) {
            return Err(Failed);
        }
        self.trace.sync();
        Ok(())
    }

    fn hear(&mut self, into: &mut [u8]) -> Result<usize, Failed>
        requires { 0 < length into.old }
        ensures bound { IfOk result (λ n. n ≤ length into.new) }
        ensures heard { IfOk result
            (λ n. Hears n into.new (content_of self.old) (content_of self.new)) }
        ensures not_heard { OnErr result ((content_of self.new).script
            ≡ (content_of self.old).script) }
        ensures rest { Listens (content_of self.old) (content_of self.new) }
        ensures time { Ticks (content_of self.old) (content_of self.new) }
        ensures size { length self.new.now.blocks ≡ length self.old.now.blocks }
        ensures cause { HasCause self.old.counts.faults self.new.counts.faults result }
        ensures counted { OnOk result (self.new.counts.faults ≡ self.old.counts.faults) }

        // It gives as many bytes as fit, and fails exactly where its room is short or its number
        // was given.
        ensures fills { IfOk result (λ n. n ≡ min (length into.old) (length self.old.script)) }
        ensures fails { is_err result ≡ fails self.old.counts 0 }
        ensures counts { self.new.counts ≡ called self.old.counts 0 }
        ensures past { self.new.past ≡ past_after self.old 0 }
    {
        if !begins(&mut self.counter, &mut self.trace, 0) {
            return Err(Failed);
        }
        self.trace.pass();
        let count = into.len().min(self.script.len() - self.heard);
        into[..count].copy_from_slice(&self.script[self.heard..self.heard + count]);
        self.heard += count;
        Ok(count)
    }

    fn say(&mut self, from: &[u8]) -> Result<usize, Failed>
        ensures bound { IfOk result (λ n. n ≤ length from.now) }
        ensures said { IfOk result
            (λ n. Says n from.now (content_of self.old) (content_of self.new)) }
        ensures not_said { OnErr result ((content_of self.new).now.said
            ≡ (content_of self.old).now.said) }
        ensures rest { Speaks (content_of self.old) (content_of self.new) }
        ensures time { Ticks (content_of self.old) (content_of self.new) }
        ensures size { length self.new.now.blocks ≡ length self.old.now.blocks }
        ensures cause { HasCause self.old.counts.faults self.new.counts.faults result }
        ensures counted { IfOk result
            (λ n. 0 < n → self.new.counts.faults ≡ self.old.counts.faults) }
        ensures none_taken { result ≡ Ok 0 → 0 < length from.now →
            Rose self.old.counts.faults self.new.counts.faults }

        // It takes the whole piece, and fails exactly where its room is short or its number
        // was given.
        ensures whole { IfOk result (λ n. n ≡ length from.now) }
        ensures fails { is_err result ≡ fails self.old.counts (length from.now) }
        ensures counts { self.new.counts ≡ called self.old.counts (length from.now) }
        ensures past { self.new.past ≡ past_after self.old (length from.now) }
    {
        if !begins(&mut self.counter, &mut self.trace, from.len()) {
            return Err(Failed);
        }
        self.trace.say(from);
        Ok(from.len())
    }
}

impl Machine for MemoryMachine {
    fn fetch(&mut self, alloc: Global, name: &str, limit: u32) -> Result<Vec<u8>, FetchStop>
        ensures text { IfOk result
            (λ text. get (content_of self.old).aside.texts name.now ≡ Some text.items) }
        ensures bound { IfOk result (λ text. length text.items ≤ limit) }
        ensures missing { IsErrOf result FetchStop.Missing →
            get (content_of self.old).aside.texts name.now ≡ None }
        ensures too_long { IsErrOf result FetchStop.TooLong →
            IsSomeAnd (get (content_of self.old).aside.texts name.now)
            (λ text. limit < length text) }
        ensures fault { IsErrOf result FetchStop.Fault →
            Rose self.old.counts.faults self.new.counts.faults }
        ensures counted { is_fault result ≡ false →
            self.new.counts.faults ≡ self.old.counts.faults }
        ensures later { self.old.counts.faults ≤ self.new.counts.faults }
        ensures rest { SameContent (content_of self.old) (content_of self.new) }
        ensures time { Ticks (content_of self.old) (content_of self.new) }
        ensures size { length self.new.now.blocks ≡ length self.old.now.blocks }

        // It takes its own room, and where there is memory it fails exactly where its number
        // was given.
        ensures fails { IsErrOf result FetchStop.Fault → IsTrue (fails_itself self.old.counts) }
        ensures given { IsTrue (fails_itself self.old.counts) →
            IsErrOf result FetchStop.Fault ⊎ IsErrOf result FetchStop.NoMemory }
        ensures machine { (self.new ≡ passed_itself self.old)
            ⊎ (IsErrOf result FetchStop.NoMemory × (self.new ≡ self.old)) }
    {
        let Ok(goes_on) = begins_itself(&mut self.counter, &mut self.trace, 0) else {
            return Err(FetchStop::NoMemory);
        };
        self.trace.pass();
        if !goes_on {
            return Err(FetchStop::Fault);
        }
        let Some(text) = find(&self.texts, name.as_bytes()) else {
            return Err(FetchStop::Missing);
        };
        if text.len() > limit as usize {
            return Err(FetchStop::TooLong);
        }
        text.to_vec(alloc).map_err(|_| FetchStop::NoMemory)
    }

    fn attach(&mut self, alloc: Global, name: &str, make: Option<u32>) -> Result<(), AttachStop>
        ensures opened { make ≡ None →
            OnOk result (IsOpened name.now (content_of self.old) (content_of self.new)) }
        ensures made { (n : ℕ) → make ≡ Some n →
            OnOk result (IsMade n name.now (content_of self.old) (content_of self.new)) }
        ensures missing { IsErrOf result AttachStop.Missing → make ≡ None }
        ensures absent { IsErrOf result AttachStop.Missing →
            device_at (content_of self.old).now name.now ≡ None }
        ensures exists { IsErrOf result AttachStop.Exists → IsSome make }
        ensures present { IsErrOf result AttachStop.Exists →
            IsSome (device_at (content_of self.old).now name.now) }
        ensures refused { OnErr result (SameContent (content_of self.old) (content_of self.new)) }
        ensures time { Ticks (content_of self.old) (content_of self.new) }
        ensures size { OnErr result (length self.new.now.blocks ≡ length self.old.now.blocks) }
        ensures fault { IsErrOf result AttachStop.Fault →
            Rose self.old.counts.faults self.new.counts.faults }
        ensures counted { is_attach_fault result ≡ false →
            self.new.counts.faults ≡ self.old.counts.faults }
        ensures later { self.old.counts.faults ≤ self.new.counts.faults }

        // It takes its own room, and where there is memory it fails exactly where its number
        // was given.
        ensures fails { IsErrOf result AttachStop.Fault → IsTrue (fails_itself self.old.counts) }
        ensures given { IsTrue (fails_itself self.old.counts) →
            IsErrOf result AttachStop.Fault ⊎ IsErrOf result AttachStop.NoMemory }
        ensures counts { (self.new.counts ≡ numbered self.old.counts)
            ⊎ (IsErrOf result AttachStop.NoMemory × (self.new ≡ self.old)) }

        // Where a block is pending it does nothing.
        ensures waits { IsTrue (list_any (λ pending. pending) self.old.now.pending) →
            IsErrOf result AttachStop.NoMemory × (self.new ≡ self.old) }
    {
        if self.trace.is_pending() {
            return Err(AttachStop::NoMemory);
        }
        let name = name.as_bytes();
        let goes_on = begins_itself(&mut self.counter, &mut self.trace, name.len())?;
        if !goes_on {
            self.trace.pass();
            return Err(AttachStop::Fault);
        }
        self.trace.attach(alloc, name, make)
    }
}
