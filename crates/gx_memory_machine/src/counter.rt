// What a machine in memory counts.
ghost use Rattle.std.specs.Prelude.{◌≡◌, ◌≤◌, ◌+◌, ◌^◌, ◌<◌, ◌∷◌, [], ◌++◌, OnOk, OnErr, max, not, true, false, IsTrue};
ghost use Rattle.gx_device.specs.Faults.{Rose};
ghost use Rattle.gx_memory_machine.specs.Counts.{fails, called, is_short, is_given, numbered, is_used_up};

use gx_device::NoMemory;
use std::alloc::Global;
use std::marker::Model;

#[derive(Drop)]
pub struct Counter {
    faults: u64,
    calls: u32,
    failing: Vec<u32>,
    spare_calls: u32,
    spare_bytes: u32,
}

impl Model for Counter {
    ghost use Rattle.std.specs.Prelude.{◌+◌, ◌<◌, ◌^◌};
    ghost use Rattle.gx_memory_machine.specs.Counts.{Counts};

    ghost Value = { Counts };

    ghost view = { λ c. record {
      faults = c.faults;
      calls = c.calls;
      failing = c.failing.items;
      spare_calls = c.spare_calls;
      spare_bytes = c.spare_bytes;
    } };

    // Each spare call has its number.
    ghost invariant = { λ c. c.calls + c.spare_calls < 2 ^ 32 };
}

impl Counter {
    pub fn new(alloc: Global) -> Counter
        ensures { result ≡ record
            { faults = 0; calls = 0; failing = []; spare_calls = 0; spare_bytes = 0 } }
    {
        Counter {
            faults: 0,
            calls: 0,
            failing: Vec::new(alloc),
            spare_calls: 0,
            spare_bytes: 0,
        }
    }

    pub fn fail_at(&mut self, call: u32) -> Result<(), NoMemory>
        ensures ok { OnOk result
            (self.new ≡ record self.old { failing = self.old.failing ++ call ∷ [] }) }
        ensures err { OnErr result (self.new ≡ self.old) }
    {
        self.failing.push(call)?;
        Ok(())
    }

    pub fn calls(&self) -> u32
        ensures { result ≡ self.now.calls }
    {
        self.calls
    }

    pub fn spare_calls(&self) -> u32
        ensures { result ≡ self.now.spare_calls }
    {
        self.spare_calls
    }

    pub fn spare_bytes(&self) -> u32
        ensures { result ≡ self.now.spare_bytes }
    {
        self.spare_bytes
    }

    /// Makes each spare number at least so much, where so many calls can have numbers.
    pub fn reserve(&mut self, calls: u32, bytes: u32) -> Result<(), NoMemory>
        ensures ok { OnOk result
            (self.new
            ≡ record self.old {
              spare_calls = max self.old.spare_calls calls;
              spare_bytes = max self.old.spare_bytes bytes;
            }) }
        ensures err { OnErr result (self.new ≡ self.old) }
    {
        if calls > u32::MAX - self.calls {
            return Err(NoMemory);
        }
        self.spare_calls = self.spare_calls.max(calls);
        self.spare_bytes = self.spare_bytes.max(bytes);
        Ok(())
    }

    /// Whether there is no room for a call of a device with so many bytes.
    pub fn is_short(&self, bytes: usize) -> bool
        ensures { result ≡ is_short self.now bytes }
    {
        self.spare_calls == 0 || (self.spare_bytes as usize) < bytes
    }

    /// Counts a call of a device with so many bytes, and answers whether it goes on.
    pub fn call(&mut self, bytes: usize) -> bool
        ensures goes_on { result ≡ not (fails self.old bytes) }
        ensures counts { self.new ≡ called self.old bytes }
        ensures later { self.old.faults ≤ self.new.faults }
        ensures rose { result ≡ false → Rose self.old.faults self.new.faults }
        ensures same { result ≡ true → self.new.faults ≡ self.old.faults }
    {
        if self.is_short(bytes) {
            self.faults = self.faults.saturating_add(1);
            return false;
        }
        self.spare_calls -= 1;
        self.spare_bytes -= bytes as u32;
        self.number()
    }

    /// Whether no call can have a number but the spare ones.
    pub fn is_used_up(&self) -> bool
        ensures { result ≡ is_used_up self.now }
    {
        self.calls + self.spare_calls == u32::MAX
    }

    /// Gives the next call its number, and answers whether it goes on.
    pub fn number(&mut self) -> bool
        requires { IsTrue (not (is_used_up self.old)) }
        ensures goes_on { result ≡ not (is_given self.old) }
        ensures counts { self.new ≡ numbered self.old }
        ensures later { self.old.faults ≤ self.new.faults }
        ensures rose { result ≡ false → Rose self.old.faults self.new.faults }
        ensures same { result ≡ true → self.new.faults ≡ self.old.faults }
    {
        let given = self.failing.contains(&self.calls);
        self.calls += 1;
        if given {
            self.faults = self.faults.saturating_add(1);
        }
        !given
    }
}
