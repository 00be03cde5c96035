// Pages over a device, with the working ones in a few frames.
ghost use Rattle.std.specs.Prelude.{◌≡◌, ◌↔◌, ◌<◌, ◌≤◌, ◌+◌, ◌*◌, [], false, length, replicate, drop, slice_set, slice_index_or, IsTrue, IfOk, IfErr, OnOk, OnErr};
ghost use Rattle.std.specs.Borrow.{sem};
ghost use Rattle.gx_device.specs.Content.{Silent, block_of};
ghost use Rattle.gx_device.specs.Crash.{LeavesOnly};
ghost use Rattle.gx_device.specs.Faults.{IsCounted};
ghost use Rattle.gx_layout.specs.Layout.{OnlyBlocks, head_blocks, home, pages_of, is_open};
ghost use Rattle.gx_layout.specs.Places.{layout_of};
ghost use Rattle.gx_layout.specs.Head.{HasMagic, IsFormatted, DifferFirst, text_at, text_area};
ghost use Rattle.gx_layout.specs.Besides.{IsImageBesides};
ghost use Rattle.gx_layout.specs.Recovered.{Recovers, IsOfRecovery, replayed_pages, view_now};
ghost use Rattle.gx_journal.specs.Sources.{IsCached};
ghost use Rattle.gx_device.specs.declared.device.TheConstants.{BLOCK_LEN};
ghost use Rattle.gx_layout.specs.declared.places.TheConstants.{MAX_BLOCKS, MAX_TEXTS_LEN};

use crate::access::{bring, write};
use crate::commit::commit;
use crate::forget::forget;
use crate::opening::Unopened;
use crate::working::WorkingPages;
use gx_device::{Device, Failed};
use gx_layout::{format, home, layout, recover, seal, texts_differ};
use std::alloc::Global;

/// Pages that are committed all at once.
///
/// The kept pages, those of the last commit, are in their home blocks. A working page stands in a
/// frame; one that has changed goes to its slot before it leaves the frames, and is read back from
/// there.
#[derive(Drop)]
pub struct Journal<D: Device> {
    device: D,
    working: WorkingPages,
    failed: bool,
    ghost room: { head_blocks (D.size device) + 2 * length working.spilled.items ≤ D.size device },
    ghost limit: { D.size device ≤ MAX_BLOCKS },
    ghost count: { length working.spilled.items ≡ pages_of (D.size device) },
    ghost closed: { IsTrue D.tells → failed ≡ false →
        is_open (block_of (D.content device).now 1) ≡ false },
    ghost cached: { IsTrue D.tells →
        IsCached (D.size device) (length working.spilled.items)
        (D.content device).now.blocks working.spilled.items working.frames.resident },
}

impl<D: Device> Journal<D> {
    ghost use Rattle.gx_journal.specs.Journal.{device_of, content_of, size_of, frames_of, working_of, kept_of, kept_head, IsSteady, IsUnchanged, Keeps};
    ghost use Rattle.gx_journal.specs.Calls.{Rests, Reads, Talks, ReplacesKept, Settles, SealsKept, KeepsPages, Hearing, Saying};
    ghost use Rattle.gx_journal.specs.Opening.{content_left, IsPoolSize, IsDeviceSize, IsRecovered, IsUnrecovered, IsLaidOut, IsNotLaidOut, Opens};
    ghost use Rattle.gx_journal.specs.Working.{size_in};
    ghost use Rattle.gx_journal.specs.contracts.journal.Journal.{the_row};

    // A journal whose working pages are all at home.
    fn over(device: D, working: WorkingPages) -> Journal<D>
        requires room { head_blocks (D.size device) + 2 * size_in working ≤ D.size device }
        requires limit { D.size device ≤ MAX_BLOCKS }
        requires count { size_in working ≡ pages_of (D.size device) }
        requires closed { IsTrue D.tells → is_open (block_of (D.content device).now 1) ≡ false }
        requires absent { working.frames.resident ≡ [] }
        requires unspilled { working.spilled.items ≡ replicate (size_in working) false }
        ensures size { size_of result ≡ size_in working }
        ensures frames { frames_of result ≡ working.frames.frames }
        ensures device { device_of result ≡ device }
        ensures steady { IsSteady result }
        ensures working { working_of result ≡ kept_of result }
        ensures unchanged { IsUnchanged result }
    {
        Journal {
            device,
            working,
            failed: false,
        }
    }

    /// Opens the database on a device, with 8 to 1,024 frames, and settles what a crash left there.
    /// The kept pages are those of the last commit, and so are the working ones.
    ///
    /// After an Ok no block is pending.
    ///
    /// Else the device is handed back. `NoMemory`: it wasn't called. `NoDatabase`: the magic isn't
    /// there; no block was written, and after the sync that the call begins with none is pending.
    /// `Fault`: a call of it failed; it holds the same database as before, and may be opened again.
    /// Where the magic isn't there no block was written then either.
    pub fn recover(alloc: Global, mut device: D, frames: u32) -> Result<Journal<D>, (D, Unopened)>
        requires frames { IsPoolSize frames }
        requires blocks { IsDeviceSize (D.size device) }
        ensures recovered { IfOk result (IsRecovered device frames) }
        ensures unrecovered { IfErr result (λ e. IsUnrecovered D.Device device e.0 e.1) }
        ensures images { IsTrue D.tells → Recovers
            (view_now (replayed_pages (D.content device).now.blocks) (D.content device))
            (D.content device) (content_left result) }
        ensures touched { IsTrue D.tells → OnlyBlocks
            (IsOfRecovery (pages_of (D.size device)) (D.content device).now.blocks)
            (D.content device) (content_left result) }
        ensures opens { Opens device result }
    {
        let Ok(working) = WorkingPages::make(alloc, frames, device.blocks()) else {
            return Err((device, Unopened::NoMemory));
        };
        match recover(&mut device, working.count()) {
            Ok(true) => Ok(Journal::over(device, working)),
            Ok(false) => Err((device, Unopened::NoDatabase)),
            Err(Failed) => Err((device, Unopened::Fault)),
        }
    }

    /// Lays out a device with two texts, with 8 to 1,024 frames. Block 0 and the pages stay as they
    /// are, so that there is no database before a `seal` if there was none. After an Ok no block is
    /// pending.
    ///
    /// Else the device is handed back. `NoMemory`: it wasn't called. `Fault`: a call of it failed,
    /// and some of the blocks between the first and the pages may have been written.
    pub fn format(
        alloc: Global,
        mut device: D,
        frames: u32,
        schema: &[u8],
        equation: &[u8],
    ) -> Result<Journal<D>, (D, Unopened)>
        requires frames { IsPoolSize frames }
        requires blocks { IsDeviceSize (D.size device) }
        requires texts { length schema.now + length equation.now ≤ MAX_TEXTS_LEN }
        ensures laid_out { IfOk result (IsLaidOut device frames schema.now equation.now) }
        ensures not_laid_out { IfErr result (λ e. IsNotLaidOut device e.0 e.1) }
        ensures images { LeavesOnly
            (IsImageBesides (IsFormatted (D.size device)) (D.content device).now)
            (D.content device) (content_left result) }
        ensures touched { OnlyBlocks (IsFormatted (D.size device)) (D.content device)
            (content_left result) }
        ensures opens { Opens device result }
    {
        let Ok(working) = WorkingPages::make(alloc, frames, device.blocks()) else {
            return Err((device, Unopened::NoMemory));
        };
        match format(&mut device, schema, equation) {
            Ok(()) => Ok(Journal::over(device, working)),
            Err(Failed) => Err((device, Unopened::Fault)),
        }
    }

    /// Writes the magic: from then on there is a database on the device. After an Ok no block is
    /// pending. After `Failed` block 0 may hold anything.
    pub fn seal(&mut self) -> Result<(), Failed>
        ensures magic { IsTrue D.tells → OnOk result (HasMagic (D.size (device_of self.old))
            (slice_index_or (kept_head self.new) 0 [])) }
        ensures texts { drop 1 (kept_head self.new) ≡ drop 1 (kept_head self.old) }
        ensures seals { SealsKept self.old self.new result }
        ensures keeps { KeepsPages self.old self.new }
        ensures touched { OnlyBlocks (λ n. n ≡ 0) (content_of self.old) (content_of self.new) }
        ensures faults { IsCounted (D.faults (device_of self.old))
            (D.faults (device_of self.new)) result }
    {
        seal(&mut self.device)
    }

    /// The first place of the text area, counted from 0, in which the device differs from these
    /// texts; None where it has them. The text area is the bytes of the text blocks: the lengths of
    /// the texts, the texts, and zeros. `Failed`: a call of the device failed. Whatever it answers,
    /// the pages stay, and nothing on the device changes or comes to be pending.
    pub fn texts_differ(&mut self, schema: &[u8], equation: &[u8]) -> Result<Option<u16>, Failed>
        requires { length schema.now + length equation.now ≤ MAX_TEXTS_LEN }
        ensures place { IsTrue D.tells → IfOk result (DifferFirst (text_at (kept_head self.old))
            (λ q. slice_index_or (text_area schema.now equation.now) q 0)) }
        ensures now { (content_of self.new).now ≡ (content_of self.old).now }
        ensures reads { Reads self.old self.new result }
    {
        texts_differ(&mut self.device, schema, equation)
    }

    /// The layout of the device: 1 or 2, by the number of its blocks.
    pub fn layout(&self) -> u8
        ensures { result ≡ layout_of (D.size (device_of self.now)) }
    {
        layout(self.device.blocks())
    }

    /// The number of blocks of the device.
    pub fn blocks(&self) -> u32
        ensures { result ≡ D.size (device_of self.now) }
    {
        self.device.blocks()
    }

    /// The number of pages.
    pub fn pages(&self) -> u32
        ensures { result ≡ size_of self.now }
    {
        self.working.count()
    }

    /// The block in which a page is kept.
    pub fn block(&self, p: u32) -> u32
        requires { p < size_of self.now }
        ensures { result ≡ home (D.size (device_of self.now)) (size_of self.now) p }
    {
        home(self.device.blocks(), self.pages(), p)
    }

    /// Lends the 4,096 bytes of a page, as it was written last. The loan ends with the next call of
    /// the journal. No bytes are copied where the page stands in a frame.
    ///
    /// `Failed`: a call of the device failed. The working pages and the kept ones are as before.
    pub fn lend_page(&mut self, p: u32) -> Result<&[u8], Failed>
        requires { p < size_of self.old }
        ensures page { IsTrue D.tells →
            IfOk result (λ bytes. bytes.now ≡ slice_index_or (working_of self.old) p []) }
        ensures size { IfOk result (λ bytes. length bytes.now ≡ BLOCK_LEN) }
        ensures* reads { sem 𝓛 (Rests (the_row D.row D.Device) self.entry
            (λ last. Reads self.old last result)) }
    {
        bring(&mut self.device, &mut self.working, p)?;
        match self.working.frames.peek(p) {
            Some(bytes) => Ok(bytes),
            None => Err(Failed),
        }
    }

    /// Reads a page as it was written last, into a slice. After `Failed` the slice may hold
    /// anything, and the working pages and the kept ones are as before.
    pub fn read_page(&mut self, p: u32, into: &mut [u8]) -> Result<(), Failed>
        requires below { p < size_of self.old }
        requires bytes { length into.old ≡ BLOCK_LEN }
        ensures page { IsTrue D.tells →
            OnOk result (into.new ≡ slice_index_or (working_of self.old) p []) }
        ensures reads { Reads self.old self.new result }
    {
        let bytes = self.lend_page(p)?;
        into.copy_from_slice(bytes);
        Ok(())
    }

    /// Writes a page. After `Failed` the working pages are as before.
    pub fn write_page(&mut self, p: u32, from: &[u8]) -> Result<(), Failed>
        requires below { p < size_of self.old }
        requires bytes { length from.now ≡ BLOCK_LEN }
        ensures page { IsTrue D.tells →
            OnOk result (working_of self.new ≡ slice_set (working_of self.old) p from.now) }
        ensures failed { OnErr result (working_of self.new ≡ working_of self.old) }
        ensures keeps { Keeps self.old self.new }
        ensures silent { Silent (content_of self.old) (content_of self.new) }
        ensures faults { IsCounted (D.faults (device_of self.old))
            (D.faults (device_of self.new)) result }
    {
        write(&mut self.device, &mut self.working, p, from)
    }

    /// Makes the working pages the kept ones, all at once: a crash within the call leaves the ones
    /// or the others. Where no page has changed the device isn't called. Where one has, no block is
    /// pending after an Ok. After `Failed` the journal is to be opened again.
    pub fn commit(&mut self) -> Result<(), Failed>
        ensures kept { OnOk result (kept_of self.new ≡ working_of self.old) }
        ensures working { OnOk result (working_of self.new ≡ working_of self.old) }
        ensures steady { OnOk result (IsSteady self.old ↔ IsSteady self.new) }
        ensures saved { OnOk result (IsUnchanged self.new) }
        ensures idle { IsUnchanged self.old → device_of self.new ≡ device_of self.old }
        ensures replaces { ReplacesKept self.old self.new result }
        ensures settles { Settles self.old self.new }
        ensures faults { IsCounted (D.faults (device_of self.old))
            (D.faults (device_of self.new)) result }
    {
        let committed = commit(&mut self.device, &mut self.working);
        self.failed |= committed.is_err();
        committed
    }

    /// Makes the kept pages the working ones. The device isn't called.
    pub fn abort(&mut self)
        ensures working { working_of self.new ≡ kept_of self.old }
        ensures unchanged { IsUnchanged self.new }
        ensures keeps { Keeps self.old self.new }
        ensures device { device_of self.new ≡ device_of self.old }
    {
        forget(&mut self.working);
    }

    /// Hears the script, as the device does. The pages stay.
    pub fn hear(&mut self, into: &mut [u8]) -> Result<usize, Failed>
        requires { 0 < length into.old }
        ensures hears { Hearing self.old self.new into.new result }
        ensures keeps { Talks self.old self.new }
    {
        self.device.hear(into)
    }

    /// Says the first bytes of a piece: the device is called once at most. The pages stay.
    pub fn say(&mut self, from: &[u8]) -> Result<usize, Failed>
        ensures says { Saying self.old self.new from.now result }
        ensures keeps { Talks self.old self.new }
    {
        self.device.say(from)
    }

    /// The device.
    pub fn into_device(self) -> D
        ensures { result ≡ device_of self }
    {
        self.device
    }
}
