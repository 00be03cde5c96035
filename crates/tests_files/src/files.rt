// A file of any kind, alone on a device in memory.
ghost use Rattle.std.specs.Prelude.{◌+◌, ◌≤◌, length, IsTrue};
ghost use Rattle.gx_ports.specs.Files.{IsPlace};
ghost use Rattle.gx_values.specs.declared.bytes.TheConstants.{MAX_KEY_LEN};
ghost use Rattle.gx_ports.specs.declared.leaves.TheConstants.{MAX_ENTRY_LEN};
ghost use Rattle.gx_pages.specs.Paged.{ground_of};
ghost use Rattle.gx_pages.specs.View.{journal_of};

use LeafKind::{Bplus, Hash, Heap, Isam};
use gx_bplus as bplus;
use gx_device::{Device, Machine};
use gx_hash as hash;
use gx_heap as heap;
use gx_isam as isam;
use gx_journal::Journal;
use gx_memory_machine::MemoryMachine;
use gx_pages::Paged;
use gx_ports::{Entries, LeafKind, LeafSpec, MAX_OWNER, PAGE_LEN, Pages, Place};
use gx_values::{Kind, Span};
use std::alloc::Global;
use std::process::Abort;
use std::test::Fail;

/// How many pages a device has, the 16 of the table of owners among them.
pub(crate) const PAGES: u32 = 1016;

/// The blocks of such a device.
const BLOCKS: u32 = 7 + 2 * PAGES;

/// The first root of a file.
pub(crate) const ROOT: u32 = 20;

/// The owner of the pages of a file.
pub(crate) const OWNER: u16 = 9;

/// The owner of the pages of the table.
pub(crate) const TABLE_OWNER: u16 = 65535;

/// A file at its place.
#[derive(Drop)]
pub(crate) struct File {
    pages: Paged<MemoryMachine>,
    place: Place,
}

/// A file of the kind that has been made on a new device.
pub(crate) fn made(
    alloc: Global,
    rt: &impl Abort,
    kind: LeafKind,
    first: Kind,
) -> Result<File, Fail> {
    made_in(alloc, rt, 1024, kind, first)
}

/// The same, with so many pages in memory.
pub(crate) fn made_in(
    alloc: Global,
    rt: &impl Abort,
    frames: u32,
    kind: LeafKind,
    first: Kind,
) -> Result<File, Fail>
    requires least { 8 ≤ frames }
    requires most { frames ≤ 1024 }
{
    let mut machine = MemoryMachine::new(alloc)?;
    machine.reserve(alloc, 10_000, 1_000_000)?;
    assert!(rt; machine.attach(alloc, "d", Some(BLOCKS)) == Ok(()));
    assert!(rt; machine.blocks() == BLOCKS);
    let journal = Journal::format(alloc, machine, frames, b"", b"").ok();
    let journal = journal.expect(rt, "a journal");
    let pages = Paged::make(journal).ok().expect(rt, "pages");
    let spec = LeafSpec {
        kind,
        first,
        key_width: 400,
    };
    let place = Place {
        spec,
        root: ROOT,
        owner: OWNER,
    };
    let mut file = File { pages, place };
    assert!(rt; file.make());
    Ok(file)
}

fn is_place(pages: &Paged<MemoryMachine>, place: &Place) -> bool
    ensures { IsTrue result → IsPlace (ground_of (journal_of pages.now)) place.now }
{
    let end = pages.pages();
    pages.tables() <= place.root
        && place.root <= end
        && place.spec.kind.roots() <= end - place.root
        && 1 <= place.owner
        && place.owner <= MAX_OWNER
}

impl File {
    fn make(&mut self) -> bool {
        let File { pages, place } = self;
        if !is_place(pages, place) {
            return false;
        }
        match place.spec.kind {
            Heap => heap::make(pages, place).is_ok(),
            Hash(1..) => hash::make(pages, place).is_ok(),
            Isam => isam::make(pages, place).is_ok(),
            Bplus => bplus::make(pages, place).is_ok(),
            Hash(0) => false,
        }
    }

    /// Sets a pair, and says whether the file took it.
    pub(crate) fn put(&mut self, key: &[u8], body: &[u8]) -> bool
        requires key { length key.now ≤ MAX_KEY_LEN }
        requires entry { length key.now + length body.now ≤ MAX_ENTRY_LEN }
    {
        let File { pages, place } = self;
        if !is_place(pages, place) {
            return false;
        }
        match place.spec.kind {
            Heap => heap::put(pages, place, key, body).is_ok(),
            Hash(1..) => hash::put(pages, place, key, body).is_ok(),
            Isam => isam::put(pages, place, key, body).is_ok(),
            Bplus => bplus::put(pages, place, key, body).is_ok(),
            Hash(0) => false,
        }
    }

    /// Takes the pair at a key away, and says whether the file went on.
    pub(crate) fn remove(&mut self, key: &[u8]) -> bool
        requires { length key.now ≤ MAX_KEY_LEN }
    {
        let File { pages, place } = self;
        if !is_place(pages, place) {
            return false;
        }
        match place.spec.kind {
            Heap => heap::remove(pages, place, key).is_ok(),
            Hash(1..) => hash::remove(pages, place, key).is_ok(),
            Isam => isam::remove(pages, place, key).is_ok(),
            Bplus => bplus::remove(pages, place, key).is_ok(),
            Hash(0) => false,
        }
    }

    /// The entries inside the span, if the file gave them.
    pub(crate) fn select(&mut self, alloc: Global, span: &Span) -> Option<Entries> {
        let File { pages, place } = self;
        let mut out = Entries::new(alloc);
        if !is_place(pages, place) {
            return None;
        }
        let selected = match place.spec.kind {
            Heap => heap::select(alloc, pages, place, span, &mut out),
            Hash(1..) => hash::select(alloc, pages, place, span, &mut out),
            Isam => isam::select(alloc, pages, place, span, &mut out),
            Bplus => bplus::select(alloc, pages, place, span, &mut out),
            Hash(0) => return None,
        };
        selected.ok()?;
        Some(out)
    }

    /// Lays an indexed sequential file out anew, and says whether it went on.
    pub(crate) fn reorganize(&mut self, alloc: Global) -> bool {
        let File { pages, place } = self;
        match place.spec.kind {
            Isam if is_place(pages, place) => isam::reorganize(alloc, pages, place).is_ok(),
            _ => true,
        }
    }

    /// Whether the file is found whole.
    pub(crate) fn check(&mut self, alloc: Global) -> bool {
        let File { pages, place } = self;
        if !is_place(pages, place) {
            return false;
        }
        match place.spec.kind {
            Heap => heap::check(alloc, pages, place).is_ok(),
            Hash(1..) => hash::check(alloc, pages, place).is_ok(),
            Isam => isam::check(alloc, pages, place).is_ok(),
            Bplus => bplus::check(alloc, pages, place).is_ok(),
            Hash(0) => false,
        }
    }

    /// How many pages have this owner, where 0 stands for none.
    pub(crate) fn pages_of(&mut self, owner: u16) -> u32 {
        let mut count = 0_u32;
        for page in 0..self.pages.pages() {
            if page < self.pages.pages() && self.pages.owner(page) == Ok(owner) {
                count = count.saturating_add(1);
            }
        }
        count
    }

    /// Whether its pages are full to so many tenths with entries of so many bytes.
    pub(crate) fn pages_are_filled(&mut self, bytes: u64, tenths: u64) -> bool
        requires { tenths ≤ 10 }
    {
        let room = u64::from(self.pages_of(self.place.owner)) * 4096;
        bytes.saturating_mul(10) >= room * tenths
    }

    /// Gives a page to the file, with these bytes at its front, and says whether it went on.
    pub(crate) fn give(&mut self, page: u32, front: &[u8; 16]) -> bool {
        let File { pages, place } = self;
        if !is_place(pages, place) || page < pages.tables() || page >= pages.pages() {
            return false;
        }
        let mut bytes = [0; PAGE_LEN];
        bytes[..16].copy_from_slice(front);
        pages.claim_at(page, place.owner).is_ok() && pages.write(page, &bytes).is_ok()
    }

    /// How many calls of the device there were.
    pub(crate) fn calls(self) -> u32 {
        self.pages.into_journal().into_device().moments()
    }

    /// Whether a page begins so.
    pub(crate) fn begins(&mut self, page: u32, front: &[u8]) -> bool {
        let mut bytes = [0; PAGE_LEN];
        page < self.pages.pages()
            && self.pages.read(page, &mut bytes).is_ok()
            && bytes.starts_with(front)
    }
}
