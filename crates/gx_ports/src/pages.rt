// Pages: each has 4,096 bytes and an owner, as it is and as it was last committed.
ghost use Rattle.std.specs.Prelude.{◌≡◌, ◌↔◌, ◌*◌, ◌≤◌, ◌<◌, length, slice_get, slice_set, Some, IsTrue, IfOk, OnOk, IsErrOf};
ghost use Rattle.std.specs.Borrow.{sem};
ghost use Rattle.gx_device.specs.Content.{Content};
ghost use Rattle.gx_ports.specs.Sheets.{IsPast, IsHomeOf, IsClaimed, IsOwnedAnew, AreOwnersOn, HasNone};
ghost use Rattle.gx_ports.specs.PageCalls.{KeepsPages, ReadsPages, TalksPages, SettlesPages, ReplacesPages, CountsPageFaults, PagesHear, PagesSay};
ghost use Rattle.gx_ports.specs.Loans.{Rests};
ghost use Rattle.gx_ports.specs.Stops.{HasStopCause};
ghost use Rattle.gx_device.specs.Quiet.{QuietSince};
ghost use Rattle.gx_bytes.specs.declared.page.TheConstants.{PAGE_LEN};
ghost use Rattle.gx_ports.specs.declared.pages.TheConstants.{MAX_OWNER, OWNERS};

use crate::{LeafSpec, PageView, Stop};
use gx_device::Failed;

/// The greatest owner of a page past the table. The least is 1; a page of the owner 0 is free.
pub const MAX_OWNER: u16 = 65534;

/// How many owners stand on a page of the table.
pub const OWNERS: usize = 2048;

/// Where a leaf lies in pages.
#[derive(Clone, Copy, Debug, PartialEq, Eq)]
pub struct Place {
    pub spec: LeafSpec,
    /// its first root page; the others come right behind it
    pub root: u32,
    /// the owner of its pages
    pub owner: u16,
}

/// Pages with their working and their kept bytes and owners, over a device.
///
/// Pages are numbered from 0. The first ones are the table of the owners. Where the device tells
/// nothing, contracts say of the pages only what `commit` and `abort` make of them.
pub trait Pages: PageView {
    /// The number of pages.
    fn pages(&self) -> u32
        ensures { result ≡ (Self.ground self.now).size };

    /// How many of them, from the first on, are the table of the owners.
    fn tables(&self) -> u32
        ensures { result ≡ (Self.ground self.now).tables };

    /// Gives a free page past the table to an owner, and answers its number. `Full`: no page past
    /// the table is free. `Fault`: the count of faults rose; after it the pages are to be opened
    /// again.
    fn claim(&mut self, owner: u16) -> Result<u32, Stop>
        requires least { 1 ≤ owner }
        requires most { owner ≤ MAX_OWNER }
        ensures claimed { IsTrue Self.tells → IfOk result
            (λ page.
            IsClaimed page owner (Self.ground self.old) (Self.working self.old)
            (Self.working self.new)) }
        ensures below { IfOk result (λ page. IsPast (Self.ground self.old) page) }
        ensures full { IsTrue Self.tells → IsErrOf result Stop.Full →
            HasNone (Self.ground self.old) (Self.working self.old) }
        ensures unchanged { IsErrOf result Stop.Full →
            Self.working self.new ≡ Self.working self.old }
        ensures keeps { KeepsPages Self.PageView self.old self.new }
        ensures cause { HasStopCause (Self.faults self.old) (Self.faults self.new) (Unit {0})
            result }
        ensures frugal { ¬ IsErrOf result Stop.NoMemory };

    /// Gives a free page past the table to an owner. After `Failed` the pages are to be opened
    /// again.
    fn claim_at(&mut self, page: u32, owner: u16) -> Result<(), Failed>
        requires page { IsPast (Self.ground self.old) page }
        requires least { 1 ≤ owner }
        requires most { owner ≤ MAX_OWNER }
        ensures claimed { IsTrue Self.tells →
            slice_get (Self.working self.old).owners page ≡ Some 0 →
            OnOk result
            (IsClaimed page owner (Self.ground self.old) (Self.working self.old)
            (Self.working self.new)) }
        ensures keeps { KeepsPages Self.PageView self.old self.new }
        ensures faults { CountsPageFaults Self.PageView self.old self.new result };

    /// Makes a page past the table free. After `Failed` the pages are to be opened again.
    fn free(&mut self, page: u32) -> Result<(), Failed>
        requires page { IsPast (Self.ground self.old) page }
        ensures freed { IsTrue Self.tells → OnOk result
            (IsOwnedAnew page 0 (Self.ground self.old) (Self.working self.old)
            (Self.working self.new)) }
        ensures keeps { KeepsPages Self.PageView self.old self.new }
        ensures faults { CountsPageFaults Self.PageView self.old self.new result };

    /// The owner of a page, 0 where it is free.
    fn owner(&mut self, page: u32) -> Result<u16, Failed>
        requires page { page < (Self.ground self.old).size }
        ensures owner { IsTrue Self.tells →
            IfOk result (λ owner. slice_get (Self.working self.old).owners page ≡ Some owner) }
        ensures reads { ReadsPages Self.PageView self.old self.new }
        ensures faults { CountsPageFaults Self.PageView self.old self.new result };

    /// Reads the owners that stand on one page of the table: those of `OWNERS` pages, from page
    /// `OWNERS * table` on. After `Failed` the slice may hold anything.
    fn owners(&mut self, table: u32, into: &mut [u16]) -> Result<(), Failed>
        requires table { OWNERS * table < (Self.ground self.old).size }
        requires count { length into.old ≡ OWNERS }
        ensures owners { IsTrue Self.tells →
            OnOk result (AreOwnersOn (Self.working self.old).owners table into.new) }
        ensures count { length into.new ≡ OWNERS }
        ensures reads { ReadsPages Self.PageView self.old self.new }
        ensures faults { CountsPageFaults Self.PageView self.old self.new result };

    /// The home block of a page.
    fn block(&self, page: u32) -> u32
        requires page { page < (Self.ground self.now).size }
        ensures home { IsHomeOf (Self.ground self.now) page result };

    /// Reads a page. After `Failed` the slice may hold anything.
    fn read(&mut self, page: u32, into: &mut [u8]) -> Result<(), Failed>
        requires page { page < (Self.ground self.old).size }
        requires bytes { length into.old ≡ PAGE_LEN }
        ensures read { IsTrue Self.tells →
            OnOk result (slice_get (Self.working self.old).bytes page ≡ Some into.new) }
        ensures bytes { length into.new ≡ PAGE_LEN }
        ensures reads { ReadsPages Self.PageView self.old self.new }
        ensures faults { CountsPageFaults Self.PageView self.old self.new result };

    /// Lends the 4,096 bytes of a page. The loan ends with the next call of the pages.
    fn look(&mut self, page: u32) -> Result<&[u8], Failed>
        requires page { page < (Self.ground self.old).size }
        ensures look { IsTrue Self.tells → IfOk result
            (λ bytes. slice_get (Self.working self.old).bytes page ≡ Some bytes.now) }
        ensures bytes { IfOk result (λ bytes. length bytes.now ≡ PAGE_LEN) }
        ensures* reads { sem 𝓛 (Rests Self.row self.entry (λ last.
            ReadsPages Self.PageView self.old last
            × CountsPageFaults Self.PageView self.old last result)) };

    /// Writes a page past the table. After `Failed` the pages are to be opened again.
    fn write(&mut self, page: u32, from: &[u8]) -> Result<(), Failed>
        requires page { IsPast (Self.ground self.old) page }
        requires bytes { length from.now ≡ PAGE_LEN }
        ensures written { IsTrue Self.tells → OnOk result
            (Self.working self.new
            ≡ record
            (Self.working self.old)
            { bytes = slice_set (Self.working self.old).bytes page from.now }) }
        ensures keeps { KeepsPages Self.PageView self.old self.new }
        ensures faults { CountsPageFaults Self.PageView self.old self.new result };

    /// Makes the working pages the kept ones, all at once: a crash within the call leaves the ones or
    /// the others. Where none was changed the device isn't called. After `Failed` the pages are to be
    /// opened again.
    fn commit(&mut self) -> Result<(), Failed>
        ensures kept { OnOk result (Self.kept self.new ≡ Self.working self.old) }
        ensures working { OnOk result (Self.working self.new ≡ Self.working self.old) }
        ensures steady { OnOk result (Self.steady self.old ↔ Self.steady self.new) }
        ensures saved { OnOk result (Self.unchanged self.new) }
        ensures idle { Self.unchanged self.old → Self.content self.new ≡ Self.content self.old }
        ensures replaces { ReplacesPages Self.PageView self.old self.new result }
        ensures settles { SettlesPages Self.PageView self.old self.new }
        ensures faults { CountsPageFaults Self.PageView self.old self.new result };

    /// Makes the kept pages the working ones.
    fn abort(&mut self)
        ensures working { Self.working self.new ≡ Self.kept self.old }
        ensures unchanged { Self.unchanged self.new }
        ensures keeps { KeepsPages Self.PageView self.old self.new }
        ensures counted { Self.faults self.new ≡ Self.faults self.old };

    /// Hears the script, as a device does. The pages stay.
    fn hear(&mut self, into: &mut [u8]) -> Result<usize, Failed>
        requires { 0 < length into.old }
        ensures hears { PagesHear Self.PageView self.old self.new into.new result }
        ensures keeps { TalksPages Self.PageView self.old self.new };

    /// Says the first bytes of a piece, as a device does. The pages stay.
    fn say(&mut self, from: &[u8]) -> Result<usize, Failed>
        ensures says { PagesSay Self.PageView self.old self.new from.now result }
        ensures keeps { TalksPages Self.PageView self.old self.new };

    /// Each page has an owner and bytes.
    ghost many: { (p : Self) → IsTrue Self.tells →
        (length (Self.working p).owners ≡ (Self.ground p).size)
        × (length (Self.working p).bytes ≡ (Self.ground p).size) };

    /// What calm means: since that content a crash leaves blocks that stand for the kept pages,
    /// with what had been said then and a front of what has been said since.
    ghost calm_means: { (p : Self) (s : Content) → Self.calm p s →
        QuietSince (Self.stands (Self.ground p) (Self.kept p)) s (Self.content p) };

    /// What is calm since an earlier content is calm from now on.
    ghost calm_now: { (p : Self) (s : Content) → Self.calm p s → Self.calm p (Self.content p) };
}
