// Pages with owners.
ghost use Rattle.std.specs.Prelude.{◌≡◌, ◌≤◌, ◌<◌, ℕ, slice_get, IsTrue, IfOk};

use crate::owners::{clear_owners, find_free, owner, owners_on, set_owner, tables};
use crate::table::FREE;
use gx_device::{Device, Failed};
use gx_journal::Journal;
use gx_ports::{PageView, Pages, Stop};

/// Pages with owners, over a journal.
///
/// The first pages, as many as `table_pages` gives, are the table of the owners: the number of page
/// p stands in two bytes, big endian, at byte 2 (p % 2048) of page p / 2048. A call that reads or
/// changes an owner reads one page of the table. `claim` looks for a free page where the last one
/// was claimed or freed, and reads each page of the table once at most.
#[derive(Drop)]
pub struct Paged<D: Device> {
    journal: Journal<D>,
    // where a free page is looked for first
    hint: u32,
}

impl<D: Device> Paged<D> {
    ghost use Rattle.gx_journal.specs.Journal.{working_of};
    ghost use Rattle.gx_pages.specs.Owners.{IsAllFree};
    ghost use Rattle.gx_pages.specs.Paged.{working_sheets, ground_of, KeepsJournal};
    ghost use Rattle.gx_pages.specs.View.{journal_of, journal_left};

    /// Pages of which none past the table has an owner, with the bytes that the journal has for
    /// them. The table has been written, and not been committed. `Failed` hands the journal back,
    /// which is to be opened again.
    pub fn make(mut journal: Journal<D>) -> Result<Paged<D>, (Journal<D>, Failed)>
        ensures free { IsTrue D.tells → IfOk result
            (λ p. IsAllFree (ground_of journal) (working_sheets (journal_of p))) }
        ensures bytes { IsTrue D.tells → (other : ℕ) → (ground_of journal).tables ≤ other →
            slice_get (working_of (journal_left result)) other
            ≡ slice_get (working_of journal) other }
        ensures keeps { KeepsJournal journal (journal_left result) result }
    {
        match clear_owners(&mut journal) {
            Ok(()) => Ok(Paged::adopt(journal)),
            Err(failed) => Err((journal, failed)),
        }
    }

    /// The pages of a journal, working and kept, with the owners that the pages of its table tell.
    pub fn adopt(journal: Journal<D>) -> Paged<D>
        ensures { journal_of result ≡ journal }
    {
        Paged { journal, hint: 0 }
    }

    /// The journal.
    pub fn into_journal(self) -> Journal<D>
        ensures { result ≡ journal_of self }
    {
        self.journal
    }
}

impl<D: Device> PageView for Paged<D> {
    ghost use Rattle.gx_journal.specs.Journal.{device_of, content_of, IsSteady, IsUnchanged, IsCalm};
    ghost use Rattle.gx_pages.specs.Paged.{StandsFor, working_sheets, kept_sheets, ground_of};

    ghost tells = { D.tells };

    ghost content = { λ p. content_of p.journal };

    ghost faults = { λ p. D.faults (device_of p.journal) };

    ghost working = { λ p. working_sheets p.journal };

    ghost kept = { λ p. kept_sheets p.journal };

    ghost ground = { λ p. ground_of p.journal };

    ghost unchanged = { λ p. IsUnchanged p.journal };

    ghost steady = { λ p. IsSteady p.journal };

    ghost stands = { StandsFor };

    ghost calm = { λ p s. IsCalm p.journal s };
}

impl<D: Device> Pages for Paged<D> {
    ghost use Rattle.gx_journal.specs.Journal.{device_of};
    ghost use Rattle.gx_pages.specs.Laws.{many_pages, calm_stands, calm_later};

    fn pages(&self) -> u32 {
        self.journal.pages()
    }

    fn tables(&self) -> u32 {
        tables(&self.journal)
    }

    fn claim(&mut self, owner: u16) -> Result<u32, Stop> {
        let Some(page) = find_free(&mut self.journal, self.hint)? else {
            return Err(Stop::Full);
        };
        set_owner(&mut self.journal, page, owner)?;
        self.hint = page + 1;
        Ok(page)
    }

    fn claim_at(&mut self, page: u32, owner: u16) -> Result<(), Failed> {
        set_owner(&mut self.journal, page, owner)
    }

    fn free(&mut self, page: u32) -> Result<(), Failed> {
        set_owner(&mut self.journal, page, FREE)?;
        self.hint = page;
        Ok(())
    }

    fn owner(&mut self, page: u32) -> Result<u16, Failed> {
        owner(&mut self.journal, page)
    }

    fn owners(&mut self, table: u32, into: &mut [u16]) -> Result<(), Failed> {
        owners_on(&mut self.journal, table, into)
    }

    fn block(&self, page: u32) -> u32 {
        self.journal.block(page)
    }

    fn read(&mut self, page: u32, into: &mut [u8]) -> Result<(), Failed> {
        self.journal.read_page(page, into)
    }

    fn look(&mut self, page: u32) -> Result<&[u8], Failed> {
        self.journal.lend_page(page)
    }

    fn write(&mut self, page: u32, from: &[u8]) -> Result<(), Failed> {
        self.journal.write_page(page, from)
    }

    fn commit(&mut self) -> Result<(), Failed> {
        self.journal.commit()
    }

    fn abort(&mut self) {
        self.journal.abort();
    }

    fn hear(&mut self, into: &mut [u8]) -> Result<usize, Failed> {
        self.journal.hear(into)
    }

    fn say(&mut self, from: &[u8]) -> Result<usize, Failed> {
        self.journal.say(from)
    }

    ghost many = { λ p told. many_pages p.journal };

    ghost calm_means = { λ p s calm.
        calm_stands p.journal (D.sized (device_of p.journal) calm.told) s calm };

    ghost calm_now = { λ p s calm. calm_later p.journal s calm };
}
