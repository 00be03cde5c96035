// Whether the pages of an owner were seen.
ghost use Rattle.std.specs.Prelude.{◌≡◌, ◌↔◌, ◌+◌, ◌≤◌, ◌<◌, ◌^◌, length, IsTrue, IfOk, OnOk, IsErrOf};
ghost use Rattle.gx_ports.specs.Files.{EndsFile};
ghost use Rattle.gx_ports.specs.PageCalls.{ReadsPages, CountsPageFaults};
ghost use Rattle.gx_seen.specs.Seen.{IsUnseen, AreAllSeen, HasAllSeen, IsFoundUnseen};

use gx_device::Failed;
use gx_ports::{OWNERS, Pages, Stop};

// How many owners stand on a page of the table.
const ON_PAGE: u32 = OWNERS as u32;

/// Whether the owner has a page that wasn't seen.
pub fn is_unseen<P: Pages>(
    pages: &mut P,
    page: u32,
    owner: u16,
    seen: &[bool],
) -> Result<bool, Failed>
    requires page { page < (P.ground pages.old).size }
    requires len { length seen.now ≡ (P.ground pages.old).size }
    ensures unseen { IsTrue P.tells → IfOk result
        (λ unseen. IsTrue unseen ↔ IsUnseen (P.working pages.old) owner seen.now page) }
    ensures reads { ReadsPages P.PageView pages.old pages.new }
    ensures faults { CountsPageFaults P.PageView pages.old pages.new result }
{
    Ok(pages.owner(page)? == owner && !seen[page as usize])
}

/// Looks whether each page of the owner was seen. Each page of the table of owners is read once.
/// `Damaged`: one wasn't, and the block is its own.
pub fn seek_unseen<P: Pages>(pages: &mut P, owner: u16, seen: &[bool]) -> Result<(), Stop>
    requires len { length seen.now ≡ (P.ground pages.old).size }
    ensures all { IsTrue P.tells → OnOk result
        (AreAllSeen (P.working pages.old) owner seen.now) }
    ensures reads { ReadsPages P.PageView pages.old pages.new }
    ensures ends { EndsFile P.PageView (HasAllSeen P.PageView pages.old owner seen.now)
        pages.old pages.new result }
    ensures not_full { ¬ IsErrOf result Stop.Full }
    ensures frugal { ¬ IsErrOf result Stop.NoMemory }
{
    let mut owners = [0; OWNERS];
    for table in 0..pages.pages().div_ceil(ON_PAGE) {
        pages.owners(table, &mut owners)?;
        let first = table * ON_PAGE;
        let count = ON_PAGE.min(pages.pages() - first);
        if let Some(page) = unseen_page(&owners, first, count, owner, seen) {
            return Err(Stop::Damaged(pages.block(page)));
        }
    }
    Ok(())
}

// Of so many pages from `first` on, the first of the owner that wasn't seen. These are their
// owners.
fn unseen_page(owners: &[u16], first: u32, count: u32, owner: u16, seen: &[bool]) -> Option<u32>
    requires count { count ≤ length owners.now }
    requires seen { first + count ≤ length seen.now }
    requires fits { first + count < 2 ^ 32 }
    ensures { IsFoundUnseen owner seen.now owners.now first count result }
{
    for i in 0..count {
        let page = first + i;
        if owners[i as usize] == owner && !seen[page as usize] {
            return Some(page);
        }
    }
    None
}
