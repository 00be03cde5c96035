// The table of owners is examined.
ghost use Rattle.std.specs.Prelude.{◌↔◌, ◌+◌, ◌≤◌, ◌<◌, ◌^◌, length, IsTrue, OnOk, IsErrOf};
ghost use Rattle.gx_ports.specs.Files.{EndsFile};
ghost use Rattle.gx_ports.specs.PageCalls.{ReadsPages};
ghost use Rattle.gx_leaves.specs.Wholeness.{IsTable};
ghost use Rattle.gx_leaves.specs.Checks.{IsDueOwner, IsFoundUndue, HasTable};

use gx_ports::{MAX_OWNER, OWNERS, Pages, Stop};

// The owner of a page of the table.
const TABLE_OWNER: u16 = MAX_OWNER + 1;

// How many owners stand on a page of the table.
const ON_PAGE: u32 = OWNERS as u32;

/// Looks whether the table is its own, and each page past it is free or belongs to one of so many
/// leaves. Each page of the table is read once. `Damaged`: it isn't so, and the block is that of a
/// page with another owner.
pub(crate) fn check_table<P: Pages>(pages: &mut P, leaves: u16) -> Result<(), Stop>
    requires { (P.ground pages.old).tables ≤ (P.ground pages.old).size }
    ensures table { IsTrue P.tells →
        OnOk result (IsTable (P.ground pages.old) leaves (P.working pages.old)) }
    ensures reads { ReadsPages P.PageView pages.old pages.new }
    ensures ends { EndsFile P.PageView (HasTable P.PageView pages.old leaves)
        pages.old pages.new result }
    ensures not_full { ¬ IsErrOf result Stop.Full }
{
    let mut owners = [0; OWNERS];
    for table in 0..pages.pages().div_ceil(ON_PAGE) {
        pages.owners(table, &mut owners)?;
        let first = table * ON_PAGE;
        let count = ON_PAGE.min(pages.pages() - first);
        if let Some(page) = undue_page(&owners, first, count, pages.tables(), leaves) {
            return Err(Stop::Damaged(pages.block(page)));
        }
    }
    Ok(())
}

// Of so many pages from `first` on, one with an owner that it may not have. These are their owners.
fn undue_page(owners: &[u16], first: u32, count: u32, tables: u32, leaves: u16) -> Option<u32>
    requires count { count ≤ length owners.now }
    requires fits { first + count < 2 ^ 32 }
    ensures { IsFoundUndue tables leaves owners.now first count result }
{
    for i in 0..count {
        let page = first + i;
        if !is_due(page, owners[i as usize], tables, leaves) {
            return Some(page);
        }
    }
    None
}

// Whether a page may have this owner, beside so many pages of the table and so many leaves.
fn is_due(page: u32, owner: u16, tables: u32, leaves: u16) -> bool
    ensures { IsTrue result ↔ IsDueOwner tables leaves page owner }
{
    if page < tables {
        owner == TABLE_OWNER
    } else {
        owner <= leaves
    }
}
