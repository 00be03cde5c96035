// The entry page on the way to a key. Most changes are made on it alone.
ghost use Rattle.std.specs.Prelude.{◌≡◌, length, OnOk, IfOk, IsErrOf};
ghost use Rattle.std.specs.Bool.{OnTrue};
ghost use Rattle.gx_bytes.specs.declared.page.TheConstants.{PAGE_LEN};
ghost use Rattle.gx_ports.specs.declared.kinds.LeafKind.TheVariants as kinds;
ghost use Rattle.gx_ports.specs.Files.{IsPlace, Holds, EndsFile, IsWhole};
ghost use Rattle.gx_ports.specs.LeafMaps.{LeafMap};
ghost use Rattle.gx_ports.specs.PageCalls.{ReadsPages};
ghost use Rattle.gx_ports.specs.Sheets.{IsPast};
ghost use Rattle.gx_slots.specs.Entries.{IsFit};
ghost use Rattle.gx_slots.specs.Page.{entries_of};
ghost use Rattle.gx_slots.specs.Spots.{IsSought, IsSpot, IsRankOf};
ghost use Rattle.gx_btree.specs.declared.reading.Shape.TheVariants as shapes;
ghost use Rattle.gx_btree.specs.Bplus.{IsBplus, Shows};
ghost use Rattle.gx_bplus.specs.Changes.{IsPutIn, IsTakenFrom};
ghost use Rattle.gx_bplus.specs.Search.{HasLanded};

use gx_btree::{Step, read_step};
use gx_ports::{Pages, Place, Stop};
use gx_slots::{Sought, Spot, add_at, take_at};

/// Where a search for a key ended.
#[derive(Clone, Copy, Debug)]
pub(crate) struct Landing {
    /// the entry page on the way to the key
    pub page: u32,
    /// where the key stands on it
    pub sought: Sought,
    /// whether each inner page on the way has room for a separator
    pub has_room: bool,
}

/// Reads the entry page on the way to a key into `page`. Each page on the way is walked once, and
/// tested by that.
pub(crate) fn land<P: Pages>(
    pages: &mut P,
    place: &Place,
    key: &[u8],
    page: &mut [u8],
) -> Result<Landing, Stop>
    requires kind { place.now.spec.kind ≡ kinds.Bplus }
    requires place { IsPlace (P.ground pages.old) place.now }
    requires bytes { length page.old ≡ PAGE_LEN }
    ensures past { IfOk result (λ landing. IsPast (P.ground pages.old) landing.page) }
    ensures shown { OnOk result (Shows shapes.Entries page.new) }
    ensures sought { IfOk result
        (λ landing. IsSought key.now (entries_of page.new) landing.sought) }
    ensures landed { (map : LeafMap)
        (holds : Holds P.PageView (IsBplus (P.ground pages.old) place.now) pages.old map) →
        IfOk result (λ landing. HasLanded place.now.owner (P.working pages.old) place.now.root
        key.now holds.file.tree landing.page page.new) }
    ensures reads { ReadsPages P.PageView pages.old pages.new }
    ensures ends { EndsFile P.PageView
        (IsWhole P.PageView (IsBplus (P.ground pages.old) place.now) pages.old)
        pages.old pages.new result }
    ensures not_full { ¬ IsErrOf result Stop.Full }
    ensures frugal { ¬ IsErrOf result Stop.NoMemory }
{
    let mut at = place.root;
    let mut has_room = true;
    let mut step = read_step(pages, at, at, key, page)?;
    for _ in 0..pages.pages() {
        match step {
            Step::Entries(sought) => {
                return Ok(Landing {
                    page: at,
                    sought,
                    has_room,
                });
            }
            Step::Inner(fork) => {
                has_room = has_room && fork.has_room;
                step = read_step(pages, at, fork.child, key, page)?;
                at = fork.child;
            }
        }
    }
    Err(Stop::Damaged(pages.block(at)))
}

/// Takes the entry with a key that was sought off an entry page of a tree, where it is there. Gives
/// the spot that is free for the key.
pub(crate) fn take_sought(page: &mut [u8], key: &[u8], sought: Sought) -> Spot
    requires page { Shows shapes.Entries page.old }
    requires sought { IsSought key.now (entries_of page.old) sought }
    ensures shown { Shows shapes.Entries page.new }
    ensures taken { IsTakenFrom key.now (entries_of page.old) (entries_of page.new) }
    ensures spot { IsSpot (entries_of page.new) result }
    ensures rank { IsRankOf key.now (entries_of page.new) result.place }
{
    if sought.is_there {
        return take_at(page, sought.spot);
    }
    sought.spot
}

/// Sets the entry of a key that was sought on an entry page of a tree. False where it doesn't fit,
/// and then the page has no entry with the key.
pub(crate) fn set_sought(page: &mut [u8], sought: Sought, key: &[u8], body: &[u8]) -> bool
    requires page { Shows shapes.Entries page.old }
    requires sought { IsSought key.now (entries_of page.old) sought }
    requires fit { IsFit (record { key = key.now; body = body.now }) }
    ensures shown { Shows shapes.Entries page.new }
    ensures set { OnTrue result (IsPutIn (record { key = key.now; body = body.now })
        (entries_of page.old) (entries_of page.new)) }
{
    let spot = take_sought(page, key, sought);
    add_at(page, spot, key, body)
}
