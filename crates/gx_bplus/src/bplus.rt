// The calls on a B+ tree.
ghost use Rattle.std.specs.Prelude.{◌≡◌, ◌+◌, ◌≤◌, length};
ghost use Rattle.gx_ports.specs.declared.kinds.LeafKind.TheVariants as kinds;
ghost use Rattle.gx_values.specs.declared.bytes.TheConstants.{MAX_KEY_LEN};
ghost use Rattle.gx_ports.specs.declared.leaves.TheConstants.{MAX_ENTRY_LEN};
ghost use Rattle.gx_ports.specs.FileCalls.{MakesFile, PutsInFile, RemovesFromFile};
ghost use Rattle.gx_ports.specs.Files.{IsPlace};
ghost use Rattle.gx_btree.specs.Bplus.{IsBplus};

use crate::landing::{land, set_sought, take_sought};
use crate::putting::{put_alone, put_below};
use crate::removal::{remove_alone, remove_below};
use crate::splitting::{make_room, open_root};
use gx_btree::{Shape, child_for, leads_last, read_page};
use gx_device::Failed;
use gx_ports::{PAGE_LEN, Pages, Place, Stop};
use gx_slots::{clear, count};

/// Makes an empty tree at a place whose root is free and whose owner has no page. After `Failed`
/// the pages are to be opened again.
pub fn make<P: Pages>(pages: &mut P, place: &Place) -> Result<(), Failed>
    requires kind { place.now.spec.kind ≡ kinds.Bplus }
    requires place { IsPlace (P.ground pages.old) place.now }
    ensures { MakesFile P.PageView (IsBplus (P.ground pages.old) place.now)
        place.now pages.old pages.new result }
{
    let mut page = [0; PAGE_LEN];
    clear(&mut page);
    pages.claim_at(place.root, place.owner)?;
    pages.write(place.root, &page)
}

/// Sets one pair, of a key of at most `MAX_KEY_LEN` bytes, with its body at most `MAX_ENTRY_LEN`.
/// Each page on the way to the key is walked once, and one is written; where that has no room for
/// the pair, or an inner page on the way none for a separator, the tree grows. After a refusal the
/// pages of this owner may hold anything. After `Fault` the pages are to be opened again.
pub fn put<P: Pages>(pages: &mut P, place: &Place, key: &[u8], body: &[u8]) -> Result<(), Stop>
    requires kind { place.now.spec.kind ≡ kinds.Bplus }
    requires place { IsPlace (P.ground pages.old) place.now }
    requires key { length key.now ≤ MAX_KEY_LEN }
    requires entry { length key.now + length body.now ≤ MAX_ENTRY_LEN }
    ensures { PutsInFile P.PageView (IsBplus (P.ground pages.old) place.now)
        place.now key.now body.now pages.old pages.new result }
{
    let mut page = [0; PAGE_LEN];
    let landing = land(pages, place, key, &mut page)?;
    if !landing.has_room {
        return grow(pages, place, key, body);
    }
    if set_sought(&mut page, landing.sought, key, body) {
        pages.write(landing.page, &page)?;
        return Ok(());
    }
    grow(pages, place, key, body)
}

/// Sets one pair, as `put` does, wherever it fits. A page without room is split on the way down, an
/// entry page where the pair doesn't fit.
fn grow<P: Pages>(pages: &mut P, place: &Place, key: &[u8], body: &[u8]) -> Result<(), Stop>
    requires kind { place.now.spec.kind ≡ kinds.Bplus }
    requires place { IsPlace (P.ground pages.old) place.now }
    requires key { length key.now ≤ MAX_KEY_LEN }
    requires entry { length key.now + length body.now ≤ MAX_ENTRY_LEN }
    ensures { PutsInFile P.PageView (IsBplus (P.ground pages.old) place.now)
        place.now key.now body.now pages.old pages.new result }
{
    let mut page = [0; PAGE_LEN];
    match read_page(pages, place.root, place.root, &mut page)? {
        Shape::Entries => {
            return put_alone(pages, place.owner, place.root, &mut page, key, body);
        }
        Shape::Inner => {}
    }
    let mut is_last = leads_last(&page, key);
    let mut at = open_root(pages, place.owner, place.root, &mut page, key)?;
    for _ in 0..pages.pages() {
        let next = child_for(&page, key);
        let mut below = [0; PAGE_LEN];
        match read_page(pages, at, next, &mut below)? {
            Shape::Entries => {
                return put_below(
                    pages,
                    place.owner,
                    at,
                    &mut page,
                    next,
                    &mut below,
                    key,
                    body,
                    is_last,
                );
            }
            Shape::Inner => {
                is_last = is_last && leads_last(&below, key);
                at = make_room(pages, place.owner, at, &mut page, next, &mut below, key)?;
                page = below;
            }
        }
    }
    Err(Stop::Damaged(pages.block(at)))
}

/// Takes the pair at a key of at most `MAX_KEY_LEN` bytes away; a key that isn't there changes
/// nothing. Each page on the way to the key is walked once, and one is written; where that loses
/// its last entry, the tree shrinks. After a refusal the pages of this owner may hold anything.
/// After `Fault` the pages are to be opened again.
pub fn remove<P: Pages>(pages: &mut P, place: &Place, key: &[u8]) -> Result<(), Stop>
    requires kind { place.now.spec.kind ≡ kinds.Bplus }
    requires place { IsPlace (P.ground pages.old) place.now }
    requires key { length key.now ≤ MAX_KEY_LEN }
    ensures { RemovesFromFile P.PageView (IsBplus (P.ground pages.old) place.now)
        place.now key.now pages.old pages.new result }
{
    let mut page = [0; PAGE_LEN];
    let landing = land(pages, place, key, &mut page)?;
    if !landing.sought.is_there {
        return Ok(());
    }
    take_sought(&mut page, key, landing.sought);
    if count(&page) == 0 {
        return shrink(pages, place, key);
    }
    pages.write(landing.page, &page)?;
    Ok(())
}

/// Takes the pair at a key away, as `remove` does, wherever it stands. A page that loses its last
/// entry is freed, and the one child that an inner page has left takes that page's place.
fn shrink<P: Pages>(pages: &mut P, place: &Place, key: &[u8]) -> Result<(), Stop>
    requires kind { place.now.spec.kind ≡ kinds.Bplus }
    requires place { IsPlace (P.ground pages.old) place.now }
    requires key { length key.now ≤ MAX_KEY_LEN }
    ensures { RemovesFromFile P.PageView (IsBplus (P.ground pages.old) place.now)
        place.now key.now pages.old pages.new result }
{
    let mut page = [0; PAGE_LEN];
    let mut at = place.root;
    match read_page(pages, at, at, &mut page)? {
        Shape::Entries => {
            remove_alone(pages, at, &mut page, key)?;
            return Ok(());
        }
        Shape::Inner => {}
    }
    for _ in 0..pages.pages() {
        let next = child_for(&page, key);
        let mut below = [0; PAGE_LEN];
        match read_page(pages, at, next, &mut below)? {
            Shape::Entries => return remove_below(pages, at, &mut page, next, &mut below, key),
            Shape::Inner => {
                at = next;
                page = below;
            }
        }
    }
    Err(Stop::Damaged(pages.block(at)))
}
