// Pages of a tree, as they are read.
ghost use Rattle.std.specs.Prelude.{◌≡◌, ◌<◌, ◌↔◌, None, Some, length, IsTrue, MatchOption};
ghost use Rattle.gx_bytes.specs.declared.page.TheConstants.{PAGE_LEN};
ghost use Rattle.gx_bnode.specs.Page.{IsInnerPage, first_of, branches_of};
ghost use Rattle.gx_btree.specs.Bplus.{Shows, Seems};
ghost use Rattle.gx_btree.specs.Reading.{Passes, Tells, ReadsTreePage};
ghost use Rattle.gx_btree.specs.Tree.{child_for, bound_for};

use gx_bnode::{Fork, child, child_of, fork_for, is_inner, separators};
use gx_bytes::{has_kind, page_number};
use gx_ports::{Pages, Stop};
use gx_slots::{NONE, Sought, is_ascending, next, seek};

/// What a page of a tree is.
#[derive(Clone, Copy, Debug, PartialEq, Eq)]
pub enum Shape {
    /// an entry page with ascending keys and no next page
    Entries,
    /// an inner page
    Inner,
}

/// What a page of a tree tells a search for a key.
#[derive(Clone, Copy, Debug)]
pub enum Step {
    /// an entry page as `Shape::Entries`: where the key stands on it
    Entries(Sought),
    /// an inner page: where it leads
    Inner(Fork),
}

/// Reads a page of a tree, whose number stands on the page `from`. `Damaged`: there is no such page
/// past the table, or it is no page of a tree.
pub fn read_page<P: Pages>(
    pages: &mut P,
    from: u32,
    page: u32,
    into: &mut [u8],
) -> Result<Shape, Stop>
    requires from { from < (P.ground pages.old).size }
    requires bytes { length into.old ≡ PAGE_LEN }
    ensures { ReadsTreePage P.PageView Shows page into.new pages.old pages.new result }
{
    read_tested(pages, from, page, into, true)
}

// What the bytes are. None where they are no page of a tree.
fn shape_of(page: &[u8]) -> Option<Shape>
    requires { length page.now ≡ PAGE_LEN }
    ensures { MatchOption result ((shape : Shape) → ¬ Shows shape page.now)
        (λ shape. Shows shape page.now) }
{
    if is_inner(page) {
        return Some(Shape::Inner);
    }
    if is_ascending(page) && next(page) == NONE {
        return Some(Shape::Entries);
    }
    None
}

/// Reads a page of a tree, whose number stands on the page `from`, and tests no more than its
/// header. `Damaged`: there is no such page past the table, or the header is that of no page of a
/// tree.
pub(crate) fn read_kind<P: Pages>(
    pages: &mut P,
    from: u32,
    page: u32,
    into: &mut [u8],
) -> Result<Shape, Stop>
    requires from { from < (P.ground pages.old).size }
    requires bytes { length into.old ≡ PAGE_LEN }
    ensures { ReadsTreePage P.PageView Seems page into.new pages.old pages.new result }
{
    read_tested(pages, from, page, into, false)
}

// Reads a page of a tree, whose number stands on the page `from`, and tests the whole of it, or no
// more than its header.
fn read_tested<P: Pages>(
    pages: &mut P,
    from: u32,
    page: u32,
    into: &mut [u8],
    whole: bool,
) -> Result<Shape, Stop>
    requires from { from < (P.ground pages.old).size }
    requires bytes { length into.old ≡ PAGE_LEN }
    ensures { ReadsTreePage P.PageView (Passes whole) page into.new pages.old pages.new result }
{
    if page < pages.tables() || page >= pages.pages() {
        return Err(Stop::Damaged(pages.block(from)));
    }
    pages.read(page, into)?;
    match tested_shape(into, whole) {
        Some(shape) => Ok(shape),
        None => Err(Stop::Damaged(pages.block(page))),
    }
}

// What the bytes are, by a test of the whole of them, or of their header alone. None where they are
// no page of a tree.
fn tested_shape(page: &[u8], whole: bool) -> Option<Shape>
    requires { length page.now ≡ PAGE_LEN }
    ensures { MatchOption result ((shape : Shape) → ¬ Shows shape page.now)
        (λ shape. Passes whole shape page.now) }
{
    if whole { shape_of(page) } else { kind_of(page) }
}

/// Reads a page of a tree as `read_page` does, and seeks a key on it by the same walk.
pub fn read_step<P: Pages>(
    pages: &mut P,
    from: u32,
    page: u32,
    key: &[u8],
    into: &mut [u8],
) -> Result<Step, Stop>
    requires from { from < (P.ground pages.old).size }
    requires bytes { length into.old ≡ PAGE_LEN }
    ensures { ReadsTreePage P.PageView (Tells key.now) page into.new pages.old pages.new result }
{
    if page < pages.tables() || page >= pages.pages() {
        return Err(Stop::Damaged(pages.block(from)));
    }
    pages.read(page, into)?;
    match step_of(into, key) {
        Some(step) => Ok(step),
        None => Err(Stop::Damaged(pages.block(page))),
    }
}

// What the bytes tell a search for a key. None where they are no page of a tree.
fn step_of(page: &[u8], key: &[u8]) -> Option<Step>
    requires { length page.now ≡ PAGE_LEN }
    ensures { MatchOption result ((shape : Shape) → ¬ Shows shape page.now)
        (λ step. Tells key.now step page.now) }
{
    if let Some(fork) = fork_for(page, key) {
        return Some(Step::Inner(fork));
    }
    match seek(page, key) {
        Some(sought) if next(page) == NONE => Some(Step::Entries(sought)),
        _ => None,
    }
}

// What the bytes are, if they are a page of a tree, by their header alone.
fn kind_of(page: &[u8]) -> Option<Shape>
    requires { length page.now ≡ PAGE_LEN }
    ensures { (shape : Shape) → Shows shape page.now → result ≡ Some shape }
{
    if has_kind(page, gx_bnode::KIND) {
        return Some(Shape::Inner);
    }
    if has_kind(page, gx_slots::KIND) && page_number(page) == NONE {
        return Some(Shape::Entries);
    }
    None
}

/// The child on the way to a key.
pub fn child_for(page: &[u8], key: &[u8]) -> u32
    requires { IsInnerPage page.now }
    ensures { result ≡ child_for (first_of page.now) (branches_of page.now) key.now }
{
    child(page, child_of(page, key))
}

/// Whether no separator of the page stands behind a key, which so leads to the last child.
pub fn leads_last(page: &[u8], key: &[u8]) -> bool
    requires { IsInnerPage page.now }
    ensures { IsTrue result ↔ bound_for (branches_of page.now) key.now None ≡ None }
{
    child_of(page, key) == separators(page)
}
