// The way from an inner page to a key.
ghost use Rattle.std.specs.Prelude.{◌≡◌, ℕ, ◌∷◌, [], ◌++◌, ◌<◌, List, length, MatchOption};
ghost use Rattle.std.specs.List.{sum_by};
ghost use Rattle.gx_bytes.specs.declared.page.TheConstants.{PAGE_LEN};
ghost use Rattle.gx_bnode.specs.Branches.{Branch, AreAscending, branch_len, branches_in};
ghost use Rattle.gx_bnode.specs.Forks.{IsFork, IsWay};
ghost use Rattle.gx_bnode.specs.Page.{IsInnerPage, separators_in};
ghost use Rattle.gx_bnode.specs.Scan.{HoldsAscending};

use crate::format::{MAX_BRANCH_LEN, split_branch};
use crate::page::KIND;
use gx_bytes::{HEADER_LEN, PAGE_LEN, has_kind, page_body, page_number, record_count};
use gx_order::is_below;

/// Where an inner page leads for a key, and what an edit of the page needs to know.
#[derive(Clone, Copy, Debug)]
pub struct Fork {
    /// the place of the child for the key: the number of separators at or below it
    pub place: u16,
    /// that child
    pub child: u32,
    /// whether it is the last one
    pub is_last: bool,
    /// whether a separator of `MAX_SEPARATOR_LEN` bytes fits
    pub has_room: bool,
}

// A child on the way to a key among branches.
#[derive(Clone, Copy, Debug)]
struct Way {
    // how many separators were passed
    place: u16,
    child: u32,
}

/// Where an inner page leads for a key, by one walk that tests the page as `is_inner` does. None
/// exactly where the bytes are no inner page. The page has 4,096 bytes, of any values.
pub fn fork_for(page: &[u8], key: &[u8]) -> Option<Fork>
    requires { length page.now ≡ PAGE_LEN }
    ensures { MatchOption result (¬ IsInnerPage page.now)
        (λ fork. IsInnerPage page.now × IsFork page.now key.now fork) }
{
    let count = record_count(page);
    if count == 0 || !has_kind(page, KIND) {
        return None;
    }
    let (way, len) = lead(page_body(page), count, page_number(page), key)?;
    Some(Fork {
        place: way.place,
        child: way.child,
        is_last: way.place == count,
        has_room: HEADER_LEN + len + MAX_BRANCH_LEN <= PAGE_LEN,
    })
}

// The way to a key among the `count` branches that the bytes begin with, behind a first child, and
// the number of their bytes. None where they begin with no such branches whose separators ascend.
#[inline(never)]
fn lead(bytes: &[u8], count: u16, first: u32, key: &[u8]) -> Option<(Way, usize)>
    requires { 0 < count }
    ensures { MatchOption result (¬ HoldsAscending count bytes.now)
        (λ led. HoldsAscending count bytes.now
        × IsWay first (branches_in count bytes.now) key.now led.0.place led.0.child
        × (led.1 ≡ sum_by branch_len (branches_in count bytes.now))) }
{
    let ((front, right), behind) = split_branch(bytes)?;
    let start = Way {
        place: 0,
        child: first,
    };
    let mut way = pass(start, 0, front, right, key);
    let mut last = front;
    let mut rest = behind;
    for place in 1..count {
        let ((separator, right), behind) = split_branch(rest)?;
        if !is_below(last, separator) {
            return None;
        }
        way = pass(way, place, separator, right, key);
        last = separator;
        rest = behind;
    }
    Some((way, bytes.len() - rest.len()))
}

// The way to a key where one more branch stands behind the `place` ones that were looked at.
#[inline(always)]
fn pass(way: Way, place: u16, separator: &[u8], right: u32, key: &[u8]) -> Way
    requires { place < 65535 }
    ensures { (first : ℕ) (branches : List Branch) (branch : Branch) → length branches ≡ place
        → branch.separator ≡ separator.now → branch.child ≡ right
        → AreAscending (separators_in (branches ++ branch ∷ []))
        → IsWay first branches key.now way.place way.child
        → IsWay first (branches ++ branch ∷ []) key.now result.place result.child }
{
    if way.place < place || is_below(key, separator) {
        return way;
    }
    Way {
        place: place + 1,
        child: right,
    }
}
