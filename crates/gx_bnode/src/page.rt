// The calls on an inner page.
ghost use Rattle.std.specs.Prelude.{◌≡◌, ◌↔◌, ◌+◌, ◌-◌, ◌<◌, ◌≤◌, [], ◌∷◌, length, take, drop, slice_index, slice_index_or, IsTrue};
ghost use Rattle.std.specs.Cmp.Lexicographic.{slice_cmp};
ghost use Rattle.std.specs.List.{All, count_by, insert, remove};
ghost use Rattle.std.specs.Ordering.{nat_cmp, is_le};
ghost use Rattle.std.specs.declared.cmp.Ordering.TheVariants.{Less};
ghost use Rattle.gx_bytes.specs.declared.page.TheConstants.{PAGE_LEN};
ghost use Rattle.gx_bytes.specs.Page.{used};
ghost use Rattle.gx_bnode.specs.declared.format.TheConstants.{MAX_SEPARATOR_LEN};
ghost use Rattle.gx_bnode.specs.Branches.{AreAscending, branch_len};
ghost use Rattle.gx_bnode.specs.Page.{IsInnerPage, HasRoom, branches_of, children_of, first_of, separators_of};

use crate::format::{MAX_BRANCH_LEN, branch_len, branches_len, write_branch};
use crate::iter::Branches;
use gx_bytes::{
    HEADER_LEN, PAGE_LEN, page_body, page_number, record_count, set_page_number, set_record_count,
    write_header,
};
use gx_order::is_below;

/// The byte that an inner page begins with.
pub const KIND: u8 = 0x49;

/// Makes an inner page of one separator, of at most `MAX_SEPARATOR_LEN` bytes, between two
/// children. The page has 4,096 bytes, of any values.
pub fn make_inner(page: &mut [u8], left: u32, key: &[u8], right: u32)
    requires size { length page.old ≡ PAGE_LEN }
    requires short { length key.now ≤ MAX_SEPARATOR_LEN }
    ensures page { IsInnerPage page.new }
    ensures separators { separators_of page.new ≡ key.now ∷ [] }
    ensures children { children_of page.new ≡ left ∷ right ∷ [] }
{
    write_header(page, KIND, 1, left);
    write_branch(page, HEADER_LEN, key, right);
}

/// The number of separators, one less than that of the children.
pub fn separators(page: &[u8]) -> u16
    requires { IsInnerPage page.now }
    ensures { result ≡ length (separators_of page.now) }
{
    record_count(page)
}

/// The branches, each a separator and the child right of it, in their order.
pub fn branches(page: &[u8]) -> Branches<'_>
    requires { IsInnerPage page.now }
    ensures { result ≡ branches_of page.now }
{
    Branches::new(page_body(page), separators(page))
}

/// The separator at place `i`, which is below the number of separators.
pub fn separator(page: &[u8], i: u16) -> &[u8]
    requires page { IsInnerPage page.now }
    requires place { i < length (separators_of page.now) }
    ensures { result.now ≡ slice_index_or (separators_of page.now) i [] }
{
    let (separator, _) = branches(page).nth(usize::from(i)).unwrap();
    separator
}

/// The child at place `i`, which is at most the number of separators.
pub fn child(page: &[u8], i: u16) -> u32
    requires page { IsInnerPage page.now }
    requires place { i ≤ length (separators_of page.now) }
    ensures { result ≡ slice_index (children_of page.now) i }
{
    if i == 0 {
        return page_number(page);
    }
    let (_, child) = branches(page).nth(usize::from(i - 1)).unwrap();
    child
}

/// The place of the child for the key: the number of separators at or below it.
pub fn child_of(page: &[u8], key: &[u8]) -> u16
    requires { IsInnerPage page.now }
    ensures number { result ≡ count_by (λ separator. is_le (slice_cmp nat_cmp separator key.now))
        (separators_of page.now) }
    ensures before { All (λ separator. IsTrue (is_le (slice_cmp nat_cmp separator key.now)))
        (take result (separators_of page.now)) }
    ensures behind { All (λ separator. slice_cmp nat_cmp key.now separator ≡ Less)
        (drop result (separators_of page.now)) }
{
    let mut place = 0;
    for (separator, _) in branches(page) {
        if is_below(key, separator) {
            return place;
        }
        place += 1;
    }
    place
}

/// Whether a separator of `MAX_SEPARATOR_LEN` bytes fits.
pub fn has_room(page: &[u8]) -> bool
    requires { IsInnerPage page.now }
    ensures { IsTrue result ↔ HasRoom (separators_of page.now) }
{
    HEADER_LEN + branches_len(page_body(page), separators(page)) + MAX_BRANCH_LEN <= PAGE_LEN
}

/// Puts a separator of at most `MAX_SEPARATOR_LEN` bytes at place `i`, and a child right of it. The
/// page has room, and the separators still ascend.
pub fn insert(page: &mut [u8], i: u16, key: &[u8], right: u32)
    requires page { IsInnerPage page.old }
    requires room { HasRoom (separators_of page.old) }
    requires place { i ≤ length (separators_of page.old) }
    requires short { length key.now ≤ MAX_SEPARATOR_LEN }
    requires ascending { AreAscending (insert (separators_of page.old) i key.now) }
    ensures page { IsInnerPage page.new }
    ensures separators { separators_of page.new ≡ insert (separators_of page.old) i key.now }
    ensures children { children_of page.new ≡ insert (children_of page.old) (i + 1) right }
{
    let count = separators(page);
    let (at, end) = offsets(page, i);
    page.copy_within(at..end, at + branch_len(key));
    write_branch(page, at, key, right);
    set_record_count(page, count + 1);
}

/// Takes away the child at place `i`, which is at most the number of separators, and the separator
/// left of it, for child 0 the one right of it. The page has two separators or more.
pub fn drop_child(page: &mut [u8], i: u16)
    requires page { IsInnerPage page.old }
    requires several { 2 ≤ length (separators_of page.old) }
    requires place { i ≤ length (separators_of page.old) }
    ensures page { IsInnerPage page.new }
    ensures separators { separators_of page.new ≡ remove (separators_of page.old) (i - 1) }
    ensures children { children_of page.new ≡ remove (children_of page.old) i }
{
    if i == 0 {
        let second = child(page, 1);
        set_first(page, second);
        drop_branch(page, 0);
    } else {
        drop_branch(page, i - 1);
    }
}

// Makes `first` the first child.
fn set_first(page: &mut [u8], first: u32)
    requires { IsInnerPage page.old }
    ensures page { IsInnerPage page.new }
    ensures first { first_of page.new ≡ first }
    ensures branches { branches_of page.new ≡ branches_of page.old }
{
    set_page_number(page, first);
}

// Takes away the separator at place `i` and the child right of it.
fn drop_branch(page: &mut [u8], i: u16)
    requires page { IsInnerPage page.old }
    requires several { 2 ≤ length (branches_of page.old) }
    requires place { i < length (branches_of page.old) }
    ensures page { IsInnerPage page.new }
    ensures first { first_of page.new ≡ first_of page.old }
    ensures branches { branches_of page.new ≡ remove (branches_of page.old) i }
{
    let count = separators(page);
    let (at, end) = offsets(page, i);
    let (_, rest) = page.split_at(at);
    let behind = at + branches_len(rest, 1);
    page.copy_within(behind..end, at);
    set_record_count(page, count - 1);
}

/// Where the branch at place `i` begins, which is at most the number of separators, and where the
/// last one ends.
pub(crate) fn offsets(page: &[u8], i: u16) -> (usize, usize)
    requires page { IsInnerPage page.now }
    requires place { i ≤ length (branches_of page.now) }
    ensures start { result.0 ≡ used branch_len (take i (branches_of page.now)) }
    ensures end { result.1 ≡ used branch_len (branches_of page.now) }
{
    let body = page_body(page);
    let start = branches_len(body, i);
    let (_, rest) = body.split_at(start);
    let end = start + branches_len(rest, separators(page) - i);
    (HEADER_LEN + start, HEADER_LEN + end)
}
