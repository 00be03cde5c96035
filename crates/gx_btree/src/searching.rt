// The entry page on the way to a key.
ghost use Rattle.std.specs.Prelude.{◌≡◌, None, length, OnOk, IfOk, IsErrOf, IsSomeAnd};
ghost use Rattle.gx_ports.specs.Files.{IsPlace, Holds, EndsFile, IsWhole};
ghost use Rattle.gx_ports.specs.declared.kinds.LeafKind.TheVariants as kinds;
ghost use Rattle.gx_bytes.specs.declared.page.TheConstants.{PAGE_LEN};
ghost use Rattle.gx_ports.specs.LeafMaps.{LeafMap};
ghost use Rattle.gx_ports.specs.PageCalls.{ReadsPages};
ghost use Rattle.gx_ports.specs.Sheets.{IsPast};
ghost use Rattle.gx_slots.specs.Page.{entries_of};
ghost use Rattle.gx_bnode.specs.Page.{IsInnerPage, first_of, branches_of};
ghost use Rattle.gx_btree.specs.declared.reading.Shape.TheVariants as shapes;
ghost use Rattle.gx_btree.specs.Bplus.{IsBplus, Shows};
ghost use Rattle.gx_btree.specs.Search.{IsFound};
ghost use Rattle.gx_btree.specs.Tree.{child_for, bound_for};

use crate::reading::{Shape, read_kind};
use gx_bnode::split_branch;
use gx_bytes::{page_body, page_number, record_count};
use gx_order::is_below;
use gx_ports::{Pages, Place, Stop};
use gx_values::KeyBuf;

/// Reads the entry page on the way to a key into `page`, and gives its number. Its entries aren't
/// tested, and of the inner pages before it only the branches up to that way. `bound` is the
/// nearest separator behind the page then, where there is one.
pub(crate) fn find<P: Pages>(
    pages: &mut P,
    place: &Place,
    key: &[u8],
    page: &mut [u8],
    bound: &mut Option<KeyBuf>,
) -> Result<u32, Stop>
    requires kind { place.now.spec.kind ≡ kinds.Bplus }
    requires place { IsPlace (P.ground pages.old) place.now }
    requires bytes { length page.old ≡ PAGE_LEN }
    requires unbounded { bound.old ≡ None }
    ensures bytes { length page.new ≡ PAGE_LEN }
    ensures past { IfOk result (λ at. IsPast (P.ground pages.old) at) }
    ensures shown { (map : LeafMap) →
        Holds P.PageView (IsBplus (P.ground pages.old) place.now) pages.old map →
        OnOk result (Shows shapes.Entries page.new) }
    ensures found { (map : LeafMap)
        (holds : Holds P.PageView (IsBplus (P.ground pages.old) place.now) pages.old map) →
        OnOk result (IsFound holds.file.tree key.now bound.new (entries_of page.new)) }
    ensures reads { ReadsPages P.PageView pages.old pages.new }
    ensures ends { EndsFile P.PageView
        (IsWhole P.PageView (IsBplus (P.ground pages.old) place.now) pages.old)
        pages.old pages.new result }
    ensures not_full { ¬ IsErrOf result Stop.Full }
    ensures frugal { ¬ IsErrOf result Stop.NoMemory }
{
    let mut at = place.root;
    let mut from = at;
    for _ in 0..pages.pages() {
        match read_kind(pages, from, at, page)? {
            Shape::Entries => return Ok(at),
            Shape::Inner => {
                let Some(child) = child_on(page, key, bound) else {
                    return Err(Stop::Damaged(pages.block(at)));
                };
                from = at;
                at = child;
            }
        }
    }
    Err(Stop::Damaged(pages.block(from)))
}

// The child on the way to a key. `bound` becomes the nearest separator behind it, where the page
// has one. None only where the bytes are no inner page.
fn child_on(page: &[u8], key: &[u8], bound: &mut Option<KeyBuf>) -> Option<u32>
    requires { length page.now ≡ PAGE_LEN }
    ensures { IsInnerPage page.now → IsSomeAnd result (λ child.
        (child ≡ child_for (first_of page.now) (branches_of page.now) key.now)
        × (bound.new ≡ bound_for (branches_of page.now) key.now bound.old)) }
{
    let mut child = page_number(page);
    let mut rest = page_body(page);
    for _ in 0..record_count(page) {
        let ((separator, right), behind) = split_branch(rest)?;
        if is_below(key, separator) {
            *bound = Some(KeyBuf::from_slice(separator));
            return Some(child);
        }
        child = right;
        rest = behind;
    }
    Some(child)
}
