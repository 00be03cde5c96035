// The entries inside a span.
ghost use Rattle.std.specs.Prelude.{◌≡◌, ◌++◌, [], ◌∷◌, length, take, IsTrue, OnOk, IfOk};
ghost use Rattle.std.specs.Bool.{OnFalse};
ghost use Rattle.std.specs.Cmp.Lexicographic.{slice_cmp};
ghost use Rattle.std.specs.Ordering.{nat_cmp, is_le, is_gt};
ghost use Rattle.gx_ports.specs.declared.kinds.LeafKind.TheVariants as kinds;
ghost use Rattle.gx_bytes.specs.declared.page.TheConstants.{PAGE_LEN};
ghost use Rattle.gx_ports.specs.FileCalls.{SelectsInFile};
ghost use Rattle.gx_ports.specs.Files.{IsPlace};
ghost use Rattle.gx_ports.specs.LeafMaps.{Extends};
ghost use Rattle.gx_slots.specs.Page.{IsAscendingPage, entries_of};
ghost use Rattle.gx_btree.specs.Bplus.{IsBplus};
ghost use Rattle.gx_btree.specs.Selection.{given_from, IsPastSpan};

use crate::searching::find;
use gx_bytes::{page_body, record_count};
use gx_order::compare_bytes;
use gx_ports::{Entries, PAGE_LEN, Pages, Place, Stop};
use gx_slots::split_entry;
use gx_values::{KeyBuf, NoMemory, Span};
use std::alloc::Global;

/// Appends the entries inside the span, in ascending order of their keys. Each page is found from
/// the root, by the separator behind the one before. After a refusal `out` may hold more than
/// before.
pub fn select<P: Pages>(
    alloc: Global,
    pages: &mut P,
    place: &Place,
    span: &Span,
    out: &mut Entries,
) -> Result<(), Stop>
    requires kind { place.now.spec.kind ≡ kinds.Bplus }
    requires place { IsPlace (P.ground pages.old) place.now }
    ensures { SelectsInFile P.PageView (IsBplus (P.ground pages.old) place.now)
        span.now out.old out.new pages.old pages.new result }
{
    let mut page = [0; PAGE_LEN];
    let mut key = KeyBuf::from_slice(span.lo.as_slice());
    for _ in 0..pages.pages() {
        let mut bound = None;
        let at = find(pages, place, key.as_slice(), &mut page, &mut bound)?;
        if !give(alloc, &page, key.as_slice(), span, out)? {
            return Err(Stop::Damaged(pages.block(at)));
        }
        let Some(next) = &bound else {
            return Ok(());
        };
        if is_past(span, next.as_slice()) {
            return Ok(());
        }
        key = KeyBuf::from_slice(next.as_slice());
    }
    Err(Stop::Damaged(pages.block(place.root)))
}

// Appends the entries of a page inside the span, from a key on. Those behind the span aren't looked
// at. False only where the bytes are no entry page.
fn give(
    alloc: Global,
    page: &[u8],
    from: &[u8],
    span: &Span,
    out: &mut Entries,
) -> Result<bool, NoMemory>
    requires { length page.now ≡ PAGE_LEN }
    ensures ok { IsAscendingPage page.now → OnOk result (out.new
        ≡ out.old ++ given_from from.now span.now.lo span.now.hi (entries_of page.now)) }
    ensures sound { IsAscendingPage page.now → IfOk result (λ sound. IsTrue sound) }
    ensures extends { Extends out.old out.new }
{
    let mut rest = page_body(page);
    for _ in 0..record_count(page) {
        let Some(((key, body), behind)) = split_entry(rest) else {
            return Ok(false);
        };
        if !give_entry(alloc, key, body, from, span, out)? {
            return Ok(true);
        }
        rest = behind;
    }
    Ok(true)
}

// Appends an entry where it lies inside the span and isn't below a key. False: it stands behind the
// span.
fn give_entry(
    alloc: Global,
    key: &[u8],
    body: &[u8],
    from: &[u8],
    span: &Span,
    out: &mut Entries,
) -> Result<bool, NoMemory>
    ensures ok { OnOk result (out.new ≡ out.old ++ given_from from.now span.now.lo span.now.hi
        (record { key = key.now; body = body.now } ∷ [])) }
    ensures past { IfOk result (λ goes. OnFalse goes (IsPastSpan span.now.hi key.now)) }
    ensures extends { Extends out.old out.new }
{
    if !is_up_to(from, key) {
        return Ok(true);
    }
    if is_past(span, key) {
        return Ok(false);
    }
    if is_up_to(span.lo.as_slice(), key) {
        out.push(alloc, key, body)?;
    }
    Ok(true)
}

/// Whether `a` is `b` or stands before it, byte by byte, a proper front first.
pub(crate) fn is_up_to(a: &[u8], b: &[u8]) -> bool
    ensures { result ≡ is_le (slice_cmp nat_cmp a.now b.now) }
{
    compare_bytes(a, b).is_le()
}

// Whether the key stands behind the span, and so all keys behind it do.
fn is_past(span: &Span, key: &[u8]) -> bool
    ensures { result
        ≡ is_gt (slice_cmp nat_cmp (take (length span.now.hi) key.now) span.now.hi) }
{
    let hi = span.hi.as_slice();
    let front = &key[..key.len().min(hi.len())];
    compare_bytes(front, hi).is_gt()
}
