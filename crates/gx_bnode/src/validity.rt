// Which bytes are an inner page.
ghost use Rattle.std.specs.Prelude.{◌≡◌, ◌<◌, ◌↔◌, IsTrue, length};
ghost use Rattle.gx_bytes.specs.declared.page.TheConstants.{PAGE_LEN};
ghost use Rattle.gx_bnode.specs.Page.{IsInnerPage};
ghost use Rattle.gx_bnode.specs.Scan.{HoldsAscending};

use crate::format::split_branch;
use crate::page::KIND;
use gx_bytes::{has_kind, page_body, record_count};
use gx_order::is_below;

/// Whether the bytes are an inner page. The page has 4,096 bytes, of any values.
pub fn is_inner(page: &[u8]) -> bool
    requires { length page.now ≡ PAGE_LEN }
    ensures { IsTrue result ↔ IsInnerPage page.now }
{
    let count = record_count(page);
    if count == 0 || !has_kind(page, KIND) {
        return false;
    }
    are_branches(page_body(page), count)
}

// Whether the bytes begin with `count` branches whose separators ascend.
fn are_branches(bytes: &[u8], count: u16) -> bool
    requires { 0 < count }
    ensures { IsTrue result ↔ HoldsAscending count bytes.now }
{
    let Some(((first, _), behind)) = split_branch(bytes) else {
        return false;
    };
    let mut last = first;
    let mut rest = behind;
    for _ in 1..count {
        let Some(((separator, _), behind)) = split_branch(rest) else {
            return false;
        };
        if !is_below(last, separator) {
            return false;
        }
        last = separator;
        rest = behind;
    }
    true
}
