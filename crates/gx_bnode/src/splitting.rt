// The split of an inner page.
ghost use Rattle.std.specs.Prelude.{◌≡◌, ◌+◌, ◌<◌, ◌≤◌, ◌∷◌, ◌++◌, length, take};
ghost use Rattle.std.specs.List.{sum_by};
ghost use Rattle.gx_bytes.specs.declared.page.TheConstants.{PAGE_LEN};
ghost use Rattle.gx_bnode.specs.Branches.{branch_len};
ghost use Rattle.gx_bnode.specs.Page.{IsInnerPage, HasRoom, branches_of, children_of, separators_of};

use crate::format::{branch_len, split_branch};
use crate::page::{KIND, branches, offsets, separators};
use gx_bytes::{HEADER_LEN, PAGE_LEN, overwrite, set_record_count, write_header};
use gx_values::KeyBuf;

/// Half of the bytes that branches may take.
const HALF: usize = (PAGE_LEN - HEADER_LEN) / 2;

/// Splits a page without room into itself and `right`, which has 4,096 bytes, of any values. Gives
/// the separator between the two pages, which is on neither. Both have room then.
pub fn split(page: &mut [u8], right: &mut [u8]) -> KeyBuf
    requires page { IsInnerPage page.old }
    requires full { ¬ (HasRoom (separators_of page.old)) }
    requires size { length right.old ≡ PAGE_LEN }
    ensures left { IsInnerPage page.new }
    ensures right { IsInnerPage right.new }
    ensures separators { separators_of page.old ≡ separators_of page.new ++ result
        ∷ separators_of right.new }
    ensures children { children_of page.old ≡ children_of page.new ++ children_of right.new }
    ensures left_room { HasRoom (separators_of page.new) }
    ensures right_room { HasRoom (separators_of right.new) }
{
    let count = separators(page);
    let place = middle(page);
    let (at, end) = offsets(page, place);
    let (_, rest) = page.split_at(at);
    let ((separator, child), behind) = split_branch(rest).unwrap();
    let (others, _) = behind.split_at(end - at - branch_len(separator));
    let key = KeyBuf::from_slice(separator);
    write_header(right, KIND, count - place - 1, child);
    overwrite(right, HEADER_LEN, others);
    set_record_count(page, place);
    key
}

// The place of the separator that stands across the half of the bytes of a page without room.
fn middle(page: &[u8]) -> u16
    requires page { IsInnerPage page.now }
    requires full { ¬ (HasRoom (separators_of page.now)) }
    ensures place { result < length (branches_of page.now) }
    ensures before { sum_by branch_len (take result (branches_of page.now)) ≤ 2044 }
    ensures across { 2044 < sum_by branch_len (take (result + 1) (branches_of page.now)) }
{
    let mut taken = 0;
    let mut place = 0;
    for (separator, _) in branches(page) {
        taken += branch_len(separator);
        if taken > HALF {
            return place;
        }
        place += 1;
    }
    place
}
