// The rows of a link compared with what nodes hold.
ghost use Rattle.std.specs.Prelude.{◌≡◌, ◌↔◌, true, false, Ok};
ghost use Rattle.std.specs.List.{IsDistinct};
ghost use Rattle.std.specs.List.Sorted.{IsStrictlySortedBy};
ghost use Rattle.std.specs.Ordering.{eq_by_cmp};
ghost use Rattle.gx_mapping.specs.declared.parts.Part.{Part as ThePart};
ghost use Rattle.gx_mapping.specs.Rule.{In, part_cmp};

use gx_gather::sort_parts;
use gx_mapping::Parts;
use gx_stack::are_same_parts;
use std::alloc::AllocError;

// Whether rows, in any order, are just the parts that were found in nodes, which stand by node and
// key.
pub fn are_rows(rows: Parts, found: &Parts) -> Result<bool, AllocError>
    ensures yes { result ≡ Ok true → (p : ThePart) → In p found.now ↔ In p rows }
    ensures no { result ≡ Ok false → IsStrictlySortedBy part_cmp found.now →
        IsDistinct (eq_by_cmp part_cmp) rows → ¬ ((p : ThePart) → In p found.now ↔ In p rows) }
{
    let mut rows = rows.0;
    sort_parts(0, &mut rows)?;
    Ok(are_same_parts(&rows, &found.0))
}
