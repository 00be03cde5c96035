// The direction of a path.
ghost use Rattle.std.specs.Prelude.{◌≡◌, ◌↔◌, ◌^◌, ◌<◌, length, IsTrue};
ghost use Rattle.gx_model.specs.Paths.{last_find};
ghost use Rattle.gx_walks.specs.Directions.{find_rank, IsDirectionOf, HasFewConds};

use crate::directions::Direction;
use gx_commands::{Find, Leg, PathQuery};
use gx_planner::{plan, rank};

// There are fewer conditions.
const MOST_CONDS: usize = 65_536;

/// The direction of a path whose first and last file have these fields indexed, field 0 being the
/// key: backward exactly where the rank of the plan of its last `find` is less than that of its
/// first. It takes no memory.
pub fn direction(query: &PathQuery, first: &[bool], last: &[bool]) -> Direction
    requires { HasFewConds query.now }
    ensures { IsDirectionOf query.now first.now last.now result }
{
    if rank_of(last_find_of(query), last) < rank_of(&query.first, first) {
        Direction::Backward
    } else {
        Direction::Forward
    }
}

/// Whether a plan can number the conditions at both ends of a path: each has fewer than 65,536.
pub fn has_few_conds(query: &PathQuery) -> bool
    ensures { IsTrue result ↔ HasFewConds query.now }
{
    let last = last_find_of(query);
    query.first.conds.0.len() < MOST_CONDS && last.conds.0.len() < MOST_CONDS
}

// The rank of the plan of a `find`.
fn rank_of(find: &Find, indexed: &[bool]) -> u8
    requires { length find.now.conds < 2 ^ 16 }
    ensures { result ≡ find_rank find.now indexed.now }
{
    rank(plan(find, indexed))
}

/// The `find` of the last leg of a path.
pub(crate) fn last_find_of(query: &PathQuery) -> &Find
    ensures { result.now ≡ last_find query.now.first query.now.legs }
{
    last_find(&query.first, &query.legs.0)
}

/// The `find` of the last leg, or the one before all legs.
pub(crate) fn last_find<'a>(first: &'a Find, legs: &'a [Leg]) -> &'a Find
    ensures { result.now ≡ last_find first.now legs.now }
{
    match legs.last() {
        Some(leg) => &leg.find,
        None => first,
    }
}
