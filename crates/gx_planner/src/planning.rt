// The plan of a `find`.
ghost use Rattle.std.specs.Prelude.{◌≡◌, ◌^◌, ◌<◌, length, IfSome};
ghost use Rattle.std.specs.List.{position};
ghost use Rattle.gx_planner.specs.Plans.{condition_rank, is_indexed, rank_by, plan_by_condition, plan_rank, first_of, least_plan, Applies, IsLeast};

use crate::plans::Plan;
use gx_commands::{Cond, Find};
use gx_values::Op;

// The ranks of plans.
const KEY: u8 = 1;

const LINK: u8 = 2;

const INDEX: u8 = 3;

const KEY_RANGE: u8 = 4;

const INDEX_RANGE: u8 = 5;

const SCAN: u8 = 6;

/// The plan of a `find` on a file of which these fields are indexed, field 0 being the key: the
/// first that applies of `Key`, `Link`, `Index`, `KeyRange`, `IndexRange` and `Scan`, by the first
/// condition for which it does. `<>` gives no plan. It takes no memory.
pub fn plan(find: &Find, indexed: &[bool]) -> Plan
    requires { length find.now.conds < 2 ^ 16 }
    ensures plan { result ≡ least_plan find.now indexed.now }
    // It can be followed.
    ensures applies { Applies find.now indexed.now result }
    // No plan of a lower rank applies, nor one of the same rank by an earlier condition.
    ensures least { IsLeast find.now indexed.now result }
{
    let conds = find.conds.0.as_slice();
    if let Some(number) = first_of(KEY, conds, indexed) {
        return Plan::Key(number);
    }
    if find.of.is_some() {
        return Plan::Link;
    }
    by_condition(conds, indexed)
}

/// The rank of a plan, from 1 to 6. `plan` gives one of the least rank among those that apply.
pub fn rank(plan: Plan) -> u8
    ensures { result ≡ plan_rank plan }
{
    match plan {
        Plan::Key(_) => KEY,
        Plan::Link => LINK,
        Plan::Index(_) => INDEX,
        Plan::KeyRange(_) => KEY_RANGE,
        Plan::IndexRange(_) => INDEX_RANGE,
        Plan::Scan => SCAN,
    }
}

// The plan where the key isn't given and no owner is.
fn by_condition(conds: &[Cond], indexed: &[bool]) -> Plan
    requires { length conds.now < 2 ^ 16 }
    ensures { result ≡ plan_by_condition indexed.now conds.now }
{
    if let Some(number) = first_of(INDEX, conds, indexed) {
        return Plan::Index(number);
    }
    if let Some(number) = first_of(KEY_RANGE, conds, indexed) {
        return Plan::KeyRange(number);
    }
    match first_of(INDEX_RANGE, conds, indexed) {
        Some(number) => Plan::IndexRange(number),
        None => Plan::Scan,
    }
}

// The first condition of this rank.
fn first_of(rank: u8, conds: &[Cond], indexed: &[bool]) -> Option<u16>
    requires { length conds.now < 2 ^ 16 }
    ensures { result ≡ first_of rank indexed.now conds.now }
{
    match place_of(rank, conds, indexed) {
        Some(place) => Some(place as u16),
        None => None,
    }
}

fn place_of(rank: u8, conds: &[Cond], indexed: &[bool]) -> Option<usize>
    ensures value { result ≡ first_of rank indexed.now conds.now }
    ensures within { IfSome result (λ place. place < length conds.now) }
{
    conds.iter().position(|cond| rank_of(cond, indexed) == rank)
}

// The rank of the plan by a condition.
fn rank_of(cond: &Cond, indexed: &[bool]) -> u8
    ensures { result ≡ condition_rank indexed.now cond.now }
{
    if cond.field == 0 {
        return rank_by(cond.op, KEY, KEY_RANGE);
    }
    if is_indexed(indexed, cond.field) {
        return rank_by(cond.op, INDEX, INDEX_RANGE);
    }
    SCAN
}

fn is_indexed(indexed: &[bool], field: u16) -> bool
    ensures { result ≡ is_indexed indexed.now field }
{
    match indexed.get(usize::from(field)) {
        Some(found) => *found,
        None => false,
    }
}

// The rank by an operator: one for equality, one for ranges.
fn rank_by(op: Op, equal: u8, range: u8) -> u8
    ensures { result ≡ rank_by equal range op }
{
    match op {
        Op::Equal => equal,
        Op::Unequal => SCAN,
        Op::Less | Op::AtMost | Op::Greater | Op::AtLeast => range,
    }
}
