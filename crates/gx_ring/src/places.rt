// Where a member stands among others.
ghost use Rattle.std.specs.Prelude.{◌≡◌};
ghost use Rattle.std.specs.Option.{option_map};
ghost use Rattle.std.specs.List.{position};
ghost use Rattle.std.specs.Ordering.{is_ge};
ghost use Rattle.gx_values.specs.Values.{value_cmp};
ghost use Rattle.gx_ring.specs.Places.{place_of, before_in, next_in};

use gx_values::{Value, compare};

// The members next to a place among ascending ones.
#[derive(Clone, Copy)]
pub struct Neighbours<'v> {
    pub before: Option<&'v Value>,
    pub next: Option<&'v Value>,
}

// The members between which a member that isn't among them is to stand.
pub fn neighbours_of<'v>(members: &'v [Value], member: &Value) -> Neighbours<'v>
    ensures before { option_map (λ v. v.now) result.before ≡ before_in members.now member.now }
    ensures next { option_map (λ v. v.now) result.next ≡ next_in members.now member.now }
{
    let (front, rest) = members.split_at(place_of(members, member));
    Neighbours {
        before: front.last(),
        next: rest.first(),
    }
}

// How many of the members come before this one.
fn place_of(members: &[Value], member: &Value) -> usize
    ensures { result ≡ place_of members.now member.now }
{
    first_behind(members, member).unwrap_or(members.len())
}

// The first of the members that isn't less than this one.
fn first_behind(members: &[Value], member: &Value) -> Option<usize>
    ensures { result ≡ position (λ x. is_ge (value_cmp x member.now)) members.now }
{
    members
        .iter()
        .position(|other| compare(other, member).is_ge())
}
