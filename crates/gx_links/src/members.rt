// The members of one owner.
ghost use Rattle.std.specs.Prelude.{◌≡◌};
ghost use Rattle.gx_links.specs.Links.{without_member};

use gx_values::{Value, Values, compare};

/// The members but this one.
pub fn without(members: Values, member: &Value) -> Values
    ensures { result ≡ without_member member.now members }
{
    let mut members = members;
    members.0.retain(|other| compare(other, member).is_ne());
    members
}
