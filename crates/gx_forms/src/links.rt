// The forms that the heads of links give to their children, by the kinds of the keys of the owner
// file and of the member file.
ghost use Rattle.std.specs.Prelude.{◌≡◌, ◌≤◌, ◌*◌, max, IfOk};
ghost use Rattle.gx_values.specs.Keys.{width_of};
ghost use Rattle.gx_schema.specs.declared.schema.TheConstants.{MOST_MEMBERS};
ghost use Rattle.gx_forms.specs.Forms.{array_form, ring_form, inverted_form};
ghost use Rattle.gx_forms.specs.Narrow.{narrow};

use crate::fields::key_width;
use crate::forms::make_field;
use gx_schema::MOST_MEMBERS;
use gx_values::{Fields, Form, Kind};
use std::alloc::{AllocError, Global};

/// The form of the child of `array`: an owner, and the keys of its members.
pub fn array_form(alloc: Global, owner: Kind, member: Kind) -> Result<Form, AllocError>
    ensures narrow { IfOk result (λ made. narrow made ≡ narrow (array_form owner member)) }
    ensures exact { MOST_MEMBERS * width_of member ≤ 65535 →
        IfOk result (λ made. made ≡ array_form owner member) }
{
    let members = Kind::Bytes(key_width(member).saturating_mul(MOST_MEMBERS as u16));
    Ok(Form {
        keys: Fields(vec![in alloc; make_field(b"owner", owner)]?),
        fields: Fields(vec![in alloc; make_field(b"members", members)]?),
    })
}

/// The forms of the children of `ring`: an owner and its first member, and a member and the next
/// one.
pub fn ring_forms(alloc: Global, owner: Kind, member: Kind) -> Result<(Form, Form), AllocError>
    ensures narrow { IfOk result
        (λ made. (narrow made.0 ≡ narrow (ring_form owner member 0))
        × (narrow made.1 ≡ narrow (ring_form owner member 1))) }
    ensures exact { max (width_of owner) (width_of member) ≤ 65535 → IfOk result
        (λ made. (made.0 ≡ ring_form owner member 0) × (made.1 ≡ ring_form owner member 1)) }
{
    let next = Kind::Bytes(key_width(owner).max(key_width(member)));
    let firsts = Form {
        keys: Fields(vec![in alloc; make_field(b"owner", owner)]?),
        fields: Fields(vec![in alloc; make_field(b"first", member)]?),
    };
    let nexts = Form {
        keys: Fields(vec![in alloc; make_field(b"member", member)]?),
        fields: Fields(vec![in alloc;
            make_field(b"last", Kind::Int),
            make_field(b"next", next),
            make_field(b"owner", owner),
        ]?),
    };
    Ok((firsts, nexts))
}

/// The forms of the children of `inverted`: an owner with a member, and a member and its owner.
pub fn inverted_forms(alloc: Global, owner: Kind, member: Kind) -> Result<(Form, Form), AllocError>
    ensures { IfOk result
        (λ made. (made.0 ≡ inverted_form owner member 0)
        × (made.1 ≡ inverted_form owner member 1)) }
{
    let pairs = Form {
        keys: Fields(vec![in alloc; make_field(b"owner", owner), make_field(b"member", member)]?),
        fields: Fields(Vec::new(alloc)),
    };
    let owners = Form {
        keys: Fields(vec![in alloc; make_field(b"member", member)]?),
        fields: Fields(vec![in alloc; make_field(b"owner", owner)]?),
    };
    Ok((pairs, owners))
}
