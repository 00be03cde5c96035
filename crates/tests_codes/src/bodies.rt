// Bodies with values by their codes: what is read of them.
ghost use Rattle.std.specs.Prelude.{◌≡◌};

use gx_codec::{Codes, Group, Plain, Slot, front_at, place_fronts, read_stored};
use gx_values::{Code, Field, Kind, Name, Value, ValueRef};
use std::test::Fail;

// An int by `pack`, one byte, and a text by `rle`, two runs.
const CODED: &[u8] = b"\0\x01\x05\0\x04\x02a\x01b";

fn field(kind: Kind) -> Field
    ensures { result.kind ≡ kind }
{
    Field {
        name: Name::from_slice(b"f"),
        kind,
    }
}

#[test]
fn values_are_read_by_their_codes(rt: HostRuntime) -> Result<(), Fail> {
    let alloc = rt.alloc();
    let fields = [field(Kind::Int), field(Kind::Text(3))];
    let mut codes = Codes(Vec::new(alloc));
    codes.0.push(Some(Code::Pack))?;
    codes.0.push(Some(Code::Rle))?;
    let found = read_stored(alloc, &fields, &codes, CODED)?.expect(&rt, "no values");
    let values = found.0.as_slice();
    assert!(rt; values.len() == 2);
    assert!(rt; matches!(&values[0], Value::Int(5)));
    assert!(rt; matches!(&values[1], Value::Text(text) if text.as_slice() == b"aab".as_slice()));
    let front = front_at(&fields, &codes, 1, CODED).expect(&rt, "no text");
    assert!(rt; matches!(front, ValueRef::Bytes(runs) if runs == b"\x02a\x01b".as_slice()));
    Ok(())
}

#[test]
fn one_value_is_found(rt: HostRuntime) -> Result<(), Fail> {
    let fields = [field(Kind::Text(3)), field(Kind::Text(3))];
    let both = front_at(&fields, &Plain, 1, b"\x01a\x02bc").expect(&rt, "no text");
    assert!(rt; matches!(both, ValueRef::Text(text) if text == b"bc".as_slice()));
    let others = Group {
        mask: &[true, false],
        is_first: false,
    };
    let other = front_at(&fields, &others, 1, b"\x02bc").expect(&rt, "no text");
    assert!(rt; matches!(other, ValueRef::Text(text) if text == b"bc".as_slice()));
    assert!(rt; front_at(&fields, &others, 0, b"\x02bc").is_none());
    Ok(())
}

// The body has the second field first, by its code.
#[test]
fn values_are_placed_by_number(rt: HostRuntime) -> Result<(), Fail> {
    let fields = [field(Kind::Text(3)), field(Kind::Int)];
    let slots = [
        Slot {
            number: 1,
            code: Some(Code::Pack),
        },
        Slot {
            number: 0,
            code: None,
        },
    ];
    let mut out = [ValueRef::Int(0), ValueRef::Int(0)];
    assert!(rt; place_fronts(&fields, &slots, b"\0\x01\x05\x02bc", &mut out));
    let text = out[0];
    let code = out[1];
    assert!(rt; matches!(text, ValueRef::Text(text) if text == b"bc".as_slice()));
    assert!(rt; matches!(code, ValueRef::Bytes(code) if code == b"\x05".as_slice()));
    Ok(())
}
