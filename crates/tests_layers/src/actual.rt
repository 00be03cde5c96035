// The bodies of records under `actual`, and what is no body.
ghost use Rattle.std.specs.Prelude.{◌≡◌};

use gx_actual::read_body;
use gx_values::{Field, Kind, Name};
use std::test::Fail;

fn field(kind: Kind) -> Field
    ensures { result.kind ≡ kind }
{
    Field {
        name: Name::from_slice(b"f"),
        kind,
    }
}

// The body of an int, a text and bytes, and bodies that go wrong somewhere.
#[test]
fn bodies_are_read(rt: HostRuntime) -> Result<(), Fail> {
    let alloc = rt.alloc();
    let fields = [
        field(Kind::Int),
        field(Kind::Text(3)),
        field(Kind::Bytes(3)),
    ];
    let wrong: [&[u8]; 10] = [
        b"",
        b"\0\0\0\0\0\0\0",
        b"\0\0\0\0\0\0\0\0",
        b"\0\0\0\0\0\0\0\0\x02a",
        b"\0\0\0\0\0\0\0\0\x04abcd\0\0",
        b"\0\0\0\0\0\0\0\0\x01\x7F\0\0",
        b"\0\0\0\0\0\0\0\0\0\0",
        b"\0\0\0\0\0\0\0\0\0\0\x01",
        b"\0\0\0\0\0\0\0\0\0\0\x04abcd",
        b"\0\0\0\0\0\0\0\0\0\0\0\0",
    ];
    let whole = b"\xFF\xFF\xFF\xFF\xFF\xFF\xFF\xFE\x02ab\0\x03\0\xFF\x80";
    let found = read_body(alloc, &fields, whole)?.expect(&rt, "no values");
    assert!(rt; found.0.len() == 3);
    for body in wrong {
        assert!(rt; read_body(alloc, &fields, body)?.is_none());
    }
    Ok(())
}
