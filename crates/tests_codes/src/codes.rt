// The codes of ints and texts, and bytes that are no code.
use gx_encode::{pack_into, rle_into, unpack, unrle};
use std::test::Fail;

// An int and its code, the shortest bytes whose sign extension it is.
const PACKED: [(i64, &[u8]); 6] = [
    (0, b""),
    (127, b"\x7F"),
    (128, b"\0\x80"),
    (-1, b"\xFF"),
    (-128, b"\x80"),
    (-129, b"\xFF\x7F"),
];

#[test]
fn ints_are_packed(rt: HostRuntime) -> Result<(), Fail> {
    let alloc = rt.alloc();
    for (value, code) in PACKED {
        assert!(rt; pack_into(alloc, value)?.as_slice() == code);
        assert!(rt; unpack(code) == Some(value));
    }
    Ok(())
}

// A byte that only repeats the sign, and nine bytes.
#[test]
fn other_bytes_are_no_int(rt: HostRuntime) -> Result<(), Fail> {
    let wrong: [&[u8]; 4] = [b"\0\x7F", b"\0", b"\xFF\x80", b"\x01\0\0\0\0\0\0\0\0"];
    for bytes in wrong {
        assert!(rt; unpack(bytes) == None);
    }
    Ok(())
}

#[test]
fn texts_are_coded_by_runs(rt: HostRuntime) -> Result<(), Fail> {
    let alloc = rt.alloc();
    let coded: [(&[u8], &[u8]); 2] = [(b"aaab", b"\x03a\x01b"), (b"", b"")];
    for (text, code) in coded {
        assert!(rt; rle_into(alloc, text)?.as_slice() == code);
        let read = unrle(alloc, code, 200)?.ok_or("a text")?;
        assert!(rt; read.as_slice() == text);
    }
    Ok(())
}

// Two runs of one byte beside each other, no byte of a run, more than 200, a byte that is no
// character, half a run, and more bytes than the text may have.
#[test]
fn other_bytes_are_no_text(rt: HostRuntime) -> Result<(), Fail> {
    let alloc = rt.alloc();
    let wrong: [&[u8]; 6] = [
        b"\x01a\x01a",
        b"\0a",
        b"\xC9a",
        b"\x01\x7F",
        b"\x03",
        b"\x03a\x03b",
    ];
    for bytes in wrong {
        assert!(rt; unrle(alloc, bytes, 5)?.is_none());
    }
    Ok(())
}
