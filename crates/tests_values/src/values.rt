// Values: their order, their keys and their copies.
ghost use Rattle.std.specs.Prelude.{◌≡◌};
ghost use Rattle.gx_values.specs.Keys.{AreKeyFields};

use gx_values::{
    Field, Fields, Form, KeyBuf, Kind, Name, Octets, Op, Rec, Span, Value, Values, compare, inside,
    key_bytes, meets, read_key, read_value_key, value_key,
};
use std::alloc::Global;
use std::cmp::Ordering;
use std::test::Fail;

fn text(alloc: Global, bytes: &[u8]) -> Result<Value, Fail> {
    Ok(Value::Text(Octets::from_slice(alloc, bytes)?))
}

fn field(kind: Kind) -> Field
    ensures { result.kind ≡ kind }
{
    Field {
        name: Name::from_slice(b"f"),
        kind,
    }
}

fn are_same(a: &Values, b: &Values) -> bool {
    a.0.len() == b.0.len()
        && a.0
            .iter()
            .zip(b.0.iter())
            .all(|(a, b)| compare(a, b).is_eq())
}

// Whether the key of an int has these bytes.
fn is_key_of_int(n: i64, bytes: &[u8]) -> bool {
    value_key(&Value::Int(n)).as_slice() == bytes
}

// Whether the key of a short text has these bytes.
fn is_key_of_text(alloc: Global, text: &[u8], bytes: &[u8]) -> Result<bool, Fail> {
    if text.len() > 200 {
        return Ok(false);
    }
    let value = Value::Text(Octets::from_slice(alloc, text)?);
    Ok(value_key(&value).as_slice() == bytes)
}

const KEYS_OF_INTS: &[(i64, &[u8])] = &[
    (-1, b"\x7F\xFF\xFF\xFF\xFF\xFF\xFF\xFF"),
    (0, b"\x80\0\0\0\0\0\0\0"),
];

const KEYS_OF_TEXTS: &[(&[u8], &[u8])] = &[(b"", b"\0"), (b"a", b"a\0"), (b"ab", b"ab\0")];

// The values ascend, and so do the bytes of their keys.
#[test]
fn keys_have_their_bytes(rt: HostRuntime) -> Result<(), Fail> {
    let mut last = b"".as_slice();
    for (n, bytes) in KEYS_OF_INTS {
        assert!(rt; is_key_of_int(*n, bytes));
        assert!(rt; last.cmp(bytes).is_lt());
        last = bytes;
    }
    let mut last = b"".as_slice();
    for (text, bytes) in KEYS_OF_TEXTS {
        assert!(rt; is_key_of_text(rt.alloc(), text, bytes)?);
        assert!(rt; last.cmp(bytes).is_lt());
        last = bytes;
    }
    Ok(())
}

// Whether these bytes are the key of these values.
fn is_read(alloc: Global, keys: &Fields, bytes: &[u8], key: &Values) -> Result<bool, Fail>
    requires { AreKeyFields keys.now }
{
    Ok(matches!(read_key(alloc, keys, bytes)?, Some(found) if are_same(&found, key)))
}

const NO_KEYS: &[&[u8]] = &[
    b"",
    b"\x80\0\0\0\0\0\0",
    b"\x80\0\0\0\0\0\0\0",
    b"\x80\0\0\0\0\0\0\0ab",
    b"\x80\0\0\0\0\0\0\0abcd\0",
    b"\x80\0\0\0\0\0\0\0a\x1F\0",
    b"\x80\0\0\0\0\0\0\0\x7F\0",
    b"\x80\0\0\0\0\0\0\0ab\0\0",
];

#[test]
fn keys_of_two_fields_are_read_back(rt: HostRuntime) -> Result<(), Fail> {
    let alloc = rt.alloc();
    let keys = Fields(vec![in alloc; field(Kind::Int), field(Kind::Text(3))]?);
    let key = Values(vec![in alloc;
        Value::Int(-1),
        Value::Text(Octets::from_slice(alloc, b"ab")?),
    ]?);
    let bytes = key_bytes(&keys, &key);
    assert!(rt; bytes.as_slice() == b"\x7F\xFF\xFF\xFF\xFF\xFF\xFF\xFFab\0".as_slice());
    assert!(rt; is_read(alloc, &keys, bytes.as_slice(), &key)?);
    Ok(())
}

#[test]
fn other_bytes_are_no_keys(rt: HostRuntime) -> Result<(), Fail> {
    let alloc = rt.alloc();
    let keys = Fields(vec![in alloc; field(Kind::Int), field(Kind::Text(3))]?);
    for bytes in NO_KEYS {
        assert!(rt; read_key(alloc, &keys, bytes)?.is_none());
    }
    Ok(())
}

#[test]
fn an_int_is_read_back_from_its_key(rt: HostRuntime) -> Result<(), Fail> {
    let found = read_value_key(rt.alloc(), Kind::Int, &[0; 8])?;
    assert!(rt; matches!(found, Some(Value::Int(i64::MIN))));
    Ok(())
}

#[test]
fn a_text_is_read_back_from_its_key(rt: HostRuntime) -> Result<(), Fail> {
    let found = read_value_key(rt.alloc(), Kind::Text(3), b"abc\0")?;
    assert!(rt; matches!(&found, Some(Value::Text(text)) if text.as_slice() == b"abc".as_slice()));
    Ok(())
}

const NO_KEYS_OF_A_TEXT: &[&[u8]] = &[b"", b"ab", b"abcd\0", b"ab\0\0"];

#[test]
fn other_bytes_are_no_key_of_a_text(rt: HostRuntime) -> Result<(), Fail> {
    for bytes in NO_KEYS_OF_A_TEXT {
        assert!(rt; read_value_key(rt.alloc(), Kind::Text(3), bytes)?.is_none());
    }
    Ok(())
}

// The two ends of a span, a key, and whether it is inside.
const INSIDE: &[(&str, &str, &str, bool)] = &[
    ("", "", "", true),
    ("", "", "z", true),
    ("b", "", "a", false),
    ("b", "", "b", true),
    ("b", "", "ba", true),
    ("", "b", "a", true),
    ("", "b", "bz", true),
    ("", "b", "c", false),
    ("", "bb", "b", true),
    ("", "bb", "bc", false),
    ("b", "b", "ba", true),
];

// A key of the first bytes, 400 at most.
fn key_of(text: &str) -> KeyBuf {
    let bytes = text.as_bytes();
    KeyBuf::from_slice(&bytes[..bytes.len().min(400)])
}

// Whether a key is inside the span between two ends.
fn is_inside(lo: &str, hi: &str, key: &str) -> bool {
    let span = Span {
        lo: key_of(lo),
        hi: key_of(hi),
    };
    inside(&span, key.as_bytes())
}

#[test]
fn spans_hold_keys(rt: HostRuntime) {
    for (lo, hi, key, want) in INSIDE {
        assert!(rt; is_inside(lo, hi, key) == *want);
    }
}

// Values, each greater than those before it.
fn ascending(alloc: Global) -> Result<Vec<Value>, Fail> {
    let mut values = vec![in alloc; Value::Int(i64::MIN), Value::Int(-1), Value::Int(0)]?;
    for bytes in ["", "a", "ab", "b"] {
        values.push(text(alloc, bytes.as_bytes())?)?;
    }
    for byte in [0, 0xFF] {
        values.push(Value::Bytes(Octets::from_slice(alloc, &[byte])?))?;
    }
    Ok(values)
}

#[test]
fn values_are_compared(rt: HostRuntime) -> Result<(), Fail> {
    let values = ascending(rt.alloc())?;
    for (i, a) in values.iter().enumerate() {
        for (j, b) in values.iter().enumerate() {
            assert!(rt; compare(a, b) == i.cmp(&j));
        }
    }
    Ok(())
}

// An operator, and whether a number that is less, equal or greater meets it.
const MET: &[(Op, bool, bool, bool)] = &[
    (Op::Equal, false, true, false),
    (Op::Unequal, true, false, true),
    (Op::Less, true, false, false),
    (Op::AtMost, true, true, false),
    (Op::Greater, false, false, true),
    (Op::AtLeast, false, true, true),
];

#[test]
fn values_meet_conditions(rt: HostRuntime) {
    for (op, less, equal, greater) in MET {
        assert!(rt; meets(&Value::Int(4), *op, &Value::Int(5)) == *less);
        assert!(rt; meets(&Value::Int(5), *op, &Value::Int(5)) == *equal);
        assert!(rt; meets(&Value::Int(6), *op, &Value::Int(5)) == *greater);
    }
}

// Whether the copy of a record has its values.
fn is_copied(alloc: Global, record: &Rec) -> Result<bool, Fail> {
    let copy = record.copy(alloc)?;
    Ok(are_same(&copy.key, &record.key) && are_same(&copy.fields, &record.fields))
}

// A text and bytes.
fn fields_of_record(alloc: Global) -> Result<Values, Fail> {
    let text = text(alloc, b"ab")?;
    let bytes = Octets::from_slice(alloc, b"\0\xFF")?;
    Ok(Values(vec![in alloc; text, Value::Bytes(bytes)]?))
}

#[test]
fn records_are_copied(rt: HostRuntime) -> Result<(), Fail> {
    let fields = fields_of_record(rt.alloc())?;
    let record = Rec {
        key: Values(vec![in rt.alloc(); Value::Int(i64::MIN)]?),
        fields,
    };
    assert!(rt; is_copied(rt.alloc(), &record)?);
    Ok(())
}

fn is_field(field: &Field, name: &[u8], kind: Kind) -> bool {
    field.name.as_slice() == name && field.kind == kind
}

// Whether these are the form's fields: an int in the key, a text and bytes behind it.
fn has_fields(form: &Form) -> bool {
    match (form.keys.0.as_slice(), form.fields.0.as_slice()) {
        ([key], [name, bytes]) => {
            is_field(key, b"f", Kind::Int)
                && is_field(name, b"name", Kind::Text(24))
                && is_field(bytes, b"f", Kind::Bytes(4))
        }
        _ => false,
    }
}

fn fields_of_form(alloc: Global) -> Result<Fields, Fail> {
    let name = Field {
        name: Name::from_slice(b"name"),
        kind: Kind::Text(24),
    };
    Ok(Fields(vec![in alloc; name, field(Kind::Bytes(4))]?))
}

#[test]
fn forms_are_copied(rt: HostRuntime) -> Result<(), Fail> {
    let fields = fields_of_form(rt.alloc())?;
    let form = Form {
        keys: Fields(vec![in rt.alloc(); field(Kind::Int)]?),
        fields,
    };
    assert!(rt; has_fields(&form.copy(rt.alloc())?));
    Ok(())
}
