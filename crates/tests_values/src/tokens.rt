// Worked tokens, numbers, quoted texts, lines and words.
use gx_tokens::{
    Fault, ReadError, Token, Unread, Why, after_blanks, fault_at, line_of, natural_number,
    next_token, push_quoted, quoted_value, read_close, read_comma, read_comma_or_close,
    read_equals, read_number, read_open, read_word, signed_number, split_quoted, unexpected,
    unread,
};
use std::test::Fail;

#[test]
fn finds_tokens(rt: HostRuntime) -> Result<(), Fail> {
    let wanted = [
        Token::Word(b"a_9"),
        Token::Open,
        Token::Number(b"007"),
        Token::Comma,
        Token::Number(b"-12"),
        Token::Quoted(b"a\"\"b"),
        Token::Equals,
        Token::Word(b"_"),
        Token::Close,
        Token::End,
        Token::End,
    ];
    let mut rest = b"# any \xFF\"\r\na_9(007,-12 \"a\"\"b\"=_\t) # end".as_slice();
    for token in wanted {
        let (found, after) = next_token(rest).ok().ok_or("a token")?;
        assert!(rt; found == token);
        rest = after;
    }
    Ok(())
}

const MALFORMED: &[&[u8]] = &[
    b"12abc",
    b"1-2",
    b"a-5",
    b"-",
    b"abcdefghijklmnopq",
    b"\"a",
    b"\"a\"\"",
    b"\"a\tb\"",
    b"A",
    b"\x7F",
];

// Whether there is a fault, of this reason, with so many bytes left.
fn is_fault(fault: Option<Fault>, left: usize, why: Why) -> bool {
    match fault {
        Some(fault) => fault.left == left && fault.why == why,
        None => false,
    }
}

#[test]
fn refuses_what_is_no_token(rt: HostRuntime) {
    for text in MALFORMED {
        assert!(rt; is_fault(next_token(text).err(), text.len(), Why::Token));
    }
}

// Whether a token was read, with these bytes behind it.
fn leaves(read: Result<&[u8], Fault>, rest: &[u8]) -> bool {
    match read {
        Ok(after) => after == rest,
        Err(_) => false,
    }
}

// Whether these bytes were read, with those behind them.
fn gives(read: Result<(&[u8], &[u8]), Fault>, bytes: &[u8], rest: &[u8]) -> bool {
    match read {
        Ok((found, after)) => found == bytes && after == rest,
        Err(_) => false,
    }
}

#[test]
fn reads_a_word_and_a_number(rt: HostRuntime) {
    assert!(rt; gives(read_word(b" heapA"), b"heap", b"A"));
    assert!(rt; gives(read_number(b"-0)"), b"-0", b")"));
}

#[test]
fn reads_one_mark(rt: HostRuntime) {
    assert!(rt; leaves(read_open(b"(a"), b"a"));
    assert!(rt; leaves(read_close(b")a"), b"a"));
    assert!(rt; leaves(read_comma(b",a"), b"a"));
    assert!(rt; leaves(read_equals(b"=a"), b"a"));
}

// Whether a comma or a close was read, with these bytes behind it.
fn ends(read: Result<(bool, &[u8]), Fault>, comma: bool, rest: &[u8]) -> bool {
    match read {
        Ok((found, after)) => found == comma && after == rest,
        Err(_) => false,
    }
}

#[test]
fn reads_one_of_two_marks(rt: HostRuntime) {
    assert!(rt; ends(read_comma_or_close(b",a"), true, b"a"));
    assert!(rt; ends(read_comma_or_close(b")a"), false, b"a"));
}

// Texts that begin with no comma, the bytes that are left, and the reason.
const NO_COMMAS: &[(&[u8], usize, Why)] = &[
    (b" (a", 2, Why::Unexpected),
    (b"a b\n", 4, Why::Unexpected),
    (b"# ,\n", 0, Why::End),
];

#[test]
fn refuses_another_token(rt: HostRuntime) {
    for (text, left, why) in NO_COMMAS {
        assert!(rt; is_fault(read_comma(text).err(), *left, *why));
    }
}

#[test]
fn finds_faults(rt: HostRuntime) {
    assert!(rt; after_blanks(b" # a\n\tb ") == b"b ".as_slice());
    assert!(rt; is_fault(Some(fault_at(b" \n9)", Why::Number)), 2, Why::Number));
    assert!(rt; is_fault(Some(unexpected(b" )", Token::Close)), 1, Why::Unexpected));
}

#[test]
fn knows_natural_numbers(rt: HostRuntime) {
    assert!(rt; natural_number(b"0064", 64) == Some(64));
    assert!(rt; natural_number(b"65", 64) == None);
    assert!(rt; natural_number(b"-0", 64) == Some(0));
    assert!(rt; natural_number(b"-1", 64) == None);
}

const SIGNED: &[(&[u8], Option<i64>)] = &[
    (b"-000", Some(0)),
    (b"00000000000000000000000000000042", Some(42)),
    (b"9223372036854775807", Some(9223372036854775807)),
    (b"9223372036854775808", None),
    (b"-9223372036854775808", Some(-9223372036854775808)),
    (b"-9223372036854775809", None),
    (b"99999999999999999999999999", None),
    (b"-", None),
    (b"1x", None),
];

#[test]
fn knows_signed_numbers(rt: HostRuntime) {
    for (text, number) in SIGNED {
        assert!(rt; signed_number(text) == *number);
    }
}

fn is_split(split: Option<(&[u8], &[u8])>, text: &[u8], rest: &[u8]) -> bool {
    match split {
        Some((found, after)) => found == text && after == rest,
        None => false,
    }
}

#[test]
fn knows_quoted_texts(rt: HostRuntime) -> Result<(), Fail> {
    assert!(rt; is_split(split_quoted(b"a\"\"b\" c"), b"a\"\"b", b" c"));
    let value = quoted_value(rt.alloc(), b"a\"\"\"\"b")?;
    assert!(rt; value.as_slice() == b"a\"\"b".as_slice());
    Ok(())
}

#[test]
fn quotes_a_text(rt: HostRuntime) -> Result<(), Fail> {
    let mut out = Vec::new(rt.alloc());
    push_quoted(&mut out, b"a\"b")?;
    assert!(rt; out.as_slice() == b"\"a\"\"b\"".as_slice());
    Ok(())
}

// Texts, the bytes that are left, and the line in which they begin.
const LINES: &[(&[u8], usize, u32)] = &[
    (b"", 0, 1),
    (b"a\n", 0, 1),
    (b"a\nb", 0, 2),
    (b"a\nb", 1, 2),
    (b"a\n\nb", 2, 2),
    (b"a\n\nb", 4, 1),
];

#[test]
fn counts_lines(rt: HostRuntime) {
    for (text, left, line) in LINES {
        if text.len() < 4_294_967_295 {
            assert!(rt; line_of(text, *left) == *line);
        }
    }
}

#[test]
fn tells_the_line_of_a_fault(rt: HostRuntime) {
    let fault = Fault {
        left: 1,
        why: Why::Count,
    };
    assert!(rt; unread(b"a\nb", ReadError::Bad(fault)) == Unread::Bad(2, Why::Count));
    assert!(rt; unread(b"", ReadError::NoMemory) == Unread::NoMemory);
}

const WORDS: &[(Why, &str)] = &[
    (Why::Token, "token"),
    (Why::Unexpected, "unexpected"),
    (Why::End, "end"),
    (Why::Number, "number"),
    (Why::Depth, "depth"),
    (Why::NameUse, "name"),
    (Why::KeyField, "key"),
    (Why::Count, "count"),
];

#[test]
fn has_a_word_for_each_reason(rt: HostRuntime) {
    for (why, word) in WORDS {
        assert!(rt; why.word() == *word);
    }
}
