// Inner pages with separators and children, byte for byte.
ghost use Rattle.std.specs.Prelude.{◌≤◌, length};

use gx_bnode::{
    branches, child, child_of, drop_child, fork_for, has_room, insert, is_inner, make_inner,
    separator, separators, split,
};

/// A page that begins with these bytes, with zeros behind them.
fn page_of(front: &[u8]) -> [u8; 4096]
    requires { length front.now ≤ 4096 }
{
    let mut page = [0; 4096];
    page[..front.len()].copy_from_slice(front);
    page
}

/// The children 1, 2, 3 and 4 with the separators `c`, `m` and `t` between them.
const THREE: [u8; 29] = [
    0x49, 0, 0, 3, 0, 0, 0, 1, 0, 1, b'c', 0, 0, 0, 2, 0, 1, b'm', 0, 0, 0, 3, 0, 1, b't', 0, 0, 0,
    4,
];

#[test]
fn writes_one_separator(rt: HostRuntime) {
    let mut page = [0xAA; 4096];
    make_inner(&mut page, 10, b"hi", 11);
    let expected = [
        0x49, 0, 0, 1, 0, 0, 0, 10, 0, 2, b'h', b'i', 0, 0, 0, 11, 0xAA,
    ];
    assert!(rt; page.starts_with(&expected));
    assert!(rt; is_inner(&page));
    assert!(rt; has_room(&page));
    assert!(rt; separators(&page) == 1);
}

#[test]
fn puts_a_separator(rt: HostRuntime) {
    let mut page = [0; 4096];
    make_inner(&mut page, 1, b"m", 3);
    assert!(rt; has_room(&page));
    insert(&mut page, 0, b"c", 2);
    let expected = [
        0x49, 0, 0, 2, 0, 0, 0, 1, 0, 1, b'c', 0, 0, 0, 2, 0, 1, b'm', 0, 0, 0, 3,
    ];
    assert!(rt; page.starts_with(&expected));
}

#[test]
fn finds_the_child_of_a_key(rt: HostRuntime) {
    let page = page_of(&THREE);
    assert!(rt; is_inner(&page));
    let cases: [(&[u8], u16); 7] = [
        (b"", 0),
        (b"b", 0),
        (b"c", 1),
        (b"ca", 1),
        (b"m", 2),
        (b"s\xFF", 2),
        (b"z", 3),
    ];
    for (key, expected) in cases {
        assert!(rt; child_of(&page, key) == expected);
    }
    assert!(rt; separators(&page) == 3);
    assert!(rt; separator(&page, 1) == b"m".as_slice());
    assert!(rt; child(&page, 0) == 1);
    assert!(rt; child(&page, 3) == 4);
    assert!(rt; branches(&page).count() == 3);
}

#[test]
fn leads_to_the_child_of_a_key(rt: HostRuntime) {
    let page = page_of(&THREE);
    let cases: [(&[u8], u16, u32, bool); 5] = [
        (b"b", 0, 1, false),
        (b"c", 1, 2, false),
        (b"ca", 1, 2, false),
        (b"s", 2, 3, false),
        (b"t", 3, 4, true),
    ];
    for (key, place, child, is_last) in cases {
        let fork = fork_for(&page, key);
        assert!(rt;
            matches!(fork, Some(it) if it.place == place && it.child == child
            && it.is_last == is_last && it.has_room)
        );
    }
    assert!(rt; fork_for(&page_of(&[0x49, 0, 0, 0, 0, 0, 0, 1]), b"b").is_none());
    let full = full_page();
    assert!(rt; matches!(fork_for(&full, &[10]), Some(it) if it.child == 10 && !it.has_room));
}

#[test]
fn drops_a_child(rt: HostRuntime) {
    let without_first = [
        0x49, 0, 0, 2, 0, 0, 0, 2, 0, 1, b'm', 0, 0, 0, 3, 0, 1, b't', 0, 0, 0, 4,
    ];
    let without_third = [
        0x49, 0, 0, 2, 0, 0, 0, 1, 0, 1, b'c', 0, 0, 0, 2, 0, 1, b't', 0, 0, 0, 4,
    ];
    for (i, expected) in [(0, without_first), (2, without_third)] {
        let mut page = page_of(&THREE);
        assert!(rt; is_inner(&page));
        assert!(rt; separators(&page) >= 2);
        drop_child(&mut page, i);
        assert!(rt; page.starts_with(&expected));
    }
}

#[test]
fn tells_inner_pages_from_other_bytes(rt: HostRuntime) {
    let cases: [(&[u8], bool); 12] = [
        (&THREE, true),
        (&[0x49, 0, 0, 1, 0, 0, 0, 1], true),
        (&[0x49, 0, 0, 0, 0, 0, 0, 1], false),
        (&[0x44, 0, 0, 1, 0, 0, 0, 1], false),
        (&[0x49, 1, 0, 1, 0, 0, 0, 1], false),
        (&[0x49, 0, 0, 2, 0, 0, 0, 1], false),
        (
            &[0x49, 0, 0, 2, 0, 0, 0, 1, 0, 1, 7, 0, 0, 0, 2, 0, 1, 8],
            true,
        ),
        (
            &[0x49, 0, 0, 2, 0, 0, 0, 1, 0, 1, 7, 0, 0, 0, 2, 0, 1, 7],
            false,
        ),
        (
            &[0x49, 0, 0, 2, 0, 0, 0, 1, 0, 1, 7, 0, 0, 0, 2, 0, 1, 6],
            false,
        ),
        (&[0x49, 0, 0, 1, 0, 0, 0, 1, 0x01, 0x90], true),
        (&[0x49, 0, 0, 1, 0, 0, 0, 1, 0x01, 0x91], false),
        (&[0x49, 0, 0xFF, 0xFF, 0, 0, 0, 1], false),
    ];
    for (i, (front, expected)) in cases.iter().enumerate() {
        assert!(rt; is_inner(&page_of(front)) == *expected);
    }
}

/// A page of ten separators of 400 bytes, which begin with 0 to 9, and the children 0 to 10.
fn full_page() -> [u8; 4096] {
    let mut page = page_of(&[0x49, 0, 0, 10]);
    for i in 0..10u8 {
        let at = 8 + 406 * usize::from(i);
        page[at] = 0x01;
        page[at + 1] = 0x90;
        page[at + 2] = i;
        page[at + 405] = i + 1;
    }
    page
}

#[test]
fn splits_a_page_without_room(rt: HostRuntime) {
    let mut page = full_page();
    let mut right = [0xAA; 4096];
    assert!(rt; is_inner(&page));
    assert!(rt; !has_room(&page));
    let key = split(&mut page, &mut right);
    assert!(rt; is_inner(&page) && is_inner(&right));
    assert!(rt; has_room(&page) && has_room(&right));
    let left = separators(&page);
    assert!(rt; u32::from(left) + u32::from(separators(&right)) == 9);
    assert!(rt; key.as_slice().len() == 400);
    assert!(rt; u16::from(key.as_slice()[0]) == left);
    assert!(rt; child(&page, left) == u32::from(left));
    assert!(rt; child(&right, 0) == u32::from(left) + 1);
}
