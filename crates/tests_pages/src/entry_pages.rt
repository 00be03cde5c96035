// Pages of entries, byte for byte.
ghost use Rattle.std.specs.Prelude.{◌≤◌, length};

use gx_slots::{add, clear, count, entries, entry, find, is_entries, next, seek, set_next, take};

/// A page that begins with these bytes, with zeros behind them.
fn page_of(front: &[u8]) -> [u8; 4096]
    requires { length front.now ≤ 4096 }
{
    let mut page = [0; 4096];
    page[..front.len()].copy_from_slice(front);
    page
}

#[test]
fn writes_one_entry(rt: HostRuntime) {
    let mut page = [0xAA; 4096];
    clear(&mut page);
    let key = [0x80, 0, 0, 0, 0, 0, 0, 7];
    assert!(rt; add(&mut page, 0, &key, &[0x03, 0x61, 0x6E, 0x6E]));
    let expected = [
        0x44, 0x00, 0x00, 0x01, 0xFF, 0xFF, 0xFF, 0xFF, 0x00, 0x08, 0x00, 0x04, 0x80, 0x00, 0x00,
        0x00, 0x00, 0x00, 0x00, 0x07, 0x03, 0x61, 0x6E, 0x6E,
    ];
    assert!(rt; page.starts_with(&expected));
    assert!(rt; is_entries(&page));
}

#[test]
fn keeps_the_order_of_entries(rt: HostRuntime) {
    let mut page = [0; 4096];
    clear(&mut page);
    assert!(rt; add(&mut page, 0, b"b", b"2"));
    assert!(rt; find(&page, b"a").is_none());
    assert!(rt; add(&mut page, 0, b"a", b"1"));
    assert!(rt; find(&page, b"ab").is_none());
    assert!(rt; count(&page) >= 2);
    assert!(rt; add(&mut page, 2, b"ab", b""));
    set_next(&mut page, 7);
    assert!(rt; next(&page) == 7);
    assert!(rt; count(&page) == 3);
    assert!(rt; find(&page, b"b") == Some(1));
    assert!(rt; find(&page, b"ab") == Some(2));
    assert!(rt; find(&page, b"") == None);
    let (key, body) = entry(&page, 1);
    assert!(rt; key == b"b".as_slice() && body == b"2".as_slice());
    take(&mut page, 0);
    let front = [
        0x44, 0, 0, 2, 0, 0, 0, 7, 0, 1, 0, 1, b'b', b'2', 0, 2, 0, 0, b'a', b'b',
    ];
    assert!(rt; page.starts_with(&front));
}

#[test]
fn seeks_a_key_among_ascending_ones(rt: HostRuntime) {
    let page = page_of(&[
        0x44, 0, 0, 2, 0, 0, 0, 7, 0, 1, 0, 1, b'b', b'2', 0, 2, 0, 0, b'd', b'd',
    ]);
    let cases: [(&[u8], u16, usize, bool); 6] = [
        (b"", 0, 8, false),
        (b"b", 0, 8, true),
        (b"ba", 1, 14, false),
        (b"d", 1, 14, false),
        (b"dd", 1, 14, true),
        (b"e", 2, 20, false),
    ];
    for (key, place, at, is_there) in cases {
        let sought = seek(&page, key);
        assert!(rt;
            matches!(sought, Some(it) if it.spot.place == place && it.spot.at == at
            && it.spot.end == 20 && it.is_there == is_there)
        );
    }
    let others: [&[u8]; 3] = [
        &[0x44, 1],
        &[
            0x44, 0, 0, 2, 0, 0, 0, 7, 0, 1, 0, 0, b'b', 0, 1, 0, 0, b'a',
        ],
        &[0x44, 0, 0, 1, 0, 0, 0, 7, 0x01, 0x91, 0, 0],
    ];
    for front in others {
        assert!(rt; seek(&page_of(front), b"a").is_none());
    }
}

#[test]
fn goes_over_entries(rt: HostRuntime) {
    let page = page_of(&[
        0x44, 0, 0, 2, 0, 0, 0, 7, 0, 1, 0, 1, b'b', b'2', 0, 2, 0, 0, b'a', b'b',
    ]);
    assert!(rt; is_entries(&page));
    let mut entries = entries(&page);
    let first = entries.next();
    assert!(rt; matches!(first, Some((b"b", b"2"))));
    let second = entries.next();
    assert!(rt; matches!(second, Some((b"ab", b""))));
    assert!(rt; entries.next().is_none());
}

#[test]
fn fills_a_page_to_its_last_byte(rt: HostRuntime) {
    let mut page = [0; 4096];
    clear(&mut page);
    let mut key = [0; 400];
    let body = [9; 600];
    for i in 0..4 {
        key[0] = i;
        assert!(rt; is_entries(&page));
        assert!(rt; find(&page, &key).is_none());
        assert!(rt; add(&mut page, 0, &key, &body));
    }
    assert!(rt; is_entries(&page));
    assert!(rt; find(&page, &body[..61]).is_none());
    assert!(rt; !add(&mut page, 0, &body[..61], &body[..8]));
    assert!(rt; find(&page, &body[..60]).is_none());
    assert!(rt; add(&mut page, 0, &body[..60], &body[..8]));
    assert!(rt; find(&page, b"").is_none());
    assert!(rt; !add(&mut page, 0, b"", b""));
    assert!(rt; count(&page) == 5);
    assert!(rt; is_entries(&page));
    page[3] = 6;
    assert!(rt; !is_entries(&page));
}

#[test]
fn tells_entry_pages_from_other_bytes(rt: HostRuntime) {
    let cases: [(&[u8], bool); 17] = [
        (&[0x44, 0, 0, 0, 0, 0, 0, 0], true),
        (&[0x45, 0, 0, 0, 0, 0, 0, 0], false),
        (&[0x44, 1, 0, 0, 0, 0, 0, 0], false),
        (&[0x44, 0, 0, 1, 9, 9, 9, 9], true),
        (&[0x44, 0, 0, 2, 0, 0, 0, 0], false),
        (&[0x44, 0, 0, 2, 0, 0, 0, 0, 0, 1, 0, 0, 5], true),
        (
            &[0x44, 0, 0, 2, 0, 0, 0, 0, 0, 1, 0, 1, 5, 6, 0, 1, 0, 0, 6],
            true,
        ),
        (
            &[0x44, 0, 0, 2, 0, 0, 0, 0, 0, 1, 0, 1, 5, 6, 0, 1, 0, 0, 5],
            false,
        ),
        (
            &[
                0x44, 0, 0, 3, 0, 0, 0, 0, 0, 1, 0, 0, 5, 0, 1, 0, 0, 6, 0, 1, 0, 0, 5,
            ],
            false,
        ),
        (&[0x44, 0, 0, 1, 0, 0, 0, 0, 0x01, 0x90, 0x02, 0x58], true),
        (&[0x44, 0, 0, 1, 0, 0, 0, 0, 0x01, 0x90, 0x02, 0x59], false),
        (&[0x44, 0, 0, 1, 0, 0, 0, 0, 0x01, 0x91, 0, 0], false),
        (&[0x44, 0, 0, 1, 0, 0, 0, 0, 0, 0, 0x03, 0xE8], true),
        (&[0x44, 0, 0, 1, 0, 0, 0, 0, 0, 0, 0x03, 0xE9], false),
        (&[0x44, 0, 0, 1, 0, 0, 0, 0, 0xFF, 0xFF, 0xFF, 0xFF], false),
        (&[0x44, 0, 0xFF, 0xFF, 0, 0, 0, 0], false),
        (&[0x44, 0, 0, 5, 0, 0, 0, 0, 0, 1, 0x03, 0xE7, 1], false),
    ];
    for (i, (front, expected)) in cases.iter().enumerate() {
        assert!(rt; is_entries(&page_of(front)) == *expected);
    }
}
