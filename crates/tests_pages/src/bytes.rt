// Numbers, parts and headers, byte for byte.
use gx_bytes::{
    HEADER_LEN, has_kind, overwrite, page_body, page_number, record_count, set_page_number,
    set_record_count, split_u16, split_u32, write_header,
};

#[test]
fn numbers_are_split_off(rt: HostRuntime) {
    let bytes = [1, 2, 3, 4, 5];
    assert!(rt; split_u16(&bytes) == Some((0x0102, [3, 4, 5].as_slice())));
    assert!(rt; split_u32(&bytes) == Some((0x0102_0304, [5].as_slice())));
    assert!(rt; split_u16(&bytes[..1]) == None);
    assert!(rt; split_u32(&bytes[..3]) == None);
}

#[test]
fn a_header_is_written_and_read(rt: HostRuntime) {
    let mut page = [0xAA; 10];
    write_header(&mut page, 0x44, 0x0102, 0x0304_0506);
    assert!(rt; page == [0x44, 0, 1, 2, 3, 4, 5, 6, 0xAA, 0xAA]);
    assert!(rt; has_kind(&page, 0x44));
    assert!(rt; !has_kind(&page, 0x49));
    assert!(rt; record_count(&page) == 0x0102);
    assert!(rt; page_number(&page) == 0x0304_0506);
    set_record_count(&mut page, 7);
    set_page_number(&mut page, 9);
    overwrite(&mut page, HEADER_LEN, &[b'a']);
    assert!(rt; page == [0x44, 0, 0, 7, 0, 0, 0, 9, b'a', 0xAA]);
    assert!(rt; page_body(&page) == [b'a', 0xAA].as_slice());
}
