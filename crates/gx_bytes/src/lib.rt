//! Pages of records: big-endian numbers at the front of bytes, parts of bytes written over, and the
//! header of a page of 4,096 bytes whose records stand one after another.
#![tactic(auto)]

mod numbers;
mod page;
mod parts;

pub use numbers::{split_u16, split_u32};
pub use page::{
    HEADER_LEN, NONE, PAGE_LEN, has_kind, page_body, page_number, record_count, set_page_number,
    set_record_count, write_header,
};
pub use parts::overwrite;
