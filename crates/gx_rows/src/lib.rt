//! Rows of an answer: a record as it is listed, the order of rows, and the texts of answers.
#![tactic(auto)]

mod order;
mod row;
mod texts;

pub use order::{compare_rows, field_value, sort_rows};
pub use row::Row;
pub use texts::{commit_line, record_line, records_text, stop_line};
