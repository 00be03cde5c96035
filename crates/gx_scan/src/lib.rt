//! Finding: the records of a file within a span that meet conditions, and the record at a key, in
//! the leaves of the file's node.
#![tactic(auto)]

mod both;
mod by_columns;
mod by_entries;
mod by_groups;
mod by_index;
mod by_key;
mod by_pieces;
mod by_records;
mod coded;
mod columns;
mod conditions;
mod entries;
mod groups;
mod joined;
mod pieced;
mod pieces;
mod places;
mod records;
mod scan;
mod searched;
mod within;

pub use by_index::rows_where;
pub use by_key::find_values;
pub use by_records::{into_row, meets_all};
pub use gx_types::AnyMapping;
pub use records::find_record;
pub use searched::searched_node;
pub use within::rows_within;
