//! The blocks of a device that keeps pages: where each stands, and what they stand for at each
//! moment.
#![tactic(auto)]

mod bitmap;
mod formatting;
mod gate;
mod head;
mod places;
mod recovery;
mod texts;

pub use bitmap::{BITS, write_bitmap};
pub use formatting::format;
pub use gate::{close_gate, open_gate, set_gate};
pub use head::seal;
pub use places::{
    FIRST_MOST, MAX_BLOCKS, MAX_TEXTS_LEN, TEXT_AREA_LEN, head_blocks, home, layout, page_count,
    slot, table_pages,
};
pub use recovery::recover;
pub use texts::texts_differ;
