//! Interleaved sessions over the abstract database: locks, turns, and the law that what committed
//! is a play. It is definitions, in `specs/`, and laws of them.
#![tactic(auto)]

mod laws;

pub use laws::{
    answered_on_others, holder_holds, kept_make_the_view, lines_are_turns, one_share_text,
    reads_fit, share_is_play,
};
