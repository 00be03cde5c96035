//! All that the program does, over any machine: it reads the words, fetches the texts, hears the
//! script, plays it and says the answers.
#![tactic(auto)]

mod check;
mod explain;
mod inspect;
mod laws;
mod make;
mod ready;
mod request;
mod run_script;
mod share_script;
mod try_script;
mod work;

pub use laws::{
    committed_turns_are_a_play, done_or_memory, each_script_is_played, each_share_is_played,
    enough_pages, few_pages, never_both, one_list_of_maps, one_reason, one_request, one_state,
    one_text, refused_or_accepted, requests_follow, statuses, wrong_or_opened,
};
pub use request::top;
