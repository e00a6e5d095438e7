// The text of a day: its head, each window with its runs, their order and the home, and its total.
#![tactic(auto)]

mod days;
mod entries;
mod lines;
mod lookups;
mod numerals;
mod run_entries;
mod trials;
mod words;

pub use days::{
    Ends, aborts_in, commits_in, counts_text, ends_of, head_text, kept_head_text, total_text,
    window_text,
};
pub use entries::entry_text;
pub use trials::trial_text;
