// The proved hub for C: a home behind a handle, stepped from outside, its device calls made by the
// caller.
#![tactic(auto)]

mod draft_calls;
mod handles;
mod log_calls;
mod numbers;
mod open_calls;
mod query_calls;
mod read_calls;
mod reopen_calls;
mod statuses;
mod step_calls;
mod text_calls;
mod told_entries;
mod told_faults;
mod told_turns;
mod window_calls;

pub use draft_calls::{
    lazbendix_add_run, lazbendix_begin_window, lazbendix_lose, lazbendix_restand,
};
pub use handles::{Handle, HomeBlock};
pub use log_calls::{ToldCall, lazbendix_log};
pub use open_calls::{lazbendix_end, lazbendix_open};
pub use query_calls::{
    lazbendix_blocked_runs, lazbendix_final_item, lazbendix_out, lazbendix_sealed,
    lazbendix_version,
};
pub use read_calls::{
    lazbendix_counts, lazbendix_device_name, lazbendix_routine_name, lazbendix_run_count,
    lazbendix_stand, lazbendix_value_name,
};
pub use reopen_calls::lazbendix_reopen;
pub use step_calls::{
    lazbendix_blocked, lazbendix_give, lazbendix_probe, lazbendix_quiet, lazbendix_take,
};
pub use text_calls::{
    lazbendix_entry_at, lazbendix_entry_count, lazbendix_entry_text, lazbendix_head,
    lazbendix_read, lazbendix_record,
};
pub use told_entries::{ToldEntry, ToldMade};
pub use told_faults::ToldFault;
pub use told_turns::{ToldCounts, ToldItem, ToldLeft, ToldStand, ToldTurn};
pub use window_calls::{lazbendix_close_window, lazbendix_window};
