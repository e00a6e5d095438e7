// The devices of a window, home or away with a grip: what is known of each, and which one each run
// holds.
#![tactic(auto)]

mod checkouts;
mod closings;
mod known;
mod openings;

pub use checkouts::{Checkouts, ReturnedDevice};
pub use closings::{Risen, rises_in, stands_known};
pub use known::{DeviceCallCounts, DeviceProgress, Events};
pub use openings::roomy_list;
