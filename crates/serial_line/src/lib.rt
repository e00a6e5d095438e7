// The line: the items of a window's serial order, and the devices that each has touched.
#![tactic(auto)]

mod entries;
mod kept_runs;
mod lines;
mod order_labels;

pub use lines::Line;
