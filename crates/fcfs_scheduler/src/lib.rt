// Where a run is put that is served when it comes: at the end of the line.
#![tactic(auto)]

mod places;

pub use places::place;
