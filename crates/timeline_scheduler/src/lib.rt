// The set of items of the line behind which a run is placed so that its plan ends earliest, the
// times of that plan, and for how long a run that is placed is planned to use its devices.
#![tactic(auto)]

mod bases;
mod gathered;
mod places;
mod plans;
mod scratches;
mod slots;

pub use places::place;
pub use plans::plan_uses;
pub use scratches::Scratch;
