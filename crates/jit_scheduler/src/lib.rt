// Whether a run is admitted just in time, and at which place of the line, or by which run a device
// is denied to it.
#![tactic(auto)]

mod admissions;
mod answers;
mod denials;

pub use admissions::admit;
pub use answers::Admit;
