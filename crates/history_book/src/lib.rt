// The history of a window, what it says of each run, and the record that is left of it.
#![tactic(auto)]

mod books;
mod causes;
pub mod entries;
mod planned_uses;
pub mod progress;
pub mod read_histories;
mod records;

pub use books::Book;
pub use causes::{died_by, must_down, refuted};
pub use entries::{Cause, End, Entry, Kept, Made, NONE_MADE, one_made};
pub use planned_uses::PlannedUse;
pub use progress::RunProgress;
pub use read_histories::ReadHistory;
pub use records::WindowRecord;
