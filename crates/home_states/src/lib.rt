// A home that is stepped from outside, its device calls made elsewhere: between its windows, or in
// one.
#![tactic(auto)]

mod drafts;
pub mod homes;
mod joinings;
mod numbers;
mod openings;
mod queries;
mod readings;
mod rebuilds;
pub mod refusals;
mod steps;
mod texts;

pub use homes::{ClosedWindow, LiveHome, Phase};
pub use rebuilds::one_home;
pub use refusals::{
    NotAnswered, NotBegun, NotClosed, NotFinal, NotLent, NotLost, NotMade, NotOpened, NotRebuilt,
    NotRestood, NotStanding, NotTold,
};
