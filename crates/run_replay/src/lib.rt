// The replay of a window: its runs and the detector, stepped one after another by a list of picks
// and by a generator.
#![tactic(auto)]

mod finishes;
mod hands;
mod live_runs;
pub mod picked;
pub mod players;
pub mod windows;

pub use picked::Picked;
pub use players::Player;
pub use seeded_draws::Draws;
pub use windows::replay_window;
