// What a model asks of a run: for which run it waits before it goes on, and for which device it is
// aborted at its end.
#![tactic(auto)]

mod ends;
mod models;
mod waits;

pub use ends::down_at_end;
pub use waits::may_go;
