// Where bytes come from and go to, the times of windows, and clocks.
#![tactic(auto)]

mod bytes_sinks;
mod bytes_sources;
mod call_plans;
mod clocks;
mod faults;
mod set_clocks;
mod sinks;
mod sources;
mod std_clocks;
mod std_sinks;
mod std_sources;
pub mod times;

pub use bytes_sinks::BytesSink;
pub use bytes_sources::BytesSource;
pub use clocks::Clock;
pub use faults::{Failed, FaultCount};
pub use set_clocks::SetClock;
pub use sinks::{Sink, write_all};
pub use sources::{InputFault, Source, read_to_end};
pub use std_clocks::StdClock;
pub use std_sinks::StdSink;
pub use std_sources::StdSource;
pub use times::{Unread, When, read_time};
