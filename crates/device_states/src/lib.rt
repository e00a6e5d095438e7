// Devices and benches, known by what their calls tell, a device that never fails, and one that
// fails by a plan.
#![tactic(auto)]

pub mod benches;
pub mod calm_devices;
pub mod devices;
pub mod sim_devices;

pub use benches::Bench;
pub use calm_devices::{CalmBench, CalmDevice};
pub use devices::{Dead, Device};
pub use sim_devices::{SimBench, SimDevice};
