// Plain data of a home: its devices, their commands, the items of a line, and the limits.
#![tactic(auto)]

pub mod commands;
pub mod device_sets;
pub mod items;
pub mod kinds;
pub mod limits;
pub mod lists;
pub mod memory;
pub mod modes;
pub mod numbers;
pub mod shared_lists;
pub mod texts;
pub mod worlds;

pub use commands::{Answer, Command, Guard, Job, Routine, View};
pub use device_sets::DeviceSet;
pub use items::Item;
pub use kinds::Kind;
pub use lists::List;
pub use memory::NoMemory;
pub use modes::{Mode, Scheduler, Visibility};
pub use numbers::{DeviceNo, RunNo, Value};
pub use shared_lists::SharedList;
pub use texts::{Bytes, Text};
pub use worlds::{Stand, World};
