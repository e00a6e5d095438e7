// A file of slots on a disk: each slot has a gate, and a crash leaves only slots that were written
// whole.
#![tactic(auto)]

mod disks;
mod file_disks;
mod layouts;
mod memory_disks;
mod slot_files;
mod written_ranges;

pub use day_clock::Failed;
pub use disks::Disk;
pub use file_disks::FileDisk;
pub use layouts::Layout;
pub use memory_disks::MemoryDisk;
pub use slot_files::{
    Found, front_of, length_of, shut_gate, sync_first, write_group, write_synced,
};
