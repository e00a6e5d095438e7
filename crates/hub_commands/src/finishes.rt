//! What a call hands back: its source, its sink, the day, and the fault.
use crate::faults::Fault;
use crate::told_windows::ToldWindow;
use device_states::Device;
use home_types::List;

/// How a top call ended.
#[derive(Drop)]
pub struct Finish<Dev: Device> {
    /// The status with which the program ends.
    pub status: u8,
    /// The day, once the script is read; of `keep` once the journal is open.
    pub day: Option<Day<Dev>>,
    /// Why the status is not 0; none exactly at 0.
    pub fault: Option<Fault>,
}

/// What came of a day.
#[derive(Drop)]
pub struct Day<Dev: Device> {
    /// The windows that were closed, in order: their counts, and in clauses their records.
    pub windows: List<ToldWindow>,
    /// The devices of the home as they were left, by their numbers; there exactly at the statuses
    /// 0, 4 and 9.
    pub devices: Option<List<Dev>>,
}
