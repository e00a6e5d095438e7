//! First come first served: a run is placed at the end of the line.
ghost use Rattle.std.specs.Prelude.{◌≡◌, length};
ghost use Rattle.fcfs_scheduler.specs.Served.{IsServedAt};

use home_types::RunNo;
use lock_leasing::Standing;

/// The place in the line, counted from 0, where `r` is put when it comes: the end of the line.
///
/// Nothing is asked of the parts. Takes no memory.
pub fn place(s: &Standing, r: RunNo) -> u32
    ensures end { result ≡ length s.now.line }
    ensures served { IsServedAt s.now.line r.0 result }
{
    // it is the same place for every run
    let _ = r;
    s.line.len()
}
