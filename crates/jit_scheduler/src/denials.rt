//! The first device that a run is denied, and the run that denies it.
ghost use Rattle.std.specs.Prelude.{◌≡◌, ◌<◌, ◌≤◌, IsTrue, ℕ, length, true};
ghost use Rattle.command_rules.specs.Rosters.{is_run, touches};
ghost use Rattle.home_types.specs.Limits.{most_devices};
ghost use Rattle.jit_scheduler.specs.Denials.{denier, first_denial, only_before, stands_before};
ghost use Rattle.lineage_table.specs.Lineages.{accesses_at};
ghost use Rattle.lock_leasing.specs.Holders.{holder_before};

use home_types::{DeviceNo, Item, RunNo};
use lock_leasing::{Standing, first_holder};
use serial_line::Line;

/// A device that is denied, and the run by which it is.
#[derive(Clone, Copy, Debug, PartialEq, Eq)]
pub(crate) struct Denial {
    pub device: DeviceNo,
    pub run: RunNo,
}

/// The smallest device that is denied to `r`, whose first place is `place`.
pub(crate) fn find_denial(s: &Standing, r: RunNo, place: u32) -> Option<Denial>
    requires run { IsTrue (is_run s.now.runs r.0) }
    requires few { length s.now.table ≤ most_devices }
    requires homed { (d : ℕ) → touches s.now.runs r.0 d ≡ true → d < length s.now.table }
    ensures { result ≡ first_denial s.now r.0 place }
{
    let mut from = DeviceNo(0);
    'devices: while let Some(device) = s.roster.next_device(r, from) {
        match find_denier(s, device, r, place) {
            Some(run) => return Some(Denial { device, run }),
            None => from = DeviceNo(device.0 + 1),
        }
    }
    None
}

/// The run by which the device is denied to `r`: the first one before the place that holds it,
/// else, where `r` begins on it with a read, its effective writer.
fn find_denier(s: &Standing, d: DeviceNo, r: RunNo, place: u32) -> Option<RunNo>
    requires run { IsTrue (is_run s.now.runs r.0) }
    requires device { d.0 < length s.now.table }
    ensures { result
        ≡ denier s.now.line s.now.history s.now.runs r.0 place d.0 (accesses_at s.now.table d.0) }
{
    match find_holder_before(s, d, r, place) {
        Some(x) => Some(x),
        None if s.roster.reads_first(r, d) => s.table.effective_writer(d),
        None => None,
    }
}

/// The first run that holds the device, where it stands before the place.
fn find_holder_before(s: &Standing, d: DeviceNo, r: RunNo, place: u32) -> Option<RunNo>
    requires { d.0 < length s.now.table }
    ensures { result ≡ only_before place s.now.line
        (holder_before s.now.history r.0 (accesses_at s.now.table d.0)) }
{
    let x = first_holder(s, d, r)?;
    if stands_before(s.line, x, place) {
        Some(x)
    } else {
        None
    }
}

/// Whether the run is one of the items before the place.
fn stands_before(line: &Line, x: RunNo, place: u32) -> bool
    ensures { result ≡ stands_before place line.now.marks x.0 }
{
    match line.place_of(Item::Ran(x)) {
        Some(at) => at < place,
        None => false,
    }
}
