//! What came of a pick.
ghost use Rattle.std.specs.Prelude.{◌≡◌};
ghost use Rattle.run_replay.specs.Replays.{has_moved, is_waiting_pick};

use history_book::Made;
use home_types::DeviceNo;
use hub_core::Why;

/// What a pick of an actor did.
#[derive(Clone, Copy, Debug, PartialEq, Eq)]
pub enum Picked {
    /// Nothing: the actor has ended or is none of the window, or the detector came to a device that
    /// is out.
    Passed,
    /// The actor made these entries.
    Made(Made),
    /// It took this device, and holds its grip.
    Took(DeviceNo),
    /// It waits.
    Waits(Why),
}

/// Whether the actor that did this waits.
#[inline(always)]
pub(crate) fn has_waited(picked: &Picked) -> bool
    ensures { result ≡ is_waiting_pick picked.now }
{
    matches!(picked, Picked::Waits(_))
}

/// Whether the actor that did this took a device, gave one back or made entries.
#[inline(always)]
pub(crate) fn has_moved(picked: &Picked) -> bool
    ensures { result ≡ has_moved picked.now }
{
    matches!(picked, Picked::Made(_) | Picked::Took(_))
}
