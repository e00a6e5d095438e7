//! Leases on the device of a run's next command: the run is their lender, which asks for the
//! device.
ghost use Rattle.std.specs.Prelude.{◌≡◌, Some, false};
ghost use Rattle.history_book.specs.Settings.{is_weak};
ghost use Rattle.hub_core.specs.BlockedRuns.{NeverRevokes, next_device};
ghost use Rattle.hub_core.specs.OpenHubs.{configuration_of};
ghost use Rattle.lock_leasing.specs.Configurations.{point_of};
ghost use Rattle.lock_leasing.specs.Leases.{overdue_lease};
ghost use Rattle.lock_leasing.specs.Standings.{IsAsking};

use crate::open_windows::OpenWindow;
use device_states::Device;
use home_types::{DeviceNo, RunNo, Scheduler};
use lock_leasing::{lends, overdue};

impl<D: Device> OpenWindow<D> {
    /// The run whose lease on the device is overdue for `r` at this moment, in ms, and its
    /// deadline. Where runs are served as they come none is, since each was placed before those
    /// behind it.
    #[inline(always)]
    pub(crate) fn overdue_lease(&self, r: RunNo, d: DeviceNo, moment: u64) -> Option<(RunNo, u64)>
        requires strong { is_weak self.now.setting.mode ≡ false }
        requires turn { IsAsking (configuration_of self.now) r.0 d.0 }
        ensures { result ≡ overdue_lease (point_of (configuration_of self.now)) r.0 d.0 moment }
    {
        match self.history.scheduler() {
            Scheduler::Fcfs => None,
            Scheduler::JustInTime | Scheduler::Timeline => {
                overdue(&self.standing(), r, d, moment)
            }
        }
    }

    /// Whether a lease on the device of the run's next command may become overdue for it.
    #[inline(always)]
    pub(crate) fn may_lend(&self, r: RunNo, d: DeviceNo) -> bool
        requires turn { next_device (configuration_of self.now) r.0 ≡ Some d.0 }
        ensures { result ≡ false → NeverRevokes (configuration_of self.now) r.0 d.0 }
    {
        match self.history.scheduler() {
            Scheduler::Fcfs => false,
            Scheduler::JustInTime | Scheduler::Timeline => lends(&self.standing(), r, d),
        }
    }
}
