//! A run gives a device back to its window.
ghost use Rattle.hub_core.specs.HubCalls.{IsGiven, SameWindow};

use crate::open_windows::OpenWindow;
use device_gate::{Done, Grip, Stranger};
use device_states::Device;
use history_book::Made;

impl<D: Device> OpenWindow<D> {
    /// Takes the device of a run's grip home, at this moment, in ms, or at the last one where that
    /// is later.
    ///
    /// Answers the entries that it makes: the command's answer, for a read with the value found,
    /// and the doom of a run whose must `check` found another value; or that the run's write is
    /// undone. A grip that is not the one with which its device is out, or that is the detector's,
    /// comes back with a `Stranger`, and nothing changes. Takes no memory.
    #[inline(always)]
    pub(crate) fn give(
        &mut self,
        grip: Grip<D, Done>,
        moment: u64,
    ) -> Result<Made, (Grip<D, Done>, Stranger)>
        ensures given { IsGiven self.old grip moment result self.new }
        ensures window { SameWindow self.old self.new }
    {
        if grip.slip().maker == 0 || !self.checkouts.gate.is_kept(&grip) {
            let stranger = self.checkouts.gate.stranger(&grip);
            return Err((grip, stranger));
        }
        Ok(self.come_home(grip, moment))
    }
}
