//! The entries of a window while it is open.
ghost use Rattle.std.specs.Prelude.{◌≡◌, length, slice_get};

use crate::hubs::Hub;
use device_states::Device;
use history_book::Kept;

impl<D: Device> Hub<D> {
    /// How many entries the history of the window has so far.
    pub fn entry_count(&self) -> u64
        ensures { result ≡ length self.now.history }
    {
        self.window.history.book().len()
    }

    /// The entry at this place of the history, counted from 0, `None` from `entry_count` on.
    pub fn entry(&self, at: u64) -> Option<Kept>
        ensures { result ≡ slice_get self.now.history at }
    {
        self.window.history.book().get(at)
    }
}
