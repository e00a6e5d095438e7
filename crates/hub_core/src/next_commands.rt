//! The run that is at its next command, as most runs are that take a step.
ghost use Rattle.std.specs.Prelude.{IfSome, None, false, max, ℕ, ◌≡◌, ◌≢◌};
ghost use Rattle.command_rules.specs.Rosters.{command_at};
ghost use Rattle.history_book.specs.Settings.{is_weak};
ghost use Rattle.hub_core.specs.Decisions.{strong_command};
ghost use Rattle.hub_core.specs.OpenHubs.{configuration_of};
ghost use Rattle.hub_core.specs.Steps.{choice_of};
ghost use Rattle.lock_leasing.specs.Configurations.{point_of, read_of};
ghost use Rattle.lock_leasing.specs.Standings.{IsAtCommand};

use crate::open_windows::OpenWindow;
use device_states::Device;
use home_types::{Command, RunNo};

impl<D: Device> OpenWindow<D> {
    /// The next command of `r`, with its number, where the step of `r` is to do what that may do.
    #[inline(always)]
    pub(crate) fn command_now(&self, r: RunNo) -> Option<(u32, Command)>
        ensures strong { IfSome result (λ _. is_weak self.now.setting.mode ≡ false) }
        ensures turn { IfSome result (λ x. IsAtCommand (configuration_of self.now) r.0 x.0) }
        ensures command { IfSome result (λ x. command_at self.now.setting.runs r.0 x.0 ≡ x.1) }
        ensures placed { IfSome result
            (λ _. ((read_of (configuration_of self.now)).run r.0).placed ≢ None) }
        ensures choice { IfSome result (λ x. (m : ℕ) → choice_of (configuration_of self.now) r.0 m
            ≡ strong_command (point_of (configuration_of self.now)) r.0 (max self.now.moment m)
            x.0 x.1) }
    {
        if self.history.is_weak() {
            return None;
        }
        if !self.history.has_run(r) {
            return None;
        }
        let progress = self.history.progress(r);
        if let Some(_) = progress.ended {
            return None;
        }
        if let Some(_) = self.grip_of(r) {
            return None;
        }
        let Some(_) = progress.arrived else {
            return None;
        };
        if progress.placed.is_none() {
            return None;
        }
        if let Some(_) = progress.doomed {
            return None;
        }
        match self.history.next_command(r) {
            Some(command) => {
                let k = self.history.next(r);
                if command.when.holds(self.history.register(r)) {
                    Some((k, command))
                } else {
                    None
                }
            }
            None => None,
        }
    }
}
