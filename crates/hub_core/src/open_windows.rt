//! An open window: its parts, and what is asked of them.
ghost use Rattle.std.specs.Prelude.{IfSome, IsTrue, None, false, length, option_map, ℕ, ◌-◌, ◌<◌, ◌↔◌, ◌≡◌};
ghost use Rattle.command_rules.specs.Rosters.{command_at, commands_of, is_run};
ghost use Rattle.history_book.specs.Settings.{is_weak};
ghost use Rattle.hub_core.specs.BlockedRuns.{IsPlacedLast, next_device};
ghost use Rattle.hub_core.specs.HubsKept.{HubIsKept};
ghost use Rattle.hub_core.specs.MarkedRuns.{HoldsStill, IsAnswerAlone, is_out_for_command};
ghost use Rattle.hub_core.specs.OpenHubs.{configuration_of};
ghost use Rattle.window_devices.specs.KnownDevices.{progress_at};
ghost use Rattle.lock_leasing.specs.Configurations.{read_of};
ghost use Rattle.lock_leasing.specs.Standings.{IsStandingOf};

use device_states::Device;
use history_book::{Entry, Made, ReadHistory};
use home_types::{DeviceNo, Item, List, RunNo, Stand};
use lock_leasing::{Purpose, Standing};
use std::marker::Model;
use window_devices::Checkouts;
use window_order::OrderState;

/// The lists that closing a window fills: empty, each with room for every device, but for the
/// order.
#[derive(Drop)]
pub(crate) struct ClosingLists {
    /// For the order of the record, with room for each item that the line may have.
    pub(crate) order: List<Item>,
    /// For the state of the record.
    pub(crate) last: List<Stand>,
    /// For the state of the home.
    pub(crate) world: List<Stand>,
    pub(crate) turns: List<u64>,
    pub(crate) faults: List<u64>,
}

/// The parts of an open window, and its steps; a hub is this with the runs that are blocked.
///
/// Contracts see what is fixed, its history, its last moment, what it knows of each device, and the
/// places of the devices. The type keeps that these agree.
#[derive(Drop)]
pub(crate) struct OpenWindow<D: Device> {
    pub(crate) history: ReadHistory,
    pub(crate) order: OrderState,
    pub(crate) rounds: u32,
    pub(crate) opened: u32,
    pub(crate) moment: u64,
    pub(crate) checkouts: Checkouts<D>,
    pub(crate) closing: ClosingLists,
}

impl<D: Device> Model for OpenWindow<D> {
    ghost use Rattle.hub_core.specs.HubsKept.{IsWhole, open_of};
    ghost use Rattle.hub_core.specs.OpenHubs.{OpenHub};

    ghost Value = { OpenHub D };

    ghost view = { open_of };

    ghost invariant = { IsWhole D.shows };
}

impl<D: Device> OpenWindow<D> {
    /// Does nothing. Its contract is what is kept of every window.
    pub(crate) fn whole_invariant(&self)
        ensures { HubIsKept D.shows self.now }
    {
        let _ = &self.moment;
    }

    /// Table, line, history and roster of the window, outside the weak model.
    pub(crate) fn standing(&self) -> Standing<'_>
        requires strong { is_weak self.now.setting.mode ≡ false }
        ensures { IsStandingOf (configuration_of self.now) result }
    {
        self.order.table.kept_invariant();
        Standing {
            table: &self.order.table,
            line: &self.order.line,
            book: self.history.book(),
            roster: self.history.indexed_roster(),
        }
    }

    /// Whether the window is one of the weak model.
    pub(crate) fn is_weak(&self) -> bool
        ensures { result ≡ is_weak self.now.setting.mode }
    {
        self.history.is_weak()
    }

    /// Whether a step has placed a run at the end of the line, and made no other entry.
    #[inline(always)]
    pub(crate) fn is_placed_last(&self, made: &Made) -> bool
        ensures { IsTrue result
            → IsPlacedLast (read_of (configuration_of self.now)) made.now }
    {
        match *made {
            Made {
                a: Some(Entry::Placed(_, at, _)),
                b: None,
                c: None,
            } => self.order.line.len() as u64 == at as u64 + 1,
            _ => false,
        }
    }

    /// Whether no probe of a device was taken.
    pub(crate) fn has_all_probes(&self) -> bool
        ensures { IsTrue result ↔ ((d : ℕ) → d < length self.now.devices
            → (progress_at self.now.devices d).probes_left ≡ self.now.rounds) }
    {
        let known = self.checkouts.known.as_slice();
        known.iter().all(|device| device.probes_left == self.rounds)
    }

    /// Whether the device is out for a command.
    #[inline(always)]
    pub(crate) fn is_out_for_command(&self, d: DeviceNo) -> bool
        ensures { result ≡ is_out_for_command (configuration_of self.now) d.0 }
    {
        if self.checkouts.gate.slip(d).is_none() {
            return false;
        }
        match self.checkouts.known(d).purpose {
            Purpose::Commands(_) => true,
            Purpose::Undoes(_) | Purpose::Probes(_) => false,
        }
    }

    /// The device of the run's next command, where the run is at one: it is live, not doomed, and
    /// holds no grip.
    #[inline(always)]
    pub(crate) fn next_device(&self, r: RunNo) -> Option<DeviceNo>
        ensures { option_map (λ d. d.0) result ≡ next_device (configuration_of self.now) r.0 }
    {
        if !self.history.has_run(r) {
            return None;
        }
        if !self.history.is_going(r) {
            return None;
        }
        if self.grip_of(r).is_some() {
            return None;
        }
        match self.history.next_command(r) {
            Some(command) => Some(command.device),
            None => None,
        }
    }

    /// The run and the command that a step has answered on the device, where it made no other
    /// entry.
    #[inline(always)]
    pub(crate) fn answer_alone(&self, d: DeviceNo, made: &Made) -> Option<(RunNo, u32)>
        ensures { IfSome result
            (λ told. IsAnswerAlone self.now.setting told.0 told.1 d.0 made.now) }
    {
        let Made {
            a: Some(Entry::Did(r, k, _)),
            b: None,
            c: None,
        } = *made
        else {
            return None;
        };
        let device = self.history.device_of(r, k)?;
        if device == d { Some((r, k)) } else { None }
    }

    /// Whether the run, which was answered last on the device, at its command with the number `k`,
    /// holds it still: it is not doomed and has a later command there.
    #[inline(always)]
    pub(crate) fn holds_still(&self, r: RunNo, k: u32, d: DeviceNo) -> bool
        requires run { IsTrue (is_run self.now.setting.runs r.0) }
        requires there { k < length (commands_of self.now.setting.runs r.0) }
        requires device { (command_at self.now.setting.runs r.0 k).device.0 ≡ d.0 }
        ensures { IsTrue result → HoldsStill (configuration_of self.now) r.0 k d.0 }
    {
        self.history.is_going(r)
            && self.history.progress(r).answered == k as u64 + 1
            && !self.history.is_done(r, k, d)
    }
}
