//! A hub: an open window with the marks of its blocked runs, and what is asked of it.
ghost use Rattle.std.specs.Prelude.{IfErr, IfOk, IsTrue, None, Some, [], false, length, slice_get, take, true, ℕ, ◌↔◌, ◌≡◌, ◌≤◌};
ghost use Rattle.history_book.specs.Histories.{entries_of, line_of};
ghost use Rattle.history_book.specs.Sealed.{BeginsWithSealed, sealed_of};
ghost use Rattle.history_book.specs.Settings.{is_weak};
ghost use Rattle.blocked_runs.specs.RunBits.{has_run};
ghost use Rattle.hub_core.specs.BlockedRuns.{IsBlocked};
ghost use Rattle.hub_core.specs.Bounds.{IsBounded};
ghost use Rattle.hub_core.specs.HubCalls.{HubStands, SomeRunMoves, WindowIsClosed, grip_takes, is_past};
ghost use Rattle.legal_days.specs.LegalWindows.{history_of};
ghost use Rattle.hub_core.specs.OpenHubs.{configuration_of};
ghost use Rattle.hub_core.specs.Steps.{not_quiet, opened};
ghost use Rattle.lineage_table.specs.Accesses.{IsDisciplined};
ghost use Rattle.lineage_table.specs.Lineages.{accesses_at};
ghost use Rattle.lock_leasing.specs.Configurations.{point_of};
ghost use Rattle.lock_leasing.specs.Tables.{Represents};

use crate::homes::Home;
use crate::open_windows::OpenWindow;
use crate::refusals::NotQuiet;
use blocked_runs::BlockedRuns;
use device_states::Device;
use history_book::WindowRecord;
use home_types::{DeviceNo, Item, RunNo};
use lineage_table::Table;
use lock_leasing::Purpose;
use std::marker::Model;
use timeline_scheduler::Scratch;

/// An open window.
///
/// Contracts see what is fixed, its history, its last moment, what it knows of each device, and the
/// places of the devices. The type keeps that these agree, that each run which is marked as blocked
/// waits at every moment, and that the scratch is for the devices of the home and for the items
/// that the line may have.
#[derive(Drop)]
pub struct Hub<D: Device> {
    pub(crate) window: OpenWindow<D>,
    pub(crate) blocked: BlockedRuns,
    /// For the places of the timeline.
    pub(crate) scratch: Scratch,
}

impl<D: Device> Model for Hub<D> {
    ghost use Rattle.hub_core.specs.OpenHubs.{OpenHub, configuration_of};
    ghost use Rattle.hub_core.specs.PlannedPlaces.{PartsFit};

    ghost Value = { OpenHub D };

    ghost view = { λ h. h.window };

    ghost invariant = { λ h. PartsFit (configuration_of h.window) h.window.rounds
        h.blocked h.scratch };
}

impl<D: Device> Hub<D> {
    /// Does nothing. Its contract is what holds of every hub.
    pub fn kept_invariant(&self)
        ensures { HubStands D.shows self.now }
    {
        let window = &self.window;
        window.checkouts.gate.numbered();
    }

    /// Does nothing. Its contract is that a window is never stuck.
    pub fn progress(&self)
        ensures { SomeRunMoves (configuration_of self.now) }
    {
        let window = &self.window;
        let _ = &window.moment;
    }

    /// Does nothing. Its contract is how long history and line become.
    pub fn bounded(&self)
        ensures { IsBounded self.now }
    {
        self.window.whole_invariant();
    }

    /// The lineage table of the window. It has at most one access of each run on a device, under
    /// the weak model none, and outside it it represents the configuration.
    pub fn table(&self) -> &Table
        ensures represents { is_weak self.now.setting.mode ≡ false
            → Represents (point_of (configuration_of self.now)) result.now }
        ensures few { (d : ℕ) → length (accesses_at result.now d) ≤ length self.now.setting.runs }
        ensures disciplined { (d : ℕ) → IsDisciplined (accesses_at result.now d) }
        ensures bare { is_weak self.now.setting.mode ≡ true
            → (d : ℕ) → accesses_at result.now d ≡ [] }
    {
        let window = &self.window;
        window.order.table.kept_invariant();
        &window.order.table
    }

    /// Whether the run is known to wait, at every moment, until another actor makes a step that may
    /// free it. Looks at one bit. A run of which it is not known may wait too.
    pub fn is_blocked(&self, r: RunNo) -> bool
        ensures { IsTrue result → IsBlocked (configuration_of self.now) r.0 }
    {
        self.blocked.is_marked(r)
    }

    /// The runs that are known to wait, as `is_blocked` tells it, the run r as the bit r - 1.
    pub fn blocked_runs(&self) -> u64
        ensures { (r : ℕ) → has_run result r ≡ true → IsBlocked (configuration_of self.now) r }
    {
        self.blocked.marked()
    }

    /// How many items of the line are final: those before the first live run, all where none is
    /// live. They stay in their order, whatever comes, and outside the weak model the order of the
    /// window's record begins with them.
    pub fn sealed(&self) -> u32
        ensures { result ≡ sealed_of self.now.setting (entries_of self.now.history) }
    {
        let window = &self.window;
        window.order.line.sealed()
    }

    /// The item at this place of the line, counted from 0, where it is final. `None` from `sealed`
    /// on.
    pub fn final_item(&self, at: u32) -> Option<Item>
        ensures { result
            ≡ slice_get (take (sealed_of self.now.setting (entries_of self.now.history))
            (line_of self.now.setting (entries_of self.now.history))) at }
    {
        let window = &self.window;
        if at < window.order.line.sealed() {
            window.order.line.get(at)
        } else {
            None
        }
    }

    /// The last moment of the window, in ms.
    pub fn moment(&self) -> u64
        ensures { result ≡ self.now.moment }
    {
        self.window.moment
    }

    /// Whether nothing was done in the window: no entry, the last moment 0, no device out and no
    /// probe taken.
    pub fn fresh(&self) -> bool
        ensures { IsTrue result
            ↔ (configuration_of self.now ≡ opened self.now.setting self.now.rounds) }
    {
        let window = &self.window;
        if window.history.len() != 0 {
            return false;
        }
        if window.moment != 0 {
            return false;
        }
        if window.checkouts.gate.first_out().is_some() {
            return false;
        }
        window.has_all_probes()
    }

    /// How many probes of the device may still be taken, 0 for no device of the home.
    pub fn probes_left(&self, d: DeviceNo) -> u64
        ensures { result ≡ (configuration_of self.now).probes d.0 }
    {
        self.window.checkouts.known(d).probes_left as u64
    }

    /// Why the window cannot be closed: the smallest run that has not ended, else the smallest
    /// device that is out.
    pub fn quiet(&self) -> Option<NotQuiet>
        ensures { result ≡ not_quiet (configuration_of self.now) }
    {
        let window = &self.window;
        if let Some(r) = window.history.first_unended() {
            return Some(NotQuiet::StillLive(r));
        }
        match window.checkouts.gate.first_out() {
            Some(d) => Some(NotQuiet::StillOut(d)),
            None => None,
        }
    }

    /// Whether nothing is left to do for the run: the window has no such run, or it has ended.
    pub fn is_over(&self, r: RunNo) -> bool
        ensures { result ≡ is_past (configuration_of self.now) r.0 }
    {
        !self.window.history.has_run(r) || self.window.history.progress(r).ended.is_some()
    }

    /// How many runs the window has.
    pub fn run_count(&self) -> u32
        ensures { result ≡ length self.now.setting.runs }
    {
        self.window.history.run_count() as u32
    }

    /// How many devices the home has.
    pub fn device_count(&self) -> u64
        ensures { result ≡ length self.now.setting.first }
    {
        self.window.history.device_count()
    }

    /// By how many ms a replay's moment rises with the command for which the device is out. 0 where
    /// it is home, or out for an undo or a probe.
    pub fn takes(&self, d: DeviceNo) -> u32
        ensures { result ≡ grip_takes self.now.setting ((configuration_of self.now).grips d.0) }
    {
        let window = &self.window;
        let Some(slip) = window.checkouts.gate.slip(d) else {
            return 0;
        };
        match window.checkouts.known(d).purpose {
            Purpose::Commands(k) => window.history.command(RunNo(slip.maker), k).takes,
            Purpose::Undoes(_) | Purpose::Probes(_) => 0,
        }
    }

    /// Closes the window, and gives the home and the window's record.
    ///
    /// Refused where `quiet` tells why: the hub comes back as it is. Takes no memory. Outside the
    /// weak model the order of the record begins with the items that were final at each point of
    /// the window.
    pub fn close_window(self) -> Result<(Home<D>, WindowRecord), (Hub<D>, NotQuiet)>
        ensures closed { IfOk result (λ closed. WindowIsClosed D.shows self closed.0 closed.1) }
        ensures sealed { IfOk result (λ closed. is_weak self.setting.mode ≡ false
            → BeginsWithSealed self.setting (history_of closed.1) closed.1.order.items) }
        ensures quiet { IfOk result (λ closed. not_quiet (configuration_of self) ≡ None) }
        ensures same { IfErr result (λ refused. refused.0 ≡ self) }
        ensures refused { IfErr result
            (λ refused. not_quiet (configuration_of self) ≡ Some refused.1) }
    {
        if let Some(why) = self.quiet() {
            return Err((self, why));
        }
        let Hub { window, .. } = self;
        Ok(window.closed())
    }
}
