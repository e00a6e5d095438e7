//! A device comes home from a run, with what it told.
ghost use Rattle.std.specs.Prelude.{false, true, ◌<◌, ◌≡◌};
ghost use Rattle.device_gate.specs.Calls.{has_died};
ghost use Rattle.device_gate.specs.Places.{IsKept};
ghost use Rattle.lock_leasing.specs.Configurations.{is_undo};
ghost use Rattle.hub_core.specs.HubCalls.{IsGiven, SameWindow};
ghost use Rattle.window_devices.specs.KnownDevices.{progress_at};

use crate::changes::{doom_for, note_answer};
use crate::failures::note_fall;
use crate::open_windows::OpenWindow;
use device_gate::{Done, Grip};
use device_states::Device;
use history_book::{Entry, Made, died_by, one_made, refuted};
use home_types::{Answer, RunNo, View};
use lock_leasing::Purpose;

impl<D: Device> OpenWindow<D> {
    /// The device of a run's grip comes home.
    ///
    /// Most were called for a command, and the call worked: that is looked at before the other
    /// cases.
    #[inline(always)]
    pub(crate) fn come_home(&mut self, grip: Grip<D, Done>, moment: u64) -> Made
        requires kept { IsKept self.old.places grip.slip grip.task }
        requires maker { 0 < grip.slip.maker }
        ensures given { IsGiven self.old grip moment (Ok result) self.new }
        ensures window { SameWindow self.old self.new }
    {
        let died = grip.told().died();
        match self.checkouts.known(grip.slip().device).purpose {
            Purpose::Commands(k) if !died => self.answer_lived(grip, moment, k),
            // The entries are taken apart, so that those of a call that worked need no place in
            // memory.
            _ => {
                let Made { a, b, c } = self.come_home_by_case(grip, moment);
                Made { a, b, c }
            }
        }
    }

    /// The device of a run's grip comes home, by the cases of what it was for and what it told.
    #[inline(never)]
    fn come_home_by_case(&mut self, grip: Grip<D, Done>, moment: u64) -> Made
        requires kept { IsKept self.old.places grip.slip grip.task }
        requires maker { 0 < grip.slip.maker }
        ensures given { IsGiven self.old grip moment (Ok result) self.new }
        ensures window { SameWindow self.old self.new }
    {
        let died = grip.told().died();
        match self.checkouts.known(grip.slip().device).purpose {
            Purpose::Commands(k) if died => self.answer_died(grip, moment, k),
            Purpose::Commands(k) => self.answer_lived(grip, moment, k),
            Purpose::Undoes(_) if died => self.undo_died(grip, moment),
            Purpose::Undoes(_) => self.undo_lived(grip, moment),
            // The detector's grip is no run's.
            Purpose::Probes(_) => unreachable!(),
        }
    }

    /// The call of the run's command with the number `k` worked: the command is answered, and where
    /// it is a must `check` that found another value the run is doomed.
    #[inline(always)]
    fn answer_lived(&mut self, grip: Grip<D, Done>, moment: u64, k: u32) -> Made
        requires kept { IsKept self.old.places grip.slip grip.task }
        requires maker { 0 < grip.slip.maker }
        requires purpose { (progress_at self.old.devices grip.slip.device.0).purpose
            ≡ Purpose.Commands k }
        requires lives { has_died grip.stage.told ≡ false }
        ensures given { IsGiven self.old grip moment (Ok result) self.new }
        ensures window { SameWindow self.old self.new }
    {
        let slip = grip.slip();
        let d = slip.device;
        let r = RunNo(slip.maker);
        let came = self.checkouts.come_home(grip);
        self.moment = self.moment.max(moment);
        let answer = came.told.answer();
        let cause = refuted(&self.history, r, k, answer);
        let entry = Entry::Did(r, k, answer);
        self.history.push(r.0, entry);
        note_answer(&self.history, &mut self.order, r, k, d, answer, came.held);
        let doomed = doom_for(&mut self.history, &mut self.order, r, cause);
        Made {
            a: Some(entry),
            b: doomed,
            c: None,
        }
    }

    /// The call of the run's command with the number `k` died: its device fails, the command is
    /// answered `Down`, and the run is doomed where it cannot go on so.
    fn answer_died(&mut self, grip: Grip<D, Done>, moment: u64, k: u32) -> Made
        requires kept { IsKept self.old.places grip.slip grip.task }
        requires maker { 0 < grip.slip.maker }
        requires purpose { (progress_at self.old.devices grip.slip.device.0).purpose
            ≡ Purpose.Commands k }
        requires died { has_died grip.stage.told ≡ true }
        ensures given { IsGiven self.old grip moment (Ok result) self.new }
        ensures window { SameWindow self.old self.new }
    {
        let slip = grip.slip();
        let d = slip.device;
        let r = RunNo(slip.maker);
        let came = self.checkouts.come_home(grip);
        self.moment = self.moment.max(moment);
        let first = self.order.is_first(d, r);
        let cause = died_by(&self.history, r, k, first);
        let fell = note_fall(
            &mut self.history,
            &mut self.order,
            slip.maker,
            d,
            came.events.fell,
            first.then_some(r),
        );
        let entry = Entry::Did(r, k, Answer::Down);
        self.history.push(r.0, entry);
        note_answer(
            &self.history,
            &mut self.order,
            r,
            k,
            d,
            Answer::Down,
            came.held,
        );
        let doomed = doom_for(&mut self.history, &mut self.order, r, cause);
        Made {
            a: Some(fell.entry),
            b: Some(entry),
            c: doomed,
        }
    }

    /// The drive that undoes a run's write worked.
    fn undo_lived(&mut self, grip: Grip<D, Done>, moment: u64) -> Made
        requires kept { IsKept self.old.places grip.slip grip.task }
        requires maker { 0 < grip.slip.maker }
        requires purpose { is_undo
            (progress_at self.old.devices grip.slip.device.0).purpose ≡ true }
        requires lives { has_died grip.stage.told ≡ false }
        ensures given { IsGiven self.old grip moment (Ok result) self.new }
        ensures window { SameWindow self.old self.new }
    {
        let slip = grip.slip();
        self.checkouts.come_home(grip);
        self.moment = self.moment.max(moment);
        let entry = Entry::Undid(RunNo(slip.maker), slip.device, true);
        self.history.push(slip.maker, entry);
        one_made(entry)
    }

    /// The drive that undoes a run's write died: its device fails, and the write is dropped.
    fn undo_died(&mut self, grip: Grip<D, Done>, moment: u64) -> Made
        requires kept { IsKept self.old.places grip.slip grip.task }
        requires maker { 0 < grip.slip.maker }
        requires purpose { is_undo
            (progress_at self.old.devices grip.slip.device.0).purpose ≡ true }
        requires died { has_died grip.stage.told ≡ true }
        ensures given { IsGiven self.old grip moment (Ok result) self.new }
        ensures window { SameWindow self.old self.new }
    {
        let slip = grip.slip();
        let d = slip.device;
        let came = self.checkouts.come_home(grip);
        self.moment = self.moment.max(moment);
        let fell = note_fall(
            &mut self.history,
            &mut self.order,
            slip.maker,
            d,
            came.events.fell,
            None,
        );
        let entry = Entry::Undid(RunNo(slip.maker), d, false);
        self.history.push(slip.maker, entry);
        Made {
            a: Some(fell.entry),
            b: Some(entry),
            c: None,
        }
    }
}
