//! The replay of a script's day.
ghost use Rattle.std.specs.Prelude.{◌≡◌, ◌+◌, ◌<◌, ◌≤◌, Err, IfErr, IfOk, IsTrue, length};
ghost use Rattle.home_types.specs.Limits.{most_windows};
ghost use Rattle.hub_commands.specs.Days.{plain};
ghost use Rattle.hub_commands.specs.Finishes.{DayEnds, written};
ghost use Rattle.hub_commands.specs.Going.{IsLastOf, PlaysOneMore};
ghost use Rattle.hub_commands.specs.Played.{IsWorkedAs};
ghost use Rattle.hub_commands.specs.Statuses.{status_for_fault};
ghost use Rattle.hub_commands.specs.Ways.{IsReplayOf};
ghost use Rattle.hub_core.specs.OpenHubs.{configuration_of};
ghost use Rattle.hub_core.specs.Openings.{is_mode};
ghost use Rattle.hub_core.specs.Steps.{opened};
ghost use Rattle.routine_reader.specs.Rosters.{kinds_of};
ghost use Rattle.routine_reader.specs.Scripts.{plain_script};
ghost use Rattle.routine_reader.specs.Sound.{IsSound};

use crate::days::{begin, end, go_on};
use crate::finishes::Finish;
use crate::plays::{DayUnderWay, UntoldDay, close_next, open_next};
use crate::told_windows::ToldWindow;
use crate::ways::StepByStep;
use command_words::Options;
use day_clock::Sink;
use device_states::{Bench, Device};
use history_book::WindowRecord;
use home_types::{List, Mode, NoMemory};
use hub_core::{Home, Hub};
use routine_reader::{Script, WindowText};
use run_replay::replay_window;
use std::alloc::Global;

/// Replays the window of this text, which was just opened. Where memory is wanted the hub is
/// dropped.
fn replay_opened<D: Device>(
    alloc: Global,
    hub: Hub<D>,
    window: &WindowText,
) -> Result<(Home<D>, WindowRecord), NoMemory>
    requires fresh { configuration_of hub ≡ opened hub.setting hub.rounds }
    requires rounds { hub.rounds ≡ window.now.probes }
    ensures { IfOk result (λ done. IsWorkedAs IsReplayOf D.shows hub window.now done.0 done.1) }
{
    let turns = window.turns.as_slice();
    match replay_window(alloc, hub, turns, window.seed, window.probes) {
        Ok(done) => Ok(done),
        Err((hub, NoMemory)) => {
            drop(hub);
            Err(NoMemory)
        }
    }
}

/// Replays the next window of the script, by its turns and its seed. So many windows of the script
/// went before the day.
///
/// Where memory is wanted the windows before come back; the home is dropped.
pub fn replay_next<D: Device>(
    alloc: Global,
    script: &Script,
    mode: Mode,
    before: u32,
    day: DayUnderWay<D>,
) -> Result<UntoldDay<D>, List<ToldWindow>>
    requires sound { IsSound (plain_script script.now) }
    requires goes { IsTrue (is_mode mode) }
    requires next { before + length day.windows.items < length script.now.windows.items }
    requires kinds { day.home.kinds ≡ kinds_of script.now }
    requires few { day.home.opened ≤ most_windows }
    ensures played { IfOk result
        (λ next. PlaysOneMore IsReplayOf D.shows script.now before mode day next) }
    ensures more { IfOk result (λ next. length next.windows.items ≡ length day.windows.items + 1) }
    ensures last { IfOk result (λ next. IsLastOf next.closed next.windows.items) }
    ensures kinds { IfOk result (λ next. next.home.kinds ≡ day.home.kinds) }
    ensures starved { IfErr result (λ windows. windows.items ≡ day.windows.items) }
{
    match open_next(alloc, script, mode, before, day) {
        Ok((hub, window, windows)) => close_next(windows, replay_opened(alloc, hub, window)),
        Err(windows) => Err(windows),
    }
}

/// Replays the script's day on devices of the bench, and writes its record: the head, each window
/// as it closes, and the total.
pub fn replay_day<K: Sink, B: Bench>(
    alloc: Global,
    script: &Script,
    options: Options,
    sink: &mut K,
    bench: &mut B,
) -> Finish<B::Dev>
    requires sound { IsSound (plain_script script.now) }
    requires goes { IsTrue (is_mode options.mode) }
    ensures status { result.status ≡ status_for_fault result.fault }
    ensures ends { DayEnds IsReplayOf B.Dev.shows plain script.now options
        (written (K.holds sink.old) (K.holds sink.new) (K.faults sink.old) (K.faults sink.new))
        result.day result.fault }
{
    let mut day = match begin(&StepByStep, alloc, script, options, sink, bench) {
        Ok(day) => day,
        Err(finish) => return finish,
    };
    'windows: for _ in 0..script.windows.len() {
        let next = replay_next(alloc, script, options.mode, 0, day);
        day = match go_on(&StepByStep, alloc, script, options, 0, next, sink) {
            Ok(day) => day,
            Err(finish) => return finish,
        };
    }
    end(&StepByStep, alloc, options, day, sink)
}
