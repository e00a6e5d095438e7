//! The command `trial`: a day that is made of a number is played, and its record is checked.
ghost use Rattle.std.specs.Prelude.{◌≡◌, ◌≢◌, ◌≤◌, [], None, Some, false, length};
ghost use Rattle.day_report.specs.Days.{day_text};
ghost use Rattle.home_types.specs.Limits.{most_windows};
ghost use Rattle.hub_commands.specs.Finishes.{written};
ghost use Rattle.hub_commands.specs.Statuses.{status_for_fault};
ghost use Rattle.hub_commands.specs.Trials.{HasJudged, TrialEnds, agreeing, finding, trial_mode};
ghost use Rattle.legal_days.specs.LegalDays.{RecordsAreLegal};
ghost use Rattle.order_checker.specs.declared.verdicts.Verdict.TheVariants.{Agrees};
ghost use Rattle.routine_reader.specs.Scripts.{plain_script};
ghost use Rattle.routine_reader.specs.Sound.{IsSound};
ghost use Rattle.trial_scripts.specs.TrialScripts.{trial_script};

use crate::days::{end_with_line, refuse, starve};
use crate::faults::Fault;
use crate::finishes::{Day, Finish};
use crate::replays::replay_day;
use crate::told_windows::{ends_told, small_times};
use command_words::Options;
use day_clock::{BytesSink, Sink};
use day_report::trial_text;
use device_states::{Bench, Device};
use home_types::{List, Mode, Scheduler, Visibility};
use order_checker::{Verdict, check_record};
use routine_reader::Script;
use std::alloc::Global;
use trial_scripts::trial_script;

/// How the day of a trial is played.
const OPTIONS: Options = Options {
    mode: Mode {
        model: Visibility::Eventual,
        scheduler: Scheduler::Fcfs,
    },
    trace: false,
};

/// No window of a trial has a longer text, in bytes: 64 lines of runs, and those of the window, the
/// order and the home. Nor has the head with the total.
const WINDOW_BYTES: u64 = 8192;

/// How many windows agree, of so many: those before the first that differs, or all.
fn agreeing(verdict: Verdict, windows: u64) -> u64
    ensures { result ≡ agreeing verdict windows }
{
    match verdict {
        Verdict::Agrees => windows,
        Verdict::Differs { window, .. } => u64::from(window).saturating_sub(1),
    }
}

/// Judges the record of the trial's day, and writes the line of the trial.
fn judge_day<K: Sink, Dev: Device>(
    alloc: Global,
    number: u32,
    script: &Script,
    day: Day<Dev>,
    text: &[u8],
    sink: &mut K,
) -> Finish<Dev>
    requires sound { IsSound (plain_script script.now) }
    requires count { length day.windows.items ≡ length script.now.windows.items }
    requires legal { RecordsAreLegal script.now trial_mode day.windows.items }
    requires text { text.now ≡ day_text script.now day.windows.items trial_mode false }
    ensures status { result.status ≡ status_for_fault result.fault }
    ensures agrees { finding script.now day ≡ Agrees }
    ensures judged { HasJudged number script.now
        (written (K.holds sink.old) (K.holds sink.new) (K.faults sink.old) (K.faults sink.new))
        day result.day result.fault }
    ensures given { result.day ≢ None }
{
    small_times(day.windows.as_slice());
    let Ok(verdict) = check_record(alloc, script, text) else {
        return starve(Some(day));
    };
    let agree = agreeing(verdict, day.windows.len());
    let ends = ends_told(day.windows.as_slice());
    let line = trial_text(alloc, number, day.windows.len(), ends, agree);
    end_with_line(sink, line, Some(day))
}

/// Plays the day of this script on devices of the bench, checks its record, and writes the line of
/// the trial.
fn play_script<K: Sink, B: Bench>(
    alloc: Global,
    number: u32,
    script: &Script,
    mut text: BytesSink,
    sink: &mut K,
    bench: &mut B,
) -> Finish<B::Dev>
    requires sound { IsSound (plain_script script.now) }
    requires made { plain_script script.now ≡ trial_script number }
    requires empty { text.held ≡ [] }
    ensures status { result.status ≡ status_for_fault result.fault }
    ensures ends { TrialEnds B.Dev.shows number
        (written (K.holds sink.old) (K.holds sink.new) (K.faults sink.old) (K.faults sink.new))
        result.day result.fault }
    ensures given { result.day ≢ None }
{
    let Finish { day, fault, .. } = replay_day(alloc, script, OPTIONS, &mut text, bench);
    match (day, fault) {
        (Some(day), None) => judge_day(alloc, number, script, day, text.held(), sink),
        (day, _) => starve(day),
    }
}

/// Makes the script of this number, plays its day step by step on devices of the bench, checks the
/// whole record, and writes one line: the counts of the day, and how many of its windows agree.
///
/// The record is held in memory, and handed to nobody.
pub fn play_trial<K: Sink, B: Bench>(
    alloc: Global,
    number: u32,
    sink: &mut K,
    bench: &mut B,
) -> Finish<B::Dev>
    requires least { 1 ≤ number }
    requires most { number ≤ most_windows }
    ensures status { result.status ≡ status_for_fault result.fault }
    ensures ends { TrialEnds B.Dev.shows number
        (written (K.holds sink.old) (K.holds sink.new) (K.faults sink.old) (K.faults sink.new))
        result.day result.fault }
    ensures unasked { result.day ≡ None → bench.new ≡ bench.old }
{
    let room = (u64::from(number) + 1) * WINDOW_BYTES;
    let Ok(text) = BytesSink::new(alloc, room, List::new(alloc), u64::MAX) else {
        return refuse(Fault::Memory);
    };
    let Ok(script) = trial_script(alloc, number) else {
        return refuse(Fault::Memory);
    };
    play_script(alloc, number, &script, text, sink, bench)
}
