//! For what a run is doomed by the answer to one of its commands.
ghost use Rattle.std.specs.Prelude.{IsTrue, None, Some, if◌then◌else◌, length, ◌<◌, ◌||◌, ◌≡◌};
ghost use Rattle.command_rules.specs.Rosters.{commands_of, is_run};
ghost use Rattle.history_book.specs.ReadHistories.{read_in};
ghost use Rattle.history_book.specs.Settings.{is_weak};
ghost use Rattle.history_book.specs.Causes.{died_by, refuted_by};

use crate::entries::Cause;
use crate::read_histories::ReadHistory;
use home_types::{Answer, Job, RunNo};

/// For what the run is doomed with this answer to its command with the number `k`: a must `check`
/// that found another value. A run that is doomed already is not doomed again.
#[inline(always)]
pub fn refuted(history: &ReadHistory, r: RunNo, k: u32, answer: Answer) -> Option<Cause>
    requires run { IsTrue (is_run history.now.setting.runs r.0) }
    requires there { k < length (commands_of history.now.setting.runs r.0) }
    ensures { result ≡ refuted_by history.now.setting (read_in history.now) r.0 k answer }
{
    let command = history.command(r, k);
    match (command.job, answer) {
        (Job::Check(wanted), Answer::Found(found)) => {
            if command.must && found != wanted && history.progress(r).doomed.is_none() {
                Some(Cause::Refuted(k, found))
            } else {
                None
            }
        }
        _ => None,
    }
}

/// For what the run is doomed whose command with the number `k` died, the first one on its device
/// or a later one. A run that is doomed already is not doomed again. Under the weak model a later
/// one counts as a first one.
pub fn died_by(history: &ReadHistory, r: RunNo, k: u32, first: bool) -> Option<Cause>
    requires run { IsTrue (is_run history.now.setting.runs r.0) }
    requires there { k < length (commands_of history.now.setting.runs r.0) }
    ensures { result ≡ died_by history.now.setting (read_in history.now) r.0 k
        (first || is_weak history.now.setting.mode) }
{
    if history.progress(r).doomed.is_some() {
        return None;
    }
    let command = history.command(r, k);
    if first || history.is_weak() {
        must_down(k, command.must)
    } else {
        Some(Cause::Lost(command.device))
    }
}

/// For what a run is doomed whose command with the number `k`, a must or not, is answered `Down`.
pub fn must_down(k: u32, must: bool) -> Option<Cause>
    ensures { result ≡ (if must then Some (Cause.MustDown k) else None) }
{
    if must { Some(Cause::MustDown(k)) } else { None }
}
