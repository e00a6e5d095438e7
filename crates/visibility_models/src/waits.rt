//! For which run a model lets a run wait.
ghost use Rattle.lock_leasing.specs.Waits.{model_bars};
ghost use Rattle.std.specs.Prelude.{◌≡◌, IsTrue, None, drop};
ghost use Rattle.command_rules.specs.Items.{is_ran};
ghost use Rattle.command_rules.specs.Rosters.{is_run, runs_of};
ghost use Rattle.serial_line.specs.Marks.{front_of, items_of};
ghost use Rattle.visibility_models.specs.Models.{IsStrictWaitOf, MayAskOfModel};
ghost use Rattle.visibility_models.specs.Searches.{AreRunsOf, IsRunOf, first_unended_before, unended_run};

use crate::models::is_strict;
use command_rules::IndexedRoster;
use home_types::{Item, RunNo, Visibility};
use lock_leasing::Standing;

/// The run whose end `r` waits for under the model, before it goes on. `None` where it may go on.
///
/// Under the global model it is the first live run before `r` in the line, under the partitioned
/// one the first that shares a device with `r`; there is none under the eventual and the weak
/// model. The four parts belong to one window, and `r` is placed, neither doomed nor ended. Takes
/// no memory, and reads of the history no more than the ends of runs.
#[inline(always)]
pub fn may_go(model: Visibility, s: &Standing, r: RunNo) -> Option<RunNo>
    requires { MayAskOfModel model s.now r.0 }
    ensures wait { IsStrictWaitOf model s.now r.0 result }
    ensures weak { model ≡ Visibility.Weak → result ≡ None }
{
    if is_strict(model) {
        find_unended(model, s, r)
    } else {
        None
    }
}

/// The first run before `r` in the line that has not ended, and for which the model lets `r` wait.
/// The search begins at the first run of the line that has not ended: before it there is none.
#[tactic(auto, using(crate::proofs::Found::left_at))]
fn find_unended(model: Visibility, s: &Standing, r: RunNo) -> Option<RunNo>
    requires run { IsTrue (is_run s.now.runs r.0) }
    requires known { AreRunsOf s.now.runs (items_of s.now.line) }
    requires past { first_unended_before (model_bars model s.now.runs r.0) s.now.history r.0
        (items_of s.now.line) ≡ first_unended_before (model_bars model s.now.runs r.0) s.now.history
        r.0 (drop (front_of s.now.line) (items_of s.now.line)) }
    ensures { result ≡ first_unended_before (model_bars model s.now.runs r.0) s.now.history r.0
        (items_of s.now.line) }
{
    'items: for at in s.line.front()..s.line.len() {
        let item = s.line.get(at).unwrap();
        if is_ran(r, item) {
            return None;
        }
        if let Some(x) = unended_run(model, s, r, item) {
            return Some(x);
        }
    }
    None
}

/// Whether the item is the run.
fn is_ran(r: RunNo, item: Item) -> bool
    ensures { result ≡ is_ran r.0 item }
{
    match item {
        Item::Ran(x) => x == r,
        Item::Failed(_, _) | Item::Back(_, _) => false,
    }
}

/// The item's run, where it has not ended and the model lets `r` wait for it.
fn unended_run(model: Visibility, s: &Standing, r: RunNo, item: Item) -> Option<RunNo>
    requires run { IsTrue (is_run s.now.runs r.0) }
    requires known { IsRunOf s.now.runs item }
    ensures { result ≡ unended_run (model_bars model s.now.runs r.0) s.now.history item }
{
    match item {
        Item::Ran(x) if s.book.end_of(x).is_none() && bars(model, s.roster, r, x) => Some(x),
        _ => None,
    }
}

/// Whether `r` does not go on under the model while `x` is live before it.
fn bars(model: Visibility, roster: &IndexedRoster, r: RunNo, x: RunNo) -> bool
    requires run { IsTrue (is_run (runs_of roster.now) r.0) }
    requires other { IsTrue (is_run (runs_of roster.now) x.0) }
    ensures { result ≡ model_bars model (runs_of roster.now) r.0 x.0 }
{
    match model {
        Visibility::Global => true,
        Visibility::Partitioned => roster.shares(x, r),
        Visibility::Weak | Visibility::Eventual => false,
    }
}
