//! A run joins the window that is open.
ghost use Rattle.std.specs.Prelude.{◌≡◌, IfErr, IfOk, None};
ghost use Rattle.home_states.specs.DraftRefusals.{CannotJoin, first_against_joining};
ghost use Rattle.home_states.specs.Joinings.{HasJoinedBoth};
ghost use Rattle.home_states.specs.LiveHomes.{IsWindowOf};
ghost use Rattle.routine_reader.specs.Scripts.{plain_script};
ghost use Rattle.routine_reader.specs.Sound.{IsSound};

use crate::drafts::not_added;
use crate::refusals::NotBegun;
use handed_devices::HandedDevice;
use home_types::RunNo;
use hub_table::Table;
use live_scripts::LiveScript;

/// A run of the routine joins the window of the script with this number, which is open: the
/// script's window where it is the last one, and the open one, both with the same number, which is
/// answered.
///
/// The script is looked at first, and changed last, so a refusal leaves both as they were.
pub(crate) fn join_in(
    script: &mut LiveScript,
    number: u32,
    table: &mut Table<HandedDevice>,
    routine: u32,
    follows: Option<RunNo>,
) -> Result<RunNo, NotBegun>
    requires own { IsWindowOf script.old table.old.setting.mode number table.old.setting }
    ensures joined { IfOk result (λ r. HasJoinedBoth script.old number table.old routine follows r.0
        script.new table.new) }
    ensures free { IfOk result
        (λ _. first_against_joining script.old number routine follows ≡ None) }
    ensures refused { IfErr result (λ why. CannotJoin script.old number routine follows why) }
    ensures sound { IfOk result (λ _. IsSound (plain_script script.new)) }
    ensures same_script { IfErr result (λ _. script.new ≡ script.old) }
    ensures same_window { IfErr result (λ _. table.new ≡ table.old) }
{
    if script.script().windows.len() != number as u64 + 1 {
        return Err(NotBegun::NoDraft);
    }
    let run = match script.next_run(routine, follows) {
        Ok(run) => run,
        Err(why) => return Err(not_added(why)),
    };
    if table.add_run(run).is_err() {
        return Err(NotBegun::NoMemory);
    }
    match script.add_run(routine, follows) {
        Ok(run) => {
            // its contract says that the script is sound still
            let _script = script.script();
            Ok(run)
        }
        Err(_) => unreachable!(),
    }
}
