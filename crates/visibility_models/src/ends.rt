//! For which device a strict model aborts a run at its end.
ghost use Rattle.std.specs.Prelude.{◌≡◌, IsTrue, None, option_map, true};
ghost use Rattle.command_rules.specs.Rosters.{device_no, is_run};
ghost use Rattle.home_types.specs.declared.items.Item.TheVariants.{Ran};
ghost use Rattle.serial_line.specs.Marks.{stands};
ghost use Rattle.visibility_models.specs.Models.{IsDownAtEndOf, MayAskOfModel};
ghost use Rattle.visibility_models.specs.Searches.{first_down_for};

use crate::models::is_strict;
use home_types::{DeviceNo, RunNo, Visibility};
use lock_leasing::Standing;

/// The device for which `r`, all of whose commands are answered, is aborted under the model. `None`
/// where it commits.
///
/// Under the two strict models it is the smallest device that `r` has touched and that is counted
/// down; there is none under the eventual and the weak model. The four parts belong to one window,
/// and `r` is placed, neither doomed nor ended. Takes no memory, and reads nothing of the history.
pub fn down_at_end(model: Visibility, s: &Standing, r: RunNo) -> Option<DeviceNo>
    requires { MayAskOfModel model s.now r.0 }
    ensures down { IsDownAtEndOf model s.now r.0 result }
    ensures weak { model ≡ Visibility.Weak → result ≡ None }
{
    if is_strict(model) {
        find_down(s, r)
    } else {
        None
    }
}

/// The smallest device that `r` has touched and that is counted down.
#[tactic(auto, using(crate::proofs::Found::range_left))]
fn find_down(s: &Standing, r: RunNo) -> Option<DeviceNo>
    requires run { IsTrue (is_run s.now.runs r.0) }
    requires placed { stands (Ran r) s.now.line ≡ true }
    ensures { result ≡ option_map device_no (first_down_for s.now.table s.now.line s.now.runs r.0) }
{
    'devices: for d in 0..s.table.devices() {
        let device = DeviceNo(d as u16);
        if !s.table.is_up(device) && s.roster.touches(r, device) && s.line.touched(r, device) {
            return Some(device);
        }
    }
    None
}
