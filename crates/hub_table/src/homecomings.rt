//! A grip that is out comes back to its hub.
ghost use Rattle.std.specs.Prelude.{◌≡◌, slice_set};
ghost use Rattle.device_gate.specs.Grips.{Gripped};
ghost use Rattle.device_gate.specs.Places.{IsKept};
ghost use Rattle.device_gate.specs.declared.gates.Place.{Place};
ghost use Rattle.device_gate.specs.declared.grips.Done.{Done};
ghost use Rattle.history_book.specs.Sealed.{StaysSealed};
ghost use Rattle.hub_core.specs.HubCalls.{SameWindow};
ghost use Rattle.hub_core.specs.OpenHubs.{configuration_of};
ghost use Rattle.hub_table.specs.Tables.{IsBack};
ghost use Rattle.lock_leasing.specs.Configurations.{read_of};

use device_gate::{Done, Grip, Ready};
use device_states::Device;
use history_book::Made;
use hub_core::Hub;

/// Makes the call of a grip that is out, and gives it back to its hub.
pub(crate) fn bring_home<D: Device>(hub: &mut Hub<D>, grip: Grip<D, Ready>, moment: u64) -> Made
    requires { IsKept hub.old.places grip.slip grip.task }
    ensures back { (done : Gripped D Done) × (done.slip ≡ grip.slip)
        × IsBack hub.old done moment result hub.new }
    ensures home { (device : D)
        × (hub.new.places ≡ slice_set hub.old.places grip.slip.device.0 (Place.Home device)) }
    ensures sealed { StaysSealed (read_of (configuration_of hub.old))
        (read_of (configuration_of hub.new)) }
    ensures window { SameWindow hub.old hub.new }
{
    take_home(hub, grip.act(), moment)
}

/// Gives a grip that is out, and whose call was made, back to its hub: a run's, or the detector's.
pub(crate) fn take_home<D: Device>(hub: &mut Hub<D>, done: Grip<D, Done>, moment: u64) -> Made
    requires { IsKept hub.old.places done.slip done.task }
    ensures back { IsBack hub.old done moment result hub.new }
    ensures home { (device : D)
        × (hub.new.places ≡ slice_set hub.old.places done.slip.device.0 (Place.Home device)) }
    ensures sealed { StaysSealed (read_of (configuration_of hub.old))
        (read_of (configuration_of hub.new)) }
    ensures window { SameWindow hub.old hub.new }
{
    if done.slip().maker == 0 {
        match hub.give_probe(done) {
            Ok(made) => made,
            Err((_back, _stranger)) => unreachable!(),
        }
    } else {
        match hub.give(done, moment) {
            Ok(made) => made,
            Err((_back, _stranger)) => unreachable!(),
        }
    }
}
