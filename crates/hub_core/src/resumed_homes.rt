//! A home that goes on where another one has stopped: its devices are built anew, and driven to
//! where they stood.
ghost use Rattle.std.specs.Prelude.{◌≡◌, ◌≤◌, if◌then◌else◌, IfOk, Some, [], length, slice_get, ℕ};
ghost use Rattle.home_journal.specs.Journals.{IsStateOf};
ghost use Rattle.home_types.specs.HomeStates.{stand_at};
ghost use Rattle.home_types.specs.Limits.{most_devices};
ghost use Rattle.legal_days.specs.LegalDays.{AreLeftFrom};
ghost use Rattle.legal_days.specs.ResumedDays.{AreResumed, IsDeviceResumed, IsStateResumed, resumed_day};
ghost use Rattle.routine_reader.specs.Rosters.{kinds_of};
ghost use Rattle.routine_reader.specs.Scripts.{plain_script};
ghost use Rattle.routine_reader.specs.Sound.{IsSound};

use crate::homes::Home;
use device_states::{Bench, Device};
use home_types::{DeviceNo, List, NoMemory, Stand, World};
use routine_reader::{DeviceText, Script, script_kinds};
use std::alloc::Global;

impl<D: Device> Home<D> {
    /// Builds the home of the script on the bench, and has it go on in the state `world`, in which
    /// an earlier home of the script has stopped.
    ///
    /// Each device that is up in `world` is driven to its value, once: where it answers it is up,
    /// where it dies it is counted down, at that value. A device that is down there stays down, and
    /// is not called; a probe of a later window may bring it back.
    ///
    /// Answers `NoMemory` where there is none to be had; some of the devices may have been driven
    /// by then.
    pub fn resume<B: Bench<Dev = D>>(
        alloc: Global,
        bench: &mut B,
        script: &Script,
        world: &World,
    ) -> Result<Home<D>, NoMemory>
        requires sound { IsSound (plain_script script.now) }
        requires world { IsStateOf (kinds_of script.now) world.now.devices.items }
        ensures kinds { IfOk result (λ home. home.kinds ≡ kinds_of script.now) }
        ensures opened { IfOk result (λ home. home.opened ≡ 0) }
        ensures world { IfOk result (λ home. IsStateResumed world.now.devices.items home.world) }
        // With them begins the day behind so many windows, as many as one likes.
        ensures devices { (k : ℕ) → IfOk result (λ home. AreLeftFrom D.shows
            (resumed_day script.now k world.now.devices.items home.world) [] home.devices) }
        ensures driven { IfOk result (λ home. (d : ℕ) (device : D) → slice_get home.devices d
            ≡ Some device → (D.shows device).drives ≡ (if (stand_at home.world d).up then 1 else 0)) }
        ensures unprobed { IfOk result (λ home. (d : ℕ) (device : D) → slice_get home.devices d
            ≡ Some device → (D.shows device).probes ≡ 0) }
    {
        let (devices, world) = resume_devices(alloc, script, world, bench)?;
        let kinds = script_kinds(alloc, script)?;
        Ok(Home {
            kinds,
            world,
            devices,
            opened: 0,
        })
    }
}

/// Builds the devices of the script on the bench, and resumes each. Answers them with the state of
/// the home then.
fn resume_devices<B: Bench>(
    alloc: Global,
    script: &Script,
    world: &World,
    bench: &mut B,
) -> Result<(List<B::Dev>, World), NoMemory>
    requires few { length script.now.devices.items ≤ most_devices }
    requires size { length world.now.devices.items ≡ length script.now.devices.items }
    ensures { IfOk result
        (λ resumed. AreResumed B.Dev.shows script.now.devices.items world.now.devices.items
        (length script.now.devices.items) resumed.1.devices.items resumed.0.items) }
{
    let stood = world.devices.as_slice();
    let mut devices = List::new(alloc);
    let mut stands = List::new(alloc);
    'texts: for (place, text) in script.devices.as_slice().iter().enumerate() {
        let number = DeviceNo(place as u16);
        let (device, stand) = resume_device(alloc, text, number, stood[place], bench)?;
        devices.push(device)?;
        stands.push(stand)?;
    }
    Ok((devices, World { devices: stands }))
}

/// Builds the device of this number, and drives it to where it stood if it was up there. Answers
/// how it stands then.
fn resume_device<B: Bench>(
    alloc: Global,
    text: &DeviceText,
    number: DeviceNo,
    stood: Stand,
    bench: &mut B,
) -> Result<(B::Dev, Stand), NoMemory>
    ensures { IfOk result
        (λ resumed. IsDeviceResumed B.Dev.shows text.now number.0 stood resumed.1 resumed.0) }
{
    let mut device = bench.build(alloc, number, text.start, text.downs.as_slice())?;
    if !stood.up {
        return Ok((device, stood));
    }
    let up = device.drive(stood.value).is_ok();
    let now = Stand {
        value: stood.value,
        up,
    };
    Ok((device, now))
}
