//! The places of the devices of a home: each is there, or out with a grip.
ghost use Rattle.std.specs.Prelude.{◌≡◌, ◌+◌, ◌<◌, ◌≤◌, ◌^◌, ◌↔◌, ℕ, IfErr, IfNone, IfOk, IfSome, IsTrue, length, slice_get, slice_set};
ghost use Rattle.device_gate.specs.Calls.{is_counted_up};
ghost use Rattle.device_gate.specs.Grips.{WasCalled};
ghost use Rattle.device_gate.specs.Places.{AllHome, AreNumbered, IsFirstOut, IsHome, IsKept, all_home, kept_of, slip_of};
ghost use Rattle.device_states.specs.Devices.{MayBeProbed};

use crate::grips::{Done, Grip, Ready, Stage};
use crate::slips::{Slip, Task, Told};
use crate::strangers::Stranger;
use device_states::Device;
use home_types::{DeviceNo, List, NoMemory, Value};
use std::alloc::Global;
use std::marker::Model;
use std::mem;

/// The place of a device.
#[derive(Drop)]
pub enum Place<D: Device> {
    /// The device is home.
    Home(D),
    /// It is out, with this slip, for this task.
    Out(Slip, Task),
}

/// The devices of a home, each in the place of its number: home, or out with a slip.
///
/// Contracts see the places, and how many devices were handed out. Only `open` takes memory.
#[derive(Drop)]
pub struct Gate<D: Device> {
    places: Vec<Place<D>>,
    tickets: u64,
    // The list in which the devices came. It is empty, and has room for all of them.
    emptied: List<D>,
}

impl<D: Device> Model for Gate<D> {
    ghost use Rattle.device_gate.specs.Places.{GateState, IsGate};

    ghost Value = { GateState D };

    ghost view = { λ g. record { places = g.places.items; tickets = g.tickets } };

    ghost invariant = { λ g. IsGate D.shows g.places.items g.emptied.items g.emptied.spare };
}

impl<D: Device> Gate<D> {
    /// Opens a gate with these devices, all of them home.
    ///
    /// Answers `NoMemory` where there is none to be had, and gives the devices back.
    pub fn open(alloc: Global, devices: List<D>) -> Result<Gate<D>, (List<D>, NoMemory)>
        requires numbers { AreNumbered D.shows devices.items }
        ensures home { IfOk result (λ gate. gate.places ≡ all_home devices.items) }
        ensures tickets { IfOk result (λ gate. gate.tickets ≡ 0) }
        ensures refused { IfErr result (λ refused. refused.0 ≡ devices) }
    {
        let mut devices = devices;
        let Ok(mut places) = Vec::with_capacity(alloc, devices.len() as usize) else {
            return Err((devices, NoMemory));
        };
        while let Some(device) = devices.pop() {
            places.push_reserved(Place::Home(device));
        }
        // The last device came first.
        places.reverse();
        Ok(Gate {
            places,
            tickets: 0,
            emptied: devices,
        })
    }

    /// Closes the gate, and gives its devices.
    pub fn close(self) -> List<D>
        requires home { AllHome self.places }
        ensures devices { all_home result.items ≡ self.places }
        ensures numbers { AreNumbered D.shows result.items }
    {
        let Gate {
            mut places,
            tickets: _,
            emptied: mut devices,
        } = self;
        places.reverse();
        while let Some(place) = places.pop() {
            match place {
                Place::Home(device) => devices.push(device).unwrap(),
                Place::Out(_, _) => unreachable!(),
            }
        }
        devices
    }

    /// Does nothing. Its contract is that each device which is home is in the place of its number.
    pub fn numbered(&self)
        ensures { (d : ℕ) (device : D) → slice_get self.now.places d ≡ Some (Place.Home device)
            → (D.shows device).tag ≡ d }
    {
        let _ = &self.tickets;
    }

    /// Whether the gate has the device, and it is home.
    pub fn is_home(&self, d: DeviceNo) -> bool
        ensures { IsTrue result ↔ IsHome self.now.places d.0 }
    {
        matches!(self.places.get(d.0 as usize), Some(Place::Home(_)))
    }

    /// The smallest device that is out, `None` where every one is home.
    pub fn first_out(&self) -> Option<DeviceNo>
        requires few { length self.now.places ≤ 2 ^ 16 }
        ensures some { IfSome result (λ d. IsFirstOut self.now.places d.0) }
        ensures none { IfNone result (AllHome self.now.places) }
    {
        for at in 0..self.places.len() {
            match &self.places[at] {
                Place::Home(_) => {}
                Place::Out(_, _) => return Some(DeviceNo(at as u16)),
            }
        }
        None
    }

    /// The device, which is home.
    pub fn device(&self, d: DeviceNo) -> &D
        requires home { IsHome self.now.places d.0 }
        ensures { slice_get self.now.places d.0 ≡ Some (Place.Home result.now) }
    {
        match &self.places[d.0 as usize] {
            Place::Home(device) => device,
            Place::Out(_, _) => unreachable!(),
        }
    }

    /// The slip with which the device is out, `None` where it is home or none of the gate.
    pub fn slip(&self, d: DeviceNo) -> Option<Slip>
        ensures { result ≡ slip_of (slice_get self.now.places d.0) }
    {
        self.kept(d).map(|(slip, _)| slip)
    }

    /// Whether the grip is the one with which its device is out.
    #[inline(always)]
    pub fn is_kept<S: Stage>(&self, grip: &Grip<D, S>) -> bool
        ensures { IsTrue result ↔ IsKept self.now.places grip.now.slip grip.now.task }
    {
        match self.kept(grip.slip().device) {
            Some((slip, task)) => slip == grip.slip() && task == grip.task(),
            None => false,
        }
    }

    /// Why the grip is none that is out of this gate: the slip that is kept in its place, and its
    /// own.
    pub fn stranger<S: Stage>(&self, grip: &Grip<D, S>) -> Stranger
        ensures kept { result.kept ≡ slip_of (slice_get self.now.places grip.now.slip.device.0) }
        ensures told { result.told ≡ grip.now.slip }
    {
        let told = grip.slip();
        Stranger {
            kept: self.slip(told.device),
            told,
        }
    }

    /// Hands the device out to the maker, a run or 0 for the detector, for this task.
    ///
    /// The grip has the next ticket. Its slip says what is known of the device as it leaves: its
    /// counts, and the value at which it stands, which is `stood` where it is counted up.
    #[inline(always)]
    pub fn hand_out(&mut self, d: DeviceNo, maker: u32, stood: Value, task: Task) -> Grip<D, Ready>
        requires home { IsHome self.old.places d.0 }
        requires room { (device : D) → slice_get self.old.places d.0 ≡ Some (Place.Home device)
            → MayBeProbed (D.shows device) }
        requires stood { (device : D) → slice_get self.old.places d.0 ≡ Some (Place.Home device)
            → IsTrue (is_counted_up task) → (D.shows device).stands ≡ stood }
        requires tickets { self.old.tickets < 2 ^ 63 }
        ensures device { slice_get self.old.places d.0 ≡ Some (Place.Home result.device) }
        ensures places { self.new.places
            ≡ slice_set self.old.places d.0 (Place.Out result.slip task) }
        ensures tickets { self.new.tickets ≡ self.old.tickets + 1 }
        ensures task { result.task ≡ task }
        ensures ticket { result.slip.ticket ≡ self.old.tickets + 1 }
        ensures number { result.slip.device ≡ d }
        ensures maker { result.slip.maker ≡ maker }
        ensures stood { result.slip.stood ≡ stood }
        ensures turns { result.slip.turns ≡ (D.shows result.device).turns }
        ensures drives { result.slip.drives ≡ (D.shows result.device).drives }
        ensures probes { result.slip.probes ≡ (D.shows result.device).probes }
        ensures faults { result.slip.faults ≡ (D.shows result.device).faults }
        ensures tag { (D.shows result.device).tag ≡ d.0 }
    {
        let known = self.device(d);
        let slip = Slip {
            ticket: self.tickets + 1,
            device: d,
            maker,
            stood,
            turns: known.turns(),
            drives: known.drives(),
            probes: known.probes(),
            faults: known.faults(),
        };
        self.tickets += 1;
        match mem::replace(&mut self.places[d.0 as usize], Place::Out(slip, task)) {
            Place::Home(device) => Grip::new(device, slip, task),
            Place::Out(_, _) => unreachable!(),
        }
    }

    /// Takes the device of the grip in, which is the one that is out, and gives what the device
    /// told.
    #[inline(always)]
    pub fn take_in(&mut self, grip: Grip<D, Done>) -> Told
        requires kept { IsKept self.old.places grip.slip grip.task }
        ensures places { self.new.places
            ≡ slice_set self.old.places grip.slip.device.0 (Place.Home grip.device) }
        ensures tickets { self.new.tickets ≡ self.old.tickets }
        ensures told { result ≡ grip.stage.told }
        ensures called { WasCalled result grip.task grip.slip (D.shows grip.device) }
    {
        let d = grip.slip().device;
        let told = grip.told();
        self.places[d.0 as usize] = Place::Home(grip.spent());
        told
    }

    /// With what the device is out, `None` where it is home or none of the gate.
    #[inline(always)]
    fn kept(&self, d: DeviceNo) -> Option<(Slip, Task)>
        ensures { result ≡ kept_of (slice_get self.now.places d.0) }
    {
        match self.places.get(d.0 as usize) {
            Some(Place::Out(slip, task)) => Some((*slip, *task)),
            Some(Place::Home(_)) | None => None,
        }
    }
}
