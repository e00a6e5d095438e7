//! A call as the numbers of a record, and these as bytes.
ghost use Rattle.std.specs.Prelude.{◌≡◌, ◌≤◌, ◌+◌, length};
ghost use Rattle.logged_calls.specs.CallBytes.{call_size, front_record, number_of_2, number_of_4, number_of_8, record_bytes};
ghost use Rattle.logged_calls.specs.Records.{call_of, call_of_kind, follow_in, numbers, record_of, same_record, told_in};
ghost use Rattle.logged_calls.specs.declared.calls.Logged.TheVariants.{Added, Gave};

use crate::calls::{CALL_SIZE, Logged};
use crate::times::{number_time, time_number};
use device_gate::Told;
use home_types::{DeviceNo, RunNo, Value};

const BEGAN: u8 = 1;

const ADDED: u8 = 2;

const OPENED: u8 = 3;

const TOOK: u8 = 4;

const GAVE: u8 = 5;

const PROBED: u8 = 6;

const CLOSED: u8 = 7;

const RESTOOD: u8 = 8;

const LOST: u8 = 9;

const FOLLOWS: u8 = 1;

const WORKED: u8 = 1;

const SENSED: u8 = 2;

const DIED: u8 = 3;

/// The numbers of a call.
#[derive(Clone, Copy)]
pub(crate) struct Record {
    pub(crate) kind: u8,
    /// Of a run that was added, whether it follows another; of an answer, what it is.
    pub(crate) sort: u8,
    pub(crate) device: u16,
    pub(crate) value: u32,
    pub(crate) first: u64,
    pub(crate) second: u64,
}

impl Record {
    /// The numbers of the call.
    pub(crate) fn of(call: Logged) -> Record
        ensures { result ≡ record_of call }
    {
        match call {
            Logged::Began(at, rounds) => of_window(BEGAN, rounds, time_number(at), 0),
            Logged::Added(routine, follows) => of_added(routine, follows),
            Logged::Opened(number) => of_window(OPENED, number, 0, 0),
            Logged::Took(run, moment) => of_window(TOOK, run.0, 0, moment),
            Logged::Gave(device, ticket, told, moment) => of_answer(device, ticket, told, moment),
            Logged::Probed(device) => of_device(PROBED, device, 0),
            Logged::Closed => of_window(CLOSED, 0, 0, 0),
            Logged::Restood(device, value) => of_device(RESTOOD, device, value),
            Logged::Lost(device) => of_device(LOST, device, 0),
        }
    }

    /// The call with these numbers, `None` where no call has them.
    pub(crate) fn call(self) -> Option<Logged>
        ensures { result ≡ call_of self }
    {
        match self.call_of_kind() {
            Some(call) => {
                if Record::of(call).is(self) {
                    Some(call)
                } else {
                    None
                }
            }
            None => None,
        }
    }

    // The call of this kind, with what such a call needs of the numbers.
    fn call_of_kind(self) -> Option<Logged>
        ensures { result ≡ call_of_kind self }
    {
        let device = DeviceNo(self.device);
        match self.kind {
            BEGAN => number_time(self.first).map(|at| Logged::Began(at, self.value)),
            ADDED => self
                .follow()
                .map(|follows| Logged::Added(self.value, follows)),
            OPENED => Some(Logged::Opened(self.value)),
            TOOK => Some(Logged::Took(RunNo(self.value), self.second)),
            GAVE => self
                .told()
                .map(|told| Logged::Gave(device, self.first, told, self.second)),
            PROBED => Some(Logged::Probed(device)),
            CLOSED => Some(Logged::Closed),
            RESTOOD => Some(Logged::Restood(device, self.value)),
            LOST => Some(Logged::Lost(device)),
            _ => None,
        }
    }

    // The run that is followed, where there is one; `None` where that is no number of a run.
    fn follow(self) -> Option<Option<RunNo>>
        ensures { result ≡ follow_in self }
    {
        if self.sort == 0 {
            return Some(None);
        }
        match u32::try_from(self.first) {
            Ok(run) => Some(Some(RunNo(run))),
            Err(_) => None,
        }
    }

    // What the device answered.
    fn told(self) -> Option<Told>
        ensures { result ≡ told_in self }
    {
        match self.sort {
            WORKED => Some(Told::Worked),
            SENSED => Some(Told::Sensed(self.value)),
            DIED => Some(Told::Died),
            _ => None,
        }
    }

    // Whether the numbers are the same.
    fn is(self, other: Record) -> bool
        ensures { result ≡ same_record self other }
    {
        self.kind == other.kind
            && self.sort == other.sort
            && self.device == other.device
            && self.value == other.value
            && self.first == other.first
            && self.second == other.second
    }

    /// The numbers as bytes.
    pub(crate) fn bytes(self) -> [u8; CALL_SIZE]
        ensures { result ≡ record_bytes self }
    {
        let d = self.device.to_le_bytes();
        let v = self.value.to_le_bytes();
        let f = self.first.to_le_bytes();
        let s = self.second.to_le_bytes();
        [
            self.kind, self.sort, d[0], d[1], v[0], v[1], v[2], v[3], f[0], f[1], f[2], f[3], f[4],
            f[5], f[6], f[7], s[0], s[1], s[2], s[3], s[4], s[5], s[6], s[7],
        ]
    }

    /// The record in front of these bytes.
    pub(crate) fn in_front(bytes: &[u8]) -> Record
        requires whole { call_size ≤ length bytes.now }
        ensures { result ≡ front_record bytes.now }
    {
        Record {
            kind: bytes[0],
            sort: bytes[1],
            device: u16::from_le_bytes([bytes[2], bytes[3]]),
            value: u32::from_le_bytes([bytes[4], bytes[5], bytes[6], bytes[7]]),
            first: number_of_8(bytes, 8),
            second: number_of_8(bytes, 16),
        }
    }
}

// The number in the eight bytes from this place on.
fn number_of_8(bytes: &[u8], at: usize) -> u64
    requires { at + 8 ≤ length bytes.now }
    ensures { result ≡ number_of_8 bytes.now at }
{
    u64::from_le_bytes([
        bytes[at],
        bytes[at + 1],
        bytes[at + 2],
        bytes[at + 3],
        bytes[at + 4],
        bytes[at + 5],
        bytes[at + 6],
        bytes[at + 7],
    ])
}

// A record of a window or of a run.
fn of_window(kind: u8, value: u32, first: u64, second: u64) -> Record
    ensures { result ≡ numbers kind 0 0 value first second }
{
    Record {
        kind,
        sort: 0,
        device: 0,
        value,
        first,
        second,
    }
}

// A record of a device.
fn of_device(kind: u8, device: DeviceNo, value: Value) -> Record
    ensures { result ≡ numbers kind 0 device.0 value 0 0 }
{
    Record {
        kind,
        sort: 0,
        device: device.0,
        value,
        first: 0,
        second: 0,
    }
}

// The record of a run that is added.
fn of_added(routine: u32, follows: Option<RunNo>) -> Record
    ensures { result ≡ record_of (Added routine follows) }
{
    let (sort, first) = match follows {
        Some(run) => (FOLLOWS, u64::from(run.0)),
        None => (0, 0),
    };
    Record {
        kind: ADDED,
        sort,
        device: 0,
        value: routine,
        first,
        second: 0,
    }
}

// The record of an answer.
fn of_answer(device: DeviceNo, ticket: u64, told: Told, moment: u64) -> Record
    ensures { result ≡ record_of (Gave device ticket told moment) }
{
    let (sort, value) = match told {
        Told::Worked => (WORKED, 0),
        Told::Sensed(value) => (SENSED, value),
        Told::Died => (DIED, 0),
    };
    Record {
        kind: GAVE,
        sort,
        device: device.0,
        value,
        first: ticket,
        second: moment,
    }
}
