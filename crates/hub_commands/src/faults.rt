//! Why a call ends early, its status, and the line that tells it.
ghost use Rattle.std.specs.Prelude.{◌≡◌};
ghost use Rattle.hub_commands.specs.Statuses.{fault_status};

use home_types::{RunNo, Text};
use order_checker::Place;
use routine_reader::ReadFault;
use std::fmt;

/// Why the program ends with another status than 0. docs/FORMATS.md has the texts.
#[derive(Drop)]
pub enum Fault {
    /// The script is refused, for another cause than want of memory.
    Script(ReadFault),
    /// The words are of no form that is taken.
    Words,
    /// The source failed.
    Read,
    /// The sink failed.
    Write,
    /// Want of memory.
    Memory,
    /// The record does not agree with the serial execution of its orders.
    Check {
        /// The window, from 1; 0 for the head, and the number of windows for the total.
        window: u32,
        /// The first thing that is not as it should be.
        place: Place,
        /// The name of the device in `place`, empty where there is none.
        name: Text,
    },
    /// A window is not split among the rooms of the home.
    Cross {
        /// The window, from 1.
        window: u32,
        /// Its first run that crosses rooms.
        run: RunNo,
        /// Whether the run crosses by the run that it follows alone; else it has commands in two
        /// rooms.
        follow: bool,
    },
    /// The disk failed.
    Disk,
    /// The journal on the disk is damaged: the first slot, from 1, that is open and tells no state
    /// of the script's home.
    Damaged(u32),
}

/// A place in a record, as it is printed.
#[derive(Clone, Copy)]
struct Printed(Place);

impl Fault {
    /// The status with which the program ends.
    pub fn status(&self) -> u8
        ensures { result ≡ fault_status self.now }
    {
        match self {
            Fault::Script(_) => 1,
            Fault::Words => 2,
            Fault::Read => 3,
            Fault::Write => 4,
            Fault::Memory => 5,
            Fault::Check { .. } => 7,
            Fault::Cross { .. } => 11,
            Fault::Disk => 9,
            Fault::Damaged(_) => 10,
        }
    }
}

impl fmt::Display for Fault {
    ghost use Rattle.hub_commands.specs.FaultTexts.{fault_text};
    ghost use Rattle.std.specs.Prelude.{Some};

    ghost output = { λ fault. Some (fault_text fault) };

    fn fmt<W: fmt::Write>(&self, f: &mut fmt::Formatter<W>) -> fmt::Result {
        match self {
            Fault::Script(fault) => write!(f, "script: {fault}"),
            Fault::Words => write!(f, "words"),
            Fault::Read => write!(f, "read"),
            Fault::Write => write!(f, "write"),
            Fault::Memory => write!(f, "memory"),
            Fault::Disk => write!(f, "disk"),
            Fault::Damaged(slot) => write!(f, "damaged {slot}"),
            Fault::Check {
                window,
                place: Place::Device(_),
                name,
            } => write!(f, "check: window {window} device {}", name.as_str()),
            Fault::Check { window, place, .. } => {
                write!(f, "check: window {window} {}", Printed(*place))
            }
            Fault::Cross {
                window,
                run,
                follow,
            } => {
                let what = if *follow { "follow" } else { "room" };
                write!(f, "cross {what} {window}.{}", run.0)
            }
        }
    }
}

impl fmt::Display for Printed {
    ghost use Rattle.hub_commands.specs.FaultTexts.{place_text};
    ghost use Rattle.std.specs.Prelude.{Some};

    ghost output = { λ printed. Some (place_text printed.0) };

    /// Writes a device by its number, since its name stands beside the place.
    fn fmt<W: fmt::Write>(&self, f: &mut fmt::Formatter<W>) -> fmt::Result {
        match &self.0 {
            Place::Head => write!(f, "head"),
            Place::Window => write!(f, "window"),
            Place::Run(run) => write!(f, "run {}", run.0),
            Place::Order(item) => write!(f, "order {item}"),
            Place::Answer(run, command) => {
                write!(f, "answer {}.{}", run.0, u64::from(*command) + 1)
            }
            Place::Home => write!(f, "home"),
            Place::Device(device) => write!(f, "device {}", device.0),
            Place::Total => write!(f, "total"),
        }
    }
}
