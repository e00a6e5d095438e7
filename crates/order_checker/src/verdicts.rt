//! What the check of a record finds.
use home_types::{DeviceNo, NoMemory, RunNo};

/// What of a record is not as it should be.
#[derive(Clone, Copy, Debug, PartialEq, Eq)]
pub enum Place {
    /// One of the two lines above the windows.
    Head,
    /// The first line of the window.
    Window,
    /// The line of the run.
    Run(RunNo),
    /// The item of the order line, counted from 1; those from 2^32 - 1 on share that number. 0 for
    /// the line itself, and where a committed run is missing.
    Order(u32),
    /// The printed answer to a command of the run, counted from 0, or a must command of it that
    /// fails.
    Answer(RunNo, u32),
    /// The home line.
    Home,
    /// The device on the home line.
    Device(DeviceNo),
    /// The last line, or what stands after it.
    Total,
}

/// Whether a record is the serial execution of the order that it prints.
#[derive(Clone, Copy, Debug, PartialEq, Eq)]
pub enum Verdict {
    /// It is.
    Agrees,
    /// It is not.
    Differs {
        /// The window, counted from 1: 0 for the head, the number of windows for the total.
        window: u32,
        /// The first thing that is not as it should be.
        place: Place,
    },
}

/// Why a part of the check stops.
#[derive(Clone, Copy, Debug, PartialEq, Eq)]
pub enum Halt {
    /// There is no memory.
    Memory,
    /// Something is not as it should be.
    At(Place),
}

impl From<NoMemory> for Halt {
    ghost use Rattle.std.specs.Prelude.{◌≡◌};
    ghost use Rattle.order_checker.specs.declared.verdicts.Halt.{Halt};

    ghost from_gives = { λ _ halt. halt ≡ Halt.Memory };

    fn from(_want: NoMemory) -> Halt {
        Halt::Memory
    }
}
