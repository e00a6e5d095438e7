//! Why a script is refused, and where, with the text that tells it.
ghost use Rattle.routine_reader.specs.Limits.{limit_of};
ghost use Rattle.routine_reader.specs.Spots.{at, inside};
ghost use Rattle.routine_reader.specs.Walks.{within_limit};
ghost use Rattle.std.specs.Prelude.{◌≡◌, Err, MatchResult, Ok};

use home_types::{NoMemory, limits};
use std::fmt;
use thiserror::Error;

/// A place in a script. Both numbers count from 1; 0 stands where there is none.
#[derive(Clone, Copy, Debug, PartialEq, Eq)]
pub struct Spot {
    pub part: Part,
    pub outer: u32,
    pub inner: u32,
}

impl Spot {
    /// The top object, or the input as a whole.
    pub const TOP: Spot = Spot {
        part: Part::Top,
        outer: 0,
        inner: 0,
    };
}

impl fmt::Display for Spot {
    ghost use Rattle.routine_reader.specs.Spots.{spot_text};
    ghost use Rattle.std.specs.Prelude.{Some};

    ghost output = { λ spot. Some (spot_text spot) };

    fn fmt<W: fmt::Write>(&self, f: &mut fmt::Formatter<W>) -> fmt::Result {
        let Spot { part, outer, inner } = *self;
        match part {
            Part::Top => write!(f, "{part}"),
            Part::Device | Part::Routine | Part::Window => write!(f, "{part} {outer}"),
            Part::Down | Part::Command | Part::Turn | Part::Run => write!(
                f,
                "{part} {outer}.{inner}"
            ),
        }
    }
}

/// A part of a script.
#[derive(Clone, Copy, Debug, PartialEq, Eq)]
pub enum Part {
    Top,
    Device,
    Down,
    Routine,
    Command,
    Window,
    Turn,
    Run,
}

impl Part {
    /// The part with this number.
    pub fn at(self, outer: u32) -> Spot
        ensures { result ≡ at self outer }
    {
        Spot {
            part: self,
            outer,
            inner: 0,
        }
    }

    /// The part with the number `inner` in the one with the number `outer`.
    pub fn inside(self, outer: u32, inner: u32) -> Spot
        ensures { result ≡ inside self outer inner }
    {
        Spot {
            part: self,
            outer,
            inner,
        }
    }
}

impl fmt::Display for Part {
    ghost use Rattle.routine_reader.specs.Spots.{part_text};
    ghost use Rattle.std.specs.Prelude.{Some};

    ghost output = { λ part. Some (part_text part) };

    fn fmt<W: fmt::Write>(&self, f: &mut fmt::Formatter<W>) -> fmt::Result {
        f.write_str(match self {
            Part::Top => "top",
            Part::Device => "device",
            Part::Down => "down",
            Part::Routine => "routine",
            Part::Command => "command",
            Part::Window => "window",
            Part::Turn => "turn",
            Part::Run => "run",
        })
    }
}

/// What a script may have too many of.
#[derive(Clone, Copy, Debug, PartialEq, Eq)]
pub enum Count {
    Bytes,
    Devices,
    States,
    Downs,
    Routines,
    Commands,
    Ms,
    Windows,
    Runs,
    Turns,
    Probes,
}

impl Count {
    /// The most that a script may have.
    pub fn limit(self) -> u64
        ensures { result ≡ limit_of self }
    {
        match self {
            Count::Bytes => limits::SCRIPT_BYTES,
            Count::Devices => u64::from(limits::DEVICES),
            Count::States => u64::from(limits::STATES),
            Count::Downs => u64::from(limits::DOWNS),
            Count::Routines => u64::from(limits::ROUTINES),
            Count::Commands => u64::from(limits::COMMANDS),
            Count::Ms => u64::from(limits::COMMAND_MS),
            Count::Windows => u64::from(limits::WINDOWS),
            Count::Runs => u64::from(limits::RUNS),
            Count::Turns => u64::from(limits::TURNS),
            Count::Probes => u64::from(limits::PROBES),
        }
    }
}

impl fmt::Display for Count {
    ghost use Rattle.routine_reader.specs.Spots.{count_text};
    ghost use Rattle.std.specs.Prelude.{Some};

    ghost output = { λ count. Some (count_text count) };

    fn fmt<W: fmt::Write>(&self, f: &mut fmt::Formatter<W>) -> fmt::Result {
        match self {
            Count::Bytes => f.write_str("bytes"),
            Count::Devices => f.write_str("devices"),
            Count::States => f.write_str("states"),
            Count::Downs => f.write_str("downs"),
            Count::Routines => f.write_str("routines"),
            Count::Commands => f.write_str("commands"),
            Count::Ms => f.write_str("ms"),
            Count::Windows => f.write_str("windows"),
            Count::Runs => f.write_str("runs"),
            Count::Turns => f.write_str("turns"),
            Count::Probes => f.write_str("probes"),
        }
    }
}

/// Why a script is refused.
#[derive(Clone, Copy, Debug, PartialEq, Eq, Error)]
pub enum ReadFault {
    /// Want of memory; it may come at any point.
    NoMemory,
    /// The bytes are no JSON text.
    NotJson,
    /// No object, a member that is missing, foreign or of the wrong JSON type, or a list that may
    /// not be empty.
    Shape(Spot),
    /// No device or routine has this name.
    UnknownName(Spot),
    /// The name stands before.
    DoubleName(Spot),
    /// The text is no name.
    BadName(Spot),
    /// The device has no such value, or its range is empty.
    BadState(Spot),
    /// The text is no time, or one that is not later than that of the window before.
    BadTime(Spot),
    /// More than the limit: of the entries of a list, of bytes, of ms or of rounds of probes.
    TooMany { kind: Count, count: u64, limit: u64 },
    /// The run that is to be followed is not before this one.
    BadFollow(Spot),
    /// The version is neither 1 nor 2.
    BadVersion(u64),
    /// The turn is no run of the window.
    BadTurn(Spot),
}

impl fmt::Display for ReadFault {
    ghost use Rattle.routine_reader.specs.Spots.{refusal_text};
    ghost use Rattle.std.specs.Prelude.{Some};

    ghost output = { λ fault. Some (refusal_text fault) };

    fn fmt<W: fmt::Write>(&self, f: &mut fmt::Formatter<W>) -> fmt::Result {
        match self {
            ReadFault::NoMemory => write!(f, "memory"),
            ReadFault::NotJson => write!(f, "not json"),
            ReadFault::Shape(spot) => write!(f, "shape {spot}"),
            ReadFault::UnknownName(spot) => write!(f, "unknown name {spot}"),
            ReadFault::DoubleName(spot) => write!(f, "double name {spot}"),
            ReadFault::BadName(spot) => write!(f, "bad name {spot}"),
            ReadFault::BadState(spot) => write!(f, "bad state {spot}"),
            ReadFault::BadTime(spot) => write!(f, "bad time {spot}"),
            ReadFault::TooMany { kind, count, limit } => {
                write!(f, "too many {kind} {count} of {limit}")
            }
            ReadFault::BadFollow(spot) => write!(f, "bad follow {spot}"),
            ReadFault::BadVersion(version) => write!(f, "bad version {version}"),
            ReadFault::BadTurn(spot) => write!(f, "bad turn {spot}"),
        }
    }
}

impl From<NoMemory> for ReadFault {
    ghost use Rattle.routine_reader.specs.declared.faults.ReadFault.{ReadFault};

    ghost from_gives = { λ _ fault. fault ≡ ReadFault.NoMemory };

    fn from(_want: NoMemory) -> ReadFault {
        ReadFault::NoMemory
    }
}

/// Refuses more than the limit.
pub fn within_limit(kind: Count, count: u64) -> Result<(), ReadFault>
    ensures { MatchResult result (λ _. within_limit kind count ≡ Ok count)
        (λ fault. within_limit kind count ≡ Err fault) }
{
    let limit = kind.limit();
    if count <= limit {
        Ok(())
    } else {
        Err(ReadFault::TooMany { kind, count, limit })
    }
}
