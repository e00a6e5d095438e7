//! Why a script is refused, as C sees it.
ghost use Rattle.std.specs.Prelude.{◌≡◌};
ghost use Rattle.lazbendix_c.specs.Faults.{at_spot, count_of, fault_of, part_of};

use routine_reader::{Count, Part, ReadFault, Spot};

/// Why a script is refused, and where. A number that its kind does not speak of is 0.
#[repr(C)]
#[derive(Clone, Copy, Debug, PartialEq, Eq)]
pub struct ToldFault {
    /// How many there are where there are too many, or the version, where it is neither 1 nor 2.
    pub count: u64,
    /// How many there may be.
    pub limit: u64,
    pub kind: u32,
    /// Of what there are too many.
    pub counted: u32,
    /// The part of the script; its numbers count from 1.
    pub part: u32,
    pub outer: u32,
    pub inner: u32,
    /// Always 0.
    pub zero: u32,
}

const NO_FAULT: ToldFault = ToldFault {
    count: 0,
    limit: 0,
    kind: 0,
    counted: 0,
    part: 0,
    outer: 0,
    inner: 0,
    zero: 0,
};

/// A fault as C sees it.
pub(crate) fn fault_of(fault: ReadFault) -> ToldFault
    ensures { result ≡ fault_of fault }
{
    match fault {
        ReadFault::NoMemory => ToldFault {
            kind: 1,
            ..NO_FAULT
        },
        ReadFault::NotJson => ToldFault {
            kind: 2,
            ..NO_FAULT
        },
        ReadFault::Shape(spot) => at_spot(3, spot),
        ReadFault::UnknownName(spot) => at_spot(4, spot),
        ReadFault::DoubleName(spot) => at_spot(5, spot),
        ReadFault::BadName(spot) => at_spot(6, spot),
        ReadFault::BadState(spot) => at_spot(7, spot),
        ReadFault::BadTime(spot) => at_spot(8, spot),
        ReadFault::TooMany { kind, count, limit } => ToldFault {
            kind: 9,
            counted: count_of(kind),
            count,
            limit,
            ..NO_FAULT
        },
        ReadFault::BadFollow(spot) => at_spot(10, spot),
        ReadFault::BadVersion(version) => ToldFault {
            kind: 11,
            count: version,
            ..NO_FAULT
        },
        ReadFault::BadTurn(spot) => at_spot(12, spot),
    }
}

/// A fault of this kind at this place.
fn at_spot(kind: u32, spot: Spot) -> ToldFault
    ensures { result ≡ at_spot kind spot }
{
    ToldFault {
        kind,
        part: part_of(spot.part),
        outer: spot.outer,
        inner: spot.inner,
        ..NO_FAULT
    }
}

fn part_of(part: Part) -> u32
    ensures { result ≡ part_of part }
{
    match part {
        Part::Top => 1,
        Part::Device => 2,
        Part::Down => 3,
        Part::Routine => 4,
        Part::Command => 5,
        Part::Window => 6,
        Part::Turn => 7,
        Part::Run => 8,
    }
}

fn count_of(count: Count) -> u32
    ensures { result ≡ count_of count }
{
    match count {
        Count::Bytes => 1,
        Count::Devices => 2,
        Count::States => 3,
        Count::Downs => 4,
        Count::Routines => 5,
        Count::Commands => 6,
        Count::Ms => 7,
        Count::Windows => 8,
        Count::Runs => 9,
        Count::Turns => 10,
        Count::Probes => 11,
    }
}
