//! The command `check`: whether a record is the serial execution of its orders, by its script
//! alone.
ghost use Rattle.std.specs.Prelude.{◌≡◌, IfOk, None};
ghost use Rattle.hub_commands.specs.Checks.{CheckEnds, InputIsJudged, IsJudged, place_name};
ghost use Rattle.hub_commands.specs.Finishes.{read_off, written};
ghost use Rattle.hub_commands.specs.Statuses.{status_for_fault};
ghost use Rattle.routine_reader.specs.Scripts.{plain_script};
ghost use Rattle.routine_reader.specs.Sound.{IsSound};

use crate::days::refuse;
use crate::divisions::divide;
use crate::faults::Fault;
use crate::finishes::Finish;
use day_clock::{InputFault, Sink, Source, read_to_end, write_all};
use device_states::Device;
use home_types::{NoMemory, Text, limits};
use order_checker::{Place, Verdict, check_record};
use routine_reader::{Count, ReadFault, Script, read_script_once};
use std::alloc::Global;

/// The refusal of an input with more bytes than a script and its record may have.
const OVER_LIMIT: ReadFault = ReadFault::TooMany {
    kind: Count::Bytes,
    count: limits::CHECK_BYTES + 1,
    limit: limits::CHECK_BYTES,
};

/// The name of the device in the place, empty where there is none.
fn place_name(alloc: Global, script: &Script, place: Place) -> Result<Text, NoMemory>
    ensures { IfOk result (λ name. name ≡ place_name script.now place) }
{
    let Place::Device(device) = place else {
        return Text::of(alloc, "");
    };
    match script.devices.get(u64::from(device.0)) {
        Some(text) => Text::of(alloc, text.name.as_str()),
        None => Text::of(alloc, ""),
    }
}

/// Judges a record by its script.
fn judge_record(alloc: Global, script: &Script, printed: &[u8]) -> Result<(), Fault>
    requires sound { IsSound (plain_script script.now) }
    ensures { IsJudged script.now printed.now result }
{
    match check_record(alloc, script, printed) {
        Ok(Verdict::Agrees) => Ok(()),
        Ok(Verdict::Differs { window, place }) => match place_name(alloc, script, place) {
            Ok(name) => Err(Fault::Check {
                window,
                place,
                name,
            }),
            Err(NoMemory) => Err(Fault::Memory),
        },
        Err(NoMemory) => Err(Fault::Memory),
    }
}

/// Reads the source to its end, the script of its bytes up to the line that divides, and judges the
/// record behind it.
///
/// The input is refused as soon as one byte more than it may have was taken.
fn judge_input<S: Source>(alloc: Global, source: &mut S) -> Result<(), Fault>
    ensures { InputIsJudged (read_off (S.left source.old) (S.left source.new) (S.faults source.old)
        (S.faults source.new)) result }
{
    let bytes = match read_to_end(alloc, source, limits::CHECK_BYTES) {
        Ok(bytes) => bytes,
        Err(InputFault::OverLimit) => return Err(Fault::Script(OVER_LIMIT)),
        Err(InputFault::Failed) => return Err(Fault::Read),
        Err(InputFault::NoMemory) => return Err(Fault::Memory),
    };
    let (text, printed) = divide(&bytes);
    match read_script_once(alloc, text) {
        Ok(script) => judge_record(alloc, &script, printed),
        Err(ReadFault::NoMemory) => Err(Fault::Memory),
        Err(fault) => Err(Fault::Script(fault)),
    }
}

/// Judges the record in the source by the script before it, and writes `agrees` where it agrees.
pub fn check_input<S: Source, K: Sink, Dev: Device>(
    alloc: Global,
    source: &mut S,
    sink: &mut K,
) -> Finish<Dev>
    ensures status { result.status ≡ status_for_fault result.fault }
    ensures no_day { result.day ≡ None }
    ensures ends { CheckEnds (read_off (S.left source.old) (S.left source.new) (S.faults source.old)
        (S.faults source.new))
        (written (K.holds sink.old) (K.holds sink.new) (K.faults sink.old) (K.faults sink.new))
        result.fault }
{
    if let Err(fault) = judge_input(alloc, source) {
        return refuse(fault);
    }
    match write_all(sink, "agrees\n".as_bytes()) {
        Ok(()) => Finish {
            status: 0,
            day: None,
            fault: None,
        },
        Err(_) => refuse(Fault::Write),
    }
}
