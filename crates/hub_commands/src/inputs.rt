//! The input of a call, read to its end as a script.
ghost use Rattle.std.specs.Prelude.{IfOk};
ghost use Rattle.hub_commands.specs.Finishes.{InputIsRead, read_off};
ghost use Rattle.routine_reader.specs.Scripts.{plain_script};
ghost use Rattle.routine_reader.specs.Sound.{IsSound};

use crate::faults::Fault;
use day_clock::{InputFault, Source, read_to_end};
use home_types::limits;
use routine_reader::{Count, ReadFault, Script, read_script_once};
use std::alloc::Global;

/// The refusal of an input with more bytes than a script may have.
const OVER_LIMIT: ReadFault = ReadFault::TooMany {
    kind: Count::Bytes,
    count: limits::SCRIPT_BYTES + 1,
    limit: limits::SCRIPT_BYTES,
};

/// Reads the source to its end, and the script of its bytes.
///
/// The input is refused as soon as one byte more than a script may have was taken.
pub fn read_input<S: Source>(alloc: Global, source: &mut S) -> Result<Script, Fault>
    ensures sound { IfOk result (λ script. IsSound (plain_script script)) }
    ensures read { InputIsRead (read_off (S.left source.old) (S.left source.new)
        (S.faults source.old) (S.faults source.new)) result }
{
    let bytes = match read_to_end(alloc, source, limits::SCRIPT_BYTES) {
        Ok(bytes) => bytes,
        Err(InputFault::OverLimit) => return Err(Fault::Script(OVER_LIMIT)),
        Err(InputFault::Failed) => return Err(Fault::Read),
        Err(InputFault::NoMemory) => return Err(Fault::Memory),
    };
    match read_script_once(alloc, &bytes) {
        Ok(script) => Ok(script),
        Err(ReadFault::NoMemory) => Err(Fault::Memory),
        Err(fault) => Err(Fault::Script(fault)),
    }
}
