//! Where bytes come from, and how a source is read to its end within a limit.
ghost use Rattle.std.specs.Prelude.{◌≡◌, ◌+◌, ◌<◌, ◌≤◌, ℕ, List, Option, length, take, IfOk, IfSome, OnOk, OnErr, IsErrOf, vec_len};
ghost use Rattle.std.specs.Io.KnownBytes.{Consumes, IsAtEnd, Keeps};
ghost use Rattle.day_clock.specs.Sources.{CountsFaults, TakesCount, TakesUpTo};
ghost use Rattle.day_clock.specs.declared.sources.InputFault.TheVariants.{Failed as SourceFailed, NoMemory as OutOfMemory};

use crate::faults::Failed;
use std::alloc::{AllocError, Global};

/// Where bytes come from, one chunk after another.
pub trait Source {
    /// The bytes to come, where the source tells them.
    ghost left: { Self → Option (List ℕ) };

    /// How often it has failed. The count never falls.
    ghost faults: { Self → ℕ };

    /// Reads the next bytes into the front of `into`, and answers how many they are; what stands
    /// behind them in `into` is free. 0 is the end, where `into` is not empty. `Failed` takes
    /// nothing.
    fn read(&mut self, into: &mut [u8]) -> Result<usize, Failed>
        ensures fits { IfOk result (λ n. n ≤ length into.old) }
        ensures gives { IfOk result
            (λ n. Consumes (left self.old) (left self.new) (take n into.new)) }
        ensures ends { result ≡ Ok 0 → 0 < length into.old → IsAtEnd (left self.new) }
        ensures keeps { OnErr result (Keeps (left self.old) (left self.new)) }
        ensures fine { OnOk result (faults self.new ≡ faults self.old) }
        ensures failed { OnErr result (faults self.old < faults self.new) };
}

/// Why an input was not read whole.
#[derive(Clone, Copy, Debug, PartialEq, Eq)]
pub enum InputFault {
    /// It is longer than the limit.
    OverLimit,
    /// The source failed.
    Failed,
    /// There was no memory for the bytes.
    NoMemory,
}

impl From<Failed> for InputFault {
    ghost from_gives = { λ _ fault. fault ≡ SourceFailed };

    fn from(_: Failed) -> InputFault {
        InputFault::Failed
    }
}

impl From<AllocError> for InputFault {
    ghost from_gives = { λ _ fault. fault ≡ OutOfMemory };

    fn from(_: AllocError) -> InputFault {
        InputFault::NoMemory
    }
}

/// How many bytes are asked for at once.
const CHUNK: usize = 4096;

/// Reads a source to its end, and gives all the bytes.
///
/// It never takes more than `limit` bytes and one, and stops there with `OverLimit`. `Failed` comes
/// where the source fails, and `NoMemory` where there is no memory for the bytes.
pub fn read_to_end<S: Source>(
    alloc: Global,
    source: &mut S,
    limit: u64,
) -> Result<Vec<u8>, InputFault>
    ensures whole { IfOk result (λ bytes. IfSome (S.left source.old) (λ all. bytes.items ≡ all)) }
    ensures ended { OnOk result (IsAtEnd (S.left source.new)) }
    ensures within { IfOk result (λ bytes. vec_len bytes ≤ limit) }
    ensures over_limit { IsErrOf result InputFault.OverLimit
        → TakesCount (S.left source.old) (S.left source.new) (limit + 1) }
    ensures taken { TakesUpTo (S.left source.old) (S.left source.new) (limit + 1) }
    ensures faults { CountsFaults result (S.faults source.old) (S.faults source.new) }
{
    let mut held = Vec::new(alloc);
    let mut chunk = [0u8; CHUNK];
    while held.len() as u64 <= limit {
        let rest = limit - held.len() as u64;
        let room = rest.min(CHUNK as u64 - 1) as usize + 1;
        let count = source.read(&mut chunk[..room])?;
        if count == 0 {
            return Ok(held);
        }
        held.extend_from_slice(&chunk[..count])?;
    }
    Err(InputFault::OverLimit)
}
