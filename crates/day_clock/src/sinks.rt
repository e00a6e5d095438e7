//! Where bytes go, and how all bytes of a text are written.
ghost use Rattle.std.specs.Prelude.{◌≡◌, ◌<◌, ◌≤◌, ℕ, List, Option, length, take, IfOk, OnOk, OnErr};
ghost use Rattle.std.specs.Io.KnownBytes.{Appends, Keeps};
ghost use Rattle.day_clock.specs.Sinks.{AppendsPart};

use crate::faults::Failed;

/// Where bytes go to, one chunk after another.
pub trait Sink {
    /// The bytes that it holds, where the sink tells them.
    ghost holds: { Self → Option (List ℕ) };

    /// How often it has failed, or has taken nothing of a chunk. The count never falls.
    ghost faults: { Self → ℕ };

    /// Writes the first bytes of `from`, and answers how many they are. 0 is a fault, where `from`
    /// is not empty. `Failed` writes nothing.
    fn write(&mut self, from: &[u8]) -> Result<usize, Failed>
        ensures fits { IfOk result (λ n. n ≤ length from.now) }
        ensures appends { IfOk result
            (λ n. Appends (holds self.old) (holds self.new) (take n from.now)) }
        ensures keeps { OnErr result (Keeps (holds self.old) (holds self.new)) }
        ensures fine { IfOk result (λ n. 0 < n → faults self.new ≡ faults self.old) }
        ensures nothing_asked { OnOk result
            (length from.now ≡ 0 → faults self.new ≡ faults self.old) }
        ensures nothing_taken { result ≡ Ok 0 → 0 < length from.now
            → faults self.old < faults self.new }
        ensures failed { OnErr result (faults self.old < faults self.new) };
}

/// Writes all of `bytes`, in as many chunks as the sink takes.
///
/// `Failed` comes where the sink fails or takes nothing; the sink then has a first part of `bytes`,
/// and not all of them.
pub fn write_all<K: Sink>(sink: &mut K, bytes: &[u8]) -> Result<(), Failed>
    ensures whole { OnOk result (Appends (K.holds sink.old) (K.holds sink.new) bytes.now) }
    ensures fine { OnOk result (K.faults sink.new ≡ K.faults sink.old) }
    ensures part { OnErr result (AppendsPart (K.holds sink.old) (K.holds sink.new) bytes.now) }
    ensures failed { OnErr result (K.faults sink.old < K.faults sink.new) }
{
    let mut rest = bytes;
    while !rest.is_empty() {
        let count = sink.write(rest)?;
        if count == 0 {
            return Err(Failed);
        }
        rest = &rest[count..];
    }
    Ok(())
}
