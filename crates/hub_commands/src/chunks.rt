//! A chunk of text, made and written.
ghost use Rattle.std.specs.Prelude.{Err, Ok};
ghost use Rattle.hub_commands.specs.Chunks.{ChunkEnds};
ghost use Rattle.hub_commands.specs.Finishes.{written};

use day_clock::{Sink, write_all};
use home_types::{Bytes, NoMemory};

/// Why a chunk of the record was not written.
#[derive(Drop)]
pub enum ChunkFault {
    /// The sink failed, and got a first part.
    Sink,
    /// There was no memory for the chunk.
    Memory,
}

/// Writes a chunk of the record, where there was memory for it.
pub fn write_chunk<K: Sink>(sink: &mut K, chunk: Result<Bytes, NoMemory>) -> Result<(), ChunkFault>
    ensures { ChunkEnds
        (written (K.holds sink.old) (K.holds sink.new) (K.faults sink.old) (K.faults sink.new))
        chunk result }
{
    let Ok(bytes) = chunk else {
        return Err(ChunkFault::Memory);
    };
    match write_all(sink, bytes.as_slice()) {
        Ok(()) => Ok(()),
        Err(_) => Err(ChunkFault::Sink),
    }
}
