//! The standard output as a sink.
ghost use Rattle.std.specs.Prelude.{◌≡◌};

use crate::faults::{Failed, FaultCount};
use crate::sinks::Sink;
use std::io::Write;

/// A writer of std, such as the standard output, as a sink. Each error is a fault, and each call
/// that takes nothing of a chunk that is not empty. It never flushes, so the writer is to hold
/// nothing back.
#[derive(Drop)]
pub struct StdSink<W> {
    writer: W,
    faults: FaultCount,
}

impl<W: Write> StdSink<W> {
    /// Makes a sink that holds what the writer holds, and has not failed.
    pub fn new(writer: W) -> StdSink<W>
        ensures holds { ⟦<StdSink<W> as Sink>⟧.holds result ≡ W.contents writer }
        ensures faults { ⟦<StdSink<W> as Sink>⟧.faults result ≡ 0 }
    {
        StdSink {
            writer,
            faults: FaultCount::new(),
        }
    }
}

impl<W: Write> Sink for StdSink<W> {
    ghost holds = { λ s. W.contents s.writer };

    ghost faults = { λ s. s.faults };

    fn write(&mut self, from: &[u8]) -> Result<usize, Failed> {
        match self.writer.write(from) {
            Ok(count) => {
                if count == 0 && !from.is_empty() {
                    self.faults.raise();
                }
                Ok(count)
            }
            Err(_) => {
                self.faults.raise();
                Err(Failed)
            }
        }
    }
}
