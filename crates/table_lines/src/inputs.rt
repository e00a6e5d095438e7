//! A table as the input of its program, and how the program ends.
use day_clock::{InputFault, Source, read_to_end};
use std::alloc::Global;
use std::io;
use std::process::ExitCode;

/// A table has at most this many bytes.
const MOST_BYTES: u64 = 4 * 1024 * 1024;

/// Reads a table whole.
pub fn read_table<S: Source>(alloc: Global, source: &mut S) -> io::Result<Vec<u8>> {
    match read_to_end(alloc, source, MOST_BYTES) {
        Ok(bytes) => Ok(bytes),
        Err(InputFault::NoMemory) => Err(io::Error::from(io::ErrorKind::OutOfMemory)),
        Err(_) => Err(io::Error::from(io::ErrorKind::InvalidInput)),
    }
}

/// The status of a program that has written what its table asks, or has failed.
pub fn exit_of(written: io::Result<()>) -> ExitCode {
    match written {
        Ok(()) => ExitCode::SUCCESS,
        Err(_) => ExitCode::FAILURE,
    }
}
