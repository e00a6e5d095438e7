//! The cases of a table: each is made line after line, and played where a line says so.
use std::alloc::{AllocError, Global};
use std::io::{self, Write};

/// Why a line of a table was not added to its case.
#[derive(Clone, Copy, Debug, PartialEq, Eq)]
pub enum LineFault {
    /// It is no line of a case.
    Unknown,
    NoMemory,
}

impl From<AllocError> for LineFault {
    fn from(_: AllocError) -> LineFault {
        LineFault::NoMemory
    }
}

impl From<LineFault> for io::Error {
    fn from(fault: LineFault) -> io::Error {
        match fault {
            LineFault::Unknown => io::Error::from(io::ErrorKind::InvalidData),
            LineFault::NoMemory => io::Error::from(io::ErrorKind::OutOfMemory),
        }
    }
}

/// The case that the lines of a table make.
pub trait TableCase<W: Write> {
    /// Adds what a line says: its verb, and what stands behind the first blank.
    fn add(&mut self, alloc: Global, verb: &str, rest: &str) -> Result<(), LineFault>;

    /// Plays the case, writes what came of it, and leaves what the next one begins with.
    fn play(&mut self, alloc: Global, out: &mut W) -> io::Result<()>;
}

/// Adds each line of the table to the case, and plays it at each line `run`.
pub fn play_cases<C: TableCase<W>, W: Write>(
    alloc: Global,
    table: &[u8],
    case: &mut C,
    out: &mut W,
) -> io::Result<()> {
    let Ok(text) = str::from_utf8(table) else {
        return Err(io::Error::from(io::ErrorKind::InvalidData));
    };
    for line in text.lines() {
        if line == "run" {
            case.play(alloc, out)?;
        } else {
            let (verb, rest) = line.split_once(" ").unwrap_or((line, ""));
            case.add(alloc, verb, rest)?;
        }
    }
    Ok(())
}

/// Adds bytes as a verb says: a text, a text with a line feed, or the byte of a number.
pub fn push_bytes(bytes: &mut Vec<u8>, verb: &str, rest: &str) -> Result<(), LineFault> {
    match verb {
        "text" => bytes.extend_from_slice(rest.as_bytes())?,
        "line" => push_line(bytes, rest)?,
        "byte" => push_byte(bytes, rest)?,
        _ => return Err(LineFault::Unknown),
    }
    Ok(())
}

/// Adds the byte of this number.
pub fn push_byte(bytes: &mut Vec<u8>, number: &str) -> Result<(), LineFault> {
    push_one(bytes, number.parse().map_err(|_| LineFault::Unknown)?)?;
    Ok(())
}

fn push_one(bytes: &mut Vec<u8>, byte: u8) -> Result<(), AllocError> {
    bytes.push(byte)?;
    Ok(())
}

fn push_line(bytes: &mut Vec<u8>, text: &str) -> Result<(), AllocError> {
    bytes.extend_from_slice(text.as_bytes())?;
    push_one(bytes, b'\n')
}
