//! A verdict, as one line of the output.
ghost use Rattle.std.specs.Prelude.{IfOk};
ghost use Rattle.routine_reader.specs.Scripts.{plain_script};
ghost use Rattle.routine_reader.specs.Sound.{IsSound};

use crate::cases::Case;
use order_checker::{Place, Verdict, check_record};
use routine_reader::{Script, read_script};
use std::alloc::{AllocError, Global};
use std::fmt::Write as _;
use std::io::{self, Write};

/// Judges the record of a case, and writes a line: the name of the case, and that the record
/// agrees, or the window and the place where it does not.
pub fn write_verdict<W: Write>(alloc: Global, case: &Case, out: &mut W) -> io::Result<()> {
    let Ok(script) = read_script(alloc, case.script.as_bytes()) else {
        return Err(io::Error::from(io::ErrorKind::InvalidData));
    };
    let Ok(verdict) = check_record(alloc, &script, case.record.as_slice()) else {
        return Err(io::Error::from(io::ErrorKind::OutOfMemory));
    };
    let mut text = format!(in alloc; "{} ", case.name)?;
    push_verdict(&mut text, &script, verdict)?;
    out.write_all(text.as_bytes())
}

fn push_verdict(text: &mut String, script: &Script, verdict: Verdict) -> Result<(), AllocError> {
    match verdict {
        Verdict::Agrees => writeln!(text, "agrees"),
        Verdict::Differs { window, place } => {
            write!(text, "window {window} ")?;
            push_place(text, script, place)?;
            writeln!(text)
        }
    }
}

fn push_place(text: &mut String, script: &Script, place: Place) -> Result<(), AllocError> {
    match place {
        Place::Head => write!(text, "head"),
        Place::Window => write!(text, "window"),
        Place::Run(run) => write!(text, "run {}", run.0),
        Place::Order(item) => write!(text, "order {item}"),
        Place::Answer(run, command) => write!(text, "answer {}.{}", run.0, command as u64 + 1),
        Place::Home => write!(text, "home"),
        Place::Device(device) => match script.devices.as_slice().get(device.0 as usize) {
            Some(device) => write!(text, "device {}", device.name.as_str()),
            None => write!(text, "device"),
        },
        Place::Total => write!(text, "total"),
    }
}
