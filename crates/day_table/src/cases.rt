//! A case of the table: the words, the input, and the calls that fail.
use crate::outcomes::write_outcome;
use std::alloc::{AllocError, Global};
use std::io::{self, Write};
use table_lines::{LineFault, TableCase, push_byte, push_bytes};

/// Which call of a source or a sink fails, 0 for none, and how many bytes a call moves at most.
#[derive(Clone, Copy, Debug, PartialEq, Eq)]
pub struct Behaviour {
    pub fails: u64,
    pub most: u64,
}

const CALM: Behaviour = Behaviour {
    fails: 0,
    most: 65_536,
};

/// How many bytes a sink holds, where a case does not say.
const ROOM: u64 = 1 << 16;

/// What a case may take from those before it.
#[derive(Drop)]
pub struct Before {
    /// The input that was kept last.
    pub kept: Vec<u8>,
    /// What the sink of the last call holds.
    pub record: Vec<u8>,
    /// What the crash behind the last call that was to keep a day left of its disk.
    pub file: Vec<u8>,
}

impl Before {
    pub fn new(alloc: Global) -> Before {
        Before {
            kept: Vec::new(alloc),
            record: Vec::new(alloc),
            file: Vec::new(alloc),
        }
    }
}

/// From which call on a disk fails, 0 for none, and how many bytes it holds at most.
#[derive(Clone, Copy, Debug, PartialEq, Eq)]
pub struct Failing {
    pub from: u64,
    pub room: u64,
}

/// A disk that holds the greatest file of a home with a few devices, and fails in no call.
const WHOLE: Failing = Failing {
    from: 0,
    room: ROOM,
};

/// A call: its words, its input, and how its source, its sink and its disk behave.
#[derive(Drop)]
pub struct Case {
    pub name: String,
    pub words: Vec<String>,
    pub input: Vec<u8>,
    pub source: Behaviour,
    pub sink: Behaviour,
    pub room: u64,
    pub disk: Failing,
    /// What the disk holds before the call.
    pub file: Vec<u8>,
    /// Whether the crash behind the call loses what was written since the last sync.
    pub loses: bool,
}

impl Case {
    pub fn new(alloc: Global) -> Case {
        Case {
            name: String::new(alloc),
            words: Vec::new(alloc),
            input: Vec::new(alloc),
            source: CALM,
            sink: CALM,
            room: ROOM,
            disk: WHOLE,
            file: Vec::new(alloc),
            loses: false,
        }
    }

    /// Adds what a line of the table says.
    fn add_line(
        &mut self,
        alloc: Global,
        before: &mut Before,
        verb: &str,
        rest: &str,
    ) -> Result<(), LineFault> {
        match verb {
            "case" => self.name.push_str(rest)?,
            "word" => self.add_word(alloc, rest)?,
            "source" => self.source = behaviour_of(rest)?,
            "sink" => self.sink = behaviour_of(rest)?,
            "room" => self.room = number_of(rest)?,
            "keep" => before.kept = copy_of(alloc, self.input.as_slice())?,
            "disk" => self.disk = failing_of(rest)?,
            "loses" => self.loses = true,
            "file" => self.add_file(rest)?,
            "found" => self.file.extend_from_slice(before.file.as_slice())?,
            _ => self.add_input(before, verb, rest)?,
        }
        Ok(())
    }

    /// Adds more bytes of the input.
    fn add_input(&mut self, before: &Before, verb: &str, rest: &str) -> Result<(), LineFault> {
        match verb {
            "times" => self.add_times(rest)?,
            "kept" => self.input.extend_from_slice(before.kept.as_slice())?,
            "first" => self.add_first(before.kept.as_slice(), number_of(rest)?)?,
            "record" => self.input.extend_from_slice(before.record.as_slice())?,
            _ => push_bytes(&mut self.input, verb, rest)?,
        }
        Ok(())
    }

    fn add_word(&mut self, alloc: Global, word: &str) -> Result<(), AllocError> {
        self.words.push(String::from_str(alloc, word)?)?;
        Ok(())
    }

    /// Adds these bytes to the file, whose numbers stand between blanks.
    fn add_file(&mut self, rest: &str) -> Result<(), LineFault> {
        for byte in rest.split(' ') {
            push_byte(&mut self.file, byte)?;
        }
        Ok(())
    }

    /// Whether the first word is this command.
    pub fn asks_for(&self, command: &str) -> bool {
        matches!(self.words.first(), Some(word) if word.as_str() == command)
    }

    /// Adds the first bytes, so many.
    fn add_first(&mut self, bytes: &[u8], count: u64) -> Result<(), LineFault> {
        let count = count.min(bytes.len() as u64) as usize;
        self.input.extend_from_slice(&bytes[..count])?;
        Ok(())
    }

    /// Adds a text a number of times: the number, a blank and the text.
    fn add_times(&mut self, rest: &str) -> Result<(), LineFault> {
        let (count, text) = rest.split_once(" ").ok_or(LineFault::Unknown)?;
        for _ in 0..number_of(count)? {
            self.input.extend_from_slice(text.as_bytes())?;
        }
        Ok(())
    }
}

/// The cases of the table: the one that is made, and what it may take from those before it.
#[derive(Drop)]
pub struct Cases {
    case: Case,
    before: Before,
}

impl Cases {
    pub fn new(alloc: Global) -> Cases {
        Cases {
            case: Case::new(alloc),
            before: Before::new(alloc),
        }
    }
}

impl<W: Write> TableCase<W> for Cases {
    fn add(&mut self, alloc: Global, verb: &str, rest: &str) -> Result<(), LineFault> {
        self.case.add_line(alloc, &mut self.before, verb, rest)
    }

    fn play(&mut self, alloc: Global, out: &mut W) -> io::Result<()> {
        write_outcome(alloc, &self.case, &mut self.before, out)?;
        self.case = Case::new(alloc);
        Ok(())
    }
}

pub fn copy_of(alloc: Global, bytes: &[u8]) -> Result<Vec<u8>, AllocError> {
    let mut copy = Vec::new(alloc);
    copy.extend_from_slice(bytes)?;
    Ok(copy)
}

/// Reads the call that fails and the bytes of a call.
fn behaviour_of(text: &str) -> Result<Behaviour, LineFault> {
    let (fails, most) = text.split_once(" ").ok_or(LineFault::Unknown)?;
    Ok(Behaviour {
        fails: number_of(fails)?,
        most: number_of(most)?,
    })
}

/// Reads the call from which on a disk fails and the bytes that it holds.
fn failing_of(text: &str) -> Result<Failing, LineFault> {
    let (from, room) = text.split_once(" ").ok_or(LineFault::Unknown)?;
    Ok(Failing {
        from: number_of(from)?,
        room: number_of(room)?,
    })
}

fn number_of(text: &str) -> Result<u64, LineFault> {
    text.parse().map_err(|_| LineFault::Unknown)
}
