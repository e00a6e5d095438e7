//! A case of the table: a script, and a record to judge by it.
use crate::verdicts::write_verdict;
use std::alloc::{AllocError, Global};
use std::io::{self, Write};
use table_lines::{LineFault, TableCase, push_bytes};

/// A record, and the script that it is judged by.
#[derive(Drop)]
pub struct Case {
    pub script: String,
    pub name: String,
    pub record: Vec<u8>,
}

impl Case {
    pub fn new(alloc: Global) -> Case {
        Case {
            script: String::new(alloc),
            name: String::new(alloc),
            record: Vec::new(alloc),
        }
    }

    /// Forgets the name and the record. The script stays for the cases behind it.
    fn end(&mut self) {
        self.name.clear();
        self.record.clear();
    }

    fn set_script(&mut self, text: &str) -> Result<(), AllocError> {
        self.script.clear();
        self.script.push_str(text)?;
        Ok(())
    }
}

impl<W: Write> TableCase<W> for Case {
    fn add(&mut self, _alloc: Global, verb: &str, rest: &str) -> Result<(), LineFault> {
        match verb {
            "script" => self.set_script(rest)?,
            "case" => self.name.push_str(rest)?,
            _ => push_bytes(&mut self.record, verb, rest)?,
        }
        Ok(())
    }

    fn play(&mut self, alloc: Global, out: &mut W) -> io::Result<()> {
        write_verdict(alloc, self, out)?;
        self.end();
        Ok(())
    }
}
