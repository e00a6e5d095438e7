// Judges each record of a table by its script, and writes the verdicts, a line each.
#![tactic(auto)]

mod cases;
mod verdicts;

use cases::Case;
use day_clock::StdSource;
use std::io;
use std::process::ExitCode;
use table_lines::{exit_of, play_cases, read_table};

fn main(rt: HostRuntime) -> ExitCode {
    exit_of(run(&rt))
}

fn run(rt: &HostRuntime) -> io::Result<()> {
    let alloc = rt.alloc();
    let table = read_table(alloc, &mut StdSource::new(rt.stdin()))?;
    let mut case = Case::new(alloc);
    play_cases(alloc, table.as_slice(), &mut case, &mut rt.stdout())
}
