// Runs each case of a table through the call behind the program, and writes what comes of it.
#![tactic(auto)]

mod cases;
mod outcomes;

use cases::Cases;
use day_clock::StdSource;
use std::io;
use std::process::ExitCode;
use table_lines::{exit_of, play_cases, read_table};

fn main(rt: HostRuntime) -> ExitCode {
    exit_of(run(&rt))
}

fn run(rt: &HostRuntime) -> io::Result<()> {
    let alloc = rt.alloc();
    let table = read_table(alloc, &mut StdSource::new(rt.stdin()))?;
    let mut cases = Cases::new(alloc);
    play_cases(alloc, table.as_slice(), &mut cases, &mut rt.stdout())
}
