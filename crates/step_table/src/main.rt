// Reads each line of the input as a window and what is to be done in it, and writes what the hub or
// the player answers.
#![tactic(auto)]

mod answers;
mod desks;
mod openings;
mod plays;
mod rows;
mod runs;
mod serial_orders;
mod steps;

use day_clock::{Clock, Source, StdClock, StdSource};
use std::io;
use std::process::ExitCode;
use std::sync::Wait;
use std::thread::Threads;
use table_lines::{exit_of, read_table};

fn main(rt: HostRuntime) -> ExitCode {
    let mut source = StdSource::new(rt.stdin());
    let clock = StdClock::new(&rt);
    exit_of(run(&rt, &mut source, &clock))
}

fn run<R: Threads + Wait + Sync + Print + AllocGlobal, S: Source, C: Clock + Sync>(
    rt: &R,
    source: &mut S,
    clock: &C,
) -> io::Result<()> {
    let table = read_table(rt.alloc(), source)?;
    for line in table.as_slice().split(|byte| *byte == b'\n') {
        if !line.is_empty() {
            let mut text = String::new(rt.alloc());
            rows::push_row(rt, rt.alloc(), clock, &mut text, line)?;
            print!(rt; "{text}")?;
        }
    }
    Ok(())
}
