// Reads each line of the input as a script, and writes what it says or why it is refused; at the
// end it writes the text of the one refusal that no script has, want of memory.
#![tactic(auto)]

mod shown;

use day_clock::StdSource;
use routine_reader::{ReadFault, read_script};
use shown::script_text;
use std::io::{self, Write};
use std::process::ExitCode;
use table_lines::{exit_of, read_table};

fn main(rt: HostRuntime) -> ExitCode {
    exit_of(run(&rt))
}

fn run(rt: &HostRuntime) -> io::Result<()> {
    let table = read_table(rt.alloc(), &mut StdSource::new(rt.stdin()))?;
    for line in table.as_slice().split(|byte| *byte == b'\n') {
        match read_script(rt.alloc(), line) {
            Ok(script) => println!(rt; "{}", script_text(rt.alloc(), &script)?)?,
            Err(fault) => println!(rt; "{fault}")?,
        }
    }
    println!(rt; "{}", ReadFault::NoMemory)?;
    Ok(())
}
