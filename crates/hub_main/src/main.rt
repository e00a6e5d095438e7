// A day of a smart home: reads its script, plays its windows, and prints the record.
#![tactic(auto)]

ghost use Rattle.std.specs.Prelude.{◌≡◌, map, string_bytes};
ghost use Rattle.hub_commands.specs.Statuses.{fault_status, status_for_fault};
ghost use Rattle.hub_main.specs.FirstWords.{asks_for};

mod progress;

use day_clock::{Clock, Sink, Source, StdClock, StdSink, StdSource};
use device_states::{SimBench, SimDevice};
use home_journal::FILE_NAME;
use hub_commands::{
    Fault, Finish, RoomFinish, keep_command, room_command, run_command, still_command,
    watch_command_telling,
};
use progress::{Showing, ShownProgress, how_to_show};
use slot_disks::{Disk, FileDisk};
use status_board::Teller;
use std::alloc::Global;
use std::env;
use std::io::ErrorKind;
use std::process::ExitCode;
use std::sync::Wait;
use std::thread::Threads;

fn main(rt: HostRuntime) -> ExitCode {
    let words = match words_of(&rt) {
        Ok(words) => words,
        Err(fault) => return ExitCode::from(tell(&rt, &fault)),
    };
    let given: &[String] = match words.as_slice() {
        [_, given @ ..] => given,
        [] => &[],
    };
    let mut source = StdSource::new(rt.stdin());
    let mut sink = StdSink::new(rt.stdout());
    let clock = StdClock::new(&rt);
    let shows = if asks_for(given, "watch") {
        how_to_show(&rt)
    } else {
        Showing::Off
    };
    let mut teller = ShownProgress::new(rt.alloc(), rt.stderr(), shows);
    let finish = call(
        &rt,
        rt.alloc(),
        given,
        &mut source,
        &mut sink,
        &clock,
        &mut teller,
        FileDisk::new(&rt, FILE_NAME),
    );
    ExitCode::from(match &finish.fault {
        Some(fault) => tell(&rt, fault),
        None => finish.status,
    })
}

/// Makes the call that takes the command: the first word tells which.
fn call<
    R: Threads + Wait + Sync,
    S: Source,
    K: Sink,
    C: Clock + Sync,
    T: Teller + Send,
    Q: Disk + Drop,
>(
    rt: &R,
    alloc: Global,
    words: &[String],
    source: &mut S,
    sink: &mut K,
    clock: &C,
    teller: &mut T,
    disk: Q,
) -> Finish<SimDevice>
    ensures status { result.status ≡ status_for_fault result.fault }
{
    if asks_for(words, "run") {
        run_command(rt, alloc, words, source, sink, &mut SimBench, clock)
    } else if asks_for(words, "watch") {
        let (finish, _) = watch_command_telling(
            rt,
            alloc,
            words,
            source,
            sink,
            &mut SimBench,
            clock,
            teller,
        );
        finish
    } else if asks_for(words, "rooms") {
        without_day(room_command(rt, alloc, words, source, sink, &mut SimBench, clock))
    } else if asks_for(words, "keep") {
        let (finish, disk) = keep_command(alloc, words, source, sink, &mut SimBench, disk);
        drop(disk);
        finish
    } else {
        still_command(alloc, words, source, sink, &mut SimBench)
    }
}

/// The end of a call that ran rooms, without their day.
fn without_day(finish: RoomFinish<SimDevice>) -> Finish<SimDevice>
    requires { finish.status ≡ status_for_fault finish.fault }
    ensures status { result.status ≡ status_for_fault result.fault }
{
    let RoomFinish {
        status,
        windows,
        devices,
        fault,
    } = finish;
    drop(windows);
    drop(devices);
    Finish {
        status,
        day: None,
        fault,
    }
}

/// Whether the first word is this command.
fn asks_for(words: &[String], command: &str) -> bool
    ensures { result ≡ asks_for command.now (map string_bytes words.now) }
{
    matches!(words.first(), Some(word) if word.as_str() == command)
}

/// The words of the command line, the program's name before them.
///
/// `Memory` comes where there is no memory for them, and `Words` where one of them is not UTF-8.
fn words_of(rt: &HostRuntime) -> Result<Vec<String>, Fault> {
    let words = match env::args(rt) {
        Ok(words) => words,
        Err(error) => return Err(fault_of(error.kind())),
    };
    match words.collect(rt.alloc()) {
        Ok(words) => Ok(words),
        Err(_) => Err(Fault::Memory),
    }
}

/// Why the system gave no words.
fn fault_of(kind: ErrorKind) -> Fault {
    match kind {
        ErrorKind::OutOfMemory => Fault::Memory,
        _ => Fault::Words,
    }
}

/// Tells a fault on standard error, and answers its status.
fn tell(rt: &HostRuntime, fault: &Fault) -> u8
    ensures { result ≡ fault_status fault.now }
{
    // Where nothing can be told, the status still tells it.
    let _ = eprintln!(rt; "{fault}");
    fault.status()
}
