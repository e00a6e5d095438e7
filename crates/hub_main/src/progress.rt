//! Shows on standard error how far a watched day is.
use status_board::{Counts, Teller};
use std::alloc::Global;
use std::env;
use std::env::VarError;
use std::io::{IsTerminal, Write};

/// The variable of the environment by which a line is asked for each reading, where standard error
/// is no terminal.
const VARIABLE: &str = "LAZBENDIX_PROGRESS";

/// How a watched day is shown.
#[derive(Clone, Copy, Debug, PartialEq, Eq)]
pub enum Showing {
    /// Not at all.
    Off,
    /// By a line for each reading.
    Lines,
    /// By one line, which each reading writes anew.
    InPlace,
}

/// Shows each reading on a stream. Where nothing can be shown the day goes on.
#[derive(Drop)]
pub struct ShownProgress<W: Write> {
    alloc: Global,
    stream: W,
    showing: Showing,
    windows: u64,
    shown: Option<Counts>,
}

/// How a day is shown: on a terminal, in place where the record goes elsewhere; by lines where the
/// environment asks for it; else not at all.
pub fn how_to_show(rt: &HostRuntime) -> Showing {
    if rt.stderr().is_terminal() {
        // lines of the record would fall into a line that is written anew
        return if rt.stdout().is_terminal() {
            Showing::Lines
        } else {
            Showing::InPlace
        };
    }
    match env::var(rt, VARIABLE) {
        Err(VarError::NotPresent) => Showing::Off,
        // without memory it cannot be looked up
        Err(VarError::OutOfMemory) => Showing::Off,
        _ => Showing::Lines,
    }
}

impl<W: Write> ShownProgress<W> {
    pub fn new(alloc: Global, stream: W, showing: Showing) -> ShownProgress<W> {
        ShownProgress {
            alloc,
            stream,
            showing,
            windows: 0,
            shown: None,
        }
    }

    /// Whether the same numbers were shown last.
    fn has_shown(&self, counts: &Counts) -> bool {
        let going = Counts {
            over: false,
            ..*counts
        };
        self.shown == Some(going)
    }

    /// Writes a line of these counts, with what stands before and behind it.
    fn write_line(&mut self, before: &str, counts: &Counts, behind: &str) {
        let windows = self.windows;
        let Counts {
            windows: closed,
            committed,
            aborted,
            ..
        } = *counts;
        let line = format!(in self.alloc;
            "{before}window {closed} of {windows}: {committed} committed, {aborted} aborted{behind}"
        );
        if let Ok(line) = line {
            // Where it cannot be shown, the day goes on.
            let _ = self.stream.write_all(line.as_bytes());
        }
        self.shown = Some(Counts {
            over: false,
            ..*counts
        });
    }
}

impl<W: Write> Teller for ShownProgress<W> {
    fn begin(&mut self, windows: u64) {
        self.windows = windows;
    }

    fn tell(&mut self, counts: &Counts) {
        match self.showing {
            Showing::Off => {}
            Showing::Lines => {
                if !self.has_shown(counts) {
                    self.write_line("", counts, "\n");
                }
            }
            // back to the first column, and what stands behind the line is wiped
            Showing::InPlace => {
                self.write_line(
                    "\r",
                    counts,
                    if counts.over {
                        "\u{1b}[K\n"
                    } else {
                        "\u{1b}[K"
                    },
                )
            }
        }
    }
}
