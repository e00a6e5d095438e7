//! Who is told what a watcher reads.
use crate::day_counts::Counts;

/// Who is told what a watcher reads while the day runs. Nothing is asked of it, and no promise
/// rests on it.
pub trait Teller {
    /// A day of so many windows begins.
    fn begin(&mut self, windows: u64);

    /// These counts were read; they are not those that were told before, or they are the first.
    fn tell(&mut self, counts: &Counts);
}

/// Tells nobody.
#[derive(Clone, Copy, Debug)]
pub struct Silent;

impl Teller for Silent {
    fn begin(&mut self, _windows: u64) {}

    fn tell(&mut self, _counts: &Counts) {}
}
