/// The model by which the runs of a window see each other.
#[derive(Clone, Copy, Debug, PartialEq, Eq)]
pub enum Visibility {
    /// No order is promised.
    Weak,
    /// One run after another.
    Global,
    /// One after another where they share a device.
    Partitioned,
    /// Runs overlap, and end as if they had run one by one.
    Eventual,
}

/// How a run gets its place in the line. All but `Fcfs` go with `Visibility::Eventual` alone.
#[derive(Clone, Copy, Debug, PartialEq, Eq)]
pub enum Scheduler {
    /// First come, first served.
    Fcfs,
    /// As early as the devices are free when the run asks.
    JustInTime,
    /// As early as its planned times fit.
    Timeline,
}

/// How a window is opened.
#[derive(Clone, Copy, Debug, PartialEq, Eq)]
pub struct Mode {
    pub model: Visibility,
    pub scheduler: Scheduler,
}
