//! Laws of a whole window: its invariant at the start, in each kind of step, and what it says of
//! the window's order. Each is a function with no work in it, whose contract is the law.

ghost use Rattle.device_order.specs.LineEntries.{usage};
ghost use Rattle.device_order.specs.LineOrders.{all_committed};
ghost use Rattle.device_order.specs.RunStates.{device_summary, uses_device};
ghost use Rattle.device_order.specs.Usages.{has_used_device};
ghost use Rattle.device_order.specs.WindowSteps.{AccessDies, CommandGoesOut, DeviceRestarts, DownIsAnswered, ProbeDies, ProbeDiesUnderRun, ProbeFindsDown, ProbeFindsUp, ProbeGoesOut, ReadIsAnswered, RunCommits, RunIsDoomed, RunIsPlaced, RunLeaves, SkipIsAnswered, UndoDies, UndoGoesOut, UndoIsAnswered, UndoIsDropped, WindowStarts, WriteIsAnswered};
ghost use Rattle.device_order.specs.Windows.{HasLiveWriteAt, IsCovered, IsPendingAt, LineIsWhole, OrderIsSerial, StandsBefore, WindowInvariant, WindowModel};
ghost use Rattle.home_types.specs.declared.commands.Command.{Command};
ghost use Rattle.home_types.specs.declared.kinds.Kind.{Kind};
ghost use Rattle.std.specs.Prelude.{Bool, List, false, is_some, length, true, ℕ, ◌<◌, ◌≡◌};

/// At its start a window is as its invariant says.
pub fn window_starts()
    ensures { (kinds : List Kind) (s : WindowModel) → WindowStarts s → WindowInvariant kinds s }
{}

/// The invariant stays where a run is placed, doomed, committed or aborted.
pub fn runs_keep_window()
    ensures placed { (kinds : List Kind) (s next : WindowModel) (r : ℕ) → RunIsPlaced kinds s next r
        → WindowInvariant kinds s → WindowInvariant kinds next }
    ensures doomed { (kinds : List Kind) (s next : WindowModel) (r : ℕ) → RunIsDoomed s next r
        → WindowInvariant kinds s → WindowInvariant kinds next }
    ensures commits { (kinds : List Kind) (s next : WindowModel) (r : ℕ) → RunCommits s next r
        → WindowInvariant kinds s → WindowInvariant kinds next }
    ensures leaves { (kinds : List Kind) (s next : WindowModel) (r : ℕ) → RunLeaves kinds s next r
        → WindowInvariant kinds s → WindowInvariant kinds next }
{}

/// The invariant stays where a command goes out, and where it is answered, whether or not the
/// answer dooms its run; also where it is skipped.
pub fn commands_keep_window()
    ensures out { (kinds : List Kind) (s next : WindowModel) (r : ℕ) (c : Command)
        (later : List Command) → CommandGoesOut kinds s next r c later → WindowInvariant kinds s
        → WindowInvariant kinds next }
    ensures write { (kinds : List Kind) (s next : WindowModel) (r : ℕ) (c : Command)
        (later : List Command) (dooms : Bool) → WriteIsAnswered kinds s next r c later dooms
        → WindowInvariant kinds s → WindowInvariant kinds next }
    ensures read { (kinds : List Kind) (s next : WindowModel) (r : ℕ) (c : Command)
        (later : List Command) (x : ℕ) (dooms : Bool) → ReadIsAnswered kinds s next r c later x
        dooms → WindowInvariant kinds s → WindowInvariant kinds next }
    ensures died { (kinds : List Kind) (s next : WindowModel) (r k : ℕ) (c : Command)
        (later : List Command) (dooms : Bool) → AccessDies kinds s next r k c later dooms
        → WindowInvariant kinds s → WindowInvariant kinds next }
    ensures down { (kinds : List Kind) (s next : WindowModel) (r : ℕ) (c : Command)
        (later : List Command) (dooms : Bool) → DownIsAnswered kinds s next r c later dooms
        → WindowInvariant kinds s → WindowInvariant kinds next }
    ensures skipped { (kinds : List Kind) (s next : WindowModel) (r : ℕ) (c : Command)
        (later : List Command) → SkipIsAnswered kinds s next r c later → WindowInvariant kinds s
        → WindowInvariant kinds next }
{}

/// The invariant stays where an undo goes out, is answered, dies or is dropped.
pub fn undos_keep_window()
    ensures out { (kinds : List Kind) (s next : WindowModel) (r d : ℕ)
        → UndoGoesOut kinds s next r d → WindowInvariant kinds s → WindowInvariant kinds next }
    ensures answered { (kinds : List Kind) (s next : WindowModel) (r d v : ℕ)
        → UndoIsAnswered s next r d v → WindowInvariant kinds s → WindowInvariant kinds next }
    ensures died { (kinds : List Kind) (s next : WindowModel) (r d k v : ℕ)
        → UndoDies kinds s next r d k v → WindowInvariant kinds s → WindowInvariant kinds next }
    ensures dropped { (kinds : List Kind) (s next : WindowModel) (r d : ℕ)
        → UndoIsDropped kinds s next r d → WindowInvariant kinds s → WindowInvariant kinds next }
{}

/// The invariant stays where a probe goes out, and whatever it finds.
pub fn probes_keep_window()
    ensures out { (kinds : List Kind) (s next : WindowModel) (d : ℕ) → ProbeGoesOut kinds s next d
        → WindowInvariant kinds s → WindowInvariant kinds next }
    ensures found_up { (kinds : List Kind) (s next : WindowModel) (d : ℕ) → ProbeFindsUp s next d
        → WindowInvariant kinds s → WindowInvariant kinds next }
    ensures found_down { (kinds : List Kind) (s next : WindowModel) (d v : ℕ)
        → ProbeFindsDown s next d v → WindowInvariant kinds s → WindowInvariant kinds next }
    ensures died { (kinds : List Kind) (s next : WindowModel) (d k : ℕ) → ProbeDies kinds s next d k
        → WindowInvariant kinds s → WindowInvariant kinds next }
    ensures died_under_run { (kinds : List Kind) (s next : WindowModel) (r d k : ℕ)
        → ProbeDiesUnderRun kinds s next r d k → WindowInvariant kinds s
        → WindowInvariant kinds next }
    ensures restarted { (kinds : List Kind) (s next : WindowModel) (d k v : ℕ)
        → DeviceRestarts kinds s next d k v → WindowInvariant kinds s → WindowInvariant kinds next }
{}

/// The events and the committed runs of the line are a serial execution: it is not refused, gives
/// the runs their answers, and ends with each device at its committed value, up or down as it is
/// counted.
pub fn order_is_serial()
    ensures { (kinds : List Kind) (s : WindowModel) → WindowInvariant kinds s
        → OrderIsSerial kinds s }
{}

/// Behind a live run that is not doomed and has a command left on a device, no run has touched the
/// device.
pub fn pending_device_is_untouched()
    ensures { (kinds : List Kind) (s : WindowModel) (d x w : ℕ) (p : StandsBefore x w s.line)
        → WindowInvariant kinds s → d < length s.first → IsPendingAt s d x → uses_device d
        (s.states w).commands ≡ true → has_used_device (usage kinds (s.states w) d) ≡ false }
{}

/// A run that read a device before it wrote it, behind a live run's write there that no entry
/// undid, stands behind a committed write between them.
pub fn read_is_covered()
    ensures { (kinds : List Kind) (s : WindowModel) (d x w : ℕ) (p : StandsBefore x w s.line)
        → WindowInvariant kinds s → d < length s.first → HasLiveWriteAt kinds s d x → is_some
        (device_summary kinds (s.states w) d).read ≡ true → IsCovered kinds s.states d p.between }
{}

/// Where each run of the line has committed, the line is a serial execution, and each device that
/// is home and up stands where it ends.
pub fn window_ends()
    ensures { (kinds : List Kind) (s : WindowModel) → WindowInvariant kinds s
        → all_committed s.states s.line ≡ true → LineIsWhole kinds s }
{}
