//! The limits of a script, a window and an input.
ghost use Rattle.std.specs.Prelude.{◌≡◌};
ghost use Rattle.home_types.specs.Limits.{most_check_bytes, most_commands, most_devices, most_downs, most_ms, most_probes, most_routines, most_runs, most_script_bytes, most_states, most_turns, most_windows};

/// Devices of a home.
pub const DEVICES: u32 = 256;
/// States of a device.
pub const STATES: u32 = 256;
/// Ranges of calls in which a simulated device is down.
pub const DOWNS: u32 = 16;
/// Routines of a script.
pub const ROUTINES: u32 = 1024;
/// Commands of a routine.
pub const COMMANDS: u32 = 64;
/// Windows of a script: one for each five minutes of a day.
pub const WINDOWS: u32 = 24 * 60 / 5;
/// Runs of a window.
pub const RUNS: u32 = 64;
/// Turns of a window.
pub const TURNS: u32 = 4096;
/// Rounds of probes of a window.
pub const PROBES: u32 = 100;
/// The `ms` and the `takes` of a command: one hour.
pub const COMMAND_MS: u32 = 60 * 60 * 1000;
/// Bytes of a script: 4 MiB.
pub const SCRIPT_BYTES: u64 = 4 * 1024 * 1024;
/// Bytes of an input with a record to check: 64 MiB.
pub const CHECK_BYTES: u64 = 64 * 1024 * 1024;

/// Each limit is the number that the definitions have for it.
pub fn limits_law()
    ensures devices { DEVICES ≡ most_devices }
    ensures states { STATES ≡ most_states }
    ensures downs { DOWNS ≡ most_downs }
    ensures routines { ROUTINES ≡ most_routines }
    ensures commands { COMMANDS ≡ most_commands }
    ensures windows { WINDOWS ≡ most_windows }
    ensures runs { RUNS ≡ most_runs }
    ensures turns { TURNS ≡ most_turns }
    ensures probes { PROBES ≡ most_probes }
    ensures command_ms { COMMAND_MS ≡ most_ms }
    ensures script_bytes { SCRIPT_BYTES ≡ most_script_bytes }
    ensures check_bytes { CHECK_BYTES ≡ most_check_bytes }
{}
