//! A day under way: its home and records, the opening of the next window and its closing.
ghost use Rattle.std.specs.Prelude.{◌≡◌, ◌+◌, ◌<◌, ◌≤◌, IfErr, IfOk, IsTrue, length};
ghost use Rattle.home_types.specs.Limits.{most_windows};
ghost use Rattle.hub_commands.specs.Played.{IsClosed, NextIsOpened};
ghost use Rattle.legal_days.specs.LegalDays.{windows_behind};
ghost use Rattle.hub_core.specs.Openings.{is_mode};
ghost use Rattle.routine_reader.specs.Rosters.{kinds_of};
ghost use Rattle.routine_reader.specs.Scripts.{plain_script};
ghost use Rattle.routine_reader.specs.Sound.{IsSound};

use crate::told_windows::ToldWindow;
use device_states::Device;
use history_book::WindowRecord;
use home_types::{List, Mode, NoMemory};
use hub_core::{Home, Hub};
use routine_reader::{Script, WindowText, roster};
use std::alloc::Global;

/// A day under way: the home after its last window, and its windows.
#[derive(Drop)]
pub struct DayUnderWay<Dev: Device> {
    pub home: Home<Dev>,
    pub windows: List<ToldWindow>,
}

/// A day under way, and the record of its last window, whose lines are not written yet.
#[derive(Drop)]
pub struct UntoldDay<Dev: Device> {
    pub home: Home<Dev>,
    pub windows: List<ToldWindow>,
    pub closed: WindowRecord,
}

/// Opens the next window of the script on the home, and takes the memory for its counts. So many
/// windows of the script went before the day.
///
/// The window's text comes with its hub, and the windows before come back; where memory is wanted
/// the home is dropped.
pub fn open_next<'a, Dev: Device>(
    alloc: Global,
    script: &'a Script,
    mode: Mode,
    before: u32,
    day: DayUnderWay<Dev>,
) -> Result<(Hub<Dev>, &'a WindowText, List<ToldWindow>), List<ToldWindow>>
    requires sound { IsSound (plain_script script.now) }
    requires goes { IsTrue (is_mode mode) }
    requires next { before + length day.windows.items < length script.now.windows.items }
    requires kinds { day.home.kinds ≡ kinds_of script.now }
    requires few { day.home.opened ≤ most_windows }
    ensures opened { IfOk result (λ opened. NextIsOpened Dev.shows
        (windows_behind before script.now) mode (length day.windows.items) day.home opened.0
        opened.1.now) }
    ensures records { IfOk result (λ opened. opened.2.items ≡ day.windows.items) }
    ensures room { IfOk result (λ opened. 0 < opened.2.spare) }
    ensures starved { IfErr result (λ windows. windows.items ≡ day.windows.items) }
{
    let DayUnderWay { home, mut windows } = day;
    let left = script.windows.len() - windows.len();
    if windows.reserve(left).is_err() {
        return Err(windows);
    }
    let count = windows.len() as u32;
    match open_window(alloc, script, before + count, mode, home) {
        Ok((hub, window)) => Ok((hub, window, windows)),
        Err(NoMemory) => Err(windows),
    }
}

/// Opens the window of this number, from 0, on the home.
fn open_window<'a, Dev: Device>(
    alloc: Global,
    script: &'a Script,
    number: u32,
    mode: Mode,
    home: Home<Dev>,
) -> Result<(Hub<Dev>, &'a WindowText), NoMemory>
    requires sound { IsSound (plain_script script.now) }
    requires goes { IsTrue (is_mode mode) }
    requires there { number < length script.now.windows.items }
    requires kinds { home.kinds ≡ kinds_of script.now }
    requires few { home.opened ≤ most_windows }
    ensures { IfOk result
        (λ opened. NextIsOpened Dev.shows script.now mode number home opened.0 opened.1.now) }
{
    let window = &script.windows.as_slice()[number as usize];
    let roster = roster(alloc, script, number)?;
    home.kept_invariant();
    match home.open_window(alloc, roster, mode, window.probes) {
        Ok(hub) => Ok((hub, window)),
        Err(_) => Err(NoMemory),
    }
}

/// The day with one window more, where that was worked. Where memory was wanted the windows before
/// come back.
pub fn close_next<Dev: Device>(
    windows: List<ToldWindow>,
    worked: Result<(Home<Dev>, WindowRecord), NoMemory>,
) -> Result<UntoldDay<Dev>, List<ToldWindow>>
    requires room { 0 < windows.spare }
    ensures closed { IfOk result (λ next. IsClosed Dev.shows windows.items worked next) }
    ensures starved { IfErr result (λ before. before.items ≡ windows.items) }
{
    let (home, closed) = match worked {
        Ok(worked) => worked,
        Err(NoMemory) => return Err(windows),
    };
    home.kept_invariant();
    let mut windows = windows;
    let kept = windows.push(ToldWindow::of(&closed));
    kept.unwrap();
    Ok(UntoldDay {
        home,
        windows,
        closed,
    })
}
