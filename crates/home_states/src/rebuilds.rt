//! A home that is made again from its script and the calls that were made on it.
ghost use Rattle.std.specs.Prelude.{◌≡◌, ◌≢◌, ◌*◌, ◌≤◌, Err, IfOk, IsTrue, List, false, length, true, ℕ};
ghost use Rattle.home_states.specs.LiveHomes.{BeginsAs, IsLive, LiveState};
ghost use Rattle.home_states.specs.Rebuilt.{AreFrom, AreRefusedAt, HasWaited, IsRebuilt, IsRefusedAt, WasMade, WereMade, draft_not_made, is_refused, opening_not_made};
ghost use Rattle.home_states.specs.SameHomes.{SameFrom, SameHome};
ghost use Rattle.home_types.specs.declared.modes.Mode.{Mode};
ghost use Rattle.hub_core.specs.Openings.{is_mode};
ghost use Rattle.logged_calls.specs.CallBytes.{call_size, calls_from};
ghost use Rattle.logged_calls.specs.Calls.{HasCivilTime};
ghost use Rattle.logged_calls.specs.declared.calls.Logged.{Logged};
ghost use Rattle.routine_reader.specs.Readings.{script_reading};
ghost use Rattle.routine_reader.specs.Spots.{is_memory};

use crate::homes::LiveHome;
use crate::refusals::{NotBegun, NotMade, NotOpened, NotRebuilt};
use home_types::Mode;
use logged_calls::{CALL_SIZE, Logged, read_call};
use routine_reader::ReadFault;
use std::alloc::Global;

impl LiveHome {
    /// Opens the home of the script, as `open` does, and makes the calls on it that are read from
    /// the bytes (`logged_calls`), one after the other. So the home is that on which these calls
    /// were made, also in the middle of a window.
    ///
    /// Answers why the script is refused, which call is refused, or that there is no memory, which
    /// may come at any point; then there is no home.
    pub fn rebuild(
        alloc: Global,
        script: &[u8],
        mode: Mode,
        calls: &[u8],
    ) -> Result<LiveHome, NotRebuilt>
        requires goes { IsTrue (is_mode mode) }
        ensures rebuilt { IfOk result
            (λ live. IsRebuilt script.now mode (calls_from calls.now) live) }
        ensures unread { (fault : ReadFault) → result ≡ Err (NotRebuilt.Unread fault)
            → is_memory fault ≡ false → script_reading script.now ≡ Err fault }
        ensures refused { (at : ℕ) → result ≡ Err (NotRebuilt.Refused at)
            → IsRefusedAt script.now mode (calls_from calls.now) at }
        ensures within { (at : ℕ) → result ≡ Err (NotRebuilt.Refused at)
            → call_size * at ≤ length calls.now }
    {
        match LiveHome::open(alloc, script, mode) {
            Ok(live) => {
                let mut live = live;
                live.kept_invariant();
                match live.make_again(alloc, calls) {
                    Ok(()) => Ok(live),
                    Err(why) => {
                        drop(live);
                        Err(why)
                    }
                }
            }
            Err(fault) => Err(NotRebuilt::Unread(fault)),
        }
    }

    /// Makes the calls that are read from the bytes, one after the other, up to one that is
    /// refused, or for which there is no memory.
    fn make_again(&mut self, alloc: Global, calls: &[u8]) -> Result<(), NotRebuilt>
        ensures made { IfOk result (λ _. WereMade self.old (calls_from calls.now) self.new) }
        ensures read { (fault : ReadFault) → result ≢ Err (NotRebuilt.Unread fault) }
        ensures refused { (at : ℕ) → result ≡ Err (NotRebuilt.Refused at)
            → AreRefusedAt self.old (calls_from calls.now) at }
        ensures within { (at : ℕ) → result ≡ Err (NotRebuilt.Refused at)
            → call_size * at ≤ length calls.now }
    {
        let mut at = 0;
        'calls: while let Some(call) = read_call(calls, at) {
            match self.make(alloc, call) {
                Ok(()) => {}
                Err(NotMade::Refused) => {
                    return Err(NotRebuilt::Refused((at / CALL_SIZE) as u64));
                }
                Err(NotMade::NoMemory) => return Err(NotRebuilt::NoMemory),
            }
            at += CALL_SIZE;
        }
        Ok(())
    }

    /// Makes a call that was logged.
    fn make(&mut self, alloc: Global, call: Logged) -> Result<(), NotMade>
        requires time { HasCivilTime call }
        ensures made { IfOk result (λ _. WasMade self.old call self.new) }
        ensures refused { result ≡ Err NotMade.Refused → is_refused self.old call ≡ true }
    {
        match call {
            Logged::Began(at, rounds) => match self.begin_at(alloc, at, rounds) {
                Ok(_) => Ok(()),
                Err(why) => Err(draft_not_made(why)),
            },
            Logged::Added(routine, follows) => match self.add_run(routine, follows) {
                Ok(_) => Ok(()),
                Err(why) => Err(draft_not_made(why)),
            },
            Logged::Opened(number) => match self.window(alloc, number) {
                Ok(()) => Ok(()),
                Err(why) => Err(opening_not_made(why)),
            },
            Logged::Took(run, moment) => match self.take(run, moment) {
                Some(_) => Ok(()),
                None => Err(NotMade::Refused),
            },
            Logged::Gave(d, ticket, told, moment) => match self.answer(d, ticket, told, moment) {
                Ok(_) => Ok(()),
                Err(_) => Err(NotMade::Refused),
            },
            Logged::Probed(d) => match self.probe(d) {
                Some(Some(_)) => Ok(()),
                _ => Err(NotMade::Refused),
            },
            Logged::Closed => match self.close_window() {
                Ok(()) => Ok(()),
                Err(_) => Err(NotMade::Refused),
            },
            Logged::Restood(d, value) => match self.restand(d, value) {
                Ok(()) => Ok(()),
                Err(_) => Err(NotMade::Refused),
            },
            Logged::Lost(d) => match self.lose(d) {
                Ok(()) => Ok(()),
                Err(_) => Err(NotMade::Refused),
            },
        }
    }
}

/// Why a window is not begun again, or a run not added.
fn draft_not_made(why: NotBegun) -> NotMade
    ensures { result ≡ draft_not_made why }
{
    match why {
        NotBegun::NoMemory => NotMade::NoMemory,
        NotBegun::InWindow
        | NotBegun::NoDraft
        | NotBegun::BadTime
        | NotBegun::Absent
        | NotBegun::BadFollow
        | NotBegun::TooMany => NotMade::Refused,
    }
}

/// Why a window is not opened again.
fn opening_not_made(why: NotOpened) -> NotMade
    ensures { result ≡ opening_not_made why }
{
    match why {
        NotOpened::NoMemory => NotMade::NoMemory,
        NotOpened::InWindow | NotOpened::Absent | NotOpened::TooMany => NotMade::Refused,
    }
}

/// Homes on which the same calls were made are, for all who call them, the same: two that are made
/// again of one script and the same calls (`rebuilt`), and two that were the same before
/// (`goes_on`), as is each home as itself (`itself`).
///
/// A step that waits may be left out (`waits`): from its moment on the home is the same as one that
/// has not made it, so the same calls, at no earlier moments, leave both the same. With the first
/// moment no call is earlier (`always`).
pub fn one_home()
    ensures rebuilt { (script : List ℕ) (mode : Mode) (calls : List Logged) (s t : LiveState)
        → IsRebuilt script mode calls s → IsRebuilt script mode calls t → SameHome s t }
    ensures goes_on { (from : ℕ) (calls : List Logged) (s t u v : LiveState) → SameFrom from s t
        → AreFrom from calls → WereMade s calls u → WereMade t calls v → SameFrom from u v }
    ensures always { (calls : List Logged) → AreFrom 0 calls }
    ensures waits { (from : ℕ) (s t u : LiveState) (r m : ℕ) → SameFrom from s t → from ≤ m
        → HasWaited s r m u → SameFrom m u t }
    ensures itself { (s : LiveState) → IsLive s → SameHome s s }
{}
