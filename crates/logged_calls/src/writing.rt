//! Calls as bytes.
ghost use Rattle.std.specs.Prelude.{◌≡◌, ◌++◌, ◌≤◌, IsOk, OnErr, OnOk};
ghost use Rattle.logged_calls.specs.CallBytes.{call_bytes, call_size};
ghost use Rattle.logged_calls.specs.Calls.{HasCivilTime, IsLoggable};

use crate::calls::{CALL_SIZE, Logged};
use crate::records::Record;
use home_types::{List, NoMemory};

impl Logged {
    /// The bytes of the call.
    pub fn bytes(self) -> [u8; CALL_SIZE]
        ensures { result ≡ call_bytes self }
    {
        Record::of(self).bytes()
    }

    /// Does nothing. Its contract is what holds of every call whose time is one of a calendar: that
    /// it is read back from its bytes.
    pub fn kept_invariant(self)
        requires time { HasCivilTime self }
        ensures { IsLoggable self }
    {
        let _ = self;
    }
}

/// Appends the bytes of the call. Takes no memory where there is room for them.
///
/// Answers `NoMemory` where there is none to be had, and adds nothing then.
pub fn write_call(bytes: &mut List<u8>, call: Logged) -> Result<(), NoMemory>
    requires time { HasCivilTime call }
    ensures ok { OnOk result (bytes.new.items ≡ bytes.old.items ++ call_bytes call) }
    ensures err { OnErr result (bytes.new.items ≡ bytes.old.items) }
    ensures roomy { call_size ≤ bytes.old.spare → IsOk result }
    ensures loggable { IsLoggable call }
{
    call.kept_invariant();
    bytes.extend_from_slice(&call.bytes())
}
