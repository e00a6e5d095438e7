//! The head of a log: whose calls it has.
ghost use Rattle.std.specs.Prelude.{◌≡◌, ◌+◌, ◌<◌, ◌^◌, ◌≤◌, None, length};
ghost use Rattle.logged_calls.specs.CallBytes.{call_size, number_of_8};
ghost use Rattle.call_log.specs.Heads.{head_bytes, head_difference, head_fault, head_in, head_sum};

use crate::faults::LogFault;
use logged_calls::CALL_SIZE;

const HEAD_KIND: u8 = 255;

/// Whose calls a log has. A log with another head is refused.
#[derive(Clone, Copy, Debug, PartialEq, Eq)]
pub struct Head {
    /// The version of the program that makes the calls.
    pub version: u32,
    /// The mode of the home, as a number.
    pub mode: u16,
    /// A number by which the script is known, such as the first bytes of its digest.
    pub script: u64,
}

impl Head {
    /// The bytes of the head.
    pub(crate) fn bytes(self) -> [u8; CALL_SIZE]
        ensures bytes { result ≡ head_bytes self }
        ensures good { head_fault self (head_bytes self) ≡ None }
    {
        let m = self.mode.to_le_bytes();
        let v = self.version.to_le_bytes();
        let s = self.script.to_le_bytes();
        let c = self.sum().to_le_bytes();
        [
            HEAD_KIND, 0, m[0], m[1], v[0], v[1], v[2], v[3], s[0], s[1], s[2], s[3], s[4], s[5],
            s[6], s[7], c[0], c[1], c[2], c[3], c[4], c[5], c[6], c[7],
        ]
    }

    /// Why these bytes are not those of this head, `None` where they are.
    pub(crate) fn fault_in(self, body: &[u8]) -> Option<LogFault>
        requires whole { length body.now ≡ call_size }
        ensures { result ≡ head_fault self body.now }
    {
        let found = Head::in_bytes(body);
        if body[0] != HEAD_KIND || body[1] != 0 || number_of_8(body, 16) != found.sum() {
            return Some(LogFault::NotALog);
        }
        self.difference(found)
    }

    // What of the other head is not the same.
    fn difference(self, found: Head) -> Option<LogFault>
        ensures { result ≡ head_difference self found }
    {
        if found.version != self.version {
            return Some(LogFault::OtherVersion);
        }
        if found.mode != self.mode {
            return Some(LogFault::OtherMode);
        }
        if found.script != self.script {
            return Some(LogFault::OtherScript);
        }
        None
    }

    // The numbers of a head at their places in these bytes.
    fn in_bytes(body: &[u8]) -> Head
        requires whole { length body.now ≡ call_size }
        ensures { result ≡ head_in body.now }
    {
        Head {
            version: u32::from_le_bytes([body[4], body[5], body[6], body[7]]),
            mode: u16::from_le_bytes([body[2], body[3]]),
            script: number_of_8(body, 8),
        }
    }

    // A checksum of the numbers.
    fn sum(self) -> u64
        ensures sum { result ≡ head_sum self }
        ensures small { head_sum self < 2 ^ 64 }
    {
        let low = self.script % 4_294_967_296;
        let high = self.script / 4_294_967_296;
        u64::from(self.mode) * 257
            + u64::from(self.version) * 65_537
            + low * 16_777_259
            + high * 33_554_467
            + 255
    }
}

// The number in the eight bytes from this place on.
fn number_of_8(bytes: &[u8], at: usize) -> u64
    requires { at + 8 ≤ length bytes.now }
    ensures { result ≡ number_of_8 bytes.now at }
{
    u64::from_le_bytes([
        bytes[at],
        bytes[at + 1],
        bytes[at + 2],
        bytes[at + 3],
        bytes[at + 4],
        bytes[at + 5],
        bytes[at + 6],
        bytes[at + 7],
    ])
}
