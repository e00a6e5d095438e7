//! A set of devices, as 256 bits.
ghost use Rattle.std.specs.Prelude.{◌≡◌, ◌<◌, ◌↔◌, ◌&&◌, ◌||◌, IsTrue, option_map, ℕ};
ghost use Rattle.std.specs.FinSet as set;
ghost use Rattle.home_types.specs.DeviceSets.{HasBit, IsFirstFrom, Meet};
ghost use Rattle.home_types.specs.Limits.{most_devices};

use crate::numbers::DeviceNo;
use std::marker::Model;

/// A set of devices of a home, a bit for each of the 256 that it may have.
#[derive(Drop)]
pub struct DeviceSet {
    words: [u64; 4],
}

impl Model for DeviceSet {
    ghost use Rattle.std.specs.Coded.{coded_ℕ};
    ghost use Rattle.std.specs.FinSet as set;
    ghost use Rattle.home_types.specs.DeviceSets.{Devices, devices_of_bits};

    ghost Value = { Devices };

    ghost coded = { set.code coded_ℕ };

    ghost view = { λ s. devices_of_bits s.words };
}

impl DeviceSet {
    /// No devices.
    pub fn none() -> DeviceSet
        ensures { result ≡ set.empty }
    {
        DeviceSet { words: [0; 4] }
    }

    /// Puts the device in.
    pub fn add(&mut self, device: DeviceNo)
        requires { device.0 < most_devices }
        ensures { self.new ≡ set.insert self.old device.0 }
    {
        let bit = 1 << (device.0 % 64);
        self.words[(device.0 / 64) as usize] |= bit;
    }

    /// Takes the device out, where it is in.
    pub fn remove(&mut self, device: DeviceNo)
        requires { device.0 < most_devices }
        ensures { self.new ≡ set.remove self.old device.0 }
    {
        let bit: u64 = 1 << (device.0 % 64);
        self.words[(device.0 / 64) as usize] &= !bit;
    }

    /// Whether the device is in it. A device from 256 on is not.
    pub fn has(&self, device: DeviceNo) -> bool
        ensures { result ≡ set.contains self.now device.0 }
    {
        match self.words.get((device.0 / 64) as usize) {
            Some(word) => (word >> (device.0 % 64)) & 1 == 1,
            None => false,
        }
    }

    /// Whether some device is in both. Looks at four words.
    pub fn meets(&self, other: &DeviceSet) -> bool
        ensures { IsTrue result ↔ Meet self.now other.now }
    {
        has_bit(
            (self.words[0] & other.words[0])
                | (self.words[1] & other.words[1])
                | (self.words[2] & other.words[2])
                | (self.words[3] & other.words[3]),
        )
    }

    /// The devices that are in both. Looks at four words.
    pub fn both(&self, other: &DeviceSet) -> DeviceSet
        ensures { (d : ℕ) → set.contains result d
            ≡ (set.contains self.now d && set.contains other.now d) }
    {
        DeviceSet {
            words: [
                self.words[0] & other.words[0],
                self.words[1] & other.words[1],
                self.words[2] & other.words[2],
                self.words[3] & other.words[3],
            ],
        }
    }

    /// The devices that are in one of them. Looks at four words.
    pub fn either(&self, other: &DeviceSet) -> DeviceSet
        ensures { (d : ℕ) → set.contains result d
            ≡ (set.contains self.now d || set.contains other.now d) }
    {
        DeviceSet {
            words: [
                self.words[0] | other.words[0],
                self.words[1] | other.words[1],
                self.words[2] | other.words[2],
                self.words[3] | other.words[3],
            ],
        }
    }

    /// The smallest device from `from` on that is in it. Looks at four words at most.
    pub fn next(&self, from: DeviceNo) -> Option<DeviceNo>
        ensures { IsFirstFrom (λ d. set.contains self.now d) from.0 (option_map (λ d. d.0) result) }
    {
        let mut at = from.0;
        'words: while let Some(word) = self.words.get((at / 64) as usize) {
            let rest = word >> (at % 64);
            if rest != 0 {
                return Some(DeviceNo(at + rest.trailing_zeros() as u16));
            }
            at = (at / 64 + 1) * 64;
        }
        None
    }
}

/// Whether some bit of the word is set.
fn has_bit(word: u64) -> bool
    ensures { IsTrue result ↔ HasBit word }
{
    word != 0
}
