//! Where the slots of a file are.
ghost use Rattle.std.specs.Prelude.{◌≡◌, ◌+◌, ◌*◌, ◌<◌, ◌≤◌};

/// How many bytes there are after a gate, and how many slots there are at most.
#[derive(Clone, Copy)]
pub struct Layout {
    /// How many bytes there are after a gate.
    pub size: u32,
    /// How many slots there are at most.
    pub most: u64,
}

impl Layout {
    /// Where the gate of the slot with this place is.
    pub fn gate_of(self, place: u64) -> u64
        requires size { self.size < 2147483648 }
        requires place { place ≤ 4294967296 }
        ensures { result ≡ place * (self.size + 1) }
    {
        place * (u64::from(self.size) + 1)
    }

    /// How many bytes all slots have, with the gate after the last one.
    pub fn bytes(self) -> u64
        requires size { self.size < 2147483648 }
        requires most { self.most ≤ 4294967296 }
        ensures { result ≡ self.most * (self.size + 1) + 1 }
    {
        self.gate_of(self.most) + 1
    }
}
