//! A disk as a journal sees it: what a read gives, and what a crash may leave.
ghost use Rattle.std.specs.Prelude.{◌≡◌, ◌<◌, ◌≤◌, ◌-◌, ℕ, Bool, true, List, length, take, drop, min, IfOk, OnOk, OnErr};
ghost use Rattle.slot_disks.specs.Disks.{LeavesThis, NoneAdded, Follows, Torn, Holds, Elapses};

use day_clock::Failed;

/// A file on a disk. Whoever holds it is the only one that writes it.
pub trait Disk {
    /// Whether the disk tells its bytes. All that follows but the faults is told only then.
    ghost told: { Bool };

    /// The bytes that a read gives.
    ghost seen: { Self → List ℕ };

    /// The images: the contents that a crash at this moment may leave.
    ghost images: { Self → List ℕ → Type 0 };

    /// The moment, as a number that does not fall.
    ghost moment: { Self → ℕ };

    /// The contents that a crash at that moment or a later one might have left.
    ghost images_since: { Self → ℕ → List ℕ → Type 0 };

    /// How often the disk has failed.
    ghost faults: { Self → ℕ };

    /// How many bytes there are.
    fn len(&mut self) -> Result<u64, Failed>
        ensures len { told ≡ true → IfOk result (λ n. n ≡ length (seen self.old)) }
        ensures seen { told ≡ true → seen self.new ≡ seen self.old }
        ensures images { told ≡ true → NoneAdded (images self.old) (images self.new) }
        ensures time { told ≡ true → Elapses moment images_since images self.old self.new }
        ensures later { faults self.old ≤ faults self.new }
        ensures failed { OnErr result (faults self.old < faults self.new) };

    /// Reads the bytes from `at` on into the front of `into`, as many as are there and fit, and
    /// answers how many.
    fn read(&mut self, at: u64, into: &mut [u8]) -> Result<usize, Failed>
        ensures fits { IfOk result (λ n. n ≤ length into.old) }
        ensures count { told ≡ true
            → IfOk result (λ n. n ≡ min (length into.old) (length (seen self.old) - at)) }
        ensures given { told ≡ true
            → IfOk result (λ n. take n into.new ≡ take n (drop at (seen self.old))) }
        ensures seen { told ≡ true → seen self.new ≡ seen self.old }
        ensures images { told ≡ true → NoneAdded (images self.old) (images self.new) }
        ensures time { told ≡ true → Elapses moment images_since images self.old self.new }
        ensures later { faults self.old ≤ faults self.new }
        ensures failed { OnErr result (faults self.old < faults self.new) };

    /// Writes over what is there from `at` on, and past the end. Until a sync that succeeds, a
    /// crash may leave any bytes in the range and past the old end; after `Failed` a read may give
    /// such bytes too.
    fn write_at(&mut self, at: u64, from: &[u8]) -> Result<(), Failed>
        requires { told ≡ true → at ≤ length (seen self.old) }
        ensures written { told ≡ true
            → OnOk result (Holds (seen self.old) at from.now (seen self.new)) }
        ensures torn { told ≡ true → Torn at (length from.now) (seen self.old) (seen self.new) }
        ensures images { told ≡ true
            → Follows (Torn at (length from.now)) (images self.old) (images self.new) }
        ensures time { told ≡ true → Elapses moment images_since images self.old self.new }
        ensures later { faults self.old ≤ faults self.new }
        ensures failed { OnErr result (faults self.old < faults self.new) };

    /// Waits until all that was written is on the disk: from `Ok` on a crash leaves what a read
    /// gives.
    fn sync(&mut self) -> Result<(), Failed>
        ensures durable { told ≡ true → OnOk result (LeavesThis (seen self.old) (images self.new)) }
        ensures seen { told ≡ true → seen self.new ≡ seen self.old }
        ensures images { told ≡ true → NoneAdded (images self.old) (images self.new) }
        ensures time { told ≡ true → Elapses moment images_since images self.old self.new }
        ensures later { faults self.old ≤ faults self.new }
        ensures failed { OnErr result (faults self.old < faults self.new) };

    /// What a read gives is one of the images. It does no work.
    fn stands(&self)
        ensures { told ≡ true → images self.now (seen self.now) };

    /// This moment is one of those since an earlier one.
    ghost counts_now: { (disk : Self) (t : ℕ) (c : List ℕ) → t ≤ moment disk → images disk c
        → images_since disk t c };

    /// Since this moment there is no other.
    ghost only_now: { (disk : Self) (c : List ℕ) → images_since disk (moment disk) c
        → images disk c };
}
