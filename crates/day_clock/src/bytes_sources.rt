//! A source in memory, which fails in the calls that it is told.
ghost use Rattle.std.specs.Prelude.{◌≡◌, ◌<◌, ◌≤◌, ◌++◌, [], length, drop, take, IfOk, OnErr};

use crate::call_plans::CallPlan;
use crate::faults::{Failed, FaultCount};
use crate::sources::Source;
use home_types::{Bytes, List};
use std::marker::Model;

/// A source of bytes in memory.
#[derive(Drop)]
pub struct BytesSource {
    bytes: Bytes,
    at: usize,
    most: u64,
    plan: CallPlan,
    faults: FaultCount,
}

impl Model for BytesSource {
    ghost use Rattle.std.specs.Prelude.{◌<◌, ◌≤◌, length, drop};
    ghost use Rattle.day_clock.specs.BytesSources.{SourceState};

    ghost Value = { SourceState };

    ghost view = { λ s.
        record { left = drop s.at s.bytes; most = s.most; plan = s.plan; faults = s.faults } };

    ghost invariant = { λ s. (s.at ≤ length s.bytes) × (0 < s.most) };
}

impl BytesSource {
    ghost use Rattle.day_clock.specs.BytesSources.{fresh_source, read_count, after_giving};

    /// Makes a source that gives `bytes`, at most `most` of them a call. The calls in `fails`,
    /// counted from 1, fail. A call must be able to give a byte: `most` is not 0.
    pub fn new(bytes: Bytes, fails: List<u64>, most: u64) -> BytesSource
        requires { 0 < most }
        ensures { result ≡ fresh_source bytes fails most }
    {
        BytesSource {
            bytes,
            at: 0,
            most,
            plan: CallPlan::new(fails),
            faults: FaultCount::new(),
        }
    }

    // Gives the next bytes to the front of `into`, as many as a call may give.
    fn give(&mut self, into: &mut [u8]) -> usize
        ensures count { result ≡ read_count self.old (length into.old) }
        ensures given { into.new ≡ take result self.old.left ++ drop result into.old }
        ensures after { self.new ≡ after_giving self.old result }
    {
        let left = &self.bytes.as_slice()[self.at..];
        let count = (into.len() as u64).min(self.most).min(left.len() as u64) as usize;
        into[..count].copy_from_slice(&left[..count]);
        self.at += count;
        count
    }
}

impl Source for BytesSource {
    ghost use Rattle.std.specs.Prelude.{Some};
    ghost use Rattle.day_clock.specs.BytesSources.{after_read, read_answer};

    ghost left = { λ s. Some s.left };

    ghost faults = { λ s. s.faults };

    fn read(&mut self, into: &mut [u8]) -> Result<usize, Failed>
        ensures answer { result ≡ read_answer self.old (length into.old) }
        ensures after { self.new ≡ after_read self.old (length into.old) }
        ensures given { IfOk result (λ n. into.new ≡ take n self.old.left ++ drop n into.old) }
        ensures kept { OnErr result (into.new ≡ into.old) }
        ensures ends { result ≡ Ok 0 → 0 < length into.old → self.new.left ≡ [] }
    {
        if self.plan.call_fails() {
            self.faults.raise();
            return Err(Failed);
        }
        Ok(self.give(into))
    }
}
