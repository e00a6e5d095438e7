//! A sink in memory, which fails in the calls that it is told.
ghost use Rattle.std.specs.Prelude.{◌≡◌, ◌<◌, ◌≤◌, ◌++◌, [], length, take, IfOk};

use crate::call_plans::CallPlan;
use crate::faults::{Failed, FaultCount};
use crate::sinks::Sink;
use home_types::{List, NoMemory};
use std::alloc::Global;
use std::marker::Model;

/// A sink of bytes in memory.
#[derive(Drop)]
pub struct BytesSink {
    // The bytes that it holds stand in front, and behind them what still fits.
    block: Vec<u8>,
    held: usize,
    most: u64,
    plan: CallPlan,
    faults: FaultCount,
}

impl Model for BytesSink {
    ghost use Rattle.std.specs.Prelude.{◌<◌, ◌≤◌, take, length};
    ghost use Rattle.day_clock.specs.BytesSinks.{SinkState};

    ghost Value = { SinkState };

    ghost view = { λ s. record {
      held = take s.held s.block.items;
      room = length s.block.items;
      most = s.most;
      plan = s.plan;
      faults = s.faults;
    } };

    ghost invariant = { λ s. (s.held ≤ length s.block.items) × (0 < s.most) };
}

impl BytesSink {
    ghost use Rattle.day_clock.specs.BytesSinks.{after_taking, fresh_sink, write_count};

    /// Makes a sink that holds nothing and has room for `room` bytes in all, and takes at most
    /// `most` of them a call. The calls in `fails`, counted from 1, fail.
    ///
    /// `NoMemory` comes where there is none for all of the room, which is taken at once. A call
    /// must be able to take a byte: `most` is not 0.
    pub fn new(alloc: Global, room: u64, fails: List<u64>, most: u64) -> Result<BytesSink, NoMemory>
        requires { 0 < most }
        ensures { IfOk result (λ sink. sink ≡ fresh_sink room fails most) }
    {
        let Ok(block) = vec![in alloc; 0u8; room as usize] else {
            return Err(NoMemory);
        };
        Ok(BytesSink {
            block,
            held: 0,
            most,
            plan: CallPlan::new(fails),
            faults: FaultCount::new(),
        })
    }

    /// Gives the bytes that it holds.
    pub fn held(&self) -> &[u8]
        ensures { result.now ≡ self.now.held }
    {
        &self.block[..self.held]
    }

    // Takes the first bytes of `from`, as many as a call may take and as fit.
    fn take(&mut self, from: &[u8]) -> usize
        ensures count { result ≡ write_count self.old (length from.now) }
        ensures after { self.new ≡ after_taking self.old (take result from.now) }
    {
        let room = self.block.len() - self.held;
        let count = (from.len() as u64).min(self.most).min(room as u64) as usize;
        let end = self.held + count;
        self.block[self.held..end].copy_from_slice(&from[..count]);
        self.held = end;
        count
    }
}

impl Sink for BytesSink {
    ghost use Rattle.std.specs.Prelude.{Some};
    ghost use Rattle.day_clock.specs.BytesSinks.{after_write, write_answer};

    ghost holds = { λ s. Some s.held };

    ghost faults = { λ s. s.faults };

    fn write(&mut self, from: &[u8]) -> Result<usize, Failed>
        ensures answer { result ≡ write_answer self.old (length from.now) }
        ensures after { self.new ≡ after_write self.old from.now }
    {
        if self.plan.call_fails() {
            self.faults.raise();
            return Err(Failed);
        }
        let count = self.take(from);
        if count == 0 && !from.is_empty() {
            self.faults.raise();
        }
        Ok(count)
    }
}
