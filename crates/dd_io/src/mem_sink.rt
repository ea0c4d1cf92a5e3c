ghost use Rattle.std.specs.Prelude.{◌≡◌, ◌+◌, ◌-◌, ◌<◌, ◌≤◌, min, [], ◌++◌, length, take, ◌↔◌, ◌⊎◌, Some, IfOk, OnOk, IsErr, OnErr, Contains};
ghost use Rattle.std.specs.Io.KnownBytes.{WriteAppends};
ghost use Rattle.dd_causes.specs.Counts.{FailsOnlyIfRose, one_more};

use crate::fault::IoFault;
use crate::sink::Sink;
use dd_causes::next_fails;
use std::alloc::{AllocError, Global};
use std::marker::Model;

/// A sink in memory, which takes few bytes at a time, has room for so many, and fails at the calls that it is told.
#[derive(Debug, Drop)]
pub struct MemSink {
    bytes: Vec<u8>,
    room: usize,
    most: usize,
    failing: Vec<u32>,
    calls: u64,
    faults: u64,
}

impl Model for MemSink {
    ghost use Rattle.std.specs.Prelude.{ℕ, ◌≤◌, vec_len, vec_capacity};
    ghost use Rattle.dd_io.specs.Memory.{Shelf};

    ghost Value = { Shelf };

    ghost view = { λ s. record { held = s.bytes.items; room = s.room; most = s.most; failing = s.failing.items; calls = s.calls; faults = s.faults } };

    ghost invariant = { λ s. (1 ≤ s.most) × (vec_len s.bytes ≤ s.room) × (s.room ≤ vec_capacity s.bytes) };
}

impl MemSink {
    /// An empty sink with room for `room` bytes, of which a call takes `most` at most. The calls with the numbers of
    /// `failing`, from 1, fail. It takes its memory here.
    ///
    /// # Errors
    /// Want of memory for `room` bytes.
    pub fn new(
        alloc: Global,
        room: usize,
        most: usize,
        failing: Vec<u32>,
    ) -> Result<MemSink, AllocError>
        requires { 1 ≤ most }
        ensures { IfOk result (λ sink. sink
            ≡ record { held = []; room = room; most = most; failing = failing.items; calls = 0; faults = 0 }) }
    {
        Ok(MemSink {
            bytes: Vec::with_capacity(alloc, room)?,
            room,
            most,
            failing,
            calls: 0,
            faults: 0,
        })
    }

    /// The bytes that it took.
    pub fn bytes(&self) -> &[u8]
        ensures held { result.now ≡ self.now.held }
        ensures within { length self.now.held ≤ self.now.room }
    {
        &self.bytes
    }
}

impl Sink for MemSink {
    ghost taken = { λ s. Some s.held };

    ghost faults = { λ s. s.faults };

    fn write(&mut self, bytes: &[u8]) -> Result<usize, IoFault>
        ensures within { IfOk result (λ n. n ≤ length bytes.now) }
        ensures progress { 0 < length bytes.now → IfOk result (λ n. 0 < n) }
        ensures grown { WriteAppends (Some self.old.held) (Some self.new.held) result bytes.now }
        ensures cause { FailsOnlyIfRose result self.old.faults self.new.faults }
        ensures kept { OnOk result (self.new.faults ≡ self.old.faults) }
        ensures later { self.old.faults ≤ self.new.faults }

        // Which calls fail, and how many bytes the others take.
        ensures fails { IsErr result ↔ (Contains self.old.failing (self.old.calls + 1)
            ⊎ ((0 < length bytes.now) × (length self.old.held ≡ self.old.room))) }
        ensures count { IfOk result (λ n. n
            ≡ min (length bytes.now) (min self.old.most (self.old.room - length self.old.held))) }

        // What is in the sink afterwards.
        ensures after { IfOk result (λ n. self.new
            ≡ record self.old { held = self.old.held ++ take n bytes.now; calls = one_more self.old.calls }) }
        ensures failed { OnErr result (self.new
            ≡ record self.old { calls = one_more self.old.calls; faults = one_more self.old.faults }) }
    {
        let room = self.room - self.bytes.len();
        let fails = next_fails(&self.failing, self.calls) || (room == 0 && !bytes.is_empty());
        self.calls = self.calls.saturating_add(1);
        if fails {
            self.faults = self.faults.saturating_add(1);
            return Err(IoFault);
        }
        let count = bytes.len().min(self.most).min(room);
        self.bytes.extend_from_slice(&bytes[..count]).unwrap();
        Ok(count)
    }
}
