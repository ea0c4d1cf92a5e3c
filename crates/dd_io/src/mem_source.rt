ghost use Rattle.std.specs.Prelude.{◌≡◌, ◌+◌, ◌≤◌, min, ◌++◌, length, take, drop, ◌↔◌, Some, IfOk, OnOk, IsErr, OnErr, Contains};
ghost use Rattle.std.specs.Io.KnownBytes.{ReadConsumes};
ghost use Rattle.dd_causes.specs.Counts.{FailsOnlyIfRose, one_more};

use crate::fault::IoFault;
use crate::source::Source;
use dd_causes::next_fails;
use std::marker::Model;

/// A source of bytes in memory, which gives few of them at a time and fails at the calls that it is told.
#[derive(Debug, Drop)]
pub struct MemSource {
    bytes: Vec<u8>,
    given: usize,
    most: usize,
    failing: Vec<u32>,
    calls: u64,
    faults: u64,
}

impl Model for MemSource {
    ghost use Rattle.std.specs.Prelude.{ℕ, ◌≤◌, drop, vec_len};
    ghost use Rattle.dd_io.specs.Memory.{Supply};

    ghost Value = { Supply };

    ghost view = { λ s. record { left = drop s.given s.bytes.items; most = s.most; failing = s.failing.items; calls = s.calls; faults = s.faults } };

    ghost invariant = { λ s. (1 ≤ s.most) × (s.given ≤ vec_len s.bytes) };
}

impl MemSource {
    /// A source of these bytes, of which a call gives `most` at most. The calls with the numbers of `failing`, from 1, fail.
    pub fn new(bytes: Vec<u8>, most: usize, failing: Vec<u32>) -> MemSource
        requires { 1 ≤ most }
        ensures { result
            ≡ record { left = bytes.items; most = most; failing = failing.items; calls = 0; faults = 0 } }
    {
        MemSource {
            bytes,
            given: 0,
            most,
            failing,
            calls: 0,
            faults: 0,
        }
    }
}

impl Source for MemSource {
    ghost left = { λ s. Some s.left };

    ghost faults = { λ s. s.faults };

    fn read(&mut self, buf: &mut [u8]) -> Result<usize, IoFault>
        ensures within { IfOk result (λ n. n ≤ length buf.new) }
        ensures taken { ReadConsumes (Some self.old.left) (Some self.new.left) result buf.new }
        ensures cause { FailsOnlyIfRose result self.old.faults self.new.faults }
        ensures kept { OnOk result (self.new.faults ≡ self.old.faults) }
        ensures later { self.old.faults ≤ self.new.faults }

        // Which calls fail, and how many bytes the others give.
        ensures fails { IsErr result ↔ Contains self.old.failing (self.old.calls + 1) }
        ensures count { IfOk result
            (λ n. n ≡ min (length buf.old) (min self.old.most (length self.old.left))) }

        // What is in the buffer and in the source afterwards.
        ensures filled { IfOk result (λ n. buf.new ≡ take n self.old.left ++ drop n buf.old) }
        ensures unfilled { OnErr result (buf.new ≡ buf.old) }
        ensures after { IfOk result (λ n. self.new
            ≡ record self.old { left = drop n self.old.left; calls = one_more self.old.calls }) }
        ensures failed { OnErr result (self.new
            ≡ record self.old { calls = one_more self.old.calls; faults = one_more self.old.faults }) }
    {
        let fails = next_fails(&self.failing, self.calls);
        self.calls = self.calls.saturating_add(1);
        if fails {
            self.faults = self.faults.saturating_add(1);
            return Err(IoFault);
        }
        let count = copy_front(&self.bytes[self.given..], buf, self.most);
        self.given += count;
        Ok(count)
    }
}

// Copies as many bytes as there are and find room, and at most `most` of them. Answers how many those are.
fn copy_front(from: &[u8], to: &mut [u8], most: usize) -> usize
    ensures count { result ≡ min (length to.old) (min most (length from.now)) }
    ensures copied { to.new ≡ take result from.now ++ drop result to.old }
{
    let count = to.len().min(most).min(from.len());
    to[..count].copy_from_slice(&from[..count]);
    count
}
