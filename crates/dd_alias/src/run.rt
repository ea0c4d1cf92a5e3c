ghost use Rattle.std.specs.Prelude.{◌≡◌, ℕ, ◌+◌, ◌*◌, ◌^◌, ◌<◌, ◌≤◌, ◌↔◌, IsTrue};

use crate::congruence::complement;

/// Numbers in steps: `first`, `first + stride` and so on, none of them above `limit`.
#[derive(Clone, Copy, Debug)]
pub struct Run {
    pub first: u64,
    pub stride: u64,
    pub limit: u64,
    ghost moves: { 0 < stride },
    ghost small: { limit < 2 ^ 63 },
}

impl Run {
    ghost use Rattle.dd_alias.specs.Runs.{HasNumber};

    /// No numbers, from one on.
    pub fn none_from(low: u64) -> Run
        requires { 0 < low }
        ensures none { (x : ℕ) → ¬ HasNumber result x }
        ensures first { result.first ≡ low }
    {
        Run {
            first: low,
            stride: 1,
            limit: 0,
        }
    }

    /// The numbers that aren't below one.
    pub fn at_least(&self, low: u64) -> Run
        ensures exact { (x : ℕ) → HasNumber result x ↔ (HasNumber self.now x × (low ≤ x)) }
        ensures first { low ≤ result.first }
    {
        if self.first >= low {
            return *self;
        }
        let Some(first) = low.checked_add(complement(low - self.first, self.stride)) else {
            return Run::none_from(low);
        };
        Run {
            first,
            stride: self.stride,
            limit: self.limit,
        }
    }

    /// Whether there is a number from `low` to `high`.
    pub fn has_between(&self, low: u64, high: u64) -> bool
        ensures { IsTrue result ↔ ((x : ℕ) × HasNumber self.now x × (low ≤ x) × (x ≤ high)) }
    {
        if low > high {
            return false;
        }
        let rest = self.at_least(low);
        rest.first <= rest.limit.min(high)
    }

    /// How many numbers there are.
    pub fn count(&self) -> u64
        ensures { (t : ℕ) → (t < result) ↔ (self.now.first + t * self.now.stride ≤ self.now.limit) }
    {
        if self.first > self.limit {
            0
        } else {
            (self.limit - self.first) / self.stride + 1
        }
    }
}
