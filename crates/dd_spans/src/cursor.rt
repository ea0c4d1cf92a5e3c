//! The runs of sorted numbers, one after the other.
ghost use Rattle.std.specs.Prelude.{◌≡◌, ◌-◌, ◌^◌, ◌<◌, ◌↔◌, [], ◌++◌, IfSome, IsNone, MatchOption};
ghost use Rattle.std.specs.List.{All, range_with_len};
ghost use Rattle.std.specs.List.Sorted.{IsStrictlyIncreasing};
ghost use Rattle.dd_spans.specs.NextRun.{IsNextRun};

use crate::run::run_len;
use std::marker::Model;

/// What is left of sorted numbers, for one who goes through their runs. It is made by `Runs::cursor`.
#[derive(Debug, Drop)]
pub struct Cursor<'r> {
    left: &'r [u64],
    ghost rises: { IsStrictlyIncreasing left.now },
    ghost below: { All (λ n. n < 2 ^ 64 - 1) left.now },
}

impl<'r> Model for Cursor<'r> {
    ghost use Rattle.dd_spans.specs.SortedNumbers.{SortedNumbers, sorted_numbers_code};

    ghost Value = { SortedNumbers };

    ghost coded = { sorted_numbers_code };

    ghost view = { λ c. record { list = c.left.now; rises = c.rises; below = c.below } };
}

impl<'r> Cursor<'r> {
    /// All of these numbers.
    pub(crate) fn new(numbers: &'r [u64]) -> Cursor<'r>
        requires rises { IsStrictlyIncreasing numbers.now }
        requires below { All (λ n. n < 2 ^ 64 - 1) numbers.now }
        ensures { result.list ≡ numbers.now }
    {
        Cursor { left: numbers }
    }

    /// The least number that is left, and how many follow each other from it on, itself counted; these are left no more. None
    /// where no number is left.
    pub fn next_run(&mut self) -> Option<(u64, u64)>
        ensures none { IsNone result ↔ self.old.list ≡ [] }
        ensures run { IfSome result (λ run. IsNextRun self.old.list 0 run.0 run.1) }
        ensures left { MatchOption result
            (self.new.list ≡ [])
            (λ run. self.old.list ≡ range_with_len run.0 run.1 ++ self.new.list) }
    {
        let first = *self.left.first()?;
        let count = run_len(self.left);
        self.left = &self.left[count..];
        Some((first, count as u64))
    }
}
