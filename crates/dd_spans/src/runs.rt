//! Sorted numbers.
ghost use Rattle.std.specs.Prelude.{◌≡◌, ℕ, ◌+◌, ◌-◌, ◌^◌, ◌<◌, ◌↔◌, [], ◌++◌, length, not, IfOk, IfSome, IsNone, IsTrue, Contains, MatchOption, ◌⊎◌};
ghost use Rattle.std.specs.List.{All, filter, range_with_len};
ghost use Rattle.std.specs.List.Sorted.{IsStrictlyIncreasing};
ghost use Rattle.dd_spans.specs.Numbers.{is_among, numbers_from, rising_numbers};
ghost use Rattle.dd_spans.specs.NextRun.{IsNextRun};
ghost use Rattle.dd_spans.specs.Kept.{is_kept};

use crate::cursor::Cursor;
use crate::cut::search_from;
use crate::run::run_len;
use crate::sets::{following, joined, kept, rising};
use std::alloc::{AllocError, Global};
use std::marker::Model;

/// Numbers below 2^64 - 1, in rising order, none twice. Whoever makes new ones of them may want memory, the one error
/// that there is.
#[derive(Debug, Drop)]
pub struct Runs {
    numbers: Vec<u64>,
    ghost rises: { IsStrictlyIncreasing numbers.items },
    ghost below: { All (λ n. n < 2 ^ 64 - 1) numbers.items },
}

impl Model for Runs {
    ghost use Rattle.dd_spans.specs.SortedNumbers.{SortedNumbers, sorted_numbers_code};

    ghost Value = { SortedNumbers };

    ghost coded = { sorted_numbers_code };

    ghost view = { λ r. record { list = r.numbers.items; rises = r.rises; below = r.below } };
}

impl Runs {
    /// The numbers of a list in any order, where one may stand several times.
    pub fn of_list(alloc: Global, list: &[u64]) -> Result<Runs, AllocError>
        requires { All (λ n. n < 2 ^ 64 - 1) list.now }
        ensures sorted { IfOk result (λ runs. runs.list ≡ rising_numbers list.now) }
        ensures same { IfOk result (λ runs. (n : ℕ) → Contains runs.list n ↔ Contains list.now n) }
    {
        let numbers = rising(alloc, list)?;
        Ok(Runs { numbers })
    }

    /// So many numbers that follow each other, from `first` on.
    pub fn of_run(alloc: Global, first: u64, count: u64) -> Result<Runs, AllocError>
        requires { first + count < 2 ^ 64 }
        ensures { IfOk result (λ runs. runs.list ≡ range_with_len first count) }
    {
        let numbers = following(alloc, first, count)?;
        Ok(Runs { numbers })
    }

    /// The allocator that the numbers are kept with.
    pub fn allocator(&self) -> Global {
        *self.numbers.allocator()
    }

    /// How many numbers there are.
    pub fn len(&self) -> u64
        ensures { result ≡ length self.now.list }
    {
        self.numbers.len() as u64
    }

    /// Whether a number is there.
    pub fn has(&self, n: u64) -> bool
        ensures { IsTrue result ↔ Contains self.now.list n }
    {
        self.numbers.binary_search(&n).is_ok()
    }

    /// The least number that is at least `from`, and how many numbers follow each other from it on, itself counted.
    /// None where no number is at least `from`.
    pub fn next_run(&self, from: u64) -> Option<(u64, u64)>
        ensures none { IsNone result ↔ All (λ n. n < from) self.now.list }
        ensures run { IfSome result (λ run. IsNextRun self.now.list from run.0 run.1) }

        // What is left from there on: nothing, or the run and what is left behind it.
        ensures left { MatchOption result
            (numbers_from from self.now.list ≡ [])
            (λ run. numbers_from from self.now.list
            ≡ range_with_len run.0 run.1 ++ numbers_from (run.0 + run.1) self.now.list) }
    {
        let left = self.left_from(from);
        let first = *left.first()?;
        Some((first, run_len(left) as u64))
    }

    /// A cursor before the first of them, for one who goes through their runs.
    pub fn cursor(&self) -> Cursor<'_>
        ensures { result ≡ self.now }
    {
        Cursor::new(&self.numbers)
    }

    /// The numbers that are in both.
    pub fn meet(&self, other: &Runs) -> Result<Runs, AllocError>
        ensures list { IfOk result (λ runs. runs.list ≡ filter (is_among other.now.list) self.now.list) }
        ensures both { IfOk result (λ runs. (n : ℕ) → Contains runs.list n
            ↔ (Contains self.now.list n × Contains other.now.list n)) }
    {
        self.kept(other, true)
    }

    /// The numbers that are in this one and not in the other.
    pub fn minus(&self, other: &Runs) -> Result<Runs, AllocError>
        ensures list { IfOk result (λ runs. runs.list ≡ filter (λ n. not (is_among other.now.list n)) self.now.list) }
        ensures alone { IfOk result (λ runs. (n : ℕ) → Contains runs.list n
            ↔ (Contains self.now.list n × (¬ Contains other.now.list n))) }
    {
        self.kept(other, false)
    }

    /// The numbers that are in this one or in the other.
    pub fn union(&self, other: &Runs) -> Result<Runs, AllocError>
        ensures list { IfOk result (λ runs. runs.list ≡ rising_numbers (self.now.list ++ other.now.list)) }
        ensures either { IfOk result (λ runs. (n : ℕ) → Contains runs.list n
            ↔ (Contains self.now.list n ⊎ Contains other.now.list n)) }
    {
        let alloc = *self.numbers.allocator();
        let numbers = joined(alloc, &self.numbers, &other.numbers)?;
        Ok(Runs { numbers })
    }

    /// The numbers of this one that the other shares, or those that it doesn't.
    fn kept(&self, other: &Runs, shared: bool) -> Result<Runs, AllocError>
        ensures { IfOk result (λ runs. runs.list ≡ filter (is_kept shared other.now.list) self.now.list) }
    {
        let alloc = *self.numbers.allocator();
        let numbers = kept(alloc, &self.numbers, &other.numbers, shared)?;
        Ok(Runs { numbers })
    }

    /// The numbers that are at least `from`.
    fn left_from(&self, from: u64) -> &[u64]
        ensures { result.now ≡ numbers_from from self.now.list }
    {
        search_from(&self.numbers, from)
    }
}
