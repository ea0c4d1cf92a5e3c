//! Laws over the definitions of this crate. Each is a function without arguments whose contract is the law.

ghost use Rattle.std.specs.Prelude.{◌≡◌, ◌↔◌, ℕ, List, Contains};
ghost use Rattle.std.specs.List.Sorted.{IsStrictlyIncreasing};
ghost use Rattle.dd_spans.specs.Numbers.{numbers_from, rising_numbers};
ghost use Rattle.dd_spans.specs.SortedNumbers.{SortedNumbers};

/// The rising numbers of a list are in rising order, none twice, and are exactly the numbers of the list.
pub fn rising()
    ensures { (ns : List ℕ) → IsStrictlyIncreasing (rising_numbers ns)
        × ((n : ℕ) → Contains (rising_numbers ns) n ↔ Contains ns n) }
{}

/// From 0 on, all numbers of a list are left.
pub fn all_left()
    ensures { (ns : List ℕ) → numbers_from 0 ns ≡ ns }
{}

/// Sorted numbers that have the same numbers are the same.
pub fn same_numbers()
    ensures { (a b : SortedNumbers) → ((n : ℕ) → Contains a.list n ↔ Contains b.list n) → a ≡ b }
{}
