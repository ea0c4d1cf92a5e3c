//! How far sorted numbers follow each other.
ghost use Rattle.std.specs.Prelude.{◌≡◌, ◌≢◌, ℕ, ◌+◌, ◌<◌, ◌≤◌, length, slice_index};
ghost use Rattle.std.specs.List.Sorted.{IsStrictlyIncreasing};

/// How many numbers follow each other from the first on, itself counted. They are counted one by one, but where all do.
pub(crate) fn run_len(numbers: &[u64]) -> usize
    requires rises { IsStrictlyIncreasing numbers.now }
    requires some { 0 < length numbers.now }
    ensures some { 0 < result }
    ensures within { result ≤ length numbers.now }
    ensures run { (k : ℕ) → k < result → slice_index numbers.now k ≡ slice_index numbers.now 0 + k }
    ensures ends { result < length numbers.now
        → slice_index numbers.now result ≢ slice_index numbers.now 0 + result }
{
    let first = numbers[0];
    // Numbers that rise have no gap where the last is no further off than there are numbers.
    if numbers[numbers.len() - 1] - first == numbers.len() as u64 - 1 {
        return numbers.len();
    }
    for (count, number) in numbers.iter().enumerate() {
        if *number - first != count as u64 {
            return count;
        }
    }
    numbers.len()
}
