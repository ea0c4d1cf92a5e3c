//! Where sorted numbers are cut at a number.
ghost use Rattle.std.specs.Prelude.{◌≡◌, ◌<◌, ◌≤◌, length, take, drop};
ghost use Rattle.std.specs.List.{All};
ghost use Rattle.std.specs.List.Sorted.{IsStrictlyIncreasing};
ghost use Rattle.dd_spans.specs.Numbers.{is_among, numbers_below, numbers_from};

/// The numbers below `n`, and the others. The cut is sought from the front.
pub(crate) fn cut_at(numbers: &[u64], n: u64) -> (&[u64], &[u64])
    requires { IsStrictlyIncreasing numbers.now }
    ensures below { result.0.now ≡ numbers_below n numbers.now }
    ensures from { result.1.now ≡ numbers_from n numbers.now }
{
    numbers.split_at(count_below(numbers, n))
}

/// How many numbers are below `n`.
fn count_below(numbers: &[u64], n: u64) -> usize
    requires { IsStrictlyIncreasing numbers.now }
    ensures within { result ≤ length numbers.now }
    ensures below { All (λ m. m < n) (take result numbers.now) }
    ensures from { All (λ m. n ≤ m) (drop result numbers.now) }
{
    for (count, number) in numbers.iter().enumerate() {
        if *number >= n {
            return count;
        }
    }
    numbers.len()
}

/// The numbers that are at least `n`, by a binary search.
pub(crate) fn search_from(numbers: &[u64], n: u64) -> &[u64]
    requires { IsStrictlyIncreasing numbers.now }
    ensures { result.now ≡ numbers_from n numbers.now }
{
    let start = numbers.partition_point(|number| *number < n);
    &numbers[start..]
}

/// Whether `n` is there, where no number is below it: then it is the first.
pub(crate) fn begins_with(numbers: &[u64], n: u64) -> bool
    requires rises { IsStrictlyIncreasing numbers.now }
    requires least { All (λ m. n ≤ m) numbers.now }
    ensures { result ≡ is_among numbers.now n }
{
    match numbers {
        [first, ..] => *first == n,
        [] => false,
    }
}
