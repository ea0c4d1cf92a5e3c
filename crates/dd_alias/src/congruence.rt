//! Least solutions of congruences.
ghost use Rattle.std.specs.Prelude.{◌≡◌, ℕ, ◌+◌, ◌*◌, ◌%◌, ◌^◌, ◌<◌, ◌↔◌, MatchOption};
ghost use Rattle.dd_alias.specs.Congruence.{HasNoCommon, IsFar, IsLeast, IsLeastCommon, IsMultiple, IsOnWay, IsSame};

/// The least number that makes a multiple of `step` of `number`, when it is added.
pub fn complement(number: u64, step: u64) -> u64
    requires { 0 < step }
    ensures small { result < step }
    ensures exact { (x : ℕ) → IsMultiple step (number + x) ↔ IsOnWay result step x }
{
    let rest = remainder(number, step);
    if rest == 0 { 0 } else { step - rest }
}

/// How many strides from 0 lead to `start`, or some times `step` beyond it, for the first time.
///
/// Strides that lead to `start + n * step` are one question, and steps that lead from there back to a multiple
/// of the stride are the same question with smaller numbers.
pub fn least_turns(stride: u64, start: u64, step: u64) -> Option<u64>
    ensures { MatchOption result (IsFar stride start step) (IsLeast stride start step) }
{
    if start == 0 {
        return Some(0);
    }
    if stride == 0 {
        return None;
    }
    let Some(steps) = least_turns(step % stride, complement(start, stride), stride) else {
        return None;
    };
    let Some(beyond) = steps.checked_mul(step) else {
        return None;
    };
    let Some(way) = beyond.checked_add(start) else {
        return None;
    };
    Some(way / stride)
}

/// The least common multiple of two numbers, where it fits.
pub fn least_common(a: u64, b: u64) -> Option<u64>
    requires a { 0 < a }
    requires b { 0 < b }
    ensures { MatchOption result (HasNoCommon a b) (IsLeastCommon a b) }
{
    let Some(turns) = least_turns(a, complement(a, b), b) else {
        return None;
    };
    (turns * a).checked_add(a)
}

/// A number that both are multiples of: the greatest, by Euclid's algorithm, though no answer rests on that.
pub fn common_divisor(a: u64, b: u64) -> u64
    requires { 0 < b }
    ensures above { 0 < result }
    ensures of_a { IsMultiple result a }
    ensures of_b { IsMultiple result b }
{
    if a == 0 {
        return b;
    }
    common_divisor(remainder(b, a), a)
}

/// The least number that leads from one number to another one, or some gaps from it, when it is added.
pub fn lead(from: u64, to: u64, gap: u64) -> u64
    requires { 0 < gap }
    ensures small { result < gap }
    ensures leads { IsSame gap (from + result) to }
{
    if from >= to {
        complement(from - to, gap)
    } else {
        remainder(to - from, gap)
    }
}

/// A remainder. Most steps are 1, and a test is faster than a division.
fn remainder(number: u64, divisor: u64) -> u64
    requires { 0 < divisor }
    ensures { result ≡ number % divisor }
{
    if divisor == 1 {
        return 0;
    }
    number % divisor
}
