//! What two runs of numbers have in common.
ghost use Rattle.std.specs.Prelude.{◌≡◌, ℕ, ◌^◌, ◌≤◌, ◌↔◌, MatchOption};
ghost use Rattle.dd_alias.specs.Runs.{HasNumber, IsAhead, IsFirstCommon};

use crate::congruence::{complement, least_common, least_turns};
use crate::run::Run;

/// The numbers that both have.
pub fn common(a: &Run, b: &Run) -> Run
    ensures { (x : ℕ) → HasNumber result x ↔ (HasNumber a.now x × HasNumber b.now x) }
{
    common_behind(&a.at_least(b.first), b)
}

/// The numbers that both have, where one begins where the other does or behind.
fn common_behind(a: &Run, b: &Run) -> Run
    requires { b.now.first ≤ a.now.first }
    ensures { (x : ℕ) → HasNumber result x ↔ (HasNumber a.now x × HasNumber b.now x) }
{
    let Some(first) = first_common(a, b) else {
        return Run::none_from(1);
    };
    common_from(a, b, first)
}

/// The first number that both come to, where one begins where the other does or behind.
fn first_common(a: &Run, b: &Run) -> Option<u64>
    requires { b.now.first ≤ a.now.first }
    ensures { MatchOption result
        ((x : ℕ) → IsAhead a.now x → IsAhead b.now x → 2 ^ 64 ≤ x)
        (IsFirstCommon a.now b.now) }
{
    let start = complement(a.first - b.first, b.stride);
    let Some(turns) = least_turns(a.stride, start, b.stride) else {
        return None;
    };
    a.first.checked_add(turns * a.stride)
}

/// The numbers that both have, by the first that they come to.
fn common_from(a: &Run, b: &Run, first: u64) -> Run
    requires { IsFirstCommon a.now b.now first }
    ensures { (x : ℕ) → HasNumber result x ↔ (HasNumber a.now x × HasNumber b.now x) }
{
    let limit = a.limit.min(b.limit);
    let Some(stride) = least_common(a.stride, b.stride) else {
        return Run {
            first,
            stride: 1,
            limit: limit.min(first),
        };
    };
    Run {
        first,
        stride,
        limit,
    }
}
