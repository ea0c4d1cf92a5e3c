ghost use Rattle.std.specs.Prelude.{◌≡◌, ◌-ℤ◌, unsigned_abs};
ghost use Rattle.dd_views.specs.Progression.{bounds_of};

use crate::range::Range;

/// A range by its first number, its step, and the number that it never passes.
#[derive(Clone, Copy, Debug)]
pub struct Bounds {
    pub first: i64,
    pub step: i64,
    pub last: i64,
}

impl Bounds {
    /// How far the last number is from the first, in either direction.
    pub fn distance(&self) -> u64
        ensures { result ≡ unsigned_abs (self.now.last -ℤ self.now.first) }
    {
        self.last.abs_diff(self.first)
    }

    /// The size of the step.
    pub fn stride(&self) -> u64
        ensures { result ≡ unsigned_abs self.now.step }
    {
        self.step.unsigned_abs()
    }
}

/// The bounds of a range over the numbers 1 to `length`.
pub fn bounds_of(range: Range, length: u32) -> Bounds
    ensures { result ≡ bounds_of range length }
{
    match range {
        Range::All => Bounds {
            first: 1,
            step: 1,
            last: i64::from(length),
        },
        Range::One(number) => Bounds {
            first: number,
            step: 1,
            last: number,
        },
        Range::Run { first, last } => Bounds {
            first,
            step: 1,
            last,
        },
        Range::Steps { first, step, last } => Bounds { first, step, last },
    }
}
