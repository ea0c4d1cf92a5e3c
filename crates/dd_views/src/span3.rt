ghost use Rattle.std.specs.Prelude.{◌≡◌, ◌≢◌, ◌+◌, ◌*◌, ◌<◌, ◌≤◌, pos, ℕ, MatchOption, unsigned_abs};

/// The numbers that a range lists: `count` of them, from `first` on in steps.
#[derive(Clone, Copy, Debug, PartialEq, Eq)]
pub struct Span3 {
    pub first: u32,
    /// Above or below 0, and never 0.
    pub step: i64,
    pub count: u32,
}

impl Span3 {
    ghost use Rattle.dd_views.specs.IndexList.{number_at_place};
    ghost use Rattle.dd_views.specs.Places.{IsWay};
    ghost use Rattle.dd_views.specs.Span.{IsSmallSpan, IsSpanIn};

    /// One less than the number at a place, from 1.
    pub(crate) fn index_at(&self, place: u64) -> u64
        requires span { IsSmallSpan self.now }
        requires low { 1 ≤ place }
        requires high { place ≤ self.now.count }
        ensures number { result + 1 ≡ number_at_place self.now place }
        ensures within { (length : ℕ) → IsSpanIn length self.now → result < length }
    {
        let way = (place - 1) * self.stride();
        let first = u64::from(self.first) - 1;
        if self.step > 0 {
            first + way
        } else {
            first - way
        }
    }

    /// The place, from 1, of the number that is one more than `index`.
    pub(crate) fn place_of(&self, index: u64) -> Option<u64>
        requires { IsSmallSpan self.now }
        ensures { MatchOption result
            ((k : ℕ) → 1 ≤ k → k ≤ self.now.count → number_at_place self.now k ≢ index + 1)
            (λ i. (1 ≤ i) × (i ≤ self.now.count) × (number_at_place self.now i ≡ index + 1)
            × ((k : ℕ) → 1 ≤ k → k ≤ self.now.count → number_at_place self.now k ≡ index + 1 → k ≡ i)) }
    {
        if self.count == 0 {
            return None;
        }
        match self.way_to(index) {
            Some(way) => self.place_after(index, way),
            None => None,
        }
    }

    /// The same, where the number is `way` beyond the first.
    fn place_after(&self, index: u64, way: u64) -> Option<u64>
        requires span { IsSmallSpan self.now }
        requires way { IsWay self.now index way }
        ensures { MatchOption result
            ((k : ℕ) → 1 ≤ k → k ≤ self.now.count → number_at_place self.now k ≢ index + 1)
            (λ i. (1 ≤ i) × (i ≤ self.now.count) × (number_at_place self.now i ≡ index + 1)
            × ((k : ℕ) → 1 ≤ k → k ≤ self.now.count → number_at_place self.now k ≡ index + 1 → k ≡ i)) }
    {
        let stride = self.stride();
        let jumps = way / stride;
        if jumps * stride == way && jumps < u64::from(self.count) {
            Some(jumps + 1)
        } else {
            None
        }
    }

    /// How far the number that is one more than `index` is beyond the first, in the direction of the step.
    fn way_to(&self, index: u64) -> Option<u64>
        requires step { self.now.step ≢ pos 0 }
        requires first { 1 ≤ self.now.first }
        ensures { MatchOption result ((way : ℕ) → ¬ IsWay self.now index way) (IsWay self.now index) }
    {
        let first = u64::from(self.first) - 1;
        if self.step > 0 {
            index.checked_sub(first)
        } else {
            first.checked_sub(index)
        }
    }

    /// The size of the step.
    fn stride(&self) -> u64
        ensures { result ≡ unsigned_abs self.now.step }
    {
        self.step.unsigned_abs()
    }
}
