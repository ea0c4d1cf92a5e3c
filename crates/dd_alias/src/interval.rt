ghost use Rattle.std.specs.Prelude.{◌↔◌, IsTrue};

/// The numbers from one to another. There are none where the greatest is below the least.
#[derive(Clone, Copy, Debug)]
pub struct Interval {
    pub low: u64,
    pub high: u64,
}

impl Interval {
    ghost use Rattle.dd_alias.specs.Intervals.{IsAround, Meet};

    /// No numbers.
    pub fn none() -> Interval {
        Interval {
            low: u64::MAX,
            high: 0,
        }
    }

    /// Whether neither is behind the other.
    pub fn meets(&self, other: &Interval) -> bool
        ensures { IsTrue result ↔ Meet self.now other.now }
    {
        self.low <= other.high && other.low <= self.high
    }

    /// An interval around both.
    pub fn joined(&self, other: &Interval) -> Interval
        ensures one { IsAround result self.now }
        ensures other { IsAround result other.now }
    {
        Interval {
            low: self.low.min(other.low),
            high: self.high.max(other.high),
        }
    }

    /// How many numbers there are, or the greatest number that fits.
    pub fn count(&self) -> u64 {
        self.high.saturating_sub(self.low).saturating_add(1)
    }
}

/// How far it is from a row up to the next of some rows, and down to the next.
#[derive(Clone, Copy, Debug)]
pub struct Ways {
    pub up: u64,
    pub down: u64,
}
