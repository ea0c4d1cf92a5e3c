// The number that is handed over, and how it grows.
ghost use Rattle.std.specs.Prelude.{◌≡◌, ◌≤◌};

use dd_turn::Baton;

// What stays the same: up to which sum the threads add, and how many threads there are.
#[derive(Drop)]
pub struct Goal {
    pub sum: u64,
    pub workers: u32,
}

#[derive(Drop)]
pub struct Tally {
    pub sum: u64,
    // Which thread is to add next, where they do so one after the other.
    pub next: u32,
}

impl Baton<Goal> for Tally {
    ghost fits = { λ goal tally. tally.sum ≤ goal.sum };

    ghost over = { λ goal tally. tally.sum ≡ goal.sum };
}

impl Tally {
    ghost use Rattle.std.specs.Prelude.{◌+◌, ◌<◌};

    // Who has a place adds where it is next, and who has none at any time.
    pub fn is_due(&self, place: Option<u32>) -> bool {
        match place {
            Some(place) => self.next == place,
            None => true,
        }
    }

    pub fn add(&mut self, goal: &Goal)
        requires { self.old.sum < goal.now.sum }
        ensures { self.new.sum ≡ self.old.sum + 1 }
    {
        self.sum += 1;
        self.next = match self.next.checked_add(1) {
            Some(next) if next < goal.workers => next,
            _ => 0,
        };
    }
}
