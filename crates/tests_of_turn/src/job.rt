// What one thread works with. It is one value, so that the closure of a thread captures each lifetime once.
ghost use Rattle.std.specs.Prelude.{◌≡◌};
ghost use Rattle.dd_turn.specs.Locks.{IsSeatOf};
ghost use Rattle.dd_turn.specs.Seats.{IsFree};

use crate::tally::Goal;
use crate::worker::{Place, Turn, work};
use std::sync::Wait;

#[derive(Drop)]
pub struct Job<'a, R: Wait> {
    pub rt: &'a R,
    pub turn: &'a Turn,
    pub goal: &'a Goal,
    pub place: Option<u32>,
    pub seat: Place,
    ghost own: { IsSeatOf turn.now seat },
    ghost free: { IsFree goal.now seat },
}

impl<'a, R: Wait> Job<'a, R> {
    // How often this thread added until it saw the end.
    pub fn run(self) -> u64 {
        let Job {
            rt,
            turn,
            goal,
            place,
            seat,
        } = self;
        work(rt, turn, goal, seat, place).1
    }
}
