// One worker: it adds where it may, and waits where it may not, until it sees the end.
ghost use Rattle.std.specs.Prelude.{◌≡◌, MatchBool};
ghost use Rattle.dd_turn.specs.Locks.{IsSeatOf};
ghost use Rattle.dd_turn.specs.Seats.{IsFree, HasSeenEnd};

use crate::tally::{Goal, Tally};
use dd_turn::{Found, Lock, Seat};
use std::sync::Wait;

pub type Turn = Lock<Goal, Tally>;

pub type Place = Seat<Goal, Tally>;

#[derive(Drop)]
pub struct Step {
    pub added: u64,
    pub ended: bool,
}

// One turn, or a wait for it.
fn take_turn<R: Wait>(
    rt: &R,
    turn: &Turn,
    goal: &Goal,
    seat: &mut Place,
    place: Option<u32>,
) -> Step
    requires own { IsSeatOf turn.now seat.old }
    requires free { IsFree goal.now seat.old }
    ensures own { IsSeatOf turn.now seat.new }
    ensures seen { MatchBool result.ended (HasSeenEnd goal.now seat.new) (IsFree goal.now seat.new) }
{
    let bell = turn.bell();
    match turn.take(goal, seat) {
        Found::Ended => Step {
            added: 0,
            ended: true,
        },
        Found::Busy => {
            turn.wait_turn(rt);
            Step {
                added: 0,
                ended: false,
            }
        }
        Found::Turn(tally) if tally.sum == goal.sum => {
            turn.end(goal, seat, tally);
            turn.ring(seat);
            Step {
                added: 0,
                ended: true,
            }
        }
        Found::Turn(mut tally) if tally.is_due(place) => {
            tally.add(goal);
            turn.give(goal, seat, tally);
            turn.ring(seat);
            Step {
                added: 1,
                ended: false,
            }
        }
        Found::Turn(tally) => {
            turn.give(goal, seat, tally);
            turn.wait(rt, bell);
            Step {
                added: 0,
                ended: false,
            }
        }
    }
}

pub fn work<R: Wait>(
    rt: &R,
    turn: &Turn,
    goal: &Goal,
    mut seat: Place,
    place: Option<u32>,
) -> (Place, u64)
    requires own { IsSeatOf turn.now seat }
    requires free { IsFree goal.now seat }
    ensures own { IsSeatOf turn.entry.now result.0 }
    ensures seen { HasSeenEnd goal.entry.now result.0 }
{
    let mut added = 0u64;
    for _ in rt.forever() {
        let done = take_turn(rt, turn, goal, &mut seat, place);
        added = added.wrapping_add(done.added);
        if done.ended {
            return (seat, added);
        }
    }
    unreachable!()
}
