// The calls one by one, by two seats in one thread.
use crate::tally::{Goal, Tally};
use dd_turn::{Found, Lock};
use std::test::Fail;

const GOAL: Goal = Goal { sum: 1, workers: 2 };

#[test]
fn a_turn_is_found_free_busy_and_ended(rt: HostRuntime) {
    let Ok((turn, mut one)) = Lock::new(rt.alloc(), Tally { sum: 0, next: 0 }, &GOAL) else {
        panic!(rt; "no memory");
    };
    let mut two = turn.seat(&GOAL, &mut one);
    let Found::Turn(mut tally) = turn.take(&GOAL, &mut one) else {
        panic!(rt; "the turn isn't free");
    };
    assert!(rt; matches!(turn.take(&GOAL, &mut two), Found::Busy));
    assert_eq!(rt; tally.sum, 0);
    tally.add(&GOAL);
    turn.give(&GOAL, &mut one, tally);
    // It is free, so nobody waits.
    turn.wait_turn(&rt);
    let bell = turn.bell();
    turn.ring(&mut one);
    assert!(rt; turn.bell() != bell);
    turn.wait(&rt, bell);
    let Found::Turn(tally) = turn.take(&GOAL, &mut two) else {
        panic!(rt; "the turn isn't free");
    };
    assert_eq!(rt; tally.sum, 1);
    turn.end(&GOAL, &mut two, tally);
    assert!(rt; matches!(turn.take(&GOAL, &mut one), Found::Ended));
    let tally = turn.close(&GOAL, one);
    assert_eq!(rt; tally.sum, 1);
}
