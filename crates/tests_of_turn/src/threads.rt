// A number goes from thread to thread until it is as large as it was to be.
ghost use Rattle.std.specs.Prelude.{◌≡◌, IfOk};
ghost use Rattle.dd_turn.specs.Locks.{IsSeatOf};
ghost use Rattle.dd_turn.specs.Seats.{IsFree};

use crate::job::Job;
use crate::tally::{Goal, Tally};
use crate::worker::{Place, Turn, work};
use dd_turn::Lock;
use std::alloc::{AllocError, Global};
use std::sync::Wait;
use std::test::Fail;
use std::thread;
use std::thread::Threads;

// The number at the end, and how often each worker added.
#[derive(Drop)]
struct Counted {
    sum: u64,
    by_each: Vec<u64>,
}

fn hire<'a, R: Wait>(
    rt: &'a R,
    alloc: Global,
    turn: &'a Turn,
    goal: &'a Goal,
    seat: &mut Place,
    in_order: bool,
) -> Result<Vec<Job<'a, R>>, AllocError>
    requires own { IsSeatOf turn.now seat.old }
    requires free { IsFree goal.now seat.old }
    ensures own { IsSeatOf turn.now seat.new }
    ensures free { IsFree goal.now seat.new }
{
    let mut jobs = Vec::new(alloc);
    for worker in 0..goal.workers {
        jobs.push(Job {
            rt,
            turn,
            goal,
            place: if in_order { Some(worker) } else { None },
            seat: turn.seat(goal, seat),
        })?;
    }
    Ok(jobs)
}

fn run_all<R: Threads + Wait + Sync>(
    rt: &R,
    alloc: Global,
    turn: &Turn,
    goal: &Goal,
    seat: &mut Place,
    in_order: bool,
) -> Result<Vec<u64>, AllocError>
    requires own { IsSeatOf turn.now seat.old }
    requires free { IsFree goal.now seat.old }
    ensures own { IsSeatOf turn.now seat.new }
    ensures free { IsFree goal.now seat.new }
{
    let jobs = hire(rt, alloc, turn, goal, seat, in_order)?;
    thread::map_vec(rt, jobs, &|job| job.run())
}

// The caller's own seat finds the end once the threads were joined. Where there are none, it adds all itself.
fn count<R: Threads + Wait + Sync>(
    rt: &R,
    alloc: Global,
    goal: &Goal,
    in_order: bool,
) -> Result<Counted, AllocError>
    ensures { IfOk result (λ counted. counted.sum ≡ goal.now.sum) }
{
    let Ok((turn, mut seat)) = Lock::new(alloc, Tally { sum: 0, next: 0 }, goal) else {
        return Err(AllocError);
    };
    let by_each = run_all(rt, alloc, &turn, goal, &mut seat, in_order);
    let (seat, own) = work(rt, &turn, goal, seat, None);
    let tally = turn.close(goal, seat);
    let mut by_each = by_each?;
    by_each.push(own)?;
    Ok(Counted {
        sum: tally.sum,
        by_each,
    })
}

// Each row: how many threads there are, and up to which sum they add, in any order.
#[test]
fn each_addition_counts(rt: HostRuntime) -> Result<(), Fail> {
    for (workers, sum) in [(1, 0), (1, 1000), (2, 1000), (8, 1000)] {
        let goal = Goal { sum, workers };
        let counted = count(&rt, rt.alloc(), &goal, false)?;
        assert_eq!(rt; counted.sum, sum, "{workers} workers");
        assert_eq!(rt; counted.by_each.len() as u64, u64::from(workers) + 1);
        let all = counted
            .by_each
            .iter()
            .fold(0u64, |all, x| all.wrapping_add(*x));
        assert_eq!(rt; all, sum, "{workers} workers");
    }
    Ok(())
}

// Each row: how many threads there are, and how often each adds. One that isn't next waits for the bell.
#[test]
fn who_waits_for_the_bell_is_woken(rt: HostRuntime) -> Result<(), Fail> {
    for (workers, each) in [(1u32, 5u64), (2, 100), (8, 25)] {
        let goal = Goal {
            sum: u64::from(workers) * each,
            workers,
        };
        let counted = count(&rt, rt.alloc(), &goal, true)?;
        for (worker, added) in counted.by_each.iter().enumerate() {
            let own = worker as u64 == u64::from(workers);
            assert_eq!(rt; *added, if own { 0 } else { each }, "{worker} of {workers}");
        }
    }
    Ok(())
}
