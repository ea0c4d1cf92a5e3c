//! Which events are legal where, over a run with each of them.
ghost use Rattle.dd_blocks.specs.WellFormed.{IsWellFormed};
ghost use Rattle.dd_core.specs.Cores.{IsCoreOf};

use crate::plans::{THREE_ROWS, plan_of};
use crate::runs::{OF_THREE_ROWS, make};
use dd_blocks::Plan;
use dd_core::{Core, Entry, Event};
use std::process::Abort;

/// Each of the eighteen events, with the places of the run, from 0, where it is legal, and some that are legal nowhere: a Pick
/// of a block that isn't the victim, a Claim by a worker that runs another task, a Copy of too few elements, a Lend of a copy in memory,
/// a Make where a copy is, a Free at the home.
const ANSWERS: &[(Event, &[usize])] = &[
    (Event::Ask { space: 1, block: 1 }, &[0, 24, 31]),
    (Event::Rest, &[2, 5, 8, 11, 28, 32]),
    (Event::Put { block: 3 }, &[7]),
    (Event::Shift { block: 2, space: 1 }, &[10]),
    (Event::Free { space: 2, block: 1 }, &[29]),
    (Event::Free { space: 1, block: 1 }, &[]),
    (Event::Begin { region: 1 }, &[12]),
    (Event::Hold { task: 1 }, &[13]),
    (Event::Hold { task: 2 }, &[13, 14, 15, 16, 17]),
    (Event::Pick { space: 1, block: 1 }, &[14]),
    (Event::Pick { space: 1, block: 2 }, &[]),
    (Event::Gone { space: 1, block: 1 }, &[15]),
    (Event::Make { task: 2, block: 1 }, &[18]),
    (Event::Make { task: 1, block: 3 }, &[]),
    (Event::Call { space: 1, block: 1 }, &[25]),
    (Event::Come { space: 1, block: 1 }, &[26]),
    (
        Event::Lend {
            task: 2,
            block: 1,
            source: 1,
        },
        &[19],
    ),
    (
        Event::Lend {
            task: 0,
            block: 1,
            source: 2,
        },
        &[],
    ),
    (
        Event::Copy {
            task: 2,
            block: 1,
            source: 1,
            count: 2,
        },
        &[20],
    ),
    (
        Event::Copy {
            task: 2,
            block: 1,
            source: 1,
            count: 1,
        },
        &[],
    ),
    (Event::Claim { task: 1, worker: 1 }, &[14, 15, 16]),
    (Event::Claim { task: 2, worker: 1 }, &[]),
    (Event::Claim { task: 2, worker: 2 }, &[21]),
    (Event::Finish { task: 1 }, &[17, 18, 19, 20, 21, 22]),
    (
        Event::Back {
            block: 1,
            source: 2,
            count: 2,
        },
        &[27],
    ),
    (Event::Close { region: 1 }, &[30]),
];

/// After so many entries exactly the events of the table that name this place are legal.
fn are_answered(rt: &impl Abort, core: &Core, plan: &Plan, line: u32, made: usize)
    requires well { IsWellFormed plan.now }
    requires core { IsCoreOf plan.now core.now }
{
    for (event, places) in ANSWERS {
        let entry = Entry {
            line,
            event: *event,
        };
        let legal = core.legal(plan, entry);
        assert_eq!(rt;
            legal,
            places.contains(&made),
            "{event:?} after {made} entries"
        );
    }
}

#[test]
fn each_event_is_legal_in_its_places_alone(rt: HostRuntime) {
    let plan = plan_of(&rt, rt.alloc(), THREE_ROWS);
    let mut core = Core::new(rt.alloc(), &plan).expect(&rt, "memory");
    for (made, (line, event)) in OF_THREE_ROWS.iter().enumerate() {
        are_answered(&rt, &core, &plan, *line, made);
        let entry = Entry {
            line: *line,
            event: *event,
        };
        make(&rt, &mut core, &plan, entry);
    }
}
