//! The entries that scripts ask for.
ghost use Rattle.dd_blocks.specs.WellFormed.{IsWellFormed};

use crate::plans::{SIX_BLOCKS, TWO_MOVES, TWO_SPACES, plan_of};
use dd_blocks::Plan;
use dd_machine::{Entry, Event};
use dd_owed::{next_entry, one_more};
use std::process::Abort;
use std::test::Fail;

/// Lines with the events that their statements ask for.
type Wanted = &'static [(u32, Event)];

const OF_TWO_SPACES: Wanted = &[
    (5, Event::Ask { space: 1, block: 1 }),
    (5, Event::Put { block: 1 }),
    (5, Event::Rest),
    (6, Event::Ask { space: 2, block: 2 }),
    (6, Event::Put { block: 2 }),
    (6, Event::Rest),
    (10, Event::Begin { region: 1 }),
    (10, Event::Close { region: 1 }),
    (12, Event::Ask { space: 2, block: 2 }),
    (12, Event::Rest),
];

/// What is asked for below the array's own blocks, three below each other and three beside these: those that stand elsewhere
/// are moved, blocks are printed row by row of blocks and summed up in their order, and only the last name frees them.
const OF_SIX_BLOCKS: Wanted = &[
    (5, Event::Ask { space: 2, block: 1 }),
    (5, Event::Shift { block: 1, space: 2 }),
    (5, Event::Rest),
    (5, Event::Ask { space: 2, block: 3 }),
    (5, Event::Shift { block: 3, space: 2 }),
    (5, Event::Rest),
    (5, Event::Ask { space: 2, block: 5 }),
    (5, Event::Shift { block: 5, space: 2 }),
    (5, Event::Rest),
    (6, Event::Ask { space: 2, block: 1 }),
    (6, Event::Rest),
    (6, Event::Ask { space: 2, block: 4 }),
    (6, Event::Rest),
    (6, Event::Ask { space: 2, block: 2 }),
    (6, Event::Rest),
    (6, Event::Ask { space: 2, block: 5 }),
    (6, Event::Rest),
    (6, Event::Ask { space: 2, block: 3 }),
    (6, Event::Rest),
    (6, Event::Ask { space: 2, block: 6 }),
    (6, Event::Rest),
    (7, Event::Ask { space: 2, block: 1 }),
    (7, Event::Rest),
    (7, Event::Ask { space: 2, block: 2 }),
    (7, Event::Rest),
    (7, Event::Ask { space: 2, block: 3 }),
    (7, Event::Rest),
    (7, Event::Ask { space: 2, block: 4 }),
    (7, Event::Rest),
    (7, Event::Ask { space: 2, block: 5 }),
    (7, Event::Rest),
    (7, Event::Ask { space: 2, block: 6 }),
    (7, Event::Rest),
    (10, Event::Free { space: 2, block: 1 }),
    (10, Event::Free { space: 2, block: 2 }),
    (10, Event::Free { space: 2, block: 3 }),
    (10, Event::Free { space: 2, block: 4 }),
    (10, Event::Free { space: 2, block: 5 }),
    (10, Event::Free { space: 2, block: 6 }),
];

/// Moved there and back, and then to where all blocks stand already. Rows without entries are passed.
const OF_TWO_MOVES: Wanted = &[
    (6, Event::Ask { space: 2, block: 1 }),
    (6, Event::Shift { block: 1, space: 2 }),
    (6, Event::Rest),
    (7, Event::Ask { space: 1, block: 1 }),
    (7, Event::Shift { block: 1, space: 1 }),
    (7, Event::Rest),
    (7, Event::Ask { space: 1, block: 2 }),
    (7, Event::Shift { block: 2, space: 1 }),
    (7, Event::Rest),
    (9, Event::Ask { space: 1, block: 1 }),
    (9, Event::Rest),
    (9, Event::Ask { space: 1, block: 2 }),
    (9, Event::Rest),
    (12, Event::Free { space: 1, block: 1 }),
    (12, Event::Free { space: 1, block: 2 }),
    (13, Event::Ask { space: 1, block: 3 }),
    (13, Event::Put { block: 3 }),
    (13, Event::Rest),
    (14, Event::Free { space: 1, block: 3 }),
];

/// From a position on, these entries are asked for and no others.
fn asks_for(rt: &impl Abort, plan: &Plan, from: (u32, u32), wanted: Wanted)
    requires { IsWellFormed plan.now }
{
    let rows = plan.statements.as_slice().len();
    let (mut row, mut made) = from;
    for (line, event) in wanted {
        assert!(rt; row as usize <= rows);
        let entry = next_entry(plan, row, made);
        assert_eq!(rt;
            entry,
            Some(Entry {
                line: *line,
                event: *event
            }),
            "row {row}, entry {made}"
        );
        let next = one_more(plan, row, made);
        row = next.0;
        made = next.1;
    }
    assert!(rt; row as usize <= rows);
    assert_eq!(rt; next_entry(plan, row, made), None);
}

#[test]
fn statements_ask_for_their_entries_in_turn(rt: HostRuntime) -> Result<(), Fail> {
    let plan = plan_of(&rt, rt.alloc(), TWO_SPACES);
    asks_for(&rt, &plan, (0, 0), OF_TWO_SPACES);
    let plan = plan_of(&rt, rt.alloc(), SIX_BLOCKS);
    asks_for(&rt, &plan, (1, 18), OF_SIX_BLOCKS);
    let plan = plan_of(&rt, rt.alloc(), TWO_MOVES);
    asks_for(&rt, &plan, (1, 6), OF_TWO_MOVES);
    Ok(())
}
