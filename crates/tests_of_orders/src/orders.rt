//! Orders at values from outside.
ghost use Rattle.std.specs.Prelude.{◌<◌};

use dd_recency::{Order, Policy};
use std::alloc::{AllocError, Global};
use std::process::Abort;
use std::test::Fail;

/// What is done to an order.
#[derive(Clone, Copy)]
enum Step {
    Add(u32),
    Touch(u32),
    /// A block to be taken, and whether it is there.
    Take(u32, bool),
}

use Step::{Add, Take, Touch};

/// A name, the room, what is done, and the blocks then, the one used last first.
type ListRow = (&'static str, u32, &'static [Step], &'static [u32]);

/// A name, the blocks in the order in which they are added, the policy, those that are pinned, and which goes first.
type VictimRow = (
    &'static str,
    &'static [u32],
    Policy,
    &'static [u32],
    Option<u32>,
);

const LISTS: [ListRow; 16] = [
    ("nothing", 1, &[], &[]),
    ("one added", 1, &[Add(7)], &[7]),
    ("three added", 3, &[Add(1), Add(2), Add(3)], &[3, 2, 1]),
    (
        "the last touched",
        3,
        &[Add(1), Add(2), Add(3), Touch(1)],
        &[1, 3, 2],
    ),
    (
        "the middle touched",
        3,
        &[Add(1), Add(2), Add(3), Touch(2)],
        &[2, 3, 1],
    ),
    (
        "the first touched",
        3,
        &[Add(1), Add(2), Add(3), Touch(3)],
        &[3, 2, 1],
    ),
    ("the only one touched", 1, &[Add(5), Touch(5)], &[5]),
    (
        "the last taken",
        4,
        &[Add(1), Add(2), Add(3), Take(1, true)],
        &[3, 2],
    ),
    (
        "the middle taken",
        4,
        &[Add(1), Add(2), Add(3), Take(2, true)],
        &[3, 1],
    ),
    (
        "the first taken",
        4,
        &[Add(1), Add(2), Add(3), Take(3, true)],
        &[2, 1],
    ),
    ("the only one taken", 1, &[Add(5), Take(5, true)], &[]),
    (
        "absent ones taken",
        3,
        &[Take(1, false), Add(1), Add(2), Take(3, false)],
        &[2, 1],
    ),
    (
        "taken twice",
        2,
        &[Add(1), Add(2), Take(1, true), Take(1, false)],
        &[2],
    ),
    (
        "up to the room, and again",
        2,
        &[Add(1), Add(2), Take(1, true), Add(3), Take(2, true), Add(1)],
        &[1, 3],
    ),
    (
        "the least and the greatest number",
        2,
        &[Add(0), Add(4294967295), Touch(0)],
        &[0, 4294967295],
    ),
    (
        "more room than memory",
        4294967295,
        &[Add(4294967295), Add(0), Take(4294967295, true)],
        &[0],
    ),
];

const VICTIMS: [VictimRow; 14] = [
    ("the oldest", &[1, 2, 3], Policy::Lru, &[], Some(1)),
    ("the newest", &[1, 2, 3], Policy::Mru, &[], Some(3)),
    ("the newest but one", &[1, 2, 3], Policy::Mru, &[3], Some(2)),
    ("the oldest but one", &[1, 2, 3], Policy::Lru, &[1], Some(2)),
    (
        "all but the newest",
        &[1, 2, 3],
        Policy::Lru,
        &[2, 1],
        Some(3),
    ),
    (
        "all but the oldest",
        &[1, 2, 3],
        Policy::Mru,
        &[2, 3],
        Some(1),
    ),
    ("the middle pinned", &[1, 2, 3], Policy::Lru, &[2], Some(1)),
    ("the middle pinned", &[1, 2, 3], Policy::Mru, &[2], Some(3)),
    ("all pinned", &[1, 2, 3], Policy::Lru, &[3, 1, 2], None),
    ("all pinned", &[1, 2, 3], Policy::Mru, &[3, 1, 2], None),
    ("pinned twice", &[1, 2], Policy::Lru, &[1, 1], Some(2)),
    (
        "an absent one pinned",
        &[1, 2],
        Policy::Mru,
        &[4, 3],
        Some(2),
    ),
    ("of nothing", &[], Policy::Lru, &[], None),
    ("of nothing", &[], Policy::Mru, &[1], None),
];

#[test]
fn lists(rt: HostRuntime) -> Result<(), Fail> {
    for row in &LISTS {
        check_list(&rt, rt.alloc(), row)?;
    }
    Ok(())
}

#[test]
fn victims(rt: HostRuntime) -> Result<(), Fail> {
    for row in &VICTIMS {
        check_victim(&rt, rt.alloc(), row)?;
    }
    Ok(())
}

#[test]
fn long_runs(rt: HostRuntime) -> Result<(), Fail> {
    for count in [1, 2, 3, 8, 50] {
        check_run(&rt, rt.alloc(), count)?;
    }
    Ok(())
}

fn check_list(rt: &impl Abort, alloc: Global, row: &ListRow) -> Result<(), AllocError> {
    let (name, room, steps, blocks) = row;
    assert!(rt; *room > 0);
    let mut order = Order::new(alloc, *room)?;
    for step in *steps {
        take_step(rt, &mut order, step)?;
    }
    assert_eq!(rt; order.is_full(), blocks.len() == *room as usize, "{name}");
    check_blocks(rt, &order, blocks, name);
    Ok(())
}

fn check_victim(rt: &impl Abort, alloc: Global, row: &VictimRow) -> Result<(), AllocError> {
    let (name, blocks, policy, pinned, wanted) = row;
    let mut order = Order::new(alloc, 3)?;
    for block in *blocks {
        take_step(rt, &mut order, &Add(*block))?;
    }
    assert_eq!(rt; order.victim(*policy, pinned), *wanted, "{name}");
    Ok(())
}

fn take_step(rt: &impl Abort, order: &mut Order, step: &Step) -> Result<(), AllocError> {
    match step {
        Add(block) => {
            assert!(rt; !order.has(*block));
            assert!(rt; !order.is_full());
            order.add(*block)?;
        }
        Touch(block) => {
            assert!(rt; order.has(*block));
            order.touch(*block);
        }
        Take(block, found) => assert_eq!(rt; order.take(*block), *found),
    }
    Ok(())
}

/// Each place of the order, from both ends: where all before it are pinned, or all behind it.
fn check_blocks(rt: &impl Abort, order: &Order, blocks: &[u32], name: &str) {
    assert_eq!(rt; order.len(), blocks.len(), "{name}");
    assert_eq!(rt; order.is_empty(), blocks.is_empty(), "{name}");
    for (i, block) in blocks.iter().enumerate() {
        let (before, from) = blocks.split_at(i);
        assert!(rt; order.has(*block), "{name}");
        assert_eq!(rt; order.victim(Policy::Mru, before), Some(*block), "{name}");
        assert_eq!(rt;
            order.victim(Policy::Lru, &from[1..]),
            Some(*block),
            "{name}"
        );
    }
    assert_eq!(rt; order.victim(Policy::Mru, blocks), None, "{name}");
    assert_eq!(rt; order.victim(Policy::Lru, blocks), None, "{name}");
}

/// Some hundred steps on the blocks below `count`, beside a plain list.
fn check_run(rt: &impl Abort, alloc: Global, count: u32) -> Result<(), AllocError> {
    assert!(rt; count > 0);
    let mut order = Order::new(alloc, count)?;
    let mut plain = Vec::new(alloc);
    let mut state = 1u32;
    for _ in 0..400 {
        state = state.wrapping_mul(1664525).wrapping_add(1013904223);
        let block = (state >> 8) % count;
        let step = next_step(&mut plain, block, state >> 30 == 0)?;
        take_step(rt, &mut order, &step)?;
        check_blocks(rt, &order, &plain, "a long run");
    }
    Ok(())
}

/// What is done next to a block, done to the plain list.
fn next_step(plain: &mut Vec<u32>, block: u32, takes: bool) -> Result<Step, AllocError> {
    let step = match plain.iter().position(|other| *other == block) {
        Some(place) => {
            plain.remove(place);
            if takes {
                Take(block, true)
            } else {
                Touch(block)
            }
        }
        None => if takes {
            Take(block, false)
        } else {
            Add(block)
        }
    };
    if !takes {
        plain.insert(0, block)?;
    }
    Ok(step)
}
