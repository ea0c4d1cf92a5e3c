//! What an accepted script's last task gets: its processor, its dependencies, its blocks and its charge.
use dd_blocks::TaskRow;
use dd_check::accept;
use std::alloc::Global;
use std::process::Abort;
use std::test::Fail;

/// A name, a script, and of its last task the processor, the dependencies, the blocks and the charge.
type Row = (&'static str, &'static [u8], Last);

/// The processor, the dependencies, the blocks and the charge of a task.
type Last = (u32, &'static [u32], &'static [u32], u64);

const TASKS: [Row; 7] = [
    (
        "one block",
        b"array A 2 2 2 2 const 1\nregion\ntask add InOut(A) In(A)\nend",
        (1, &[], &[1], 128),
    ),
    (
        "reads what two wrote",
        b"array A 1 4 1 2 zeros\nregion\ntask fill 1 Out(A[1,1:2])\ntask fill 2 Out(A[1,3:4])\ntask addk 1 InOut(A)\nend",
        (1, &[1, 2], &[1, 2], 80),
    ),
    (
        "the second region",
        b"array A 1 2 1 2 zeros\nregion\ntask fill 1 Out(A)\nend\nregion\ntask fill 1 Out(A)\ntask addk 1 InOut(A)\nend",
        (1, &[2], &[1], 48),
    ),
    (
        "strided blocks",
        b"array A 6 6 2 2 zeros\nregion\ntask fill 1 Out(A[1:5:6,2:3:5])\nend",
        (1, &[], &[1, 3, 7, 9], 8 * (16 + 4 + 4)),
    ),
    (
        "upper blocks",
        b"array A 4 4 2 2 zeros\nregion\ntask fill 1 Out(unitlower(A[1:3,1:3]))\nend",
        (1, &[], &[1, 2], 8 * (8 + 3 + 4)),
    ),
    (
        "two spaces",
        b"space m 4096\nspace n 4096\nproc p m\nproc q n\nplace home\narray A 1 4 1 4 zeros\narray B 1 2 1 2 zeros\nregion\ntask fill 1 Out(A)\ntask copy Out(B) In(A[1,1:2])\nend",
        (2, &[1], &[1, 2], 8 * (6 + 4 + 4)),
    ),
    (
        "moved to and fro",
        b"space m 4096\nspace n 4096\nproc p m\nproc q n\nplace home\narray A 1 2 1 2 zeros\nmove A n\narray B 1 2 1 2 zeros\nmove B m\nmove A m\nregion\ntask fill 1 Out(A)\nend\nmove A n\nregion\ntask fill 1 Out(B)\ntask copy Out(A) In(B)\nend",
        (2, &[2], &[1, 2], 8 * (4 + 4 + 2)),
    ),
];

#[test]
fn last_tasks(rt: HostRuntime) -> Result<(), Fail> {
    for (name, text, wanted) in TASKS {
        check_task(&rt, rt.alloc(), name, text, wanted);
    }
    Ok(())
}

fn check_task(rt: &impl Abort, alloc: Global, name: &str, text: &[u8], wanted: Last) {
    assert!(rt; text.len() <= 1_048_576, "{name}");
    match accept(alloc, text) {
        Ok(plan) => check_last(rt, name, plan.tasks.as_slice(), wanted),
        Err(_e) => assert!(rt; false, "{name}"),
    }
}

fn check_last(rt: &impl Abort, name: &str, tasks: &[TaskRow], wanted: Last) {
    let (proc, deps, blocks, charge) = wanted;
    match tasks {
        [.., task] => {
            assert_eq!(rt; task.proc, proc, "{name}");
            assert_eq!(rt; task.deps.as_slice(), deps, "{name}");
            assert_eq!(rt; task.blocks.as_slice(), blocks, "{name}");
            assert_eq!(rt; task.charge, charge, "{name}");
        }
        [] => assert!(rt; false, "{name}"),
    }
}
