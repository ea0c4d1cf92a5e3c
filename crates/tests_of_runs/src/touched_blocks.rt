//! The blocks that views touch, as listing their elements gives them.
use dd_check::accept;
use std::alloc::Global;
use std::process::Abort;
use std::test::Fail;

/// The rows and columns of an array and of its blocks, a view of it, and the blocks that the view touches.
type Row = (&'static str, &'static str, &'static [u32]);

const TOUCHED: [Row; 50] = [
    ("64 64 1 1", "A[1:63:64,1:63:64]", &[1, 64, 4033, 4096]),
    ("6 7 1 1", "A[1:2:5,2:5:7]", &[7, 9, 11, 37, 39, 41]),
    ("6 7 1 1", "A[6:-3:1,7:-4:1]", &[15, 18, 39, 42]),
    ("7 7 2 3", "A[7:-3:1,2:4:6]", &[1, 2, 4, 5, 6, 8]),
    ("12 12 2 2", "A[2:5:12,11:-6:1]", &[13, 16, 18, 31, 34, 36]),
    ("7 7 2 3", "A[7,6:7]", &[8, 12]),
    ("7 7 2 3", "A", &[1, 2, 3, 4, 5, 6, 7, 8, 9, 10, 11, 12]),
    ("7 7 2 3", "lower(A)", &[1, 2, 3, 4, 6, 7, 8, 12]),
    ("7 7 2 3", "upper(A)", &[1, 2, 5, 6, 7, 9, 10, 11, 12]),
    ("7 7 2 3", "unitlower(A)", &[1, 2, 3, 4, 7, 8]),
    ("7 7 2 3", "unitupper(A)", &[1, 5, 6, 7, 9, 10, 11]),
    ("7 7 2 3", "diag(A)", &[1, 2, 6, 7, 12]),
    ("7 7 2 3", "A[2:6,3:7]", &[1, 2, 3, 5, 6, 7, 9, 10, 11]),
    ("7 7 2 3", "lower(A[2:6,3:7])", &[1, 2, 3, 6, 7, 11]),
    ("7 7 2 3", "upper(A[2:6,3:7])", &[1, 5, 6, 7, 9, 10, 11]),
    ("7 7 2 3", "unitlower(A[2:6,3:7])", &[2, 3, 6, 7]),
    ("7 7 2 3", "unitupper(A[2:6,3:7])", &[5, 6, 9, 10, 11]),
    ("7 7 2 3", "diag(A[2:6,3:7])", &[1, 6, 7, 11]),
    ("7 7 2 3", "A[6:-1:3,1:2:7]", &[2, 3, 6, 7, 10, 11]),
    ("7 7 2 3", "lower(A[6:-1:3,1:2:7])", &[2, 3, 6, 10]),
    ("7 7 2 3", "upper(A[6:-1:3,1:2:7])", &[3, 6, 7, 10, 11]),
    ("7 7 2 3", "unitlower(A[6:-1:3,1:2:7])", &[2, 3, 6]),
    ("7 7 2 3", "unitupper(A[6:-1:3,1:2:7])", &[3, 7, 10, 11]),
    ("7 7 2 3", "diag(A[6:-1:3,1:2:7])", &[3, 6, 10]),
    (
        "7 7 2 3",
        "A[1:2:7,7:-2:1]",
        &[1, 2, 3, 4, 5, 6, 7, 8, 9, 10, 11, 12],
    ),
    (
        "7 7 2 3",
        "lower(A[1:2:7,7:-2:1])",
        &[3, 4, 6, 7, 8, 9, 10, 11, 12],
    ),
    ("7 7 2 3", "upper(A[1:2:7,7:-2:1])", &[1, 2, 3, 4, 5, 6, 9]),
    (
        "7 7 2 3",
        "unitlower(A[1:2:7,7:-2:1])",
        &[4, 7, 8, 10, 11, 12],
    ),
    ("7 7 2 3", "unitupper(A[1:2:7,7:-2:1])", &[1, 2, 3, 5]),
    ("7 7 2 3", "diag(A[1:2:7,7:-2:1])", &[3, 4, 6, 9]),
    ("7 7 2 3", "A[7:-3:1,6:-2:2]", &[1, 2, 4, 5, 6, 8]),
    ("7 7 2 3", "lower(A[7:-3:1,6:-2:2])", &[1, 5, 6, 8]),
    ("7 7 2 3", "upper(A[7:-3:1,6:-2:2])", &[1, 2, 4, 6, 8]),
    ("7 7 2 3", "unitlower(A[7:-3:1,6:-2:2])", &[5, 6]),
    ("7 7 2 3", "unitupper(A[7:-3:1,6:-2:2])", &[2, 4, 8]),
    ("7 7 2 3", "diag(A[7:-3:1,6:-2:2])", &[1, 6, 8]),
    ("5 5 1 1", "diag(A)", &[1, 7, 13, 19, 25]),
    ("6 6 2 2", "diag(A[6:-1:1,:])", &[3, 5, 7]),
    ("3 3 1 1", "lower(A)", &[1, 2, 3, 5, 6, 9]),
    ("3 3 1 1", "unitupper(A)", &[4, 7, 8]),
    ("4 4 4 1", "unitlower(A)", &[1, 2, 3]),
    ("4 4 1 4", "upper(A)", &[1, 2, 3, 4]),
    ("7 7 2 3", "A[3:2,:]", &[]),
    ("7 7 2 3", "A[:,3:2]", &[]),
    ("7 7 2 3", "lower(A[3:2,5:4])", &[]),
    ("7 7 2 3", "A[5,4]", &[7]),
    ("7 7 2 3", "diag(A[7,7])", &[12]),
    ("7 7 2 3", "unitlower(A[3,3])", &[]),
    ("3 4 9 9", "A[1:2:3,:]", &[1]),
    ("3 3 9 9", "unitlower(A[3:-1:1,:])", &[1]),
];

#[test]
fn views_touch_their_blocks(rt: HostRuntime) -> Result<(), Fail> {
    for (sizes, view, blocks) in TOUCHED {
        let text = format!(in rt.alloc();
            "array A {sizes} zeros\nregion\ntask fill 1 Out({view})\nend"
        )?;
        check_blocks(&rt, rt.alloc(), view, text.as_bytes(), blocks);
    }
    Ok(())
}

fn check_blocks(rt: &impl Abort, alloc: Global, view: &str, text: &[u8], blocks: &[u32]) {
    assert!(rt; text.len() <= 1_048_576, "{view}");
    match accept(alloc, text) {
        Ok(plan) => match plan.tasks.as_slice() {
            [task] => assert_eq!(rt; task.blocks.as_slice(), blocks, "{view}"),
            _ => assert!(rt; false, "{view}"),
        },
        Err(_e) => assert!(rt; false, "{view}"),
    }
}
