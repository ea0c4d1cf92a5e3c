//! The kernels of two accesses at lists worked by hand.
ghost use Rattle.std.specs.Prelude.{◌≡◌, ℕ, List, [], ◌∷◌, length, IfOk};
ghost use Rattle.dd_kernels.specs.Shapes.{ShapesFit, size_of};

use crate::lists::{GREATEST, LEAST, Row, Size, Way, fills, run_by, shape_of};
use dd_apply::apply_to_two;
use dd_kernels::{Args, Kernel, Shape, shapes_fit};
use std::alloc::{AllocError, Global};
use std::process::Abort;
use std::test::Fail;

/// A name, a kernel with its scalar, the shapes, the lists, and what they become.
pub type TwoLists = (
    &'static str,
    Kernel,
    i64,
    (Size, Size),
    (Row, Row),
    (Row, Row),
);

/// A name, a kernel with its scalar, the shapes, the lists, and what the first becomes.
pub type FirstOfTwo = (&'static str, Kernel, i64, (Size, Size), (Row, Row), Row);

const TWO_LISTS: [FirstOfTwo; 26] = [
    (
        "copy of none",
        Kernel::Copy,
        0,
        ((0, 5), (0, 5)),
        (&[], &[]),
        &[],
    ),
    (
        "copy of 3 by 5",
        Kernel::Copy,
        0,
        ((3, 5), (3, 5)),
        (
            &[-7, 9, -8, -3, 6, 8, 4, 1, 5, 9, 5, 2, 0, -2, -4],
            &[-2, -7, 9, 0, 7, 6, 1, 5, 0, -7, -6, 7, 4, -4, 1],
        ),
        &[-2, -7, 9, 0, 7, 6, 1, 5, 0, -7, -6, 7, 4, -4, 1],
    ),
    (
        "copyt of 3 by 5",
        Kernel::Copyt,
        0,
        ((5, 3), (3, 5)),
        (
            &[-5, 6, 4, -8, -7, 8, 9, 1, 1, 2, 6, 9, 5, -7, -7],
            &[-1, 6, -7, -8, 0, 9, 5, 0, 3, 2, -9, 5, 2, -4, -6],
        ),
        &[-1, -8, 5, 2, 2, 6, 0, 0, -9, -4, -7, 9, 3, 5, -6],
    ),
    (
        "copyt of 1 by 7",
        Kernel::Copyt,
        0,
        ((7, 1), (1, 7)),
        (&[6, -8, -3, 0, -5, -2, 3], &[3, 6, -7, -4, 5, 3, 8]),
        &[3, 6, -7, -4, 5, 3, 8],
    ),
    (
        "copyt of 2 by 1",
        Kernel::Copyt,
        0,
        ((1, 2), (2, 1)),
        (&[-1, -5], &[4, 8]),
        &[4, 8],
    ),
    (
        "copyt of none",
        Kernel::Copyt,
        0,
        ((0, 4), (4, 0)),
        (&[], &[]),
        &[],
    ),
    (
        "add at both ends",
        Kernel::Add,
        0,
        ((7, 1), (7, 1)),
        (
            &[LEAST, GREATEST, -1, 1, 0, GREATEST, LEAST],
            &[-1, 1, LEAST, GREATEST, LEAST, GREATEST, LEAST],
        ),
        &[GREATEST, LEAST, GREATEST, LEAST, LEAST, -2, 0],
    ),
    (
        "add of 1",
        Kernel::Add,
        0,
        ((1, 1), (1, 1)),
        (&[-1], &[4]),
        &[3],
    ),
    (
        "sub at both ends",
        Kernel::Sub,
        0,
        ((7, 1), (7, 1)),
        (
            &[LEAST, GREATEST, -1, 1, 0, GREATEST, LEAST],
            &[-1, 1, LEAST, GREATEST, LEAST, GREATEST, LEAST],
        ),
        &[
            -9223372036854775807,
            9223372036854775806,
            GREATEST,
            -9223372036854775806,
            LEAST,
            0,
            0,
        ],
    ),
    (
        "sub of 1",
        Kernel::Sub,
        0,
        ((1, 1), (1, 1)),
        (&[2], &[3]),
        &[-1],
    ),
    (
        "mul at both ends",
        Kernel::Mul,
        0,
        ((7, 1), (7, 1)),
        (
            &[LEAST, GREATEST, -1, 1, 0, GREATEST, LEAST],
            &[-1, 1, LEAST, GREATEST, LEAST, GREATEST, LEAST],
        ),
        &[LEAST, GREATEST, LEAST, GREATEST, 0, 1, 0],
    ),
    (
        "mul of 1",
        Kernel::Mul,
        0,
        ((1, 1), (1, 1)),
        (&[-2], &[-5]),
        &[10],
    ),
    (
        "xor at both ends",
        Kernel::Xor,
        0,
        ((7, 1), (7, 1)),
        (
            &[LEAST, GREATEST, -1, 1, 0, GREATEST, LEAST],
            &[-1, 1, LEAST, GREATEST, LEAST, GREATEST, LEAST],
        ),
        &[
            GREATEST,
            9223372036854775806,
            GREATEST,
            9223372036854775806,
            LEAST,
            0,
            0,
        ],
    ),
    (
        "xor of 1",
        Kernel::Xor,
        0,
        ((1, 1), (1, 1)),
        (&[-7], &[-4]),
        &[5],
    ),
    (
        "min at both ends",
        Kernel::Min,
        0,
        ((7, 1), (7, 1)),
        (
            &[LEAST, GREATEST, -1, 1, 0, GREATEST, LEAST],
            &[-1, 1, LEAST, GREATEST, LEAST, GREATEST, LEAST],
        ),
        &[LEAST, 1, LEAST, 1, LEAST, GREATEST, LEAST],
    ),
    (
        "min of 1",
        Kernel::Min,
        0,
        ((1, 1), (1, 1)),
        (&[-5], &[-2]),
        &[-5],
    ),
    (
        "max at both ends",
        Kernel::Max,
        0,
        ((7, 1), (7, 1)),
        (
            &[LEAST, GREATEST, -1, 1, 0, GREATEST, LEAST],
            &[-1, 1, LEAST, GREATEST, LEAST, GREATEST, LEAST],
        ),
        &[-1, GREATEST, -1, GREATEST, 0, GREATEST, LEAST],
    ),
    (
        "max of 1",
        Kernel::Max,
        0,
        ((1, 1), (1, 1)),
        (&[-2], &[-9]),
        &[-2],
    ),
    (
        "add of none",
        Kernel::Add,
        0,
        ((0, 2), (0, 2)),
        (&[], &[]),
        &[],
    ),
    (
        "axpy at both ends",
        Kernel::Axpy,
        3,
        ((7, 1), (7, 1)),
        (
            &[LEAST, GREATEST, -1, 1, 0, GREATEST, LEAST],
            &[-1, 1, LEAST, GREATEST, LEAST, GREATEST, LEAST],
        ),
        &[
            9223372036854775805,
            -9223372036854775806,
            GREATEST,
            9223372036854775806,
            LEAST,
            -4,
            0,
        ],
    ),
    (
        "axpy by the least",
        Kernel::Axpy,
        LEAST,
        ((1, 2), (1, 2)),
        (&[1, 2], &[3, 4]),
        &[-9223372036854775807, 2],
    ),
    (
        "axpy of 3 by 5",
        Kernel::Axpy,
        -2,
        ((3, 5), (3, 5)),
        (
            &[6, 9, -4, -1, 0, -9, -5, 4, 8, 2, 9, 1, -5, 7, -8],
            &[5, 8, 3, 3, 3, 3, -6, 6, 3, -8, -3, -7, -3, 5, -4],
        ),
        &[-4, -7, -10, -7, -6, -15, 7, -8, 2, 18, 15, 15, 1, -3, 0],
    ),
    (
        "sum of none",
        Kernel::Sum,
        0,
        ((1, 1), (0, 3)),
        (&[7], &[]),
        &[0],
    ),
    (
        "sum of 1",
        Kernel::Sum,
        0,
        ((1, 1), (1, 1)),
        (&[7], &[-4]),
        &[-4],
    ),
    (
        "sum wraps",
        Kernel::Sum,
        0,
        ((1, 1), (1, 2)),
        (&[7], &[GREATEST, GREATEST]),
        &[-2],
    ),
    (
        "sum of 3 by 5",
        Kernel::Sum,
        0,
        ((1, 1), (3, 5)),
        (
            &[7],
            &[-6, 1, -8, -6, -9, 9, -5, 8, -6, 2, -9, -7, -3, 3, -5],
        ),
        &[-41],
    ),
];

const SWAPS: [FirstOfTwo; 3] = [
    (
        "swap of none",
        Kernel::Swap,
        0,
        ((0, 1), (0, 1)),
        (&[], &[]),
        &[],
    ),
    (
        "swap of 2",
        Kernel::Swap,
        0,
        ((2, 1), (2, 1)),
        (&[1, 2], &[3, 4]),
        &[3, 4],
    ),
    (
        "swap of 7",
        Kernel::Swap,
        0,
        ((1, 7), (1, 7)),
        (&[-1, 2, 2, 6, -6, -6, 6], &[5, 6, 6, 0, -7, -5, -6]),
        &[5, 6, 6, 0, -7, -5, -6],
    ),
];

#[test]
fn kernels_of_two_lists(rt: HostRuntime) -> Result<(), Fail> {
    for row in &TWO_LISTS {
        check_first(&rt, rt.alloc(), row)?;
    }
    Ok(())
}

#[test]
fn swapped_lists(rt: HostRuntime) -> Result<(), Fail> {
    for (name, kernel, scalar, sizes, lists, want) in SWAPS {
        let row = (name, kernel, scalar, sizes, lists, (want, lists.0));
        check_two(&rt, rt.alloc(), &row)?;
    }
    Ok(())
}

/// Checks a row whose second list stays.
pub fn check_first(rt: &impl Abort, alloc: Global, row: &FirstOfTwo) -> Result<(), AllocError> {
    let (name, kernel, scalar, sizes, lists, want) = *row;
    check_two(
        rt,
        alloc,
        &(name, kernel, scalar, sizes, lists, (want, lists.1)),
    )
}

/// Checks what the lists become in each way, and where they stand.
pub fn check_two(rt: &impl Abort, alloc: Global, row: &TwoLists) -> Result<(), AllocError> {
    let (name, kernel, scalar, sizes, lists, want) = *row;
    let (first, second) = (shape_of(sizes.0), shape_of(sizes.1));
    let (x, y) = lists;
    assert!(rt; shapes_fit(kernel, &[first, second]), "{name} {kernel:?}");
    assert!(rt; fills(first, x), "{name} {kernel:?}");
    assert!(rt; fills(second, y), "{name} {kernel:?}");
    for way in [Way::Own, Way::Apply] {
        let args = after_two(way, alloc, kernel, scalar, (first, second), x, y)?;
        assert_eq!(rt; args.bufs[0].as_slice(), want.0, "{name} {kernel:?}");
        assert_eq!(rt; args.bufs[1].as_slice(), want.1, "{name} {kernel:?}");
    }
    let mut one = x.to_vec(alloc)?;
    let mut other = y.to_vec(alloc)?;
    apply_to_two(kernel, scalar, (first, second), &mut one, &mut other);
    assert_eq!(rt; one.as_slice(), want.0, "{name} {kernel:?}");
    assert_eq!(rt; other.as_slice(), want.1, "{name} {kernel:?}");
    Ok(())
}

fn after_two(
    way: Way,
    alloc: Global,
    kernel: Kernel,
    scalar: i64,
    shapes: (Shape, Shape),
    x: &[i64],
    y: &[i64],
) -> Result<Args, AllocError>
    requires fit { ShapesFit kernel (shapes.0 ∷ shapes.1 ∷ []) }
    requires first { length x.now ≡ size_of shapes.0 }
    requires second { length y.now ≡ size_of shapes.1 }
    ensures { IfOk result (λ args. length args.bufs.items ≡ 2) }
{
    let mut args = Args {
        shapes: vec![in alloc; shapes.0, shapes.1]?,
        bufs: vec![in alloc; x.to_vec(alloc)?, y.to_vec(alloc)?]?,
    };
    run_by(way, kernel, scalar, &mut args);
    Ok(args)
}
