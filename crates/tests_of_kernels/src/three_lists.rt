//! The kernels of three accesses at lists worked by hand.
ghost use Rattle.std.specs.Prelude.{◌≡◌, ℕ, List, [], ◌∷◌, length, IfOk};
ghost use Rattle.dd_kernels.specs.Shapes.{ShapesFit, size_of};

use crate::lists::{GREATEST, LEAST, Row, Size, Way, fills, run_by, shape_of};
use dd_apply::apply_to_three;
use dd_kernels::{Args, Kernel, Shape, shapes_fit};
use std::alloc::{AllocError, Global};
use std::process::Abort;
use std::test::Fail;

/// A name, a kernel, the shapes, the lists, and what the first becomes.
pub type ThreeLists = (
    &'static str,
    Kernel,
    (Size, Size, Size),
    (Row, Row, Row),
    Row,
);

const THREE_LISTS: [ThreeLists; 17] = [
    (
        "dot of none",
        Kernel::Dot,
        ((1, 1), (0, 1), (0, 1)),
        (&[3], &[], &[]),
        &[0],
    ),
    (
        "dot of 3",
        Kernel::Dot,
        ((1, 1), (3, 1), (3, 1)),
        (&[3], &[1, 2, 3], &[4, 5, 6]),
        &[32],
    ),
    (
        "dot wraps",
        Kernel::Dot,
        ((1, 1), (1, 2), (1, 2)),
        (&[3], &[GREATEST, LEAST], &[GREATEST, 3]),
        &[-9223372036854775807],
    ),
    (
        "dot of 3 by 5",
        Kernel::Dot,
        ((1, 1), (3, 5), (3, 5)),
        (
            &[0],
            &[-4, -5, -9, -5, 9, 5, -5, 6, 2, -5, 8, 8, -5, -9, -9],
            &[-6, 7, -5, 4, -3, -3, -9, -1, -3, 0, 7, -2, 9, 1, -1],
        ),
        &[0],
    ),
    (
        "gemm of 3 by 5, over 2",
        Kernel::Gemm,
        ((3, 5), (3, 2), (2, 5)),
        (
            &[8, 4, -5, -8, 2, 5, 9, 7, 4, 7, -5, 8, -5, 7, 7],
            &[-9, 5, -4, -9, -5, -4],
            &[-5, 6, -6, 8, -8, 1, 7, 7, 8, 6],
        ),
        &[
            -1, -51, -9, -26, -68, -3, 72, -38, 32, -119, -5, -48, -131, 17, -49,
        ],
    ),
    (
        "gemm of 1 by 1",
        Kernel::Gemm,
        ((1, 1), (1, 1), (1, 1)),
        (&[-6], &[8], &[-8]),
        &[-70],
    ),
    (
        "gemm over none",
        Kernel::Gemm,
        ((2, 2), (2, 0), (0, 2)),
        (&[-2, -3, -1, -8], &[], &[]),
        &[-2, -3, -1, -8],
    ),
    (
        "gemm of no rows",
        Kernel::Gemm,
        ((0, 3), (0, 2), (2, 3)),
        (&[], &[], &[-6, 7, 5, 8, -9, -7]),
        &[],
    ),
    (
        "gemm of no columns",
        Kernel::Gemm,
        ((3, 0), (3, 4), (4, 0)),
        (&[], &[5, 1, 7, 7, -3, -1, 5, 7, 8, 6, 7, -2], &[]),
        &[],
    ),
    (
        "gemm of a row",
        Kernel::Gemm,
        ((1, 2), (1, 7), (7, 2)),
        (
            &[7, -1],
            &[8, -3, 5, -5, 4, -6, 3],
            &[5, 1, -7, -2, 4, -7, -3, 0, -6, -5, 2, -5, -1, -5],
        ),
        &[68, -47],
    ),
    (
        "gemm of a column",
        Kernel::Gemm,
        ((3, 1), (3, 5), (5, 1)),
        (
            &[5, -2, -6],
            &[3, 6, -4, -2, -4, 4, 7, 3, 1, 4, -3, 2, 1, -7, 2],
            &[-9, 1, 8, 5, 5],
        ),
        &[57, -86, 62],
    ),
    (
        "gemm wraps",
        Kernel::Gemm,
        ((1, 1), (1, 2), (2, 1)),
        (&[GREATEST], &[GREATEST, LEAST], &[GREATEST, LEAST]),
        &[LEAST],
    ),
    (
        "gemv of 3 by 5",
        Kernel::Gemv,
        ((3, 1), (3, 5), (5, 1)),
        (
            &[-9, 3, 1],
            &[7, 0, 7, -7, -6, -2, -6, -7, -1, -1, -8, -4, -1, -5, 4],
            &[-1, 3, -5, 8, 7],
        ),
        &[-22, -79, -11],
    ),
    (
        "gemv over none",
        Kernel::Gemv,
        ((2, 1), (2, 0), (0, 1)),
        (&[9, 6], &[], &[]),
        &[9, 6],
    ),
    (
        "gemv of none",
        Kernel::Gemv,
        ((0, 1), (0, 2), (2, 1)),
        (&[], &[], &[1, -7]),
        &[],
    ),
    (
        "gemv of a row",
        Kernel::Gemv,
        ((1, 1), (1, 7), (7, 1)),
        (
            &[-1],
            &[-8, -4, 4, -7, -1, -9, -7],
            &[-1, -7, -2, -7, -1, -6, 5],
        ),
        &[96],
    ),
    (
        "gemv wraps",
        Kernel::Gemv,
        ((2, 1), (2, 1), (1, 1)),
        (&[GREATEST, LEAST], &[1, -1], &[LEAST]),
        &[-1, 0],
    ),
];

#[test]
fn kernels_of_three_lists(rt: HostRuntime) -> Result<(), Fail> {
    for row in &THREE_LISTS {
        check_three(&rt, rt.alloc(), row)?;
    }
    Ok(())
}

/// Checks what the first list becomes in each way, and where it stands, and that the others stay.
pub fn check_three(rt: &impl Abort, alloc: Global, row: &ThreeLists) -> Result<(), AllocError> {
    let (name, kernel, sizes, lists, want) = *row;
    let (first, second, third) = (shape_of(sizes.0), shape_of(sizes.1), shape_of(sizes.2));
    let (x, y, z) = lists;
    assert!(rt;
        shapes_fit(kernel, &[first, second, third]),
        "{name} {kernel:?}"
    );
    assert!(rt; fills(first, x), "{name} {kernel:?}");
    assert!(rt; fills(second, y), "{name} {kernel:?}");
    assert!(rt; fills(third, z), "{name} {kernel:?}");
    for way in [Way::Own, Way::Apply] {
        let args = after_three(way, alloc, kernel, (first, second, third), x, y, z)?;
        assert_eq!(rt; args.bufs[0].as_slice(), want, "{name} {kernel:?}");
        assert_eq!(rt; args.bufs[1].as_slice(), y, "{name} {kernel:?}");
        assert_eq!(rt; args.bufs[2].as_slice(), z, "{name} {kernel:?}");
    }
    let mut list = x.to_vec(alloc)?;
    apply_to_three(kernel, 0, (first, second, third), &mut list, y, z);
    assert_eq!(rt; list.as_slice(), want, "{name} {kernel:?}");
    Ok(())
}

fn after_three(
    way: Way,
    alloc: Global,
    kernel: Kernel,
    shapes: (Shape, Shape, Shape),
    x: &[i64],
    y: &[i64],
    z: &[i64],
) -> Result<Args, AllocError>
    requires fit { ShapesFit kernel (shapes.0 ∷ shapes.1 ∷ shapes.2 ∷ []) }
    requires first { length x.now ≡ size_of shapes.0 }
    requires second { length y.now ≡ size_of shapes.1 }
    requires third { length z.now ≡ size_of shapes.2 }
    ensures { IfOk result (λ args. length args.bufs.items ≡ 3) }
{
    let mut args = Args {
        shapes: vec![in alloc; shapes.0, shapes.1, shapes.2]?,
        bufs: vec![in alloc; x.to_vec(alloc)?, y.to_vec(alloc)?, z.to_vec(alloc)?]?,
    };
    run_by(way, kernel, 0, &mut args);
    Ok(args)
}
