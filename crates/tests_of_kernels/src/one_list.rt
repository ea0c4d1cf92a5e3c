//! The kernels of one access at lists worked by hand.
ghost use Rattle.std.specs.Prelude.{◌≡◌, ℕ, List, [], ◌∷◌, length, IfOk};
ghost use Rattle.dd_kernels.specs.Shapes.{ShapesFit, size_of};

use crate::lists::{GREATEST, LEAST, Row, Size, Way, fills, run_by, shape_of};
use dd_apply::apply_to_one;
use dd_kernels::{Args, Kernel, Shape, shapes_fit};
use std::alloc::{AllocError, Global};
use std::process::Abort;
use std::test::Fail;

/// A name, a kernel with its scalar, the shape, the list, and what it becomes.
pub type OneList = (&'static str, Kernel, i64, Size, Row, Row);

const ONE_LIST: [OneList; 37] = [
    ("fill 0 by 5", Kernel::Fill, 9, (0, 5), &[], &[]),
    (
        "fill 3 by 5",
        Kernel::Fill,
        LEAST,
        (3, 5),
        &[1, -5, 3, -8, -7, 8, -6, 2, 9, -8, 7, -3, -8, -7, 4],
        &[
            LEAST, LEAST, LEAST, LEAST, LEAST, LEAST, LEAST, LEAST, LEAST, LEAST, LEAST, LEAST,
            LEAST, LEAST, LEAST,
        ],
    ),
    ("fill 1 by 1", Kernel::Fill, 7, (1, 1), &[3], &[7]),
    (
        "addk wraps",
        Kernel::Addk,
        1,
        (1, 3),
        &[GREATEST, -1, 5],
        &[LEAST, 0, 6],
    ),
    (
        "addk of the least",
        Kernel::Addk,
        LEAST,
        (2, 1),
        &[-1, LEAST],
        &[GREATEST, 0],
    ),
    (
        "addk of 7",
        Kernel::Addk,
        -3,
        (7, 1),
        &[4, -7, -2, -7, 8, 4, -8],
        &[1, -10, -5, -10, 5, 1, -11],
    ),
    ("addk of none", Kernel::Addk, 1, (0, 0), &[], &[]),
    (
        "scale wraps",
        Kernel::Scale,
        2,
        (1, 3),
        &[GREATEST, LEAST, 4611686018427387904],
        &[-2, 0, LEAST],
    ),
    (
        "scale by the least",
        Kernel::Scale,
        LEAST,
        (1, 3),
        &[-1, 2, 3],
        &[LEAST, 0, LEAST],
    ),
    (
        "scale of 2",
        Kernel::Scale,
        -4,
        (1, 2),
        &[3, -5],
        &[-12, 20],
    ),
    (
        "neg of the least",
        Kernel::Neg,
        0,
        (1, 1),
        &[LEAST],
        &[LEAST],
    ),
    (
        "neg of 2",
        Kernel::Neg,
        0,
        (2, 1),
        &[GREATEST, -3],
        &[-9223372036854775807, 3],
    ),
    ("rev of none", Kernel::Rev, 0, (0, 1), &[], &[]),
    ("rev of 1", Kernel::Rev, 0, (1, 1), &[4], &[4]),
    ("rev of 2", Kernel::Rev, 0, (2, 1), &[1, 2], &[2, 1]),
    (
        "rev of 7",
        Kernel::Rev,
        0,
        (1, 7),
        &[1, 2, 3, 4, 5, 6, 7],
        &[7, 6, 5, 4, 3, 2, 1],
    ),
    ("rot by -1", Kernel::Rot, -1, (1, 3), &[1, 2, 3], &[3, 1, 2]),
    (
        "rot of 7 by 0",
        Kernel::Rot,
        0,
        (7, 1),
        &[1, 2, 3, 4, 5, 6, 7],
        &[1, 2, 3, 4, 5, 6, 7],
    ),
    (
        "rot of 7 by n",
        Kernel::Rot,
        7,
        (7, 1),
        &[1, 2, 3, 4, 5, 6, 7],
        &[1, 2, 3, 4, 5, 6, 7],
    ),
    (
        "rot of 7 by n and 1",
        Kernel::Rot,
        8,
        (7, 1),
        &[1, 2, 3, 4, 5, 6, 7],
        &[2, 3, 4, 5, 6, 7, 1],
    ),
    (
        "rot of 7 by -1",
        Kernel::Rot,
        -1,
        (7, 1),
        &[1, 2, 3, 4, 5, 6, 7],
        &[7, 1, 2, 3, 4, 5, 6],
    ),
    (
        "rot of 7 by the least",
        Kernel::Rot,
        LEAST,
        (7, 1),
        &[1, 2, 3, 4, 5, 6, 7],
        &[7, 1, 2, 3, 4, 5, 6],
    ),
    (
        "rot of 7 by the greatest",
        Kernel::Rot,
        GREATEST,
        (7, 1),
        &[1, 2, 3, 4, 5, 6, 7],
        &[1, 2, 3, 4, 5, 6, 7],
    ),
    ("rot of none", Kernel::Rot, 5, (0, 3), &[], &[]),
    ("rot of 1", Kernel::Rot, LEAST, (1, 1), &[6], &[6]),
    ("sort of none", Kernel::Sort, 0, (0, 1), &[], &[]),
    ("sort of 2", Kernel::Sort, 0, (2, 1), &[5, -5], &[-5, 5]),
    (
        "sort of 7",
        Kernel::Sort,
        0,
        (1, 7),
        &[3, LEAST, 3, GREATEST, 0, -1, 3],
        &[LEAST, -1, 0, 3, 3, 3, GREATEST],
    ),
    (
        "sort of 15",
        Kernel::Sort,
        0,
        (3, 5),
        &[9, -6, -2, 9, -8, 9, 9, 3, -8, -2, -8, 8, -5, 0, 4],
        &[-8, -8, -8, -6, -5, -2, -2, 0, 3, 4, 8, 9, 9, 9, 9],
    ),
    ("scan of 3", Kernel::Scan, 0, (1, 3), &[1, 2, 3], &[1, 3, 6]),
    (
        "scan wraps",
        Kernel::Scan,
        0,
        (1, 4),
        &[GREATEST, 1, LEAST, -1],
        &[GREATEST, LEAST, 0, -1],
    ),
    ("scan of 1", Kernel::Scan, 0, (1, 1), &[8], &[8]),
    ("scan of none", Kernel::Scan, 0, (1, 0), &[], &[]),
    (
        "scan of 7",
        Kernel::Scan,
        0,
        (7, 1),
        &[-5, 8, -6, 9, 0, 8, -4],
        &[-5, 3, -3, 6, 6, 14, 10],
    ),
    (
        "iota of 7",
        Kernel::Iota,
        -3,
        (1, 7),
        &[-6, 9, 9, -3, 2, -6, 8],
        &[-3, -2, -1, 0, 1, 2, 3],
    ),
    (
        "iota wraps",
        Kernel::Iota,
        GREATEST,
        (3, 1),
        &[0, 0, 0],
        &[GREATEST, LEAST, -9223372036854775807],
    ),
    ("iota of none", Kernel::Iota, 1, (0, 2), &[], &[]),
];

#[test]
fn kernels_of_one_list(rt: HostRuntime) -> Result<(), Fail> {
    for row in &ONE_LIST {
        check_one(&rt, rt.alloc(), row)?;
    }
    Ok(())
}

/// Checks what the list becomes in each way, and where it stands.
pub fn check_one(rt: &impl Abort, alloc: Global, row: &OneList) -> Result<(), AllocError> {
    let (name, kernel, scalar, size, x, want) = *row;
    let shape = shape_of(size);
    assert!(rt; shapes_fit(kernel, &[shape]), "{name} {kernel:?}");
    assert!(rt; fills(shape, x), "{name} {kernel:?}");
    for way in [Way::Own, Way::Apply] {
        let args = after_one(way, alloc, kernel, scalar, shape, x)?;
        assert_eq!(rt; args.bufs[0].as_slice(), want, "{name} {kernel:?}");
    }
    let mut list = x.to_vec(alloc)?;
    apply_to_one(kernel, scalar, shape, &mut list);
    assert_eq!(rt; list.as_slice(), want, "{name} {kernel:?}");
    Ok(())
}

fn after_one(
    way: Way,
    alloc: Global,
    kernel: Kernel,
    scalar: i64,
    shape: Shape,
    x: &[i64],
) -> Result<Args, AllocError>
    requires fit { ShapesFit kernel (shape ∷ []) }
    requires filled { length x.now ≡ size_of shape }
    ensures { IfOk result (λ args. length args.bufs.items ≡ 1) }
{
    let mut args = Args {
        shapes: vec![in alloc; shape]?,
        bufs: vec![in alloc; x.to_vec(alloc)?]?,
    };
    run_by(way, kernel, scalar, &mut args);
    Ok(args)
}
