//! The stencil at lists worked by hand.
use crate::lists::GREATEST;
use crate::two_lists::{FirstOfTwo, check_first};
use dd_kernels::Kernel;
use std::test::Fail;

const STENCILS: [FirstOfTwo; 8] = [
    (
        "stencil5 of 1 by 3",
        Kernel::Stencil5,
        0,
        ((1, 3), (1, 3)),
        (&[0, 0, 0], &[1, 2, 4]),
        &[-2, -3, -14],
    ),
    (
        "stencil5 of 1 by 1",
        Kernel::Stencil5,
        0,
        ((1, 1), (1, 1)),
        (&[9], &[5]),
        &[-20],
    ),
    (
        "stencil5 of 7 by 1",
        Kernel::Stencil5,
        0,
        ((7, 1), (7, 1)),
        (&[1, -1, 6, -4, 7, -9, -3], &[7, 2, -5, 8, -9, 7, 0]),
        &[-26, -6, 30, -46, 51, -37, 7],
    ),
    (
        "stencil5 of 1 by 7",
        Kernel::Stencil5,
        0,
        ((1, 7), (1, 7)),
        (&[-7, -1, 7, 2, -4, 2, -2], &[8, 8, 7, 1, -2, -3, -2]),
        &[-24, -17, -19, 1, 6, 8, 5],
    ),
    (
        "stencil5 of 3 by 5",
        Kernel::Stencil5,
        0,
        ((3, 5), (3, 5)),
        (
            &[3, -2, -3, 7, 6, 2, -9, -9, -1, 6, -1, -3, 2, 5, 2],
            &[2, -7, -2, -6, -2, 6, -3, 1, -3, 6, -9, 6, 2, -7, -6],
        ),
        &[
            -21, 26, 7, 21, 2, -31, 13, -21, 25, -34, 42, -42, -9, 15, 23,
        ],
    ),
    (
        "stencil5 of 2 by 3",
        Kernel::Stencil5,
        0,
        ((2, 3), (2, 3)),
        (&[3, -3, 6, -4, 4, 1], &[-7, 3, 5, 3, -7, -4]),
        &[36, -16, -31, -8, 29, 12],
    ),
    (
        "stencil5 wraps",
        Kernel::Stencil5,
        0,
        ((3, 3), (3, 3)),
        (
            &[0, 0, 0, 0, 0, 0, 0, 0, 0],
            &[
                GREATEST, GREATEST, GREATEST, GREATEST, GREATEST, GREATEST, GREATEST, GREATEST,
                GREATEST,
            ],
        ),
        &[
            2,
            -9223372036854775807,
            2,
            -9223372036854775807,
            0,
            -9223372036854775807,
            2,
            -9223372036854775807,
            2,
        ],
    ),
    (
        "stencil5 of none",
        Kernel::Stencil5,
        0,
        ((0, 3), (0, 3)),
        (&[], &[]),
        &[],
    ),
];

#[test]
fn stencils(rt: HostRuntime) -> Result<(), Fail> {
    for row in &STENCILS {
        check_first(&rt, rt.alloc(), row)?;
    }
    Ok(())
}
