//! Each kernel once, at lists whose results come from another program.
use crate::lists::{GREATEST, LEAST, Row, Size};
use crate::one_list::check_one;
use crate::three_lists::check_three;
use crate::two_lists::check_two;
use dd_kernels::Kernel;
use std::test::Fail;

/// A kernel with its scalar, the shape, the list, and what it becomes.
type One = (Kernel, i64, Size, Row, Row);

/// A kernel with its scalar, the shapes, the lists, and what they become.
type Two = (Kernel, i64, (Size, Size), (Row, Row), (Row, Row));

/// A kernel, the shapes, the lists, and what the first becomes.
type Three = (Kernel, (Size, Size, Size), (Row, Row, Row), Row);

const ONE_LIST: [One; 9] = [
    (
        Kernel::Fill,
        7,
        (2, 2),
        &[GREATEST, -3, 5, 0],
        &[7, 7, 7, 7],
    ),
    (
        Kernel::Addk,
        1,
        (2, 2),
        &[GREATEST, -3, 5, 0],
        &[LEAST, -2, 6, 1],
    ),
    (
        Kernel::Scale,
        2,
        (2, 2),
        &[GREATEST, -3, 5, 0],
        &[-2, -6, 10, 0],
    ),
    (
        Kernel::Neg,
        0,
        (2, 2),
        &[GREATEST, -3, 5, 0],
        &[-9223372036854775807, 3, -5, 0],
    ),
    (
        Kernel::Rev,
        0,
        (2, 2),
        &[GREATEST, -3, 5, 0],
        &[0, 5, -3, GREATEST],
    ),
    (
        Kernel::Rot,
        -1,
        (2, 2),
        &[GREATEST, -3, 5, 0],
        &[0, GREATEST, -3, 5],
    ),
    (
        Kernel::Sort,
        0,
        (2, 2),
        &[GREATEST, -3, 5, 0],
        &[-3, 0, 5, GREATEST],
    ),
    (
        Kernel::Scan,
        0,
        (2, 2),
        &[GREATEST, -3, 5, 0],
        &[
            GREATEST,
            9223372036854775804,
            -9223372036854775807,
            -9223372036854775807,
        ],
    ),
    (
        Kernel::Iota,
        GREATEST,
        (2, 2),
        &[GREATEST, -3, 5, 0],
        &[GREATEST, LEAST, -9223372036854775807, -9223372036854775806],
    ),
];

const TWO_LISTS: [Two; 17] = [
    (
        Kernel::Copy,
        0,
        ((2, 2), (2, 2)),
        (&[GREATEST, -3, 5, 0], &[1, -7, 5, 2]),
        (&[1, -7, 5, 2], &[1, -7, 5, 2]),
    ),
    (
        Kernel::Copyt,
        0,
        ((3, 2), (2, 3)),
        (&[0, 0, 0, 0, 0, 0], &[-1, 2, 7, -9, 5, -2]),
        (&[-1, 7, 5, 2, -9, -2], &[-1, 2, 7, -9, 5, -2]),
    ),
    (
        Kernel::Add,
        0,
        ((2, 2), (2, 2)),
        (&[GREATEST, -3, 5, 0], &[1, -7, 5, 2]),
        (&[LEAST, -10, 10, 2], &[1, -7, 5, 2]),
    ),
    (
        Kernel::Sub,
        0,
        ((2, 2), (2, 2)),
        (&[GREATEST, -3, 5, 0], &[1, -7, 5, 2]),
        (&[9223372036854775806, 4, 0, -2], &[1, -7, 5, 2]),
    ),
    (
        Kernel::Mul,
        0,
        ((2, 2), (2, 2)),
        (&[GREATEST, -3, 5, 0], &[1, -7, 5, 2]),
        (&[GREATEST, 21, 25, 0], &[1, -7, 5, 2]),
    ),
    (
        Kernel::Xor,
        0,
        ((2, 2), (2, 2)),
        (&[GREATEST, -3, 5, 0], &[1, -7, 5, 2]),
        (&[9223372036854775806, 4, 0, 2], &[1, -7, 5, 2]),
    ),
    (
        Kernel::Min,
        0,
        ((2, 2), (2, 2)),
        (&[GREATEST, -3, 5, 0], &[1, -7, 5, 2]),
        (&[1, -7, 5, 0], &[1, -7, 5, 2]),
    ),
    (
        Kernel::Max,
        0,
        ((2, 2), (2, 2)),
        (&[GREATEST, -3, 5, 0], &[1, -7, 5, 2]),
        (&[GREATEST, -3, 5, 2], &[1, -7, 5, 2]),
    ),
    (
        Kernel::Axpy,
        3,
        ((2, 2), (2, 2)),
        (&[GREATEST, -3, 5, 0], &[1, -7, 5, 2]),
        (&[-9223372036854775806, -24, 20, 6], &[1, -7, 5, 2]),
    ),
    (
        Kernel::Sum,
        0,
        ((1, 1), (2, 2)),
        (&[9], &[GREATEST, -3, 5, 0]),
        (&[-9223372036854775807], &[GREATEST, -3, 5, 0]),
    ),
    (
        Kernel::Swap,
        0,
        ((2, 2), (2, 2)),
        (&[GREATEST, -3, 5, 0], &[1, -7, 5, 2]),
        (&[1, -7, 5, 2], &[GREATEST, -3, 5, 0]),
    ),
    (
        Kernel::Stencil5,
        0,
        ((3, 2), (3, 2)),
        (&[1, 1, 1, 1, 1, 1], &[-8, -4, -6, 2, 6, -2]),
        (&[30, 8, 18, -10, -28, 8], &[-8, -4, -6, 2, 6, -2]),
    ),
    (
        Kernel::Trmv,
        0,
        ((3, 1), (6, 1)),
        (&[3, 8, -6], &[9, -2, -9, -3, 4, -1]),
        (&[27, -30, 11], &[9, -2, -9, -3, 4, -1]),
    ),
    (
        Kernel::TrsvUnit,
        0,
        ((3, 1), (3, 1)),
        (&[3, 8, -6], &[-4, 3, -4]),
        (&[3, 20, 65], &[-4, 3, -4]),
    ),
    (
        Kernel::TrsmUnit,
        0,
        ((3, 2), (3, 1)),
        (&[-7, -5, 5, -5, -5, -9], &[-4, 3, -4]),
        (&[-7, -33, -106, -5, -25, -94], &[-4, 3, -4]),
    ),
    (
        Kernel::Mirror,
        0,
        ((6, 1), (6, 1)),
        (&[21, 31, 41, 32, 42, 43], &[0, 0, 0, 0, 0, 0]),
        (&[21, 31, 41, 32, 42, 43], &[21, 31, 32, 41, 42, 43]),
    ),
    (
        Kernel::SyrkPacked,
        0,
        ((6, 1), (3, 2)),
        (&[9, -2, -9, -3, 4, -1], &[-9, -3, -3, -4, -4, 0]),
        (&[106, 41, 18, 22, 13, 8], &[-9, -3, -3, -4, -4, 0]),
    ),
];

const THREE_LISTS: [Three; 3] = [
    (
        Kernel::Dot,
        ((1, 1), (3, 1), (3, 1)),
        (&[8], &[2, GREATEST, 3], &[5, 2, -4]),
        &[-4],
    ),
    (
        Kernel::Gemm,
        ((2, 2), (2, 3), (3, 2)),
        (
            &[1, -3, 8, -3],
            &[-4, -3, 3, 0, -9, 2],
            &[4, -4, -5, -1, -7, 1],
        ),
        &[18, -25, -18, 2],
    ),
    (
        Kernel::Gemv,
        ((2, 1), (2, 3), (3, 1)),
        (&[0, 9], &[-4, -3, 3, 0, -9, 2], &[-9, 1, -7]),
        &[102, 22],
    ),
];

#[test]
fn each_kernel_of_one_list(rt: HostRuntime) -> Result<(), Fail> {
    for (kernel, scalar, size, x, want) in ONE_LIST {
        check_one(&rt, rt.alloc(), &("each", kernel, scalar, size, x, want))?;
    }
    Ok(())
}

#[test]
fn each_kernel_of_two_lists(rt: HostRuntime) -> Result<(), Fail> {
    for (kernel, scalar, sizes, lists, wants) in TWO_LISTS {
        check_two(
            &rt,
            rt.alloc(),
            &("each", kernel, scalar, sizes, lists, wants),
        )?;
    }
    Ok(())
}

#[test]
fn each_kernel_of_three_lists(rt: HostRuntime) -> Result<(), Fail> {
    for (kernel, sizes, lists, want) in THREE_LISTS {
        check_three(&rt, rt.alloc(), &("each", kernel, sizes, lists, want))?;
    }
    Ok(())
}
