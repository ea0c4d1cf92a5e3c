//! The kernels on packed triangles at lists whose results come from another program, which goes by the pairs.
use crate::lists::{GREATEST, LEAST, Row, Size};
use crate::two_lists::check_two;
use dd_kernels::Kernel;
use std::test::Fail;

/// A name, a kernel, the shapes, the lists, and what they become.
type Two = (&'static str, Kernel, (Size, Size), (Row, Row), (Row, Row));

const ROWS: [Two; 44] = [
    (
        "trmv of order 0",
        Kernel::Trmv,
        ((0, 1), (0, 1)),
        (&[], &[]),
        (&[], &[]),
    ),
    (
        "trmv of order 1",
        Kernel::Trmv,
        ((1, 1), (1, 1)),
        (&[-1], &[2]),
        (&[-2], &[2]),
    ),
    (
        "trmv of order 2",
        Kernel::Trmv,
        ((2, 1), (3, 1)),
        (&[7, -9], &[5, -2, -8]),
        (&[35, 58], &[5, -2, -8]),
    ),
    (
        "trmv of order 3",
        Kernel::Trmv,
        ((3, 1), (6, 1)),
        (&[-4, -6, 2], &[6, -2, 3, 8, -6, 9]),
        (&[-24, -40, 42], &[6, -2, 3, 8, -6, 9]),
    ),
    (
        "trmv of order 4",
        Kernel::Trmv,
        ((4, 1), (10, 1)),
        (&[-2, -9, -3, 4], &[-1, -4, 3, -4, -7, -5, 5, -5, -5, -9]),
        (&[2, 71, 54, -58], &[-1, -4, 3, -4, -7, -5, 5, -5, -5, -9]),
    ),
    (
        "trmv of order 5",
        Kernel::Trmv,
        ((5, 1), (15, 1)),
        (
            &[-9, -3, -3, -4, -4],
            &[0, 1, -3, 8, -3, -4, -3, 3, 0, -9, 2, 4, -4, -5, -1],
        ),
        (
            &[0, 3, 63, -71, 39],
            &[0, 1, -3, 8, -3, -4, -3, 3, 0, -9, 2, 4, -4, -5, -1],
        ),
    ),
    (
        "trmv wraps",
        Kernel::Trmv,
        ((2, 1), (3, 1)),
        (&[GREATEST, LEAST], &[2, -1, -1]),
        (&[-2, 1], &[2, -1, -1]),
    ),
    (
        "trmv of the least",
        Kernel::Trmv,
        ((2, 1), (3, 1)),
        (&[LEAST, LEAST], &[LEAST, -1, GREATEST]),
        (&[0, 0], &[LEAST, -1, GREATEST]),
    ),
    (
        "trsv_unit of 1 1",
        Kernel::TrsvUnit,
        ((2, 1), (1, 1)),
        (&[1, 1], &[2]),
        (&[1, -1], &[2]),
    ),
    (
        "trsv_unit takes the new elements",
        Kernel::TrsvUnit,
        ((3, 1), (3, 1)),
        (&[1, 1, 1], &[2, 3, 4]),
        (&[1, -1, 2], &[2, 3, 4]),
    ),
    (
        "trsv_unit of order 0",
        Kernel::TrsvUnit,
        ((0, 1), (0, 1)),
        (&[], &[]),
        (&[], &[]),
    ),
    (
        "trsv_unit of order 1",
        Kernel::TrsvUnit,
        ((1, 1), (0, 1)),
        (&[-7], &[]),
        (&[-7], &[]),
    ),
    (
        "trsv_unit of order 2",
        Kernel::TrsvUnit,
        ((2, 1), (1, 1)),
        (&[1, 0], &[9]),
        (&[1, -9], &[9]),
    ),
    (
        "trsv_unit of order 3",
        Kernel::TrsvUnit,
        ((3, 1), (3, 1)),
        (&[-9, 1, -7], &[0, 2, 0]),
        (&[-9, 1, 11], &[0, 2, 0]),
    ),
    (
        "trsv_unit of order 4",
        Kernel::TrsvUnit,
        ((4, 1), (6, 1)),
        (&[6, 1, -4, 6], &[6, -4, -8, -1, -9, 2]),
        (&[6, -35, -15, -231], &[6, -4, -8, -1, -9, 2]),
    ),
    (
        "trsv_unit of order 5",
        Kernel::TrsvUnit,
        ((5, 1), (10, 1)),
        (&[3, -9, 8, 4, 2], &[3, 9, -9, 5, -8, -4, -3, -6, -2, 5]),
        (
            &[3, -18, -163, -1019, 4702],
            &[3, 9, -9, 5, -8, -4, -3, -6, -2, 5],
        ),
    ),
    (
        "trsv_unit wraps",
        Kernel::TrsvUnit,
        ((3, 1), (3, 1)),
        (&[GREATEST, LEAST, -2], &[2, -1, LEAST]),
        (
            &[GREATEST, -9223372036854775806, 9223372036854775805],
            &[2, -1, LEAST],
        ),
    ),
    (
        "trsv_unit of the least",
        Kernel::TrsvUnit,
        ((2, 1), (1, 1)),
        (&[LEAST, GREATEST], &[-1]),
        (&[LEAST, -1], &[-1]),
    ),
    (
        "trsm_unit of two columns",
        Kernel::TrsmUnit,
        ((2, 2), (1, 1)),
        (&[1, 1, 2, 5], &[2]),
        (&[1, -1, 2, 1], &[2]),
    ),
    (
        "trsm_unit of no columns",
        Kernel::TrsmUnit,
        ((3, 0), (3, 1)),
        (&[], &[2, 7, 2]),
        (&[], &[2, 7, 2]),
    ),
    (
        "trsm_unit of no rows",
        Kernel::TrsmUnit,
        ((0, 2), (0, 1)),
        (&[], &[]),
        (&[], &[]),
    ),
    (
        "trsm_unit of one row",
        Kernel::TrsmUnit,
        ((1, 3), (0, 1)),
        (&[7, -1, 5], &[]),
        (&[7, -1, 5], &[]),
    ),
    (
        "trsm_unit of order 3",
        Kernel::TrsmUnit,
        ((3, 2), (3, 1)),
        (&[-6, 9, 2, 0, -8, 4], &[-7, -3, 1]),
        (&[-6, -33, 17, 0, -8, 12], &[-7, -3, 1]),
    ),
    (
        "trsm_unit of order 5",
        Kernel::TrsmUnit,
        ((5, 3), (10, 1)),
        (
            &[7, 2, -5, 1, -1, 8, -7, 0, 1, 0, -4, -7, -5, 0, 6],
            &[-4, -8, -7, 8, 3, -8, -2, 2, -1, 5],
        ),
        (
            &[
                7, 30, -39, 368, -1876, 8, 25, -11, 279, -1420, -4, -23, 32, -276, 1404,
            ],
            &[-4, -8, -7, 8, 3, -8, -2, 2, -1, 5],
        ),
    ),
    (
        "trsm_unit wraps",
        Kernel::TrsmUnit,
        ((2, 2), (1, 1)),
        (&[GREATEST, LEAST, LEAST, GREATEST], &[2]),
        (&[GREATEST, -9223372036854775806, LEAST, GREATEST], &[2]),
    ),
    (
        "mirror of order 4, by its places",
        Kernel::Mirror,
        ((6, 1), (6, 1)),
        (&[21, 31, 41, 32, 42, 43], &[4, -5, -8, -8, 6, 1]),
        (&[21, 31, 41, 32, 42, 43], &[21, 31, 32, 41, 42, 43]),
    ),
    (
        "mirror of order 1",
        Kernel::Mirror,
        ((0, 1), (0, 1)),
        (&[], &[]),
        (&[], &[]),
    ),
    (
        "mirror of order 2",
        Kernel::Mirror,
        ((1, 1), (1, 1)),
        (&[-3], &[-5]),
        (&[-3], &[-3]),
    ),
    (
        "mirror of order 3",
        Kernel::Mirror,
        ((3, 1), (3, 1)),
        (&[9, -5, 4], &[-6, -4, 4]),
        (&[9, -5, 4], &[9, -5, 4]),
    ),
    (
        "mirror of order 4",
        Kernel::Mirror,
        ((6, 1), (6, 1)),
        (&[2, -5, -8, 4, 0, -5], &[5, -4, 7, 5, 6, 1]),
        (&[2, -5, -8, 4, 0, -5], &[2, -5, 4, -8, 0, -5]),
    ),
    (
        "mirror of order 5",
        Kernel::Mirror,
        ((10, 1), (10, 1)),
        (
            &[6, -1, 0, 6, 3, -5, -6, 3, 8, -4],
            &[6, 1, -4, -7, 6, -1, 7, 8, 7, 2],
        ),
        (
            &[6, -1, 0, 6, 3, -5, -6, 3, 8, -4],
            &[6, -1, 3, 0, -5, 3, 6, -6, 8, -4],
        ),
    ),
    (
        "mirror of order 6",
        Kernel::Mirror,
        ((15, 1), (15, 1)),
        (
            &[-7, 2, 9, -8, 0, 2, 8, -1, 6, -1, 0, 1, -4, 9, -9],
            &[6, 8, -1, 1, -1, 5, 0, 7, 2, 2, -1, 2, 4, 2, -4],
        ),
        (
            &[-7, 2, 9, -8, 0, 2, 8, -1, 6, -1, 0, 1, -4, 9, -9],
            &[-7, 2, 2, 9, 8, -1, -8, -1, 0, -4, 0, 6, 1, 9, -9],
        ),
    ),
    (
        "syrk_packed of one column",
        Kernel::SyrkPacked,
        ((3, 1), (2, 1)),
        (&[0, 0, 0], &[2, 3]),
        (&[4, 6, 9], &[2, 3]),
    ),
    (
        "syrk_packed of 0 by 0",
        Kernel::SyrkPacked,
        ((0, 1), (0, 0)),
        (&[], &[]),
        (&[], &[]),
    ),
    (
        "syrk_packed of 0 by 3",
        Kernel::SyrkPacked,
        ((0, 1), (0, 3)),
        (&[], &[]),
        (&[], &[]),
    ),
    (
        "syrk_packed of 1 by 0",
        Kernel::SyrkPacked,
        ((1, 1), (1, 0)),
        (&[5], &[]),
        (&[5], &[]),
    ),
    (
        "syrk_packed of 3 by 0",
        Kernel::SyrkPacked,
        ((6, 1), (3, 0)),
        (&[2, 1, 7, -5, 7, -4], &[]),
        (&[2, 1, 7, -5, 7, -4], &[]),
    ),
    (
        "syrk_packed of 1 by 7",
        Kernel::SyrkPacked,
        ((1, 1), (1, 7)),
        (&[-3], &[2, 6, 0, -7, 4, -4, 9]),
        (&[199], &[2, 6, 0, -7, 4, -4, 9]),
    ),
    (
        "syrk_packed of 2 by 3",
        Kernel::SyrkPacked,
        ((3, 1), (2, 3)),
        (&[7, 4, 0], &[8, -1, -9, -3, -4, 9]),
        (&[168, -13, 91], &[8, -1, -9, -3, -4, 9]),
    ),
    (
        "syrk_packed of 3 by 2",
        Kernel::SyrkPacked,
        ((6, 1), (3, 2)),
        (&[5, -4, -2, -4, -8, 6], &[-2, -4, -8, -5, -6, 1]),
        (&[34, 34, 9, 48, 18, 71], &[-2, -4, -8, -5, -6, 1]),
    ),
    (
        "syrk_packed of 5 by 1",
        Kernel::SyrkPacked,
        ((15, 1), (5, 1)),
        (
            &[-4, 6, -3, 8, -8, 4, 5, 2, 3, -7, 9, -3, -2, 2, -9],
            &[2, 3, -1, 4, -6],
        ),
        (
            &[0, 12, -5, 16, -20, 13, 2, 14, -15, -6, 5, 3, 14, -22, 27],
            &[2, 3, -1, 4, -6],
        ),
    ),
    (
        "syrk_packed of 4 by 4",
        Kernel::SyrkPacked,
        ((10, 1), (4, 4)),
        (
            &[8, 2, -8, 8, 0, -6, 0, 8, 7, 1],
            &[9, 0, 2, -5, 4, 4, 9, 8, 2, 5, -5, -4, 3, 9, 6, -3],
        ),
        (
            &[118, 55, 54, -22, 122, 59, -15, 154, 71, 115],
            &[9, 0, 2, -5, 4, 4, 9, 8, 2, 5, -5, -4, 3, 9, 6, -3],
        ),
    ),
    (
        "syrk_packed wraps",
        Kernel::SyrkPacked,
        ((3, 1), (2, 1)),
        (&[GREATEST, LEAST, -1], &[LEAST, -1]),
        (&[GREATEST, 0, 0], &[LEAST, -1]),
    ),
    (
        "syrk_packed wraps twice",
        Kernel::SyrkPacked,
        ((3, 1), (2, 2)),
        (&[GREATEST, LEAST, 0], &[GREATEST, LEAST, GREATEST, 2]),
        (
            &[-9223372036854775807, -2, 4],
            &[GREATEST, LEAST, GREATEST, 2],
        ),
    ),
];

#[test]
fn kernels_on_packed_triangles(rt: HostRuntime) -> Result<(), Fail> {
    for (name, kernel, sizes, lists, wants) in ROWS {
        check_two(&rt, rt.alloc(), &(name, kernel, 0, sizes, lists, wants))?;
    }
    Ok(())
}
