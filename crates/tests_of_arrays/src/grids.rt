//! Grids at values from outside.
ghost use Rattle.std.specs.Prelude.{◌≡◌, IfSome};
ghost use Rattle.dd_blocks.specs.Grids.{IsGrid, element_count};

use dd_blocks::Grid;
use std::process::Abort;
use std::test::Fail;

/// Rows, columns, block rows and block columns.
type Edges = (u32, u32, u32, u32);

/// A block, and a place in it.
type Spot = (u64, u64);

/// A name, a grid, the size of each block, and where each position stands.
type WholeRow = (&'static str, Edges, &'static [u64], &'static [Spot]);

/// A name, a grid, how many blocks it has, a position, where it stands, and the size of its block.
type LargeRow = (&'static str, Edges, u64, u64, Spot, u64);

const WHOLE: [WholeRow; 11] = [
    (
        "edges cut short",
        (5, 3, 2, 2),
        &[4, 4, 2, 2, 2, 1],
        &[
            (0, 0),
            (0, 1),
            (1, 0),
            (1, 1),
            (2, 0),
            (0, 2),
            (0, 3),
            (1, 2),
            (1, 3),
            (2, 1),
            (3, 0),
            (3, 1),
            (4, 0),
            (4, 1),
            (5, 0),
        ],
    ),
    (
        "edges come out even",
        (4, 2, 2, 1),
        &[2, 2, 2, 2],
        &[
            (0, 0),
            (0, 1),
            (1, 0),
            (1, 1),
            (2, 0),
            (2, 1),
            (3, 0),
            (3, 1),
        ],
    ),
    (
        "blocks larger than the array",
        (2, 3, 5, 4),
        &[6],
        &[(0, 0), (0, 1), (0, 2), (0, 3), (0, 4), (0, 5)],
    ),
    (
        "rows of a block past the array",
        (2, 3, 5, 2),
        &[4, 2],
        &[(0, 0), (0, 1), (0, 2), (0, 3), (1, 0), (1, 1)],
    ),
    ("one element", (1, 1, 1, 1), &[1], &[(0, 0)]),
    (
        "one element in a large block",
        (1, 1, 7, 9),
        &[1],
        &[(0, 0)],
    ),
    (
        "one row",
        (1, 5, 1, 2),
        &[2, 2, 1],
        &[(0, 0), (0, 1), (1, 0), (1, 1), (2, 0)],
    ),
    (
        "one column",
        (5, 1, 2, 1),
        &[2, 2, 1],
        &[(0, 0), (0, 1), (1, 0), (1, 1), (2, 0)],
    ),
    (
        "one row in blocks of more",
        (1, 4, 3, 3),
        &[3, 1],
        &[(0, 0), (0, 1), (0, 2), (1, 0)],
    ),
    (
        "blocks of one element",
        (2, 3, 1, 1),
        &[1, 1, 1, 1, 1, 1],
        &[(0, 0), (1, 0), (2, 0), (3, 0), (4, 0), (5, 0)],
    ),
    (
        "blocks of one row",
        (2, 4, 1, 3),
        &[3, 3, 1, 1],
        &[
            (0, 0),
            (1, 0),
            (0, 1),
            (1, 1),
            (0, 2),
            (1, 2),
            (2, 0),
            (3, 0),
        ],
    ),
];

const LARGE: [LargeRow; 11] = [
    (
        "the largest array, one block",
        (4194304, 4194304, 4194304, 4194304),
        1,
        17592186044415,
        (0, 17592186044415),
        17592186044416,
    ),
    (
        "the largest array, blocks of one element",
        (4194304, 4194304, 1, 1),
        17592186044416,
        17592186044415,
        (17592186044415, 0),
        1,
    ),
    (
        "the largest array, blocks of odd sizes",
        (4194304, 4194304, 1000, 999),
        17614805,
        17592186044415,
        (17614804, 152607),
        152608,
    ),
    (
        "the largest array, the first element of the last column",
        (4194304, 4194304, 1000, 999),
        17614805,
        17592181850112,
        (17610610, 501000),
        502000,
    ),
    (
        "the longest column",
        (4194304, 1, 1000, 1),
        4195,
        4194303,
        (4194, 303),
        304,
    ),
    (
        "the longest column in one block",
        (4194304, 1, 4194304, 4194304),
        1,
        4194303,
        (0, 4194303),
        4194304,
    ),
    (
        "the longest row",
        (1, 4194304, 1, 1000),
        4195,
        4194303,
        (4194, 303),
        304,
    ),
    (
        "the longest row in blocks of one element",
        (1, 4194304, 4194304, 1),
        4194304,
        4194303,
        (4194303, 0),
        1,
    ),
    (
        "the most positions",
        (4294967295, 2147483648, 65536, 65537),
        2147483648,
        9223372034707292159,
        (2147483647, 2147516414),
        2147516415,
    ),
    (
        "the most positions, blocks of one element",
        (4294967295, 2147483648, 1, 1),
        9223372034707292160,
        9223372034707292159,
        (9223372034707292159, 0),
        1,
    ),
    (
        "the most positions, one block",
        (4294967295, 2147483648, 4294967295, 4294967295),
        1,
        9223372034707292159,
        (0, 9223372034707292159),
        9223372034707292160,
    ),
];

#[test]
fn blocks_and_places(rt: HostRuntime) -> Result<(), Fail> {
    for (name, edges, sizes, spots) in WHOLE {
        match grid_of(edges) {
            Some(grid) => {
                check_sizes(&rt, name, &grid, sizes);
                check_spots(&rt, name, &grid, spots);
            }
            None => assert!(rt; false, "{name}"),
        }
    }
    Ok(())
}

#[test]
fn large_arrays(rt: HostRuntime) -> Result<(), Fail> {
    for (name, edges, blocks, pos, spot, size) in LARGE {
        match grid_of(edges) {
            Some(grid) => {
                assert_eq!(rt; grid.blocks(), blocks, "{name}");
                check_spot(&rt, name, &grid, pos, spot);
                check_size(&rt, name, &grid, spot.0, size);
            }
            None => assert!(rt; false, "{name}"),
        }
    }
    Ok(())
}

fn check_sizes(rt: &impl Abort, name: &str, grid: &Grid, sizes: &[u64])
    requires { IsGrid grid.now }
{
    assert_eq!(rt; grid.blocks(), sizes.len() as u64, "{name}");
    for (block, size) in sizes.iter().enumerate() {
        check_size(rt, name, grid, block as u64, *size);
    }
}

fn check_spots(rt: &impl Abort, name: &str, grid: &Grid, spots: &[Spot])
    requires { IsGrid grid.now }
{
    assert_eq!(rt; elements(grid), spots.len() as u64, "{name}");
    for (pos, spot) in spots.iter().enumerate() {
        check_spot(rt, name, grid, pos as u64, *spot);
    }
}

fn check_size(rt: &impl Abort, name: &str, grid: &Grid, block: u64, size: u64)
    requires { IsGrid grid.now }
{
    assert!(rt; block < grid.blocks(), "{name} {block}");
    assert_eq!(rt; grid.size(block), size, "{name} {block}");
}

fn check_spot(rt: &impl Abort, name: &str, grid: &Grid, pos: u64, spot: Spot)
    requires { IsGrid grid.now }
{
    assert!(rt; pos < elements(grid), "{name} {pos}");
    let found = (grid.block_of(pos), grid.place_in_block(pos));
    assert_eq!(rt; found, spot, "{name} {pos}");
    check_pos(rt, name, grid, pos, spot);
}

fn check_pos(rt: &impl Abort, name: &str, grid: &Grid, pos: u64, spot: Spot)
    requires { IsGrid grid.now }
{
    let (block, place) = spot;
    assert!(rt; block < grid.blocks(), "{name}");
    assert!(rt; place < grid.size(block), "{name}");
    assert_eq!(rt; grid.pos_of(block, place), pos, "{name} {block} {place}");
}

fn elements(grid: &Grid) -> u64
    requires { IsGrid grid.now }
    ensures { result ≡ element_count grid.now }
{
    u64::from(grid.rows) * u64::from(grid.cols)
}

fn grid_of(edges: Edges) -> Option<Grid>
    ensures { IfSome result IsGrid }
{
    let (rows, cols, brows, bcols) = edges;
    let elements = u64::from(rows).checked_mul(u64::from(cols))?;
    if rows >= 1 && cols >= 1 && brows >= 1 && bcols >= 1 && elements < 1 << 63 {
        Some(Grid {
            rows,
            cols,
            brows,
            bcols,
        })
    } else {
        None
    }
}
