//! How the arrays of the tests are cut into blocks.

/// The rows and the columns of each array and of its blocks, its first block and how many elements stand before it.
pub const ARRAYS: [(u32, u32, u32, u32, u32, u64); 3] = [
    (4, 4, 2, 2, 1, 0),
    (6, 1, 2, 1, 5, 16),
    (3, 3, 1, 1, 8, 22),
];

/// The array and the size of each block.
pub const BLOCKS: [(u32, u32); 16] = [
    (1, 4),
    (1, 4),
    (1, 4),
    (1, 4),
    (2, 2),
    (2, 2),
    (2, 2),
    (3, 1),
    (3, 1),
    (3, 1),
    (3, 1),
    (3, 1),
    (3, 1),
    (3, 1),
    (3, 1),
    (3, 1),
];
