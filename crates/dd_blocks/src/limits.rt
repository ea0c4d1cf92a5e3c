//! The limits of a script.

/// Of the text, in bytes.
pub const TEXT_LIMIT: u64 = 1_048_576;
/// Of a name, in bytes: no word of a line has more.
pub const NAME_LIMIT: u64 = 64;
/// Of the limit of a space, in bytes, which is at least 1.
pub const SPACE_LIMIT: u64 = 1_099_511_627_776;
/// Of each edge of an array and of its blocks, in elements, which is at least 1.
pub const EDGE_LIMIT: u64 = 4_194_304;
/// Of the spaces.
pub const SPACES_LIMIT: u64 = 8;
/// Of the processors.
pub const PROCS_LIMIT: u64 = 32;
/// Of the arrays that are made, dropped ones counted.
pub const ARRAYS_LIMIT: u64 = 256;
/// Of the elements of all arrays.
pub const ELEMENTS_LIMIT: u64 = 4_194_304;
/// Of the blocks of all arrays.
pub const BLOCKS_LIMIT: u64 = 4_096;
/// Of the tasks of a region.
pub const REGION_TASKS_LIMIT: u64 = 1_024;
/// Of the elements of all accesses of a region.
pub const REGION_ELEMENTS_LIMIT: u64 = 67_108_864;
/// Of the touches of blocks in all.
pub const TOUCHES_LIMIT: u64 = 1_048_576;
/// The bytes of an element.
pub const ELEMENT_BYTES: u64 = 8;
