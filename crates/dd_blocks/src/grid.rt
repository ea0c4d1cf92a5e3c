ghost use Rattle.std.specs.Prelude.{◌≡◌, ◌<◌, ◌≤◌, map, sum};
ghost use Rattle.std.specs.List.{range_with_len};

use crate::piece::piece_len;

/// An array of `rows` by `cols` elements that is cut into blocks of `brows` by `bcols`, each at least 1. The
/// blocks at the end of the array may be smaller.
///
/// Positions in the array, blocks, and places in a block are numbered from 0, each of them column by column.
#[derive(Clone, Copy, Debug, PartialEq, Eq)]
pub struct Grid {
    pub rows: u32,
    pub cols: u32,
    pub brows: u32,
    pub bcols: u32,
}

impl Grid {
    ghost use Rattle.dd_blocks.specs.Grids.{IsGrid, block_count, block_height, block_of, block_rows, block_size, element_count, place_in_block, pos_of};

    /// How many blocks the array is cut into.
    pub fn blocks(&self) -> u64
        requires { IsGrid self.now }
        ensures value { result ≡ block_count self.now }
        ensures few { result ≤ element_count self.now }

        // The sizes of all blocks sum to the elements of the array.
        ensures sum { sum (map (block_size self.now) (range_with_len 0 result)) ≡ element_count self.now }
    {
        self.block_rows() * u64::from(self.cols.div_ceil(self.bcols))
    }

    /// The block that has a position.
    pub fn block_of(&self, pos: u64) -> u64
        requires grid { IsGrid self.now }
        requires within { pos < element_count self.now }
        ensures value { result ≡ block_of self.now pos }
        ensures within { result < block_count self.now }
    {
        let rows = u64::from(self.rows);
        let above = pos % rows / u64::from(self.brows);
        let before = pos / rows / u64::from(self.bcols);
        before * self.block_rows() + above
    }

    /// The place of a position in its block.
    pub fn place_in_block(&self, pos: u64) -> u64
        requires grid { IsGrid self.now }
        requires within { pos < element_count self.now }
        ensures value { result ≡ place_in_block self.now pos }
        ensures within { result < block_size self.now (block_of self.now pos) }
        ensures back { pos_of self.now (block_of self.now pos) result ≡ pos }
    {
        let rows = u64::from(self.rows);
        let brows = u64::from(self.brows);
        let row = pos % rows;
        let height = piece_len(self.rows, self.brows, row / brows);
        let col = pos / rows % u64::from(self.bcols);
        col * height + row % brows
    }

    /// The position of a place in a block.
    pub fn pos_of(&self, block: u64, place: u64) -> u64
        requires grid { IsGrid self.now }
        requires block { block < block_count self.now }
        requires place { place < block_size self.now block }
        ensures value { result ≡ pos_of self.now block place }
        ensures within { result < element_count self.now }
        ensures block { block_of self.now result ≡ block }
        ensures place { place_in_block self.now result ≡ place }
    {
        let height = self.height(block);
        let block_rows = self.block_rows();
        let row = block % block_rows * u64::from(self.brows) + place % height;
        let col = block / block_rows * u64::from(self.bcols) + place / height;
        col * u64::from(self.rows) + row
    }

    /// How many elements a block has.
    pub fn size(&self, block: u64) -> u64
        requires grid { IsGrid self.now }
        requires within { block < block_count self.now }
        ensures value { result ≡ block_size self.now block }
        ensures some { 1 ≤ result }
        ensures few { result ≤ element_count self.now }
    {
        self.height(block) * piece_len(self.cols, self.bcols, block / self.block_rows())
    }

    /// How many blocks stand below each other.
    fn block_rows(&self) -> u64
        requires { IsGrid self.now }
        ensures value { result ≡ block_rows self.now }
        ensures some { 1 ≤ result }
        ensures few { result ≤ self.now.rows }
    {
        u64::from(self.rows.div_ceil(self.brows))
    }

    /// How many rows a block has.
    fn height(&self, block: u64) -> u64
        requires grid { IsGrid self.now }
        requires within { block < block_count self.now }
        ensures value { result ≡ block_height self.now block }
        ensures some { 1 ≤ result }
    {
        piece_len(self.rows, self.brows, block % self.block_rows())
    }
}
