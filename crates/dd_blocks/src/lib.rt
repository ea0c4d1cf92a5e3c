//! Arrays in blocks, and the rows that a script is read into.
//!
//! ```text
//! let grid = Grid { rows: 5, cols: 3, brows: 2, bcols: 2 };
//! ```
//!
//! is an array of 5 by 3 elements in 6 blocks: three of them below each other, and three beside these. Their sizes are
//! 4, 4, 2 and 2, 2, 1, since the array's edges cut the last ones short. Positions, blocks and places in a block are
//! numbered from 0, each column by column. So position 9, the last row of the second column, is in block 2 with place
//! 1: `grid.block_of(9)` is 2, `grid.place_in_block(9)` is 1, and `grid.pos_of(2, 1)` is 9.
//!
//! A [`Plan`] is a script as everything below its reader sees it: its spaces, processors, arrays, blocks, tasks and
//! statements, each a list of rows. A row names others by their numbers, from 1 on. Nobody changes a Plan once it is
//! made. A block has a first home, a space, and [`Plan::home_before`] gives its home when a statement begins. Who goes
//! from statement to statement keeps the spaces to which the arrays were moved by [`What::move_home`].
//!
//! A [`Name`] owns its bytes, so that what was read outlives the text. It is not for names that are looked up in the
//! text alone: a slice of it does there, and takes no memory.
//!
//! No call but [`Name::of`] takes memory. Those of a grid are a few products and divisions, and `move_home` is one
//! write; `home_before` goes through the statements above the row.
//!
//! Inside, `piece` has the length of a piece of an edge, and each other module one record. The definitions stand in
//! `specs/Grids.antt`, `specs/Homes.antt` and `specs/ArrayHomes.antt`, and what holds of a grid as a whole in [`laws`].
#![tactic(auto)]

mod access_row;
mod array_row;
mod block_row;
mod fill;
mod grid;
pub mod laws;
pub mod limits;
mod name;
mod piece;
mod plan;
mod policy;
mod proc_row;
mod rule;
mod space_row;
mod statement_row;
mod task_row;
mod what;

pub use access_row::AccessRow;
pub use array_row::ArrayRow;
pub use block_row::BlockRow;
pub use fill::Fill;
pub use grid::Grid;
pub use name::Name;
pub use plan::Plan;
pub use policy::Policy;
pub use proc_row::ProcRow;
pub use rule::Rule;
pub use space_row::SpaceRow;
pub use statement_row::StatementRow;
pub use task_row::TaskRow;
pub use what::What;
