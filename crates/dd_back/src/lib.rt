//! The end of a region, and of a run.
//!
//! ```text
//! table.begin(region)?;
//! // all tasks are run
//! write_back(&mut table)?;                        // every copy is at its home, and current
//! let (journal, moved, store) = close(table);     // no slot is left
//! ```
//!
//! The tasks of a region leave the current versions of a block in several spaces. The write-back brings them home: each block whose
//! home copy lacks some is pinned there and gets them, space by space. Then no copy elsewhere is needed any more, and all of these
//! are freed, which can't be refused.
//!
//! What is entered, in which order, is `WritesBack` of `specs/Backs.antt`. Only versions that the home lacks are moved.
//!
//! Inside, `home` has the blocks that come home, `pulling` what they get, `others` the copies that are freed, `region_end` all of
//! it, and `ending` the end of a run.
#![tactic(auto)]

mod ending;
mod home;
mod others;
mod pulling;
mod region_end;

pub use ending::close;
pub use region_end::write_back;
