//! Which processor runs a task.
//!
//! ```text
//! let proc = place(&plan, &earlier, &task);
//! ```
//!
//! is the number of the processor that gets the task, where `earlier` has the processors of the tasks above it in its
//! region. Under the rule [`Rr`](dd_blocks::Rule::Rr) the tasks of a region go to the processors in turn. Under
//! [`Home`](dd_blocks::Rule::Home) a task goes where its data is: of the processors of one space that with the fewest
//! tasks of the region so far gets it, and on a tie that with the least number. The space is the home, when the region
//! begins, of the block that has the first element of what the task writes. So with processors 1 to 4 in the spaces 1,
//! 2, 2, 1 a task that writes a block at home in space 2 goes to 3, if `earlier` is 1, 2.
//!
//! The first written access that isn't empty decides, or else the first access that isn't. Without one the space is 1.
//! Where the space has no processor, all are candidates. The region of the task is one that a row of the Plan runs, or
//! the next one: then its tasks are placed with all rows above it in the Plan.
//!
//! No call takes memory. A task costs a pass over `earlier` for each candidate. Under `Home`, [`place`] goes through the
//! statements above its region too, and searches the rows for the region from the last one up, to the first region that
//! isn't behind. [`place_by`] looks at no statement: it is given the space to which each array was moved last.
//!
//! Inside, `leading` finds the block by which a task finds its space, `region` the row that runs a region, `load` the
//! least loaded processor, and `processor` joins them. The definitions of a placement stand in
//! `specs/Placement.antt`, `Leading.antt` and `Loads.antt`, what it asks of a Plan in `Premises.antt`.
//! Those of `specs/Chosen.antt` are cited by private contracts alone. [`laws`] has what holds of all placements.
#![tactic(auto)]

pub mod laws;
mod leading;
mod load;
mod processor;
mod region;

pub use processor::{place, place_by};
