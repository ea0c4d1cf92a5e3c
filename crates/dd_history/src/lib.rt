//! Which version of each element is the current one, where it comes from, and what a copy of a block still lacks.
//!
//! ```text
//! let mut cur = Cur::new(alloc, &plan)?;
//! cur.finish(&plan, 1);                                            // task 1 is done
//! let version = cur.version(element);                              // 1 where task 1 writes the element, or else 0
//! let space = cur.source(&plan, region, element);                  // where that version was made
//! let places = cur.remainder(&plan, region, block, &wanted, &held, space)?;
//! ```
//!
//! Elements are numbered as they stand, one array after the other, from 0. A version is the number of the task that wrote
//! the element last, or 0 for what it holds at first. A version that a task of the region made comes from the space of that
//! task, and every other one from the element's home when the region began.
//!
//! [`Cur::finish`] goes through the elements that the task writes, [`Cur::source`] through the rows of arrays and of
//! statements, and [`Cur::remainder`] through the wanted places, after one walk over the rows of statements.
//!
//! Inside, [`Cur`] keeps a `RunMap`. `views` sets the elements of a view, `rows` finds rows, homes and the array of an element,
//! and `sought` asks for one place of a block. The definitions stand in `specs/Currents.antt`; `specs/Sets.antt` and
//! `specs/Asked.antt` are cited by private contracts alone.
#![tactic(auto)]

mod cur;
mod rows;
mod sought;
mod views;

pub use cur::Cur;
