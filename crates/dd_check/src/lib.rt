//! Checks a script whole: its first fault, or its Plan.
//!
//! ```text
//! match accept(alloc, text) {
//!     Ok(plan) => ..,                               // the script's rows, well formed
//!     Err(AcceptFault::Script(fault)) => ..,        // line, kind and two numbers
//!     Err(AcceptFault::Memory) => ..,
//! }
//! ```
//!
//! A script has one Plan or one first fault, never both and never neither: the least kind that holds on the first line
//! that has one. The Plan is well formed, so whoever takes it need not look at it again.
//!
//! The text is gone through once, line by line. Names are found by a hash map. The spaces to which arrays were moved are
//! kept from line to line, so no row is gone through to place a task.
//!
//! Inside, `script` goes from line to line, and `line` reads one. `admission` asks the kinds of fault of a statement in
//! their order: those in `lookup`, `context`, `edges`, `arguments`, `accesses`, `limits` and `block_fit`, joined by
//! `kinds`. `effects` adds what a statement leaves to the `draft`, by `row`, `new_array`, `array_names`, `region_end` and
//! `machine`; `task` and `region_task` do so for a task. Believe `specs/Above.antt`, `Rows.antt`, `Kinds.antt`,
//! `Effects.antt`, `Lines.antt` and `Faults.antt`; private contracts alone cite the others.
#![tactic(auto)]

mod accesses;
mod admission;
mod arguments;
mod array;
mod array_names;
mod block_fit;
mod context;
mod draft;
mod edges;
mod effects;
mod fault;
mod kind;
mod kinds;
pub mod laws;
mod limits;
mod line;
mod lines;
mod lookup;
mod machine;
mod names;
mod new_array;
mod opened;
mod region_end;
mod region_task;
mod row;
mod script;
mod task;

pub use fault::{AcceptFault, Fault};
pub use kind::Kind;
pub use script::accept;
