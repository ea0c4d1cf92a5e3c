//! A lock that hands one value from thread to thread, and that ends.
//!
//! It is for threads that work on one value in turns: a turn may find nothing to do yet, and one of them says at last that all is done.
//! A mutex keeps what its value's type says. This lock also keeps what ties the value to the work that it was handed over for
//! (`fits` of [`Baton`]), and knows what is true at the end (`over`): so whoever made it has the value back with both.
//!
//! ```text
//! let (turn, mut seat) = Lock::new(alloc, table, &region)?;
//! let theirs = turn.seat(&region, &mut seat);      // goes to another thread, with &turn and &region
//!
//! let bell = turn.bell();                          // each thread does this again and again, by its own seat
//! match turn.take(&region, &mut seat) {
//!     Found::Turn(mut table) => match table.next() {
//!         Work(work) => { turn.give(&region, &mut seat, table); turn.ring(&mut seat); work.run() }
//!         Nothing => { turn.give(&region, &mut seat, table); turn.wait(rt, bell) }
//!         AllDone => { turn.end(&region, &mut seat, table); turn.ring(&mut seat); return }
//!     },
//!     Found::Busy => turn.wait_turn(rt),
//!     Found::Ended => return,
//! }
//!
//! let table = turn.close(&region, seat);           // whoever made it, once that seat has seen the end
//! ```
//!
//! # States
//!
//! | Turn | The value | Seats |
//! |---|---|---|
//! | free | at home | none holds the turn |
//! | held | with the holder | one holds the turn |
//! | ended | at home for good | none holds the turn; some know that it was ended |
//!
//! `take` leads from free to held, `give` back, `end` to ended. The bell is a number beside the turn: a ring changes it. Each step of a
//! thread changes one word at once. The fact that all of this holds between any two steps is `Turns` of `specs/Turn.antt`, over any
//! number of seats. A seat that is let go stays in it, as one that does nothing any more.
//!
//! # Who wakes whom
//!
//! | Call | Wakes |
//! |---|---|
//! | `give` | one thread of those that `wait_turn` holds |
//! | `end` | all threads that `wait_turn` holds |
//! | `ring` | all threads that `wait` holds |
//!
//! # What would hang
//!
//! No contract says that a thread is woken. That nobody sleeps for ever rests on how the calls are used:
//!
//! - **Who finds the turn busy waits for the turn, and not for the bell.** Else: A has done its work and wants to say so. B holds the
//!   turn, so A waits for the bell. B finds nothing to do, so it gives without a ring and waits for the bell. Both sleep, and A's work
//!   is never told.
//! - **The bell is read before the turn is given.** Else: A finds nothing to do, and gives. B takes the turn, changes the value, gives and
//!   rings. Now A reads the bell and waits for the next ring, though it never saw what B changed.
//! - **The ring comes after the give, or after the end.** Else: B rings, A reads the bell, tries to take the turn and finds it busy, and
//!   only then B gives. If A waits for the bell now, no ring comes. If it waits for the turn, it was woken for nothing.
//! - **Whoever changed the value rings, and nobody else.** Without a ring after a change those that wait for one sleep on. If each turn rang,
//!   threads with nothing to do would wake each other without end.
//! - **Whoever comes back from `wait_turn` tries to take the turn.** A give wakes one thread alone. If that one turned away,
//!   the others would sleep beside a free turn.
//!
//! A thread sleeps on the low 32 bits of the bell: 2^32 rings between reading it and waiting would look like none.
//!
//! # Cost
//!
//! `take`, `give`, `end`, `ring` and `seat` change or read one word in one step, and a call that wakes asks the system once. Only `new` takes memory.
//!
//! # Inside
//!
//! An `atomic_table` with two words, the turn and the bell, and one slot for the value. Its rule speaks of any value by the two facts of
//! [`Baton`]: so nothing here is proved again when the value's type changes. The value is moved out of the slot by `take` and back by
//! `give` and `end`. A take that fails has looked at the turn, so no call just looks.
#![tactic(auto)]

mod baton;
mod found;
mod lock;
mod rule;

pub use baton::{Baton, View};
pub use found::Found;
pub use lock::{Lock, Seat};
