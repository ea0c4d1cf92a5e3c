//! The journal of a run, with the machine's core that its entries lead to.
//!
//! ```text
//! let mut ledger = Ledger::new(alloc, &plan)?;
//! ledger.enter(entry)?;      // an entry that is legal now; the core makes its step
//! ledger.finish(entry);      // one that ends something: it takes no memory
//! ```
//!
//! A [`Ledger`] never loses an entry, and its type keeps that the journal is a legal run and that the core is in the state after
//! it (`IsLedger` of `specs/Facts.antt`). So whoever knows the journal knows the state.
//!
//! An entry that ends what is under way can't be refused: a Finish, a Rest, a Free, a Close. Room for it is taken when the entry is
//! made that begins it, by the same reserve. `endings` of `specs/Endings.antt` counts them; the ledger has a number that is at
//! least that, and the journal as much room. A call costs what the core's step costs, and no more than that; the first Pick is kept by
//! its number, so that nobody goes through the journal for it.
#![tactic(auto)]

mod endings;
mod ledger;
mod picks;

pub use ledger::Ledger;
