//! The order of one memory space by recency: which block of it was used last, and which goes first.
//!
//! ```text
//! let mut order = Order::new(alloc, 3)?;
//! order.add(1)?;
//! order.add(2)?;
//! order.add(3)?;
//! ```
//!
//! is the list 3, 2, 1, the block used last first. `order.victim(Policy::Lru, &[])` is then 1,
//! `order.victim(Policy::Mru, &[])` is 3, and with 3 pinned, `order.victim(Policy::Mru, &[3])`, it is 2. After
//! `order.touch(1)` the list is 1, 3, 2, and after `order.take(3)` it is 1, 2.
//!
//! An [`Order`] knows numbers alone: neither how large a block is nor how much fits the space. Who keeps it says which
//! blocks may not go, by a list of them or by a test, [`Pins`]. No block is ever pushed out by itself: there is room for as many as
//! [`Order::new`] was told, and [`Order::add`] asks that there is room left.
//!
//! [`Order::touch`], [`Order::add`], [`Order::take`] and [`Order::has`] look one number up in a hash table, in constant
//! time where the numbers spread; its hashes have a fixed seed. [`Order::victim`] and [`Order::victim_by`] go from one end of the
//! list to the first block that isn't pinned. `victim` goes through `pinned` for each block on the way, which is meant for a
//! short list; `victim_by` asks the test once a block. Only
//! [`Order::new`] and [`Order::add`] take memory, and now and then `add` moves the table to a larger one.
//!
//! Inside, an order is the kit's `LruCache` with the blocks as its keys and nothing as its values: a hash table whose
//! entries are linked in the order of their use. The definitions stand in `specs/Recency.antt` and `specs/Victim.antt`.
#![tactic(auto)]

mod order;
mod pins;
mod policy;

pub use order::Order;
pub use pins::Pins;
pub use policy::Policy;
