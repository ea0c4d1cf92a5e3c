//! The order of a space.
ghost use Rattle.std.specs.Prelude.{◌≡◌, ◌<◌, ◌≤◌, ◌↔◌, true, false, nat_eq, [], ◌∷◌, length, All, Contains, IfOk, OnOk, OnErr, IsTrue, IsNone, IfSome};
ghost use Rattle.std.specs.List.{IsDistinct};
ghost use Rattle.std.specs.Set.{is_member};
ghost use Rattle.dd_recency.specs.Recency.{to_front, without};
ghost use Rattle.dd_recency.specs.Victim.{victim};

use crate::pins::{Listed, Pins};
use crate::policy::Policy;
use lru::LruCache;
use std::alloc::{AllocError, Global};
use std::marker::Model;
use std::num::NonZeroUsize;

/// The blocks of one memory space in the order of their last use. Contracts see the list of their numbers, `blocks`,
/// the one used last first and none of them twice, and beside it `room`, how many there may be.
#[derive(Debug, Drop)]
pub struct Order {
    recent: LruCache<u32, ()>,
}

impl Model for Order {
    ghost use Rattle.std.specs.Prelude.{◌≤◌, nat_eq, length};
    ghost use Rattle.std.specs.List.{IsDistinct};
    ghost use Rattle.std.specs.Map.{keys_of};
    ghost use Rattle.dd_recency.specs.Recency.{Recency};

    ghost Value = { Recency };

    ghost view = { λ o. record { blocks = keys_of o.recent.entries; room = o.recent.cap } };

    ghost invariant = { λ o. IsDistinct nat_eq (keys_of o.recent.entries) × (length (keys_of o.recent.entries) ≤ o.recent.cap) };
}

impl Order {
    /// An empty order that may hold `room` blocks, at least 1. No room is taken ahead: each block that is added takes
    /// its own memory.
    pub fn new(alloc: Global, room: u32) -> Result<Order, AllocError>
        requires { 0 < room }
        ensures { IfOk result (λ order. order ≡ record { blocks = []; room = room }) }
    {
        let room = NonZeroUsize::new(room as usize).unwrap();
        Ok(Order {
            recent: LruCache::sparse(alloc, room)?,
        })
    }

    /// How many blocks there are.
    pub fn len(&self) -> usize
        ensures value { result ≡ length self.now.blocks }
        ensures once { IsDistinct nat_eq self.now.blocks }
        ensures within { length self.now.blocks ≤ self.now.room }
    {
        self.recent.len()
    }

    pub fn is_empty(&self) -> bool
        ensures { IsTrue result ↔ (self.now.blocks ≡ []) }
    {
        self.recent.is_empty()
    }

    /// Whether there are as many blocks as there may be.
    pub fn is_full(&self) -> bool
        ensures value { IsTrue result ↔ (length self.now.blocks ≡ self.now.room) }
        ensures within { length self.now.blocks ≤ self.now.room }
    {
        self.recent.len() == self.recent.cap().get()
    }

    /// Whether a block is there.
    pub fn has(&self, block: u32) -> bool
        ensures { IsTrue result ↔ Contains self.now.blocks block }
    {
        self.recent.contains(&block)
    }

    /// The block that goes first: of those that aren't in `pinned`, the one that wasn't used for the longest time under
    /// `Lru`, and the one that was used last under `Mru`. None comes exactly where every block is pinned.
    ///
    /// `pinned` may hold a block twice, and blocks that aren't there. It takes no memory.
    pub fn victim(&self, policy: Policy, pinned: &[u32]) -> Option<u32>
        ensures value { result ≡ victim policy (is_member nat_eq pinned.now) self.now.blocks }
        ensures none { IsNone result ↔ All (Contains pinned.now) self.now.blocks }
        ensures among { IfSome result (Contains self.now.blocks) }
        ensures unpinned { IfSome result (λ block. ¬ Contains pinned.now block) }
    {
        self.victim_by(policy, &Listed { blocks: pinned })
    }

    /// The block that goes first of those that `pins` doesn't pin, as [`Order::victim`] has it. It takes no memory.
    pub fn victim_by<P: Pins>(&self, policy: Policy, pins: &P) -> Option<u32>
        requires { P.is_ready pins.now }
        ensures value { result ≡ victim policy (P.pinned pins.now) self.now.blocks }
        ensures none { IsNone result ↔ All (λ block. P.pinned pins.now block ≡ true) self.now.blocks }
        ensures among { IfSome result (Contains self.now.blocks) }
        ensures unpinned { IfSome result (λ block. P.pinned pins.now block ≡ false) }
    {
        match policy {
            Policy::Lru => self.least_recent(pins),
            Policy::Mru => self.most_recent(pins),
        }
    }

    /// Brings a block to the front, as it is used. The others keep their order. It takes no memory.
    pub fn touch(&mut self, block: u32)
        requires { Contains self.old.blocks block }
        ensures { self.new ≡ record self.old { blocks = to_front block self.old.blocks } }
    {
        self.recent.promote(&block);
    }

    /// Adds a block at the front. After want of memory the order is as before.
    pub fn add(&mut self, block: u32) -> Result<(), AllocError>
        requires absent { ¬ Contains self.old.blocks block }
        requires room { length self.old.blocks < self.old.room }
        ensures ok { OnOk result (self.new ≡ record self.old { blocks = block ∷ self.old.blocks }) }
        ensures err { OnErr result (self.new ≡ self.old) }
    {
        self.recent.put(block, ())?;
        Ok(())
    }

    /// Takes a block out, and says whether it was there. The others keep their order. It takes no memory.
    pub fn take(&mut self, block: u32) -> bool
        ensures found { IsTrue result ↔ Contains self.old.blocks block }
        ensures rest { self.new ≡ record self.old { blocks = without block self.old.blocks } }
        ensures absent { result ≡ false → self.new ≡ self.old }
    {
        self.recent.pop(&block).is_some()
    }

    fn least_recent<P: Pins>(&self, pins: &P) -> Option<u32>
        requires { P.is_ready pins.now }
        ensures { result ≡ victim Policy.Lru (P.pinned pins.now) self.now.blocks }
    {
        self.recent
            .iter()
            .rev()
            .map(|(block, _)| *block)
            .find(|block| !pins.is_pinned(*block))
    }

    fn most_recent<P: Pins>(&self, pins: &P) -> Option<u32>
        requires { P.is_ready pins.now }
        ensures { result ≡ victim Policy.Mru (P.pinned pins.now) self.now.blocks }
    {
        self.recent
            .iter()
            .map(|(block, _)| *block)
            .find(|block| !pins.is_pinned(*block))
    }
}
