//! The bytes of a space.
ghost use Rattle.std.specs.Prelude.{◌≡◌, ◌≤◌};
ghost use Rattle.dd_blocks.specs.WellFormed.{IsWellFormed};
ghost use Rattle.dd_machine.specs.Bytes.{resident};
ghost use Rattle.dd_machine.specs.Words.{IsOneOf, limit, spaces};
ghost use Rattle.dd_pool.specs.Pools.{bytes_at};
ghost use Rattle.dd_table.specs.Tables.{state_now};

use crate::table::Table;
use dd_store::Store;

impl<'p, D: Store> Table<'p, D> {
    /// The bytes of a space in use, by the rules of the machine. They are within its limit at every moment, and its copies in
    /// memory have no more. It takes no memory.
    pub fn resident(&self, space: u32) -> u64
        requires well { IsWellFormed self.now.holding.ledger.plan.now }
        requires space { IsOneOf (spaces self.now.holding.ledger.plan.now) space }
        ensures value { result ≡ resident self.now.holding.ledger.plan.now (state_now self.now) space }
        ensures within { result ≤ limit self.now.holding.ledger.plan.now space }
        ensures copies { bytes_at self.now.holding.pool space ≤ result }
    {
        self.core().resident(self.plan(), space)
    }
}
