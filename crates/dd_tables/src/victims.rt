//! Which block of a space is spilled next.
ghost use Rattle.std.specs.Prelude.{◌≡◌};
ghost use Rattle.dd_blocks.specs.WellFormed.{IsWellFormed};
ghost use Rattle.dd_machine.specs.Bytes.{order_policy, victim};
ghost use Rattle.dd_machine.specs.Words.{IsOneOf, spaces};
ghost use Rattle.dd_tables.specs.Sized.{IsSized};
ghost use Rattle.dd_tables.specs.Tables.{state_of};

use crate::pins::PinsOn;
use crate::tables::Tables;
use dd_blocks::{Plan, Policy};
use dd_recency::Policy as OrderPolicy;

impl Tables {
    /// The unpinned block of a space that is spilled next. None where each of its blocks is pinned.
    pub fn victim(&self, plan: &Plan, space: u32) -> Option<u32>
        requires well { IsWellFormed plan.now }
        requires sized { IsSized plan.now self.now }
        requires space { IsOneOf (spaces plan.now) space }
        ensures { result ≡ victim plan.now (state_of plan.now self.now) space }
    {
        let pins = PinsOn {
            tables: self,
            plan,
            space,
        };
        self.orders[space as usize - 1].victim_by(order_policy(plan.policy), &pins)
    }
}

/// The Plan's policy, as an order's.
fn order_policy(policy: Policy) -> OrderPolicy
    ensures { result ≡ order_policy policy }
{
    match policy {
        Policy::Lru => OrderPolicy::Lru,
        Policy::Mru => OrderPolicy::Mru,
    }
}
