//! The pinned blocks of a space.
ghost use Rattle.dd_blocks.specs.WellFormed.{IsWellFormed};
ghost use Rattle.dd_machine.specs.Bytes.{is_pinned};
ghost use Rattle.dd_tables.specs.Sized.{IsSized};
ghost use Rattle.dd_tables.specs.Tables.{state_of};

use crate::tables::Tables;
use dd_blocks::Plan;
use dd_recency::Pins;

/// The blocks that are pinned on a space.
#[derive(Drop)]
pub struct PinsOn<'a> {
    pub tables: &'a Tables,
    pub plan: &'a Plan,
    pub space: u32,
}

impl Pins for PinsOn<'_> {
    ghost pinned = { λ p. is_pinned p.plan.now (state_of p.plan.now p.tables.now) p.space };

    ghost is_ready = { λ p. IsWellFormed p.plan.now × IsSized p.plan.now p.tables.now };

    fn is_pinned(&self, block: u32) -> bool {
        self.tables.is_pinned(self.plan, self.space, block)
    }
}
