//! Asks, what follows them, and where a region begins.
ghost use Rattle.std.specs.Prelude.{◌≡◌, ◌↔◌, IsTrue, Some, ℕ, None};
ghost use Rattle.dd_blocks.specs.WellFormed.{IsWellFormed};
ghost use Rattle.dd_copies.specs.CopyTables.{copies_of};
ghost use Rattle.dd_machine.specs.Legal.{MayAsk, MayBegin, MayFree, MayPut, MayRest, MayShift};
ghost use Rattle.dd_machine.specs.Words.{IsOneOf, blocks, spaces};
ghost use Rattle.dd_tables.specs.Sized.{IsSized};
ghost use Rattle.dd_tables.specs.Tables.{state_of};

use dd_blocks::Plan;
use dd_machine::Event;
use dd_tables::Tables;
use dd_tables::rows::{bytes, is_block, is_space};

pub(crate) fn may_ask(tables: &Tables, plan: &Plan, space: u32, block: u32) -> bool
    requires well { IsWellFormed plan.now }
    requires sized { IsSized plan.now tables.now }
    ensures { IsTrue result ↔ MayAsk plan.now (state_of plan.now tables.now) space block }
{
    if !is_space(plan, space) {
        return false;
    }
    if !is_block(plan, block) {
        return false;
    }
    if tables.pin.is_some() {
        return false;
    }
    match tables.region {
        None => tables.is_next(plan, Event::Ask { space, block }),
        Some(region) => {
            if !tables.all_done(plan, region) {
                return false;
            }
            if tables.home_of(block) != space {
                return false;
            }
            if !tables.copies.is_any(space, block) {
                return false;
            }
            !tables.is_current(plan, space, block)
        }
    }
}

pub(crate) fn may_rest(tables: &Tables, plan: &Plan) -> bool
    requires well { IsWellFormed plan.now }
    requires sized { IsSized plan.now tables.now }
    requires pin { (s b : ℕ) → tables.now.pin ≡ Some (s, b) → IsOneOf (blocks plan.now) b }
    ensures { IsTrue result ↔ MayRest plan.now (state_of plan.now tables.now) }
{
    let Some((space, block)) = tables.pin else {
        return false;
    };
    if !tables.copies.is_here(space, block) {
        return false;
    }
    if !tables.none_leaves(plan) {
        return false;
    }
    match tables.region {
        None => tables.is_next(plan, Event::Rest),
        Some(_) => tables.is_current(plan, space, block),
    }
}

pub(crate) fn may_put(tables: &Tables, plan: &Plan, block: u32) -> bool
    requires well { IsWellFormed plan.now }
    requires sized { IsSized plan.now tables.now }
    requires pin { (s b : ℕ) → tables.now.pin ≡ Some (s, b) → IsOneOf (spaces plan.now) s }
    ensures { IsTrue result ↔ MayPut plan.now (state_of plan.now tables.now) block }
{
    if !is_block(plan, block) {
        return false;
    }
    if tables.region.is_some() {
        return false;
    }
    let home = tables.home_of(block);
    if tables.pin != Some((home, block)) {
        return false;
    }
    tables.is_next(plan, Event::Put { block })
        && tables.is_nowhere(plan, block)
        && tables.fits(plan, home, bytes(plan, block))
}

pub(crate) fn may_shift(tables: &Tables, plan: &Plan, block: u32, space: u32) -> bool
    requires well { IsWellFormed plan.now }
    requires sized { IsSized plan.now tables.now }
    ensures { IsTrue result ↔ MayShift plan.now (state_of plan.now tables.now) block space }
{
    if !is_block(plan, block) {
        return false;
    }
    if !is_space(plan, space) {
        return false;
    }
    if tables.region.is_some() {
        return false;
    }
    tables.is_next(plan, Event::Shift { block, space })
        && tables.pin == Some((space, block))
        && tables.home_of(block) != space
        && tables.copies.is_idle(tables.home_of(block), block)
        && tables.fits(plan, space, bytes(plan, block))
}

pub(crate) fn may_free(tables: &Tables, plan: &Plan, space: u32, block: u32) -> bool
    requires well { IsWellFormed plan.now }
    requires sized { IsSized plan.now tables.now }
    ensures { IsTrue result ↔ MayFree plan.now (state_of plan.now tables.now) space block }
{
    if !is_space(plan, space) {
        return false;
    }
    if !is_block(plan, block) {
        return false;
    }
    if !tables.copies.is_idle(space, block) {
        return false;
    }
    match tables.region {
        None => tables.is_next(plan, Event::Free { space, block })
            && tables.home_of(block) == space,
        Some(region) => {
            if !tables.all_done(plan, region) {
                return false;
            }
            if tables.pin.is_some() {
                return false;
            }
            let home = tables.home_of(block);
            home != space
                && tables.copies.is_any(home, block)
                && tables.is_current(plan, home, block)
        }
    }
}

pub(crate) fn may_begin(tables: &Tables, plan: &Plan, region: u32) -> bool
    requires { IsSized plan.now tables.now }
    ensures { IsTrue result ↔ MayBegin plan.now (state_of plan.now tables.now) region }
{
    tables.pin.is_none() && tables.region.is_none() && tables.is_next(plan, Event::Begin { region })
}
