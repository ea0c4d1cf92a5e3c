//! Pools: which copies and slots there are, their bytes, and names.
ghost use Rattle.std.specs.Prelude.{◌≡◌};
ghost use Rattle.dd_blocks.specs.WellFormed.{IsWellFormed};
ghost use Rattle.dd_pool.specs.Places.{IsPlace};

use crate::plans::{ONE_BLOCK, OVERLAPPING, plan_of};
use crate::works::copy_after_the_task;
use dd_blocks::Plan;
use dd_pool::{Pool, Spilled, spill};
use dd_stamps::{Stamped, fresh_fill};
use dd_store::{NeverFails, NeverFailsSlot, Slot, Store};
use std::alloc::Global;
use std::process::Abort;

#[test]
fn an_array_has_as_many_names_as_it_was_given(rt: HostRuntime) {
    let plan = plan_of(&rt, rt.alloc(), ONE_BLOCK);
    assert!(rt; !plan.arrays.as_slice().is_empty());
    let mut pool = Pool::<NeverFails>::new(rt.alloc(), &plan).expect(&rt, "memory");
    assert_eq!(rt; pool.names(1), 0);
    pool.share(1);
    pool.share(1);
    assert_eq!(rt; pool.release(1), 1);
    assert_eq!(rt; pool.release(1), 0);
}

#[test]
fn bytes_are_those_of_the_copies(rt: HostRuntime) {
    let made = plan_of(&rt, rt.alloc(), ONE_BLOCK);
    let plan = &made;
    assert!(rt; !plan.spaces.as_slice().is_empty() && !plan.blocks.as_slice().is_empty());
    let mut pool = Pool::<NeverFails>::new(rt.alloc(), plan).expect(&rt, "memory");
    assert_eq!(rt; pool.bytes(1), 0);
    put_fresh(&rt, rt.alloc(), plan, &mut pool);
    assert_eq!(rt; pool.bytes(1), 32);
    reserve_more(&rt, &mut pool);
    assert_eq!(rt; pool.bytes(1), 32);
    take_it(&rt, &mut pool);
    assert_eq!(rt; pool.bytes(1), 0);
}

// Puts a fresh copy of block 1 beside the copies of space 1.
fn put_fresh<'p>(rt: &impl Abort, alloc: Global, plan: &'p Plan, pool: &mut Pool<'p, NeverFails>)
    requires well { IsWellFormed plan.now }
    requires place { IsPlace plan.now 1 1 }
    requires plan { pool.old.plan ≡ plan }
    ensures { pool.new.plan ≡ pool.old.plan }
{
    assert!(rt; pool.copy_at(1, 1).is_none());
    let copy = fresh_fill(alloc, plan, 1).expect(rt, "memory");
    let put = pool.put(1, copy).is_ok();
    assert!(rt; put);
}

// Room for more runs of a copy adds no bytes.
fn reserve_more(rt: &impl Abort, pool: &mut Pool<'_, NeverFails>)
    requires place { IsPlace pool.old.plan.now 1 1 }
    ensures { pool.new.plan ≡ pool.old.plan }
{
    assert!(rt; pool.copy_at(1, 1).is_some());
    pool.reserve(1, 1, 8).expect(rt, "memory");
}

// Takes the copy of block 1 away.
fn take_it(rt: &impl Abort, pool: &mut Pool<'_, NeverFails>)
    requires place { IsPlace pool.old.plan.now 1 1 }
    ensures { pool.new.plan ≡ pool.old.plan }
{
    let taken = pool.take(1, 1).is_some();
    assert!(rt; taken);
    assert!(rt; pool.copy_at(1, 1).is_none());
}

// A slot with what a copy holds.
fn slot_of<'p>(rt: &impl Abort, alloc: Global, copy: Stamped<'p>) -> Spilled<'p, NeverFailsSlot>
    ensures plan { result.plan ≡ copy.entry.plan }
    ensures block { result.block ≡ copy.entry.block }
{
    let mut store = NeverFails::new(alloc);
    let slot = store.make().expect(rt, "slot");
    let Ok(out) = spill(alloc, copy, slot) else {
        panic!(rt; "not spilled")
    };
    out
}

// What becomes of a slot of block 1 that is put beside the copies of space 1, and taken out.
fn there_and_back<'p>(
    rt: &impl Abort,
    pool: &mut Pool<'p, NeverFails>,
    out: Spilled<'p, NeverFailsSlot>,
) -> Stamped<'p>
    requires place { IsPlace pool.old.plan.now 1 1 }
    requires plan { out.plan ≡ pool.old.plan }
    requires block { out.block ≡ 1 }
    ensures { pool.new.plan ≡ pool.old.plan }
{
    let none = pool.take_out(1, 1).is_none();
    assert!(rt; none && pool.copy_at(1, 1).is_none());
    let put = pool.put_out(1, 1, out).is_ok();
    assert!(rt; put);
    let Some(mut back) = pool.take_out(1, 1) else {
        panic!(rt; "no slot")
    };
    back.recall().expect(rt, "recalled")
}

// A block goes to a slot before a task and to another one after it. Once the first was taken out, the second one comes back.
#[test]
fn an_older_slot_does_not_come_back(rt: HostRuntime) {
    let made = plan_of(&rt, rt.alloc(), OVERLAPPING);
    let plan = &made;
    assert!(rt; !plan.spaces.as_slice().is_empty() && !plan.blocks.as_slice().is_empty());
    let mut pool = Pool::<NeverFails>::new(rt.alloc(), plan).expect(&rt, "memory");
    check_older(&rt, rt.alloc(), plan, &mut pool);
    check_newer(&rt, rt.alloc(), plan, &mut pool);
}

// Block 1 as it is before the task comes back.
fn check_older<'p>(rt: &impl Abort, alloc: Global, plan: &'p Plan, pool: &mut Pool<'p, NeverFails>)
    requires well { IsWellFormed plan.now }
    requires place { IsPlace plan.now 1 1 }
    requires plan { pool.old.plan ≡ plan }
    ensures { pool.new.plan ≡ pool.old.plan }
{
    let copy = fresh_fill(alloc, plan, 1).expect(rt, "memory");
    let back = there_and_back(rt, pool, slot_of(rt, alloc, copy));
    assert_eq!(rt; back.values(), [1, 2, 3, 4].as_slice());
}

// Block 1 as it is after the task comes back.
fn check_newer<'p>(rt: &impl Abort, alloc: Global, plan: &'p Plan, pool: &mut Pool<'p, NeverFails>)
    requires well { IsWellFormed plan.now }
    requires place { IsPlace plan.now 1 1 }
    requires plan { pool.old.plan ≡ plan }
    ensures { pool.new.plan ≡ pool.old.plan }
{
    let copy = copy_after_the_task(rt, alloc, plan);
    let back = there_and_back(rt, pool, slot_of(rt, alloc, copy));
    assert_eq!(rt; back.values(), [2, 1, 2, 3].as_slice());
}
