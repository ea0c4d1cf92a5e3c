//! Copies that go to slots and come back, where calls fail and where slots lie.
ghost use Rattle.std.specs.Prelude.{◌≡◌, ◌<◌, ◌-◌, ◌^◌};
ghost use Rattle.dd_blocks.specs.Numbered.{IsNumberIn};
ghost use Rattle.dd_blocks.specs.WellFormed.{IsWellFormed};

use crate::copies::check_one_version;
use crate::plans::{OVERLAPPING, THREE_PIECES, plan_of};
use crate::works::copy_after_the_task;
use dd_blocks::Plan;
use dd_pool::{Spilled, spill};
use dd_stamps::{Stamped, fresh_fill};
use dd_store::{DirStore, MemSlot, MemStore, NeverFails, Slot, Store, StoreFault};
use std::alloc::Global;
use std::process::Abort;
use std::{env, fs, process};

// A store whose `append` and `read` with these numbers fail. No call has the number 0.
fn failing(rt: &impl Abort, alloc: Global, append: u32, read: u32) -> MemStore
    ensures { result.made ≡ 0 }
{
    let appends = [append].to_vec(alloc).expect(rt, "memory");
    let reads = [read].to_vec(alloc).expect(rt, "memory");
    MemStore::new(alloc, Vec::new(alloc), appends, reads)
}

// What becomes of block 1 that goes to a slot of the store and comes back.
fn there_and_back<'p, D: Store>(
    rt: &impl Abort,
    alloc: Global,
    plan: &'p Plan,
    store: &mut D,
) -> Result<Stamped<'p>, StoreFault>
    requires well { IsWellFormed plan.now }
    requires block { IsNumberIn plan.now.blocks 1 }
    requires made { D.made store.old < 2 ^ 64 - 1 }
{
    let slot = store.make()?;
    let copy = fresh_fill(alloc, plan, 1).expect(rt, "memory");
    match spill(alloc, copy, slot) {
        Ok(out) => came_back(store, out),
        Err((slot, fault)) => {
            store.end(slot);
            Err(fault)
        }
    }
}

// The copy of a slot, which is ended.
fn came_back<'p, D: Store>(
    store: &mut D,
    out: Spilled<'p, D::Slot>,
) -> Result<Stamped<'p>, StoreFault> {
    let mut out = out;
    let back = out.recall();
    store.end(out.into_slot());
    back
}

// The values go in three pieces. Each row: which append and which read fail, and whether the block comes back.
#[test]
fn each_call_on_a_slot_can_fail(rt: HostRuntime) {
    let plan = plan_of(&rt, rt.alloc(), THREE_PIECES);
    assert!(rt; !plan.blocks.as_slice().is_empty());
    check_failing(&rt, rt.alloc(), &plan, 1, 0, true);
    check_failing(&rt, rt.alloc(), &plan, 2, 0, true);
    check_failing(&rt, rt.alloc(), &plan, 3, 0, true);
    check_failing(&rt, rt.alloc(), &plan, 4, 0, false);
    check_failing(&rt, rt.alloc(), &plan, 0, 1, true);
    check_failing(&rt, rt.alloc(), &plan, 0, 2, true);
    check_failing(&rt, rt.alloc(), &plan, 0, 3, true);
    check_failing(&rt, rt.alloc(), &plan, 0, 4, false);
}

// Block 1 goes to a slot and back: the disk fails, and the store counts one fault, or there is none.
fn check_failing(rt: &impl Abort, alloc: Global, plan: &Plan, append: u32, read: u32, fails: bool)
    requires well { IsWellFormed plan.now }
    requires block { IsNumberIn plan.now.blocks 1 }
{
    let mut store = failing(rt, alloc, append, read);
    let fault = there_and_back(rt, alloc, plan, &mut store).err();
    if fails {
        assert_eq!(rt;
            fault,
            Some(StoreFault::Disk),
            "append {append}, read {read}"
        );
        assert_eq!(rt; store.faults(), 1);
    } else {
        assert_eq!(rt; fault, None, "append {append}, read {read}");
        assert_eq!(rt; store.faults(), 0);
    }
}

#[test]
fn a_copy_comes_back_from_memory(rt: HostRuntime) {
    let plan = plan_of(&rt, rt.alloc(), THREE_PIECES);
    assert!(rt; !plan.blocks.as_slice().is_empty());
    let mut store = NeverFails::new(rt.alloc());
    check_back(&rt, rt.alloc(), &plan, &mut store);
}

#[test]
fn a_copy_comes_back_from_a_file(rt: HostRuntime) {
    let plan = plan_of(&rt, rt.alloc(), THREE_PIECES);
    assert!(rt; !plan.blocks.as_slice().is_empty());
    let all = env::temp_dir(&rt).expect(&rt, "a folder");
    let number = process::id(rt.process());
    let folder = format!(in rt.alloc(); "{}/ddeps-spills-{number}", all.as_path().display()).expect(
        &rt, "memory",
    );
    let mut store = DirStore::new(&rt, rt.alloc(), &folder).expect(&rt, "a store");
    check_back(&rt, rt.alloc(), &plan, &mut store);
    assert_eq!(rt; store.made(), 1);
    fs::remove_dir(&rt, &folder).expect(&rt, "an empty folder");
}

// What comes back from the store has the values and the versions of a fresh copy of block 1.
fn check_back<D: Store>(rt: &impl Abort, alloc: Global, plan: &Plan, store: &mut D)
    requires well { IsWellFormed plan.now }
    requires block { IsNumberIn plan.now.blocks 1 }
    requires made { D.made store.old < 2 ^ 64 - 1 }
{
    let back = there_and_back(rt, alloc, plan, store).expect(rt, "back");
    let fresh = fresh_fill(alloc, plan, 1).expect(rt, "memory");
    assert_eq!(rt; back.values(), fresh.values());
    check_one_version(rt, &back, 0);
}

// A block goes to a slot before a task and to another one after it. What comes back is what went to that slot.
#[test]
fn each_slot_has_its_own_values(rt: HostRuntime) {
    let plan = plan_of(&rt, rt.alloc(), OVERLAPPING);
    assert!(rt; !plan.blocks.as_slice().is_empty());
    let mut store = failing(&rt, rt.alloc(), 0, 0);
    let before = fresh_fill(rt.alloc(), &plan, 1).expect(&rt, "memory");
    let mut older = slot_of(&rt, rt.alloc(), &mut store, before);
    let after = copy_after_the_task(&rt, rt.alloc(), &plan);
    let mut newer = slot_of(&rt, rt.alloc(), &mut store, after);
    check_slot(&rt, &mut newer, &[2, 1, 2, 3], 1);
    check_slot(&rt, &mut older, &[1, 2, 3, 4], 0);
}

// A slot of a store in memory, with what a copy holds.
fn slot_of<'p>(
    rt: &impl Abort,
    alloc: Global,
    store: &mut MemStore,
    copy: Stamped<'p>,
) -> Spilled<'p, MemSlot> {
    assert!(rt; store.made() < 9);
    let slot = store.make().expect(rt, "slot");
    let Ok(out) = spill(alloc, copy, slot) else {
        panic!(rt; "not spilled")
    };
    out
}

// What comes back of a slot has these values, and one version everywhere.
fn check_slot(rt: &impl Abort, out: &mut Spilled<'_, MemSlot>, values: &[i64], version: u32) {
    let back = out.recall().expect(rt, "recalled");
    assert_eq!(rt; back.values(), values);
    check_one_version(rt, &back, version);
}
