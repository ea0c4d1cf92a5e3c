//! What a task leaves: new versions in its copies, and among the current ones.
ghost use Rattle.std.specs.Prelude.{◌≡◌, ◌+◌, ◌<◌, ◌^◌, ℕ, length, nat_eq, slice_index, if◌then◌else◌};
ghost use Rattle.std.specs.List.{list_any};
ghost use Rattle.dd_blocks.specs.Layout.{elements_in};
ghost use Rattle.dd_blocks.specs.WellFormed.{IsWellFormed};
ghost use Rattle.dd_machine.specs.Effects.{versions_where};
ghost use Rattle.dd_machine.specs.Words.{IsOneOf, blocks, element, size, tasks, writes};
ghost use Rattle.dd_blocks.specs.Elements.{Element as OneElement};
ghost use Rattle.dd_tables.specs.Currents.{current_of};
ghost use Rattle.dd_tables.specs.Places.{IsPlace};
ghost use Rattle.dd_views.specs.IndexList.{index_list};
ghost use Rattle.dd_views.specs.Views.{IsView};

use crate::elements::Element;
use crate::rows::size;
use dd_blocks::Plan;
use dd_spans::RunMap;
use dd_views::View;

/// Whether a task writes the element at a place of a block.
#[tactic(auto, unfolding(dd_machine::specs::Words::writes))]
pub fn writes(plan: &Plan, task: u32, block: u32, i: u64) -> bool
    requires well { IsWellFormed plan.now }
    requires task { IsOneOf (tasks plan.now) task }
    requires place { IsPlace plan.now block i }
    ensures { result ≡ writes plan.now task (element plan.now block i) }
{
    Element::at(plan, block, i).is_written_by(plan.task(task))
}

/// The version of a place of a block once a task is done.
fn written(plan: &Plan, task: u32, block: u32, i: u64, version: u32) -> u32
    requires well { IsWellFormed plan.now }
    requires task { IsOneOf (tasks plan.now) task }
    requires place { IsPlace plan.now block i }
    ensures { result ≡ (if writes plan.now task (element plan.now block i) then task else version) }
{
    if writes(plan, task, block, i) {
        task
    } else {
        version
    }
}

/// The elements of a block that a task writes take its number.
pub fn write_versions(plan: &Plan, versions: &mut RunMap, task: u32, block: u32)
    requires well { IsWellFormed plan.now }
    requires task { IsOneOf (tasks plan.now) task }
    requires block { IsOneOf (blocks plan.now) block }
    requires len { length versions.old.list ≡ size plan.now block }
    ensures { versions.new.list
        ≡ versions_where (λ i. writes plan.now task (element plan.now block i)) (λ i. task) 0 versions.old.list }
{
    for i in 0..size(plan, block) {
        let version = written(plan, task, block, i, versions.get(i));
        versions.set(i, version);
    }
}

/// The elements of a view take a version, among those of all arrays.
fn write_view(current: &mut RunMap, first: u64, view: &View, version: u32)
    requires view { IsView view.now }
    requires small { length current.old.list < 2 ^ 32 }
    requires within { (i : ℕ) → i < length (index_list view.now)
        → first + slice_index (index_list view.now) i < length current.old.list }
    ensures value { (n : ℕ) → slice_index current.new.list n
        ≡ (if list_any (λ pos. nat_eq (first + pos) n) (index_list view.now) then version else slice_index current.old.list n) }
    ensures len { length current.new.list ≡ length current.old.list }
{
    for i in 0..view.len() {
        current.set(first + view.at(i), version);
    }
}

/// The elements that a task writes take its number, among those of all arrays.
pub fn write_current(plan: &Plan, current: &mut RunMap, task: u32)
    requires well { IsWellFormed plan.now }
    requires task { IsOneOf (tasks plan.now) task }
    requires len { length current.old.list ≡ elements_in plan.now.arrays }
    ensures value { (e : OneElement) → current_of plan.now current.new.list e
        ≡ (if writes plan.now task e then task else current_of plan.now current.old.list e) }
    ensures len { length current.new.list ≡ length current.old.list }
{
    for access in plan.task(task).accesses.as_slice() {
        if access.writes() {
            write_view(
                current,
                plan.array(access.view.array).first_element,
                &access.view,
                task,
            );
        }
    }
}
