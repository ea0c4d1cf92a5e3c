//! The elements that a task writes are set.
ghost use Rattle.std.specs.Prelude.{◌≡◌, ◌+◌, ◌^◌, ◌<◌, length, All};
ghost use Rattle.dd_blocks.specs.Layout.{elements_in};
ghost use Rattle.dd_blocks.specs.Numbered.{IsNumberIn};
ghost use Rattle.dd_blocks.specs.WellFormed.{IsWellFormed};
ghost use Rattle.dd_history.specs.Currents.{AreVersions, IsFinished};
ghost use Rattle.dd_history.specs.Sets.{IsAccess, IsSetWhere, is_at, writes_at};
ghost use Rattle.dd_views.specs.IndexList.{index_list};
ghost use Rattle.dd_views.specs.Views.{IsView};

use dd_blocks::{AccessRow, Plan};
use dd_spans::RunMap;
use dd_views::View;

/// Sets the elements that a task writes to its number.
pub(crate) fn set_written(versions: &mut RunMap, plan: &Plan, task: u32)
    requires well { IsWellFormed plan.now }
    requires versions { AreVersions plan.now versions.old.list }
    requires task { IsNumberIn plan.now.tasks task }
    ensures finished { IsFinished plan.now task versions.old.list versions.new.list }
    ensures versions { AreVersions plan.now versions.new.list }
    ensures spare { versions.new.spare ≡ versions.old.spare }
{
    for access in plan.task(task).accesses.as_slice() {
        set_access(versions, plan, access, task);
    }
}

/// Sets the elements of an access, where it is one that writes.
fn set_access(versions: &mut RunMap, plan: &Plan, access: &AccessRow, task: u32)
    requires well { IsWellFormed plan.now }
    requires count { length versions.old.list ≡ elements_in plan.now.arrays }
    requires access { IsAccess plan.now access.now }
    ensures set { IsSetWhere (λ q. writes_at plan.now q access.now) task versions.old.list versions.new.list }
    ensures spare { versions.new.spare ≡ versions.old.spare }
{
    if access.writes() {
        let first = plan.array(access.view.array).first_element;
        set_view(versions, first, &access.view, task);
    }
}

/// Sets the elements of a view, where `first` elements stand before its array.
fn set_view(versions: &mut RunMap, first: u64, view: &View, task: u32)
    requires view { IsView view.now }
    requires within { All (λ p. first + p < length versions.old.list) (index_list view.now) }
    requires small { length versions.old.list < 2 ^ 63 }
    ensures set { IsSetWhere (is_at first (index_list view.now)) task versions.old.list versions.new.list }
    ensures spare { versions.new.spare ≡ versions.old.spare }
{
    for i in 0..view.len() {
        versions.set(first + view.at(i), task);
    }
}
