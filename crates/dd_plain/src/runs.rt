//! Elements of an array that stand one after the other.
ghost use Rattle.std.specs.Prelude.{◌≡◌, ◌+◌, ◌*◌, ◌≤◌, true, All, IfSome};
ghost use Rattle.dd_views.specs.declared.shape.Shape.{Shape};
ghost use Rattle.dd_views.specs.IndexList.{index_list};
ghost use Rattle.dd_views.specs.Views.{IsView, IsViewOf};
ghost use Rattle.dd_blocks.specs.declared.access_row.AccessRow.{AccessRow};
ghost use Rattle.dd_plain.specs.Lending.{is_run};
ghost use Rattle.dd_plain.specs.Runs.{AreBeside, positions};

use crate::lending::is_run;
use dd_blocks::AccessRow;
use dd_views::View;

/// Positions of an array, from 0: `count` of them, from `first` on.
#[derive(Clone, Copy)]
pub(crate) struct Segment {
    pub first: usize,
    pub count: usize,
}

/// The run that a view is. It begins at 0 where there are no elements.
pub(crate) fn run_of(view: &View) -> Segment
    requires view { IsView view.now }
    requires run { is_run view.now ≡ true }
    ensures positions { index_list view.now ≡ positions result }
    ensures within { (shape : Shape) → IsViewOf shape view.now → result.first + result.count ≤ shape.rows * shape.cols }
{
    let count = view.len();
    if count == 0 {
        return Segment { first: 0, count: 0 };
    }
    let last = view.at(count - 1);
    Segment {
        first: (last + 1 - count) as usize,
        count: count as usize,
    }
}

/// The runs of two accesses of one array that share no element. `None` is for all others.
pub(crate) fn beside(accesses: &[AccessRow]) -> Option<(Segment, Segment)>
    requires { All (λ (a : AccessRow). IsView a.view) accesses.now }
    ensures { IfSome result (λ at. AreBeside accesses.now at.0 at.1) }
{
    let [first, second] = accesses else {
        return None;
    };
    if first.view.array != second.view.array || !is_run(&first.view) || !is_run(&second.view) {
        return None;
    }
    let (x, y) = (run_of(&first.view), run_of(&second.view));
    if x.first + x.count <= y.first || y.first + y.count <= x.first {
        Some((x, y))
    } else {
        None
    }
}
